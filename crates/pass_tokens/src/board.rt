//! The shards of a board, folded and read by many threads.

ghost use Rattle.std.specs.Prelude.{◌≡◌, ◌≤◌, ◌<◌, length, IfOk};
ghost use Rattle.shard_state.specs.{AreCoreShards, HasCoreShape, core_shape};
ghost use Rattle.position_words.specs.{StepMeets, first_view, after_join, after_look, newcomer_view};
ghost use Rattle.position_words.specs.{after_split, view, IsUnderRule};
ghost use Rattle.pass_tokens.specs.Board.{IsPassOf};
ghost use Rattle.pass_tokens.specs.TryFold.{FoldsAtLast, TriesFold};
ghost use Rattle.pass_tokens.specs.TryRead.{ReadsAtLast, ReadsCut, TriesToRead};

use position_words::{Aim, Seat, Shared, SlotRule, TableRule, Take, View, Words};
use shard_state::{Cut, Folded, ShardState};
use std::alloc::{AllocError, Global};
use std::marker::Model;
use std::snapshot::Snapshot;
use std::sync::Wait;
use std::thread;

/// What a thread folds and reads with: a token without bytes. Contracts see its view, which has the positions that it
/// has seen, and each look, read, fold and lost take that it made.
pub type Pass = Seat;

/// The result of a try to fold a shard.
#[derive(Clone, Copy, Debug, PartialEq, Eq)]
pub enum TryFold {
    /// A block was counted, or the shard was at its end.
    Done(Folded),
    /// Another pass holds the shard.
    Busy,
}

/// The result of a try to read a shard.
#[derive(Clone, Copy, Debug, PartialEq, Eq)]
pub enum TryRead {
    /// The cut has the shard's snapshot.
    Done,
    /// Another pass holds the shard.
    Busy,
}

/// 1 to 16 shards of one grain and capacity, which threads share. Contracts see the shards as they were at the start.
#[derive(Drop)]
pub struct Board {
    pub(crate) words: Words,
}

impl Model for Board {
    ghost use Rattle.position_words.specs.{WordsValue};

    ghost Value = { WordsValue };

    ghost view = { λ b. b.words };

    ghost invariant = { λ b. Unit {0} };
}

impl Board {
    /// The board of 1 to 16 shards of one grain and capacity, and its first pass, which has seen their positions. On an error,
    /// which means that memory ran out, the states are dropped.
    pub fn start(alloc: Global, states: Vec<ShardState>) -> Result<(Board, Pass), AllocError>
        requires { AreCoreShards states.items }
        ensures opening { IfOk result (λ made. made.0.opening ≡ states.items) }
        ensures pass { IfOk result (λ made. IsPassOf made.0 made.1) }
        ensures view { IfOk result (λ made. view made.1 ≡ first_view states.items) }
    {
        let (words, pass) = Words::start(alloc, states)?;
        Ok((Board { words }, pass))
    }

    /// How many shards there are, 1 to 16.
    pub fn shards(&self) -> u32
        ensures shards { result ≡ length self.now.opening }
        ensures kept { AreCoreShards self.now.opening }
    {
        self.words.shards()
    }

    /// What threads share. The states that its rule allows, and so each in which it is between any two steps, keep the
    /// rule of words and slots over the shards as they were at the start.
    pub fn shared(&self) -> &Shared
        ensures id { result.now.table_id ≡ self.now.id }
        ensures rule { IsUnderRule self.now.opening (⟦<SlotRule as TableRule<Option<ShardState>, View, Snapshot<Vec<ShardState>>>>⟧.holds result.now.key) }
    {
        self.words.shared()
    }

    /// A new pass, which has seen the same positions as this one.
    pub fn split(&self, pass: &mut Pass) -> Pass
        requires { IsPassOf self.now pass.old }
        ensures split { view pass.new ≡ after_split (view pass.old) }
        ensures newcomer { view result ≡ newcomer_view (view pass.old) }
        ensures pass { IsPassOf self.now pass.new }
        ensures new_pass { IsPassOf self.now result }
    {
        self.words.split(pass)
    }

    /// Joins another pass to this one, which has then seen what both had, keeps its own steps, and notes those of the
    /// other.
    pub fn join(&self, pass: &mut Pass, other: Pass)
        requires pass { IsPassOf self.now pass.old }
        requires other { IsPassOf self.now other }
        ensures join { view pass.new ≡ after_join (view pass.old) (view other) }
        ensures pass { IsPassOf self.now pass.new }
    {
        self.words.join(pass, other);
    }

    /// The position of a shard, at least the one that the pass had seen, whether or not a pass holds the shard.
    pub fn position(&self, shard: u32, pass: &mut Pass) -> u64
        requires within { shard < length self.now.opening }
        requires pass { IsPassOf self.now pass.old }
        ensures look { view pass.new ≡ after_look shard result (view pass.old) }
        ensures meets { StepMeets shard result (view pass.old) }
        ensures pass { IsPassOf self.now pass.new }
    {
        self.words.look(shard, pass)
    }

    /// Counts the next `block` records of a shard, at least one, or its remaining records, unless another pass holds
    /// the shard. It allocates no memory.
    pub fn try_fold(&self, shard: u32, block: u32, pass: &mut Pass) -> TryFold
        requires within { shard < length self.now.opening }
        requires block { 1 ≤ block }
        requires pass { IsPassOf self.now pass.old }
        ensures fold { TriesFold self.now.opening shard block (view pass.old) (view pass.new) result }
        ensures pass { IsPassOf self.now pass.new }
    {
        match self.words.try_take(shard, Aim::Fold, pass) {
            Take::Busy => TryFold::Busy,
            Take::Taken(mut state) => {
                let folded = state.fold_block(block);
                self.words.give(shard, pass, state);
                TryFold::Done(folded)
            }
        }
    }

    /// Makes a cut's snapshot of a shard equal to the shard's, unless another pass holds the shard. The cut has the
    /// board's shape, and its other shards are unchanged. It allocates no memory.
    #[tactic(auto, using(crate::proofs::PassReadLemmas::is_pass_read))]
    pub fn try_read(&self, shard: u32, pass: &mut Pass, cut: &mut Cut) -> TryRead
        requires within { shard < length self.now.opening }
        requires pass { IsPassOf self.now pass.old }
        requires shape { HasCoreShape (length self.now.opening) (core_shape self.now.opening) cut.old }
        ensures read { TriesToRead self.now.opening shard (view pass.old) cut.old (view pass.new) cut.new result }
        ensures shape { HasCoreShape (length self.now.opening) (core_shape self.now.opening) cut.new }
        ensures pass { IsPassOf self.now pass.new }
    {
        let _shards = self.words.shards();
        match self.words.try_take(shard, Aim::Read, pass) {
            Take::Busy => TryRead::Busy,
            Take::Taken(state) => {
                let _position = state.position();
                cut.copy_shard(shard, &state);
                self.words.give(shard, pass, state);
                TryRead::Done
            }
        }
    }

    /// Counts the next `block` records of a shard, at least one, or its remaining records. It tries until no other pass
    /// holds the shard, and lets other threads run between two tries. It allocates no memory.
    #[tactic(auto, using(crate::proofs::WaitLemmas::wait_without_losses, crate::proofs::WaitLemmas::wait_loses_again, crate::proofs::WaitLemmas::wait_ends_with_fold))]
    pub fn fold<R: Wait>(&self, rt: &R, shard: u32, block: u32, pass: &mut Pass) -> Folded
        requires within { shard < length self.now.opening }
        requires block { 1 ≤ block }
        requires pass { IsPassOf self.now pass.old }
        ensures fold { FoldsAtLast self.now.opening shard block (view pass.old) (view pass.new) result }
        ensures pass { IsPassOf self.now pass.new }
    {
        for _ in rt.forever() {
            match self.try_fold(shard, block, pass) {
                TryFold::Done(done) => return done,
                TryFold::Busy => thread::yield_now(),
            }
        }
        unreachable!()
    }

    /// Reads each shard once, in order, into a cut of the board's shape. It tries each until no other pass holds it,
    /// and lets other threads run between two tries. It allocates no memory.
    pub fn read_cut<R: Wait>(&self, rt: &R, pass: &mut Pass, cut: &mut Cut)
        requires pass { IsPassOf self.now pass.old }
        requires shape { HasCoreShape (length self.now.opening) (core_shape self.now.opening) cut.old }
        ensures read { ReadsCut self.now.opening (view pass.old) cut.old (view pass.new) cut.new }
        ensures shape { HasCoreShape (length self.now.opening) (core_shape self.now.opening) cut.new }
        ensures pass { IsPassOf self.now pass.new }
    {
        for shard in 0..self.shards() {
            self.read(rt, shard, pass, cut);
        }
    }

    // Reads a shard into a cut, as soon as no other pass holds it.
    #[tactic(auto, using(crate::proofs::WaitLemmas::wait_without_losses, crate::proofs::WaitLemmas::wait_loses_again, crate::proofs::WaitLemmas::wait_ends_with_read))]
    fn read<R: Wait>(&self, rt: &R, shard: u32, pass: &mut Pass, cut: &mut Cut)
        requires within { shard < length self.now.opening }
        requires pass { IsPassOf self.now pass.old }
        requires shape { HasCoreShape (length self.now.opening) (core_shape self.now.opening) cut.old }
        ensures read { ReadsAtLast self.now.opening shard (view pass.old) cut.old (view pass.new) cut.new }
        ensures shape { HasCoreShape (length self.now.opening) (core_shape self.now.opening) cut.new }
        ensures pass { IsPassOf self.now pass.new }
    {
        for _ in rt.forever() {
            match self.try_read(shard, pass, cut) {
                TryRead::Done => return,
                TryRead::Busy => thread::yield_now(),
            }
        }
        unreachable!()
    }
}
