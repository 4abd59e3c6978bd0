//! The words and slots of shards, and the steps on them.

ghost use Rattle.std.specs.Prelude.{◌≡◌, ◌≤◌, ◌<◌, ◌*◌, ◌^◌, All, length, map, IfOk, None, Some};
ghost use Rattle.prefix_lattice.specs.{record_limit};
ghost use Rattle.shard_state.specs.{AreCoreShards};
ghost use Rattle.position_words.specs.View.{first_view, after_giving, after_join, after_look};
ghost use Rattle.position_words.specs.View.{newcomer_view, after_split};
ghost use Rattle.position_words.specs.Words.{IsShardAtSome, MayGiveAt};
ghost use Rattle.position_words.specs.Rule.{IsUnderRule};
ghost use Rattle.position_words.specs.Seat.{IsSeatOf, view};
ghost use Rattle.position_words.specs.Steps.{StepAnswers, StepMeets};

use crate::rule::{Joining, SlotRule, SplittingOff};
use crate::view::{Aim, View};
use atomic_table::TableRule;
use shard_state::{ShardState, states_are_kept};
use std::alloc::{AllocError, Global};
use std::marker::Model;
use std::snapshot::Snapshot;

mod steps;

/// What a thread makes its steps with: a token without bytes. Contracts see which words it belongs to, and its view.
pub type Seat = atomic_table::Seat<Option<ShardState>, View>;

/// The result of a take.
#[derive(Drop)]
pub enum Take {
    /// The state of the shard, which the seat holds until it gives it back.
    Taken(ShardState),
    /// Another seat holds the shard.
    Busy,
}

/// What threads share: the words and slots of shards, a table under `SlotRule`.
pub type Shared = atomic_table::Shared<
    Option<ShardState>,
    View,
    Snapshot<Vec<ShardState>>,
    SlotRule,
>;

type Table = atomic_table::Table<
    Option<ShardState>,
    View,
    Snapshot<Vec<ShardState>>,
    SlotRule,
    Global,
>;

/// The words and slots of 1 to 16 shards.
#[derive(Drop)]
pub struct Words {
    table: Table,
}

impl Model for Words {
    ghost use Rattle.std.specs.Prelude.{◌≡◌, length};
    ghost use Rattle.shard_state.specs.{AreCoreShards};
    ghost use Rattle.position_words.specs.Words.{WordsValue};

    ghost Value = { WordsValue };

    ghost view = { λ w. record { id = w.table.shared.table_id; opening = w.table.shared.key.value.items } };

    ghost invariant = { λ w. (w.table.shared.table_id.words ≡ length w.table.shared.key.value.items)
        × (w.table.shared.table_id.slots ≡ length w.table.shared.key.value.items)
        × AreCoreShards w.table.shared.key.value.items };
}

impl Words {
    /// The words of 1 to 16 shards of one grain and capacity, and the first seat, which has seen the shards' positions. On an
    /// error, which means that memory ran out, the states are dropped.
    pub fn start(alloc: Global, states: Vec<ShardState>) -> Result<(Words, Seat), AllocError>
        requires { AreCoreShards states.items }
        ensures opening { IfOk result (λ made. made.0.opening ≡ states.items) }
        ensures seat { IfOk result (λ made. IsSeatOf made.0 made.1) }
        ensures view { IfOk result (λ made. view made.1 ≡ first_view states.items) }
    {
        states_are_kept(&states);
        let opening = Snapshot::of(&states);
        let words = starting_words(alloc, &states)?;
        let slots = filled_slots(alloc, states)?;
        match Table::new(alloc, words.as_slice(), slots, &opening) {
            Ok((table, seat)) => Ok((Words { table }, seat)),
            Err(_refused) => Err(AllocError),
        }
    }

    /// How many shards there are, 1 to 16.
    pub fn shards(&self) -> u32
        ensures shards { result ≡ length self.now.opening }
        ensures kept { AreCoreShards self.now.opening }
    {
        self.table.word_count() as u32
    }

    /// What threads share. The states that its rule allows, and so each in which it is between any two steps, keep the
    /// rule of words and slots over the shards as they were at the start.
    pub fn shared(&self) -> &Shared
        ensures id { result.now.table_id ≡ self.now.id }
        ensures words { result.now.table_id.words ≡ length self.now.opening }
        ensures rule { IsUnderRule self.now.opening (⟦<SlotRule as TableRule<Option<ShardState>, View, Snapshot<Vec<ShardState>>>>⟧.holds result.now.key) }
    {
        &self.table.shared
    }

    /// The position of a shard: one load of its word.
    #[tactic(auto, using(crate::proofs::SeatLemmas::seat_stays_after_change))]
    pub fn look(&self, shard: u32, seat: &mut Seat) -> u64
        requires within { shard < length self.now.opening }
        requires seat { IsSeatOf self.now seat.old }
        ensures look { view seat.new ≡ after_look shard result (view seat.old) }
        ensures meets { StepMeets shard result (view seat.old) }
        ensures seat { IsSeatOf self.now seat.new }
    {
        self.load(shard, seat) / 2
    }

    /// Takes a shard, unless another seat holds it: one `fetch_or` of its word. The seat holds no shard yet.
    #[tactic(auto, using(crate::proofs::SeatLemmas::seat_id_after_winning, crate::proofs::SeatLemmas::seat_slot_after_winning, crate::proofs::SeatLemmas::seat_stays_after_winning))]
    pub fn try_take(&self, shard: u32, aim: Aim, seat: &mut Seat) -> Take
        requires within { shard < length self.now.opening }
        requires seat { IsSeatOf self.now seat.old }
        requires free { (view seat.old).held ≡ None }
        ensures take { StepAnswers self.now.opening shard aim (view seat.old) (view seat.new) result }
        ensures seat { IsSeatOf self.now seat.new }
    {
        let word = self.mark(shard, aim, seat);
        let is_held = word % 2 == 1;
        if is_held {
            return Take::Busy;
        }
        Take::Taken(self.take_out(shard, seat))
    }

    /// Gives back the shard that the seat holds, with its state: one store of its word.
    #[tactic(auto, using(crate::proofs::SeatLemmas::seat_slot_is_empty, crate::proofs::SeatLemmas::seat_is_ready_to_give, crate::proofs::SeatLemmas::seat_view_after_giving, crate::proofs::SeatLemmas::seat_is_free_after_giving))]
    pub fn give(&self, shard: u32, seat: &mut Seat, state: ShardState)
        requires seat { IsSeatOf self.now seat.old }
        requires state { IsShardAtSome self.now.opening shard state }
        requires held { MayGiveAt shard state.position (view seat.old) }
        ensures give { view seat.new ≡ after_giving state.position (view seat.old) }
        ensures free { (view seat.new).held ≡ None }
        ensures seat { IsSeatOf self.now seat.new }
    {
        let position = state.position();
        self.put_in(shard, state, seat);
        self.store(shard, position, seat);
    }

    /// A new seat, which has seen the same positions as this one. Neither holds a shard.
    pub fn split(&self, seat: &mut Seat) -> Seat
        requires seat { IsSeatOf self.now seat.old }
        requires free { (view seat.old).held ≡ None }
        ensures split { view seat.new ≡ after_split (view seat.old) }
        ensures newcomer { view result ≡ newcomer_view (view seat.old) }
        ensures seat { IsSeatOf self.now seat.new }
        ensures new_seat { IsSeatOf self.now result }
    {
        self.table.shared.split_seat::<SplittingOff>(seat)
    }

    /// Joins another seat to this one, which has then seen what both had, keeps its own steps, and notes those of the
    /// other. Neither holds a shard.
    pub fn join(&self, seat: &mut Seat, other: Seat)
        requires seat { IsSeatOf self.now seat.old }
        requires free { (view seat.old).held ≡ None }
        requires other { IsSeatOf self.now other }
        requires other_free { (view other).held ≡ None }
        ensures join { view seat.new ≡ after_join (view seat.old) (view other) }
        ensures seat { IsSeatOf self.now seat.new }
    {
        self.table.shared.join_seat::<Joining>(seat, other);
    }
}

// A word for each state: twice its position.
fn starting_words(alloc: Global, states: &[ShardState]) -> Result<Vec<u64>, AllocError>
    requires { All (λ state. state.position ≤ record_limit) states.now }
    ensures { IfOk result (λ words. words.items ≡ map (λ state. 2 * state.position) states.now) }
{
    let mut words = Vec::with_capacity(alloc, states.len())?;
    for state in states {
        words.push(2 * state.position())?;
    }
    Ok(words)
}

// A slot for each state.
fn filled_slots(
    alloc: Global,
    states: Vec<ShardState>,
) -> Result<Vec<Option<ShardState>>, AllocError>
    ensures { IfOk result (λ slots. slots.items ≡ map Some states.items) }
{
    let mut slots = Vec::with_capacity(alloc, states.len())?;
    for state in states {
        slots.push(Some(state))?;
    }
    Ok(slots)
}
