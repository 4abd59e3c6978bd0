//! The single steps on words and slots, each one call of the table.

ghost use Rattle.std.specs.Prelude.{◌≡◌, ◌<◌, ◌≤◌, ◌^◌, ◌/◌, [], ◌∷◌, length, None, Some};
ghost use Rattle.prefix_lattice.specs.{record_limit};
ghost use Rattle.position_words.specs.View.{after_giving, after_look};
ghost use Rattle.position_words.specs.Seat.{IsSeatOf, view};
ghost use Rattle.position_words.specs.Steps.{StepHasTaken, StepIsReady, IsSameSeat};
ghost use Rattle.position_words.specs.Steps.{StepMarks, StepMeets};

use super::{Seat, Words};
use crate::rule::{Giving, Looking, TakingToFold, TakingToRead};
use crate::view::Aim;
use shard_state::ShardState;

impl Words {
    // A load of a shard's word.
    pub(super) fn load(&self, shard: u32, seat: &mut Seat) -> u64
        requires within { shard < length self.now.opening }
        requires seat { IsSeatOf self.now seat.old }
        ensures same { IsSameSeat seat.old seat.new }
        ensures meets { StepMeets shard (result / 2) (view seat.old) }
        ensures me { seat.new.me ≡ (after_look shard (result / 2) (view seat.old), seat.old.me.1) }
    {
        self.table.shared.load::<Looking>(seat, shard as usize)
    }

    // A `fetch_or` that marks a shard's word as taken.
    pub(super) fn mark(&self, shard: u32, aim: Aim, seat: &mut Seat) -> u64
        requires within { shard < length self.now.opening }
        requires seat { IsSeatOf self.now seat.old }
        requires free { (view seat.old).held ≡ None }
        ensures same { IsSameSeat seat.old seat.new }
        ensures take { StepMarks aim shard seat.old.me result seat.new.me }
    {
        let word = shard as usize;
        let shared = &self.table.shared;
        match aim {
            Aim::Fold => shared.fetch_or::<TakingToFold>(seat, word, 1),
            Aim::Read => shared.fetch_or::<TakingToRead>(seat, word, 1),
        }
    }

    // The state in the slot that the seat has taken, which is empty afterwards.
    pub(super) fn take_out(&self, shard: u32, seat: &mut Seat) -> ShardState
        requires id { seat.old.table_id ≡ self.now.id }
        requires taken { StepHasTaken shard seat.old.me.1 }
        ensures same { IsSameSeat seat.old seat.new }
        ensures out { seat.old.me.1 ≡ (shard, Some result) ∷ [] }
        ensures me { seat.new.me ≡ (view seat.old, (shard, None) ∷ []) }
    {
        self.table
            .shared
            .exchange(seat, shard as usize, None)
            .unwrap()
    }

    // Puts a state into the empty slot of the shard that the seat holds.
    pub(super) fn put_in(&self, shard: u32, state: ShardState, seat: &mut Seat)
        requires id { seat.old.table_id ≡ self.now.id }
        requires empty { seat.old.me.1 ≡ (shard, None) ∷ [] }
        ensures same { IsSameSeat seat.old seat.new }
        ensures me { seat.new.me ≡ (view seat.old, (shard, Some state) ∷ []) }
    {
        let _empty = self
            .table
            .shared
            .exchange(seat, shard as usize, Some(state));
    }

    // A store of a shard's word, which gives the slot back.
    pub(super) fn store(&self, shard: u32, position: u64, seat: &mut Seat)
        requires id { seat.old.table_id ≡ self.now.id }
        requires small { position ≤ record_limit }
        requires ready { StepIsReady self.now.opening shard position seat.old.me }
        ensures same { IsSameSeat seat.old seat.new }
        ensures me { seat.new.me ≡ (after_giving position (view seat.old), []) }
    {
        self.table
            .shared
            .store::<Giving>(seat, shard as usize, 2 * position);
    }
}
