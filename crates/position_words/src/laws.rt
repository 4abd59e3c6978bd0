//! What the rule says of words and slots. `Words::shared` says that those at hand are under it.

ghost use Rattle.std.specs.Prelude.{◌≡◌, ◌/◌, ◌<◌, ℕ, List, length, Option, Some, slice_get, slice_index};
ghost use mathlib.Core.Option.{some};
ghost use lib.ListN.{get_elem?};
ghost use Rattle.atomic_table.specs.Table.{State};
ghost use Rattle.shard_state.specs.{ShardValue, shard_state_at};
ghost use Rattle.position_words.specs.declared.view.View.{View};
ghost use Rattle.position_words.specs.Rule.{IsKept};
ghost use Rattle.position_words.specs.Words.{IsEvenWord, IsOddWord};
ghost use Rattle.position_words.specs.Seat.{IsHoldingSeat};

/// Whenever a word is even, its slot has the state of the shard at half the word: the shard's list and base as they
/// were at the start, and the tables that the pure core has at that position.
pub fn even_words_hold_their_states()
    ensures { (opening : List ShardValue) (state : State (Option ShardValue) View) (place : ℕ) (shard : ShardValue) → IsKept opening state
        → slice_get opening place ≡ Some shard → IsEvenWord (slice_index state.words place)
        → get_elem? state.homes place ≡ some (some (Some (shard_state_at (slice_index state.words place / 2) shard))) }
{}

/// Whenever a word is odd, one seat holds the shard, and no other does.
pub fn odd_words_are_held()
    ensures held { (opening : List ShardValue) (state : State (Option ShardValue) View) (place : ℕ) → IsKept opening state
        → place < length opening → IsOddWord (slice_index state.words place) → (seat : ℕ) × IsHoldingSeat state.views seat place }
    ensures alone { (opening : List ShardValue) (state : State (Option ShardValue) View) (place seat other : ℕ) → IsKept opening state
        → IsHoldingSeat state.views seat place → IsHoldingSeat state.views other place → seat ≡ other }
{}
