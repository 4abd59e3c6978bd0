//! The rank of a slot in one word: excess of the count over a base in 34 bits, time in 18, place in 12.

ghost use Rattle.std.specs.Prelude.{◌≡◌, ◌^◌, ◌<◌, ◌≤◌, ◌↔◌, IsTrue};
ghost use Rattle.rank_table.specs.Words.{IsExactWord, rank_word};

use crate::slot::Slot;

/// The number of values that a place can have in a word.
pub(crate) const PLACES: u64 = 1 << 12;

/// The number of values that a time can have in a word.
pub(crate) const TIMES: u64 = 1 << 18;

/// What one more of excess adds to a word, which is more than any time and place do.
const EXCESS_STEP: u64 = TIMES * PLACES;

/// The greatest excess that fits. A slot that has more gets this.
const MOST_EXCESS: u64 = (1 << 34) - 1;

/// The rank of a slot at a place in one word: no slot of a lower rank has a greater excess and time in its word.
pub(crate) fn word_of(base: u64, slot: &Slot, place: usize) -> u64
    requires above { base ≤ slot.now.entry.count }
    requires early { slot.now.time < 2 ^ 18 }
    requires within { place < 4096 }
    ensures { result ≡ rank_word base slot.now place }
{
    let excess = (slot.entry.count - base).min(MOST_EXCESS);
    excess * EXCESS_STEP + slot.time * PLACES + place as u64
}

/// Whether the excess fits into the word. Where it doesn't, slots of other counts can have the same.
pub(crate) fn is_exact(base: u64, slot: &Slot) -> bool
    requires { base ≤ slot.now.entry.count }
    ensures { IsTrue result ↔ IsExactWord base slot.now }
{
    slot.entry.count - base < MOST_EXCESS
}
