//! Entries in the order of a table, without allocating memory.

ghost use Rattle.std.specs.Prelude.{◌≡◌, ◌^◌, ◌≤◌, length};
ghost use Rattle.rank_table.specs.SlotOrder.{AreOrdered, ordered_entries};

mod by_marks;
mod by_words;

use crate::copying::by_marks::write_by_marks;
use crate::copying::by_words::write_by_words;
use crate::slot::Slot;
use crate::words::PLACES;
use space_saving::Entry;

/// Writes the entries of slots in their order over as many entries, at most 4,096, in the time of one sort: of words, or,
/// where a count is too great for one, of marks.
pub(crate) fn write_in_order(slots: &[Slot], into: &mut [Entry])
    requires slots { AreOrdered (2 ^ 18) slots.now }
    requires few { length slots.now ≤ 4096 }
    requires as_many { length into.old ≡ length slots.now }
    ensures { into.new ≡ ordered_entries slots.now }
{
    let mut room = room_for_words();
    if !write_by_words(slots, &mut room[..slots.len()], into) {
        write_by_marks(slots, into);
    }
}

// Room for a word of each slot. It has a function of its own so that the array is part of no other proof goal.
fn room_for_words() -> [u64; PLACES as usize] {
    [0; PLACES as usize]
}
