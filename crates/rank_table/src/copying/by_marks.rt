//! Entries in the order of a table, whatever their counts: marks of the slots are sorted where the entries will be, and each
//! mark is then replaced by its slot's entry.

ghost use Rattle.std.specs.Prelude.{◌≡◌, ◌^◌, ◌<◌, All, length, map};
ghost use Rattle.std.specs.List.Sorted.{IsNonDecreasingBy, IsPermutation};
ghost use Rattle.rank_table.specs.Marks.{marks_from, rank_of_mark, slot_of_mark};
ghost use Rattle.rank_table.specs.SlotOrder.{AreOrdered, ordered_entries};

use crate::slot::Slot;
use space_saving::Entry;

/// Writes the entries of slots in their order over as many entries, by sorting a mark for each.
pub(crate) fn write_by_marks(slots: &[Slot], into: &mut [Entry])
    requires slots { AreOrdered (2 ^ 18) slots.now }
    requires as_many { length into.old ≡ length slots.now }
    ensures { into.new ≡ ordered_entries slots.now }
{
    write_marks(slots, into);
    sort_marks(into);
    write_entries(slots, into);
}

// Writes a mark for each slot.
fn write_marks(slots: &[Slot], into: &mut [Entry])
    requires { length into.old ≡ length slots.now }
    ensures { into.new ≡ marks_from 0 slots.now }
{
    for place in 0..slots.len() {
        let slot = slots[place];
        into[place] = Entry {
            key: place as u64,
            count: slot.entry.count,
            error: slot.time,
        };
    }
}

// Sorts marks by the ranks of their slots.
fn sort_marks(marks: &mut [Entry])
    ensures permuted { IsPermutation marks.old marks.new }
    ensures rising { IsNonDecreasingBy rank_of_mark marks.new }
{
    marks.sort_unstable_by_key(|mark| mark_rank(mark));
}

// The rank of the slot that has the mark.
fn mark_rank(mark: &Entry) -> u128
    ensures { result ≡ rank_of_mark mark.now }
{
    u128::from(mark.count) * (1 << 64) + u128::from(mark.error)
}

// Writes over each mark the entry of its slot.
fn write_entries(slots: &[Slot], marks: &mut [Entry])
    requires { All (λ mark. mark.key < length slots.now) marks.old }
    ensures { marks.new ≡ map (λ mark. (slot_of_mark slots.now mark).entry) marks.old }
{
    for place in 0..marks.len() {
        let mark = marks[place];
        marks[place] = slots[mark.key as usize].entry;
    }
}
