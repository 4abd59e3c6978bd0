//! Slots by rank, found by looking at all of them.

ghost use Rattle.std.specs.Prelude.{◌≡◌, ◌^◌, ◌<◌, ◌≤◌, ℕ, Some, IsTrue, false, nat_lt, length, slice_get};
ghost use Rattle.std.specs.Prelude.{slice_index_or, count_by};
ghost use Rattle.key_index.specs.{HoldsKeys};
ghost use Rattle.rank_table.specs.declared.slot.Slot.{Slot};
ghost use Rattle.space_saving.specs.{interval_in, AreTableEntries};
ghost use Rattle.rank_table.specs.SlotOrder.{AreOrdered, ordered_entries, in_rank_order};
ghost use Rattle.rank_table.specs.Ranks.{slot_rank};
ghost use Rattle.rank_table.specs.Ranks.{HasLeast};
ghost use Rattle.rank_table.specs.Slot.{slot_keys};

use crate::slot::Slot;
use key_index::KeyIndex;

/// Whether the first slot comes before the second in a table: it has a smaller count, or an equal one for longer.
pub(crate) fn is_before(first: &Slot, second: &Slot) -> bool
    ensures rank { result ≡ nat_lt (slot_rank first.now) (slot_rank second.now) }
    ensures before { IsTrue result → first.now.entry.count ≤ second.now.entry.count }
    ensures behind { result ≡ false → second.now.entry.count ≤ first.now.entry.count }
{
    let sooner = first.time < second.time;
    if first.entry.count == second.entry.count {
        return sooner;
    }
    first.entry.count < second.entry.count
}

/// The place of the slot that comes before all others.
pub(crate) fn least_of(slots: &[Slot]) -> usize
    requires { 0 < length slots.now }
    ensures least { HasLeast slots.now result }
    ensures count { (other : ℕ) (d : Slot) → other < length slots.now
        → (slice_index_or slots.now result d).entry.count ≤ (slice_index_or slots.now other d).entry.count }
{
    let mut least = 0;
    for place in 1..slots.len() {
        if is_before(&slots[place], &slots[least]) {
            least = place;
        }
    }
    least
}

/// How many slots come before this one.
fn count_before(slots: &[Slot], slot: &Slot) -> usize
    ensures { result ≡ count_by (λ other. nat_lt (slot_rank other) (slot_rank slot.now)) slots.now }
{
    slots.iter().filter(|other| is_before(other, slot)).count()
}

/// The slot before which `place` others come. It may compare every slot with every other.
pub(crate) fn slot_at(slots: &[Slot], place: usize) -> Slot
    requires slots { AreOrdered (2 ^ 64) slots.now }
    requires within { place < length slots.now }
    ensures { slice_get (in_rank_order slots.now) place ≡ Some result }
{
    for slot in slots {
        if count_before(slots, slot) == place {
            return *slot;
        }
    }
    unreachable!()
}

/// The interval of a key. For one that is missing among as many slots as there can be, it looks at all of them.
pub(crate) fn interval_of(index: &KeyIndex, slots: &[Slot], capacity: u32, key: u64) -> (u64, u64)
    requires some { 1 ≤ capacity }
    requires keyed { HoldsKeys (slot_keys slots.now) index.now }
    requires slots { AreOrdered (2 ^ 64) slots.now }
    requires entries { AreTableEntries capacity (ordered_entries slots.now) }
    ensures low { result.0 ≡ (interval_in (record { capacity = capacity; entries = ordered_entries slots.now }) key).low }
    ensures high { result.1 ≡ (interval_in (record { capacity = capacity; entries = ordered_entries slots.now }) key).high }
{
    match index.find(slots, key) {
        Ok(place) => {
            let entry = slots[place].entry;
            (entry.count - entry.error, entry.count)
        }
        Err(_) if slots.len() < capacity as usize => (0, 0),
        Err(_) => (0, slots[least_of(slots)].entry.count),
    }
}
