//! One step of Space-Saving on slots.

ghost use Rattle.std.specs.Prelude.{◌≡◌, ◌+◌, ◌^◌, ◌<◌, ◌≤◌, ◌++◌, ◌∷◌, [], length, slice_index_or, slice_set};
ghost use Rattle.key_index.specs.{HaveTurnedAway};
ghost use Rattle.space_saving.specs.{after_step, table_total};
ghost use Rattle.rank_table.specs.SlotOrder.{AreOrdered, ordered_entries};
ghost use Rattle.rank_table.specs.Steps.{IsTakenOver, entered_slot};
ghost use Rattle.rank_table.specs.Steps.{raised_slot};
ghost use Rattle.rank_table.specs.RankTable.{AreParts};
ghost use Rattle.rank_table.specs.declared.slot.Slot.{Slot};

use crate::ranked_slots::RankedSlots;
use crate::slot::Slot;
use key_index::{KeyIndex, Seen, appended_key_is_missing};
use space_saving::Entry;

/// Adds a weight for a key at a time later than all before: its slot's rank rises, or a new slot takes free room,
/// or the slot that comes first is taken over.
pub(crate) fn add_weight(
    index: &mut KeyIndex,
    ranked: &mut RankedSlots,
    key: u64,
    weight: u64,
    now: u64,
)
    requires together { AreParts ranked.old.capacity index.old ranked.old }
    requires slots { AreOrdered now ranked.old.slots }
    requires weighs { 1 ≤ weight }
    requires early { now < 2 ^ 18 }
    requires room { table_total (ordered_entries ranked.old.slots) + weight < 2 ^ 56 }
    ensures capacity { ranked.new.capacity ≡ ranked.old.capacity }
    ensures together { AreParts ranked.new.capacity index.new ranked.new }
    ensures slots { AreOrdered (now + 1) ranked.new.slots }
    ensures stepped { ordered_entries ranked.new.slots
        ≡ after_step ranked.old.capacity (ordered_entries ranked.old.slots) (record { key = key; weight = weight }) }
{
    match index.find(ranked.slots(), key) {
        Ok(place) => grow(ranked, place, weight, now),
        Err(seen) if ranked.has_room() => take_room(index, ranked, key, weight, now, seen),
        Err(seen) => take_over(index, ranked, key, weight, now, seen),
    }
}

// Adds a weight to the entry at a place.
fn grow(ranked: &mut RankedSlots, place: usize, weight: u64, now: u64)
    requires within { place < length ranked.old.slots }
    requires slots { AreOrdered now ranked.old.slots }
    requires early { now < 2 ^ 18 }
    requires room { table_total (ordered_entries ranked.old.slots) + weight < 2 ^ 56 }
    ensures { (d : Slot) → ranked.new ≡ record ranked.old {
      slots = slice_set ranked.old.slots place (raised_slot weight now (slice_index_or ranked.old.slots place d));
    } }
{
    let slot = ranked.slots()[place];
    let count = slot.entry.count + weight;
    let entry = Entry {
        count,
        ..slot.entry
    };
    ranked.raise(place, Slot { entry, time: now });
}

// Gives a new key, for which a search stopped at `seen`, a slot of its own.
fn take_room(
    index: &mut KeyIndex,
    ranked: &mut RankedSlots,
    key: u64,
    weight: u64,
    now: u64,
    seen: Seen,
)
    requires room { length ranked.old.slots < ranked.old.capacity }
    requires early { now < 2 ^ 18 }
    requires together { AreParts ranked.old.capacity index.old ranked.old }
    requires seen { HaveTurnedAway seen key index.old }
    ensures together { AreParts ranked.old.capacity index.new ranked.new }
    ensures ranked { ranked.new ≡ record ranked.old { slots = ranked.old.slots ++ entered_slot key weight now ∷ [] } }
{
    let entry = Entry {
        key,
        count: weight,
        error: 0,
    };
    append(index, ranked, Slot { entry, time: now }, seen);
}

/// Appends a slot, and enters its key in the index, from where a search for it stopped.
pub(crate) fn append(index: &mut KeyIndex, ranked: &mut RankedSlots, slot: Slot, seen: Seen)
    requires room { length ranked.old.slots < ranked.old.capacity }
    requires early { slot.time < 2 ^ 18 }
    requires together { AreParts ranked.old.capacity index.old ranked.old }
    requires seen { HaveTurnedAway seen slot.entry.key index.old }
    ensures together { AreParts ranked.old.capacity index.new ranked.new }
    ensures ranked { ranked.new ≡ record ranked.old { slots = ranked.old.slots ++ slot ∷ [] } }
{
    appended_key_is_missing();
    let place = ranked.slots().len();
    ranked.push(slot);
    index.enter(ranked.slots(), place, seen);
}

// Gives a new key, for which a search stopped at `seen`, the slot that comes first: its count becomes the error of the new
// entry.
fn take_over(
    index: &mut KeyIndex,
    ranked: &mut RankedSlots,
    key: u64,
    weight: u64,
    now: u64,
    seen: Seen,
)
    requires full { length ranked.old.slots ≡ ranked.old.capacity }
    requires together { AreParts ranked.old.capacity index.old ranked.old }
    requires slots { AreOrdered now ranked.old.slots }
    requires early { now < 2 ^ 18 }
    requires room { table_total (ordered_entries ranked.old.slots) + weight < 2 ^ 56 }
    requires seen { HaveTurnedAway seen key index.old }
    ensures together { AreParts ranked.old.capacity index.new ranked.new }
    ensures taken { IsTakenOver key weight now ranked.old ranked.new }
{
    let place = ranked.least();
    let least = ranked.slots()[place].entry.count;
    let heir = Entry {
        key,
        count: least + weight,
        error: least,
    };
    index.leave(ranked.slots(), place);
    ranked.replace_first(
        place,
        Slot {
            entry: heir,
            time: now,
        },
    );
    index.enter(ranked.slots(), place, seen);
}
