//! The table.

ghost use Rattle.std.specs.Prelude.{◌≡◌, ◌≤◌, []};
ghost use Rattle.rank_table.specs.Marks.{numbered};
ghost use Rattle.rank_table.specs.RankTable.{AreParts};

use crate::copying::write_in_order;
use crate::ranked_slots::RankedSlots;
use crate::scanning::{interval_of, slot_at};
use crate::slot::Slot;
use crate::steps::{add_weight, append};
use key_index::{KeyIndex, Seen};
use space_saving::{Entry, EntrySource, Flat, Summary, intervals_are_narrow, steps_leave_a_table};
use std::alloc::{AllocError, Global};
use std::marker::Model;

/// A table whose adds take nearly constant time. A key that has an entry costs one look-up and a write to its
/// slot; a new key in a full table also costs a few comparisons for each level of a tree over the slots. Only
/// reading goes over all slots.
#[derive(Drop)]
pub struct RankTable {
    capacity: u32,
    index: KeyIndex,
    ranked: RankedSlots,
    // The time of the next add, later than that of each slot, so that no two slots have the same time. It is 2^18 at
    // most: an add that finds it so sets it back.
    clock: u64,
    total: u64,
}

impl Model for RankTable {
    ghost use Rattle.space_saving.specs.{TableValue};
    ghost use Rattle.rank_table.specs.SlotOrder.{ordered_entries};
    ghost use Rattle.rank_table.specs.RankTable.{IsRankTable};

    ghost Value = { TableValue };

    ghost view = { λ t. record { capacity = t.capacity; entries = ordered_entries t.ranked.slots } };

    ghost invariant = { λ t. IsRankTable t.capacity t.clock t.total t.index t.ranked };
}

impl Summary for RankTable {
    ghost content = { λ t. t };

    fn with_capacity(alloc: Global, capacity: u32) -> Result<Self, AllocError> {
        Ok(RankTable {
            capacity,
            index: KeyIndex::with_room(alloc, capacity as usize)?,
            ranked: RankedSlots::with_capacity(alloc, capacity as usize)?,
            clock: 0,
            total: 0,
        })
    }

    fn restore(alloc: Global, flat: &Flat) -> Result<Self, AllocError> {
        let capacity = flat.capacity();
        let total = flat.total();
        let mut index = KeyIndex::with_room(alloc, capacity as usize)?;
        let mut ranked = RankedSlots::with_capacity(alloc, capacity as usize)?;
        load(&mut index, &mut ranked, flat);
        Ok(RankTable {
            capacity,
            index,
            ranked,
            clock: flat.len() as u64,
            total,
        })
    }

    fn add(&mut self, key: u64, weight: u32) {
        steps_leave_a_table();
        let weight = u64::from(weight);
        let now = self.ranked.time_of_add(self.clock);
        add_weight(&mut self.index, &mut self.ranked, key, weight, now);
        self.clock = now + 1;
        self.total += weight;
    }

    /// The least and the greatest weight that the key can have had. For a key that is missing in a full table it
    /// looks at all slots.
    fn interval(&self, key: u64) -> (u64, u64) {
        intervals_are_narrow();
        interval_of(&self.index, self.ranked.slots(), self.capacity, key)
    }

    /// The entry at this index, from 0 and below the length, in the order of rising counts. It may compare every slot
    /// with every other, so a reader of many entries copies the table first.
    fn entry(&self, place: usize) -> Entry {
        slot_at(self.ranked.slots(), place).entry
    }

    fn len(&self) -> usize {
        self.ranked.slots().len()
    }

    fn capacity(&self) -> u32 {
        self.capacity
    }

    fn total(&self) -> u64 {
        self.total
    }

    fn full(&self) -> bool {
        self.ranked.slots().len() == self.capacity as usize
    }

    fn copy_into(&self, into: &mut Flat) {
        // Reading a field makes the invariant of the table known, which `refill` requires.
        let _ = &self.capacity;
        into.refill(self);
    }
}

impl EntrySource for RankTable {
    ghost entries = { λ t. t.entries };

    fn entry_count(&self) -> usize {
        self.ranked.slots().len()
    }

    fn write_entries(&self, into: &mut [Entry]) {
        write_in_order(self.ranked.slots(), into);
    }
}

// Puts the entries of a flat table into empty parts of its capacity, in their order.
fn load(index: &mut KeyIndex, ranked: &mut RankedSlots, flat: &Flat)
    requires few { flat.now.capacity ≤ 4096 }
    requires together { AreParts flat.now.capacity index.old ranked.old }
    requires no_slots { ranked.old.slots ≡ [] }
    ensures together { AreParts flat.now.capacity index.new ranked.new }
    ensures ranked { ranked.new ≡ record ranked.old { slots = numbered 0 flat.now.entries } }
{
    for place in 0..flat.len() {
        let entry = flat.entry(place);
        let time = place as u64;
        append(index, ranked, Slot { entry, time }, Seen::nothing());
    }
}
