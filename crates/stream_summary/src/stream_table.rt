//! The table.

ghost use Rattle.std.specs.Prelude.{◌≡◌, ◌≤◌, [], length};
ghost use Rattle.space_saving.specs.{AreTableEntries};
ghost use Rattle.stream_summary.specs.Arena.{AreParts, arena_entries};

use crate::arena::Arena;
use crate::reading::interval_of;
use crate::steps::{add_weight, append};
use key_index::{KeyIndex, Seen};
use space_saving::{Entry, EntrySource, Flat, Summary, intervals_are_narrow, steps_leave_a_table};
use std::alloc::{AllocError, Global};
use std::marker::Model;

/// A table whose entries stand in buckets of equal count. A key that has an entry costs one look-up, and moves its entry
/// by as many buckets as have counts between the old and the new one; a new key in a full table takes the first entry.
/// Reading goes from bucket to bucket, in order.
#[derive(Drop)]
pub struct StreamTable {
    capacity: u32,
    total: u64,
    index: KeyIndex,
    arena: Arena,
}

impl Model for StreamTable {
    ghost use Rattle.space_saving.specs.{TableValue};
    ghost use Rattle.stream_summary.specs.Arena.{arena_entries};
    ghost use Rattle.stream_summary.specs.StreamTable.{IsStreamTable};

    ghost Value = { TableValue };

    ghost view = { λ t. record { capacity = t.capacity; entries = arena_entries t.arena } };

    ghost invariant = { λ t. IsStreamTable t.capacity t.total t.index t.arena };
}

impl Summary for StreamTable {
    ghost content = { λ t. t };

    fn with_capacity(alloc: Global, capacity: u32) -> Result<Self, AllocError> {
        Ok(StreamTable {
            capacity,
            total: 0,
            index: KeyIndex::with_room(alloc, capacity as usize)?,
            arena: Arena::with_room(alloc, capacity as usize)?,
        })
    }

    fn restore(alloc: Global, flat: &Flat) -> Result<Self, AllocError> {
        let capacity = flat.capacity();
        let total = flat.total();
        let mut index = KeyIndex::with_room(alloc, capacity as usize)?;
        let mut arena = Arena::with_room(alloc, capacity as usize)?;
        load(&mut index, &mut arena, flat);
        Ok(StreamTable {
            capacity,
            total,
            index,
            arena,
        })
    }

    fn add(&mut self, key: u64, weight: u32) {
        steps_leave_a_table();
        let weight = u64::from(weight);
        add_weight(&mut self.index, &mut self.arena, key, weight);
        self.total += weight;
    }

    fn interval(&self, key: u64) -> (u64, u64) {
        intervals_are_narrow();
        interval_of(&self.index, &self.arena, key)
    }

    /// The entry at this index, from 0 and below the length, in the order of rising counts. It passes each entry before
    /// it, so a reader of many entries copies the table first.
    fn entry(&self, place: usize) -> Entry {
        self.arena.entry_in_order(place)
    }

    fn len(&self) -> usize {
        self.arena.slots.len()
    }

    fn capacity(&self) -> u32 {
        self.capacity
    }

    fn total(&self) -> u64 {
        self.total
    }

    fn full(&self) -> bool {
        self.arena.slots.len() == self.capacity as usize
    }

    fn copy_into(&self, into: &mut Flat) {
        // Reading a field makes the invariant of the table known, which `refill` requires.
        let _ = &self.capacity;
        into.refill(self);
    }
}

impl EntrySource for StreamTable {
    ghost entries = { λ t. t.entries };

    fn entry_count(&self) -> usize {
        self.arena.slots.len()
    }

    fn write_entries(&self, into: &mut [Entry]) {
        self.arena.write_in_order(into);
    }
}

// Puts the entries of a flat table into empty parts of its capacity, in their order.
fn load(index: &mut KeyIndex, arena: &mut Arena, flat: &Flat)
    requires flat { AreTableEntries flat.now.capacity flat.now.entries }
    requires together { AreParts index.old arena.old }
    requires room { length arena.old.buckets.items ≡ flat.now.capacity }
    requires empty { arena.old.slots.items ≡ [] }
    requires nothing { arena.old.order.order ≡ [] }
    ensures together { AreParts index.new arena.new }
    ensures buckets { length arena.new.buckets.items ≡ length arena.old.buckets.items }
    ensures entries { arena_entries arena.new ≡ flat.now.entries }
{
    for place in 0..flat.len() {
        let from = arena.last_bucket();
        append(index, arena, flat.entry(place), from, Seen::nothing());
    }
}
