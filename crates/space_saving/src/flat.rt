//! A table as plain entries.

ghost use Rattle.std.specs.Prelude.{◌≡◌, ◌+◌, ◌-◌, ◌*◌, ◌<◌, ◌≤◌, ◌↔◌, [], length, take, slice_get, vec_capacity, IfOk};
ghost use Rattle.std.specs.Prelude.{IfSome, IsSome, None};
ghost use Rattle.space_saving.specs.Summary.{after_step, table_entry, table_total, least_count};
ghost use Rattle.space_saving.specs.Summary.{interval_in, AreTableEntries, least_capacity};
ghost use Rattle.space_saving.specs.Summary.{most_capacity, table_limit};

use crate::facts::{is_table, total_of};
use crate::places::place_of;
use crate::steps::add_weight;
use crate::{Entry, EntrySource};
use std::alloc::{AllocError, Global};
use std::marker::Model;

// Fills the room of an entry until the entry is written.
const BLANK: Entry = Entry {
    key: 0,
    count: 0,
    error: 0,
};

/// A Space-Saving table as plain entries, counts ascending, with memory reserved for as many entries as its
/// capacity.
#[derive(Drop)]
pub struct Flat {
    capacity: u32,
    entries: Vec<Entry>,
    total: u64,
}

impl Model for Flat {
    ghost use Rattle.std.specs.Prelude.{vec_capacity};
    ghost use Rattle.space_saving.specs.Summary.{TableValue, IsKeptTable};

    ghost Value = { TableValue };

    ghost view = { λ t. record { capacity = t.capacity; entries = t.entries.items } };

    ghost invariant = { λ t. IsKeptTable t.capacity (vec_capacity t.entries) t.total t.entries.items };
}

impl Flat {
    /// An empty table with memory for `capacity` entries, 2 to 4096.
    pub fn with_room(alloc: Global, capacity: u32) -> Result<Flat, AllocError>
        requires least { least_capacity ≤ capacity }
        requires most { capacity ≤ most_capacity }
        ensures { IfOk result (λ table. table ≡ record { capacity = capacity; entries = [] }) }
    {
        Ok(Flat {
            capacity,
            entries: Vec::with_capacity(alloc, capacity as usize)?,
            total: 0,
        })
    }

    /// The table of these entries, in their order. The capacity is 2 to 4096, and the vector has memory for as many
    /// entries. `None`, which drops them, is returned exactly where they are not a table of this capacity: more
    /// entries than the capacity, falling counts, a key twice, an error that is not below its count or that, times
    /// the capacity, is above the total, or a total of 2^56 or more. It allocates no memory, and needs the time of
    /// a sort of the keys.
    pub fn from_entries(capacity: u32, entries: Vec<Entry>) -> Option<Flat>
        requires least { least_capacity ≤ capacity }
        requires most { capacity ≤ most_capacity }
        requires reserved { capacity ≤ vec_capacity entries }
        ensures accepted { IsSome result ↔ AreTableEntries capacity entries.items }
        ensures content { IfSome result (λ table.
            table ≡ record { capacity = capacity; entries = entries.items }) }
    {
        let total = total_of(&entries)?;
        if !is_table(capacity, total, &entries) {
            return None;
        }
        Some(Flat {
            capacity,
            entries,
            total,
        })
    }

    /// The least and the greatest weight that the key can have had.
    pub fn interval(&self, key: u64) -> (u64, u64)
        ensures low { result.0 ≡ (interval_in self.now key).low }
        ensures high { result.1 ≡ (interval_in self.now key).high }
        ensures ordered { result.0 ≤ result.1 }
        ensures within_total { result.1 ≤ table_total self.now.entries }
        ensures narrow { (result.1 - result.0) * self.now.capacity ≤ table_total self.now.entries }
    {
        match place_of(&self.entries, key) {
            Some(place) => {
                let entry = self.entries[place];
                (entry.count - entry.error, entry.count)
            }
            None if self.entries.len() < self.capacity as usize => (0, 0),
            None => (0, self.entries[0].count),
        }
    }

    /// The entry at this index, from 0, in the order of rising counts. No earlier entry has its key.
    pub fn entry(&self, place: usize) -> Entry
        requires { place < length self.now.entries }
        ensures entry { slice_get self.now.entries place ≡ Some result }
        ensures apart { table_entry result.key (take place self.now.entries) ≡ None }
        ensures error { result.error < result.count }
        ensures least { least_count self.now.entries ≤ result.count }
        ensures within_total { result.count ≤ table_total self.now.entries }
    {
        self.entries[place]
    }

    /// How many entries there are.
    pub fn len(&self) -> usize
        ensures length { result ≡ length self.now.entries }
        ensures within_capacity { result ≤ self.now.capacity }
    {
        self.entries.len()
    }

    /// The most entries that the table can have, 2 to 4096.
    pub fn capacity(&self) -> u32
        ensures capacity { result ≡ self.now.capacity }
        ensures least { least_capacity ≤ result }
        ensures most { result ≤ most_capacity }
    {
        self.capacity
    }

    /// The sum of the counts, below 2^56, which equals the weight that was added.
    pub fn total(&self) -> u64
        ensures total { result ≡ table_total self.now.entries }
        ensures bounded { result < table_limit }
        ensures kept { AreTableEntries self.now.capacity self.now.entries }
    {
        self.total
    }

    /// Replaces the entries by those of a source, which are a table of this capacity. It allocates no memory, and needs
    /// the time of the source and of one pass over the entries.
    pub fn refill<S: EntrySource>(&mut self, source: &S)
        requires table { AreTableEntries self.old.capacity (S.entries source.now) }
        ensures { self.new ≡ record self.old { entries = S.entries source.now } }
    {
        self.entries.resize(source.entry_count(), BLANK).unwrap();
        source.write_entries(&mut self.entries);
        self.total = total_of(&self.entries).unwrap();
    }

    /// Adds a weight for a key, by one step of Space-Saving. It allocates no memory.
    pub(crate) fn add(&mut self, key: u64, weight: u32)
        requires weighs { 1 ≤ weight }
        requires room { table_total self.old.entries + weight < table_limit }
        ensures stepped { self.new ≡ record self.old {
          entries = after_step self.old.capacity self.old.entries (record { key = key; weight = weight });
        } }
        ensures grew { table_total self.new.entries ≡ table_total self.old.entries + weight }
    {
        let weight = u64::from(weight);
        add_weight(&mut self.entries, self.capacity as usize, key, weight);
        self.total += weight;
    }

    /// Makes the other table, of the same capacity, equal to this one. It allocates no memory.
    pub(crate) fn copy_into(&self, into: &mut Flat)
        requires { into.old.capacity ≡ self.now.capacity }
        ensures { into.new ≡ self.now }
    {
        into.entries.clear();
        into.entries.extend_from_slice(&self.entries).unwrap();
        into.total = self.total;
    }
}
