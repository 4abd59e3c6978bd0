//! A Space-Saving table, in whatever form it keeps its entries.

ghost use Rattle.std.specs.Prelude.{◌≡◌, ◌+◌, ◌-◌, ◌*◌, ◌<◌, ◌≤◌, ◌↔◌, [], length, slice_get, IfOk, IsTrue, Some};
ghost use Rattle.space_saving.specs.Summary.{TableValue, after_step, table_total, interval_in};
ghost use Rattle.space_saving.specs.Summary.{AreTableEntries, least_capacity, most_capacity, table_limit};

use crate::{Entry, Flat};
use std::alloc::{AllocError, Global};

/// A Space-Saving table with weights (Metwally, Agrawal, El Abbadi 2005): at most as many keys as its capacity, each
/// with the interval that holds the weight that was added for it.
pub trait Summary: Sized {
    /// The capacity, and the entries with counts ascending. In a tie, the entry that was inserted first stays first.
    ghost content: { Self → TableValue };

    /// An empty table of a capacity of 2 to 4096. All memory is reserved here.
    fn with_capacity(alloc: Global, capacity: u32) -> Result<Self, AllocError>
        requires least { least_capacity ≤ capacity }
        requires most { capacity ≤ most_capacity }
        ensures { IfOk result (λ table. content table ≡ record { capacity = capacity; entries = [] }) };

    /// A table with the capacity and the entries of this one. All memory is reserved here.
    fn restore(alloc: Global, flat: &Flat) -> Result<Self, AllocError>
        ensures { IfOk result (λ table. content table ≡ flat.now) };

    /// Adds a weight of at least 1 for a key, by one step of Space-Saving. The total stays below 2^56. It allocates
    /// no memory.
    fn add(&mut self, key: u64, weight: u32)
        requires weighs { 1 ≤ weight }
        requires room { table_total (content self.old).entries + weight < table_limit }
        ensures stepped { content self.new ≡ record (content self.old) {
          entries = after_step (content self.old).capacity (content self.old).entries
              (record { key = key; weight = weight });
        } }
        ensures grew { table_total (content self.new).entries
            ≡ table_total (content self.old).entries + weight };

    /// The least and the greatest weight that the key can have had.
    fn interval(&self, key: u64) -> (u64, u64)
        ensures low { result.0 ≡ (interval_in (content self.now) key).low }
        ensures high { result.1 ≡ (interval_in (content self.now) key).high }
        ensures ordered { result.0 ≤ result.1 }
        ensures within_total { result.1 ≤ table_total (content self.now).entries }
        ensures narrow { (result.1 - result.0) * (content self.now).capacity
            ≤ table_total (content self.now).entries };

    /// The entry at this index, from 0 and below the length, in the order of rising counts.
    fn entry(&self, place: usize) -> Entry
        requires { place < length (content self.now).entries }
        ensures { slice_get (content self.now).entries place ≡ Some result };

    /// How many entries there are.
    fn len(&self) -> usize
        ensures length { result ≡ length (content self.now).entries }
        ensures within_capacity { result ≤ (content self.now).capacity };

    /// The most entries that the table can have, 2 to 4096.
    fn capacity(&self) -> u32
        ensures capacity { result ≡ (content self.now).capacity }
        ensures least { least_capacity ≤ result }
        ensures most { result ≤ most_capacity };

    /// The sum of the counts, below 2^56, which equals the weight that was added.
    fn total(&self) -> u64
        ensures total { result ≡ table_total (content self.now).entries }
        ensures bounded { result < table_limit }
        ensures kept { AreTableEntries (content self.now).capacity (content self.now).entries };

    /// Whether the table has as many entries as its capacity.
    fn full(&self) -> bool
        ensures { IsTrue result ↔ (length (content self.now).entries ≡ (content self.now).capacity) };

    /// Makes a flat table, of the same capacity, equal to this one. It allocates no memory.
    fn copy_into(&self, into: &mut Flat)
        requires { into.old.capacity ≡ (content self.now).capacity }
        ensures { into.new ≡ content self.now };
}
