//! The tables of a shard at one position.

ghost use Rattle.std.specs.Prelude.{◌≡◌, ◌<◌, ◌≤◌, ◌↔◌, All, IfOk, IfSome, IsSome};
ghost use Rattle.shard_state.specs.Snapshot.{IsSnapshot, empty_snapshot, table_at, tables_of};
ghost use Rattle.shard_state.specs.Snapshot.{snapshot_total, AreParts, copied_from};
ghost use Rattle.space_saving.specs.{least_capacity, most_capacity, table_limit};
ghost use Rattle.prefix_lattice.specs.{most_grain_capacity};

use crate::folding::copy_tables;
use crate::snapshot_parts::{are_tables, empty_tables};
use crate::table::Table;
use prefix_lattice::{Grain, Node};
use space_saving::Flat;
use std::alloc::{AllocError, Global};
use std::marker::Model;

/// The most records that a shard can have.
pub(crate) const MOST_RECORDS: u64 = 1 << 24;

/// The tables of a shard, one for each node of a grain, and how many of its records they count.
#[derive(Drop)]
pub struct Snapshot {
    grain: Grain,
    capacity: u32,
    position: u64,
    tables: Vec<Flat>,
}

impl Model for Snapshot {
    ghost use Rattle.std.specs.Prelude.{◌≡◌, All, map};
    ghost use Rattle.shard_state.specs.Snapshot.{SnapshotValue, IsSnapshot};

    ghost Value = { SnapshotValue };

    ghost view = { λ s. record {
      shape = record { grain = s.grain; capacity = s.capacity };
      position = s.position;
      tables = map (λ table. table.entries) s.tables.items;
    } };

    ghost invariant = { λ s. All (λ table. table.capacity ≡ s.capacity) s.tables.items
        × IsSnapshot (record {
          shape = record { grain = s.grain; capacity = s.capacity };
          position = s.position;
          tables = map (λ table. table.entries) s.tables.items;
        }) };
}

impl Snapshot {
    /// Empty tables at position 0, one for each node of the grain, each with memory for `capacity` entries: 2 to 4096, and
    /// at most 1024 for half bytes.
    pub fn with_room(alloc: Global, grain: Grain, capacity: u32) -> Result<Snapshot, AllocError>
        requires least { least_capacity ≤ capacity }
        requires most { capacity ≤ most_capacity }
        requires of_grain { capacity ≤ most_grain_capacity grain }
        ensures { IfOk result (λ snapshot. snapshot ≡ empty_snapshot (record { grain = grain; capacity = capacity })) }
    {
        Ok(Snapshot {
            grain,
            capacity,
            position: 0,
            tables: empty_tables(alloc, grain, capacity)?,
        })
    }

    /// The snapshot of these tables, in the order of their nodes' indexes. `None`, which drops them, is returned
    /// exactly where they are not a snapshot: a position above 16,777,216, not as many tables as the grain has nodes,
    /// capacities or totals that differ, a capacity above 1024 for half bytes, or a key with a bit set that its node doesn't
    /// keep.
    pub fn from_tables(grain: Grain, position: u64, tables: Vec<Flat>) -> Option<Snapshot>
        ensures accepted { IsSome result ↔ AreParts grain position tables.items }
        ensures grain { IfSome result (λ snapshot. snapshot.shape.grain ≡ grain) }
        ensures position { IfSome result (λ snapshot. snapshot.position ≡ position) }
        ensures tables { IfSome result (λ snapshot. tables_of snapshot ≡ tables.items) }
    {
        if position > MOST_RECORDS {
            return None;
        }
        if !are_tables(grain, &tables) {
            return None;
        }
        Some(Snapshot {
            grain,
            capacity: tables[0].capacity(),
            position,
            tables,
        })
    }

    /// How many records the tables count, at most 16,777,216.
    pub fn position(&self) -> u64
        ensures position { result ≡ self.now.position }
        ensures kept { IsSnapshot self.now }
    {
        self.position
    }

    /// The grain whose nodes have the tables.
    pub fn grain(&self) -> Grain
        ensures grain { result ≡ self.now.shape.grain }
        ensures kept { IsSnapshot self.now }
    {
        self.grain
    }

    /// The most entries of each table, 2 to 4096, and at most 1024 for half bytes.
    pub fn capacity(&self) -> u32
        ensures capacity { result ≡ self.now.shape.capacity }
        ensures least { least_capacity ≤ result }
        ensures most { result ≤ most_capacity }
        ensures of_grain { result ≤ most_grain_capacity self.now.shape.grain }
    {
        self.capacity
    }

    /// The table at a node of the snapshot's grain.
    pub fn table(&self, node: Node) -> &Flat
        requires { node.grain ≡ self.now.shape.grain }
        ensures table { result.now ≡ table_at node self.now }
        ensures kept { IsSnapshot self.now }
    {
        &self.tables[usize::from(node.index())]
    }

    /// The total weight of the counted records, which is also what each table counted.
    pub fn total(&self) -> u64
        ensures total { result ≡ snapshot_total self.now }
        ensures bounded { result < table_limit }
        ensures kept { IsSnapshot self.now }
    {
        self.tables[0].total()
    }

    /// All tables, in the order of their nodes' indexes.
    pub(crate) fn tables(&self) -> &[Flat]
        ensures tables { result.now ≡ tables_of self.now }
        ensures kept { IsSnapshot self.now }
    {
        self.tables.as_slice()
    }

    /// Takes the position, and the contents of tables of the snapshot's shape.
    pub(crate) fn copy_from(&mut self, position: u64, tables: &[Table])
        requires alike { All (λ table. table.capacity ≡ self.old.shape.capacity) tables.now }
        requires snapshot { IsSnapshot (copied_from self.old.shape position tables.now) }
        ensures { self.new ≡ copied_from self.old.shape position tables.now }
    {
        copy_tables(tables, &mut self.tables);
        self.position = position;
    }
}
