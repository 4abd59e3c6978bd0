//! The state of a shard.

ghost use Rattle.std.specs.Prelude.{◌≡◌, ◌+◌, ◌≤◌, ◌↔◌, length, take, IfOk};
ghost use Rattle.std.specs.List.{slice_range};
ghost use Rattle.prefix_lattice.specs.{total_weight, record_limit};
ghost use Rattle.shard_state.specs.Snapshot.{fold_from, empty_snapshot, snapshot_total};
ghost use Rattle.shard_state.specs.ShardState.{IsShard, folded_shard, snapshot_of};
ghost use Rattle.space_saving.specs.{least_capacity, most_capacity};
ghost use Rattle.prefix_lattice.specs.{most_grain_capacity};

use crate::Snapshot;
use crate::folding::{count_in_tables, restored};
use crate::table::Table;
use prefix_lattice::{Grain, RecordList, keys_are_of_their_node};
use space_saving::steps_leave_a_table;
use std::alloc::{AllocError, Global};
use std::marker::Model;

/// How many records of a shard were counted before a fold and after it.
#[derive(Clone, Copy, Debug, PartialEq, Eq)]
pub struct Folded {
    /// How many records were counted before the fold.
    pub from: u64,
    /// How many were counted after it.
    pub to: u64,
}

/// The records of a shard, and tables that count them up to a position, one for each node of a grain: the tables of the snapshot that the
/// state started from, and each record since, added at each node for the key of its prefix there.
#[derive(Drop)]
pub struct ShardState {
    list: RecordList,
    base: Snapshot,
    position: u64,
    tables: Vec<Table>,
}

impl Model for ShardState {
    ghost use Rattle.std.specs.Prelude.{◌≡◌};
    ghost use Rattle.shard_state.specs.Snapshot.{tables_of};
    ghost use Rattle.shard_state.specs.ShardState.{ShardValue, IsShard, snapshot_of};

    ghost Value = { ShardValue };

    ghost view = { λ s. record { list = s.list; base = s.base; position = s.position } };

    ghost invariant = { λ s. IsShard (record { list = s.list; base = s.base; position = s.position })
        × (s.tables.items ≡ tables_of (snapshot_of (record { list = s.list; base = s.base; position = s.position }))) };
}

impl ShardState {
    /// The state with no record counted, and one empty table for each node of the grain. The list has at most 16,777,216
    /// records, and each table 2 to 4096 entries, at most 1024 for half bytes. On an error, which means that memory ran out,
    /// the list is dropped.
    pub fn start(
        alloc: Global,
        grain: Grain,
        list: RecordList,
        capacity: u32,
    ) -> Result<ShardState, AllocError>
        requires few { length list ≤ record_limit }
        requires least { least_capacity ≤ capacity }
        requires most { capacity ≤ most_capacity }
        requires of_grain { capacity ≤ most_grain_capacity grain }
        ensures { IfOk result (λ state. state ≡ record {
          list = list;
          base = empty_snapshot (record { grain = grain; capacity = capacity });
          position = 0;
        }) }
    {
        let base = Snapshot::with_room(alloc, grain, capacity)?;
        ShardState::resume(alloc, list, base)
    }

    /// The state that continues from a snapshot, which counted the first n records of the list, n being its position.
    /// The list has at most 16,777,216 records. On an error, which means that memory ran out, list and base are
    /// dropped.
    pub fn resume(alloc: Global, list: RecordList, base: Snapshot) -> Result<ShardState, AllocError>
        requires few { length list ≤ record_limit }
        requires within { base.position ≤ length list }
        requires counted { snapshot_total base ≡ total_weight (take base.position list) }
        ensures { IfOk result (λ state. state ≡ record { list = list; base = base; position = base.position }) }
    {
        let _records = list.as_slice();
        let position = base.position();
        let tables = restored(alloc, base.tables())?;
        Ok(ShardState {
            list,
            base,
            position,
            tables,
        })
    }

    /// Counts the next `block` records, at least one, or the remaining records of the list. It allocates no memory.
    pub fn fold_block(&mut self, block: u32) -> Folded
        requires { 1 ≤ block }
        ensures state { self.new ≡ folded_shard block self.old }
        ensures tables { (snapshot_of self.new).tables ≡ fold_from 0 self.old.base.shape (snapshot_of self.old).tables
            (slice_range self.old.list result.from result.to) }
        ensures from { result.from ≡ self.old.position }
        ensures to { result.to ≡ self.new.position }
        ensures end { (result.from ≡ result.to) ↔ (self.old.position ≡ length self.old.list) }
        ensures kept { IsShard self.new }
    {
        steps_leave_a_table();
        keys_are_of_their_node();
        let from = self.position;
        let to = (from + u64::from(block)).min(self.list.len() as u64);
        let records = &self.list.as_slice()[from as usize..to as usize];
        count_in_tables(self.base.grain(), &mut self.tables, records);
        self.position = to;
        Folded { from, to }
    }

    /// How many records are counted.
    pub fn position(&self) -> u64
        ensures position { result ≡ self.now.position }
        ensures within { result ≤ length self.now.list }
        ensures kept { IsShard self.now }
    {
        self.position
    }

    /// How many records there are, at most 16,777,216.
    pub fn length(&self) -> u64
        ensures length { result ≡ length self.now.list }
        ensures few { result ≤ record_limit }
        ensures kept { IsShard self.now }
    {
        self.list.len() as u64
    }

    /// The grain whose nodes have the tables.
    pub fn grain(&self) -> Grain
        ensures grain { result ≡ self.now.base.shape.grain }
        ensures kept { IsShard self.now }
    {
        self.base.grain()
    }

    /// The most entries of each table, 2 to 4096, and at most 1024 for half bytes.
    pub fn capacity(&self) -> u32
        ensures capacity { result ≡ self.now.base.shape.capacity }
        ensures kept { IsShard self.now }
    {
        self.base.capacity()
    }

    /// Makes a snapshot of the shard's shape equal to the shard's. It allocates no memory.
    pub fn copy_into(&self, into: &mut Snapshot)
        requires { into.old.shape ≡ self.now.base.shape }
        ensures { into.new ≡ snapshot_of self.now }
    {
        into.copy_from(self.position, &self.tables);
    }
}
