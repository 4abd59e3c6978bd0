//! One snapshot for each shard.

ghost use Rattle.std.specs.Prelude.{◌≡◌, ◌<◌, ◌≤◌, length, slice_get, slice_set, IfOk, Some};
ghost use Rattle.shard_state.specs.Snapshot.{IsSnapshot};
ghost use Rattle.shard_state.specs.ShardState.{snapshot_of};
ghost use Rattle.shard_state.specs.Cut.{IsCut, empty_cut, cut_positions, total_of_cut, most_snapshots};
ghost use Rattle.prefix_lattice.specs.{shard_limit, total_limit};
ghost use Rattle.space_saving.specs.{least_capacity, most_capacity};
ghost use Rattle.prefix_lattice.specs.{most_grain_capacity};

use crate::{ShardState, Snapshot};
use hhh_report::Positions;
use prefix_lattice::Grain;
use std::alloc::{AllocError, Global};
use std::marker::Model;

/// One snapshot for each of 1 to 128 shards, all of one grain and capacity.
#[derive(Drop)]
pub struct Cut {
    grain: Grain,
    capacity: u32,
    shards: Vec<Snapshot>,
}

impl Model for Cut {
    ghost use Rattle.shard_state.specs.ShardState.{snapshot_of};
    ghost use Rattle.shard_state.specs.Cut.{CutValue, IsCut};

    ghost Value = { CutValue };

    ghost view = { λ c. record { shape = record { grain = c.grain; capacity = c.capacity }; shards = c.shards.items } };

    ghost invariant = { λ c. IsCut (record { shape = record { grain = c.grain; capacity = c.capacity }; shards = c.shards.items }) };
}

impl Cut {
    /// A cut at position 0 of 1 to 128 shards, with empty tables of the grain and memory for `capacity` entries in each: 2 to
    /// 4096, and at most 1024 for half bytes.
    pub fn with_room(
        alloc: Global,
        grain: Grain,
        shards: u32,
        capacity: u32,
    ) -> Result<Cut, AllocError>
        requires some { 1 ≤ shards }
        requires few { shards ≤ most_snapshots }
        requires least { least_capacity ≤ capacity }
        requires most { capacity ≤ most_capacity }
        requires of_grain { capacity ≤ most_grain_capacity grain }
        ensures { IfOk result (λ cut. cut ≡ empty_cut shards (record { grain = grain; capacity = capacity })) }
    {
        let mut snapshots = Vec::with_capacity(alloc, shards as usize)?;
        for _shard in 0..shards {
            snapshots.push(Snapshot::with_room(alloc, grain, capacity)?)?;
        }
        Ok(Cut {
            grain,
            capacity,
            shards: snapshots,
        })
    }

    /// How many shards there are.
    pub fn shards(&self) -> u32
        ensures shards { result ≡ length self.now.shards }
        ensures kept { IsCut self.now }
        ensures bounded { length self.now.shards ≤ shard_limit → total_of_cut self.now < total_limit }
    {
        self.shards.len() as u32
    }

    /// The grain whose nodes have the tables.
    pub fn grain(&self) -> Grain
        ensures grain { result ≡ self.now.shape.grain }
        ensures kept { IsCut self.now }
    {
        self.grain
    }

    /// The most entries of each table, 2 to 4096, and at most 1024 for half bytes.
    pub fn capacity(&self) -> u32
        ensures capacity { result ≡ self.now.shape.capacity }
        ensures kept { IsCut self.now }
    {
        self.capacity
    }

    /// The snapshot of a shard, whose index is below the number of shards.
    pub fn shard(&self, shard: u32) -> &Snapshot
        requires { shard < length self.now.shards }
        ensures shard { slice_get self.now.shards shard ≡ Some result.now }
        ensures shape { result.now.shape ≡ self.now.shape }
        ensures kept { IsSnapshot result.now }
    {
        &self.shards[shard as usize]
    }

    /// The positions of the shards, in order.
    pub fn positions(&self, alloc: Global) -> Result<Positions, AllocError>
        ensures positions { IfOk result (λ positions. positions ≡ cut_positions self.now) }
        ensures kept { IsCut self.now }
    {
        let mut positions = Positions::new(alloc);
        for snapshot in &self.shards {
            positions.push(snapshot.position())?;
        }
        Ok(positions)
    }

    /// Replaces the snapshot of a shard by one of the cut's shape. The other shards are unchanged.
    pub fn put_shard(&mut self, shard: u32, snapshot: Snapshot)
        requires within { shard < length self.old.shards }
        requires shape { snapshot.shape ≡ self.old.shape }
        ensures { self.new ≡ record self.old { shards = slice_set self.old.shards shard snapshot } }
    {
        let _kept = snapshot.position();
        self.shards[shard as usize] = snapshot;
    }

    /// Makes a shard's snapshot equal to that of a state of the cut's shape. The other shards are unchanged. It
    /// allocates no memory.
    pub fn copy_shard(&mut self, shard: u32, state: &ShardState)
        requires within { shard < length self.old.shards }
        requires shape { state.now.base.shape ≡ self.old.shape }
        ensures { self.new ≡ record self.old { shards = slice_set self.old.shards shard (snapshot_of state.now) } }
    {
        let _kept = state.position();
        state.copy_into(&mut self.shards[shard as usize]);
    }

    /// The snapshots of the shards, in order.
    pub fn into_shards(self) -> Vec<Snapshot>
        ensures shards { result.items ≡ self.shards }
        ensures kept { IsCut self }
    {
        self.shards
    }
}
