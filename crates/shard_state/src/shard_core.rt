//! The pure core: shards and the cuts of callers under a list of events.

ghost use Rattle.std.specs.Prelude.{◌≡◌, ◌<◌, ◌≤◌, ℕ, length, slice_get, Some, All};
ghost use Rattle.shard_state.specs.Snapshot.{SnapshotValue};
ghost use Rattle.shard_state.specs.Cut.{CutValue, cut_positions, CutRepresents};
ghost use Rattle.shard_state.specs.ShardState.{ShardValue, IsShard, folded_shard};
ghost use Rattle.shard_state.specs.ShardCore.{AreCoreShards, HasCoreShape, IsCore, IsCoreEvent, core_after};
ghost use Rattle.shard_state.specs.ShardCore.{core_shape, changed_in, core_after_run, with_shard};
ghost use Rattle.shard_state.specs.ShardCore.{BasesRepresent, ShardMovedOn, NeverFall};
ghost use Rattle.shard_state.specs.ShardCore.{ReadsEachShard, last_core_read, latest_snapshot, core_lists};
ghost use Rattle.shard_state.specs.ShardCore.{reads_of, snapshot_in};

use crate::{Cut, Event, ShardState};
use std::marker::Model;

/// The states of 1 to 16 shards of one grain and capacity, on which events act one after the other.
#[derive(Drop)]
pub struct Core {
    states: Vec<ShardState>,
}

impl Model for Core {
    ghost use Rattle.std.specs.Prelude.{List};
    ghost use Rattle.shard_state.specs.ShardState.{ShardValue};
    ghost use Rattle.shard_state.specs.ShardCore.{IsCore};

    ghost Value = { List ShardValue };

    ghost view = { λ c. c.states.items };

    ghost invariant = { λ c. IsCore c.states.items };
}

impl Core {
    /// The core with these states.
    pub fn new(states: Vec<ShardState>) -> Core
        requires { AreCoreShards states.items }
        ensures { result ≡ states.items }
    {
        states_are_kept(&states);
        Core { states }
    }

    /// Performs one event: a fold of a shard, or a read of a shard into its caller's cut. All else is unchanged. It
    /// allocates no memory.
    pub fn step(&mut self, event: Event, cuts: &mut Vec<Cut>)
        requires event { IsCoreEvent (length self.old) (length cuts.old.items) event }
        requires cuts { All (HasCoreShape (length self.old) (core_shape self.old)) cuts.old.items }
        ensures shards { self.new ≡ (core_after (record { shards = self.old; cuts = cuts.old.items }) event).shards }
        ensures cuts { cuts.new.items ≡ (core_after (record { shards = self.old; cuts = cuts.old.items }) event).cuts }

        // Each shard has its list and base, at a position from the one before to the end of its list.
        ensures moved_on { (shard : ℕ) (state : ShardValue) → slice_get self.old shard ≡ Some state → ShardMovedOn self.new shard state }

        // The numbers of shards and callers are unchanged, and the cuts still have the core's shape.
        ensures shards_stay { length self.new ≡ length self.old }
        ensures callers_stay { length cuts.new.items ≡ length cuts.old.items }
        ensures shapes { All (HasCoreShape (length self.new) (core_shape self.new)) cuts.new.items }
    {
        self.keeps();
        self.act(event, cuts);
    }

    /// Performs a run of events, in order. It allocates no memory.
    pub fn run_events(&mut self, events: &[Event], cuts: &mut Vec<Cut>)
        requires events { All (IsCoreEvent (length self.old) (length cuts.old.items)) events.now }
        requires cuts { All (HasCoreShape (length self.old) (core_shape self.old)) cuts.old.items }
        ensures shards { self.new ≡ (core_after_run (record { shards = self.old; cuts = cuts.old.items }) events.now).shards }
        ensures cuts { cuts.new.items ≡ (core_after_run (record { shards = self.old; cuts = cuts.old.items }) events.now).cuts }

        // For each shard, a caller's cut has the snapshot at the position that the caller's last read of it met.
        ensures latest { (caller shard : ℕ) (state : ShardValue) (before : SnapshotValue) → slice_get self.old shard ≡ Some state
            → snapshot_in caller shard cuts.old.items ≡ Some before → snapshot_in caller shard cuts.new.items
            ≡ Some (latest_snapshot state before (reads_of caller shard (record { shards = self.old; cuts = cuts.old.items }) events.now)) }
        ensures last_reads { (caller shard position : ℕ) (cut : CutValue) → shard < length self.old → slice_get cuts.new.items caller ≡ Some cut
            → last_core_read (reads_of caller shard (record { shards = self.old; cuts = cuts.old.items }) events.now) ≡ Some position
            → slice_get (cut_positions cut) shard ≡ Some position }

        // A later read of a shard by the same caller never meets a smaller position.
        ensures never_fall { (caller shard : ℕ) (state : ShardValue) → slice_get self.old shard ≡ Some state
            → NeverFall state.position (reads_of caller shard (record { shards = self.old; cuts = cuts.old.items }) events.now) }

        // If the bases represent the lists, so does each cut in which every shard was read.
        ensures stands { BasesRepresent self.old → (caller : ℕ) (cut : CutValue) → slice_get cuts.new.items caller ≡ Some cut
            → ReadsEachShard caller (record { shards = self.old; cuts = cuts.old.items }) events.now → CutRepresents cut (core_lists self.old) }

        // The numbers of shards and callers are unchanged, and the cuts still have the core's shape.
        ensures shards_stay { length self.new ≡ length self.old }
        ensures callers_stay { length cuts.new.items ≡ length cuts.old.items }
        ensures shapes { All (HasCoreShape (length self.new) (core_shape self.new)) cuts.new.items }
    {
        self.keeps();
        self.run_in_order(events, cuts);
    }

    // Reading a field makes the core's invariant known to the caller.
    fn keeps(&self)
        ensures { IsCore self.now }
    {
        let _states = &self.states;
    }

    fn run_in_order(&mut self, events: &[Event], cuts: &mut Vec<Cut>)
        requires events { All (IsCoreEvent (length self.old) (length cuts.old.items)) events.now }
        requires cuts { All (HasCoreShape (length self.old) (core_shape self.old)) cuts.old.items }
        ensures shards { self.new ≡ (core_after_run (record { shards = self.old; cuts = cuts.old.items }) events.now).shards }
        ensures cuts { cuts.new.items ≡ (core_after_run (record { shards = self.old; cuts = cuts.old.items }) events.now).cuts }
    {
        for event in events {
            self.step(*event, cuts);
        }
    }

    // Performs one event.
    fn act(&mut self, event: Event, cuts: &mut Vec<Cut>)
        requires event { IsCoreEvent (length self.old) (length cuts.old.items) event }
        requires cuts { All (HasCoreShape (length self.old) (core_shape self.old)) cuts.old.items }
        ensures shards { self.new ≡ (core_after (record { shards = self.old; cuts = cuts.old.items }) event).shards }
        ensures cuts { cuts.new.items ≡ (core_after (record { shards = self.old; cuts = cuts.old.items }) event).cuts }
    {
        match event {
            Event::Fold { shard, block } => self.fold(shard, block),
            Event::Read { caller, shard } => self.read(caller, shard, cuts),
        }
    }

    // A shard counts a block.
    fn fold(&mut self, shard: u32, block: u32)
        requires within { shard < length self.old }
        requires block { 1 ≤ block }
        ensures { self.new ≡ changed_in (folded_shard block) shard self.old }
    {
        self.states[shard as usize].fold_block(block);
    }

    // A caller reads a shard.
    fn read(&self, caller: u32, shard: u32, cuts: &mut Vec<Cut>)
        requires caller { caller < length cuts.old.items }
        requires shard { shard < length self.now }
        requires cuts { All (HasCoreShape (length self.now) (core_shape self.now)) cuts.old.items }
        ensures { cuts.new.items ≡ changed_in (with_shard shard (slice_get self.now shard)) caller cuts.old.items }
    {
        cuts[caller as usize].copy_shard(shard, &self.states[shard as usize]);
    }
}

/// Each of these states is within its limits. It visits each state, and changes nothing.
pub fn states_are_kept(states: &[ShardState])
    ensures { All IsShard states.now }
{
    for state in states {
        let _position = state.position();
    }
}
