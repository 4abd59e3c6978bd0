//! What the tables of shards say of weights, each law the contract of a function that does nothing.

ghost use Rattle.std.specs.Prelude.{◌≡◌, ◌^◌, ◌<◌, ◌≤◌, ℕ, List, All, Some, length, slice_get, take};
ghost use Rattle.prefix_lattice.specs.{RecordValue, NodeValue, PrefixValue, IsPrefix, prefix_weight, total_weight};
ghost use Rattle.prefix_lattice.specs.{record_limit};
ghost use Rattle.space_saving.specs.{least_capacity, most_capacity, table_total};
ghost use Rattle.hhh_report.specs.{records_before};
ghost use Rattle.shard_state.specs.Snapshot.{records_table, SnapshotValue, empty_snapshot, snapshot_total};
ghost use Rattle.shard_state.specs.Snapshot.{IsSnapshot, SnapshotRepresents, TableShape};
ghost use Rattle.shard_state.specs.Cut.{CutValue, IsCut, cut_positions, total_of_cut, CutRepresents};
ghost use Rattle.shard_state.specs.ShardState.{IsShard, ShardValue, shard_state_at, snapshot_of};
ghost use Rattle.shard_state.specs.WeightIntervals.{HoldsNarrowly, HoldsNarrowlyOver};
ghost use Rattle.shard_state.specs.WeightIntervals.{interval_of};
ghost use Rattle.shard_state.specs.ShardCore.{CoreValue, HasCoreShape, IsCore, core_shape, core_after_run};
ghost use Rattle.shard_state.specs.ShardCore.{BasesRepresent, ReadsEachShard, core_lists};
ghost use Rattle.shard_state.specs.declared.event.Event.{Event};
ghost use Rattle.prefix_lattice.specs.{most_grain_capacity};

use prefix_lattice::{keys_are_of_their_node, keys_tell_covering};
use space_saving::{adds_leave_a_table, intervals_hold, steps_leave_a_table};

/// In the table of records at a prefix's node, the interval of the prefix holds its exact weight and is no wider
/// than the total divided by the capacity (Metwally, Agrawal, El Abbadi 2005), and the counts add up to the total
/// weight.
pub fn tables_hold_weights()
    ensures weight { (shape : TableShape) (prefix : PrefixValue) (records : List RecordValue) → 1 ≤ shape.capacity → IsPrefix shape.grain prefix
        → All (λ rec. 1 ≤ rec.weight) records → HoldsNarrowlyOver shape prefix records }
    ensures total { (capacity : ℕ) (node : NodeValue) (records : List RecordValue) → 1 ≤ capacity
        → table_total (records_table capacity node records) ≡ total_weight records }
{
    keys_tell_covering();
    intervals_hold();
    adds_leave_a_table();
}

/// A snapshot that represents a list holds the weights of the records before its position.
pub fn snapshots_hold_weights()
    ensures weight { (snapshot : SnapshotValue) (list : List RecordValue) (prefix : PrefixValue)
        → SnapshotRepresents snapshot list → 1 ≤ snapshot.shape.capacity
        → IsPrefix snapshot.shape.grain prefix → All (λ rec. 1 ≤ rec.weight) list
        → HoldsNarrowly (interval_of prefix snapshot) snapshot.shape.capacity
        (prefix_weight prefix (take snapshot.position list)) (snapshot_total snapshot) }
    ensures total { (snapshot : SnapshotValue) (list : List RecordValue) → SnapshotRepresents snapshot list → 1 ≤ snapshot.shape.capacity
        → snapshot_total snapshot ≡ total_weight (take snapshot.position list) }
    ensures cut_total { (cut : CutValue) (lists : List (List RecordValue)) → IsCut cut → CutRepresents cut lists
        → total_of_cut cut ≡ total_weight (records_before lists (cut_positions cut)) }
{
    tables_hold_weights();
}

/// Empty tables represent each list, and if a shard's base represents its list, then so does the shard's snapshot
/// at each position.
pub fn shards_stand()
    ensures begins { (shape : TableShape) (list : List RecordValue) → SnapshotRepresents (empty_snapshot shape) list }
    ensures goes_on { (shard : ShardValue) → SnapshotRepresents shard.base shard.list → shard.base.position ≤ shard.position
        → shard.position ≤ length shard.list → SnapshotRepresents (snapshot_of shard) shard.list }
{}

/// A shard with empty tables, or with tables that counted the weight of the first records of its list, is within its limits,
/// if its list and its tables are; and then it is so at each later position, up to the end of its list.
pub fn shards_keep_their_limits()
    ensures begins { (shape : TableShape) (list : List RecordValue) → least_capacity ≤ shape.capacity → shape.capacity ≤ most_capacity
        → shape.capacity ≤ most_grain_capacity shape.grain → length list ≤ record_limit
        → All (λ rec. 1 ≤ rec.weight) list → All (λ rec. rec.weight < 2 ^ 32) list
        → IsShard (record { list = list; base = empty_snapshot shape; position = 0 }) }
    ensures resumes { (base : SnapshotValue) (list : List RecordValue) → IsSnapshot base → base.position ≤ length list → length list ≤ record_limit
        → All (λ rec. 1 ≤ rec.weight) list → All (λ rec. rec.weight < 2 ^ 32) list
        → snapshot_total base ≡ total_weight (take base.position list)
        → IsShard (record { list = list; base = base; position = base.position }) }
    ensures goes_on { (shard : ShardValue) (position : ℕ) → IsShard shard → shard.position ≤ position → position ≤ length shard.list
        → IsShard (shard_state_at position shard) }
{
    steps_leave_a_table();
    keys_are_of_their_node();
}

/// Two cuts of one shape, at the same positions, that represent the same lists are equal.
pub fn standing_cuts_are_equal()
    ensures { (cut other : CutValue) (lists : List (List RecordValue)) → cut.shape ≡ other.shape → cut_positions cut ≡ cut_positions other
        → CutRepresents cut lists → CutRepresents other lists → cut ≡ other }
{}

/// After a run of events, the cut of a caller that read every shard represents the lists, if the bases do.
pub fn runs_stand()
    ensures { (core : CoreValue) (events : List Event) (caller : ℕ) (cut : CutValue) → IsCore core.shards
        → All (HasCoreShape (length core.shards) (core_shape core.shards)) core.cuts → BasesRepresent core.shards
        → slice_get (core_after_run core events).cuts caller ≡ Some cut → ReadsEachShard caller core events → CutRepresents cut (core_lists core.shards) }
{}
