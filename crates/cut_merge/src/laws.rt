//! What the merged intervals of a cut say of weights, each law the contract of a function that does nothing.

ghost use Rattle.std.specs.Prelude.{◌≡◌, ◌≢◌, ℕ, ◌*◌, ◌^◌, ◌<◌, ◌≤◌, List, length, All, AllPairs, Contains};
ghost use Rattle.prefix_lattice.specs.{RecordValue, NodeValue, IsNode, PrefixValue, IsPrefix, node_of_prefix};
ghost use Rattle.prefix_lattice.specs.{prefix_key, prefix_weight, total_weight, IsPrefixKey};
ghost use Rattle.hhh_report.specs.{records_before};
ghost use Rattle.shard_state.specs.{CutValue, IsCut, cut_positions, total_of_cut, CutRepresents};
ghost use Rattle.shard_state.specs.{HoldsNarrowly};
ghost use Rattle.cut_merge.specs.CutTables.{tables_at, interval_in_cut, monitored_in_cut};
ghost use Rattle.cut_merge.specs.CutTables.{FitsTotal};
ghost use Rattle.cut_merge.specs.Merged.{CanBeMerged};

use shard_state::snapshots_hold_weights;
use space_saving::intervals_are_narrow;

/// If a cut represents lists of records, the merged interval of each prefix holds its exact weight over the records
/// before the positions, and is no wider than the total divided by the capacity.
pub fn merged_intervals_hold_weights()
    ensures { (cut : CutValue) (lists : List (List RecordValue)) (prefix : PrefixValue) → IsCut cut → CutRepresents cut lists
        → All (λ list. All (λ rec. 1 ≤ rec.weight) list) lists → IsPrefix cut.shape.grain prefix
        → HoldsNarrowly (interval_in_cut cut prefix) cut.shape.capacity
        (prefix_weight prefix (records_before lists (cut_positions cut))) (total_of_cut cut) }
{
    snapshots_hold_weights();
}

/// In every cut a merged interval has its ends in order and within the total, and the high of a prefix that no
/// shard monitors is at most the total divided by the capacity.
pub fn merged_intervals_are_narrow()
    ensures within { (cut : CutValue) (prefix : PrefixValue) → IsCut cut → IsPrefix cut.shape.grain prefix
        → FitsTotal (total_of_cut cut) (interval_in_cut cut prefix) }
    ensures light { (cut : CutValue) (prefix : PrefixValue) → IsCut cut → IsPrefix cut.shape.grain prefix
        → ¬ Contains (monitored_in_cut cut (node_of_prefix cut.shape.grain prefix)) (prefix_key prefix)
        → (interval_in_cut cut prefix).high * cut.shape.capacity ≤ total_of_cut cut }
{
    tables_are_bounded();
    intervals_are_narrow();
}

/// The keys that a cut monitors at a node are distinct keys of the node, and at most as many as the shards' tables
/// can have entries.
pub fn monitored_keys_are_few()
    ensures keyed { (cut : CutValue) (node : NodeValue) → IsCut cut → IsNode cut.shape.grain node → All (IsPrefixKey node) (monitored_in_cut cut node) }
    ensures distinct { (cut : CutValue) (node : NodeValue) → AllPairs (λ key other. key ≢ other) (monitored_in_cut cut node) }
    ensures few { (cut : CutValue) (node : NodeValue) → IsCut cut → IsNode cut.shape.grain node
        → length (monitored_in_cut cut node) ≤ length cut.shards * cut.shape.capacity }
{}

/// In the tables of a cut each interval has its ends in order and within the total of its table, and no high is
/// below that of a key that is missing in the table. So sums of intervals don't wrap.
pub(crate) fn tables_are_bounded()
    ensures { (cut : CutValue) (node : NodeValue) (key : ℕ) → IsCut cut → IsNode cut.shape.grain node → All (CanBeMerged key) (tables_at node cut) }
{
    intervals_are_narrow();
}
