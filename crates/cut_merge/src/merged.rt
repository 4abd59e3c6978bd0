//! The tables of a cut, merged.

ghost use Rattle.std.specs.Prelude.{◌≡◌, ◌<◌, ◌≤◌, ◌^◌, ℕ, IfOk};
ghost use Rattle.prefix_lattice.specs.{HasPrefixKey, IsNode, IsPrefix, PrefixValue, total_limit};
ghost use Rattle.shard_state.specs.{CutValue, total_of_cut};
ghost use Rattle.cut_merge.specs.Merged.{NodeRepresents, merge_at, interval_for};
ghost use Rattle.cut_merge.specs.Merged.{candidates_at, RepresentsCut, interval_for_key};
ghost use Rattle.cut_merge.specs.CutTables.{tables_at, interval_in_cut, monitored_in_cut};
ghost use Rattle.cut_merge.specs.CutTables.{FitsTotal};

use crate::laws::tables_are_bounded;
use crate::node_merge::NodeMerge;
use crate::seen_homes::SeenHomes;
use prefix_lattice::{Grain, Node, Prefix};
use shard_state::Cut;
use std::alloc::{AllocError, Global};
use std::marker::Model;

/// How many homes the filter of keys has for each entry that the tables of a node can have.
const HOMES_AN_ENTRY: usize = 8;

/// The tables of all shards of a cut, read as one: the keys of each node in the order in which they are first
/// seen, each with its interval. It is made in one pass over the entries of the cut.
#[derive(Drop)]
pub struct Merged {
    grain: Grain,
    capacity: u32,
    total: u64,
    nodes: Vec<NodeMerge>,
}

impl Model for Merged {
    ghost use Rattle.cut_merge.specs.Merged.{MergedValue, IsMerged};

    ghost Value = { MergedValue };

    ghost view = { λ m. record { shape = record { grain = m.grain; capacity = m.capacity }; total = m.total; nodes = m.nodes.items } };

    ghost invariant = { λ m. IsMerged (record { shape = record { grain = m.grain; capacity = m.capacity }; total = m.total; nodes = m.nodes.items }) };
}

impl Merged {
    /// Merges the tables of a cut, which counted less than 2^60 together; those of at most 16 shards always did.
    /// The only error is that memory runs out.
    pub fn of(alloc: Global, cut: &Cut) -> Result<Merged, AllocError>
        requires { total_of_cut cut.now < total_limit }
        ensures { IfOk result (λ merged. RepresentsCut merged cut.now) }
    {
        let grain = cut.grain();
        let mut nodes = Vec::with_capacity(alloc, usize::from(grain.nodes()))?;
        let mut seen = SeenHomes::with_homes(alloc, home_count(cut))?;
        for place in 0..grain.nodes() {
            let node = Node::from_index(grain, place).unwrap();
            nodes.push(merge_node(alloc, cut, node, &mut seen)?)?;
        }
        Ok(Merged {
            grain,
            capacity: cut.capacity(),
            total: total_of_shards(cut),
            nodes,
        })
    }

    /// The weight that the tables counted together, in bytes or packets, below 2^60.
    pub fn total(&self) -> u64
        ensures total { result ≡ self.now.total }
        ensures bounded { result < total_limit }
    {
        self.total
    }

    /// The grain whose nodes have the tables.
    pub fn grain(&self) -> Grain
        ensures { result ≡ self.now.shape.grain }
    {
        self.grain
    }

    /// The most entries of each table.
    pub fn capacity(&self) -> u32
        ensures { result ≡ self.now.shape.capacity }
    {
        self.capacity
    }

    /// The least and the greatest weight that the prefix, which is of the tables' grain, can have had over all shards, in
    /// bytes or packets, whether or not a shard monitors it. The least is at most the greatest, which is at most the total.
    pub fn interval(&self, prefix: &Prefix) -> (u64, u64)
        requires { IsPrefix self.now.shape.grain prefix.now }
        ensures low { result.0 ≡ (interval_for self.now prefix.now).low }
        ensures high { result.1 ≡ (interval_for self.now prefix.now).high }
        ensures of_cut { (cut : CutValue) → RepresentsCut self.now cut → interval_in_cut cut prefix.now ≡ record { low = result.0; high = result.1 } }
        ensures ordered { result.0 ≤ result.1 }
        ensures within_total { result.1 ≤ self.now.total }
        ensures bounded { result.1 < total_limit }
    {
        let node = prefix.node(self.grain).unwrap();
        self.merge_of(node).interval(prefix.key())
    }

    /// A bound on the greatest weight that the prefix of this node with this key can have had over all shards, in bytes or
    /// packets: at least the high of its interval. The node is of the tables' grain. It needs no search and no prefix, so a
    /// caller that looks for heavy prefixes can skip most of the others by it.
    pub fn at_most(&self, node: Node, key: u64) -> u64
        requires { node.grain ≡ self.now.shape.grain }
        ensures { (prefix : PrefixValue) → HasPrefixKey node key prefix → (interval_for self.now prefix).high ≤ result }
    {
        self.merge_of(node).at_most(key)
    }

    /// The keys that some shard monitors at the node, which is of the tables' grain, each once, in the order in which they
    /// are first seen: shard by shard, in the order of each table's entries.
    pub fn candidates(&self, node: Node) -> &[u64]
        requires { node.grain ≡ self.now.shape.grain }
        ensures known { result.now ≡ candidates_at self.now node }
        ensures of_cut { (cut : CutValue) → RepresentsCut self.now cut → result.now ≡ monitored_in_cut cut node }
    {
        self.merge_of(node).keys()
    }

    // The merged tables of a node.
    fn merge_of(&self, node: Node) -> &NodeMerge
        requires { node.grain ≡ self.now.shape.grain }
        ensures merge { result.now ≡ merge_at node self.now }
        ensures within { (key : ℕ) → FitsTotal self.now.total (interval_for_key result.now key) }
        ensures bounded { self.now.total < total_limit }
    {
        &self.nodes[usize::from(node.index())]
    }
}

// The tables of a node, merged over the shards of a cut. It stays a function of its own in the binary, so that
// measurements can see where merging begins.
#[inline(never)]
fn merge_node(
    alloc: Global,
    cut: &Cut,
    node: Node,
    seen: &mut SeenHomes,
) -> Result<NodeMerge, AllocError>
    requires is_node { IsNode cut.now.shape.grain node }
    requires bounded { total_of_cut cut.now < total_limit }
    ensures stands { IfOk result (λ merge. NodeRepresents merge (tables_at node cut.now)) }
    ensures within { IfOk result (λ merge. (key : ℕ) → FitsTotal (total_of_cut cut.now) (interval_for_key merge key)) }
{
    tables_are_bounded();
    seen.clear();
    let mut merge = NodeMerge::new(alloc)?;
    for shard in 0..cut.shards() {
        merge.add(alloc, cut.shard(shard).table(node), seen)?;
    }
    Ok(merge)
}

// How many homes the filter of keys has: with so many, few keys share one.
fn home_count(cut: &Cut) -> usize
    ensures some { 1 ≤ result }
    ensures few { result ≤ 2 ^ 32 }
{
    HOMES_AN_ENTRY * cut.shards() as usize * cut.capacity() as usize + 1
}

// The weight that the shards of a cut counted together.
fn total_of_shards(cut: &Cut) -> u64
    requires { total_of_cut cut.now < total_limit }
    ensures { result ≡ total_of_cut cut.now }
{
    let mut total = 0;
    for place in 0..cut.shards() {
        total += cut.shard(place).total();
    }
    total
}
