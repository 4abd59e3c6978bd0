//! The sums of one node.

ghost use Rattle.std.specs.Prelude.{◌≡◌, ◌+◌, ◌<◌, ◌^◌, ℕ, List, nat_eq, is_some, if◌then◌else◌, ◌&&◌, ◌||◌, not, IfOk};
ghost use Rattle.std.specs.Prelude.{OnOk};
ghost use Rattle.std.specs.HashMap.{get};
ghost use Rattle.prefix_lattice.specs.{IsNode, PrefixValue, RecordValue, total_weight, total_limit};
ghost use Rattle.exact_audit.specs.NodeSums.{AreCountedIn, AreNodeSums, HasSumKeys, records_in};
ghost use Rattle.exact_audit.specs.NodeSums.{sums_for};

use crate::counted::Counted;
use crate::seed::Seed;
use indexmap::IndexMap;
use prefix_lattice::{Node, Prefix, Record, keys_are_of_their_node, keys_tell_covering};
use std::alloc::{AllocError, Global};

/// The weight of a prefix, and its conditioned weight, in bytes or packets.
#[derive(Clone, Copy, PartialEq, Eq)]
pub(crate) struct Sums {
    pub(crate) weight: u64,
    pub(crate) left: u64,
}

impl Sums {
    /// The sums of no record.
    pub(crate) const NONE: Sums = Sums { weight: 0, left: 0 };
}

/// The sums of the prefixes of a node by their keys, in the order in which the keys came.
pub(crate) type KeySums = IndexMap<u64, Sums, Seed>;

/// The sums of each prefix of a node that covers a counted record. The keys are looked up by a seed. It costs one pass
/// over the records.
pub(crate) fn sums_at(
    alloc: Global,
    counted: &[Counted],
    node: Node,
    seed: Seed,
) -> Result<KeySums, AllocError>
    requires node { IsNode node.grain node }
    requires light { total_weight (records_in counted.now) < total_limit }
    ensures keys { IfOk result (HasSumKeys node) }
    ensures sums { IfOk result (λ sums. (lines : List PrefixValue) (records : List RecordValue)
        → AreCountedIn node.grain lines records counted.now → AreNodeSums node lines records sums) }
{
    keys_tell_covering();
    keys_are_of_their_node();
    let mut sums = IndexMap::with_hasher(alloc, seed);
    let bits = node.grain().bits();
    let source = node.source_bits() / bits;
    let dest = node.dest_bits() / bits;
    for one in counted {
        let key = Prefix::of(&one.rec, node).key();
        add(&mut sums, key, &one.rec, one.depths.explained(source, dest))?;
    }
    Ok(sums)
}

// Adds the weight of a record to the sum of a key, and to its conditioned weight unless the record is explained.
fn add(sums: &mut KeySums, key: u64, rec: &Record, explained: bool) -> Result<(), AllocError>
    requires weight { (sums_for sums.old key).weight + rec.now.weight < 2 ^ 64 }
    requires left { (sums_for sums.old key).left + rec.now.weight < 2 ^ 64 }
    ensures keys { OnOk result ((other : ℕ) → is_some (get nat_eq sums.new other)
        ≡ (nat_eq key other || is_some (get nat_eq sums.old other))) }
    ensures weight { OnOk result ((other : ℕ) → (sums_for sums.new other).weight
        ≡ (sums_for sums.old other).weight + (if nat_eq key other then rec.now.weight else 0)) }
    ensures left { OnOk result ((other : ℕ) → (sums_for sums.new other).left
        ≡ (sums_for sums.old other).left + (if nat_eq key other && not explained then rec.now.weight else 0)) }
{
    let weight = u64::from(rec.weight);
    let of_key = sums.entry(key)?.or_insert(Sums::NONE);
    of_key.weight += weight;
    if !explained {
        of_key.left += weight;
    }
    Ok(())
}
