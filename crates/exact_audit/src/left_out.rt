//! Prefixes that no line has, though their conditioned weight reaches the threshold.

ghost use Rattle.std.specs.Prelude.{◌≡◌, ◌+◌, ◌^◌, ◌≤◌, ◌<◌, List, Some, nat_eq, if◌then◌else◌};
ghost use Rattle.std.specs.List.{list_any};
ghost use Rattle.prefix_lattice.specs.{RecordValue, PrefixValue, IsNode, node_index, prefix_key};
ghost use Rattle.exact_audit.specs.LineCodes.{AreLineCodes, line_code};
ghost use Rattle.exact_audit.specs.NodeSums.{AreNodeSums, HasSumKeys};
ghost use Rattle.exact_audit.specs.Findings.{IsFirstBefore, first_with};

use crate::line_codes::LineCodes;
use crate::node_sums::KeySums;
use prefix_lattice::{Node, Prefix, keys_are_of_their_node, report_order_is_total};
use std::cmp::Ordering;

/// A prefix that is left out, and its conditioned weight, in bytes or packets.
#[derive(Clone, Copy, PartialEq, Eq)]
pub(crate) struct LeftOut {
    pub(crate) prefix: Prefix,
    pub(crate) weight: u64,
}

/// The first, in the order of a report, among a prefix that was found before, if any, and the prefixes of a node that
/// are left out. It costs one pass over the node's keys.
pub(crate) fn first_left_out(
    lines: &LineCodes,
    node: Node,
    threshold: u64,
    sums: &KeySums,
    found: Option<LeftOut>,
) -> Option<LeftOut>
    requires node { IsNode node.grain node }
    requires some { 1 ≤ threshold }
    requires keys { HasSumKeys node sums.now }
    ensures { (prefixes : List PrefixValue) (records : List RecordValue)
        → AreLineCodes node.grain prefixes lines.now.codes.keys → AreNodeSums node prefixes records sums.now
        → IsFirstBefore node.grain (node_index node) prefixes records threshold found
        → IsFirstBefore node.grain (node_index node + 1) prefixes records threshold result }
{
    keys_are_of_their_node();
    report_order_is_total();
    let mut found = found;
    for place in 0..sums.len() {
        let (key, of_key) = sums.get_index(place).unwrap();
        if of_key.left >= threshold {
            let prefix = Prefix::from_key(*key, node).unwrap();
            found = first_unless_line(lines, prefix, of_key.left, found);
        }
    }
    found
}

// The first of a prefix that was found before and of another, unless a line has that other one.
fn first_unless_line(
    lines: &LineCodes,
    prefix: Prefix,
    weight: u64,
    found: Option<LeftOut>,
) -> Option<LeftOut>
    ensures value { result ≡ (if list_any (nat_eq (line_code prefix)) lines.now.codes.keys then found
        else Some (first_with found (record { prefix = prefix; weight = weight }))) }
    ensures small { prefix_key prefix < 2 ^ 64 }
{
    if lines.has(&prefix) {
        return found;
    }
    Some(first_of(found, LeftOut { prefix, weight }))
}

// The first, in the order of a report, of a prefix that was found before, if one was, and of another.
fn first_of(found: Option<LeftOut>, other: LeftOut) -> LeftOut
    ensures { result ≡ first_with found other }
{
    let Some(first) = found else {
        return other;
    };
    match other.prefix.order(&first.prefix) {
        Ordering::Less => other,
        Ordering::Equal => first,
        Ordering::Greater => first,
    }
}
