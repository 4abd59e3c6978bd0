//! The closest lines of each line.

ghost use Rattle.std.specs.Prelude.{◌≡◌, ◌<◌, false, true, List, [], replicate, length, Contains, IfSome, IfNone, IfOk, OnOk};
ghost use Rattle.std.specs.List.{list_any};
ghost use Rattle.prefix_lattice.specs.{PrefixValue, IsNode, node_count, node_of_prefix};
ghost use Rattle.prefix_lattice.specs.declared.grain.Grain.{Grain};
ghost use Rattle.hhh_report.specs.{prefixes_of_lines};
ghost use Rattle.exact_audit.specs.LineCodes.{AreLineCodes, ArePlaced};
ghost use Rattle.exact_audit.specs.ClosestLines.{is_between, is_right_above, closest_of_lines};
ghost use Rattle.exact_audit.specs.ClosestLines.{IsNotedBefore, IsPlaceRightAbove};

use crate::line_codes::LineCodes;
use hhh_report::Line;
use prefix_lattice::{Grain, Node, Prefix, Prefixes, keys_are_of_their_node, uppers_are_above};
use std::alloc::{AllocError, Global};

/// The closest lines of each line: those strictly under it that are strictly under no other such line, in the order of
/// the lines, which are of a grain. They are found from below, since a line is one of the closest of those right above
/// it, of which there are at most as many as a side of a prefix has lengths. So the cost grows with the number of lines:
/// one look-up for each line and node, and again for each line above it.
pub(crate) fn closest_of_each(
    alloc: Global,
    lines: &[Line],
    codes: &LineCodes,
    grain: Grain,
) -> Result<Vec<Prefixes>, AllocError>
    requires codes { AreLineCodes grain (prefixes_of_lines lines.now) codes.now.codes.keys }
    requires placed { ArePlaced (prefixes_of_lines lines.now) codes.now.codes.keys }
    ensures { IfOk result (λ each. each.items ≡ closest_of_lines (prefixes_of_lines lines.now)) }
{
    let mut each = empty_lists(alloc, lines.len())?;
    for line in lines {
        note(&mut each, &line.prefix, codes, grain)?;
    }
    Ok(each)
}

// This many empty lists.
fn empty_lists(alloc: Global, count: usize) -> Result<Vec<Prefixes>, AllocError>
    ensures { IfOk result (λ lists. lists.items ≡ replicate count []) }
{
    let mut lists = Vec::with_capacity(alloc, count)?;
    for _ in 0..count {
        lists.push(Prefixes::new(alloc))?;
    }
    Ok(lists)
}

// Appends a prefix to the list of each line that is right above it.
fn note(
    each: &mut Vec<Prefixes>,
    prefix: &Prefix,
    codes: &LineCodes,
    grain: Grain,
) -> Result<(), AllocError>
    requires { length each.old.items ≡ length codes.now.codes.keys }
    ensures { OnOk result ((lines : List PrefixValue) → AreLineCodes grain lines codes.now.codes.keys
        → ArePlaced lines codes.now.codes.keys
        → IsNotedBefore grain (node_count grain) lines prefix.now each.old.items each.new.items) }
{
    uppers_are_above();
    for index in 0..grain.nodes() {
        let node = Node::from_index(grain, index).unwrap();
        if let Some(place) = place_right_above(codes, prefix, node) {
            each[place].push(*prefix)?;
        }
    }
    Ok(())
}

// The place of the line of a node that is right above a prefix, if there is one.
fn place_right_above(codes: &LineCodes, prefix: &Prefix, node: Node) -> Option<usize>
    requires { IsNode node.grain node }
    ensures within { IfSome result (λ place. place < length codes.now.codes.keys) }
    ensures some { IfSome result (λ place. (lines : List PrefixValue)
        → AreLineCodes node.grain lines codes.now.codes.keys → ArePlaced lines codes.now.codes.keys
        → IsPlaceRightAbove lines prefix.now node place) }
    ensures none { IfNone result ((lines : List PrefixValue) (upper : PrefixValue)
        → AreLineCodes node.grain lines codes.now.codes.keys → Contains lines upper
        → node_of_prefix node.grain upper ≡ node → is_right_above lines upper prefix.now ≡ false) }
{
    keys_are_of_their_node();
    uppers_are_above();
    let Some(upper) = prefix.upper(node) else {
        return None;
    };
    if !prefix.strictly_under(&upper) {
        return None;
    }
    let Some(place) = codes.place(&upper) else {
        return None;
    };
    if is_one_between(codes, &upper, prefix, node.grain()) {
        return None;
    }
    Some(place)
}

// Whether a line is strictly between two prefixes. All lines are of the grain.
fn is_one_between(codes: &LineCodes, upper: &Prefix, lower: &Prefix, grain: Grain) -> bool
    ensures { (lines : List PrefixValue) → AreLineCodes grain lines codes.now.codes.keys
        → result ≡ list_any (is_between upper.now lower.now) lines }
{
    for index in 0..grain.nodes() {
        let node = Node::from_index(grain, index).unwrap();
        if has_between(codes, upper, lower, node) {
            return true;
        }
    }
    false
}

// Whether a line of a node is strictly between two prefixes.
fn has_between(codes: &LineCodes, upper: &Prefix, lower: &Prefix, node: Node) -> bool
    ensures yes { (lines : List PrefixValue) → AreLineCodes node.grain lines codes.now.codes.keys → result ≡ true
        → list_any (is_between upper.now lower.now) lines ≡ true }
    ensures no { (lines : List PrefixValue) (other : PrefixValue) → AreLineCodes node.grain lines codes.now.codes.keys
        → result ≡ false → Contains lines other → node_of_prefix node.grain other ≡ node
        → is_between upper.now lower.now other ≡ false }
{
    keys_are_of_their_node();
    uppers_are_above();
    let Some(other) = lower.upper(node) else {
        return false;
    };
    if !other.strictly_under(upper) {
        return false;
    }
    if !lower.strictly_under(&other) {
        return false;
    }
    codes.has(&other)
}
