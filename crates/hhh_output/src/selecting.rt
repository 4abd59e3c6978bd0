//! Selects the lines of a report: level by level, from the most specific prefixes up. Each candidate is judged
//! over the lines of greater level. A level is a number of bits, so that most levels have no node.

ghost use Rattle.std.specs.Prelude.{◌≡◌, ◌≢◌, ◌+◌, ◌≤◌, ◌<◌, ◌^◌, ◌↔◌, ◌⊎◌, [], ◌++◌, length, All, AllPairs, Contains};
ghost use Rattle.std.specs.Prelude.{IfOk, OnOk, Some};
ghost use Rattle.std.specs.Option.{option_to_list};
ghost use Rattle.prefix_lattice.specs.{HasPrefixKey, IsNode, IsPrefix, IsPrefixKey, deepest_level, node_of_prefix};
ghost use Rattle.cut_merge.specs.{candidates_at};
ghost use Rattle.conditioned_bounds.specs.{member_limit};
ghost use Rattle.hhh_report.specs.declared.line.Line.{Line as LineValue};
ghost use Rattle.hhh_report.specs.{AreOfGrain, prefixes_of_lines};
ghost use Rattle.hhh_output.specs.Selecting.{CanSelect, IsSelected, AreCandidates, AreDistinct};
ghost use Rattle.hhh_output.specs.Selecting.{AreOfLevel, AreDownTo};

use crate::merged_intervals::MergedIntervals;
use conditioned_bounds::LineIndex;
use cut_merge::Merged;
use hhh_report::{Line, Lines};
use prefix_lattice::{Node, Prefix, prefixes_are_ordered, report_order_is_total};
use std::alloc::{AllocError, Global};

/// The level of the prefixes that keep all bits of both addresses.
const DEEPEST_LEVEL: u8 = 64;

/// The lines that merged tables give, in the order of a report. It stays a function of its own in the binary, so that
/// measurements can see where it begins.
#[inline(never)]
pub(crate) fn select_lines(
    alloc: Global,
    merged: &Merged,
    threshold: u64,
) -> Result<Lines, AllocError>
    requires { AreCandidates merged.now }
    ensures { IfOk result (λ lines. AreDownTo merged.now threshold (deepest_level + 1) lines) }
{
    prefixes_are_ordered();
    report_order_is_total();
    let mut lines = Lines::new(alloc);
    let mut reported = LineIndex::new(alloc, merged.grain());
    for levels in 0..DEEPEST_LEVEL + 1 {
        let found = select_level(alloc, merged, threshold, &reported, DEEPEST_LEVEL - levels)?;
        append(&mut lines, &mut reported, &found)?;
    }
    Ok(lines)
}

// Appends lines of the grain of the reported ones, and their prefixes.
fn append(lines: &mut Lines, reported: &mut LineIndex, found: &[Line]) -> Result<(), AllocError>
    requires of_grain { AreOfGrain reported.old.grain found.now }
    requires distinct { AllPairs (λ prefix other. prefix ≢ other) (reported.old.lines ++ prefixes_of_lines found.now) }
    requires few { length reported.old.lines + length found.now < member_limit }
    ensures lines { OnOk result (lines.new ≡ lines.old ++ found.now) }
    ensures prefixes { OnOk result (reported.new.lines ≡ reported.old.lines ++ prefixes_of_lines found.now) }
    ensures grain { OnOk result (reported.new.grain ≡ reported.old.grain) }
{
    for line in found {
        lines.push(*line)?;
        reported.push(&line.prefix)?;
    }
    Ok(())
}

// The lines of a level that merged tables give over these lines, in the order of a report.
fn select_level(
    alloc: Global,
    merged: &Merged,
    threshold: u64,
    reported: &LineIndex,
    level: u8,
) -> Result<Vec<Line>, AllocError>
    requires candidates { AreCandidates merged.now }
    requires grain { reported.now.grain ≡ merged.now.shape.grain }
    ensures { IfOk result (λ found. AreOfLevel merged.now threshold reported.now.lines level found.items) }
{
    prefixes_are_ordered();
    report_order_is_total();
    let mut found = Vec::new(alloc);
    let grain = merged.grain();
    for place in 0..grain.nodes() {
        let node = Node::from_index(grain, place).unwrap();
        if node.level() != level {
            continue;
        }
        select_at(merged, threshold, reported, node, &mut found)?;
    }
    found.sort_by(|line, other| line.prefix.order(&other.prefix))?;
    Ok(found)
}

// Adds the lines of a node that merged tables give over these lines.
fn select_at(
    merged: &Merged,
    threshold: u64,
    reported: &LineIndex,
    node: Node,
    found: &mut Vec<Line>,
) -> Result<(), AllocError>
    requires is_node { IsNode merged.now.shape.grain node }
    requires candidates { AreCandidates merged.now }
    requires grain { reported.now.grain ≡ merged.now.shape.grain }
    requires apart { All (λ line. node_of_prefix merged.now.shape.grain line.prefix ≢ node) found.old.items }
    requires distinct { AreDistinct found.old.items }
    ensures members { OnOk result ((line : LineValue) → Contains found.new.items line
        ↔ (Contains found.old.items line ⊎ ((node_of_prefix merged.now.shape.grain line.prefix ≡ node)
        × IsSelected merged.now threshold reported.now.lines line))) }
    ensures distinct { OnOk result (AreDistinct found.new.items) }
    ensures few { OnOk result (length found.new.items ≤ length found.old.items + length (candidates_at merged.now node)) }
{
    for key in merged.candidates(node) {
        let line = line_at(merged, threshold, reported, node, *key)?;
        push_found(found, line)?;
    }
    Ok(())
}

// Appends a line, if there is one.
fn push_found(found: &mut Vec<Line>, line: Option<Line>) -> Result<(), AllocError>
    ensures { OnOk result (found.new.items ≡ found.old.items ++ option_to_list line) }
{
    if let Some(line) = line {
        found.push(line)?;
    }
    Ok(())
}

// The line of the prefix of this node with this key, if merged tables give it one over these lines. Most keys are known
// to be too light without their prefixes.
fn line_at(
    merged: &Merged,
    threshold: u64,
    reported: &LineIndex,
    node: Node,
    key: u64,
) -> Result<Option<Line>, AllocError>
    requires is_node { node.grain ≡ merged.now.shape.grain }
    requires keyed { IsPrefixKey node key }
    requires grain { reported.now.grain ≡ merged.now.shape.grain }
    ensures asked { IfOk result (λ found. (line : LineValue) → HasPrefixKey node key line.prefix
        → (found ≡ Some line) ↔ CanSelect merged.now threshold reported.now.lines line) }
    ensures prefix { IfOk result (λ found. (line : LineValue) → found ≡ Some line → HasPrefixKey node key line.prefix) }
{
    if merged.at_most(node, key) < threshold {
        return Ok(None);
    }
    line_for(
        merged,
        threshold,
        reported,
        Prefix::from_key(key, node).unwrap(),
    )
}

// The line of a prefix, if merged tables give it a line over these lines.
fn line_for(
    merged: &Merged,
    threshold: u64,
    reported: &LineIndex,
    prefix: Prefix,
) -> Result<Option<Line>, AllocError>
    requires prefix { IsPrefix merged.now.shape.grain prefix }
    requires grain { reported.now.grain ≡ merged.now.shape.grain }
    ensures asked { IfOk result (λ found. (line : LineValue) → line.prefix ≡ prefix
        → (found ≡ Some line) ↔ CanSelect merged.now threshold reported.now.lines line) }
    ensures prefix { IfOk result (λ found. (line : LineValue) → found ≡ Some line → line.prefix ≡ prefix) }
{
    let (lo, hi) = merged.interval(&prefix);
    if hi < threshold {
        return Ok(None);
    }
    let parts = reported.bound(&prefix, &MergedIntervals { merged })?;
    if parts.value < i128::from(threshold) {
        return Ok(None);
    }
    Ok(Some(Line { prefix, lo, hi }))
}
