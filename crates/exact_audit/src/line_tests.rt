//! The tests of lines. Each answers the number of the first line that fails it, counted from 1.

ghost use Rattle.std.specs.Prelude.{◌≡◌, ◌+◌, ◌*◌, ◌≤◌, ◌<◌, ◌^◌, ◌↔◌, List, length, All, IsTrue, IfOk};
ghost use Rattle.prefix_lattice.specs.{RecordValue, HoldsWeight, kept_pairs, total_weight, total_limit};
ghost use Rattle.hhh_report.specs.{LineHoldsWeight, IsHeavyLine, IsNarrowLine, line_limit};
ghost use Rattle.hhh_report.specs.{prefixes_of_lines};
ghost use Rattle.exact_audit.specs.LineTests.{IsTestResult, PassesJustified};
ghost use Rattle.exact_audit.specs.LineCodes.{AreLineCodes, ArePlaced};
ghost use Rattle.exact_audit.specs.LineTests.{measures_of, most_audited};
ghost use Rattle.exact_audit.specs.Findings.{AreSumsOf};

use crate::closest_lines::closest_of_each;
use crate::kept_pairs::count_kept_pairs;
use crate::line_codes::LineCodes;
use crate::node_sums::Sums;
use hhh_report::Line;
use prefix_lattice::{Grain, Prefix};
use std::alloc::{AllocError, Global};

/// The first line whose interval doesn't hold its prefix's weight.
pub(crate) fn bad_interval(lines: &[Line], sums: &[Sums]) -> Option<u64>
    requires { length sums.now ≡ length lines.now }
    ensures { (records : List RecordValue) → AreSumsOf lines.now records sums.now
        → IsTestResult (LineHoldsWeight records) lines.now result }
{
    for (place, line) in lines.iter().enumerate() {
        if !holds(line, sums[place].weight) {
            return Some(place as u64 + 1);
        }
    }
    None
}

// Whether the interval of a line holds a weight.
fn holds(line: &Line, weight: u64) -> bool
    ensures { IsTrue result ↔ HoldsWeight line.now.lo line.now.hi weight }
{
    line.lo <= weight && weight <= line.hi
}

/// The first line whose interval's width times the capacity is above the total.
pub(crate) fn too_wide(lines: &[Line], capacity: u32, total: u64) -> Option<u64>
    requires { All (λ line. line.lo ≤ line.hi) lines.now }
    ensures { IsTestResult (IsNarrowLine capacity total) lines.now result }
{
    for (place, line) in lines.iter().enumerate() {
        if u128::from(line.hi - line.lo) * u128::from(capacity) > u128::from(total) {
            return Some(place as u64 + 1);
        }
    }
    None
}

/// The first line whose high is below the threshold.
pub(crate) fn low_line(lines: &[Line], threshold: u64) -> Option<u64>
    ensures { IsTestResult (IsHeavyLine threshold) lines.now result }
{
    for (place, line) in lines.iter().enumerate() {
        if line.hi < threshold {
            return Some(place as u64 + 1);
        }
    }
    None
}

/// What the tests of lines are made with: the grain, the capacity of the tables, and the threshold and the total of the
/// report.
#[derive(Clone, Copy, Debug, PartialEq, Eq)]
pub(crate) struct Measures {
    pub(crate) grain: Grain,
    pub(crate) capacity: u32,
    pub(crate) threshold: u64,
    pub(crate) total: u64,
}

/// The first line that isn't justified.
pub(crate) fn not_justified(
    alloc: Global,
    lines: &[Line],
    codes: &LineCodes,
    sums: &[Sums],
    by: &Measures,
) -> Result<Option<u64>, AllocError>
    requires few { length lines.now < line_limit }
    requires codes { AreLineCodes by.now.grain (prefixes_of_lines lines.now) codes.now.codes.keys }
    requires placed { ArePlaced (prefixes_of_lines lines.now) codes.now.codes.keys }
    requires as_many { length sums.now ≡ length lines.now }
    requires capacity { by.now.capacity ≤ most_audited }
    requires total { by.now.total < total_limit }
    ensures { IfOk result (λ found. (records : List RecordValue) → AreSumsOf lines.now records sums.now
        → total_weight records ≡ by.now.total
        → IsTestResult (PassesJustified (measures_of by.now) records lines.now) lines.now found) }
{
    let closest = closest_of_each(alloc, lines, codes, by.grain)?;
    for place in 0..lines.len() {
        if !is_justified(closest[place].as_slice(), sums[place].left, by) {
            return Ok(Some(place as u64 + 1));
        }
    }
    Ok(None)
}

// Whether a line with these closest lines is justified by this conditioned weight. The kept pairs are counted only where a
// width, the total over the capacity, for the line and each of these doesn't justify it.
fn is_justified(members: &[Prefix], left: u64, by: &Measures) -> bool
    requires few { length members.now < line_limit }
    requires capacity { by.now.capacity ≤ most_audited }
    requires total { by.now.total < total_limit }
    ensures { IsTrue result ↔ (by.now.capacity * by.now.threshold ≤ by.now.capacity * left
        + (1 + length members.now + length (kept_pairs members.now)) * by.now.total) }
{
    let widths = 1 + members.len() as u64;
    if by.allows(left, widths) {
        return true;
    }
    by.allows(left, widths + count_kept_pairs(members))
}

impl Measures {
    // Whether a conditioned weight is at least the threshold less this many widths, each the total over the capacity.
    fn allows(&self, left: u64, widths: u64) -> bool
        requires capacity { self.now.capacity ≤ most_audited }
        requires total { self.now.total < total_limit }
        ensures { IsTrue result ↔ (self.now.capacity * self.now.threshold
            ≤ self.now.capacity * left + widths * self.now.total) }
    {
        let capacity = u128::from(self.capacity);
        capacity * u128::from(self.threshold)
            <= capacity * u128::from(left) + u128::from(widths) * u128::from(self.total)
    }
}
