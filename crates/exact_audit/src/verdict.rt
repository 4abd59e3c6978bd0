//! What an audit finds.

ghost use Rattle.std.specs.Prelude.{◌≡◌, ◌≤◌, ◌<◌, List, length, IfOk};
ghost use Rattle.prefix_lattice.specs.{RecordValue, total_weight, total_limit};
ghost use Rattle.hhh_report.specs.{AreReportLines, prefixes_of_lines};
ghost use Rattle.exact_audit.specs.LineCodes.{AreLineCodes, ArePlaced};
ghost use Rattle.exact_audit.specs.LineTests.{measures_of, most_audited};
ghost use Rattle.exact_audit.specs.Verdict.{IsLineVerdict};
ghost use Rattle.exact_audit.specs.Findings.{AreFindings};

use crate::findings::Findings;
use crate::line_codes::LineCodes;
use crate::line_tests::{Measures, bad_interval, low_line, not_justified, too_wide};
use hhh_report::Line;
use prefix_lattice::Prefix;
use std::alloc::{AllocError, Global};

/// Whether a report is sound over the records that it counts, and if not, the first test that fails. Lines are numbered
/// from 1. A test is made over all lines before the next one.
#[derive(Clone, Copy, Debug, PartialEq, Eq)]
pub enum Verdict {
    /// All eight tests hold.
    Good,
    /// There are not as many positions as shards, or one is past the end of its shard's records.
    BadPositions,
    /// The total is not the weight of the records before the positions.
    BadTotal,
    /// The threshold is not the least weight that is at least 1 and at least `phi` parts per million of the total.
    BadThreshold,
    /// The weight of the line's prefix is below its low or above its high.
    BadInterval(u64),
    /// The width of the line's interval times the capacity is above the total.
    TooWide(u64),
    /// The high of the line is below the threshold.
    LowLine(u64),
    /// The conditioned weight of the line's prefix is further below the threshold than the widths of the intervals
    /// that the line was judged by allow.
    NotJustified(u64),
    /// No line has this prefix, and its conditioned weight, given with it, reaches the threshold. It is the first such
    /// prefix in the order of a report.
    LeftOut(Prefix, u64),
}

// The verdict on a report whose positions, total and threshold are right, from what was found of its lines and of the
// prefixes that no line has.
pub(crate) fn verdict_of(
    alloc: Global,
    lines: &[Line],
    codes: &LineCodes,
    findings: &Findings,
    by: &Measures,
) -> Result<Verdict, AllocError>
    requires lines { AreReportLines lines.now }
    requires codes { AreLineCodes by.now.grain (prefixes_of_lines lines.now) codes.now.codes.keys }
    requires placed { ArePlaced (prefixes_of_lines lines.now) codes.now.codes.keys }
    requires as_many { length findings.now.sums.items ≡ length lines.now }
    requires capacity { by.now.capacity ≤ most_audited }
    requires total { by.now.total < total_limit }
    ensures { IfOk result (λ verdict. (records : List RecordValue)
        → AreFindings by.now.grain lines.now records by.now.threshold findings.now
        → total_weight records ≡ by.now.total → IsLineVerdict (measures_of by.now) records lines.now verdict) }
{
    if let Some(line) = bad_interval(lines, &findings.sums) {
        return Ok(Verdict::BadInterval(line));
    }
    if let Some(line) = too_wide(lines, by.capacity, by.total) {
        return Ok(Verdict::TooWide(line));
    }
    if let Some(line) = low_line(lines, by.threshold) {
        return Ok(Verdict::LowLine(line));
    }
    if let Some(line) = not_justified(alloc, lines, codes, &findings.sums, by)? {
        return Ok(Verdict::NotJustified(line));
    }
    Ok(match findings.left_out {
        Some(left_out) => Verdict::LeftOut(left_out.prefix, left_out.weight),
        None => Verdict::Good,
    })
}
