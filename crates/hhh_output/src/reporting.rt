//! The report of a cut.

ghost use Rattle.std.specs.Prelude.{◌≡◌, ◌≤◌, ◌<◌, List, All, IfOk};
ghost use Rattle.prefix_lattice.specs.{RecordValue, total_limit};
ghost use Rattle.shard_state.specs.{total_of_cut, CutRepresents};
ghost use Rattle.hhh_report.specs.{AreOfGrain, IsSound, million};
ghost use Rattle.hhh_output.specs.Reporting.{IsReportOf, IsWideShare};

use crate::reports_are_sound;
use crate::selecting::select_lines;
use conditioned_bounds::only_prefixes_are_asked;
use cut_merge::{Merged, merged_intervals_are_narrow, monitored_keys_are_few};
use hhh_report::{Report, threshold};
use shard_state::Cut;
use std::alloc::{AllocError, Global};

/// The report of a cut (Mitzenmacher, Steinke, Thaler 2012): the prefixes that some shard monitors, that can weigh at
/// least `phi` parts per million of the total, and that still can once the lines of more specific prefixes are
/// accounted for. All are of the grain of the cut. Each candidate is judged once, level by level from the most specific
/// prefixes up.
///
/// If the cut represents lists of records, the report is sound over them: each interval holds the exact weight
/// of its prefix and is no wider than the total divided by the capacity, and each prefix without a line has a
/// conditioned weight below the threshold.
///
/// `phi` is 1 to 1,000,000, `phi` times the capacity of the tables is at least 2,000,000, and the total that the
/// tables counted is below 2^60. The only error is that memory runs out.
pub fn report_of(alloc: Global, cut: &Cut, phi: u32) -> Result<Report, AllocError>
    requires some { 1 ≤ phi }
    requires most { phi ≤ million }
    requires wide { IsWideShare phi cut.now.shape.capacity }
    requires bounded { total_of_cut cut.now < total_limit }
    ensures report { IfOk result (IsReportOf cut.now phi) }
    ensures of_grain { IfOk result (λ report. AreOfGrain cut.now.shape.grain report.lines) }
    ensures sound { IfOk result (λ report. (lists : List (List RecordValue)) → CutRepresents cut.now lists
        → All (λ list. All (λ rec. 1 ≤ rec.weight) list) lists
        → IsSound cut.now.shape.grain report lists cut.now.shape.capacity phi) }
{
    reports_are_sound();
    monitored_keys_are_few();
    merged_intervals_are_narrow();
    only_prefixes_are_asked();
    let positions = cut.positions(alloc)?;
    let merged = Merged::of(alloc, cut)?;
    let total = merged.total();
    let threshold = threshold(phi, total);
    let lines = select_lines(alloc, &merged, threshold)?;
    Ok(Report {
        positions,
        total,
        threshold,
        lines,
    })
}
