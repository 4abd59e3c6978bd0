//! The audit of a report.

ghost use Rattle.std.specs.Prelude.{◌≡◌, ◌≤◌, ◌↔◌, IfOk};
ghost use Rattle.hhh_report.specs.{million, AreOfGrain, IsSound};
ghost use Rattle.exact_audit.specs.declared.verdict.Verdict.TheVariants.{Good};
ghost use Rattle.exact_audit.specs.LineTests.{least_audited, most_audited};
ghost use Rattle.exact_audit.specs.Verdict.{IsVerdict};

use crate::Verdict;
use crate::counted::{are_within, count_before, total_before};
use crate::findings::find;
use crate::line_codes::LineCodes;
use crate::line_tests::Measures;
use crate::seed::Seed;
use crate::verdict::verdict_of;
use deal_rules::Dealt;
use hhh_report::{Report, threshold};
use prefix_lattice::Grain;
use std::alloc::{AllocError, Global};

/// Audits a report over dealt records: whether it is sound for prefixes of a grain, tables of this capacity and this
/// share `phi`, in parts per million, and if not, the first of the eight tests that fails. Each line is of the grain.
///
/// The audit knows no table, merge or bound. It sums the plain records before the report's positions, node by node: one
/// pass to find how far the lines that cover each record reach, then one pass for each node of the grain. Its memory is
/// that of these records and of the keys of one node. The closest lines of all lines are found together, by a look-up
/// for each line and node. Keys are looked up by hashes whose seed is the digest of the records and the lines, so that no
/// traffic can be made for which look-ups are slow.
///
/// The capacity is 2 to 4,096 and `phi` 1 to 1,000,000. The only error is that memory runs out.
pub fn audit(
    alloc: Global,
    dealt: &Dealt,
    report: &Report,
    grain: Grain,
    capacity: u32,
    phi: u32,
) -> Result<Verdict, AllocError>
    requires lines { AreOfGrain grain report.now.lines }
    requires least { least_audited ≤ capacity }
    requires most { capacity ≤ most_audited }
    requires some { 1 ≤ phi }
    requires share { phi ≤ million }
    ensures verdict { IfOk result (IsVerdict grain dealt.now capacity phi report.now) }
    ensures good { IfOk result (λ verdict. (verdict ≡ Good) ↔ IsSound grain report.now dealt.now capacity phi) }
{
    if !are_within(dealt, &report.positions) {
        return Ok(Verdict::BadPositions);
    }
    let total = total_before(dealt, &report.positions);
    if report.total != total {
        return Ok(Verdict::BadTotal);
    }
    if report.threshold != threshold(phi, total) {
        return Ok(Verdict::BadThreshold);
    }
    let lines = report.lines.as_slice();
    let seed = Seed::of(dealt, lines);
    let codes = LineCodes::of(alloc, lines, seed)?;
    let counted = count_before(alloc, dealt, &report.positions, &codes, grain)?;
    let by = Measures {
        grain,
        capacity,
        threshold: report.threshold,
        total,
    };
    let findings = find(alloc, &counted, lines, &codes, &by, seed)?;
    verdict_of(alloc, lines, &codes, &findings, &by)
}
