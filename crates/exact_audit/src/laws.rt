//! Laws of audits, each the contract of a function that does nothing.

ghost use Rattle.std.specs.Prelude.{◌≡◌, ℕ, List};
ghost use Rattle.prefix_lattice.specs.{RecordValue};
ghost use Rattle.prefix_lattice.specs.declared.grain.Grain.{Grain};
ghost use Rattle.hhh_report.specs.declared.report.Report.{Report};
ghost use Rattle.exact_audit.specs.declared.verdict.Verdict.{Verdict};
ghost use Rattle.exact_audit.specs.Verdict.{IsVerdict};

use prefix_lattice::report_order_is_total;

/// A report has one verdict over lists of records, for a grain, a capacity and a share: two that meet the definition are
/// equal.
pub fn a_report_has_one_verdict()
    ensures { (grain : Grain) (lists : List (List RecordValue)) (capacity phi : ℕ) (report : Report)
        (verdict other : Verdict) → IsVerdict grain lists capacity phi report verdict
        → IsVerdict grain lists capacity phi report other → verdict ≡ other }
{
    report_order_is_total();
}
