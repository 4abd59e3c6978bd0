//! Laws of reports, each the contract of a function that does nothing.

ghost use Rattle.std.specs.Prelude.{ℕ, ◌≤◌, List, All};
ghost use Rattle.prefix_lattice.specs.{RecordValue, prefix_weight};
ghost use Rattle.prefix_lattice.specs.declared.grain.Grain.{Grain};
ghost use Rattle.hhh_report.specs.declared.report.Report.{Report};
ghost use Rattle.hhh_report.specs.Positions.{AreNotPast, records_before};
ghost use Rattle.hhh_report.specs.SoundReport.{IsSound};

/// What a sound report says of other positions. At positions that aren't past its own, no line's prefix weighs more
/// than the line's high; at positions that aren't before its own, none weighs less than the line's low. So of two
/// reports of one caller, the earlier one gives a lower limit for what the later one counts, and the later one an upper
/// limit for what the earlier one counted.
pub fn lines_bound_other_positions()
    ensures earlier { (grain : Grain) (report : Report) (lists : List (List RecordValue)) (capacity phi : ℕ) (positions : List ℕ)
        → IsSound grain report lists capacity phi
        → AreNotPast positions report.positions
        → All (λ line. prefix_weight line.prefix (records_before lists positions) ≤ line.hi) report.lines }
    ensures later { (grain : Grain) (report : Report) (lists : List (List RecordValue)) (capacity phi : ℕ) (positions : List ℕ)
        → IsSound grain report lists capacity phi
        → AreNotPast report.positions positions
        → All (λ line. line.lo ≤ prefix_weight line.prefix (records_before lists positions)) report.lines }
{}
