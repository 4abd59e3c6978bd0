//! Laws of reports, each the contract of a function that does nothing.

ghost use Rattle.std.specs.Prelude.{◌≡◌, ℕ, ◌≤◌, List, All, Some, length, slice_get};
ghost use Rattle.prefix_lattice.specs.{RecordValue};
ghost use Rattle.shard_state.specs.{CutValue, IsCut, cut_positions, CutRepresents, CoreValue, HasCoreShape};
ghost use Rattle.hhh_report.specs.{records_before, AreNotPast, AreOfGrain, AreReportLines, IsSameReport, IsSound};
ghost use Rattle.shard_state.specs.{IsCore, core_shape, core_after_run, BasesRepresent};
ghost use Rattle.shard_state.specs.{ReadsEachShard, core_lists};
ghost use Rattle.shard_state.specs.declared.event.Event.{Event};
ghost use Rattle.hhh_report.specs.declared.report.Report.{Report};
ghost use Rattle.hhh_output.specs.Reporting.{IsReportOf, IsWideShare};

use conditioned_bounds::{bounds_hold, only_prefixes_are_asked};
use cut_merge::{
    merged_intervals_are_narrow, merged_intervals_hold_weights, monitored_keys_are_few,
};
use prefix_lattice::{
    keys_are_of_their_node, keys_tell_covering, prefixes_are_ordered,
    prefixes_cover_their_own_addresses, report_order_is_total,
};
use shard_state::{runs_stand, snapshots_hold_weights, standing_cuts_are_equal};

/// A cut has one report: two reports that meet the definition show the same.
pub fn a_cut_has_one_report()
    ensures { (cut : CutValue) (phi : ℕ) (report other : Report) → AreReportLines report.lines → AreReportLines other.lines
        → IsReportOf cut phi report → IsReportOf cut phi other → IsSameReport report other }
{
    prefixes_are_ordered();
    report_order_is_total();
}

/// Each cut has a report: its lines exist, whether or not there is memory to make it.
pub fn each_cut_has_a_report()
    ensures { (cut : CutValue) (phi : ℕ) → IsCut cut → (report : Report) × IsReportOf cut phi report }
{
    prefixes_are_ordered();
    report_order_is_total();
    keys_are_of_their_node();
    keys_tell_covering();
    prefixes_cover_their_own_addresses();
    monitored_keys_are_few();
    merged_intervals_are_narrow();
}

/// Two cuts of one shape, at the same positions, that represent the same lists have one report: the report at
/// these positions is the same, however the records were folded.
pub fn standing_cuts_have_one_report()
    ensures { (cut other_cut : CutValue) (lists : List (List RecordValue)) (phi : ℕ) (report other : Report)
        → cut.shape ≡ other_cut.shape
        → cut_positions cut ≡ cut_positions other_cut → CutRepresents cut lists → CutRepresents other_cut lists
        → AreReportLines report.lines → AreReportLines other.lines
        → IsReportOf cut phi report → IsReportOf other_cut phi other → IsSameReport report other }
{
    standing_cuts_are_equal();
    a_cut_has_one_report();
}

/// The lines of the report of a cut are of the cut's grain.
pub fn reports_are_of_their_grain()
    ensures { (cut : CutValue) (phi : ℕ) (report : Report) → IsReportOf cut phi report
        → AreOfGrain cut.shape.grain report.lines }
{}

/// The report of a cut that represents lists of records is sound over them.
pub fn reports_are_sound()
    ensures { (cut : CutValue) (lists : List (List RecordValue)) (phi : ℕ) (report : Report) → IsCut cut → CutRepresents cut lists
        → All (λ list. All (λ rec. 1 ≤ rec.weight) list) lists → IsWideShare phi cut.shape.capacity
        → AreReportLines report.lines
        → IsReportOf cut phi report → IsSound cut.shape.grain report lists cut.shape.capacity phi }
{
    report_order_is_total();
    snapshots_hold_weights();
    merged_intervals_hold_weights();
    merged_intervals_are_narrow();
    only_prefixes_are_asked();
    bounds_hold();
}

/// After any events on the core, the report of each cut in which a caller read every shard is sound over the
/// shards' lists, if the base of each shard represents its list.
pub fn reports_of_the_core_are_sound()
    ensures { (core : CoreValue) (events : List Event) (caller : ℕ) (cut : CutValue) (phi : ℕ) (report : Report) → IsCore core.shards
        → All (HasCoreShape (length core.shards) (core_shape core.shards)) core.cuts → BasesRepresent core.shards
        → All (λ list. All (λ rec. 1 ≤ rec.weight) list) (core_lists core.shards)
        → slice_get (core_after_run core events).cuts caller ≡ Some cut → ReadsEachShard caller core events → IsCut cut
        → IsWideShare phi cut.shape.capacity → AreReportLines report.lines → IsReportOf cut phi report
        → IsSound cut.shape.grain report (core_lists core.shards) cut.shape.capacity phi }
{
    runs_stand();
    reports_are_sound();
}
