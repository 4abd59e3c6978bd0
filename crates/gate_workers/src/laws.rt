//! Laws of what workers and callers do, each the contract of a function that does nothing.

ghost use Rattle.std.specs.Prelude.{◌≡◌, ℕ, ◌+◌, ◌++◌, List, [], length};
ghost use Rattle.shard_state.specs.{AreCoreShards, BasesRepresent, CutRepresents, ShardValue, core_lists};
ghost use Rattle.hhh_report.specs.declared.report.Report.{Report};
ghost use Rattle.hhh_report.specs.declared.reports.Reported.{Reported};
ghost use Rattle.position_words.specs.declared.view.View.{View};
ghost use Rattle.gate_workers.specs.Calling.{Calls, IsCoreReport, cut_at};

use shard_state::shards_stand;

/// The cut of a report at its own positions represents the shards' lists, if the base of each shard represents its
/// list.
pub fn reported_cuts_represent()
    ensures { (opening : List ShardValue) (phi : ℕ) (report : Report) → AreCoreShards opening → IsCoreReport opening phi report
        → BasesRepresent opening → CutRepresents (cut_at opening report.positions) (core_lists opening) }
{
    shards_stand();
}

/// No rounds are rounds without a report, and rounds that follow rounds of the same pass are rounds: their positions never
/// fall from the first to the last.
pub fn calls_follow_calls()
    ensures none { (opening : List ShardValue) (phi : ℕ) (now : View) → Calls opening phi 0 now now [] }
    ensures more { (opening : List ShardValue) (phi rounds more : ℕ) (before middle now : View) (reports later : List Reported)
        → length before.trails ≡ length opening → Calls opening phi rounds before middle reports
        → Calls opening phi more middle now later → Calls opening phi (rounds + more) before now (reports ++ later) }
{}
