//! Laws of watches, each the contract of a function that does nothing.

ghost use Rattle.std.specs.Prelude.{◌≡◌, ◌≤◌, ℕ, List, [], ◌∷◌, All, count_by};
ghost use Rattle.prefix_lattice.specs.{PrefixValue, RecordValue, same_as};
ghost use Rattle.prefix_lattice.specs.declared.grain.Grain.{Grain};
ghost use Rattle.hhh_report.specs.{IsSound};
ghost use Rattle.hhh_report.specs.declared.reports.Reported.{Reported};
ghost use Rattle.watch_rules.specs.{GoesByFormula, IsCertain, judged_by};
ghost use Rattle.watch_rules.specs.declared.rule.Rule.{Rule};
ghost use Rattle.session_watch.specs.Watch.{IsHeavyAlarm, IsWatchOf, IsWatchText};

use report_text::{same_sessions_have_equal_reports, session_texts_have_one_reading};
use watch_rules::{
    Judge, Judges, alarms_are_certain, formulas_give_one_list, pairs_are_alarmed_once,
};

/// A watch over the text of a session by a judge that goes by a formula is one by this formula, and that is one text,
/// however the session's text is read.
pub fn watches_have_one_text(judge: &Judge)
    ensures by_formula { (formula : ℕ → ℕ → ℕ → ℕ) (rule : Rule) (grain : Grain) (text answer : List ℕ)
        → GoesByFormula formula (⟦<Judge as Judges>⟧.may_answer judge.now)
        → IsWatchOf (⟦<Judge as Judges>⟧.may_answer judge.now) rule grain text answer
        → IsWatchOf (judged_by formula) rule grain text answer }
    ensures one_text { (formula : ℕ → ℕ → ℕ → ℕ) (rule : Rule) (grain : Grain) (text answer other : List ℕ)
        → IsWatchOf (judged_by formula) rule grain text answer → IsWatchOf (judged_by formula) rule grain text other
        → other ≡ answer }
{
    formulas_give_one_list(judge);
    session_texts_have_one_reading();
    same_sessions_have_equal_reports();
}

/// Each alarm of a watch is certain: where its report is sound over lists of records, those before the report's positions
/// give its prefix at least the limit. So where an audit finds all reports sound, all alarms are of heavy prefixes.
pub fn watched_alarms_are_certain(judge: &Judge)
    ensures certain { (rule : Rule) (reports : List Reported) (text : List ℕ)
        (watch : IsWatchText (⟦<Judge as Judges>⟧.may_answer judge.now) rule reports text)
        → All (IsCertain (rule ∷ []) reports) watch.alarms }
    ensures heavy { (rule : Rule) (reports : List Reported) (text : List ℕ)
        (watch : IsWatchText (⟦<Judge as Judges>⟧.may_answer judge.now) rule reports text)
        (grain : Grain) (lists : List (List RecordValue)) (capacity phi : ℕ)
        → All (λ reported. IsSound grain reported.report lists capacity phi) reports
        → All (IsHeavyAlarm rule.limit lists reports) watch.alarms }
{
    alarms_are_certain(judge);
}

/// A watch has at most one alarm for a prefix.
pub fn watched_prefixes_are_told_once(judge: &Judge)
    ensures { (rule : Rule) (reports : List Reported) (text : List ℕ)
        (watch : IsWatchText (⟦<Judge as Judges>⟧.may_answer judge.now) rule reports text)
        (prefix : PrefixValue) → count_by (λ alarm. same_as alarm.prefix prefix) watch.alarms ≤ 1 }
{
    alarms_are_certain(judge);
    pairs_are_alarmed_once(judge);
}
