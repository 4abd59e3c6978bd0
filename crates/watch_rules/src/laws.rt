//! Laws of alarms, each the contract of a function that does nothing.

ghost use Rattle.std.specs.Prelude.{ℕ, ◌≡◌, ◌≤◌, ◌==◌, ◌&&◌, List, All, count_by};
ghost use Rattle.prefix_lattice.specs.{PrefixValue, same_as};
ghost use Rattle.hhh_report.specs.declared.reports.Reported.{Reported};
ghost use Rattle.watch_rules.specs.declared.rule.Rule.{Rule};
ghost use Rattle.watch_rules.specs.declared.alarm.Alarm.{Alarm};
ghost use Rattle.watch_rules.specs.Alarms.{AreAlarmsOf, HasSmallHighs, IsCertain};
ghost use Rattle.watch_rules.specs.Judge.{GoesByFormula, judged_by};

use crate::{Judge, Judges};
use prefix_lattice::{prefixes_are_ordered, report_order_is_total};

/// There is at most one alarm for a rule and a prefix.
pub fn pairs_are_alarmed_once(judge: &Judge)
    ensures { (rules : List Rule) (reports : List Reported) (alarms : List Alarm)
        → AreAlarmsOf (⟦<Judge as Judges>⟧.may_answer judge.now) rules reports alarms
        → (rule : ℕ) (prefix : PrefixValue) → count_by (λ alarm. alarm.rule == rule && same_as alarm.prefix prefix) alarms ≤ 1 }
{
    prefixes_are_ordered();
    report_order_is_total();
}

/// Where the report of an alarm is sound over lists of records, the records before its positions give the alarm's prefix
/// at least the weight that is the limit of its rule.
pub fn alarms_are_certain(judge: &Judge)
    ensures { (rules : List Rule) (reports : List Reported) (alarms : List Alarm)
        → AreAlarmsOf (⟦<Judge as Judges>⟧.may_answer judge.now) rules reports alarms
        → All (IsCertain rules reports) alarms }
{}

/// Alarms by a judge that goes by a formula are those that the formula gives, and these are one list.
pub fn formulas_give_one_list(judge: &Judge)
    ensures by_formula { (formula : ℕ → ℕ → ℕ → ℕ) (rules : List Rule) (reports : List Reported) (alarms : List Alarm)
        → GoesByFormula formula (⟦<Judge as Judges>⟧.may_answer judge.now) → All HasSmallHighs reports
        → AreAlarmsOf (⟦<Judge as Judges>⟧.may_answer judge.now) rules reports alarms
        → AreAlarmsOf (judged_by formula) rules reports alarms }
    ensures one_list { (formula : ℕ → ℕ → ℕ → ℕ) (rules : List Rule) (reports : List Reported) (alarms others : List Alarm)
        → AreAlarmsOf (judged_by formula) rules reports alarms → AreAlarmsOf (judged_by formula) rules reports others
        → others ≡ alarms }
{}
