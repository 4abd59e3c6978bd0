//! A watch over reports that come one after another.

ghost use Rattle.std.specs.Prelude.{◌≡◌, ◌+◌, ◌<◌, ◌≤◌, ◌++◌, [], List, true, false, filter, IfOk, OnOk, OnErr, MatchOption};
ghost use Rattle.watch_rules.specs.Alarms.{AreAlarms, IsAlarm};
ghost use Rattle.watch_rules.specs.Crossings.{LineByRule, beside, line_by_rules};
ghost use Rattle.watch_rules.specs.RaisedPairs.{raised_by};
ghost use Rattle.watch_rules.specs.Watch.{AreRules, is_next, next_crossings, report_limit};

use crate::raised_pairs::RaisedPairs;
use crate::{Alarm, Alarms, Judge, Judges, Rule};
use hhh_report::{Line, Report};
use std::alloc::{AllocError, Global};

/// Rules, and what they have raised so far: an alarm for each line that is surely over the limit of a rule, the first
/// time that the line's prefix is.
#[derive(Drop)]
pub struct Watch<'a> {
    alloc: Global,
    judge: &'a Judge,
    rules: Vec<Rule>,
    seen: u64,
    raised: RaisedPairs,
    ghost are_rules: { AreRules rules.items },
}

impl<'a> Watch<'a> {
    /// A watch by this judge and these rules, 1 to 64, that has seen no report. The only error is that memory runs out.
    pub fn new(alloc: Global, judge: &'a Judge, rules: Vec<Rule>) -> Result<Watch<'a>, AllocError>
        requires { AreRules rules.items }
        ensures judge { IfOk result (λ watch. watch.judge.now ≡ judge.now) }
        ensures rules { IfOk result (λ watch. watch.rules.items ≡ rules.items) }
        ensures seen { IfOk result (λ watch. watch.seen ≡ 0) }
        ensures raised { IfOk result (λ watch. watch.raised ≡ []) }
    {
        Ok(Watch {
            alloc,
            judge,
            rules,
            seen: 0,
            raised: RaisedPairs::new(alloc),
        })
    }

    /// The alarms of the next report, by line and then by rule number: one for each line that is surely over the limit
    /// of a rule, if there was none for that rule and the line's prefix. The judge and the rules stay. After an `Err`,
    /// which means that memory ran out, the watch is as before. It has seen fewer than 2^62 reports.
    pub fn see(&mut self, report: &Report) -> Result<Alarms, AllocError>
        requires { self.old.seen < report_limit }
        ensures alarms { IfOk result (λ alarms. AreAlarms (⟦<Judge as Judges>⟧.may_answer self.old.judge.now)
            (next_crossings self.old.rules.items self.old.raised (self.old.seen + 1) report.now.lines) alarms) }
        ensures raised { IfOk result (λ alarms. self.new.raised ≡ self.old.raised ++ raised_by alarms) }
        ensures seen { OnOk result (self.new.seen ≡ self.old.seen + 1) }
        ensures err { OnErr result ((self.new.seen ≡ self.old.seen) × (self.new.raised ≡ self.old.raised)) }
        ensures judge { self.new.judge.now ≡ self.old.judge.now }
        ensures rules { self.new.rules.items ≡ self.old.rules.items }
    {
        let alarms = self.alarms_of(report)?;
        self.raised.raise(alarms.as_slice())?;
        self.seen += 1;
        Ok(alarms)
    }

    // The alarms of the next report.
    fn alarms_of(&self, report: &Report) -> Result<Alarms, AllocError>
        requires { self.now.seen < report_limit }
        ensures { IfOk result (λ alarms. AreAlarms (⟦<Judge as Judges>⟧.may_answer self.now.judge.now)
            (next_crossings self.now.rules.items self.now.raised (self.now.seen + 1) report.now.lines) alarms) }
    {
        let mut alarms = Alarms::new(self.alloc);
        for line in report.lines.as_slice() {
            self.add_alarms(line, &mut alarms)?;
        }
        Ok(alarms)
    }

    // Appends the alarms of a line of the next report.
    fn add_alarms(&self, line: &Line, alarms: &mut Alarms) -> Result<(), AllocError>
        requires seen { self.now.seen < report_limit }
        requires ordered { line.now.lo ≤ line.now.hi }
        ensures { OnOk result ((before : List LineByRule)
            → AreAlarms (⟦<Judge as Judges>⟧.may_answer self.now.judge.now) before alarms.old
            → AreAlarms (⟦<Judge as Judges>⟧.may_answer self.now.judge.now) (before ++ filter (is_next self.now.raised)
            (line_by_rules self.now.rules.items (self.now.seen + 1) line.now)) alarms.new) }
    {
        for (number, rule) in self.rules.iter().enumerate() {
            if let Some(alarm) = self.alarm_of(line, number as u32, rule) {
                alarms.push(alarm)?;
            }
        }
        Ok(())
    }

    // The alarm of a line beside a rule, if it is over the limit and its pair isn't raised.
    fn alarm_of(&self, line: &Line, number: u32, rule: &Rule) -> Option<Alarm>
        requires seen { self.now.seen < report_limit }
        requires ordered { line.now.lo ≤ line.now.hi }
        ensures { let at = beside (self.now.seen + 1) line.now number rule.now in
            MatchOption result (is_next self.now.raised at ≡ false) (λ alarm.
            (is_next self.now.raised at ≡ true) × IsAlarm (⟦<Judge as Judges>⟧.may_answer self.now.judge.now) at alarm) }
    {
        if !line.prefix.under(&rule.prefix) || line.lo < rule.limit {
            return None;
        }
        if self.raised.has(number, &line.prefix) {
            return None;
        }
        Some(Alarm {
            report: self.seen + 1,
            rule: number,
            prefix: line.prefix,
            lo: line.lo,
            severity: self.judge.ask(line.lo, line.hi, rule.limit),
        })
    }
}
