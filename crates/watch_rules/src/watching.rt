//! A watch over a whole list of reports.

ghost use Rattle.std.specs.Prelude.{◌<◌, length, IfOk};
ghost use Rattle.watch_rules.specs.Alarms.{AreAlarmsOf};
ghost use Rattle.watch_rules.specs.Watch.{AreRules, report_limit};

use crate::{Alarms, Judge, Judges, Rule, Watch};
use hhh_report::Reports;
use prefix_lattice::prefixes_are_ordered;
use std::alloc::{AllocError, Global};

/// The alarms of these reports, fewer than 2^62, by this judge and these rules, 1 to 64. The only error is that memory
/// runs out.
pub fn watch_all(
    alloc: Global,
    judge: &Judge,
    rules: Vec<Rule>,
    reports: &Reports,
) -> Result<Alarms, AllocError>
    requires rules { AreRules rules.items }
    requires reports { length reports.now < report_limit }
    ensures { IfOk result (AreAlarmsOf (⟦<Judge as Judges>⟧.may_answer judge.now) rules.items reports.now) }
{
    prefixes_are_ordered();
    let mut watch = Watch::new(alloc, judge, rules)?;
    let mut alarms = Alarms::new(alloc);
    for reported in reports.as_slice() {
        alarms.append(&watch.see(&reported.report)?)?;
    }
    Ok(alarms)
}
