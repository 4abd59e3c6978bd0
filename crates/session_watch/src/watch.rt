//! The text of a watch over a session.

ghost use Rattle.std.specs.Prelude.{◌≡◌, ◌<◌, ◌++◌, [], ◌∷◌, length, IfOk, OnOk};
ghost use Rattle.watch_rules.specs.{report_limit};
ghost use Rattle.session_watch.specs.Watch.{IsWatchText, alarm_line, watch_text};

use report_text::Session;
use run_status::{push_number, push_prefix};
use std::alloc::{AllocError, Global};
use watch_rules::{Alarm, Alarms, Judge, Judges, Rule, watch_all};

/// The text of the alarms that the reports of a session give by this rule alone, with severities by the judge: a line for
/// each, their number, and the end. A session has fewer than 2^62 reports, as one that was read from a text has. The only
/// error is that memory runs out.
pub fn watch_session(
    alloc: Global,
    judge: &Judge,
    rule: Rule,
    session: &Session,
) -> Result<Vec<u8>, AllocError>
    requires { length session.now.reports < report_limit }
    ensures { IfOk result (λ text. IsWatchText (⟦<Judge as Judges>⟧.may_answer judge.now) rule session.now.reports text.items) }
{
    let alarms = watch_all(alloc, judge, rule_alone(alloc, rule)?, &session.reports)?;
    text_of(alloc, &alarms)
}

fn rule_alone(alloc: Global, rule: Rule) -> Result<Vec<Rule>, AllocError>
    ensures { IfOk result (λ rules. rules.items ≡ rule ∷ []) }
{
    let mut rules = Vec::new(alloc);
    rules.push(rule)?;
    Ok(rules)
}

fn text_of(alloc: Global, alarms: &Alarms) -> Result<Vec<u8>, AllocError>
    ensures { IfOk result (λ text. text.items ≡ watch_text alarms.now) }
{
    let mut text = Vec::new(alloc);
    for alarm in alarms.as_slice() {
        push_alarm(&mut text, alarm)?;
    }
    push_number(&mut text, b"alarms ", alarms.len() as u64)?;
    text.extend_from_slice(b"\nend\n")?;
    Ok(text)
}

fn push_alarm(text: &mut Vec<u8>, alarm: &Alarm) -> Result<(), AllocError>
    ensures { OnOk result (text.new.items ≡ text.old.items ++ alarm_line alarm.now) }
{
    push_number(text, b"alarm ", alarm.report)?;
    text.extend_from_slice(b" ")?;
    push_prefix(text, &alarm.prefix)?;
    push_number(text, b" ", alarm.lo)?;
    push_number(text, b" ", u64::from(alarm.severity))?;
    text.extend_from_slice(b"\n")
}
