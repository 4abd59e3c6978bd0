//! Alarms of reports, by watch rules.

ghost use Rattle.std.specs.Prelude.{◌≡◌, ◌/◌, ◌≤◌, IfOk, min};
ghost use Rattle.watch_rules.specs.{AreRules, IsOverLimit};

use super::worked_lines::{prefix_of, two_lines};
use hhh_report::{Line, Lines, Positions, Report, Reported, Reports};
use std::alloc::{AllocError, Global};
use std::test::Fail;
use watch_rules::{Alarm, Alarms, Judge, Rule, Watch, watch_all};

/// How often the low has the limit in it, at most 7.
pub(crate) fn times_the_limit(lo: u64, hi: u64, limit: u64) -> u32
    requires { IsOverLimit lo hi limit }
    ensures { result ≡ min (lo / limit) 7 }
{
    let _ = hi;
    (lo / limit).min(7) as u32
}

/// A rule for all prefixes under this one.
pub(crate) fn rule_of(source: &str, dest: &str, limit: u64) -> Result<Rule, Fail> {
    if limit == 0 {
        return Err("a limit of 0".into());
    }
    let prefix = prefix_of(source, dest)?;
    Ok(Rule { prefix, limit })
}

fn line_of(source: &str, dest: &str, weight: u64) -> Result<Line, Fail> {
    Ok(Line {
        prefix: prefix_of(source, dest)?,
        lo: weight,
        hi: weight,
    })
}

/// A report of 10.1.2.3/32 20.1.2.3/32 with an interval of 100 to 100.
fn report_of_100(alloc: Global) -> Result<Report, Fail> {
    let line = line_of("10.1.2.3/32", "20.1.2.3/32", 100)?;
    if line.lo > line.hi {
        return Err("low above high".into());
    }
    let mut lines = Lines::new(alloc);
    lines.push(line)?;
    Ok(Report {
        positions: Positions::new(alloc),
        total: 100,
        threshold: 1,
        lines,
    })
}

/// The alarms of that report, told as often as this, by one rule for all prefixes.
fn alarms_of_100(alloc: Global, limit: u64, times: u32) -> Result<Alarms, Fail> {
    let mut reports = Reports::new(alloc);
    for _ in 0..times {
        let report = report_of_100(alloc)?;
        reports.push(Reported {
            report,
            saved: None,
        })?;
    }
    if reports.len() > 2 {
        return Err("too many reports".into());
    }
    let rules = one_rule(alloc, rule_of("0.0.0.0/0", "0.0.0.0/0", limit)?)?;
    let judge = Judge::new(Box::new(alloc, times_the_limit)?);
    Ok(watch_all(alloc, &judge, rules, &reports)?)
}

fn one_rule(alloc: Global, rule: Rule) -> Result<Vec<Rule>, AllocError>
    ensures { IfOk result (λ rules. AreRules rules.items) }
{
    let mut rules = Vec::new(alloc);
    rules.push(rule)?;
    Ok(rules)
}

fn two_rules(alloc: Global, first: Rule, second: Rule) -> Result<Vec<Rule>, AllocError>
    ensures { IfOk result (λ rules. AreRules rules.items) }
{
    let mut rules = Vec::new(alloc);
    rules.push(first)?;
    rules.push(second)?;
    Ok(rules)
}

/// A limit, how often the report is told, and the severity of the one alarm, if there is one.
type Row = (u64, u32, Option<u32>);

const ROWS: [Row; 6] = [
    (100, 1, Some(1)),
    (101, 1, None),
    (100, 2, Some(1)),
    (100, 0, None),
    (50, 1, Some(2)),
    (1, 2, Some(7)),
];

#[test]
fn a_prefix_over_a_limit_is_told_once(rt: HostRuntime) -> Result<(), Fail> {
    assert_eq!(rt; first_wrong(rt.alloc(), &ROWS)?, None);
    Ok(())
}

/// The place of the first row whose alarms are others.
fn first_wrong(alloc: Global, rows: &[Row]) -> Result<Option<usize>, Fail> {
    for (place, (limit, times, severity)) in rows.iter().enumerate() {
        if !are_told(&alarms_of_100(alloc, *limit, *times)?, *severity)? {
            return Ok(Some(place));
        }
    }
    Ok(None)
}

/// Whether there is the one alarm of the first report with this severity, or none.
fn are_told(alarms: &Alarms, severity: Option<u32>) -> Result<bool, Fail> {
    let Some(severity) = severity else {
        return Ok(alarms.is_empty());
    };
    let prefix = prefix_of("10.1.2.3/32", "20.1.2.3/32")?;
    let told = Alarm {
        report: 1,
        rule: 0,
        prefix,
        lo: 100,
        severity,
    };
    Ok(alarms.len() == 1 && *alarms.at(0) == told)
}

/// A report of one host, with this weight, and of its network, with 150.
fn report_of_two(alloc: Global, weight: u64) -> Result<Report, Fail> {
    let host = line_of("10.1.2.3/32", "20.1.2.3/32", weight)?;
    let network = line_of("10.0.0.0/8", "0.0.0.0/0", 150)?;
    Ok(Report {
        positions: Positions::new(alloc),
        total: 300,
        threshold: 100,
        lines: two_lines(alloc, host, network)?,
    })
}

#[test]
fn alarms_come_by_line_and_then_by_rule(rt: HostRuntime) -> Result<(), Fail> {
    assert!(rt; are_in_order(rt.alloc())?);
    Ok(())
}

/// Whether a host of 100 and its network of 150 are told by the rules that they are over, and the host again for
/// another rule once it has 130.
fn are_in_order(alloc: Global) -> Result<bool, Fail> {
    let judge = Judge::new(Box::new(alloc, times_the_limit)?);
    let all = rule_of("0.0.0.0/0", "0.0.0.0/0", 100)?;
    let network = rule_of("10.0.0.0/8", "0.0.0.0/0", 120)?;
    let mut watch = Watch::new(alloc, &judge, two_rules(alloc, all, network)?)?;
    let first = watch.see(&report_of_two(alloc, 100)?)?;
    let second = watch.see(&report_of_two(alloc, 130)?)?;
    Ok(
        has_places(&first, [(1, 0, 100), (1, 0, 150), (1, 1, 150)].as_slice())
            && has_places(&second, [(2, 1, 130)].as_slice()),
    )
}

/// Whether alarms have these reports, rules and lows.
fn has_places(alarms: &Alarms, places: &[(u64, u32, u64)]) -> bool {
    alarms.len() == places.len()
        && alarms.as_slice().iter().zip(places).all(|(alarm, place)| (
            alarm.report,
            alarm.rule,
            alarm.lo,
        ) == *place)
}
