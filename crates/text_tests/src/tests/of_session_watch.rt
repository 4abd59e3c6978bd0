//! The text of a watch over the text of a session.

use super::of_report_text::text_of;
use super::of_watch_rules::{rule_of, times_the_limit};
use prefix_lattice::Grain;
use report_text::read_session;
use session_watch::watch_session;
use std::alloc::Global;
use std::test::Fail;
use watch_rules::Judge;

const ONE_REPORT: &str =
    "opened 0|report|at 1|total 100|threshold 1|line 10.1.2.3/32 20.1.2.3/32 100 100|done|frames 1|skipped 0 0 0|end|";

const THE_SAME_TWICE: &str =
    "opened 0|report|at 1|total 100|threshold 1|line 10.1.2.3/32 20.1.2.3/32 100 100|done|report|at 1|total 100|threshold 1|line 10.1.2.3/32 20.1.2.3/32 100 100|done|frames 1|skipped 0 0 0|end|";

const HOST_AND_ROOT: &str =
    "opened 0 0|report|at 6 5|total 11|threshold 6|line 1.0.0.1/32 101.0.0.1/32 5 6|line 0.0.0.0/0 0.0.0.0/0 11 11|done|frames 11|skipped 0 0 0|end|";

const TOLD_ONCE: &str = "alarm 1 10.1.2.3/32 20.1.2.3/32 100 1|alarms 1|end|";

/// The lines of a session, the sources and the limit of a rule, and the lines of the watch.
type Row = (&'static str, &'static str, u64, &'static str);

const ROWS: [Row; 6] = [
    (ONE_REPORT, "0.0.0.0/0", 100, TOLD_ONCE),
    (ONE_REPORT, "0.0.0.0/0", 101, "alarms 0|end|"),
    (THE_SAME_TWICE, "0.0.0.0/0", 100, TOLD_ONCE),
    (
        HOST_AND_ROOT,
        "1.0.0.0/8",
        5,
        "alarm 1 1.0.0.1/32 101.0.0.1/32 5 1|alarms 1|end|",
    ),
    (
        HOST_AND_ROOT,
        "0.0.0.0/0",
        5,
        "alarm 1 1.0.0.1/32 101.0.0.1/32 5 1|alarm 1 0.0.0.0/0 0.0.0.0/0 11 2|alarms 2|end|",
    ),
    (
        HOST_AND_ROOT,
        "0.0.0.0/0",
        1,
        "alarm 1 1.0.0.1/32 101.0.0.1/32 5 5|alarm 1 0.0.0.0/0 0.0.0.0/0 11 7|alarms 2|end|",
    ),
];

#[test]
fn a_watch_writes_its_alarms(rt: HostRuntime) -> Result<(), Fail> {
    assert_eq!(rt; first_wrong(rt.alloc(), &ROWS)?, None);
    Ok(())
}

/// The place of the first row of which the watch has other lines.
fn first_wrong(alloc: Global, rows: &[Row]) -> Result<Option<usize>, Fail> {
    for (place, (session, source, limit, lines)) in rows.iter().enumerate() {
        let watched = watched_text(alloc, session, source, *limit)?;
        if watched.as_slice() != text_of(alloc, lines)?.as_slice() {
            return Ok(Some(place));
        }
    }
    Ok(None)
}

/// The text of a watch over the text of a session, by a rule for these sources.
fn watched_text(alloc: Global, lines: &str, source: &str, limit: u64) -> Result<Vec<u8>, Fail> {
    let text = text_of(alloc, lines)?;
    let session = read_session(alloc, Grain::Byte, text.as_slice())?;
    if session.reports.len() > 2 {
        return Err("too many reports".into());
    }
    let judge = Judge::new(Box::new(alloc, times_the_limit)?);
    let rule = rule_of(source, "0.0.0.0/0", limit)?;
    Ok(watch_session(alloc, &judge, rule, &session)?)
}
