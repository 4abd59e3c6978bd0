//! The text of a report and of the lines around it, and the reader of a session.

ghost use Rattle.std.specs.Prelude.{◌≤◌, IfOk};
ghost use Rattle.report_text.specs.{ShowsPositions};

use super::worked_lines::{prefix_of, prefix_of_grain, two_lines};
use frame_records::Records;
use hhh_report::{Line, Positions, Report, Reported};
use prefix_lattice::{Grain, RecordList};
use report_text::{
    Mark, Session, SessionFault, TextFault, print, print_positions, print_tail, read_session,
};
use std::alloc::{AllocError, Global};
use std::test::Fail;

fn line_of(source: &str, dest: &str, lo: u64, hi: u64) -> Result<Line, Fail> {
    let prefix = prefix_of(source, dest)?;
    Ok(Line { prefix, lo, hi })
}

// The positions of two shards.
#[tactic(auto, using(crate::proofs::LinePairLemmas::pair_of_positions_is_shown))]
fn positions_of(alloc: Global, first: u64, second: u64) -> Result<Positions, AllocError>
    requires first { first ≤ 16777216 }
    requires second { second ≤ 16777216 }
    ensures { IfOk result ShowsPositions }
{
    let mut positions = Positions::new(alloc);
    positions.push(first)?;
    positions.push(second)?;
    Ok(positions)
}

// A report of two lines in their order.
fn report_of(alloc: Global, positions: Positions, first: Line, second: Line) -> Result<Report, Fail>
    requires { ShowsPositions positions }
    ensures positions { IfOk result (λ report. ShowsPositions report.positions) }
    ensures threshold { IfOk result (λ report. 1 ≤ report.threshold) }
{
    let lines = two_lines(alloc, first, second)?;
    Ok(Report {
        positions,
        total: 260,
        threshold: 60,
        lines,
    })
}

const PRINTED: &[u8] =
    b"before report\nat 3 16777216\ntotal 260\nthreshold 60\nline 10.1.2.3/32 20.1.2.3/32 100 100\nline 10.0.0.0/8 0.0.0.0/0 0 18446744073709551615\ndone\n";

#[test]
fn prints_a_report(rt: HostRuntime) -> Result<(), Fail> {
    let report = report_of_two_lines(rt.alloc())?;
    assert!(rt; is_printed(rt.alloc(), &report)?);
    Ok(())
}

fn report_of_two_lines(alloc: Global) -> Result<Report, Fail>
    ensures positions { IfOk result (λ report. ShowsPositions report.positions) }
    ensures threshold { IfOk result (λ report. 1 ≤ report.threshold) }
{
    let exact = line_of("10.1.2.3/32", "20.1.2.3/32", 100, 100)?;
    let wide = line_of("10.0.0.0/8", "0.0.0.0/0", 0, 18_446_744_073_709_551_615)?;
    report_of(alloc, positions_of(alloc, 3, 16_777_216)?, exact, wide)
}

// Whether a report is printed as `PRINTED`, after what the text has already.
fn is_printed(alloc: Global, report: &Report) -> Result<bool, AllocError>
    requires positions { ShowsPositions report.now.positions }
    requires threshold { 1 ≤ report.now.threshold }
{
    let mut text = Vec::from_slice(alloc, b"before ")?;
    print(report, &mut text)?;
    Ok(text.as_slice() == PRINTED)
}

#[test]
fn prints_positions(rt: HostRuntime) -> Result<(), Fail> {
    assert!(rt; are_printed(rt.alloc())?);
    Ok(())
}

// Whether positions are printed by each mark, one behind the other.
fn are_printed(alloc: Global) -> Result<bool, AllocError> {
    let opened = positions_of(alloc, 0, 7)?;
    let saved = positions_of(alloc, 12, 0)?;
    let mut text = Vec::new(alloc);
    print_positions(Mark::Opened, &opened, &mut text)?;
    print_positions(Mark::Saved, &saved, &mut text)?;
    Ok(text.as_slice() == b"opened 0 7\nsaved 12 0\n".as_slice())
}

#[test]
fn prints_the_last_lines(rt: HostRuntime) -> Result<(), Fail> {
    assert_eq!(rt; first_other_tail(rt.alloc(), &TAILS)?, None);
    Ok(())
}

// The place of a frame that was cut, if one was, and the last lines.
type Tail = (Option<u64>, &'static str);

const TAILS: [Tail; 2] = [
    (None, "frames 7|skipped 2 1 0|end|"),
    (
        Some(18_446_744_073_709_551_615),
        "frames 7|skipped 2 1 0|cut 18446744073709551615|end|",
    ),
];

// The place of the first case whose last lines are printed otherwise.
fn first_other_tail(alloc: Global, tails: &[Tail]) -> Result<Option<usize>, AllocError> {
    for (place, (cut, lines)) in tails.iter().enumerate() {
        if !is_the_tail(alloc, *cut, lines)? {
            return Ok(Some(place));
        }
    }
    Ok(None)
}

// Whether the last lines are printed with these numbers of frames, and this place of a frame that was cut.
fn is_the_tail(alloc: Global, cut: Option<u64>, lines: &str) -> Result<bool, AllocError> {
    let records = Records {
        list: RecordList::new(alloc),
        frames: 7,
        not_ipv4: 2,
        short: 1,
        bad_header: 0,
        cut,
    };
    let mut text = Vec::new(alloc);
    print_tail(&records, &mut text)?;
    Ok(text.as_slice() == text_of(alloc, lines)?.as_slice())
}

/// The text of lines, each of which ends by `|` here and by a line feed there.
pub(crate) fn text_of(alloc: Global, lines: &str) -> Result<Vec<u8>, AllocError> {
    let mut text = Vec::new(alloc);
    for byte in lines.bytes() {
        text.push(if byte == b'|' { b'\n' } else { byte })?;
    }
    Ok(text)
}

const SESSION: &str =
    "opened 0|report|at 1|total 100|threshold 1|line 10.1.2.3/32 20.1.2.3/32 100 100|done|frames 1|skipped 0 0 0|end|";

fn session_of(alloc: Global, grain: Grain, lines: &str) -> Result<Session, Fail> {
    let text = text_of(alloc, lines)?;
    Ok(read_session(alloc, grain, text.as_slice())?)
}

// The numbers of frames in a session's last lines.
fn counts_of(session: &Session) -> (u64, u64, u64, u64) {
    (
        session.frames,
        session.not_ipv4,
        session.short,
        session.bad_header,
    )
}

#[test]
fn reads_a_session(rt: HostRuntime) -> Result<(), Fail> {
    let line = line_of("10.1.2.3/32", "20.1.2.3/32", 100, 100)?;
    let session = session_of(rt.alloc(), Grain::Byte, SESSION)?;
    assert!(rt; is_the_session(&session, line));
    Ok(())
}

// Whether a session is that of `SESSION`.
fn is_the_session(session: &Session, line: Line) -> bool {
    session.opened.as_slice() == [0].as_slice()
        && session.reports.len() == 1
        && is_the_report(session.reports.at(0), line)
        && counts_of(session) == (1, 0, 0, 0)
        && session.cut.is_none()
}

// Whether a report is the one of `SESSION`.
fn is_the_report(reported: &Reported, line: Line) -> bool {
    let report = &reported.report;
    reported.saved.is_none()
        && report.positions.as_slice() == [1].as_slice()
        && report.total == 100
        && report.threshold == 1
        && report.lines.as_slice() == [line].as_slice()
}

const HALF_BYTES: &str =
    "opened 0|report|at 1|total 100|threshold 1|line 10.16.0.0/12 20.1.2.3/32 100 100|done|frames 1|skipped 0 0 0|end|";

#[test]
fn reads_lengths_of_the_grain(rt: HostRuntime) -> Result<(), Fail> {
    let prefix = prefix_of_grain(Grain::Nibble, "10.16.0.0/12", "20.1.2.3/32")?;
    let session = session_of(rt.alloc(), Grain::Nibble, HALF_BYTES)?;
    assert!(rt;
        is_the_session(
            &session,
            Line {
                prefix,
                lo: 100,
                hi: 100
            }
        )
    );
    assert!(rt; has_fault(rt.alloc(), HALF_BYTES, TextFault::BadLine(6))?);
    Ok(())
}

const SAVED_SESSION: &str =
    "opened 0 7|report|at 3 7|total 2|threshold 1|done|report|at 4 7|total 3|threshold 1|done|saved 4 7|frames 9|skipped 3 2 1|end|";

#[test]
fn reads_saved_positions(rt: HostRuntime) -> Result<(), Fail> {
    let session = session_of(rt.alloc(), Grain::Byte, SAVED_SESSION)?;
    assert!(rt; is_the_saved_session(&session));
    Ok(())
}

// Whether a session is that of `SAVED_SESSION`, whose second report alone has its positions saved.
fn is_the_saved_session(session: &Session) -> bool {
    session.reports.len() == 2
        && session.reports.at(0).saved.is_none()
        && are_saved(session.reports.at(1), &[4, 7])
        && counts_of(session) == (9, 3, 2, 1)
}

fn are_saved(reported: &Reported, positions: &[u64]) -> bool {
    match &reported.saved {
        Some(saved) => saved.as_slice() == positions,
        None => false,
    }
}

const CUT_SESSION: &str =
    "opened 0|report|at 0|total 0|threshold 1|done|frames 0|skipped 0 0 0|cut 24|end|";

#[test]
fn reads_where_a_capture_was_cut(rt: HostRuntime) -> Result<(), Fail> {
    let session = session_of(rt.alloc(), Grain::Byte, CUT_SESSION)?;
    assert_eq!(rt; session.cut, Some(24));
    Ok(())
}

// The fault of a text, if it has one.
fn fault_of(alloc: Global, lines: &str) -> Result<Option<SessionFault>, AllocError> {
    let text = text_of(alloc, lines)?;
    match read_session(alloc, Grain::Byte, text.as_slice()) {
        Ok(_) => Ok(None),
        Err(fault) => Ok(Some(fault)),
    }
}

// A text, and the number of its first wrong line.
type WrongText = (&'static str, u64);

const WRONG_TEXTS: [WrongText; 12] = [
    (
        "opened 0|report|at 0|total 00|threshold 1|done|frames 0|skipped 0 0 0|end|",
        4,
    ),
    (
        "opened 0|report|at 0|total 0|threshold 1|done|frames 0|skipped 0 0 0|end|x",
        10,
    ),
    (
        "opened 0 0|report|at 1|total 100|threshold 1|line 10.1.2.3/32 20.1.2.3/32 100 100|done|frames 1|skipped 0 0 0|end|",
        3,
    ),
    (
        "opened 0|report|at 1|total 100|threshold 0|line 10.1.2.3/32 20.1.2.3/32 100 100|done|frames 1|skipped 0 0 0|end|",
        5,
    ),
    (
        "opened 0|report|at 1|total 100|threshold 1|line 10.1.2.3/32 20.1.2.3/32 101 100|done|frames 1|skipped 0 0 0|end|",
        6,
    ),
    (
        "opened 0|report|at 1|total 100|threshold 1|line 10.1.2.3/32 20.1.2.3/32 100 100|line 10.1.2.3/32 20.1.2.3/32 100 100|done|frames 1|skipped 0 0 0|end|",
        7,
    ),
    (
        "opened 0|report|at 16777217|total 100|threshold 1|line 10.1.2.3/32 20.1.2.3/32 100 100|done|frames 1|skipped 0 0 0|end|",
        3,
    ),
    (
        "opened 0|report|at 0|total 0|threshold 1|done|frames 0|skipped 0 0 0|cut 24|cut 24|end|",
        10,
    ),
    (
        "opened 0|report|at 0|total 0|threshold 1|done|frames 0|cut 24|skipped 0 0 0|end|",
        8,
    ),
    (
        "opened 0|report|at 0|total 0|threshold 1|done|frames 0|skipped 0 0 0|cut 01|end|",
        9,
    ),
    (
        "opened 0|report|at 0|total 0|threshold 1|done|frames 0|skipped 0 0 0|cut 18446744073709551616|end|",
        9,
    ),
    (
        "opened 0|report|at 0|total 0|threshold 1|done|frames 0|skipped 0 0 0|end|cut 24|",
        10,
    ),
];

#[test]
fn refuses_texts_at_their_line(rt: HostRuntime) -> Result<(), Fail> {
    assert_eq!(rt; first_read(rt.alloc(), &WRONG_TEXTS)?, None);
    Ok(())
}

// The place of the first text that is not refused at its line.
fn first_read(alloc: Global, texts: &[WrongText]) -> Result<Option<usize>, AllocError> {
    for (place, (text, line)) in texts.iter().enumerate() {
        if !has_fault(alloc, text, TextFault::BadLine(*line))? {
            return Ok(Some(place));
        }
    }
    Ok(None)
}

fn has_fault(alloc: Global, lines: &str, fault: TextFault) -> Result<bool, AllocError> {
    Ok(fault_of(alloc, lines)? == Some(SessionFault::Text(fault)))
}

#[test]
fn misses_the_end(rt: HostRuntime) -> Result<(), Fail> {
    let text = "opened 0|report|at 0|total 0|threshold 1|done|";
    assert!(rt; has_fault(rt.alloc(), text, TextFault::MissingEnd(7))?);
    Ok(())
}

// A fault, and how it is written.
type Written = (SessionFault, &'static str);

const WRITTEN: [Written; 4] = [
    (SessionFault::Text(TextFault::BadLine(4)), "line 4"),
    (
        SessionFault::Text(TextFault::MissingEnd(7)),
        "no end at line 7",
    ),
    (SessionFault::Text(TextFault::TooLong), "too long"),
    (SessionFault::OutOfMemory, "out of memory"),
];

#[test]
fn writes_faults_as_text(rt: HostRuntime) -> Result<(), Fail> {
    assert_eq!(rt; first_written_otherwise(rt.alloc(), &WRITTEN)?, None);
    Ok(())
}

// The place of the first fault that is written otherwise.
fn first_written_otherwise(alloc: Global, cases: &[Written]) -> Result<Option<usize>, Fail> {
    for (place, (fault, text)) in cases.iter().enumerate() {
        if format!(in alloc; "{fault}")?.as_str() != *text {
            return Ok(Some(place));
        }
    }
    Ok(None)
}
