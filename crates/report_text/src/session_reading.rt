//! Reading the text of a session.

ghost use Rattle.std.specs.Prelude.{◌≡◌, ◌≢◌, ◌≤◌, ◌<◌, ◌↔◌, ◌++◌, ℕ, [], ◌∷◌, length, map, Option, IfOk, IfErr};
ghost use Rattle.std.specs.Prelude.{All, IfSome, IfNone, IsTrue};
ghost use Rattle.std.specs.List.{flat_map};
ghost use Rattle.hhh_report.specs.{AreOfGrain, AreReportLines};
ghost use Rattle.report_text.specs.Session.{HasReadFault, IsSessionText, longest_session};
ghost use Rattle.report_text.specs.Session.{reported_lines, saved_lines, cut_lines, session_lines};
ghost use Rattle.report_text.specs.Stages.{ComesAfterLast, line_after_report, after_report};
ghost use Rattle.report_text.specs.Stages.{body_lines};
ghost use Rattle.report_text.specs.LineCursor.{ReadsLines, HasReadToStage};
ghost use Rattle.report_text.specs.Stages.{nothing, opened, begun, listing, done, counted, skipped, ended};

use crate::line_cursor::LineCursor;
use crate::session_line::SessionLine;
use crate::{Session, SessionFault, TextFault};
use hhh_report::{Lines, Positions, Report, Reported, Reports};
use prefix_lattice::{Grain, Prefix, report_order_is_total};
use std::alloc::Global;
use std::cmp::Ordering;

// The most bytes of a text that is read.
const LONGEST_TEXT: usize = 268_435_456;

/// Reads the text of a session, of at most 268,435,456 bytes, in one pass. Each line ends by one line feed, its words are
/// joined by one space, and numbers are decimal, without leading zeros. Lengths of prefixes are of the grain. Only what
/// the session says takes memory.
///
/// A `TextFault` comes exactly if the text is that of no session, or is too long; it names the first wrong line. By
/// `session_texts_have_one_reading` a text has one fault or is that of one session, and by `printed_sessions_read_back`
/// what is printed of a session is read back. `OutOfMemory` means that memory ran out.
pub fn read_session(alloc: Global, grain: Grain, bytes: &[u8]) -> Result<Session, SessionFault>
    ensures read { IfOk result (IsSessionText grain bytes.now) }
    ensures of_grain { IfOk result (λ session.
        All (λ reported. AreOfGrain grain reported.report.lines) session.reports) }
    ensures limit { IfOk result (λ _. length bytes.now ≤ longest_session) }
    ensures fault { IfErr result (HasReadFault grain bytes.now) }
    ensures too_long { longest_session < length bytes.now → result ≡ Err (SessionFault.Text TextFault.TooLong) }
{
    if bytes.len() > LONGEST_TEXT {
        return Err(SessionFault::Text(TextFault::TooLong));
    }
    report_order_is_total();
    let mut lines = LineCursor::new(bytes);
    let session = read_all(alloc, grain, &mut lines)?;
    lines.finish()?;
    Ok(session)
}

// Reads all lines of a session.
fn read_all(
    alloc: Global,
    grain: Grain,
    lines: &mut LineCursor<'_>,
) -> Result<Session, SessionFault>
    requires { HasReadToStage grain lines.old nothing }
    ensures read { IfOk result (λ session. ReadsLines grain lines.old lines.new (session_lines session) nothing ended) }
    ensures fault { IfErr result (HasReadFault grain lines.old.text.now) }
{
    let SessionLine::Opened(opened) = lines.next(alloc, grain)? else {
        return Err(lines.refuse());
    };
    let listed = read_reports(alloc, grain, lines, opened.len())?;
    let SessionLine::Skipped(skips) = lines.next(alloc, grain)? else {
        return Err(lines.refuse());
    };
    let cut = read_end(alloc, grain, lines)?;
    Ok(Session {
        opened,
        reports: listed.reports,
        frames: listed.frames,
        not_ipv4: skips.not_ipv4,
        short: skips.short,
        bad_header: skips.bad_header,
        cut,
    })
}

// The reports of a session, and the number of frames in the line after them.
#[derive(Drop)]
struct Listed {
    reports: Reports,
    frames: u64,
}

// The reports of a session over this many shards, and the line after them.
fn read_reports(
    alloc: Global,
    grain: Grain,
    lines: &mut LineCursor<'_>,
    shards: usize,
) -> Result<Listed, SessionFault>
    requires { HasReadToStage grain lines.old (opened shards) }
    ensures read { IfOk result (λ listed. ReadsLines grain lines.old lines.new
        (flat_map reported_lines listed.reports ++ SessionLine.Frames listed.frames ∷ []) (opened shards) counted) }
    ensures fault { IfErr result (HasReadFault grain lines.old.text.now) }
{
    let SessionLine::Report = lines.next(alloc, grain)? else {
        return Err(lines.refuse());
    };
    let mut reports = Reports::new(alloc);
    'reports: loop {
        let report = read_report(alloc, grain, lines, shards)?;
        let after = read_after_report(alloc, grain, lines, shards)?;
        reports.push(Reported {
            report,
            saved: after.saved,
        })?;
        if let Some(frames) = after.frames {
            return Ok(Listed { reports, frames });
        }
    }
}

// A report after its first line.
fn read_report(
    alloc: Global,
    grain: Grain,
    lines: &mut LineCursor<'_>,
    shards: usize,
) -> Result<Report, SessionFault>
    requires { HasReadToStage grain lines.old (begun shards) }
    ensures read { IfOk result (λ report. ReadsLines grain lines.old lines.new (body_lines report)
        (begun shards) (done shards)) }
    ensures fault { IfErr result (HasReadFault grain lines.old.text.now) }
{
    let SessionLine::At(positions) = lines.next(alloc, grain)? else {
        return Err(lines.refuse());
    };
    if positions.len() != shards {
        return Err(lines.refuse());
    }
    let SessionLine::Total(total) = lines.next(alloc, grain)? else {
        return Err(lines.refuse());
    };
    let SessionLine::Threshold(threshold) = lines.next(alloc, grain)? else {
        return Err(lines.refuse());
    };
    let listed = read_lines(alloc, grain, lines)?;
    Ok(Report {
        positions,
        total,
        threshold,
        lines: listed,
    })
}

// The lines of a report, in the strict order of a report, and the line `done`.
fn read_lines(
    alloc: Global,
    grain: Grain,
    lines: &mut LineCursor<'_>,
) -> Result<Lines, SessionFault>
    ensures read { IfOk result (λ listed. (shards : ℕ) → ReadsLines grain lines.old lines.new
        (map SessionLine.Line listed ++ SessionLine.Done ∷ []) (listing shards 0 None) (done shards)) }
    ensures lines { IfOk result AreReportLines }
    ensures fault { IfErr result (λ fault. (shards : ℕ) → HasReadToStage grain lines.old (listing shards 0 None)
        → HasReadFault grain lines.old.text.now fault) }
{
    report_order_is_total();
    let mut listed = Lines::new(alloc);
    let mut last = None;
    'lines: loop {
        let read = lines.next(alloc, grain)?;
        let SessionLine::Line(line) = read else {
            let SessionLine::Done = read else {
                return Err(lines.refuse());
            };
            return Ok(listed);
        };
        if !comes_after(&last, &line.prefix) {
            return Err(lines.refuse());
        }
        last = Some(line.prefix);
        listed.push(line)?;
    }
}

// Whether a prefix comes after the last one in the order of a report.
fn comes_after(last: &Option<Prefix>, prefix: &Prefix) -> bool
    ensures { IsTrue result ↔ ComesAfterLast last.now prefix.now }
{
    match last {
        None => true,
        Some(last) => last.order(prefix) == Ordering::Less,
    }
}

// What follows a report: the positions that were saved, if any were, and the number of frames, unless another report
// begins.
#[derive(Drop)]
struct AfterReport {
    saved: Option<Positions>,
    frames: Option<u64>,
}

fn read_after_report(
    alloc: Global,
    grain: Grain,
    lines: &mut LineCursor<'_>,
    shards: usize,
) -> Result<AfterReport, SessionFault>
    requires { HasReadToStage grain lines.old (done shards) }
    ensures read { IfOk result (λ after. ReadsLines grain lines.old lines.new
        (saved_lines after.saved ++ line_after_report after.frames ∷ []) (done shards) (after_report shards after.frames)) }
    ensures fault { IfErr result (HasReadFault grain lines.old.text.now) }
{
    let line = lines.next(alloc, grain)?;
    let SessionLine::Saved(saved) = line else {
        let Some(frames) = after_saved(line) else {
            return Err(lines.refuse());
        };
        return Ok(AfterReport {
            saved: None,
            frames,
        });
    };
    if saved.len() != shards {
        return Err(lines.refuse());
    }
    let Some(frames) = after_saved(lines.next(alloc, grain)?) else {
        return Err(lines.refuse());
    };
    Ok(AfterReport {
        saved: Some(saved),
        frames,
    })
}

// What may follow a report and its saved positions: another report, or the number of frames.
fn after_saved(line: SessionLine) -> Option<Option<u64>>
    ensures some { IfSome result (λ frames. line ≡ line_after_report frames) }
    ensures none { IfNone result ((frames : Option ℕ) → line ≢ line_after_report frames) }
{
    match line {
        SessionLine::Report => Some(None),
        SessionLine::Frames(frames) => Some(Some(frames)),
        _ => None,
    }
}

// The last lines of a session: the place of a frame that was cut, if one was, and the end.
fn read_end(
    alloc: Global,
    grain: Grain,
    lines: &mut LineCursor<'_>,
) -> Result<Option<u64>, SessionFault>
    requires { HasReadToStage grain lines.old skipped }
    ensures read { IfOk result (λ cut. ReadsLines grain lines.old lines.new (cut_lines cut ++ SessionLine.End ∷ []) skipped ended) }
    ensures fault { IfErr result (HasReadFault grain lines.old.text.now) }
{
    let line = lines.next(alloc, grain)?;
    let SessionLine::Cut(place) = line else {
        let SessionLine::End = line else {
            return Err(lines.refuse());
        };
        return Ok(None);
    };
    let SessionLine::End = lines.next(alloc, grain)? else {
        return Err(lines.refuse());
    };
    Ok(Some(place))
}
