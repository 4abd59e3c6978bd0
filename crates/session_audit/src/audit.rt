//! The audit of a session by the dealt records of a capture.

ghost use Rattle.std.specs.Prelude.{◌≡◌, ◌++◌, All, Option, IfOk, IfSome, IfNone, OnOk};
ghost use Rattle.hhh_report.specs.{AreOfGrain};
ghost use Rattle.command_words.specs.{AreLimited};
ghost use Rattle.session_audit.specs.Audit.{IsFirstUnsound, IsAuditedSound};
ghost use Rattle.session_audit.specs.Audit.{sound_audit as text_of_sound, unsound_audit as text_of_unsound};
ghost use Rattle.session_audit.specs.Audit.{verdict_text};
ghost use Rattle.session_audit.specs.Answer.{IsAuditingAnswer};

use command_words::Settings;
use deal_rules::Dealt;
use exact_audit::Verdict;
use report_text::Session;
use run_status::{Status, push_number, push_prefix};
use std::alloc::{AllocError, Global};

/// What is audited: the dealt records of a capture, and what the text of a session says.
#[derive(Drop)]
pub struct Audited {
    /// The records that each shard had.
    pub dealt: Dealt,
    /// The session.
    pub session: Session,
}

// The first report of a session that is not sound.
#[derive(Clone, Copy)]
struct Unsound {
    // Its number, from 1.
    report: u64,
    // The first test that it fails.
    verdict: Verdict,
}

/// What an audit says.
#[derive(Drop)]
pub struct Answer {
    /// The line that says so.
    pub text: Vec<u8>,
    /// How a command ends that has written the line: `Done` or `AuditNo`.
    pub status: Status,
}

/// Audits the reports of a session in their order, by the dealt records of a capture: how many reports there are if all are
/// sound, else what is wrong with the first that is not.
pub fn audit_session(
    alloc: Global,
    settings: &Settings,
    audited: &Audited,
) -> Result<Answer, AllocError>
    requires limited { AreLimited settings.now }
    requires of_grain { All (λ reported. AreOfGrain settings.now.grain reported.report.lines) audited.now.session.reports }
    ensures { IfOk result (IsAuditingAnswer settings.now audited.now.dealt audited.now.session.reports) }
{
    match first_unsound(alloc, settings, audited)? {
        None => Ok(Answer {
            text: sound_text(alloc, audited.session.reports.len() as u64)?,
            status: Status::Done,
        }),
        Some(unsound) => Ok(Answer {
            text: unsound_text(alloc, &unsound)?,
            status: Status::AuditNo {
                report: unsound.report,
                verdict: unsound.verdict,
            },
        }),
    }
}

// The first report of a session that is not sound over the dealt records, if there is one.
fn first_unsound(
    alloc: Global,
    settings: &Settings,
    audited: &Audited,
) -> Result<Option<Unsound>, AllocError>
    requires limited { AreLimited settings.now }
    requires of_grain { All (λ reported. AreOfGrain settings.now.grain reported.report.lines) audited.now.session.reports }
    ensures none { IfOk result (λ found. IfNone found (All (IsAuditedSound settings.now audited.now.dealt) audited.now.session.reports)) }
    ensures some { IfOk result (λ found. IfSome found (λ unsound. IsFirstUnsound settings.now audited.now.dealt audited.now.session.reports
        unsound.report unsound.verdict)) }
{
    let reports = audited.session.reports.as_slice();
    for (place, reported) in reports.iter().enumerate() {
        let report = &reported.report;
        match exact_audit::audit(
            alloc,
            &audited.dealt,
            report,
            settings.grain,
            settings.capacity,
            settings.phi,
        )? {
            Verdict::Good => {}
            verdict => {
                return Ok(Some(Unsound {
                    report: place as u64 + 1,
                    verdict,
                }));
            }
        }
    }
    Ok(None)
}

fn sound_text(alloc: Global, count: u64) -> Result<Vec<u8>, AllocError>
    ensures { IfOk result (λ text. text.items ≡ text_of_sound count) }
{
    let mut text = Vec::new(alloc);
    push_number(&mut text, b"good ", count)?;
    text.extend_from_slice(b"\n")?;
    Ok(text)
}

fn unsound_text(alloc: Global, unsound: &Unsound) -> Result<Vec<u8>, AllocError>
    ensures { IfOk result (λ text. text.items ≡ text_of_unsound unsound.now.report unsound.now.verdict) }
{
    let mut text = Vec::new(alloc);
    push_number(&mut text, b"report ", unsound.report)?;
    text.extend_from_slice(b": ")?;
    push_verdict(&mut text, &unsound.verdict)?;
    text.extend_from_slice(b"\n")?;
    Ok(text)
}

fn push_verdict(text: &mut Vec<u8>, verdict: &Verdict) -> Result<(), AllocError>
    ensures { OnOk result (text.new.items ≡ text.old.items ++ verdict_text verdict.now) }
{
    match verdict {
        Verdict::Good => text.extend_from_slice(b"good"),
        Verdict::BadPositions => text.extend_from_slice(b"bad positions"),
        Verdict::BadTotal => text.extend_from_slice(b"bad total"),
        Verdict::BadThreshold => text.extend_from_slice(b"bad threshold"),
        Verdict::BadInterval(line) => push_number(text, b"bad interval in line ", *line),
        Verdict::TooWide(line) => push_number(text, b"too wide in line ", *line),
        Verdict::LowLine(line) => push_number(text, b"below threshold in line ", *line),
        Verdict::NotJustified(line) => push_number(text, b"not justified in line ", *line),
        Verdict::LeftOut(prefix, weight) => {
            text.extend_from_slice(b"left out ")?;
            push_prefix(text, prefix)?;
            push_number(text, b" ", *weight)
        }
    }
}
