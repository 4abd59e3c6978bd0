//! The demonstration: made traffic is counted, reported and audited.

ghost use Rattle.std.specs.Prelude.{◌≡◌, ◌≤◌, ◌↔◌, ℕ, false, List, length, Option, None, IfErr, IfOk};
ghost use Rattle.prefix_lattice.specs.{record_limit};
ghost use Rattle.pcap_frames.specs.{FrameValue};
ghost use Rattle.frame_records.specs.{AreRecordsOf, FileHasFrames, HasRecords};
ghost use Rattle.deal_rules.specs.{dealer_of};
ghost use Rattle.pcap_frames.specs.declared.fault.CaptureFault.{CaptureFault};
ghost use Rattle.traffic_maker.specs.{made_capture, most_frames};
ghost use Rattle.hhh_report.specs.{AreOfGrain, IsSound};
ghost use Rattle.exact_audit.specs.{IsVerdict};
ghost use Rattle.exact_audit.specs.declared.verdict.Verdict.TheVariants.{Good};
ghost use Rattle.command_words.specs.{AreLimited, HaveWideShare};
ghost use Rattle.hhh_engine.specs.Demo.{IsDemoText, demo_text as text_of_demo};
ghost use Rattle.hhh_engine.specs.Tasks.{made_task};
ghost use Rattle.hhh_engine.specs.Ending.{course, Ends, SourceFaults};
ghost use Rattle.hhh_engine.specs.Reading.{HasNoText};
ghost use Rattle.run_status.specs.declared.status.Status.TheVariants.{BadCapture, ReadFault};

use crate::commands::Runner;
use crate::commands::made_source::MadeSource;
use crate::laws::made_captures_are_captures;
use crate::{Settings, Status};
use deal_rules::{Dealer, Deals, Dealt};
use dealt_capture::deal_records;
use exact_audit::{Verdict, audit};
use frame_records::{Records, Weigh, files_are_read_or_refused, read_records};
use gate_workers::Gate;
use hhh_report::Report;
use outside_io::{Sink, Source, write_all};
use report_session::report_all;
use run_status::push_number;
use std::alloc::{AllocError, Global};
use std::marker::Sync;
use std::sync::Wait;
use std::thread::Threads;
use traffic_maker::make_bytes;

/// Makes a capture in memory, counts its records, reports on all of them, audits that report, and writes a summary.
pub(crate) fn demo<R: Threads + Wait + Sync, K: Sink, G: Gate + Sync>(
    runner: &Runner<'_, R, G>,
    seed: u64,
    frames: u32,
    settings: &Settings,
    sink: &mut K,
) -> Status
    requires frames { (1 ≤ frames) × (frames ≤ most_frames) }
    requires limited { AreLimited settings.now }
    requires wide { HaveWideShare settings.now }
    ensures ends { (capture : Option (List ℕ)) (faults : SourceFaults) → Ends
        (made_task (IsDemoText settings.now (λ kind. ⟦<Dealer as Deals>⟧.may_answer (dealer_of kind runner.now.dealers.now)) seed frames))
        (course K.Sink capture faults faults sink.old sink.new) result }
    ensures no_capture { (fault : CaptureFault) → result ≡ BadCapture fault → ⊥ }
    ensures no_read_fault { result ≡ ReadFault → ⊥ }
{
    let text = match demo_text(runner, seed, frames, settings) {
        Ok(text) => text,
        Err(_) => return Status::OutOfMemory,
    };
    match write_all(sink, &text) {
        Ok(()) => Status::Done,
        Err(_) => Status::WriteFault,
    }
}

// The summary of a capture that is made, counted, reported and audited.
fn demo_text<R: Threads + Wait + Sync, G: Gate + Sync>(
    runner: &Runner<'_, R, G>,
    seed: u64,
    frames: u32,
    settings: &Settings,
) -> Result<Vec<u8>, AllocError>
    requires frames { (1 ≤ frames) × (frames ≤ most_frames) }
    requires limited { AreLimited settings.now }
    requires wide { HaveWideShare settings.now }
    ensures { IfOk result (λ text. IsDemoText settings.now
        (λ kind. ⟦<Dealer as Deals>⟧.may_answer (dealer_of kind runner.now.dealers.now)) seed frames text.items) }
{
    let alloc = runner.alloc;
    let records = made_records(alloc, seed, frames, settings.weigh)?;
    let count = records.list.len() as u64;
    let dealt = deal_records(alloc, records.list, settings, runner.dealers)?;
    // What is audited is a copy, so that the audit shares nothing with the shards.
    let plain = dealt.copy(alloc)?;
    let report = report_all(runner.rt, alloc, dealt, settings, runner.gate)?;
    match verdict_on(alloc, &plain, &report, settings)? {
        Verdict::Good => summary(alloc, seed, frames, count, &report),
        _ => unreachable!(),
    }
}

// The verdict on a report over dealt records.
fn verdict_on(
    alloc: Global,
    plain: &Dealt,
    report: &Report,
    settings: &Settings,
) -> Result<Verdict, AllocError>
    requires limited { AreLimited settings.now }
    requires of_grain { AreOfGrain settings.now.grain report.now.lines }
    ensures verdict { IfOk result (IsVerdict settings.now.grain plain.now settings.now.capacity settings.now.phi report.now) }
    ensures good { IfOk result (λ verdict. (verdict ≡ Good) ↔ IsSound settings.now.grain report.now plain.now settings.now.capacity settings.now.phi) }
{
    audit(
        alloc,
        plain,
        report,
        settings.grain,
        settings.capacity,
        settings.phi,
    )
}

// The records of the capture that a seed and a number of frames determine.
fn made_records(alloc: Global, seed: u64, frames: u32, weigh: Weigh) -> Result<Records, AllocError>
    requires { (1 ≤ frames) × (frames ≤ most_frames) }
    ensures records { IfOk result (λ records. (made : List FrameValue) × FileHasFrames (made_capture seed frames) made
        × AreRecordsOf weigh made records × (records.cut ≡ None)) }
    ensures few { IfOk result (λ records. length records.list ≤ record_limit) }
{
    made_captures_are_captures();
    files_are_read_or_refused();
    let mut capture = MadeSource::new(alloc, make_bytes(alloc, seed, frames)?);
    let status = match read_capture(alloc, &mut capture, weigh) {
        Ok(records) => return Ok(records),
        Err(status) => status,
    };
    // A made capture is one, and is read without a fault.
    match status {
        Status::OutOfMemory => Err(AllocError),
        _ => unreachable!(),
    }
}

// The records of a capture, which is read to its end.
fn read_capture<S: Source>(alloc: Global, capture: &mut S, weigh: Weigh) -> Result<Records, Status>
    ensures records { IfOk result (HasRecords weigh false (S.left capture.old)) }
    ensures few { IfOk result (λ records. length records.list ≤ record_limit) }
    ensures refused { IfErr result (HasNoText false (S.left capture.old) (S.faults capture.old) (S.faults capture.new)) }
{
    Ok(read_records(alloc, capture, weigh, false)?)
}

// The lines that say what was made, counted and reported, and that the audit found the report sound.
fn summary(
    alloc: Global,
    seed: u64,
    frames: u32,
    records: u64,
    report: &Report,
) -> Result<Vec<u8>, AllocError>
    ensures { IfOk result (λ text. text.items ≡ text_of_demo seed frames records report.now) }
{
    let mut text = Vec::new(alloc);
    push_number(&mut text, b"demo ", seed)?;
    push_number(&mut text, b" ", u64::from(frames))?;
    push_number(&mut text, b"\nrecords ", records)?;
    push_number(&mut text, b"\ntotal ", report.total)?;
    push_number(&mut text, b"\nthreshold ", report.threshold)?;
    push_number(&mut text, b"\nlines ", report.lines.len() as u64)?;
    text.extend_from_slice(b"\naudit good\nend\n")?;
    Ok(text)
}
