//! One failing call, and a stop at each call of the disk: what was written begins a session, and what a crash leaves of the
//! store opens no earlier than what was saved.

use gate_workers::OpenGate;
use hhh_engine::{Status, run};
use outside_io::{MemorySink, MemorySource};
use prefix_lattice::Grain;
use report_text::{SessionFault, TextFault, read_session};
use slot_disk::MemoryDisk;
use std::alloc::{AllocError, Global};
use std::marker::Sync;
use std::process::Abort;
use std::sync::Wait;
use std::test::Fail;
use std::thread::Threads;
use test_runs::{Ended, Handed};
use traffic_maker::make_bytes;

// Two slots for one shard at capacity 2 take fewer bytes than this.
const ROOM: usize = 16_384;

const FORMAT: [&str; 4] = ["format", "--store=s", "--shards=1", "--capacity=2"];

const REPORT: [&str; 8] = [
    "report",
    "--store=s",
    "--shards=1",
    "--capacity=2",
    "--phi=1000000",
    "--rounds=2",
    "--workers=1",
    "--block=1",
];

const WITHOUT_A_STORE: [&str; 7] = [
    "report",
    "--shards=1",
    "--capacity=2",
    "--phi=1000000",
    "--rounds=2",
    "--workers=1",
    "--block=1",
];

// The session over eight frames takes some ninety calls of the source, and fewer of the sink and of the disk.
const MOST_CALLS: u64 = 1000;

// How many ways there are in which a crash may leave a disk in memory.
const CRASHES: u8 = 4;

// Which call of a run fails: of the source, of the sink or of the disk; and from which on those of the disk do.
#[derive(Clone, Copy)]
struct Failing {
    source: Option<u64>,
    sink: Option<u64>,
    disk: Option<u64>,
    fuse: Option<u64>,
}

const NOTHING: Failing = Failing {
    source: None,
    sink: None,
    disk: None,
    fuse: None,
};

#[derive(Drop)]
struct Outcome {
    ended: Ended,
    disk: MemoryDisk,
}

// The calls that fail.
fn listed(alloc: Global, call: Option<u64>) -> Result<Vec<u64>, AllocError> {
    let mut calls = Vec::new(alloc);
    if let Some(call) = call {
        calls.push(call)?;
    }
    Ok(calls)
}

// A source of a made capture of eight frames.
fn source_of(alloc: Global, failing: Failing) -> Result<MemorySource, AllocError> {
    let fails = listed(alloc, failing.source)?;
    match make_bytes(alloc, 7, 8) {
        Ok(capture) => Ok(MemorySource::new(capture, fails, 64)),
        Err(_) => Err(AllocError),
    }
}

// A disk with these bytes.
fn disk_of(alloc: Global, bytes: &[u8], failing: Failing) -> Result<MemoryDisk, AllocError> {
    let held = Vec::from_slice(alloc, bytes)?;
    let room = ROOM.max(held.len());
    let fails = listed(alloc, failing.disk)?;
    MemoryDisk::with_room(alloc, room, 1_048_576, held, failing.fuse, fails)
}

// Runs over a made capture of eight frames, with a store of these bytes.
fn run_once<R: Threads + Wait + Sync>(
    rt: &R,
    alloc: Global,
    handed: &Handed,
    words: &[&str],
    store: &[u8],
    failing: Failing,
) -> Result<Outcome, AllocError> {
    let mut disk = disk_of(alloc, store, failing)?;
    let ended = run_on_disk(rt, alloc, handed, words, &mut disk, failing)?;
    Ok(Outcome { ended, disk })
}

fn run_on_disk<R: Threads + Wait + Sync>(
    rt: &R,
    alloc: Global,
    handed: &Handed,
    words: &[&str],
    disk: &mut MemoryDisk,
    failing: Failing,
) -> Result<Ended, AllocError> {
    let mut source = source_of(alloc, failing)?;
    let mut text = MemorySource::new(Vec::new(alloc), Vec::new(alloc), 64);
    let mut sink = MemorySink::with_room(alloc, 4096, listed(alloc, failing.sink)?)?;
    let status = run(
        rt,
        alloc,
        words,
        &mut source,
        &mut text,
        &mut sink,
        disk,
        &OpenGate,
        &handed.dealers,
        &handed.judge,
    );
    let text = Vec::from_slice(alloc, sink.taken())?;
    Ok(Ended { status, text })
}

// Runs on what a crash after another run left.
fn run_after<R: Threads + Wait + Sync>(
    rt: &R,
    alloc: Global,
    handed: &Handed,
    broken: &Outcome,
    choice: u8,
    failing: Failing,
) -> Result<Outcome, AllocError> {
    let store = broken.disk.crash(alloc, choice)?;
    run_once(rt, alloc, handed, &REPORT, &store, failing)
}

// The bytes of a store that was just formatted.
fn formatted<R: Threads + Wait + Sync>(
    rt: &R,
    alloc: Global,
    handed: &Handed,
) -> Result<Vec<u8>, AllocError> {
    let made = run_once(rt, alloc, handed, &FORMAT, &[], NOTHING)?;
    made.disk.crash(alloc, 0)
}

// The bytes of a store that one run has filled.
fn filled<R: Threads + Wait + Sync>(
    rt: &R,
    alloc: Global,
    handed: &Handed,
) -> Result<Vec<u8>, AllocError> {
    let store = formatted(rt, alloc, handed)?;
    let made = run_once(rt, alloc, handed, &REPORT, &store, NOTHING)?;
    made.disk.crash(alloc, 0)
}

// What is wrong with the text of a session.
fn fault_in(alloc: Global, text: &[u8]) -> Option<SessionFault> {
    read_session(alloc, Grain::Byte, text).err()
}

// Whether whole lines begin a session, and are not all of one.
fn begins_a_session(alloc: Global, text: &[u8]) -> bool {
    matches!(
        fault_in(alloc, text),
        Some(SessionFault::Text(TextFault::MissingEnd(_)))
    )
}

// The position in the last line that begins with this word, 0 where there is none.
fn last_position(text: &[u8], word: &[u8]) -> u64 {
    let mut position = 0;
    for line in text.split(|byte| *byte == b'\n') {
        if line.starts_with(word) {
            position = number_in(line);
        }
    }
    position
}

// The number that the digits of a line make up.
fn number_in(line: &[u8]) -> u64 {
    let mut number: u64 = 0;
    for byte in line {
        if byte.is_ascii_digit() {
            let digit = u64::from(byte.saturating_sub(b'0'));
            number = number.saturating_mul(10).saturating_add(digit);
        }
    }
    number
}

// The lines of the last report of a session.
fn last_report(alloc: Global, text: &[u8]) -> Result<Vec<u8>, AllocError> {
    let mut report = Vec::new(alloc);
    let mut inside = false;
    for line in text.split(|byte| *byte == b'\n') {
        if line == b"report".as_slice() {
            report.clear();
            inside = true;
        }
        if inside {
            report.extend_from_slice(line)?;
            report.extend_from_slice(b"\n")?;
        }
        if line == b"done".as_slice() {
            inside = false;
        }
    }
    Ok(report)
}

// Each call of the source that fails ends the run before anything is written.
pub(crate) fn a_source_fails<R: Abort + Threads + Wait + Sync>(
    rt: &R,
    alloc: Global,
    handed: &Handed,
) -> Result<(), Fail> {
    each_call_fails(rt, alloc, handed, Stream::Source)
}

// Each call of the sink that fails leaves the beginning of a session, and a store that opens at what was saved.
pub(crate) fn a_sink_fails<R: Abort + Threads + Wait + Sync>(
    rt: &R,
    alloc: Global,
    handed: &Handed,
) -> Result<(), Fail> {
    each_call_fails(rt, alloc, handed, Stream::Sink)
}

// So does each call of the disk that fails.
pub(crate) fn a_disk_fails<R: Abort + Threads + Wait + Sync>(
    rt: &R,
    alloc: Global,
    handed: &Handed,
) -> Result<(), Fail> {
    each_call_fails(rt, alloc, handed, Stream::Disk)
}

#[derive(Clone, Copy)]
enum Stream {
    Source,
    Sink,
    Disk,
}

fn each_call_fails<R: Abort + Threads + Wait + Sync>(
    rt: &R,
    alloc: Global,
    handed: &Handed,
    stream: Stream,
) -> Result<(), Fail> {
    let store = filled(rt, alloc, handed)?;
    for call in 0..MOST_CALLS {
        let (failing, fault) = failing_at(stream, call);
        if ends_well(rt, alloc, handed, &store, failing, fault)? {
            return Ok(());
        }
    }
    assert!(rt; false, "no run ended well");
    Ok(())
}

// One failing call, and what a run ends in that makes it.
fn failing_at(stream: Stream, call: u64) -> (Failing, Status) {
    let call = Some(call);
    match stream {
        Stream::Source => (
            Failing {
                source: call,
                ..NOTHING
            },
            Status::ReadFault,
        ),
        Stream::Sink => (
            Failing {
                sink: call,
                ..NOTHING
            },
            Status::WriteFault,
        ),
        Stream::Disk => (
            Failing {
                disk: call,
                ..NOTHING
            },
            Status::DiskFault,
        ),
    }
}

// Whether a run ends well. If not, it has written nothing where the source failed, and else another goes on from it.
fn ends_well<R: Abort + Threads + Wait + Sync>(
    rt: &R,
    alloc: Global,
    handed: &Handed,
    store: &[u8],
    failing: Failing,
    fault: Status,
) -> Result<bool, Fail> {
    let broken = run_once(rt, alloc, handed, &REPORT, store, failing)?;
    if broken.ended.status == Status::Done {
        return Ok(true);
    }
    assert_eq!(rt; broken.ended.status, fault);
    if failing.source.is_some() {
        assert!(rt; broken.ended.text.is_empty());
    } else {
        goes_on(rt, alloc, handed, &broken)?;
    }
    Ok(false)
}

// What a broken run wrote begins a session, and after each crash the next run goes on from what it saved, or from later.
fn goes_on<R: Abort + Threads + Wait + Sync>(
    rt: &R,
    alloc: Global,
    handed: &Handed,
    broken: &Outcome,
) -> Result<(), Fail> {
    assert!(rt; begins_a_session(alloc, &broken.ended.text));
    let saved = last_position(&broken.ended.text, b"saved ");
    for choice in 0..CRASHES {
        let next = run_after(rt, alloc, handed, broken, choice, NOTHING)?;
        assert_eq!(rt; next.ended.status, Status::Done);
        assert!(rt; last_position(&next.ended.text, b"opened ") >= saved);
    }
    Ok(())
}

// The disk stops at a call, what the crash leaves is opened by a second run, which is stopped at the same call of its own,
// and what that crash leaves by a third. It begins no earlier than what the first two saved, and its last report is that
// of a run without a store. The calls are seven from one on, or up to one that no run makes: so many are made.
pub(crate) fn the_disk_stops_twice<R: Abort + Threads + Wait + Sync>(
    rt: &R,
    alloc: Global,
    handed: &Handed,
    from: u64,
    made: u64,
) -> Result<(), Fail> {
    let store = formatted(rt, alloc, handed)?;
    let report = plain_report(rt, alloc, handed)?;
    let stopped = count_stops(rt, alloc, handed, &store, &report, from)?;
    assert_eq!(rt; stopped, made);
    Ok(())
}

// How many of seven calls are made.
fn count_stops<R: Abort + Threads + Wait + Sync>(
    rt: &R,
    alloc: Global,
    handed: &Handed,
    store: &[u8],
    report: &[u8],
    from: u64,
) -> Result<u64, Fail> {
    let mut stopped: u64 = 0;
    for call in from..from.saturating_add(7) {
        if !stops(rt, alloc, handed, store, call, report)? {
            return Ok(stopped);
        }
        stopped = call.saturating_sub(from).saturating_add(1);
    }
    Ok(stopped)
}

// The last report of a run without a store.
fn plain_report<R: Abort + Threads + Wait + Sync>(
    rt: &R,
    alloc: Global,
    handed: &Handed,
) -> Result<Vec<u8>, Fail> {
    let plain = run_once(rt, alloc, handed, &WITHOUT_A_STORE, &[], NOTHING)?;
    assert_eq!(rt; plain.ended.status, Status::Done);
    Ok(last_report(alloc, &plain.ended.text)?)
}

// Whether a run makes such a call of the disk. If it does, the runs after it are compared.
fn stops<R: Abort + Threads + Wait + Sync>(
    rt: &R,
    alloc: Global,
    handed: &Handed,
    store: &[u8],
    call: u64,
    report: &[u8],
) -> Result<bool, Fail> {
    let failing = Failing {
        fuse: Some(call),
        ..NOTHING
    };
    let first = run_once(rt, alloc, handed, &REPORT, store, failing)?;
    if first.ended.status == Status::Done {
        return Ok(false);
    }
    assert_eq!(rt; first.ended.status, Status::DiskFault);
    for choice in 0..CRASHES {
        stops_again(rt, alloc, handed, &first, choice, failing, report)?;
    }
    Ok(true)
}

fn stops_again<R: Abort + Threads + Wait + Sync>(
    rt: &R,
    alloc: Global,
    handed: &Handed,
    first: &Outcome,
    choice: u8,
    failing: Failing,
    report: &[u8],
) -> Result<(), Fail> {
    let second = run_after(rt, alloc, handed, first, choice, failing)?;
    let saved = last_position(&first.ended.text, b"saved ").max(last_position(
        &second.ended.text,
        b"saved ",
    ));
    for again in 0..CRASHES {
        let third = run_after(rt, alloc, handed, &second, again, NOTHING)?;
        reports_as(rt, alloc, &third.ended, saved, report)?;
    }
    Ok(())
}

// A session begins no earlier than at this position, and its last report is this one.
fn reports_as(
    rt: &impl Abort,
    alloc: Global,
    ended: &Ended,
    saved: u64,
    report: &[u8],
) -> Result<(), Fail> {
    assert_eq!(rt; ended.status, Status::Done);
    assert!(rt; last_position(&ended.text, b"opened ") >= saved);
    assert_eq!(rt; last_report(alloc, &ended.text)?.as_slice(), report);
    Ok(())
}
