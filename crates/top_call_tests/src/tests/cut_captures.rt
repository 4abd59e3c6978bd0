//! Captures that end inside a frame, of which the frames before it are taken where this is asked for.

use super::endings::{compare, run_with};
use hhh_engine::Status;
use outside_io::{MemorySink, MemorySource};
use pcap_frames::{CaptureFault, FaultKind};
use std::alloc::{AllocError, Global};
use std::marker::Sync;
use std::process::Abort;
use std::sync::Wait;
use std::test::Fail;
use std::thread::Threads;
use test_runs::{Handed, ONE, SOUND, capture_of, run_over};

const REPORT: [&str; 4] = ["report", "--shards", "1", "--front=yes"];

const AUDIT: [&str; 5] = ["audit", "--shards", "1", "--front=yes", "--report=r"];

// A capture of one packet has a header of 24 bytes, and a frame of 50.
const HEADER_LENGTH: usize = 24;

const WHOLE_LENGTH: usize = 74;

// The session over no frame, whose first one is cut, and over one frame, whose second one is.
const OF_NONE: &str =
    "opened 0\nreport\nat 0\ntotal 0\nthreshold 1\ndone\nframes 0\nskipped 0 0 0\ncut 24\nend\n";

const OF_ONE: &str =
    "opened 0\nreport\nat 1\ntotal 100\nthreshold 1\nline 10.1.2.3/32 20.1.2.3/32 100 100\ndone\nframes 1\nskipped 0 0 0\ncut 74\nend\n";

// The first bytes of a capture of one packet, with zeros behind it where there are more.
fn front_of(alloc: Global, length: usize) -> Result<Vec<u8>, AllocError> {
    let mut bytes = capture_of(alloc, &[ONE])?;
    bytes.extend_from_slice(&[0; 10])?;
    bytes.truncate(length);
    Ok(bytes)
}

fn bad_capture(kind: FaultKind, place: usize) -> Status {
    Status::BadCapture(CaptureFault {
        kind,
        place: place as u64,
    })
}

pub(crate) fn fronts_are_taken<R: Abort + Threads + Wait + Sync>(
    rt: &R,
    alloc: Global,
    handed: &Handed,
) -> Result<(), Fail> {
    reports_on(rt, alloc, handed, 60, Status::Done, OF_NONE)?;
    reports_on(rt, alloc, handed, 84, Status::Done, OF_ONE)?;
    let short = bad_capture(FaultKind::ShortHeader, 20);
    reports_on(rt, alloc, handed, 20, short, "")?;
    let refused = ["report", "--shards", "1", "--front=no"];
    let ended = run_over(rt, alloc, handed, &refused, front_of(alloc, 84)?, SOUND)?;
    compare(rt, ended, bad_capture(FaultKind::CutFrame, 74), b"");
    is_audited_good(rt, alloc, handed, 60, OF_NONE)?;
    is_audited_good(rt, alloc, handed, 84, OF_ONE)
}

fn reports_on<R: Abort + Threads + Wait + Sync>(
    rt: &R,
    alloc: Global,
    handed: &Handed,
    length: usize,
    status: Status,
    text: &str,
) -> Result<(), Fail> {
    let ended = run_over(rt, alloc, handed, &REPORT, front_of(alloc, length)?, SOUND)?;
    compare(rt, ended, status, text.as_bytes());
    Ok(())
}

fn is_audited_good<R: Abort + Threads + Wait + Sync>(
    rt: &R,
    alloc: Global,
    handed: &Handed,
    length: usize,
    session: &str,
) -> Result<(), Fail> {
    let mut capture = MemorySource::new(front_of(alloc, length)?, Vec::new(alloc), 7);
    let text = Vec::from_slice(alloc, session.as_bytes())?;
    let mut text = MemorySource::new(text, Vec::new(alloc), 7);
    let mut sink = MemorySink::with_room(alloc, 64, Vec::new(alloc))?;
    let ended = run_with(
        rt,
        alloc,
        handed,
        &AUDIT,
        &mut capture,
        &mut text,
        &mut sink,
    )?;
    compare(rt, ended, Status::Done, b"good 1\n");
    Ok(())
}

// The weight of the root over each front of the capture. No line tells of the cut.
pub(crate) fn each_front_is_weighed<R: Abort + Threads + Wait + Sync>(
    rt: &R,
    alloc: Global,
    handed: &Handed,
) -> Result<(), Fail> {
    let words = ["weigh", "0.0.0.0/0", "0.0.0.0/0", "--front", "yes"];
    for length in 0..=WHOLE_LENGTH + 10 {
        let ended = run_over(rt, alloc, handed, &words, front_of(alloc, length)?, SOUND)?;
        let (status, text) = end_of_front(length);
        compare(rt, ended, status, text.as_bytes());
    }
    Ok(())
}

fn end_of_front(length: usize) -> (Status, &'static str) {
    if length < HEADER_LENGTH {
        (bad_capture(FaultKind::ShortHeader, length), "")
    } else if length < WHOLE_LENGTH {
        (Status::Done, "low 0\nhigh 0\ntotal 0\n")
    } else {
        (Status::Done, "low 100\nhigh 100\ntotal 100\n")
    }
}
