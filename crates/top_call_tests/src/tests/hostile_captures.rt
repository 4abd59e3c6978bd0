//! Captures that are cut or damaged on purpose, each refused for its first fault.

use super::endings::compare;
use hhh_engine::Status;
use pcap_frames::{CaptureFault, FaultKind};
use std::alloc::Global;
use std::marker::Sync;
use std::process::Abort;
use std::sync::Wait;
use std::test::Fail;
use std::thread::Threads;
use test_runs::{Handed, ONE, SOUND, capture_of, run_over};

// A capture of one packet has a header of 24 bytes, and a frame of 50.
const HEADER_LENGTH: usize = 24;

const WEIGH: [&str; 3] = ["weigh", "0.0.0.0/0", "0.0.0.0/0"];

// Each front of a capture of one packet, up to the whole of it: a short header, no frame, a cut frame, or one.
pub(crate) fn each_front_of_a_capture<R: Abort + Threads + Wait + Sync>(
    rt: &R,
    alloc: Global,
    handed: &Handed,
) -> Result<(), Fail> {
    let whole = capture_of(alloc, &[ONE])?;
    for length in 0..=whole.len() {
        let mut front = whole.to_vec(alloc)?;
        front.truncate(length);
        let ended = run_over(rt, alloc, handed, &WEIGH, front, SOUND)?;
        let (status, text) = end_of_front(length, whole.len());
        compare(rt, ended, status, text.as_bytes());
    }
    Ok(())
}

// The status and the text of a run over so many of the bytes.
fn end_of_front(length: usize, whole: usize) -> (Status, &'static str) {
    if length < HEADER_LENGTH {
        (bad_capture(FaultKind::ShortHeader, length as u64), "")
    } else if length == HEADER_LENGTH {
        (Status::Done, "low 0\nhigh 0\ntotal 0\n")
    } else if length < whole {
        (bad_capture(FaultKind::CutFrame, 24), "")
    } else {
        (Status::Done, "low 100\nhigh 100\ntotal 100\n")
    }
}

fn bad_capture(kind: FaultKind, place: u64) -> Status {
    Status::BadCapture(CaptureFault { kind, place })
}

// A frame that claims more captured bytes than a frame may have, and as many as its field can say.
pub(crate) fn a_frame_of_all_ones<R: Abort + Threads + Wait + Sync>(
    rt: &R,
    alloc: Global,
    handed: &Handed,
) -> Result<(), Fail> {
    let mut bytes = capture_of(alloc, &[ONE])?;
    assert!(rt; HEADER_LENGTH + 12 <= bytes.len());
    bytes[32..36].copy_from_slice(&[0xff; 4]);
    let ended = run_over(rt, alloc, handed, &WEIGH, bytes, SOUND)?;
    compare(rt, ended, bad_capture(FaultKind::LongFrame, 24), b"");
    Ok(())
}
