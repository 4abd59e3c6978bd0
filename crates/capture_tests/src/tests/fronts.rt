//! The front of a capture that is cut inside a frame, and what is refused with and without it.

use frame_records::{Weigh, read_records};
use outside_io::{MemorySource, Source};
use pcap_frames::{FaultKind, ReadRefusal};
use std::alloc::{AllocError, Global};
use std::test::Fail;

// Two frames of 34 captured bytes, each an IPv4 packet.
pub(super) const TWO_FRAMES: [u8; 124] = [
    0xd4, 0xc3, 0xb2, 0xa1, 2, 0, 4, 0, // magic, version 2.4
    0, 0, 0, 0, 0, 0, 0, 0, // time zone, accuracy
    0, 0, 4, 0, 1, 0, 0, 0, // snapshot length, Ethernet
    0, 0, 0, 0, 0, 0, 0, 0, 34, 0, 0, 0, 100, 0, 0, 0, // time, captured, length
    2, 0, 0, 0, 0, 2, 2, 0, 0, 0, 0, 1, 8, 0, // Ethernet header
    0x45, 0, 0, 86, 0, 0, 0, 0, 64, 17, 0, 0, // IPv4 header
    10, 0, 3, 40, 20, 166, 26, 127, // 10.0.3.40 to 20.166.26.127
    0, 0, 0, 0, 0, 0, 0, 0, 34, 0, 0, 0, 200, 0, 0, 0, // the second frame
    2, 0, 0, 0, 0, 2, 2, 0, 0, 0, 0, 1, 8, 0, //
    0x45, 0, 0, 186, 0, 0, 0, 0, 64, 17, 0, 0, //
    10, 21, 90, 98, 20, 0, 2, 183, // 10.21.90.98 to 20.0.2.183
];

// What is read of a capture.
#[derive(Clone, Copy, PartialEq, Eq)]
pub(super) enum Outcome {
    // The numbers of frames and of records, and the place of the cut.
    Taken(u64, usize, Option<u64>),
    // The first fault and its place.
    Refused(FaultKind, u64),
    Failed,
    OutOfMemory,
}

// Reads this much of the capture, with so many zero bytes after it, in pieces of 30 bytes.
fn read(
    alloc: Global,
    length: usize,
    zeros: usize,
    fails: &[u64],
    front: bool,
) -> Result<Outcome, AllocError> {
    let mut bytes = TWO_FRAMES.to_vec(alloc)?;
    bytes.truncate(length);
    let whole = bytes.len().saturating_add(zeros);
    bytes.resize(whole, 0)?;
    let mut source = MemorySource::new(bytes, Vec::from_slice(alloc, fails)?, 30);
    Ok(read_all(alloc, &mut source, front))
}

// A source of any kind keeps what is known of one in memory out of the proof.
pub(super) fn read_all<S: Source>(alloc: Global, source: &mut S, front: bool) -> Outcome {
    match read_records(alloc, source, Weigh::Bytes, front) {
        Ok(records) => Outcome::Taken(records.frames, records.list.len(), records.cut),
        Err(ReadRefusal::Capture(fault)) => Outcome::Refused(fault.kind, fault.place),
        Err(ReadRefusal::ReadFault) => Outcome::Failed,
        Err(ReadRefusal::OutOfMemory) => Outcome::OutOfMemory,
    }
}

// How much of the capture there is, how many zero bytes follow, whether its front is asked for, and what is read.
type Case = (usize, usize, bool, Outcome);

const CASES: [Case; 7] = [
    // The first frame is cut.
    (60, 0, true, Outcome::Taken(0, 0, Some(24))),
    (60, 0, false, Outcome::Refused(FaultKind::CutFrame, 24)),
    // One frame, and the beginning of a second.
    (74, 10, true, Outcome::Taken(1, 1, Some(74))),
    (74, 10, false, Outcome::Refused(FaultKind::CutFrame, 74)),
    // A whole capture has no cut.
    (74, 0, true, Outcome::Taken(1, 1, None)),
    // A file that ends inside its header has no front.
    (20, 0, true, Outcome::Refused(FaultKind::ShortHeader, 20)),
    (20, 0, false, Outcome::Refused(FaultKind::ShortHeader, 20)),
];

#[test]
fn reads_the_front_of_a_cut_capture(rt: HostRuntime) -> Result<(), Fail> {
    assert_eq!(rt; first_wrong_case(rt.alloc(), &CASES)?, None);
    Ok(())
}

fn first_wrong_case(alloc: Global, cases: &[Case]) -> Result<Option<usize>, AllocError> {
    for (place, case) in cases.iter().enumerate() {
        if !is_read(alloc, case)? {
            return Ok(Some(place));
        }
    }
    Ok(None)
}

fn is_read(alloc: Global, (length, zeros, front, want): &Case) -> Result<bool, AllocError> {
    Ok(read(alloc, *length, *zeros, &[], *front)? == *want)
}

#[test]
fn reads_every_beginning(rt: HostRuntime) -> Result<(), Fail> {
    assert_eq!(rt; first_wrong_length(rt.alloc(), true)?, None);
    assert_eq!(rt; first_wrong_length(rt.alloc(), false)?, None);
    Ok(())
}

fn first_wrong_length(alloc: Global, front: bool) -> Result<Option<usize>, AllocError> {
    for length in 0..=124 {
        if read(alloc, length, 0, &[], front)? != outcome_of(length, front) {
            return Ok(Some(length));
        }
    }
    Ok(None)
}

// What the format says of this much of the capture: a header of 24 bytes, and frames of 50 bytes each.
fn outcome_of(length: usize, front: bool) -> Outcome {
    if length < 24 {
        return Outcome::Refused(FaultKind::ShortHeader, length as u64);
    }
    let frames = (length - 24) / 50;
    let end = 24 + frames * 50;
    if end == length {
        return Outcome::Taken(frames as u64, frames, None);
    }
    if front {
        return Outcome::Taken(frames as u64, frames, Some(end as u64));
    }
    Outcome::Refused(FaultKind::CutFrame, end as u64)
}

#[test]
fn a_failed_read_is_no_cut(rt: HostRuntime) -> Result<(), Fail> {
    let outcome = read(rt.alloc(), 60, 0, &[1], true)?;
    assert!(rt; outcome == Outcome::Failed);
    Ok(())
}
