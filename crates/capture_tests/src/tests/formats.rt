//! Captures of both formats, read from a source, whole or up to a cut.

ghost use Rattle.std.specs.Prelude.{◌≤◌};

use super::blocks::{Album, BIG_PACKET, BIG_SECTION, ONE_PACKET, PACKET, SeenFrame};
use super::fronts::{Outcome, TWO_FRAMES, read_all};
use outside_io::{MemorySource, Source};
use pcap_frames::{FaultKind, ReadRefusal};
use pcapng_frames::read_any;
use std::alloc::{AllocError, Global};
use std::test::Fail;

/// Two packets of the section before: one with an option and a byte of padding, and one in a block that isn't read.
const MORE_BLOCKS: [u8; 76] = [
    0, 0, 0, 6, 0, 0, 0, 52, // an enhanced packet and its length
    0, 0, 0, 1, // interface, the second
    0, 0, 0, 0, 0, 0, 0, 0, // time
    0, 0, 0, 7, // captured length
    0, 0, 0, 9, // original length
    9, 8, 7, 6, 5, 4, 2, 0, // the packet, and padding
    0, 1, 0, 3, 97, 98, 99, 0, // a comment
    0, 0, 0, 0, // no more options
    0, 0, 0, 52, // the length again
    0, 0, 0, 3, 0, 0, 0, 24, // a simple packet and its length
    0, 0, 0, 8, // original length
    9, 8, 7, 6, 5, 4, 3, 2, // the packet
    0, 0, 0, 24, // the length again
];

const SHORT_PACKET: SeenFrame = SeenFrame {
    first: 9,
    last: 2,
    captured: 7,
    original: 9,
};

/// Where the blocks of both sections end, and how many frames and records come before.
const ENDS: [(usize, u64, usize); 14] = [
    (28, 0, 0),
    (48, 0, 0),
    (116, 1, 1),
    (144, 1, 1),
    (164, 1, 1),
    (184, 1, 1),
    (200, 1, 1),
    (240, 1, 1),
    (284, 2, 1),
    (336, 3, 1),
    (360, 3, 1),
    (388, 3, 1),
    (408, 3, 1),
    (476, 4, 2),
];

/// Sections in both byte orders, with interfaces of two link types, options, blocks that are passed over, and 0 to 3
/// bytes of padding.
fn sections(alloc: Global) -> Result<Vec<u8>, AllocError> {
    let mut file = ONE_PACKET.to_vec(alloc)?;
    file.extend_from_slice(&BIG_SECTION)?;
    file.extend_from_slice(&MORE_BLOCKS)?;
    file.extend_from_slice(&ONE_PACKET)?;
    Ok(file)
}

// A source of any kind keeps what is known of one in memory out of the proof.
fn read_frames<S: Source>(
    alloc: Global,
    source: &mut S,
    album: &mut Album,
) -> Result<u64, ReadRefusal> {
    let mut buffer = [0; 50];
    read_any(alloc, source, album, &mut buffer)
}

/// Whether a file gives these frames to a source that gives so many bytes a call.
fn is_read(
    alloc: Global,
    file: &[u8],
    step: usize,
    frames: &[SeenFrame],
) -> Result<bool, AllocError>
    requires { 1 ≤ step }
{
    let mut source = MemorySource::new(file.to_vec(alloc)?, Vec::new(alloc), step);
    let mut album = Album::new(alloc, 9);
    let got = read_frames(alloc, &mut source, &mut album);
    Ok(got == Ok(frames.len() as u64) && album.frames.as_slice() == frames)
}

/// The first step, up to the length of the file, with which it isn't read as these frames.
fn first_wrong_step(
    alloc: Global,
    file: &[u8],
    frames: &[SeenFrame],
) -> Result<Option<usize>, AllocError> {
    for step in 1..=file.len() {
        if !is_read(alloc, file, step, frames)? {
            return Ok(Some(step));
        }
    }
    Ok(None)
}

const FRAMES: [SeenFrame; 2] = [
    SeenFrame {
        first: 2,
        last: 127,
        captured: 34,
        original: 100,
    },
    SeenFrame {
        first: 2,
        last: 183,
        captured: 34,
        original: 200,
    },
];

#[test]
fn reads_both_formats_by_any_step(rt: HostRuntime) -> Result<(), Fail> {
    let alloc = rt.alloc();
    assert_eq!(rt; first_wrong_step(alloc, &TWO_FRAMES, &FRAMES)?, None);
    assert_eq!(rt; first_wrong_step(alloc, &ONE_PACKET, &[PACKET])?, None);
    let all = [PACKET, BIG_PACKET, SHORT_PACKET, PACKET];
    assert_eq!(rt; first_wrong_step(alloc, &sections(alloc)?, &all)?, None);
    Ok(())
}

/// What is read of a file whose calls may fail, by this step.
fn outcome(
    alloc: Global,
    file: &[u8],
    step: usize,
    fails: &[u64],
    front: bool,
) -> Result<Outcome, AllocError>
    requires { 1 ≤ step }
{
    let fails = Vec::from_slice(alloc, fails)?;
    let mut source = MemorySource::new(file.to_vec(alloc)?, fails, step);
    Ok(read_all(alloc, &mut source, front))
}

/// The first beginning of the sections that isn't read as the format says.
fn first_wrong_length(alloc: Global, front: bool) -> Result<Option<usize>, AllocError> {
    let file = sections(alloc)?;
    for length in 0..=file.len() {
        let (beginning, _) = file.split_at(length);
        if outcome(alloc, beginning, 7, &[], front)? != outcome_of(length, front) {
            return Ok(Some(length));
        }
    }
    Ok(None)
}

/// What the format says of this much of the sections.
fn outcome_of(length: usize, front: bool) -> Outcome {
    if length < 4 {
        return Outcome::Refused(FaultKind::ShortHeader, length as u64);
    }
    let (end, frames, records) = last_end(length);
    if end == length {
        return Outcome::Taken(frames, records, None);
    }
    if front {
        return Outcome::Taken(frames, records, Some(end as u64));
    }
    Outcome::Refused(FaultKind::CutBlock, end as u64)
}

fn last_end(length: usize) -> (usize, u64, usize) {
    let mut last = (0, 0, 0);
    for end in ENDS {
        if end.0 <= length {
            last = end;
        }
    }
    last
}

#[test]
fn reads_every_beginning_of_sections(rt: HostRuntime) -> Result<(), Fail> {
    assert_eq!(rt; first_wrong_length(rt.alloc(), true)?, None);
    assert_eq!(rt; first_wrong_length(rt.alloc(), false)?, None);
    Ok(())
}

/// How many bytes there are of the capture of one packet, which of them is changed to what, whether the front is asked
/// for, and what is read.
type Case = (usize, usize, u8, bool, Outcome);

const CASES: [Case; 13] = [
    (116, 0, 0x0a, false, Outcome::Taken(1, 1, None)),
    (116, 0, 0x0a, true, Outcome::Taken(1, 1, None)),
    (
        100,
        0,
        0x0a,
        false,
        Outcome::Refused(FaultKind::CutBlock, 48),
    ),
    (100, 0, 0x0a, true, Outcome::Taken(0, 0, Some(48))),
    (4, 0, 0x0a, false, Outcome::Refused(FaultKind::CutBlock, 0)),
    (
        116,
        56,
        1,
        true,
        Outcome::Refused(FaultKind::BadInterface, 48),
    ),
    (116, 112, 72, true, Outcome::Refused(FaultKind::BadTail, 48)),
    (116, 68, 37, true, Outcome::Refused(FaultKind::BadBlock, 48)),
    (116, 36, 101, false, Outcome::Taken(0, 0, None)),
    (116, 8, 0, true, Outcome::Refused(FaultKind::ByteOrder, 0)),
    (116, 12, 2, true, Outcome::Refused(FaultKind::Version, 0)),
    (
        116,
        3,
        0x0b,
        true,
        Outcome::Refused(FaultKind::NotCapture, 0),
    ),
    (
        3,
        0,
        0x0a,
        true,
        Outcome::Refused(FaultKind::ShortHeader, 3),
    ),
];

#[test]
fn reads_a_pcapng_capture_or_its_first_fault(rt: HostRuntime) -> Result<(), Fail> {
    assert_eq!(rt; first_wrong_case(rt.alloc(), &CASES)?, None);
    Ok(())
}

fn first_wrong_case(alloc: Global, cases: &[Case]) -> Result<Option<usize>, AllocError> {
    for (place, case) in cases.iter().enumerate() {
        if !is_case_read(alloc, *case)? {
            return Ok(Some(place));
        }
    }
    Ok(None)
}

fn is_case_read(
    alloc: Global,
    (length, changed, byte, front, want): Case,
) -> Result<bool, AllocError> {
    let mut file = ONE_PACKET[..length.min(116)].to_vec(alloc)?;
    if changed < file.len() {
        file[changed] = byte;
    }
    Ok(
        outcome(alloc, &file, 116, &[], front)? == want
            && outcome(alloc, &file, 1, &[], front)? == want,
    )
}

#[test]
fn reads_one_capture_after_another(rt: HostRuntime) -> Result<(), Fail> {
    assert!(rt; are_both_read(rt.alloc())?);
    Ok(())
}

fn are_both_read(alloc: Global) -> Result<bool, AllocError> {
    let mut file = ONE_PACKET.to_vec(alloc)?;
    file.extend_from_slice(&ONE_PACKET)?;
    Ok(outcome(alloc, &file, 50, &[], false)? == Outcome::Taken(2, 2, None))
}

/// A call that fails among the first four bytes, and one behind them.
#[test]
fn fails_where_the_source_fails(rt: HostRuntime) -> Result<(), Fail> {
    assert!(rt; outcome(rt.alloc(), &ONE_PACKET, 1, &[2], true)? == Outcome::Failed);
    assert!(rt; outcome(rt.alloc(), &ONE_PACKET, 50, &[2], true)? == Outcome::Failed);
    Ok(())
}
