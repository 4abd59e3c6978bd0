//! The frames of a capture, or its first fault.

ghost use Rattle.std.specs.Prelude.{◌<◌, length};

use outside_io::{MemorySource, Source};
use pcap_frames::{
    CaptureFault, CaptureReader, FaultKind, FeedFault, Frame, FrameReader, FrameVisitor,
    ReadRefusal, read_frames,
};
use std::alloc::{AllocError, Global};
use std::fmt::Display;
use std::test::Fail;

/// A capture of one frame: an IPv4 packet from 10.1.2.3 to 20.1.2.3, 100 bytes long on the wire.
const ONE_FRAME: [u8; 74] = [
    0xd4, 0xc3, 0xb2, 0xa1, // magic, little-endian, microseconds
    2, 0, 4, 0, // version 2.4
    0, 0, 0, 0, // thiszone
    0, 0, 0, 0, // sigfigs
    0, 0, 4, 0, // snaplen
    1, 0, 0, 0, // link type, Ethernet
    0, 0, 0, 0, // ts_sec
    0, 0, 0, 0, // ts_sub
    34, 0, 0, 0, // incl_len
    100, 0, 0, 0, // orig_len
    2, 0, 0, 0, 0, 2, // destination
    2, 0, 0, 0, 0, 1, // source
    8, 0, // type, IPv4
    0x45, 0, 0, 86, 0, 0, 0, 0, 64, 17, 0, 0, // the IPv4 header up to its checksum
    10, 1, 2, 3, // source address
    20, 1, 2, 3, // destination address
];

/// The first 40 bytes of the same capture with its numbers in the other order.
const BIG_FRONT: [u8; 40] = [
    0xa1, 0xb2, 0x3c, 0x4d, // magic, big-endian, nanoseconds
    0, 2, 0, 4, // version 2.4
    0, 0, 0, 0, // thiszone
    0, 0, 0, 0, // sigfigs
    0, 4, 0, 0, // snaplen
    0, 0, 0, 1, // link type, Ethernet
    0, 0, 0, 0, // ts_sec
    0, 0, 0, 0, // ts_sub
    0, 0, 0, 34, // incl_len
    0, 0, 0, 100, // orig_len
];

/// A capture of a tagged frame of 46 captured bytes and an ARP frame of 28.
const TAGGED_AND_ARP: [u8; 130] = [
    0xa1, 0xb2, 0xc3, 0xd4, // magic, big-endian, microseconds
    0, 2, 0, 4, // version 2.4
    0xff, 0xff, 0xff, 0xff, // thiszone
    1, 2, 3, 4, // sigfigs
    0, 0, 0, 96, // snaplen
    0, 0, 0, 1, // link type, Ethernet
    0, 0, 0, 1, 0, 0, 0, 2, // ts_sec, ts_sub
    0, 0, 0, 46, // incl_len
    0, 0, 5, 0xdc, // orig_len, 1,500
    2, 0, 0, 0, 0, 2, 2, 0, 0, 0, 0, 1, // destination, source
    0x81, 0, 0, 7, // VLAN tag
    8, 0, // type, IPv4
    0x45, 0, 5, 0xca, 0, 1, 0x40, 0, 64, 6, 0, 0, // the IPv4 header up to its checksum
    192, 0, 2, 1, 198, 51, 100, 2, // source and destination address
    0, 80, 4, 210, 0, 0, 0, 9, // the front of the TCP header
    0, 0, 0, 3, 0, 0, 0, 4, // ts_sec, ts_sub
    0, 0, 0, 28, // incl_len
    0, 0, 0, 42, // orig_len
    0xff, 0xff, 0xff, 0xff, 0xff, 0xff, 2, 0, 0, 0, 0, 1, // destination, source
    8, 6, // type, ARP
    0, 1, 8, 0, 6, 4, 0, 1, 2, 0, 0, 0, 0, 1, // the front of the ARP request
];

/// What a visitor saw of a frame: its head, padded with zeros, and its lengths.
#[derive(Clone, Copy, PartialEq, Eq)]
struct SeenFrame {
    head: [u8; 42],
    captured: u32,
    original: u32,
}

/// A visitor that keeps the frames that it is shown, up to a number of them.
#[derive(Drop)]
struct Album {
    frames: Vec<SeenFrame>,
    room: usize,
}

impl Album {
    fn new(alloc: Global, room: usize) -> Album {
        Album {
            frames: Vec::new(alloc),
            room,
        }
    }
}

impl FrameVisitor for Album {
    ghost use Rattle.std.specs.Prelude.{◌≡◌, length, vec_len};

    ghost represents = { λ album frames. vec_len album.frames ≡ length frames };

    fn frame(&mut self, frame: &Frame<'_>) -> Result<(), AllocError> {
        if self.frames.len() == self.room {
            return Err(AllocError);
        }
        let mut head = [0; 42];
        head[..frame.head.len()].copy_from_slice(frame.head);
        self.frames.push(SeenFrame {
            head,
            captured: frame.captured,
            original: frame.original,
        })?;
        Ok(())
    }
}

// These three say less than the reader's contracts, and so keep those out of the proofs of tests.

fn read<S: Source>(source: &mut S, album: &mut Album, buffer: &mut [u8]) -> Result<u64, ReadRefusal>
    requires { 0 < length buffer.old }
{
    read_frames(source, album, buffer)
}

fn feed(reader: &mut FrameReader, album: &mut Album, piece: &[u8]) -> Result<(), FeedFault> {
    reader.feed(piece, album)
}

fn finish(reader: FrameReader) -> Result<u64, FeedFault> {
    reader.finish()
}

fn refused(kind: FaultKind, place: u64) -> Result<u64, ReadRefusal> {
    Err(ReadRefusal::Capture(CaptureFault { kind, place }))
}

/// The bytes at the front of a file, with one byte changed.
fn changed(alloc: Global, file: &[u8], place: usize, byte: u8) -> Result<Vec<u8>, AllocError> {
    let mut bytes = file.to_vec(alloc)?;
    if place < bytes.len() {
        bytes[place] = byte;
    }
    Ok(bytes)
}

/// The number of bytes of a capture, which of them is changed to what, and its fault and the place of that.
type BadFile = (usize, usize, u8, FaultKind, u64);

const BAD_FILES: [BadFile; 8] = [
    (0, 0, 0xd4, FaultKind::ShortHeader, 0),
    (23, 0, 0xd4, FaultKind::ShortHeader, 23),
    (4, 0, 0x1f, FaultKind::NotCapture, 0),
    (8, 6, 3, FaultKind::Version, 4),
    (74, 20, 101, FaultKind::Link, 20),
    (74, 23, 0x10, FaultKind::Link, 20),
    (30, 0, 0xd4, FaultKind::CutFrame, 24),
    (60, 0, 0xd4, FaultKind::CutFrame, 24),
];

#[test]
fn reads_one_frame_or_its_first_fault(rt: HostRuntime) -> Result<(), Fail> {
    assert_eq!(rt; first_wrong_file(rt.alloc(), &BAD_FILES)?, None);
    assert!(rt; is_read(rt.alloc(), 24, 0)?);
    assert!(rt; is_read(rt.alloc(), 74, 1)?);
    Ok(())
}

fn first_wrong_file(alloc: Global, cases: &[BadFile]) -> Result<Option<usize>, AllocError> {
    for (place, case) in cases.iter().enumerate() {
        if !is_fault_found(alloc, *case)? {
            return Ok(Some(place));
        }
    }
    Ok(None)
}

fn is_fault_found(
    alloc: Global,
    (length, place, byte, kind, fault_place): BadFile,
) -> Result<bool, AllocError> {
    let file = changed(alloc, &ONE_FRAME[..length.min(74)], place, byte)?;
    Ok(read_file(alloc, file) == (refused(kind, fault_place), 0))
}

/// Whether the front of this length has this many frames, which the visitor saw.
fn is_read(alloc: Global, length: usize, frames: usize) -> Result<bool, AllocError> {
    let file = ONE_FRAME[..length.min(74)].to_vec(alloc)?;
    Ok(read_file(alloc, file) == (Ok(frames as u64), frames))
}

/// The result of reading a file, and the number of frames that the visitor saw.
fn read_file(alloc: Global, file: Vec<u8>) -> (Result<u64, ReadRefusal>, usize) {
    let mut source = MemorySource::new(file, Vec::new(alloc), 100);
    read_source(alloc, &mut source, &mut [0; 1])
}

/// The same of a source of any kind, which keeps what is known of one in memory out of the proof.
fn read_source<S: Source>(
    alloc: Global,
    source: &mut S,
    buffer: &mut [u8],
) -> (Result<u64, ReadRefusal>, usize)
    requires { 0 < length buffer.old }
{
    let mut album = Album::new(alloc, 9);
    let got = read(source, &mut album, buffer);
    (got, album.frames.len())
}

/// A magic, and a capture with the numbers that follow it.
type Spelling = ([u8; 4], &'static [u8]);

const SPELLINGS: [Spelling; 4] = [
    ([0xa1, 0xb2, 0xc3, 0xd4], &BIG_FRONT),
    ([0xa1, 0xb2, 0x3c, 0x4d], &BIG_FRONT),
    ([0xd4, 0xc3, 0xb2, 0xa1], &ONE_FRAME),
    ([0x4d, 0x3c, 0xb2, 0xa1], &ONE_FRAME),
];

#[test]
fn reads_four_spellings(rt: HostRuntime) -> Result<(), Fail> {
    assert_eq!(rt; first_wrong_spelling(rt.alloc(), &SPELLINGS)?, None);
    Ok(())
}

fn first_wrong_spelling(alloc: Global, cases: &[Spelling]) -> Result<Option<usize>, AllocError> {
    for (place, (magic, numbers)) in cases.iter().enumerate() {
        if !is_spelling_read(alloc, magic, numbers)? {
            return Ok(Some(place));
        }
    }
    Ok(None)
}

fn is_spelling_read(alloc: Global, magic: &[u8; 4], numbers: &[u8]) -> Result<bool, AllocError> {
    if numbers.len() < 40 {
        return Ok(false);
    }
    let mut file = magic.to_vec(alloc)?;
    file.extend_from_slice(&numbers[4..40])?;
    file.extend_from_slice(&ONE_FRAME[40..])?;
    Ok(is_one_frame(alloc, &file))
}

fn is_one_frame(alloc: Global, file: &[u8]) -> bool {
    let mut reader = FrameReader::new();
    let mut album = Album::new(alloc, 9);
    let fed = feed(&mut reader, &mut album, file);
    let frames = finish(reader);
    fed.is_ok() && matches!(frames, Ok(1)) && shows_the_frame(&album.frames)
}

fn shows_the_frame(frames: &[SeenFrame]) -> bool {
    if frames.len() != 1 {
        return false;
    }
    let seen = frames[0];
    seen.captured == 34 && seen.original == 100 && seen.head.starts_with(&ONE_FRAME[40..])
}

#[test]
fn reads_the_longest_frame(rt: HostRuntime) -> Result<(), Fail> {
    assert!(rt; frames_are_limited(rt.alloc())?);
    Ok(())
}

// 262,144 captured bytes are read, and one more is a fault.
fn frames_are_limited(alloc: Global) -> Result<bool, AllocError> {
    Ok(read_long(alloc, 0)? == Ok(1) && read_long(alloc, 1)? == refused(FaultKind::LongFrame, 24))
}

/// The result of reading a frame of this many bytes beyond 262,144.
fn read_long(alloc: Global, low: u8) -> Result<Result<u64, ReadRefusal>, AllocError> {
    let mut file = ONE_FRAME.to_vec(alloc)?;
    file.truncate(40);
    file[32] = low;
    file[34] = 4;
    file.resize(40 + 262_144 + low as usize, 7)?;
    let mut source = MemorySource::new(file, Vec::new(alloc), 65_536);
    Ok(read_source(alloc, &mut source, &mut [0; 4096]).0)
}

/// The frames of the second capture.
const TAGGED: SeenFrame = SeenFrame {
    head: [
        2, 0, 0, 0, 0, 2, 2, 0, 0, 0, 0, 1, 0x81, 0, 0, 7, 8, 0, 0x45, 0, 5, 0xca, 0, 1, 0x40, 0,
        64, 6, 0, 0, 192, 0, 2, 1, 198, 51, 100, 2, 0, 80, 4, 210,
    ],
    captured: 46,
    original: 1500,
};

const ARP: SeenFrame = SeenFrame {
    head: [
        0xff, 0xff, 0xff, 0xff, 0xff, 0xff, 2, 0, 0, 0, 0, 1, 8, 6, 0, 1, 8, 0, 6, 4, 0, 1, 2, 0,
        0, 0, 0, 1, 0, 0, 0, 0, 0, 0, 0, 0, 0, 0, 0, 0, 0, 0,
    ],
    captured: 28,
    original: 42,
};

const SEEN: [SeenFrame; 2] = [TAGGED, ARP];

#[test]
fn reads_the_same_whatever_the_cuts(rt: HostRuntime) {
    assert_eq!(rt; first_wrong_cut(rt.alloc(), &TAGGED_AND_ARP), None);
}

fn first_wrong_cut(alloc: Global, bytes: &[u8]) -> Option<usize> {
    for cut in 0..131usize {
        if cut > bytes.len() || !is_read_in_two(alloc, &bytes[..cut], &bytes[cut..]) {
            return Some(cut);
        }
    }
    None
}

fn is_read_in_two(alloc: Global, front: &[u8], rest: &[u8]) -> bool {
    let mut album = Album::new(alloc, 9);
    let fed = feed_two(&mut album, front, rest);
    fed == (Ok(()), Ok(()), Ok(2)) && album.frames.as_slice() == SEEN.as_slice()
}

type FedTwo = (
    Result<(), FeedFault>,
    Result<(), FeedFault>,
    Result<u64, FeedFault>,
);

/// The results of feeding two pieces and of the end.
fn feed_two(album: &mut Album, front: &[u8], rest: &[u8]) -> FedTwo {
    let mut reader = FrameReader::new();
    let first = feed(&mut reader, album, front);
    let second = feed(&mut reader, album, rest);
    (first, second, finish(reader))
}

#[test]
fn reads_the_same_byte_by_byte(rt: HostRuntime) {
    assert!(rt; is_read_by_bytes(rt.alloc(), &TAGGED_AND_ARP));
}

fn is_read_by_bytes(alloc: Global, bytes: &[u8]) -> bool {
    let mut reader = FrameReader::new();
    let mut album = Album::new(alloc, 9);
    let has_fault = has_fault(&mut reader, &mut album, bytes);
    let frames = finish(reader);
    !has_fault && matches!(frames, Ok(2)) && album.frames.as_slice() == SEEN.as_slice()
}

/// Whether a byte of these is refused.
fn has_fault(reader: &mut FrameReader, album: &mut Album, bytes: &[u8]) -> bool {
    for byte in bytes {
        if feed(reader, album, &[*byte]).is_err() {
            return true;
        }
    }
    false
}

// The second call of the source fails.
#[test]
fn stops_at_a_read_fault(rt: HostRuntime) -> Result<(), Fail> {
    assert!(rt; a_read_fault_stops(rt.alloc())?);
    Ok(())
}

fn a_read_fault_stops(alloc: Global) -> Result<bool, AllocError> {
    let file = TAGGED_AND_ARP.to_vec(alloc)?;
    let mut source = MemorySource::new(file, [1].to_vec(alloc)?, 100);
    let read = read_source(alloc, &mut source, &mut [0; 100]);
    Ok(read == (Err(ReadRefusal::ReadFault), 1))
}

// The visitor has room for one frame.
#[test]
fn stops_without_memory(rt: HostRuntime) {
    assert!(rt; no_memory_stops(rt.alloc()));
}

fn no_memory_stops(alloc: Global) -> bool {
    let mut album = Album::new(alloc, 1);
    let fed = feed_two(&mut album, &TAGGED_AND_ARP, &[]);
    fed == (
        Err(FeedFault::OutOfMemory),
        Err(FeedFault::OutOfMemory),
        Err(FeedFault::OutOfMemory),
    ) && album.frames.len() == 1
}

const NO_CAPTURE: FeedFault = FeedFault::Refused(CaptureFault {
    kind: FaultKind::NotCapture,
    place: 0,
});

// A fault persists, and the bytes after it are ignored.
#[test]
fn stops_at_a_fault(rt: HostRuntime) {
    assert!(rt; a_fault_stops(rt.alloc()));
}

fn a_fault_stops(alloc: Global) -> bool {
    let mut album = Album::new(alloc, 9);
    let fed = feed_two(&mut album, &[0x1f, 0x8b, 8, 0], &TAGGED_AND_ARP);
    fed == (Err(NO_CAPTURE), Err(NO_CAPTURE), Err(NO_CAPTURE)) && album.frames.is_empty()
}

/// A kind of fault, and its text.
type Told = (FaultKind, &'static str);

const KINDS: [Told; 7] = [
    (FaultKind::ShortHeader, "short header"),
    (FaultKind::NotCapture, "not a capture"),
    (FaultKind::Version, "version"),
    (FaultKind::Link, "link"),
    (FaultKind::LongFrame, "long frame"),
    (FaultKind::CutFrame, "cut frame"),
    (FaultKind::TooManyFrames, "too many frames"),
];

const CUT_FRAME: CaptureFault = CaptureFault {
    kind: FaultKind::CutFrame,
    place: 24,
};

#[test]
fn texts(rt: HostRuntime) -> Result<(), Fail> {
    assert_eq!(rt; first_wrong_kind(rt.alloc(), &KINDS)?, None);
    assert!(rt; faults_are_told(rt.alloc())?);
    Ok(())
}

fn first_wrong_kind(alloc: Global, cases: &[Told]) -> Result<Option<usize>, Fail> {
    for (place, (kind, text)) in cases.iter().enumerate() {
        if !is_told(alloc, kind, text)? {
            return Ok(Some(place));
        }
    }
    Ok(None)
}

fn faults_are_told(alloc: Global) -> Result<bool, Fail> {
    Ok(
        is_told(alloc, &CUT_FRAME, "cut frame at 24")?
            && is_told(alloc, &FeedFault::Refused(CUT_FRAME), "cut frame at 24")?
            && is_told(alloc, &FeedFault::OutOfMemory, "out of memory")?
            && is_told(alloc, &ReadRefusal::Capture(CUT_FRAME), "cut frame at 24")?
            && is_told(alloc, &ReadRefusal::ReadFault, "read fault")?
            && is_told(alloc, &ReadRefusal::OutOfMemory, "out of memory")?,
    )
}

fn is_told(alloc: Global, value: &impl Display, text: &str) -> Result<bool, Fail> {
    let told = format!(in alloc; "{value}")?;
    Ok(told.as_str() == text)
}
