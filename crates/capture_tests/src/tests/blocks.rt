//! The frames of a pcapng capture, or its first fault.

use pcap_frames::{CaptureFault, CaptureReader, FaultKind, FeedFault, Frame, FrameVisitor};
use pcapng_frames::NgReader;
use std::alloc::{AllocError, Global};
use std::test::Fail;

/// A capture of one packet from 10.1.2.3 to 20.1.2.3, 100 bytes long on the wire, on an Ethernet interface.
pub(super) const ONE_PACKET: [u8; 116] = [
    0x0a, 0x0d, 0x0d, 0x0a, 28, 0, 0, 0, // a section header and its length
    0x4d, 0x3c, 0x2b, 0x1a, // byte-order magic, little-endian
    1, 0, 0, 0, // version 1.0
    0xff, 0xff, 0xff, 0xff, 0xff, 0xff, 0xff, 0xff, // section length, not stated
    28, 0, 0, 0, // the length again
    1, 0, 0, 0, 20, 0, 0, 0, // an interface description and its length
    1, 0, 0, 0, // link type, Ethernet
    0, 0, 4, 0, // snaplen
    20, 0, 0, 0, // the length again
    6, 0, 0, 0, 68, 0, 0, 0, // an enhanced packet and its length
    0, 0, 0, 0, // interface
    0, 0, 0, 0, 0, 0, 0, 0, // time
    34, 0, 0, 0, // captured length
    100, 0, 0, 0, // original length
    2, 0, 0, 0, 0, 2, // destination
    2, 0, 0, 0, 0, 1, // source
    8, 0, // type, IPv4
    0x45, 0, 0, 86, 0, 0, 0, 0, 64, 17, 0, 0, // the IPv4 header up to its checksum
    10, 1, 2, 3, // source address
    20, 1, 2, 3, // destination address
    0, 0, // padding
    68, 0, 0, 0, // the length again
];

/// The same in the other byte order, with an interface of another link type first, a packet of each, and a block that is
/// passed over.
pub(super) const BIG_SECTION: [u8; 168] = [
    0x0a, 0x0d, 0x0d, 0x0a, 0, 0, 0, 28, // a section header and its length
    0x1a, 0x2b, 0x3c, 0x4d, // byte-order magic, big-endian
    0, 1, 0, 2, // version 1.2
    0, 0, 0, 0, 0, 0, 0, 1, // section length
    0, 0, 0, 28, // the length again
    0, 0, 0, 1, 0, 0, 0, 20, // an interface description and its length
    0, 101, 0, 0, // link type, raw
    0, 0, 0, 0, // snaplen
    0, 0, 0, 20, // the length again
    0, 0, 0, 1, 0, 0, 0, 20, // an interface description and its length
    0, 1, 0, 0, // link type, Ethernet
    0, 0, 0, 0, // snaplen
    0, 0, 0, 20, // the length again
    0, 0, 0, 5, 0, 0, 0, 16, // interface statistics
    1, 2, 3, 4, // anything
    0, 0, 0, 16, // the length again
    0, 0, 0, 6, 0, 0, 0, 40, // an enhanced packet and its length
    0, 0, 0, 0, // interface, the first
    0, 0, 0, 0, 0, 0, 0, 0, // time
    0, 0, 0, 5, // captured length
    0, 0, 0, 5, // original length
    1, 2, 3, 4, 5, // the packet
    0, 0, 0, // padding
    0, 0, 0, 40, // the length again
    0, 0, 0, 6, 0, 0, 0, 44, // an enhanced packet and its length
    0, 0, 0, 1, // interface, the second
    0, 0, 0, 0, 0, 0, 0, 0, // time
    0, 0, 0, 8, // captured length
    0, 0, 5, 0xdc, // original length, 1,500
    9, 8, 7, 6, 5, 4, 3, 2, // the packet
    0, 0, 0, 0, // no more options
    0, 0, 0, 44, // the length again
];

/// What a visitor saw of a frame: its first two bytes, and its lengths.
#[derive(Clone, Copy, PartialEq, Eq)]
pub(super) struct SeenFrame {
    pub(super) first: u8,
    pub(super) last: u8,
    pub(super) captured: u32,
    pub(super) original: u32,
}

pub(super) const PACKET: SeenFrame = SeenFrame {
    first: 2,
    last: 3,
    captured: 34,
    original: 100,
};

pub(super) const BIG_PACKET: SeenFrame = SeenFrame {
    first: 9,
    last: 2,
    captured: 8,
    original: 1500,
};

/// A visitor that keeps what it saw of the frames, up to a number of them.
#[derive(Drop)]
pub(super) struct Album {
    pub(super) frames: Vec<SeenFrame>,
    room: usize,
}

impl Album {
    pub(super) fn new(alloc: Global, room: usize) -> Album {
        Album {
            frames: Vec::new(alloc),
            room,
        }
    }
}

impl FrameVisitor for Album {
    ghost use Rattle.std.specs.Prelude.{◌≡◌, length, vec_len};

    ghost represents = { λ album frames. vec_len album.frames ≡ length frames };

    fn frame(&mut self, frame: &Frame<'_>) -> Result<(), AllocError> {
        if self.frames.len() == self.room {
            return Err(AllocError);
        }
        self.frames.push(SeenFrame {
            first: frame.head.first().copied().unwrap_or(0),
            last: frame.head.last().copied().unwrap_or(0),
            captured: frame.captured,
            original: frame.original,
        })?;
        Ok(())
    }
}

// These two say less than the reader's contracts, and so keep those out of the proofs of tests.

fn feed(reader: &mut NgReader, album: &mut Album, piece: &[u8]) -> Result<(), FeedFault> {
    reader.feed(piece, album)
}

fn finish(reader: NgReader) -> Result<u64, FeedFault> {
    reader.finish()
}

/// The result of feeding pieces of this length, at least 1, and of the end.
fn read_pieces(
    alloc: Global,
    album: &mut Album,
    file: &[u8],
    length: usize,
) -> Result<u64, FeedFault> {
    let mut reader = NgReader::new(alloc);
    for piece in file.chunks(length.max(1)) {
        feed(&mut reader, album, piece)?;
    }
    finish(reader)
}

/// The result of feeding two pieces, and of the end.
fn read_two(alloc: Global, album: &mut Album, front: &[u8], rest: &[u8]) -> Result<u64, FeedFault> {
    let mut reader = NgReader::new(alloc);
    feed(&mut reader, album, front)?;
    feed(&mut reader, album, rest)?;
    finish(reader)
}

fn is_shown_in_pieces(alloc: Global, file: &[u8], length: usize, frames: &[SeenFrame]) -> bool {
    let mut album = Album::new(alloc, 9);
    let got = read_pieces(alloc, &mut album, file, length);
    got == Ok(frames.len() as u64) && album.frames.as_slice() == frames
}

fn is_shown_in_two(alloc: Global, front: &[u8], rest: &[u8], frames: &[SeenFrame]) -> bool {
    let mut album = Album::new(alloc, 9);
    let got = read_two(alloc, &mut album, front, rest);
    got == Ok(frames.len() as u64) && album.frames.as_slice() == frames
}

/// The first cut into two pieces that isn't read as these frames.
fn first_wrong_cut(alloc: Global, file: &[u8], frames: &[SeenFrame]) -> Option<usize> {
    for cut in 0..file.len() {
        if !is_shown_in_two(alloc, &file[..cut], &file[cut..], frames) {
            return Some(cut);
        }
    }
    None
}

#[test]
fn reads_blocks_whatever_the_cuts(rt: HostRuntime) {
    assert_eq!(rt; first_wrong_cut(rt.alloc(), &ONE_PACKET, &[PACKET]), None);
    assert_eq!(rt;
        first_wrong_cut(rt.alloc(), &BIG_SECTION, &[BIG_PACKET]),
        None
    );
    assert!(rt; is_shown_in_pieces(rt.alloc(), &ONE_PACKET, 1, &[PACKET]));
}

#[test]
fn reads_sections_in_both_orders(rt: HostRuntime) -> Result<(), Fail> {
    assert!(rt; are_sections_read(rt.alloc())?);
    Ok(())
}

fn are_sections_read(alloc: Global) -> Result<bool, AllocError> {
    let mut file = ONE_PACKET.to_vec(alloc)?;
    file.extend_from_slice(&BIG_SECTION)?;
    file.extend_from_slice(&ONE_PACKET)?;
    let frames = [PACKET, BIG_PACKET, PACKET];
    Ok(
        is_shown_in_pieces(alloc, &file, 1, &frames)
            && is_shown_in_pieces(alloc, &file, 400, &frames),
    )
}

/// The number of bytes of the capture, which of them is changed to what, and its fault and the place of that.
type BadFile = (usize, usize, u8, FaultKind, u64);

const BAD_FILES: [BadFile; 16] = [
    (0, 0, 0x0a, FaultKind::CutBlock, 0),
    (4, 0, 0x0a, FaultKind::CutBlock, 0),
    (27, 0, 0x0a, FaultKind::CutBlock, 0),
    (29, 0, 0x0a, FaultKind::CutBlock, 28),
    (100, 0, 0x0a, FaultKind::CutBlock, 48),
    (4, 0, 0xd4, FaultKind::NotCapture, 0),
    (12, 11, 0, FaultKind::ByteOrder, 0),
    (12, 4, 24, FaultKind::BadBlock, 0),
    (14, 12, 2, FaultKind::Version, 0),
    (36, 32, 16, FaultKind::BadBlock, 28),
    (48, 44, 24, FaultKind::BadTail, 28),
    (56, 52, 70, FaultKind::BadBlock, 48),
    (60, 56, 1, FaultKind::BadInterface, 48),
    (72, 68, 37, FaultKind::BadBlock, 48),
    (72, 70, 4, FaultKind::LongFrame, 48),
    (116, 112, 72, FaultKind::BadTail, 48),
];

#[test]
fn finds_the_first_fault_of_blocks(rt: HostRuntime) -> Result<(), Fail> {
    assert_eq!(rt; first_wrong_file(rt.alloc(), &BAD_FILES)?, None);
    Ok(())
}

fn first_wrong_file(alloc: Global, cases: &[BadFile]) -> Result<Option<usize>, AllocError> {
    for (place, case) in cases.iter().enumerate() {
        if !is_fault_found(alloc, *case)? {
            return Ok(Some(place));
        }
    }
    Ok(None)
}

fn is_fault_found(
    alloc: Global,
    (length, changed, byte, kind, place): BadFile,
) -> Result<bool, AllocError> {
    let mut file = ONE_PACKET[..length.min(116)].to_vec(alloc)?;
    if changed < file.len() {
        file[changed] = byte;
    }
    let fault = Err(FeedFault::Refused(CaptureFault { kind, place }));
    Ok(read_whole(alloc, &file, 1) == fault && read_whole(alloc, &file, 116) == fault)
}

fn read_whole(alloc: Global, file: &[u8], length: usize) -> Result<u64, FeedFault> {
    let mut album = Album::new(alloc, 9);
    read_pieces(alloc, &mut album, file, length)
}

#[test]
fn stays_without_memory(rt: HostRuntime) {
    assert!(rt; is_out_of_memory(rt.alloc()));
}

fn is_out_of_memory(alloc: Global) -> bool {
    let mut album = Album::new(alloc, 0);
    read_pieces(alloc, &mut album, &ONE_PACKET, 50) == Err(FeedFault::OutOfMemory)
}
