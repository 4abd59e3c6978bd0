//! The records of a capture's frames, and why a frame has none.

use frame_records::{Records, Skip, Weigh, read_records};
use outside_io::{MemorySource, Source};
use pcap_frames::{CaptureFault, FaultKind, ReadRefusal};
use prefix_lattice::Record;
use std::alloc::{AllocError, Global};
use std::test::Fail;

// The addresses of every packet here: 10.1.2.3 and 20.4.5.6.
const SRC: u32 = 0x0a01_0203;

const DST: u32 = 0x1404_0506;

// What follows the first byte of an IPv4 header with these addresses.
const HEADER_REST: [u8; 19] = [0, 0, 86, 0, 0, 0, 0, 64, 17, 0, 0, 10, 1, 2, 3, 20, 4, 5, 6];

const ADDRESSES: [u8; 12] = [2, 0, 0, 0, 0, 2, 2, 0, 0, 0, 0, 1];

const NO_TAG: &[u8] = &[];

const VLAN: &[u8] = &[0x81, 0, 0, 7];

const SERVICE: &[u8] = &[0x88, 0xa8, 0, 7];

const VLAN_VLAN: &[u8] = &[0x81, 0, 0, 7, 0x81, 0, 0, 8];

const SERVICE_VLAN: &[u8] = &[0x88, 0xa8, 0, 7, 0x81, 0, 0, 8];

const VLAN_SERVICE: &[u8] = &[0x81, 0, 0, 7, 0x88, 0xa8, 0, 8];

const THREE_TAGS: &[u8] = &[0x88, 0xa8, 0, 7, 0x81, 0, 0, 8, 0x81, 0, 0, 9];

const IPV4: [u8; 2] = [8, 0];

const ARP: [u8; 2] = [8, 6];

const IPV6: [u8; 2] = [0x86, 0xdd];

// The parts of a frame: its tags, its type, the first byte after the type, and its captured length.
type FrameLayout = (&'static [u8], [u8; 2], u8, u32);

const PLAIN: FrameLayout = (NO_TAG, IPV4, 0x45, 34);

// The captured bytes. Zeros follow the IPv4 header.
fn captured_bytes(alloc: Global, frame: &FrameLayout) -> Result<Vec<u8>, AllocError> {
    let (tags, kind, first, captured) = *frame;
    let mut bytes = Vec::from_slice(alloc, &ADDRESSES)?;
    bytes.extend_from_slice(tags)?;
    bytes.extend_from_slice(&kind)?;
    bytes.push(first)?;
    bytes.extend_from_slice(&HEADER_REST)?;
    bytes.resize(captured as usize, 0)?;
    Ok(bytes)
}

// A little-endian capture of these frames, which are this long on the wire.
fn capture_of(alloc: Global, frames: &[FrameLayout], original: u32) -> Result<Vec<u8>, AllocError> {
    let mut bytes = Vec::from_slice(alloc, &[0xd4, 0xc3, 0xb2, 0xa1, 2, 0, 4, 0])?;
    bytes.extend_from_slice(&[0, 0, 0, 0, 0, 0, 0, 0, 0, 0, 4, 0, 1, 0, 0, 0])?;
    for frame in frames {
        bytes.extend_from_slice(&[0, 0, 0, 0, 0, 0, 0, 0])?;
        bytes.extend_from_slice(&frame.3.to_le_bytes())?;
        bytes.extend_from_slice(&original.to_le_bytes())?;
        bytes.extend_from_slice(&captured_bytes(alloc, frame)?)?;
    }
    Ok(bytes)
}

// The result of reading a capture: its first record, the numbers of records and of frames skipped as not IPv4, as
// short and for a bad header, and the number of frames.
#[derive(Clone, Copy)]
struct Counted {
    first: Option<Record>,
    records: usize,
    skipped: [u64; 3],
    frames: u64,
}

// Reads a capture of these frames, which are this long on the wire. `None` where it is refused.
fn read(
    alloc: Global,
    frames: &[FrameLayout],
    original: u32,
    weigh: Weigh,
) -> Result<Option<Counted>, AllocError> {
    let bytes = capture_of(alloc, frames, original)?;
    let mut source = MemorySource::new(bytes, Vec::new(alloc), 1000);
    Ok(read_all(alloc, &mut source, weigh))
}

// A source of any kind keeps what is known of one in memory out of the proof.
fn read_all<S: Source>(alloc: Global, source: &mut S, weigh: Weigh) -> Option<Counted> {
    match read_records(alloc, source, weigh, false) {
        Ok(records) => Some(numbers_of(&records)),
        Err(_) => None,
    }
}

fn numbers_of(records: &Records) -> Counted {
    Counted {
        first: records.list.as_slice().first().copied(),
        records: records.list.len(),
        skipped: [records.not_ipv4, records.short, records.bad_header],
        frames: records.frames,
    }
}

// A frame, and how many are skipped for each reason.
type Telling = (FrameLayout, [u64; 3]);

const COUNTS: [u64; 3] = [0, 0, 0];

const NOT_IPV4: [u64; 3] = [1, 0, 0];

const SHORT: [u64; 3] = [0, 1, 0];

const BAD_HEADER: [u64; 3] = [0, 0, 1];

const TELLINGS: [Telling; 30] = [
    // The type ends with byte 13, and the header 20 bytes later.
    ((NO_TAG, IPV4, 0x45, 13), SHORT),
    ((NO_TAG, ARP, 0, 13), SHORT),
    ((NO_TAG, ARP, 0, 14), NOT_IPV4),
    ((NO_TAG, IPV4, 0x45, 14), SHORT),
    ((NO_TAG, IPV4, 0x44, 33), SHORT),
    ((NO_TAG, IPV4, 0x45, 34), COUNTS),
    // A tag moves both by 4 bytes.
    ((VLAN, IPV4, 0x45, 14), SHORT),
    ((VLAN, ARP, 0, 17), SHORT),
    ((VLAN, ARP, 0, 18), NOT_IPV4),
    ((SERVICE, IPV4, 0x45, 18), SHORT),
    ((SERVICE, IPV4, 0x45, 37), SHORT),
    ((SERVICE, IPV4, 0x45, 38), COUNTS),
    ((VLAN, IPV4, 0x45, 38), COUNTS),
    // So does a second tag.
    ((VLAN_VLAN, ARP, 0, 18), SHORT),
    ((VLAN_VLAN, ARP, 0, 21), SHORT),
    ((VLAN_VLAN, ARP, 0, 22), NOT_IPV4),
    ((SERVICE_VLAN, IPV4, 0x45, 22), SHORT),
    ((SERVICE_VLAN, IPV4, 0x45, 41), SHORT),
    ((SERVICE_VLAN, IPV4, 0x45, 42), COUNTS),
    ((VLAN_VLAN, IPV4, 0x45, 42), COUNTS),
    ((VLAN_SERVICE, IPV4, 0x45, 42), COUNTS),
    // A third tag counts as a type of its own.
    ((THREE_TAGS, IPV4, 0x45, 22), NOT_IPV4),
    ((THREE_TAGS, IPV4, 0x45, 46), NOT_IPV4),
    // Version and header length.
    ((NO_TAG, IPV4, 0x44, 34), BAD_HEADER),
    ((NO_TAG, IPV4, 0x65, 34), BAD_HEADER),
    ((VLAN, IPV4, 0x35, 38), BAD_HEADER),
    ((SERVICE_VLAN, IPV4, 0x40, 42), BAD_HEADER),
    ((NO_TAG, IPV4, 0x46, 38), COUNTS),
    ((NO_TAG, IPV4, 0x4f, 34), COUNTS),
    ((NO_TAG, IPV6, 0x60, 54), NOT_IPV4),
];

#[test]
fn tells_a_record_or_why_there_is_none(rt: HostRuntime) -> Result<(), Fail> {
    assert_eq!(rt; first_wrong_telling(rt.alloc(), &TELLINGS)?, None);
    Ok(())
}

fn first_wrong_telling(alloc: Global, cases: &[Telling]) -> Result<Option<usize>, Fail> {
    for (place, case) in cases.iter().enumerate() {
        if !is_told(alloc, *case)? {
            return Ok(Some(place));
        }
    }
    Ok(None)
}

fn is_told(alloc: Global, (frame, want): Telling) -> Result<bool, Fail> {
    let read = read(alloc, &[frame], 100, Weigh::Bytes)?.ok_or("refused")?;
    Ok(read.skipped == want && (read.records == 1) == (want == COUNTS))
}

// A length on the wire, and the weight by bytes.
type Weighing = (u32, u32);

const WEIGHINGS: [Weighing; 5] = [(0, 34), (33, 34), (34, 34), (35, 35), (u32::MAX, u32::MAX)];

#[test]
fn weighs_by_the_greater_length_or_by_one(rt: HostRuntime) -> Result<(), Fail> {
    assert_eq!(rt; first_wrong_weight(rt.alloc(), &WEIGHINGS)?, None);
    Ok(())
}

fn first_wrong_weight(alloc: Global, cases: &[Weighing]) -> Result<Option<usize>, Fail> {
    for (place, (original, weight)) in cases.iter().enumerate() {
        if !weighs(alloc, *original, Weigh::Bytes, *weight)?
            || !weighs(alloc, *original, Weigh::Packets, 1)?
        {
            return Ok(Some(place));
        }
    }
    Ok(None)
}

// Whether a frame of this length on the wire has this weight.
fn weighs(alloc: Global, original: u32, weigh: Weigh, weight: u32) -> Result<bool, Fail> {
    let read = read(alloc, &[PLAIN], original, weigh)?.ok_or("refused")?;
    Ok(read.first == Record::new(SRC, DST, weight))
}

const FRAMES: [FrameLayout; 8] = [
    (NO_TAG, IPV4, 0x45, 34),
    (VLAN, IPV4, 0x45, 38),
    (SERVICE_VLAN, IPV4, 0x45, 42),
    (NO_TAG, ARP, 0, 42),
    (NO_TAG, IPV6, 0x60, 54),
    (THREE_TAGS, IPV4, 0x45, 46),
    (NO_TAG, IPV4, 0x45, 33),
    (NO_TAG, IPV4, 0x44, 34),
];

#[test]
fn reads_the_records_of_a_capture(rt: HostRuntime) -> Result<(), Fail> {
    assert!(rt; three_records_are_read(rt.alloc())?);
    Ok(())
}

fn three_records_are_read(alloc: Global) -> Result<bool, Fail> {
    let read = read(alloc, &FRAMES, 100, Weigh::Bytes)?.ok_or("refused")?;
    Ok(
        read.first == Record::new(SRC, DST, 100)
            && read.records == 3
            && read.skipped == [3, 1, 1]
            && read.frames == 8,
    )
}

// Why a capture of one frame is refused, of which this many bytes stand, and of whose calls these fail.
fn refusal_of(
    alloc: Global,
    length: usize,
    fails: &[u64],
) -> Result<Option<ReadRefusal>, AllocError> {
    let mut bytes = capture_of(alloc, &[PLAIN], 100)?;
    bytes.truncate(length);
    let mut source = MemorySource::new(bytes, Vec::from_slice(alloc, fails)?, 30);
    Ok(read_records(alloc, &mut source, Weigh::Bytes, false).err())
}

const CUT_FRAME: ReadRefusal = ReadRefusal::Capture(CaptureFault {
    kind: FaultKind::CutFrame,
    place: 24,
});

#[test]
fn refuses_what_the_reader_refuses(rt: HostRuntime) -> Result<(), Fail> {
    assert!(rt; are_refused(rt.alloc())?);
    Ok(())
}

fn are_refused(alloc: Global) -> Result<bool, AllocError> {
    Ok(
        refusal_of(alloc, 74, &[2])? == Some(ReadRefusal::ReadFault)
            && refusal_of(alloc, 73, &[])? == Some(CUT_FRAME),
    )
}

// Why a frame is skipped, and the text of it.
type Told = (Skip, &'static str);

const SKIPS: [Told; 3] = [
    (Skip::NotIpv4, "not IPv4"),
    (Skip::Short, "short"),
    (Skip::BadHeader, "bad header"),
];

#[test]
fn texts(rt: HostRuntime) -> Result<(), Fail> {
    assert_eq!(rt; first_wrong_text(rt.alloc(), &SKIPS)?, None);
    Ok(())
}

fn first_wrong_text(alloc: Global, cases: &[Told]) -> Result<Option<usize>, Fail> {
    for (place, (skip, text)) in cases.iter().enumerate() {
        if !has_text(alloc, skip, text)? {
            return Ok(Some(place));
        }
    }
    Ok(None)
}

fn has_text(alloc: Global, skip: &Skip, text: &str) -> Result<bool, Fail> {
    let told = format!(in alloc; "{skip}")?;
    Ok(told.as_str() == text)
}
