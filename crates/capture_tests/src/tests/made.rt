//! The bytes of made traffic, and its writing.

ghost use Rattle.std.specs.Prelude.{◌≤◌};

use outside_io::MemorySink;
use std::alloc::Global;
use std::test::Fail;
use traffic_maker::{make, make_bytes};

// The header and the first frame that seed 7 makes.
const ONE_FRAME: [u8; 74] = [
    0xd4, 0xc3, 0xb2, 0xa1, 2, 0, 4, 0, // magic, version 2.4
    0, 0, 0, 0, 0, 0, 0, 0, // time zone, accuracy
    0, 0, 4, 0, 1, 0, 0, 0, // snapshot length, Ethernet
    0, 0, 0, 0, 0, 0, 0, 0, 34, 0, 0, 0, 100, 0, 0, 0, // time, captured, length
    2, 0, 0, 0, 0, 2, 2, 0, 0, 0, 0, 1, 8, 0, // Ethernet header
    0x45, 0, 0, 86, 0, 0, 0, 0, 64, 17, 0, 0, // IPv4 header
    10, 0, 3, 40, 20, 166, 26, 127, // 10.0.3.40 to 20.166.26.127
];

// The addresses of eight frames that seed 7 makes, and of three that the greatest seed makes, as a program in Python
// draws them.
const BY_SEVEN: [[u8; 8]; 8] = [
    [10, 0, 3, 40, 20, 166, 26, 127],
    [10, 21, 90, 98, 20, 0, 2, 183],
    [10, 0, 1, 113, 20, 0, 0, 1],
    [10, 0, 3, 127, 20, 0, 2, 112],
    [10, 55, 225, 182, 20, 169, 76, 237],
    [10, 0, 0, 204, 20, 36, 19, 102],
    [10, 0, 0, 1, 20, 176, 168, 225],
    [10, 0, 0, 1, 20, 0, 0, 1],
];

const BY_GREATEST: [[u8; 8]; 3] = [
    [10, 179, 135, 81, 20, 169, 85, 111],
    [10, 242, 14, 171, 20, 0, 0, 224],
    [10, 200, 35, 0, 20, 7, 124, 134],
];

#[test]
fn makes_one_frame(rt: HostRuntime) -> Result<(), Fail> {
    assert!(rt; one_frame_is_made(rt.alloc())?);
    assert!(rt; are_written(rt.alloc(), 1, 100, &ONE_FRAME)?);
    Ok(())
}

fn one_frame_is_made(alloc: Global) -> Result<bool, Fail> {
    let bytes = make_bytes(alloc, 7, 1)?;
    Ok(bytes.as_slice() == ONE_FRAME.as_slice())
}

// Whether seed 7 writes these bytes for this many frames, to a sink of this room.
fn are_written(alloc: Global, frames: u32, room: usize, want: &[u8]) -> Result<bool, Fail>
    requires first { 1 ≤ frames }
    requires last { frames ≤ 1300 }
{
    let mut sink = MemorySink::with_room(alloc, room, Vec::new(alloc))?;
    make(7, frames, &mut sink)?;
    Ok(sink.taken() == want)
}

// The lengths of frames on the wire in turn, low byte first: four of them add up to 4 * 250.
const LENGTHS: [[u8; 2]; 4] = [[100, 0], [200, 0], [44, 1], [144, 1]];

#[test]
fn makes_more_frames(rt: HostRuntime) -> Result<(), Fail> {
    assert_eq!(rt; first_wrong_frame(rt.alloc(), 7, &BY_SEVEN)?, None);
    assert_eq!(rt;
        first_wrong_frame(rt.alloc(), u64::MAX, &BY_GREATEST)?,
        None
    );
    Ok(())
}

fn first_wrong_frame(
    alloc: Global,
    seed: u64,
    addresses: &[[u8; 8]],
) -> Result<Option<usize>, Fail> {
    if addresses.is_empty() || addresses.len() > 8 {
        return Err("no such number of frames".into());
    }
    let bytes = make_bytes(alloc, seed, addresses.len() as u32)?;
    Ok(first_wrong_addresses(&bytes, addresses))
}

fn first_wrong_addresses(bytes: &[u8], addresses: &[[u8; 8]]) -> Option<usize> {
    for (index, expected) in addresses.iter().enumerate() {
        if !is_frame(bytes, index, expected) {
            return Some(index);
        }
    }
    None
}

fn is_frame(bytes: &[u8], index: usize, expected: &[u8; 8]) -> bool {
    if index >= 8 {
        return false;
    }
    let frame = 24 + 50 * index;
    bytes.get(frame + 12..frame + 14) == Some(&LENGTHS[index % 4][..])
        && bytes.get(frame + 42..frame + 50) == Some(&expected[..])
}

// A capture of three pieces.
const FRAMES: u32 = 1300;

const LENGTH: usize = 65_024;

#[test]
fn writes_pieces(rt: HostRuntime) -> Result<(), Fail> {
    let whole = make_bytes(rt.alloc(), 7, FRAMES)?;
    assert!(rt; are_written(rt.alloc(), FRAMES, LENGTH, &whole)?);
    Ok(())
}

// Sinks that fail in the middle of the second piece, and at its first byte.
#[test]
fn stops_at_a_failed_piece(rt: HostRuntime) -> Result<(), Fail> {
    let whole = make_bytes(rt.alloc(), 7, FRAMES)?;
    assert!(rt; takes_a_beginning(rt.alloc(), &whole, 40_000, &[], 40_000)?);
    assert!(rt; takes_a_beginning(rt.alloc(), &whole, LENGTH, &[2], 32_024)?);
    Ok(())
}

// Whether a sink of this room, of whose calls these fail, takes a beginning of the whole.
fn takes_a_beginning(
    alloc: Global,
    whole: &[u8],
    room: usize,
    fails: &[u64],
    length: usize,
) -> Result<bool, Fail> {
    let mut sink = MemorySink::with_room(alloc, room, Vec::from_slice(alloc, fails)?)?;
    let made = make(7, FRAMES, &mut sink);
    Ok(made.is_err() && Some(sink.taken()) == whole.get(..length))
}
