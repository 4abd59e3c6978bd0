//! Making a capture, in memory or on a sink.

ghost use Rattle.std.specs.Prelude.{◌≡◌, ◌+◌, ◌≤◌, ◌++◌, length, vec_capacity, IfOk, OnOk, OnErr};
ghost use Rattle.std.specs.Io.KnownBytes.{Appends};
ghost use Rattle.outside_io.specs.{AppendsPart, FailsByCount};
ghost use Rattle.traffic_maker.specs.Making.{made_capture, most_frames};

use crate::draws::Draws;
use crate::frame::{FRAME_LENGTH, next_frame};
use crate::piece::{MOST_FRAMES, Piece};
use outside_io::{Failed, Sink, write_all};
use std::alloc::{AllocError as OutOfMemory, Global};

// The header of the file, low byte first: microseconds, version 2.4, no time zone, no accuracy, at most 262,144
// captured bytes, Ethernet.
const HEADER: [u8; 24] = [
    0xd4, 0xc3, 0xb2, 0xa1, 2, 0, 4, 0, 0, 0, 0, 0, 0, 0, 0, 0, 0, 0, 4, 0, 1, 0, 0, 0,
];

/// Writes the capture of `frames` frames, 1 to 1,000,000, that `seed` makes, in pieces of up to 640 frames. It
/// allocates no memory. `Failed` is returned only if a call of the sink failed; the sink then took a strict prefix of
/// the capture.
pub fn make<K: Sink>(seed: u64, frames: u32, sink: &mut K) -> Result<(), Failed>
    requires { (1 ≤ frames) × (frames ≤ most_frames) }
    ensures whole { OnOk result (Appends (K.taken sink.old) (K.taken sink.new) (made_capture seed frames)) }
    ensures beginning { OnErr result (AppendsPart (K.taken sink.old) (K.taken sink.new) (made_capture seed frames)) }
    ensures cause { FailsByCount (K.faults sink.old) (K.faults sink.new) result }
{
    write_all(sink, &HEADER)?;
    let mut draws = Draws::from_seed(seed);
    let mut piece = Piece::new();
    let mut made = 0;
    while made < frames {
        let count = (frames - made).min(MOST_FRAMES);
        piece.fill(&mut draws, made, count);
        write_all(sink, piece.as_slice())?;
        made += count;
    }
    Ok(())
}

/// The capture of `frames` frames, 1 to 1,000,000, that `seed` makes. Memory is allocated once, for all of it.
pub fn make_bytes(alloc: Global, seed: u64, frames: u32) -> Result<Vec<u8>, OutOfMemory>
    requires { (1 ≤ frames) × (frames ≤ most_frames) }
    ensures { IfOk result (λ bytes. bytes.items ≡ made_capture seed frames) }
{
    let mut bytes = Vec::with_capacity(alloc, HEADER.len() + FRAME_LENGTH * frames as usize)?;
    append(&mut bytes, &HEADER);
    let mut draws = Draws::from_seed(seed);
    for index in 0..frames {
        append(&mut bytes, &next_frame(&mut draws, index));
    }
    Ok(bytes)
}

// Appends a part of the capture, for which there is room.
fn append(bytes: &mut Vec<u8>, part: &[u8])
    requires { length bytes.old.items + length part.now ≤ vec_capacity bytes.old }
    ensures items { bytes.new.items ≡ bytes.old.items ++ part.now }
    ensures capacity { vec_capacity bytes.old ≤ vec_capacity bytes.new }
{
    bytes.extend_from_slice(part).unwrap();
}
