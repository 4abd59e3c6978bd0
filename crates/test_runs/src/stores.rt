//! Runs of the top call with a store.

use crate::Handed;
use crate::captures::{Packet, capture_of};
use crate::runs::Ended;
use gate_workers::{Gate, OpenGate};
use hhh_engine::run;
use outside_io::{MemorySink, MemorySource};
use slot_disk::MemoryDisk;
use std::alloc::{AllocError, Global};
use std::marker::Sync;
use std::sync::Wait;
use std::thread::Threads;

// Two slots for one shard at the default capacity.
const ROOM: usize = 400_000;

/// The arguments that format the store.
pub const FORMAT: [&str; 4] = ["format", "--store=s", "--shards=1", "--deal=round"];

/// Those of a report that uses it.
pub const REPORT: [&str; 3] = ["report", "--store=s", "--shards=1"];

/// The session of that report over one packet.
pub const SESSION: &str =
    "opened 0\nreport\nat 1\ntotal 100\nthreshold 1\nline 10.1.2.3/32 20.1.2.3/32 100 100\ndone\nsaved 1\nframes 1\nskipped 0 0 0\nend\n";

/// The session over the same packet that goes on from its store.
pub const SECOND_SESSION: &str =
    "opened 1\nreport\nat 1\ntotal 100\nthreshold 1\nline 10.1.2.3/32 20.1.2.3/32 100 100\ndone\nsaved 1\nframes 1\nskipped 0 0 0\nend\n";

/// A disk with these bytes, whose calls with these numbers fail, and those from the fuse on.
pub fn disk_with(
    alloc: Global,
    bytes: &[u8],
    fuse: Option<u64>,
    fails: &[u64],
) -> Result<MemoryDisk, AllocError> {
    let held = Vec::from_slice(alloc, bytes)?;
    let room = ROOM.max(held.len());
    let fails = Vec::from_slice(alloc, fails)?;
    MemoryDisk::with_room(alloc, room, 1_048_576, held, fuse, fails)
}

/// Runs over a capture of these packets, with a store on this disk.
pub fn run_on<R: Threads + Wait + Sync>(
    rt: &R,
    alloc: Global,
    handed: &Handed,
    words: &[&str],
    packets: &[Packet],
    disk: &mut MemoryDisk,
) -> Result<Ended, AllocError> {
    run_gated_on(rt, alloc, handed, words, packets, disk, &OpenGate)
}

/// The same with a gate.
pub fn run_gated_on<R: Threads + Wait + Sync, G: Gate + Sync>(
    rt: &R,
    alloc: Global,
    handed: &Handed,
    words: &[&str],
    packets: &[Packet],
    disk: &mut MemoryDisk,
    gate: &G,
) -> Result<Ended, AllocError> {
    let capture = capture_of(alloc, packets)?;
    let mut source = MemorySource::new(capture, Vec::new(alloc), 64);
    let mut text = MemorySource::new(Vec::new(alloc), Vec::new(alloc), 64);
    let mut sink = MemorySink::with_room(alloc, 4096, Vec::new(alloc))?;
    let status = run(
        rt,
        alloc,
        words,
        &mut source,
        &mut text,
        &mut sink,
        disk,
        gate,
        &handed.dealers,
        &handed.judge,
    );
    let text = Vec::from_slice(alloc, sink.taken())?;
    Ok(Ended { status, text })
}
