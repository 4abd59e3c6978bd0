//! Runs of the top call without a store.

use crate::Handed;
use gate_workers::{Gate, OpenGate};
use hhh_engine::{Status, run};
use outside_io::{MemorySink, MemorySource};
use slot_disk::MemoryDisk;
use std::alloc::{AllocError, Global};
use std::marker::Sync;
use std::sync::Wait;
use std::thread::Threads;

/// How a run ended, and what it wrote.
#[derive(Drop)]
pub struct Ended {
    pub status: Status,
    pub text: Vec<u8>,
}

/// Which calls of the source and of the sink fail, and how many bytes the sink has room for.
#[derive(Clone, Copy)]
pub struct Outside {
    pub source_fails: &'static [u64],
    pub sink_fails: &'static [u64],
    pub room: usize,
}

/// Nothing fails.
pub const SOUND: Outside = Outside {
    source_fails: &[],
    sink_fails: &[],
    room: 4096,
};

/// Runs over these bytes, read in pieces of at most 7.
pub fn run_over<R: Threads + Wait + Sync>(
    rt: &R,
    alloc: Global,
    handed: &Handed,
    words: &[&str],
    bytes: Vec<u8>,
    outside: Outside,
) -> Result<Ended, AllocError> {
    run_gated(rt, alloc, handed, words, bytes, outside, &OpenGate)
}

/// The same with a gate. There is no store.
pub fn run_gated<R: Threads + Wait + Sync, G: Gate + Sync>(
    rt: &R,
    alloc: Global,
    handed: &Handed,
    words: &[&str],
    bytes: Vec<u8>,
    outside: Outside,
    gate: &G,
) -> Result<Ended, AllocError> {
    let mut source = MemorySource::new(bytes, Vec::from_slice(alloc, outside.source_fails)?, 7);
    let mut text = MemorySource::new(Vec::new(alloc), Vec::new(alloc), 7);
    let fails = Vec::from_slice(alloc, outside.sink_fails)?;
    let mut sink = MemorySink::with_room(alloc, outside.room, fails)?;
    let mut disk = MemoryDisk::with_room(alloc, 0, 0, Vec::new(alloc), None, Vec::new(alloc))?;
    let status = run(
        rt,
        alloc,
        words,
        &mut source,
        &mut text,
        &mut sink,
        &mut disk,
        gate,
        &handed.dealers,
        &handed.judge,
    );
    let text = Vec::from_slice(alloc, sink.taken())?;
    Ok(Ended { status, text })
}
