//! Runs of which the status and the text are compared with what they should be.

use gate_workers::OpenGate;
use hhh_engine::{Status, run};
use outside_io::{MemorySink, MemorySource};
use slot_disk::MemoryDisk;
use std::alloc::{AllocError, Global};
use std::marker::Sync;
use std::process::Abort;
use std::sync::Wait;
use std::test::Fail;
use std::thread::Threads;
use test_runs::{Ended, Handed, Packet, SOUND, capture_of, run_over};

// Runs between these streams, without a store.
pub(crate) fn run_with<R: Threads + Wait + Sync>(
    rt: &R,
    alloc: Global,
    handed: &Handed,
    words: &[&str],
    capture: &mut MemorySource,
    text: &mut MemorySource,
    sink: &mut MemorySink,
) -> Result<Ended, AllocError> {
    let mut disk = MemoryDisk::with_room(alloc, 0, 0, Vec::new(alloc), None, Vec::new(alloc))?;
    let status = run(
        rt,
        alloc,
        words,
        capture,
        text,
        sink,
        &mut disk,
        &OpenGate,
        &handed.dealers,
        &handed.judge,
    );
    let text = Vec::from_slice(alloc, sink.taken())?;
    Ok(Ended { status, text })
}

// Compares how a run ended with the status and the text that it should have.
pub(crate) fn compare(rt: &impl Abort, ended: Ended, status: Status, text: &[u8]) {
    assert_eq!(rt; ended.status, status);
    assert_eq!(rt; ended.text.as_slice(), text);
}

// A run over these bytes ends well, and writes this text.
pub(crate) fn writes<R: Abort + Threads + Wait + Sync>(
    rt: &R,
    alloc: Global,
    handed: &Handed,
    words: &[&str],
    bytes: Vec<u8>,
    text: &str,
) -> Result<(), Fail> {
    let ended = run_over(rt, alloc, handed, words, bytes, SOUND)?;
    compare(rt, ended, Status::Done, text.as_bytes());
    Ok(())
}

// The arguments, the packets, and what is written.
pub(crate) type Written = (&'static [&'static str], &'static [Packet], &'static str);

// A table is a parameter of what goes through it: a proof with the table in every fact takes far longer.
pub(crate) fn each_is_written<R: Abort + Threads + Wait + Sync>(
    rt: &R,
    alloc: Global,
    handed: &Handed,
    cases: &[Written],
) -> Result<(), Fail> {
    for (words, packets, text) in cases {
        let bytes = capture_of(alloc, packets)?;
        writes(rt, alloc, handed, words, bytes, text)?;
    }
    Ok(())
}
