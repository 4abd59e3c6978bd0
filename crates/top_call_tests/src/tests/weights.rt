//! What `weigh` writes.

use super::endings::{Written, compare, each_is_written, run_with};
use hhh_engine::Status;
use outside_io::{MemorySink, MemorySource};
use pcap_frames::{CaptureFault, FaultKind};
use std::alloc::{AllocError, Global};
use std::marker::Sync;
use std::process::Abort;
use std::sync::Wait;
use std::test::Fail;
use std::thread::Threads;
use test_runs::{Ended, HEADER, Handed, ONE, SOUND, run_over};

const CASES: [Written; 6] = [
    (
        &["weigh", "10.0.0.0/8", "20.0.0.0/8"],
        &[ONE],
        "low 100\nhigh 100\ntotal 100\n",
    ),
    (
        &["weigh", "11.0.0.0/8", "20.0.0.0/8"],
        &[ONE],
        "low 0\nhigh 0\ntotal 100\n",
    ),
    (
        &["weigh", "10.0.0.0/8", "20.0.0.0/8"],
        &[],
        "low 0\nhigh 0\ntotal 0\n",
    ),
    (
        &["weigh", "10.1.2.3/32", "20.1.2.3/32"],
        &[ONE, ONE, ONE],
        "low 300\nhigh 300\ntotal 300\n",
    ),
    (
        &["weigh", "0.0.0.0/0", "21.0.0.0/8"],
        &[ONE, ONE],
        "low 0\nhigh 0\ntotal 200\n",
    ),
    (
        &["weigh", "--weigh=packets", "10.1.2.3/32", "20.1.2.3/32"],
        &[ONE, ONE],
        "low 2\nhigh 2\ntotal 2\n",
    ),
];

pub(crate) fn weighs_prefixes<R: Abort + Threads + Wait + Sync>(
    rt: &R,
    alloc: Global,
    handed: &Handed,
) -> Result<(), Fail> {
    each_is_written(rt, alloc, handed, &CASES)
}

const ALL: [&str; 3] = ["weigh", "0.0.0.0/0", "0.0.0.0/0"];

// A capture of one frame with this many captured bytes, all zero except its type and the first byte of its header.
fn long_capture(alloc: Global, captured: u32) -> Result<Vec<u8>, AllocError> {
    let mut bytes = Vec::from_slice(alloc, &HEADER)?;
    bytes.extend_from_slice(&[0; 8])?;
    bytes.extend_from_slice(&captured.to_le_bytes())?;
    bytes.extend_from_slice(&[0; 16])?;
    bytes.extend_from_slice(&[8, 0, 0x45])?;
    bytes.resize(40 + captured as usize, 0)?;
    Ok(bytes)
}

// Weighs everything in a capture, which is read in pieces of a page.
fn weigh_all<R: Threads + Wait + Sync>(
    rt: &R,
    alloc: Global,
    handed: &Handed,
    bytes: Vec<u8>,
) -> Result<Ended, AllocError> {
    let mut source = MemorySource::new(bytes, Vec::new(alloc), 4096);
    let mut text = MemorySource::new(Vec::new(alloc), Vec::new(alloc), 64);
    let mut sink = MemorySink::with_room(alloc, 4096, Vec::new(alloc))?;
    run_with(rt, alloc, handed, &ALL, &mut source, &mut text, &mut sink)
}

pub(crate) fn weighs_the_longest_frame<R: Abort + Threads + Wait + Sync>(
    rt: &R,
    alloc: Global,
    handed: &Handed,
) -> Result<(), Fail> {
    let ended = weigh_all(rt, alloc, handed, long_capture(alloc, 262_144)?)?;
    let text = b"low 262144\nhigh 262144\ntotal 262144\n";
    compare(rt, ended, Status::Done, text);
    let fault = CaptureFault {
        kind: FaultKind::LongFrame,
        place: 24,
    };
    let bytes = long_capture(alloc, 262_145)?;
    let ended = run_over(rt, alloc, handed, &ALL, bytes, SOUND)?;
    assert_eq!(rt; ended.status, Status::BadCapture(fault));
    Ok(())
}
