//! Reports whose disk fails, and what the next report goes on from.

use super::endings::compare;
use super::gates::Turnstile;
use hhh_engine::Status;
use slot_disk::MemoryDisk;
use std::alloc::{AllocError, Global};
use std::marker::Sync;
use std::process::Abort;
use std::sync::Wait;
use std::test::Fail;
use std::thread::Threads;
use test_runs::{Ended, FORMAT, Handed, ONE, REPORT, disk_with, run_gated_on, run_on};

const ROUND: [&str; 7] = [
    "report",
    "--store=s",
    "--shards=1",
    "--workers=1",
    "--block=1",
    "--callers=1",
    "--rounds=1",
];

// The pieces in which the session of a round over eight packets is written, the round after three of them. The first
// save comes after the second piece, and the other one after the fourth.
const PIECES: [&str; 5] = [
    "opened 0\n",
    "report\nat 3\ntotal 300\nthreshold 3\nline 10.1.2.3/32 20.1.2.3/32 300 300\ndone\n",
    "saved 3\n",
    "report\nat 3\ntotal 300\nthreshold 3\nline 10.1.2.3/32 20.1.2.3/32 300 300\ndone\nreport\nat 8\ntotal 800\nthreshold 8\nline 10.1.2.3/32 20.1.2.3/32 800 800\ndone\n",
    "saved 8\nframes 8\nskipped 0 0 0\nend\n",
];

// What follows the first line of the session that goes on.
const REST: &str =
    "report\nat 8\ntotal 800\nthreshold 8\nline 10.1.2.3/32 20.1.2.3/32 800 800\ndone\nsaved 8\nframes 8\nskipped 0 0 0\nend\n";

// What a fault at some calls of the disk leaves.
#[derive(Clone, Copy)]
struct Left {
    // The first of these calls, and the first one after them.
    calls: (u64, u64),
    // How many pieces were written.
    pieces: usize,
    // The first line of the next session, after a crash that keeps all that was written, and after another.
    kept: &'static str,
    lost: &'static str,
}

// A store is opened by two calls. A save makes six: a gate is closed, a body is written and the gate is opened, each with
// a sync. So the cut of a save can only be there from its fifth call on, which writes the byte of the gate.
const LEFT: [Left; 6] = [
    Left {
        calls: (0, 2),
        pieces: 0,
        kept: "opened 0\n",
        lost: "opened 0\n",
    },
    Left {
        calls: (2, 6),
        pieces: 2,
        kept: "opened 0\n",
        lost: "opened 0\n",
    },
    Left {
        calls: (6, 8),
        pieces: 2,
        kept: "opened 3\n",
        lost: "opened 0\n",
    },
    Left {
        calls: (8, 12),
        pieces: 4,
        kept: "opened 3\n",
        lost: "opened 3\n",
    },
    Left {
        calls: (12, 14),
        pieces: 4,
        kept: "opened 8\n",
        lost: "opened 3\n",
    },
    // All fourteen went well.
    Left {
        calls: (14, 15),
        pieces: 5,
        kept: "opened 8\n",
        lost: "opened 8\n",
    },
];

// These texts, one after the other.
fn joined(alloc: Global, texts: &[&str]) -> Result<Vec<u8>, AllocError> {
    let mut all = Vec::new(alloc);
    for text in texts {
        all.extend_from_slice(text.as_bytes())?;
    }
    Ok(all)
}

// A report on a disk that fails from one call on, each crash of it, and the report that goes on from there.
pub(crate) fn goes_on_after_each_fault<R: Abort + Threads + Wait + Sync>(
    rt: &R,
    alloc: Global,
    handed: &Handed,
) -> Result<(), Fail> {
    let mut empty = disk_with(alloc, &[], None, &[])?;
    run_on(rt, alloc, handed, &FORMAT, &[], &mut empty)?;
    let store = empty.crash(alloc, 0)?;
    each_fault(rt, alloc, handed, &store, &LEFT)
}

// A table is a parameter of what goes through it: a proof with the table in every fact takes far longer.
fn each_fault<R: Abort + Threads + Wait + Sync>(
    rt: &R,
    alloc: Global,
    handed: &Handed,
    store: &[u8],
    cases: &[Left],
) -> Result<(), Fail> {
    for left in cases {
        for call in left.calls.0..left.calls.1 {
            fails_from(rt, alloc, handed, store, call, left)?;
        }
    }
    Ok(())
}

fn fails_from<R: Abort + Threads + Wait + Sync>(
    rt: &R,
    alloc: Global,
    handed: &Handed,
    store: &[u8],
    call: u64,
    left: &Left,
) -> Result<(), Fail> {
    let mut disk = disk_with(alloc, store, Some(call), &[])?;
    breaks_off(rt, alloc, handed, &mut disk, left)?;
    goes_on(rt, alloc, handed, &disk, left)
}

// The report ends with a disk fault, unless all calls went well, after as many pieces.
fn breaks_off<R: Abort + Threads + Wait + Sync>(
    rt: &R,
    alloc: Global,
    handed: &Handed,
    disk: &mut MemoryDisk,
    left: &Left,
) -> Result<(), Fail> {
    let text = first_pieces(rt, alloc, left.pieces)?;
    let gate = Turnstile::after(3);
    let ended = run_round(rt, alloc, handed, disk, &gate)?;
    assert_eq!(rt; gate.missed(), 0);
    compare(rt, ended, status_after(left.pieces), &text);
    Ok(())
}

fn run_round<R: Threads + Wait + Sync>(
    rt: &R,
    alloc: Global,
    handed: &Handed,
    disk: &mut MemoryDisk,
    gate: &Turnstile,
) -> Result<Ended, AllocError> {
    run_gated_on(rt, alloc, handed, &ROUND, &[ONE; 8], disk, gate)
}

fn status_after(pieces: usize) -> Status {
    if pieces < PIECES.len() {
        Status::DiskFault
    } else {
        Status::Done
    }
}

fn first_pieces(rt: &impl Abort, alloc: Global, count: usize) -> Result<Vec<u8>, AllocError> {
    first_of(rt, alloc, &PIECES, count)
}

fn first_of(
    rt: &impl Abort,
    alloc: Global,
    texts: &[&str],
    count: usize,
) -> Result<Vec<u8>, AllocError> {
    assert!(rt; count <= texts.len());
    joined(alloc, &texts[..count])
}

// After each crash the next report ends well, and goes on from the position that the crash left.
fn goes_on<R: Abort + Threads + Wait + Sync>(
    rt: &R,
    alloc: Global,
    handed: &Handed,
    disk: &MemoryDisk,
    left: &Left,
) -> Result<(), Fail> {
    for choice in 0..4 {
        let opened = if choice == 1 { left.kept } else { left.lost };
        goes_on_from(rt, alloc, handed, disk, choice, opened)?;
    }
    Ok(())
}

fn goes_on_from<R: Abort + Threads + Wait + Sync>(
    rt: &R,
    alloc: Global,
    handed: &Handed,
    disk: &MemoryDisk,
    choice: u8,
    opened: &str,
) -> Result<(), Fail> {
    let text = joined(alloc, &[opened, REST])?;
    let ended = report_after(rt, alloc, handed, disk, choice)?;
    compare(rt, ended, Status::Done, &text);
    Ok(())
}

// The next report after a crash.
fn report_after<R: Threads + Wait + Sync>(
    rt: &R,
    alloc: Global,
    handed: &Handed,
    disk: &MemoryDisk,
    choice: u8,
) -> Result<Ended, AllocError> {
    let mut crashed = disk_with(alloc, &disk.crash(alloc, choice)?, None, &[])?;
    run_on(rt, alloc, handed, &REPORT, &[ONE; 8], &mut crashed)
}
