//! Made traffic, and what `demo` says of it.

use super::endings::compare;
use hhh_engine::Status;
use std::alloc::Global;
use std::marker::Sync;
use std::process::Abort;
use std::sync::Wait;
use std::test::Fail;
use std::thread::Threads;
use test_runs::{HEADER, Handed, Outside, SOUND, run_over};

// The one frame that seed 7 makes first: from 10.0.3.40 to 20.166.26.127, 100 bytes on the wire.
const FRAME: [u8; 50] = [
    0, 0, 0, 0, 0, 0, 0, 0, 34, 0, 0, 0, 100, 0, 0, 0, // at second 0, 34 bytes captured
    2, 0, 0, 0, 0, 2, 2, 0, 0, 0, 0, 1, 8, 0, // Ethernet
    0x45, 0, 0, 86, 0, 0, 0, 0, 64, 17, 0, 0, 10, 0, 3, 40, 20, 166, 26, 127, // IPv4
];

const MAKE: [&str; 3] = ["make", "7", "1"];

const DEMO: [&str; 3] = ["demo", "7", "1"];

// What a command without a capture ends in.
fn ends_with<R: Abort + Threads + Wait + Sync>(
    rt: &R,
    alloc: Global,
    handed: &Handed,
    words: &[&str],
    outside: Outside,
    status: Status,
    text: &[u8],
) -> Result<(), Fail> {
    let ended = run_over(rt, alloc, handed, words, Vec::new(alloc), outside)?;
    compare(rt, ended, status, text);
    Ok(())
}

pub(crate) fn makes_a_capture<R: Abort + Threads + Wait + Sync>(
    rt: &R,
    alloc: Global,
    handed: &Handed,
) -> Result<(), Fail> {
    let mut capture = Vec::from_slice(alloc, &HEADER)?;
    capture.extend_from_slice(&FRAME)?;
    ends_with(rt, alloc, handed, &MAKE, SOUND, Status::Done, &capture)?;
    // A sink with room for 30 bytes takes a part of it.
    capture.truncate(30);
    let full = Outside { room: 30, ..SOUND };
    ends_with(rt, alloc, handed, &MAKE, full, Status::WriteFault, &capture)
}

pub(crate) fn demonstrates<R: Abort + Threads + Wait + Sync>(
    rt: &R,
    alloc: Global,
    handed: &Handed,
) -> Result<(), Fail> {
    let summary = b"demo 7 1\nrecords 1\ntotal 100\nthreshold 1\nlines 1\naudit good\nend\n";
    ends_with(rt, alloc, handed, &DEMO, SOUND, Status::Done, summary)?;
    let fails = Outside {
        sink_fails: &[0],
        ..SOUND
    };
    ends_with(rt, alloc, handed, &DEMO, fails, Status::WriteFault, b"")
}

pub(crate) fn demonstrates_by_half_bytes<R: Abort + Threads + Wait + Sync>(
    rt: &R,
    alloc: Global,
    handed: &Handed,
) -> Result<(), Fail> {
    let words = ["demo", "7", "20000", "--bits", "4"];
    let ended = run_over(rt, alloc, handed, &words, Vec::new(alloc), SOUND)?;
    assert_eq!(rt; ended.status, Status::Done);
    assert!(rt; ended.text.ends_with(b"\naudit good\nend\n"));
    Ok(())
}

// 200,000 frames: 200,000 records and 50,000,000 bytes, of which 1 % is the threshold. Another program of the same
// algorithm, that of bench/space_saving.c, also has 28 lines. However many workers count, they are the same.
pub(crate) fn demonstrates_the_same_with_one_worker<R: Abort + Threads + Wait + Sync>(
    rt: &R,
    alloc: Global,
    handed: &Handed,
) -> Result<(), Fail> {
    let summary =
        b"demo 7 200000\nrecords 200000\ntotal 50000000\nthreshold 500000\nlines 28\naudit good\nend\n";
    let words = ["demo", "7", "200000", "--shards=8"];
    ends_with(rt, alloc, handed, &words, SOUND, Status::Done, summary)?;
    let words = ["demo", "7", "200000", "--shards=8", "--workers=1"];
    ends_with(rt, alloc, handed, &words, SOUND, Status::Done, summary)
}
