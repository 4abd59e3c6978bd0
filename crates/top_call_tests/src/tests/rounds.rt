//! What `report` writes while workers feed.

use super::endings::compare;
use super::gates::{Meeting, RollCall, Turnstile};
use super::reports::ELEVEN;
use gate_workers::Gate;
use hhh_engine::Status;
use std::alloc::{AllocError, Global};
use std::marker::Sync;
use std::process::Abort;
use std::str;
use std::sync::Wait;
use std::test::Fail;
use std::thread::Threads;
use test_runs::{Ended, Handed, ONE, Outside, Packet, SOUND, capture_of, run_gated, run_over};

// The positions of all reports of a session, in their order.
fn positions_in<'a>(alloc: Global, text: &'a [u8]) -> Result<Vec<&'a str>, AllocError> {
    let mut positions = Vec::new(alloc);
    for line in str::from_utf8(text).unwrap_or("").lines() {
        if let Some(at) = line.strip_prefix("at ") {
            positions.push(at)?;
        }
    }
    Ok(positions)
}

const IN_ROUNDS: [&str; 5] = [
    "report",
    "--shards=1",
    "--workers=2",
    "--callers=2",
    "--rounds=3",
];

// Three rounds of the calling thread and of two callers, and the last report.
pub(crate) fn reports_in_rounds<R: Abort + Threads + Wait + Sync>(
    rt: &R,
    alloc: Global,
    handed: &Handed,
) -> Result<(), Fail> {
    let bytes = capture_of(alloc, &[ONE])?;
    let ended = run_over(rt, alloc, handed, &IN_ROUNDS, bytes, SOUND)?;
    assert_eq!(rt; ended.status, Status::Done);
    has_ten_reports(rt, alloc, &ended.text)?;
    let last =
        "report\nat 1\ntotal 100\nthreshold 1\nline 10.1.2.3/32 20.1.2.3/32 100 100\ndone\nframes 1\nskipped 0 0 0\nend\n";
    assert!(rt; ended.text.as_slice().starts_with(b"opened 0\nreport\nat "));
    assert!(rt; ended.text.as_slice().ends_with(last.as_bytes()));
    Ok(())
}

// Each report is over no packet or over one. A caller that has seen the packet goes on to see it.
fn has_ten_reports(rt: &impl Abort, alloc: Global, text: &[u8]) -> Result<(), Fail> {
    let positions = positions_in(alloc, text)?;
    assert_eq!(rt; positions.len(), 10);
    for (place, at) in positions.iter().enumerate() {
        assert!(rt; *at == "0" || *at == "1");
        if place % 3 != 0 && place < 9 {
            assert!(rt; positions[place - 1] == "0" || *at == "1");
        }
    }
    Ok(())
}

// The calls of the sink that fail, and what is written.
type Fault = (&'static [u64], &'static str);

const FAULTS: [Fault; 3] = [(&[0], ""), (&[1], "opened 0\n"), (&[1, 3], "opened 0\n")];

// A sink that fails at its first call, and one that fails in the first round.
pub(crate) fn ends_at_the_first_fault<R: Abort + Threads + Wait + Sync>(
    rt: &R,
    alloc: Global,
    handed: &Handed,
) -> Result<(), Fail> {
    each_fault_ends_it(rt, alloc, handed, &FAULTS)
}

fn each_fault_ends_it<R: Abort + Threads + Wait + Sync>(
    rt: &R,
    alloc: Global,
    handed: &Handed,
    faults: &[Fault],
) -> Result<(), Fail> {
    for (fails, text) in faults {
        let outside = Outside {
            sink_fails: fails,
            ..SOUND
        };
        let bytes = capture_of(alloc, &[ONE])?;
        let ended = run_over(rt, alloc, handed, &IN_ROUNDS, bytes, outside)?;
        compare(rt, ended, Status::WriteFault, text.as_bytes());
    }
    Ok(())
}

// Runs over these packets with a gate.
fn run_by<R: Threads + Wait + Sync, G: Gate + Sync>(
    rt: &R,
    alloc: Global,
    handed: &Handed,
    words: &[&str],
    packets: &[Packet],
    gate: &G,
) -> Result<Ended, AllocError> {
    let bytes = capture_of(alloc, packets)?;
    run_gated(rt, alloc, handed, words, bytes, SOUND, gate)
}

const TWO_WORKERS: [&str; 9] = [
    "report",
    "--shards=2",
    "--capacity=4",
    "--phi=500000",
    "--weigh=packets",
    "--workers=2",
    "--block=1",
    "--callers=1",
    "--rounds=2",
];

// Each worker waits after its first fold for the other's, so a body that feeds in one thread gives up waiting.
pub(crate) fn two_workers_feed_at_once<R: Abort + Threads + Wait + Sync>(
    rt: &R,
    alloc: Global,
    handed: &Handed,
) -> Result<(), Fail> {
    let gate = Meeting::new();
    let ended = run_by(rt, alloc, handed, &TWO_WORKERS, &ELEVEN, &gate)?;
    assert_eq!(rt; gate.missed(), 0);
    assert_eq!(rt; ended.status, Status::Done);
    let last =
        "report\nat 6 5\ntotal 11\nthreshold 6\nline 1.0.0.1/32 101.0.0.1/32 5 6\nline 0.0.0.0/0 0.0.0.0/0 11 11\ndone\nframes 11\nskipped 0 0 0\nend\n";
    assert!(rt; ended.text.as_slice().ends_with(last.as_bytes()));
    Ok(())
}

// How many packets were folded, and the position of a report on them.
type Folded = (u64, &'static str);

const FOLDED: [Folded; 8] = [
    (0, "0"),
    (1, "1"),
    (2, "2"),
    (3, "3"),
    (4, "4"),
    (5, "5"),
    (6, "6"),
    (7, "7"),
];

pub(crate) fn a_round_reads_what_was_folded<R: Abort + Threads + Wait + Sync>(
    rt: &R,
    alloc: Global,
    handed: &Handed,
) -> Result<(), Fail> {
    each_round_reads(rt, alloc, handed, &FOLDED)
}

fn each_round_reads<R: Abort + Threads + Wait + Sync>(
    rt: &R,
    alloc: Global,
    handed: &Handed,
    cases: &[Folded],
) -> Result<(), Fail> {
    for (folds, at) in cases {
        reads_after(rt, alloc, handed, *folds, at)?;
    }
    Ok(())
}

const ONE_WORKER: [&str; 6] = [
    "report",
    "--shards=1",
    "--workers=1",
    "--block=1",
    "--callers=1",
    "--rounds=1",
];

// The calling thread and a caller each read after a given number of folds of one packet, and before the next one.
fn reads_after<R: Abort + Threads + Wait + Sync>(
    rt: &R,
    alloc: Global,
    handed: &Handed,
    folds: u64,
    at: &str,
) -> Result<(), Fail> {
    let gate = Turnstile::after(folds);
    let ended = run_by(rt, alloc, handed, &ONE_WORKER, &[ONE; 8], &gate)?;
    assert_eq!(rt; gate.missed(), 0);
    assert_eq!(rt; ended.status, Status::Done);
    are_the_positions(rt, alloc, &ended.text, &[at, at, "8"])
}

fn are_the_positions(
    rt: &impl Abort,
    alloc: Global,
    text: &[u8],
    positions: &[&str],
) -> Result<(), Fail> {
    assert_eq!(rt; positions_in(alloc, text)?.as_slice(), positions);
    Ok(())
}

const THREE_WORKERS: [&str; 6] = [
    "report",
    "--shards=3",
    "--workers=3",
    "--block=2",
    "--callers=2",
    "--rounds=1",
];

// Three workers fold blocks of two packets. The first caller, of number 0, and the calling thread, whose number is that
// of the callers, read after one block of each shard, the second caller after two. Their reports are in this order.
pub(crate) fn each_thread_has_its_number<R: Abort + Threads + Wait + Sync>(
    rt: &R,
    alloc: Global,
    handed: &Handed,
) -> Result<(), Fail> {
    let text = text_of_three(rt, alloc, handed)?;
    let positions = ["2 2 2", "2 2 2", "4 4 4", "5 5 5"];
    are_the_positions(rt, alloc, &text, &positions)
}

// What is written for three workers, each of which the gate has told by its number.
fn text_of_three<R: Abort + Threads + Wait + Sync>(
    rt: &R,
    alloc: Global,
    handed: &Handed,
) -> Result<Vec<u8>, Fail> {
    let gate = RollCall::new();
    let ended = run_by(rt, alloc, handed, &THREE_WORKERS, &[ONE; 15], &gate)?;
    assert_eq!(rt; gate.missed(), 0);
    assert_eq!(rt; ended.status, Status::Done);
    assert_eq!(rt; gate.other_folds(), 0);
    assert_eq!(rt; gate.reads(), [1, 1, 1, 0]);
    Ok(ended.text.to_vec(alloc)?)
}
