//! What is refused, and how it is reported.

use super::endings::compare;
use checkpoint::StoreSettings;
use deal_rules::DealKind;
use exact_audit::Verdict;
use frame_records::Weigh;
use hhh_engine::{Opt, Status, WordsKind, fault_line};
use pcap_frames::{CaptureFault, FaultKind};
use prefix_lattice::{Grain, PrefixFault, Side};
use report_text::TextFault;
use std::alloc::{AllocError, Global};
use std::marker::Sync;
use std::process::Abort;
use std::sync::Wait;
use std::test::Fail;
use std::thread::Threads;
use test_runs::{Handed, ONE, Outside, SOUND, capture_of, run_over};

// The arguments, what is wrong with them, and the line that reports it.
type Case = (&'static [&'static str], WordsKind, &'static str);

const CASES: [Case; 17] = [
    (&[], WordsKind::NoCommand, "hhh: bad words: no command\n"),
    (
        &["way"],
        WordsKind::UnknownCommand,
        "hhh: bad words: unknown command\n",
    ),
    (&["weigh"], WordsKind::Refused, "hhh: bad words: refused\n"),
    (
        &["report", "--shards", "1", "--shards", "1"],
        WordsKind::Refused,
        "hhh: bad words: refused\n",
    ),
    (
        &["weigh", "10.1.0.0/15", "0.0.0.0/0"],
        WordsKind::BadPrefix(PrefixFault::BadLength(Side::Source)),
        "hhh: bad words: prefix\n",
    ),
    (
        &["weigh", "10.1.2.0/16", "0.0.0.0/0"],
        WordsKind::BadPrefix(PrefixFault::LooseBits(Side::Source)),
        "hhh: bad words: prefix\n",
    ),
    (
        &["weigh", "10.1.2", "0.0.0.0/0"],
        WordsKind::BadPrefix(PrefixFault::BadAddress(Side::Source)),
        "hhh: bad words: prefix\n",
    ),
    (
        &["report", "--shards", "0"],
        WordsKind::OutOfLimits(Opt::Shards),
        "hhh: bad words: limits\n",
    ),
    (
        &["report", "--shards", "01"],
        WordsKind::BadNumber(Opt::Shards),
        "hhh: bad words: number\n",
    ),
    (
        &["report", "--deal", "hash"],
        WordsKind::BadChoice(Opt::Deal),
        "hhh: bad words: choice\n",
    ),
    (
        &["report", "--capacity", "17", "--phi", "117647"],
        WordsKind::Bound,
        "hhh: bad words: bound\n",
    ),
    (
        &["report", "--bits", "5"],
        WordsKind::OutOfLimits(Opt::Bits),
        "hhh: bad words: limits\n",
    ),
    (
        &["report", "--bits", "4", "--capacity", "1025"],
        WordsKind::OutOfLimits(Opt::Bits),
        "hhh: bad words: limits\n",
    ),
    (
        &["report", "--front", "maybe"],
        WordsKind::BadChoice(Opt::Front),
        "hhh: bad words: choice\n",
    ),
    (
        &["report", "x"],
        WordsKind::Refused,
        "hhh: bad words: refused\n",
    ),
    (
        &["make", "7", "0"],
        WordsKind::OutOfLimits(Opt::Frames),
        "hhh: bad words: limits\n",
    ),
    (
        &["make", "7", "1000001"],
        WordsKind::OutOfLimits(Opt::Frames),
        "hhh: bad words: limits\n",
    ),
];

pub(crate) fn refuses_words<R: Abort + Threads + Wait + Sync>(
    rt: &R,
    alloc: Global,
    handed: &Handed,
) -> Result<(), Fail> {
    each_is_refused(rt, alloc, handed, &CASES)
}

fn each_is_refused<R: Abort + Threads + Wait + Sync>(
    rt: &R,
    alloc: Global,
    handed: &Handed,
    cases: &[Case],
) -> Result<(), Fail> {
    for (words, kind, line) in cases {
        let bytes = capture_of(alloc, &[ONE])?;
        let ended = run_over(rt, alloc, handed, words, bytes, SOUND)?;
        compare(rt, ended, Status::BadWords(*kind), b"");
        is_told(rt, alloc, Status::BadWords(*kind), 2, line.as_bytes())?;
    }
    Ok(())
}

// Compares the number of a status, and the line that reports it.
fn is_told(
    rt: &impl Abort,
    alloc: Global,
    status: Status,
    number: u8,
    line: &[u8],
) -> Result<(), Fail> {
    assert_eq!(rt; status.number(), number);
    assert_eq!(rt; fault_line(alloc, &status)?.as_slice(), line);
    Ok(())
}

// The offset of a byte of a capture, its new value, the number of bytes kept, the fault, and the offset it is reported at.
type Change = (usize, u8, usize, FaultKind, u64);

const CHANGES: [Change; 9] = [
    (0, 0xd4, 0, FaultKind::ShortHeader, 0),
    (0, 0xd4, 23, FaultKind::ShortHeader, 23),
    (0, 0x1f, 4, FaultKind::NotCapture, 0),
    (6, 3, 8, FaultKind::Version, 4),
    (20, 101, 74, FaultKind::Link, 20),
    (23, 0x10, 74, FaultKind::Link, 20),
    (0, 0xd4, 30, FaultKind::CutFrame, 24),
    (0, 0xd4, 60, FaultKind::CutFrame, 24),
    (34, 5, 40, FaultKind::LongFrame, 24),
];

pub(crate) fn refuses_captures<R: Abort + Threads + Wait + Sync>(
    rt: &R,
    alloc: Global,
    handed: &Handed,
) -> Result<(), Fail> {
    each_change_is_refused(rt, alloc, handed, &CHANGES)
}

fn each_change_is_refused<R: Abort + Threads + Wait + Sync>(
    rt: &R,
    alloc: Global,
    handed: &Handed,
    changes: &[Change],
) -> Result<(), Fail> {
    let words = ["report", "--shards", "1"];
    for (place, byte, length, kind, at) in changes {
        let bytes = changed(rt, alloc, *place, *byte, *length)?;
        let ended = run_over(rt, alloc, handed, &words, bytes, SOUND)?;
        let fault = CaptureFault {
            kind: *kind,
            place: *at,
        };
        compare(rt, ended, Status::BadCapture(fault), b"");
    }
    Ok(())
}

// A capture of one frame with another byte at a place, of which the first bytes are kept.
fn changed(
    rt: &impl Abort,
    alloc: Global,
    place: usize,
    byte: u8,
    length: usize,
) -> Result<Vec<u8>, AllocError> {
    let mut bytes = capture_of(alloc, &[ONE])?;
    assert!(rt; place < bytes.len());
    bytes[place] = byte;
    bytes.truncate(length);
    Ok(bytes)
}

// The calls of a source of 74 bytes in pieces of 7: eleven, and one more at the end.
const CALLS: [[u64; 1]; 12] = [[0], [1], [2], [3], [4], [5], [6], [7], [8], [9], [10], [11]];

pub(crate) fn tells_the_faults_of_source_and_sink<R: Abort + Threads + Wait + Sync>(
    rt: &R,
    alloc: Global,
    handed: &Handed,
) -> Result<(), Fail> {
    each_call_of_the_source_fails(rt, alloc, handed, &CALLS)?;
    let fails = Outside {
        sink_fails: &[0],
        ..SOUND
    };
    breaks_off(rt, alloc, handed, fails, Status::WriteFault, b"")?;
    let full = Outside { room: 12, ..SOUND };
    let text = b"opened 0\nrep";
    breaks_off(rt, alloc, handed, full, Status::WriteFault, text)
}

fn each_call_of_the_source_fails<R: Abort + Threads + Wait + Sync>(
    rt: &R,
    alloc: Global,
    handed: &Handed,
    calls: &'static [[u64; 1]],
) -> Result<(), Fail> {
    for call in calls {
        let fails = Outside {
            source_fails: call,
            ..SOUND
        };
        breaks_off(rt, alloc, handed, fails, Status::ReadFault, b"")?;
    }
    Ok(())
}

// What a report on one packet ends in.
fn breaks_off<R: Abort + Threads + Wait + Sync>(
    rt: &R,
    alloc: Global,
    handed: &Handed,
    outside: Outside,
    status: Status,
    text: &[u8],
) -> Result<(), Fail> {
    let words = ["report", "--shards", "1"];
    let bytes = capture_of(alloc, &[ONE])?;
    let ended = run_over(rt, alloc, handed, &words, bytes, outside)?;
    compare(rt, ended, status, text);
    Ok(())
}

// The settings of a store.
const SETTINGS: StoreSettings = StoreSettings {
    shards: 1,
    capacity: 2,
    weigh: Weigh::Bytes,
    deal: DealKind::Free,
    grain: Grain::Byte,
};

// A status, its number, and the line that reports it.
type Told = (Status, u8, &'static str);

const TOLD: [Told; 13] = [
    (Status::Done, 0, "hhh: done\n"),
    (Status::ReadFault, 4, "hhh: read fault\n"),
    (Status::WriteFault, 5, "hhh: write fault\n"),
    (Status::DiskFault, 6, "hhh: disk fault\n"),
    (Status::NotFormatted, 7, "hhh: store not formatted\n"),
    (Status::Damaged(1), 8, "hhh: store damaged: slot 1\n"),
    (
        Status::OtherSettings {
            stored: SETTINGS,
            asked: SETTINGS,
        },
        9,
        "hhh: store has other settings\n",
    ),
    (
        Status::OtherCapture {
            stored: [0; 32],
            asked: [1; 32],
        },
        10,
        "hhh: store is of another capture\n",
    ),
    (
        Status::AuditNo {
            report: 2,
            verdict: Verdict::BadTotal,
        },
        11,
        "hhh: audit: no\n",
    ),
    (
        Status::BadReport(TextFault::BadLine(4)),
        12,
        "hhh: bad report: line 4\n",
    ),
    (
        Status::BadReport(TextFault::MissingEnd(7)),
        12,
        "hhh: bad report: no end at line 7\n",
    ),
    (
        Status::BadReport(TextFault::TooLong),
        12,
        "hhh: bad report: too long\n",
    ),
    (Status::OutOfMemory, 13, "hhh: out of memory\n"),
];

// The fault of a capture, its place, and the line that reports it.
type BadCapture = (FaultKind, u64, &'static str);

const BAD_CAPTURES: [BadCapture; 7] = [
    (
        FaultKind::ShortHeader,
        23,
        "hhh: bad capture: short header at 23\n",
    ),
    (
        FaultKind::NotCapture,
        0,
        "hhh: bad capture: not a capture at 0\n",
    ),
    (FaultKind::Version, 4, "hhh: bad capture: version at 4\n"),
    (FaultKind::Link, 20, "hhh: bad capture: link at 20\n"),
    (
        FaultKind::LongFrame,
        24,
        "hhh: bad capture: long frame at 24\n",
    ),
    (
        FaultKind::CutFrame,
        24,
        "hhh: bad capture: cut frame at 24\n",
    ),
    (
        FaultKind::TooManyFrames,
        570_425_368,
        "hhh: bad capture: too many frames at 570425368\n",
    ),
];

pub(crate) fn tells_each_status(rt: &impl Abort, alloc: Global) -> Result<(), Fail> {
    each_is_told(rt, alloc, &TOLD)?;
    each_bad_capture_is_told(rt, alloc, &BAD_CAPTURES)
}

fn each_is_told(rt: &impl Abort, alloc: Global, cases: &[Told]) -> Result<(), Fail> {
    for (status, number, line) in cases {
        is_told(rt, alloc, *status, *number, line.as_bytes())?;
    }
    Ok(())
}

fn each_bad_capture_is_told(
    rt: &impl Abort,
    alloc: Global,
    cases: &[BadCapture],
) -> Result<(), Fail> {
    for (kind, place, line) in cases {
        let fault = CaptureFault {
            kind: *kind,
            place: *place,
        };
        is_told(rt, alloc, Status::BadCapture(fault), 3, line.as_bytes())?;
    }
    Ok(())
}
