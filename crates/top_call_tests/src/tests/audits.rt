//! What `audit` finds.

use super::endings::{compare, run_with};
use super::reports::{ELEVEN, HALVES, HALVES_BY_BYTES, HALVES_BY_NIBBLES};
use exact_audit::Verdict;
use hhh_engine::Status;
use outside_io::{MemorySink, MemorySource};
use report_text::TextFault;
use std::alloc::{AllocError, Global};
use std::marker::Sync;
use std::process::Abort;
use std::sync::Wait;
use std::test::Fail;
use std::thread::Threads;
use test_runs::{Ended, Handed, ONE, Packet, SOUND, capture_of, run_over};

const AUDIT: [&str; 4] = ["audit", "--shards", "1", "--report=r"];

// Two tables of capacity 4, and the share of one half.
const NARROW: [&str; 7] = [
    "audit",
    "--report=r",
    "--shards=2",
    "--capacity=4",
    "--phi=500000",
    "--weigh=packets",
    "--deal=round",
];

// The share of the whole.
const WHOLE: [&str; 5] = [
    "audit",
    "--report=r",
    "--shards=1",
    "--phi=1000000",
    "--weigh=packets",
];

const WHOLE_BY_NIBBLES: [&str; 6] = [
    "audit",
    "--report=r",
    "--shards=1",
    "--phi=1000000",
    "--weigh=packets",
    "--bits=4",
];

// The session over one packet.
pub(crate) const SOUND_TEXT: &str =
    "opened 0\nreport\nat 1\ntotal 100\nthreshold 1\nline 10.1.2.3/32 20.1.2.3/32 100 100\ndone\nframes 1\nskipped 0 0 0\nend\n";

// The arguments, the packets, the text, what the run ends in, and what is written.
type Case = (
    &'static [&'static str],
    &'static [Packet],
    &'static str,
    Status,
    &'static str,
);

// A session over one packet, with its lines changed. Then sessions by half bytes.
const CASES: [Case; 10] = [
    (&AUDIT, &[ONE], SOUND_TEXT, Status::Done, "good 1\n"),
    (
        &AUDIT,
        &[ONE],
        "opened 0\nreport\nat 1\ntotal 100\nthreshold 1\nline 10.1.2.3/32 20.1.2.3/32 99 99\ndone\nframes 1\nskipped 0 0 0\nend\n",
        Status::AuditNo {
            report: 1,
            verdict: Verdict::BadInterval(1),
        },
        "report 1: bad interval in line 1\n",
    ),
    (
        &AUDIT,
        &[ONE],
        "opened 0\nreport\nat 1\ntotal 100\nthreshold 1\nline 10.1.2.3/32 20.1.2.3/32 100 100\nline 0.0.0.0/0 0.0.0.0/0 100 100\ndone\nframes 1\nskipped 0 0 0\nend\n",
        Status::AuditNo {
            report: 1,
            verdict: Verdict::NotJustified(2),
        },
        "report 1: not justified in line 2\n",
    ),
    (
        &AUDIT,
        &[],
        SOUND_TEXT,
        Status::AuditNo {
            report: 1,
            verdict: Verdict::BadPositions,
        },
        "report 1: bad positions\n",
    ),
    (
        &AUDIT,
        &[ONE],
        "opened 0\nreport\nat 1\ntotal 99\nthreshold 1\nline 10.1.2.3/32 20.1.2.3/32 100 100\ndone\nframes 1\nskipped 0 0 0\nend\n",
        Status::AuditNo {
            report: 1,
            verdict: Verdict::BadTotal,
        },
        "report 1: bad total\n",
    ),
    (
        &AUDIT,
        &[ONE],
        "opened 0\nreport\nat 1\ntotal 100\nthreshold 2\nline 10.1.2.3/32 20.1.2.3/32 100 100\ndone\nframes 1\nskipped 0 0 0\nend\n",
        Status::AuditNo {
            report: 1,
            verdict: Verdict::BadThreshold,
        },
        "report 1: bad threshold\n",
    ),
    // The second report is wrong, and the third as well.
    (
        &AUDIT,
        &[ONE],
        "opened 0\nreport\nat 0\ntotal 0\nthreshold 1\ndone\nsaved 0\nreport\nat 1\ntotal 0\nthreshold 1\ndone\nreport\nat 2\ntotal 0\nthreshold 1\ndone\nframes 1\nskipped 0 0 0\nend\n",
        Status::AuditNo {
            report: 2,
            verdict: Verdict::BadTotal,
        },
        "report 2: bad total\n",
    ),
    // The numbers of frames are not audited.
    (
        &AUDIT,
        &[ONE],
        "opened 0\nreport\nat 0\ntotal 0\nthreshold 1\ndone\nreport\nat 1\ntotal 100\nthreshold 1\nline 10.1.2.3/32 20.1.2.3/32 100 100\ndone\nframes 9\nskipped 9 9 9\nend\n",
        Status::Done,
        "good 2\n",
    ),
    (
        &WHOLE_BY_NIBBLES,
        &HALVES,
        HALVES_BY_NIBBLES,
        Status::Done,
        "good 1\n",
    ),
    // By bytes no length is 12.
    (
        &WHOLE,
        &HALVES,
        HALVES_BY_NIBBLES,
        Status::BadReport(TextFault::BadLine(6)),
        "",
    ),
];

pub(crate) fn audits<R: Abort + Threads + Wait + Sync>(
    rt: &R,
    alloc: Global,
    handed: &Handed,
) -> Result<(), Fail> {
    each_is_audited(rt, alloc, handed, &CASES)?;
    each_names_what_is_left_out(rt, alloc, handed, &LEFT_OUT)
}

// A table is a parameter of what goes through it: a proof with the table in every fact takes far longer.
fn each_is_audited<R: Abort + Threads + Wait + Sync>(
    rt: &R,
    alloc: Global,
    handed: &Handed,
    cases: &[Case],
) -> Result<(), Fail> {
    for (words, packets, text, status, written) in cases {
        let text = text.as_bytes();
        let ended = audit_over(rt, alloc, handed, words, packets, text, SOUND_CALLS)?;
        compare(rt, ended, *status, written.as_bytes());
    }
    Ok(())
}

// The arguments, the packets, the text, the weight of what is left out, and what is written.
type LeftOut = (
    &'static [&'static str],
    &'static [Packet],
    &'static str,
    u64,
    &'static str,
);

const LEFT_OUT: [LeftOut; 2] = [
    // No line has the packet's prefix.
    (
        &AUDIT,
        &[ONE],
        "opened 0\nreport\nat 1\ntotal 100\nthreshold 1\ndone\nframes 1\nskipped 0 0 0\nend\n",
        100,
        "report 1: left out 10.1.2.3/32 20.1.2.3/32 100\n",
    ),
    // By half bytes a network inside that of the line has all packets.
    (
        &WHOLE_BY_NIBBLES,
        &HALVES,
        HALVES_BY_BYTES,
        2,
        "report 1: left out 10.16.0.0/12 20.0.0.1/32 2\n",
    ),
];

fn each_names_what_is_left_out<R: Abort + Threads + Wait + Sync>(
    rt: &R,
    alloc: Global,
    handed: &Handed,
    cases: &[LeftOut],
) -> Result<(), Fail> {
    for (words, packets, text, weight, written) in cases {
        let text = text.as_bytes();
        let ended = audit_over(rt, alloc, handed, words, packets, text, SOUND_CALLS)?;
        assert!(rt; is_left_out(&ended.status, *weight));
        assert_eq!(rt; ended.text.as_slice(), written.as_bytes());
    }
    Ok(())
}

// Whether the first report left out something of this weight.
fn is_left_out(status: &Status, weight: u64) -> bool {
    match status {
        Status::AuditNo {
            report: 1,
            verdict: Verdict::LeftOut(_, left),
        } => *left == weight,
        _ => false,
    }
}

// The lines of a report over eleven packets, of which one, two or none are changed, and what the audit writes.
type Change = (&'static str, &'static str);

const CHANGES: [Change; 16] = [
    (
        "at 6 5\ntotal 11\nthreshold 6\nline 1.0.0.1/32 101.0.0.1/32 5 6\nline 0.0.0.0/0 0.0.0.0/0 11 11\n",
        "good 1\n",
    ),
    (
        "at 7 5\ntotal 11\nthreshold 6\nline 1.0.0.1/32 101.0.0.1/32 5 6\nline 0.0.0.0/0 0.0.0.0/0 11 11\n",
        "report 1: bad positions\n",
    ),
    (
        "at 6 4\ntotal 11\nthreshold 6\nline 1.0.0.1/32 101.0.0.1/32 5 6\nline 0.0.0.0/0 0.0.0.0/0 11 11\n",
        "report 1: bad total\n",
    ),
    (
        "at 6 5\ntotal 12\nthreshold 6\nline 1.0.0.1/32 101.0.0.1/32 5 6\nline 0.0.0.0/0 0.0.0.0/0 11 11\n",
        "report 1: bad total\n",
    ),
    (
        "at 6 5\ntotal 11\nthreshold 5\nline 1.0.0.1/32 101.0.0.1/32 5 6\nline 0.0.0.0/0 0.0.0.0/0 11 11\n",
        "report 1: bad threshold\n",
    ),
    (
        "at 6 5\ntotal 11\nthreshold 7\nline 1.0.0.1/32 101.0.0.1/32 5 6\nline 0.0.0.0/0 0.0.0.0/0 11 11\n",
        "report 1: bad threshold\n",
    ),
    // The prefix weighs 6.
    (
        "at 6 5\ntotal 11\nthreshold 6\nline 1.0.0.1/32 101.0.0.1/32 5 5\nline 0.0.0.0/0 0.0.0.0/0 11 11\n",
        "report 1: bad interval in line 1\n",
    ),
    (
        "at 6 5\ntotal 11\nthreshold 6\nline 1.0.0.1/32 101.0.0.1/32 7 7\nline 0.0.0.0/0 0.0.0.0/0 11 11\n",
        "report 1: bad interval in line 1\n",
    ),
    (
        "at 6 5\ntotal 11\nthreshold 6\nline 1.0.0.1/32 101.0.0.1/32 5 6\nline 0.0.0.0/0 0.0.0.0/0 12 12\n",
        "report 1: bad interval in line 2\n",
    ),
    // Four times 3 is above 11, and four times 2 is not.
    (
        "at 6 5\ntotal 11\nthreshold 6\nline 1.0.0.1/32 101.0.0.1/32 3 6\nline 0.0.0.0/0 0.0.0.0/0 11 11\n",
        "report 1: too wide in line 1\n",
    ),
    (
        "at 6 5\ntotal 11\nthreshold 6\nline 1.0.0.1/32 101.0.0.1/32 5 7\nline 0.0.0.0/0 0.0.0.0/0 11 11\n",
        "good 1\n",
    ),
    (
        "at 6 5\ntotal 11\nthreshold 6\nline 1.0.0.1/32 101.0.0.1/32 5 6\nline 0.0.0.0/0 0.0.0.0/0 11 14\n",
        "report 1: too wide in line 2\n",
    ),
    (
        "at 6 5\ntotal 11\nthreshold 6\nline 1.0.0.1/32 101.0.0.1/32 5 6\nline 2.0.0.1/32 102.0.0.1/32 1 1\nline 0.0.0.0/0 0.0.0.0/0 11 11\n",
        "report 1: below threshold in line 2\n",
    ),
    // Its weight is that of the line before: four times 0 and twice 11 are below four times 6.
    (
        "at 6 5\ntotal 11\nthreshold 6\nline 1.0.0.1/32 101.0.0.1/32 5 6\nline 1.0.0.0/24 101.0.0.1/32 6 6\nline 0.0.0.0/0 0.0.0.0/0 11 11\n",
        "report 1: not justified in line 2\n",
    ),
    (
        "at 6 5\ntotal 11\nthreshold 6\nline 0.0.0.0/0 0.0.0.0/0 11 11\n",
        "report 1: left out 1.0.0.1/32 101.0.0.1/32 6\n",
    ),
    // Without the first line's packets 5 remain, which is below the threshold.
    (
        "at 6 5\ntotal 11\nthreshold 6\nline 1.0.0.1/32 101.0.0.1/32 5 6\n",
        "good 1\n",
    ),
];

pub(crate) fn finds_each_change<R: Abort + Threads + Wait + Sync>(
    rt: &R,
    alloc: Global,
    handed: &Handed,
) -> Result<(), Fail> {
    each_change_is_found(rt, alloc, handed, &CHANGES)
}

fn each_change_is_found<R: Abort + Threads + Wait + Sync>(
    rt: &R,
    alloc: Global,
    handed: &Handed,
    changes: &[Change],
) -> Result<(), Fail> {
    for (report, written) in changes {
        let text = session_of(alloc, report)?;
        let ended = audit_eleven(rt, alloc, handed, &text)?;
        assert_eq!(rt; ended.text.as_slice(), written.as_bytes());
    }
    Ok(())
}

// The text of a session with these lines of its report.
fn session_of(alloc: Global, report: &str) -> Result<Vec<u8>, AllocError> {
    let mut text = Vec::from_slice(alloc, b"opened 0 0\nreport\n")?;
    text.extend_from_slice(report.as_bytes())?;
    text.extend_from_slice(b"done\nframes 11\nskipped 0 0 0\nend\n")?;
    Ok(text)
}

// A text, and what is wrong with it.
type BadText = (&'static str, TextFault);

const BAD_TEXTS: [BadText; 9] = [
    (
        "opened 0 0\nreport\nat 1\ntotal 100\nthreshold 1\nline 10.1.2.3/32 20.1.2.3/32 100 100\ndone\nframes 1\nskipped 0 0 0\nend\n",
        TextFault::BadLine(3),
    ),
    (
        "opened 0\nreport\nat 1\ntotal 100\nthreshold 0\nline 10.1.2.3/32 20.1.2.3/32 100 100\ndone\nframes 1\nskipped 0 0 0\nend\n",
        TextFault::BadLine(5),
    ),
    (
        "opened 0\nreport\nat 1\ntotal 100\nthreshold 1\nline 10.1.2.3/32 20.1.2.3/32 101 100\ndone\nframes 1\nskipped 0 0 0\nend\n",
        TextFault::BadLine(6),
    ),
    (
        "opened 0\nreport\nat 1\ntotal 100\nthreshold 1\nline 10.1.2.3/32 20.1.2.3/32 100 100\nline 10.1.2.3/32 20.1.2.3/32 100 100\ndone\nframes 1\nskipped 0 0 0\nend\n",
        TextFault::BadLine(7),
    ),
    (
        "opened 0\nreport\nat 16777217\ntotal 100\nthreshold 1\nline 10.1.2.3/32 20.1.2.3/32 100 100\ndone\nframes 1\nskipped 0 0 0\nend\n",
        TextFault::BadLine(3),
    ),
    (
        "opened 0\nreport\nat 0\ntotal 00\nthreshold 1\ndone\nframes 0\nskipped 0 0 0\nend\n",
        TextFault::BadLine(4),
    ),
    (
        "opened 0\nreport\nat 0\ntotal 0\nthreshold 1\ndone\n",
        TextFault::MissingEnd(7),
    ),
    (
        "opened 0\nreport\nat 0\ntotal 0\nthreshold 1\ndone\nframes 0\nskipped 0 0 0\nend\nx",
        TextFault::BadLine(10),
    ),
    ("", TextFault::MissingEnd(1)),
];

pub(crate) fn refuses_texts<R: Abort + Threads + Wait + Sync>(
    rt: &R,
    alloc: Global,
    handed: &Handed,
) -> Result<(), Fail> {
    each_text_is_refused(rt, alloc, handed, &BAD_TEXTS)
}

fn each_text_is_refused<R: Abort + Threads + Wait + Sync>(
    rt: &R,
    alloc: Global,
    handed: &Handed,
    texts: &[BadText],
) -> Result<(), Fail> {
    for (text, fault) in texts {
        let text = text.as_bytes();
        let ended = audit_over(rt, alloc, handed, &AUDIT, &[], text, SOUND_CALLS)?;
        compare(rt, ended, Status::BadReport(*fault), b"");
    }
    Ok(())
}

// Which calls of the capture, of the text and of the sink fail.
#[derive(Clone, Copy)]
struct Fails {
    capture: &'static [u64],
    text: &'static [u64],
    sink: &'static [u64],
}

const SOUND_CALLS: Fails = Fails {
    capture: &[],
    text: &[],
    sink: &[],
};

// What fails, and what an audit ends in.
type Failing = (Fails, Status);

const FAILING: [Failing; 3] = [
    (
        Fails {
            capture: &[0],
            ..SOUND_CALLS
        },
        Status::ReadFault,
    ),
    (
        Fails {
            text: &[2],
            ..SOUND_CALLS
        },
        Status::ReadFault,
    ),
    (
        Fails {
            sink: &[0],
            ..SOUND_CALLS
        },
        Status::WriteFault,
    ),
];

pub(crate) fn tells_the_faults_of_its_inputs<R: Abort + Threads + Wait + Sync>(
    rt: &R,
    alloc: Global,
    handed: &Handed,
) -> Result<(), Fail> {
    each_fault_is_told(rt, alloc, handed, &FAILING)
}

fn each_fault_is_told<R: Abort + Threads + Wait + Sync>(
    rt: &R,
    alloc: Global,
    handed: &Handed,
    failing: &[Failing],
) -> Result<(), Fail> {
    let text = SOUND_TEXT.as_bytes();
    for (fails, status) in failing {
        let ended = audit_over(rt, alloc, handed, &AUDIT, &[ONE], text, *fails)?;
        compare(rt, ended, *status, b"");
    }
    Ok(())
}

// A session with rounds of three callers, each report of which is sound.
pub(crate) fn own_reports_are_good<R: Abort + Threads + Wait + Sync>(
    rt: &R,
    alloc: Global,
    handed: &Handed,
) -> Result<(), Fail> {
    let words = [
        "report",
        "--shards=2",
        "--capacity=4",
        "--phi=500000",
        "--weigh=packets",
        "--block=1",
        "--callers=2",
        "--rounds=3",
    ];
    let capture = capture_of(alloc, &ELEVEN)?;
    let session = run_over(rt, alloc, handed, &words, capture, SOUND)?;
    assert_eq!(rt; session.status, Status::Done);
    let ended = audit_eleven(rt, alloc, handed, &session.text)?;
    compare(rt, ended, Status::Done, b"good 10\n");
    Ok(())
}

// Audits a text over the eleven packets.
fn audit_eleven<R: Threads + Wait + Sync>(
    rt: &R,
    alloc: Global,
    handed: &Handed,
    text: &[u8],
) -> Result<Ended, AllocError> {
    audit_over(rt, alloc, handed, &NARROW, &ELEVEN, text, SOUND_CALLS)
}

// Audits a text over a capture of these packets, both read in pieces.
fn audit_over<R: Threads + Wait + Sync>(
    rt: &R,
    alloc: Global,
    handed: &Handed,
    words: &[&str],
    packets: &[Packet],
    text: &[u8],
    fails: Fails,
) -> Result<Ended, AllocError> {
    let capture = capture_of(alloc, packets)?;
    let mut capture = MemorySource::new(capture, Vec::from_slice(alloc, fails.capture)?, 64);
    let text = Vec::from_slice(alloc, text)?;
    let mut text = MemorySource::new(text, Vec::from_slice(alloc, fails.text)?, 50);
    let fails = Vec::from_slice(alloc, fails.sink)?;
    let mut sink = MemorySink::with_room(alloc, 4096, fails)?;
    run_with(rt, alloc, handed, words, &mut capture, &mut text, &mut sink)
}
