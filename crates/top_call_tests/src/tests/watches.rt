//! What `watch` tells.

use super::audits::SOUND_TEXT;
use super::endings::{compare, run_with};
use super::reports::{HALVES_BY_NIBBLES, ONE_OF_ELEVEN};
use hhh_engine::{Opt, Status, WordsKind};
use outside_io::{MemorySink, MemorySource};
use report_text::TextFault;
use std::alloc::{AllocError, Global};
use std::marker::Sync;
use std::process::Abort;
use std::sync::Wait;
use std::test::Fail;
use std::thread::Threads;
use test_runs::{Ended, Handed};

// The arguments, the text, what the run ends in, and what is written.
type Case = (&'static [&'static str], &'static str, Status, &'static str);

const CASES: [Case; 9] = [
    (
        &["watch", "--report", "R", "--limit", "100"],
        SOUND_TEXT,
        Status::Done,
        "alarm 1 10.1.2.3/32 20.1.2.3/32 100 1\nalarms 1\nend\n",
    ),
    (
        &["watch", "--report=R", "--limit=101"],
        SOUND_TEXT,
        Status::Done,
        "alarms 0\nend\n",
    ),
    // The second report has the same line, of which the first has told.
    (
        &["watch", "--report=R", "--limit=100"],
        "opened 0\nreport\nat 1\ntotal 100\nthreshold 1\nline 10.1.2.3/32 20.1.2.3/32 100 100\ndone\nreport\nat 1\ntotal 100\nthreshold 1\nline 10.1.2.3/32 20.1.2.3/32 100 100\ndone\nframes 1\nskipped 0 0 0\nend\n",
        Status::Done,
        "alarm 1 10.1.2.3/32 20.1.2.3/32 100 1\nalarms 1\nend\n",
    ),
    // The low of the first report's line is below the limit.
    (
        &["watch", "--report=R", "--limit=10"],
        "opened 0\nreport\nat 1\ntotal 90\nthreshold 1\nline 10.1.2.3/32 20.1.2.3/32 9 90\ndone\nreport\nat 1\ntotal 90\nthreshold 1\nline 10.1.2.3/32 20.1.2.3/32 30 90\ndone\nframes 1\nskipped 0 0 0\nend\n",
        Status::Done,
        "alarm 2 10.1.2.3/32 20.1.2.3/32 30 3\nalarms 1\nend\n",
    ),
    // The root, with a low of 11, isn't under the network of the sources.
    (
        &["watch", "--report=R", "--limit=5", "--src=1.0.0.0/8"],
        ONE_OF_ELEVEN,
        Status::Done,
        "alarm 1 1.0.0.1/32 101.0.0.1/32 5 1\nalarms 1\nend\n",
    ),
    (
        &["watch", "--report=R", "--limit=1"],
        ONE_OF_ELEVEN,
        Status::Done,
        "alarm 1 1.0.0.1/32 101.0.0.1/32 5 5\nalarm 1 0.0.0.0/0 0.0.0.0/0 11 7\nalarms 2\nend\n",
    ),
    (
        &[
            "watch",
            "--report=R",
            "--limit=2",
            "--bits=4",
            "--src=10.16.0.0/12",
        ],
        HALVES_BY_NIBBLES,
        Status::Done,
        "alarm 1 10.16.0.0/12 20.0.0.1/32 2 1\nalarms 1\nend\n",
    ),
    // By bytes no length is 12.
    (
        &["watch", "--report=R", "--limit=2"],
        HALVES_BY_NIBBLES,
        Status::BadReport(TextFault::BadLine(6)),
        "",
    ),
    (
        &["watch", "--report=R", "--limit=0"],
        SOUND_TEXT,
        Status::BadWords(WordsKind::OutOfLimits(Opt::Limit)),
        "",
    ),
];

pub(crate) fn watches<R: Abort + Threads + Wait + Sync>(
    rt: &R,
    alloc: Global,
    handed: &Handed,
) -> Result<(), Fail> {
    each_is_watched(rt, alloc, handed, &CASES)
}

// A table is a parameter of what goes through it: a proof with the table in every fact takes far longer.
fn each_is_watched<R: Abort + Threads + Wait + Sync>(
    rt: &R,
    alloc: Global,
    handed: &Handed,
    cases: &[Case],
) -> Result<(), Fail> {
    for (words, text, status, written) in cases {
        let ended = watch_over(rt, alloc, handed, words, text.as_bytes())?;
        compare(rt, ended, *status, written.as_bytes());
    }
    Ok(())
}

// A capture is not read: each call of its source fails.
fn watch_over<R: Threads + Wait + Sync>(
    rt: &R,
    alloc: Global,
    handed: &Handed,
    words: &[&str],
    text: &[u8],
) -> Result<Ended, AllocError> {
    let failing = Vec::from_slice(alloc, &[1])?;
    let mut capture = MemorySource::new(Vec::new(alloc), failing, 7);
    let text = Vec::from_slice(alloc, text)?;
    let mut text = MemorySource::new(text, Vec::new(alloc), 7);
    let mut sink = MemorySink::with_room(alloc, 256, Vec::new(alloc))?;
    run_with(rt, alloc, handed, words, &mut capture, &mut text, &mut sink)
}
