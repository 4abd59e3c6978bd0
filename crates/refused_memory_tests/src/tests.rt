ghost use Rattle.std.specs.Prelude.{◌≡◌, ◌≤◌, ◌/◌, ◌%◌, min};
ghost use Rattle.deal_rules.specs.{IsAsked};

use deal_rules::{DealKind, Dealer, Dealers};
use hhh_engine::Status;
use prefix_lattice::Record;
use std::alloc::{AllocError, Global};
use std::marker::Sync;
use std::sync::Wait;
use std::test::Fail;
use std::thread::Threads;
use test_runs::{Ended, FORMAT, Handed, ONE, REPORT, SECOND_SESSION, SESSION, disk_with, run_on};
use watch_rules::Judge;

// The rule of `round`, for which alone these runs ask, and a rule of `free`: in turn.
fn by_place(place: u64, rec: Record, shards: u32) -> u32
    requires { IsAsked place rec shards }
    ensures { result ≡ place % shards }
{
    (place % u64::from(shards)) as u32
}

// The rule of `source`: by the source address.
fn by_source(place: u64, rec: Record, shards: u32) -> u32
    requires { IsAsked place rec shards }
    ensures { result ≡ rec.src % shards }
{
    rec.src % shards
}

// The severity of an alarm, which these runs don't ask for: how many times the low holds the limit, at most 7.
fn by_multiple(lo: u64, _hi: u64, limit: u64) -> u32
    requires { 1 ≤ limit }
    ensures { result ≡ min (lo / limit) 7 }
{
    (lo / limit).min(7) as u32
}

// The dealers and the judge that follow these rules.
fn handed_of(alloc: Global) -> Result<Handed, AllocError> {
    Ok(Handed {
        dealers: Dealers {
            round: Dealer::new(DealKind::RoundRobin, Box::new(alloc, by_place)?),
            source: Dealer::new(DealKind::BySource, Box::new(alloc, by_source)?),
            free: Dealer::new(DealKind::Free, Box::new(alloc, by_place)?),
        },
        judge: Judge::new(Box::new(alloc, by_multiple)?),
    })
}

// The arguments of a run, and what it writes.
type Run = (&'static [&'static str], &'static str);

const RUNS: [Run; 3] = [
    (&FORMAT, "formatted\n"),
    (&REPORT, SESSION),
    (&REPORT, SECOND_SESSION),
];

// A store is formatted, a report is saved into it, and the next one goes on from there. Where memory runs out in one of these
// runs, it has written the beginning of its text, or nothing.
#[test]
fn goes_on_where_it_stopped(rt: HostRuntime) -> Result<(), Fail> {
    let alloc = rt.alloc();
    let handed = handed_of(alloc)?;
    assert_eq!(rt; first_wrong_run(&rt, alloc, &handed, &RUNS)?, None);
    Ok(())
}

// What a run wrote: its whole text, the beginning of it where memory ran out, or something else.
#[derive(Clone, Copy)]
enum Found {
    Whole,
    Beginning,
    Wrong,
}

// The place of the first run that went wrong. After one whose memory ran out there is none. A table is a parameter of what
// goes through it: a proof with the table in every fact takes far longer.
fn first_wrong_run<R: Threads + Wait + Sync>(
    rt: &R,
    alloc: Global,
    handed: &Handed,
    runs: &[Run],
) -> Result<Option<usize>, AllocError> {
    let mut disk = disk_with(alloc, &[], None, &[])?;
    for (place, (words, text)) in runs.iter().enumerate() {
        let ended = run_on(rt, alloc, handed, words, &[ONE], &mut disk)?;
        match found_in(&ended, text.as_bytes()) {
            Found::Whole => {}
            Found::Beginning => return Ok(None),
            Found::Wrong => return Ok(Some(place)),
        }
    }
    Ok(None)
}

fn found_in(ended: &Ended, text: &[u8]) -> Found {
    if ended.status == Status::OutOfMemory && text.starts_with(&ended.text) {
        Found::Beginning
    } else if ended.status == Status::Done && ended.text.as_slice() == text {
        Found::Whole
    } else {
        Found::Wrong
    }
}
