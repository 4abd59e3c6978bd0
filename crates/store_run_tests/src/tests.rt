ghost use Rattle.std.specs.Prelude.{◌≡◌, ◌≤◌, ◌/◌, ◌%◌, min};
ghost use Rattle.deal_rules.specs.{IsAsked};

mod damaged_stores;
mod first_version;
mod one_failing_call;
mod stores;

use deal_rules::{DealKind, Dealer, Dealers};
use prefix_lattice::Record;
use std::alloc::Global;
use std::marker::Sync;
use std::process::Abort;
use std::sync::Wait;
use std::test::Fail;
use std::thread::Threads;
use test_runs::Handed;
use watch_rules::Judge;

// The rule of `round`, for which alone these runs ask, and a rule of `free`: in turn.
fn by_place(place: u64, rec: Record, shards: u32) -> u32
    requires { IsAsked place rec shards }
    ensures { result ≡ place % shards }
{
    (place % u64::from(shards)) as u32
}

// The rule of `source`: by the source address.
fn by_source(place: u64, rec: Record, shards: u32) -> u32
    requires { IsAsked place rec shards }
    ensures { result ≡ rec.src % shards }
{
    rec.src % shards
}

// The severity of an alarm: how many times the low holds the limit, and 7 where it holds it more often.
fn by_multiple(lo: u64, _hi: u64, limit: u64) -> u32
    requires { 1 ≤ limit }
    ensures { result ≡ min (lo / limit) 7 }
{
    (lo / limit).min(7) as u32
}

#[test]
fn goes_on_from_stores(rt: HostRuntime) -> Result<(), Fail> {
    let alloc = rt.alloc();
    let handed = Handed {
        dealers: Dealers {
            round: Dealer::new(DealKind::RoundRobin, Box::new(alloc, by_place)?),
            source: Dealer::new(DealKind::BySource, Box::new(alloc, by_source)?),
            free: Dealer::new(DealKind::Free, Box::new(alloc, by_place)?),
        },
        judge: Judge::new(Box::new(alloc, by_multiple)?),
    };
    each_store(&rt, alloc, &handed)
}

// The dealers are the caller's: a proof with them at each of these ends takes far longer.
fn each_store<R: Abort + Threads + Wait + Sync>(
    rt: &R,
    alloc: Global,
    handed: &Handed,
) -> Result<(), Fail> {
    stores::saves_each_round(rt, alloc, handed)?;
    stores::formats(rt, alloc, handed)?;
    stores::refuses_stores(rt, alloc, handed)?;
    stores::keeps_tables_by_half_bytes(rt, alloc, handed)?;
    first_version::stores_of_the_first_version(rt, alloc, handed)?;
    first_version::headers_of_no_version(rt, alloc, handed)?;
    damaged_stores::damaged_stores(rt, alloc, handed)?;
    stores::tells_the_faults_of_the_disk(rt, alloc, handed)
}

#[test]
fn goes_on_after_one_failing_call(rt: HostRuntime) -> Result<(), Fail> {
    let alloc = rt.alloc();
    let handed = Handed {
        dealers: Dealers {
            round: Dealer::new(DealKind::RoundRobin, Box::new(alloc, by_place)?),
            source: Dealer::new(DealKind::BySource, Box::new(alloc, by_source)?),
            free: Dealer::new(DealKind::Free, Box::new(alloc, by_place)?),
        },
        judge: Judge::new(Box::new(alloc, by_multiple)?),
    };
    each_failing_call(&rt, alloc, &handed)
}

fn each_failing_call<R: Abort + Threads + Wait + Sync>(
    rt: &R,
    alloc: Global,
    handed: &Handed,
) -> Result<(), Fail> {
    one_failing_call::a_source_fails(rt, alloc, handed)?;
    one_failing_call::a_sink_fails(rt, alloc, handed)?;
    one_failing_call::a_disk_fails(rt, alloc, handed)
}

// A run on a fresh store makes twenty calls of the disk: two to open it, and six for each of its three saves.
#[test]
fn goes_on_after_two_stops(rt: HostRuntime) -> Result<(), Fail> {
    let alloc = rt.alloc();
    let handed = Handed {
        dealers: Dealers {
            round: Dealer::new(DealKind::RoundRobin, Box::new(alloc, by_place)?),
            source: Dealer::new(DealKind::BySource, Box::new(alloc, by_source)?),
            free: Dealer::new(DealKind::Free, Box::new(alloc, by_place)?),
        },
        judge: Judge::new(Box::new(alloc, by_multiple)?),
    };
    one_failing_call::the_disk_stops_twice(&rt, alloc, &handed, 0, 7)
}

#[test]
fn goes_on_after_two_stops_in_a_round(rt: HostRuntime) -> Result<(), Fail> {
    let alloc = rt.alloc();
    let handed = Handed {
        dealers: Dealers {
            round: Dealer::new(DealKind::RoundRobin, Box::new(alloc, by_place)?),
            source: Dealer::new(DealKind::BySource, Box::new(alloc, by_source)?),
            free: Dealer::new(DealKind::Free, Box::new(alloc, by_place)?),
        },
        judge: Judge::new(Box::new(alloc, by_multiple)?),
    };
    one_failing_call::the_disk_stops_twice(&rt, alloc, &handed, 7, 7)
}

#[test]
fn goes_on_after_two_stops_at_the_end(rt: HostRuntime) -> Result<(), Fail> {
    let alloc = rt.alloc();
    let handed = Handed {
        dealers: Dealers {
            round: Dealer::new(DealKind::RoundRobin, Box::new(alloc, by_place)?),
            source: Dealer::new(DealKind::BySource, Box::new(alloc, by_source)?),
            free: Dealer::new(DealKind::Free, Box::new(alloc, by_place)?),
        },
        judge: Judge::new(Box::new(alloc, by_multiple)?),
    };
    one_failing_call::the_disk_stops_twice(&rt, alloc, &handed, 14, 6)
}
