ghost use Rattle.std.specs.Prelude.{◌≡◌, ◌≤◌, ◌/◌, ◌%◌, min, bit_xor};
ghost use Rattle.deal_rules.specs.{IsAsked};

mod audits;
mod cut_captures;
mod disk_faults;
mod endings;
mod gates;
mod hostile_captures;
mod indexed_lines;
mod made;
mod pcapng_captures;
mod refusals;
mod reports;
mod rounds;
mod watches;
mod weights;

use deal_rules::{DealKind, Dealer, Dealers};
use prefix_lattice::Record;
use std::alloc::Global;
use std::marker::Sync;
use std::process::Abort;
use std::sync::Wait;
use std::test::Fail;
use std::thread::Threads;
use test_runs::Handed;
use watch_rules::Judge;

// The rule of `round`: in turn.
fn by_place(place: u64, rec: Record, shards: u32) -> u32
    requires { IsAsked place rec shards }
    ensures { result ≡ place % shards }
{
    (place % u64::from(shards)) as u32
}

// The rule of `source`: by the source address.
fn by_source(place: u64, rec: Record, shards: u32) -> u32
    requires { IsAsked place rec shards }
    ensures { result ≡ rec.src % shards }
{
    rec.src % shards
}

// A rule of `free`: by both addresses.
fn by_both(place: u64, rec: Record, shards: u32) -> u32
    requires { IsAsked place rec shards }
    ensures { result ≡ bit_xor rec.src rec.dst % shards }
{
    (rec.src ^ rec.dst) % shards
}

// A rule that uses only the first shard.
fn to_the_first(place: u64, rec: Record, shards: u32) -> u32
    requires { IsAsked place rec shards }
    ensures { result ≡ 0 }
{
    0
}

// The severity of an alarm: how many times the low holds the limit, and 7 where it holds it more often.
fn by_multiple(lo: u64, _hi: u64, limit: u64) -> u32
    requires { 1 ≤ limit }
    ensures { result ≡ min (lo / limit) 7 }
{
    (lo / limit).min(7) as u32
}

#[test]
fn answers_and_refuses(rt: HostRuntime) -> Result<(), Fail> {
    let alloc = rt.alloc();
    let handed = Handed {
        dealers: Dealers {
            round: Dealer::new(DealKind::RoundRobin, Box::new(alloc, by_place)?),
            source: Dealer::new(DealKind::BySource, Box::new(alloc, by_source)?),
            free: Dealer::new(DealKind::Free, Box::new(alloc, by_both)?),
        },
        judge: Judge::new(Box::new(alloc, by_multiple)?),
    };
    each_answer(&rt, alloc, &handed)
}

// The dealers are the caller's: a proof with them at each of these ends takes far longer.
fn each_answer<R: Abort + Threads + Wait + Sync>(
    rt: &R,
    alloc: Global,
    handed: &Handed,
) -> Result<(), Fail> {
    weights::weighs_prefixes(rt, alloc, handed)?;
    weights::weighs_the_longest_frame(rt, alloc, handed)?;
    reports::reports(rt, alloc, handed)?;
    reports::reads_the_four_spellings_of_the_magic(rt, alloc, handed)?;
    reports::counts_frames_without_a_record(rt, alloc, handed)?;
    refusals::refuses_words(rt, alloc, handed)?;
    refusals::refuses_captures(rt, alloc, handed)?;
    hostile_captures::each_front_of_a_capture(rt, alloc, handed)?;
    hostile_captures::a_frame_of_all_ones(rt, alloc, handed)?;
    cut_captures::fronts_are_taken(rt, alloc, handed)?;
    cut_captures::each_front_is_weighed(rt, alloc, handed)?;
    pcapng_captures::blocks_are_reported(rt, alloc, handed)?;
    pcapng_captures::two_sections_are_weighed(rt, alloc, handed)?;
    refusals::tells_the_faults_of_source_and_sink(rt, alloc, handed)?;
    rounds::reports_in_rounds(rt, alloc, handed)?;
    rounds::ends_at_the_first_fault(rt, alloc, handed)?;
    rounds::two_workers_feed_at_once(rt, alloc, handed)?;
    rounds::a_round_reads_what_was_folded(rt, alloc, handed)?;
    rounds::each_thread_has_its_number(rt, alloc, handed)
}

#[test]
fn goes_on_after_faults_of_the_disk(rt: HostRuntime) -> Result<(), Fail> {
    let alloc = rt.alloc();
    let handed = Handed {
        dealers: Dealers {
            round: Dealer::new(DealKind::RoundRobin, Box::new(alloc, by_place)?),
            source: Dealer::new(DealKind::BySource, Box::new(alloc, by_source)?),
            free: Dealer::new(DealKind::Free, Box::new(alloc, by_both)?),
        },
        judge: Judge::new(Box::new(alloc, by_multiple)?),
    };
    disk_faults::goes_on_after_each_fault(&rt, alloc, &handed)
}

#[test]
fn audits_sessions(rt: HostRuntime) -> Result<(), Fail> {
    let alloc = rt.alloc();
    let handed = Handed {
        dealers: Dealers {
            round: Dealer::new(DealKind::RoundRobin, Box::new(alloc, by_place)?),
            source: Dealer::new(DealKind::BySource, Box::new(alloc, by_source)?),
            free: Dealer::new(DealKind::Free, Box::new(alloc, by_both)?),
        },
        judge: Judge::new(Box::new(alloc, by_multiple)?),
    };
    each_audit(&rt, alloc, &handed)
}

fn each_audit<R: Abort + Threads + Wait + Sync>(
    rt: &R,
    alloc: Global,
    handed: &Handed,
) -> Result<(), Fail> {
    audits::audits(rt, alloc, handed)?;
    audits::finds_each_change(rt, alloc, handed)?;
    audits::refuses_texts(rt, alloc, handed)?;
    audits::tells_the_faults_of_its_inputs(rt, alloc, handed)?;
    audits::own_reports_are_good(rt, alloc, handed)?;
    watches::watches(rt, alloc, handed)
}

#[test]
fn a_free_rule_deals_as_it_answers(rt: HostRuntime) -> Result<(), Fail> {
    let alloc = rt.alloc();
    let handed = Handed {
        dealers: Dealers {
            round: Dealer::new(DealKind::RoundRobin, Box::new(alloc, by_place)?),
            source: Dealer::new(DealKind::BySource, Box::new(alloc, by_source)?),
            free: Dealer::new(DealKind::Free, Box::new(alloc, to_the_first)?),
        },
        judge: Judge::new(Box::new(alloc, by_multiple)?),
    };
    reports::deals_to_the_first(&rt, alloc, &handed)
}

#[test]
fn tells_each_status(rt: HostRuntime) -> Result<(), Fail> {
    let alloc = rt.alloc();
    refusals::tells_each_status(&rt, alloc)
}

#[test]
fn makes_traffic(rt: HostRuntime) -> Result<(), Fail> {
    let alloc = rt.alloc();
    let handed = Handed {
        dealers: Dealers {
            round: Dealer::new(DealKind::RoundRobin, Box::new(alloc, by_place)?),
            source: Dealer::new(DealKind::BySource, Box::new(alloc, by_source)?),
            free: Dealer::new(DealKind::Free, Box::new(alloc, by_both)?),
        },
        judge: Judge::new(Box::new(alloc, by_multiple)?),
    };
    each_made_capture(&rt, alloc, &handed)
}

fn each_made_capture<R: Abort + Threads + Wait + Sync>(
    rt: &R,
    alloc: Global,
    handed: &Handed,
) -> Result<(), Fail> {
    made::makes_a_capture(rt, alloc, handed)?;
    made::demonstrates(rt, alloc, handed)?;
    made::demonstrates_by_half_bytes(rt, alloc, handed)?;
    made::demonstrates_the_same_with_one_worker(rt, alloc, handed)
}

#[test]
fn an_index_gives_what_a_plain_list_gives(rt: HostRuntime) -> Result<(), Fail> {
    let alloc = rt.alloc();
    let dealer = Dealer::new(DealKind::RoundRobin, Box::new(alloc, by_place)?);
    indexed_lines::compares_a_report(&rt, alloc, &dealer)
}
