//! Records that are dealt by rules.

ghost use Rattle.std.specs.Prelude.{◌≡◌, ◌%◌, bit_xor};
ghost use Rattle.deal_rules.specs.{IsAsked};

use deal_rules::{DealKind, Dealer, Dealers, Dealt, deal};
use prefix_lattice::{Record, RecordList};
use std::alloc::{AllocError, Global};
use std::test::Fail;

// The source, the destination and the weight of each record.
const RECORDS: [(u32, u32, u32); 5] = [(7, 1, 1), (4, 4, 2), (7, 2, 3), (16, 255, 4), (33, 0, 5)];

// A number of shards, and the expected shard of each record.
type Row = (u32, [u32; 5]);

fn records_of(alloc: Global) -> Result<RecordList, Fail> {
    let mut list = RecordList::new(alloc);
    for (src, dst, weight) in RECORDS {
        list.push(Record::new(src, dst, weight).ok_or("a weight of 0")?)?;
    }
    Ok(list)
}

// The place of the first row by which the records are not dealt.
fn first_wrong(alloc: Global, dealer: &Dealer, rows: &[Row]) -> Result<Option<usize>, Fail> {
    let list = records_of(alloc)?;
    for (place, (shards, numbers)) in rows.iter().enumerate() {
        if !is_dealt(alloc, dealer, &list, *shards, *numbers)? {
            return Ok(Some(place));
        }
    }
    Ok(None)
}

fn is_dealt(
    alloc: Global,
    dealer: &Dealer,
    list: &RecordList,
    shards: u32,
    numbers: [u32; 5],
) -> Result<bool, Fail> {
    if shards < 1 || shards > 16 {
        return Err("number of shards".into());
    }
    if list.len() > 16_777_216 {
        return Err("too many records".into());
    }
    let dealt = deal(alloc, list, dealer, shards)?;
    Ok(dealt.shards() == shards && has_each_shard(alloc, &dealt, list, numbers)?)
}

// Whether each shard has its records, also in a copy turned into lists.
fn has_each_shard(
    alloc: Global,
    dealt: &Dealt,
    list: &RecordList,
    numbers: [u32; 5],
) -> Result<bool, AllocError> {
    let copies = dealt.copy(alloc)?.into_lists();
    for shard in 0..dealt.shards() {
        let copy = copies[shard as usize].as_slice();
        let want = list_of(alloc, list, numbers, shard)?;
        if dealt.list(shard).as_slice() != want.as_slice() || copy != want.as_slice() {
            return Ok(false);
        }
    }
    Ok(true)
}

fn list_of(
    alloc: Global,
    list: &RecordList,
    numbers: [u32; 5],
    shard: u32,
) -> Result<Vec<Record>, AllocError> {
    let mut records = Vec::new(alloc);
    for (rec, number) in list.as_slice().iter().zip(numbers) {
        if number == shard {
            records.push(*rec)?;
        }
    }
    Ok(records)
}

fn by_place(place: u64, rec: Record, shards: u32) -> u32
    requires { IsAsked place rec shards }
    ensures { result ≡ place % shards }
{
    (place % u64::from(shards)) as u32
}

fn by_source(place: u64, rec: Record, shards: u32) -> u32
    requires { IsAsked place rec shards }
    ensures { result ≡ rec.src % shards }
{
    rec.src % shards
}

fn by_both(place: u64, rec: Record, shards: u32) -> u32
    requires { IsAsked place rec shards }
    ensures { result ≡ bit_xor rec.src rec.dst % shards }
{
    (rec.src ^ rec.dst) % shards
}

// A rule that uses only the first shard.
fn to_the_first(place: u64, rec: Record, shards: u32) -> u32
    requires { IsAsked place rec shards }
    ensures { result ≡ 0 }
{
    0
}

const IN_TURN: [Row; 4] = [
    (1, [0, 0, 0, 0, 0]),
    (2, [0, 1, 0, 1, 0]),
    (3, [0, 1, 2, 0, 1]),
    (16, [0, 1, 2, 3, 4]),
];

const BY_SOURCE: [Row; 4] = [
    (1, [0, 0, 0, 0, 0]),
    (2, [1, 0, 1, 0, 1]),
    (3, [1, 1, 1, 1, 0]),
    (16, [7, 4, 7, 0, 1]),
];

const BY_BOTH: [Row; 4] = [
    (1, [0, 0, 0, 0, 0]),
    (2, [0, 0, 1, 1, 1]),
    (3, [0, 0, 2, 2, 0]),
    (16, [6, 0, 5, 15, 1]),
];

const TO_THE_FIRST: [Row; 4] = [
    (1, [0, 0, 0, 0, 0]),
    (2, [0, 0, 0, 0, 0]),
    (3, [0, 0, 0, 0, 0]),
    (16, [0, 0, 0, 0, 0]),
];

fn dealers_of(alloc: Global) -> Result<Dealers, AllocError> {
    let round = Box::new(alloc, by_place)?;
    let source = Box::new(alloc, by_source)?;
    let free = Box::new(alloc, by_both)?;
    Ok(Dealers {
        round: Dealer::new(DealKind::RoundRobin, round),
        source: Dealer::new(DealKind::BySource, source),
        free: Dealer::new(DealKind::Free, free),
    })
}

// The place of the first row by which the dealer of a kind does not deal.
fn first_wrong_of(alloc: Global, kind: DealKind, rows: &[Row]) -> Result<Option<usize>, Fail> {
    let dealers = dealers_of(alloc)?;
    let dealer = dealers.of(kind);
    if dealer.kind() != kind {
        return Err("dealer of another kind".into());
    }
    first_wrong(alloc, dealer, rows)
}

#[test]
fn deals_by_each_kind(rt: HostRuntime) -> Result<(), Fail> {
    assert_eq!(rt;
        first_wrong_of(rt.alloc(), DealKind::RoundRobin, &IN_TURN)?,
        None
    );
    assert_eq!(rt;
        first_wrong_of(rt.alloc(), DealKind::BySource, &BY_SOURCE)?,
        None
    );
    assert_eq!(rt; first_wrong_of(rt.alloc(), DealKind::Free, &BY_BOTH)?, None);
    Ok(())
}

#[test]
fn deals_all_to_one_shard(rt: HostRuntime) -> Result<(), Fail> {
    assert_eq!(rt; first_wrong_of_one(rt.alloc(), &TO_THE_FIRST)?, None);
    Ok(())
}

// The place of the first row by which the dealer that uses only the first shard does not deal.
fn first_wrong_of_one(alloc: Global, rows: &[Row]) -> Result<Option<usize>, Fail> {
    let dealer = Dealer::new(DealKind::Free, Box::new(alloc, to_the_first)?);
    first_wrong(alloc, &dealer, rows)
}
