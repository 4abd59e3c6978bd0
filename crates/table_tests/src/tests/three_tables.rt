//! The three bodies of a table, one beside the other.

ghost use Rattle.std.specs.Prelude.{◌≤◌};

use super::{has_entries, next, numbers_of, table_after};
use rank_table::RankTable;
use space_saving::{Entry, Flat, PlainTable, Summary};
use std::alloc::{AllocError, Global};
use std::test::Fail;
use stream_summary::StreamTable;

const A: u64 = 0x0a01_0203_1401_0203;

const B: u64 = 7;

const C: u64 = u64::MAX;

const D: u64 = 0;

const E: u64 = 1 << 40;

/// The adds in order, the capacity, and the entries that they leave: the key, the count and the error of each.
type Case = (&'static [(u64, u32)], u32, &'static [(u64, u64, u64)]);

const CASES: [Case; 7] = [
    (&[], 2, &[]),
    // A new key replaces the head and takes its count as error.
    (&[(A, 5), (B, 3), (C, 4)], 2, &[(A, 5, 0), (C, 7, 3)]),
    // Of equal counts the one put in first stands at the head.
    (&[(A, 1), (B, 1), (C, 1)], 2, &[(B, 1, 0), (C, 2, 1)]),
    // An entry that moves up stands after its equals.
    (
        &[(A, 5), (B, 3), (A, 1), (B, 3)],
        2,
        &[(A, 6, 0), (B, 6, 0)],
    ),
    // The greatest count below the new one isn't equal to it.
    (
        &[(A, 5), (B, 3), (C, 4)],
        3,
        &[(B, 3, 0), (C, 4, 0), (A, 5, 0)],
    ),
    // A bucket of several entries loses its first, and then takes another as its last.
    (
        &[(A, 1), (B, 1), (C, 1), (B, 1), (D, 1)],
        3,
        &[(C, 1, 0), (B, 2, 0), (D, 2, 1)],
    ),
    (
        &[(A, 1), (B, 1), (C, 1), (B, 1), (D, 1), (E, 1)],
        3,
        &[(B, 2, 0), (D, 2, 1), (E, 2, 1)],
    ),
];

#[test]
fn adds_leave_these_entries(rt: HostRuntime) -> Result<(), Fail> {
    assert_eq!(rt; first_wrong_case::<PlainTable>(rt.alloc(), &CASES)?, None);
    assert_eq!(rt; first_wrong_case::<RankTable>(rt.alloc(), &CASES)?, None);
    assert_eq!(rt; first_wrong_case::<StreamTable>(rt.alloc(), &CASES)?, None);
    Ok(())
}

fn first_wrong_case<T: Summary + Drop>(
    alloc: Global,
    cases: &[Case],
) -> Result<Option<usize>, Fail> {
    for (place, (adds, capacity, rows)) in cases.iter().enumerate() {
        if !leave_these::<T>(alloc, adds, *capacity, rows)? {
            return Ok(Some(place));
        }
    }
    Ok(None)
}

fn leave_these<T: Summary + Drop>(
    alloc: Global,
    adds: &[(u64, u32)],
    capacity: u32,
    rows: &[(u64, u64, u64)],
) -> Result<bool, Fail> {
    if capacity < 2 || capacity > 4096 {
        return Ok(false);
    }
    let mut entries = Vec::new(alloc);
    for (key, count, error) in rows {
        entries.push(Entry {
            key: *key,
            count: *count,
            error: *error,
        })?;
    }
    let table: T = table_after(alloc, capacity, adds)?;
    Ok(has_entries(&table, &entries))
}

#[test]
fn bounds_of_three_tables(rt: HostRuntime) -> Result<(), Fail> {
    assert!(rt; bounds_weights::<PlainTable>(rt.alloc())?);
    assert!(rt; bounds_weights::<RankTable>(rt.alloc())?);
    assert!(rt; bounds_weights::<StreamTable>(rt.alloc())?);
    Ok(())
}

fn bounds_weights<T: Summary + Drop>(alloc: Global) -> Result<bool, Fail> {
    let table: T = table_after(alloc, 2, &[(A, 5), (B, 3), (C, 4)])?;
    Ok(
        table.interval(A) == (5, 5)
            && table.interval(C) == (4, 7)
            && table.interval(B) == (0, 5)
            && numbers_of(&table) == (2, 2, 12, true),
    )
}

/// A table of each body.
#[derive(Drop)]
pub(super) struct Three {
    plain: PlainTable,
    ranked: RankTable,
    stream: StreamTable,
}

/// Adds of weights up to `weights` for keys below `keys`, by random numbers.
#[derive(Drop)]
struct Adds {
    random: u64,
    keys: u64,
    weights: u64,
}

/// A copy of a table.
fn copy_of<T: Summary>(alloc: Global, table: &T) -> Result<Flat, AllocError> {
    let mut copy = Flat::with_room(alloc, table.capacity())?;
    table.copy_into(&mut copy);
    Ok(copy)
}

fn are_equal_copies(flat: &Flat, expected: &Flat) -> bool {
    if flat.len() != expected.len() || flat.total() != expected.total() {
        return false;
    }
    for place in 0..flat.len() {
        if place >= expected.len() || flat.entry(place) != expected.entry(place) {
            return false;
        }
    }
    true
}

/// Empty tables of this capacity.
pub(super) fn three_with_capacity(alloc: Global, capacity: u32) -> Result<Three, AllocError>
    requires least { 2 ≤ capacity }
    requires most { capacity ≤ 4096 }
{
    Ok(Three {
        plain: PlainTable::with_capacity(alloc, capacity)?,
        ranked: RankTable::with_capacity(alloc, capacity)?,
        stream: StreamTable::with_capacity(alloc, capacity)?,
    })
}

/// Whether the three have the same entries, in their order.
pub(super) fn are_equal(alloc: Global, tables: &Three) -> Result<bool, AllocError> {
    let expected = copy_of(alloc, &tables.plain)?;
    Ok(
        are_equal_copies(&copy_of(alloc, &tables.ranked)?, &expected)
            && are_equal_copies(&copy_of(alloc, &tables.stream)?, &expected),
    )
}

/// Adds the weight for a key, if the table can take it. Returns whether it can.
fn add_if_it_can<T: Summary>(table: &mut T, key: u64, weight: u32) -> bool {
    if weight == 0 || table.total() >= 1 << 55 {
        return false;
    }
    table.add(key, weight);
    true
}

/// Adds the weight for a key to each table. Returns whether they can take it.
pub(super) fn add_to_each(tables: &mut Three, key: u64, weight: u32) -> bool {
    add_if_it_can(&mut tables.plain, key, weight)
        && add_if_it_can(&mut tables.ranked, key, weight)
        && add_if_it_can(&mut tables.stream, key, weight)
}

/// Makes the next add to each table. Returns whether they can take it.
fn add_next(tables: &mut Three, adds: &mut Adds) -> bool {
    let random = next(adds.random);
    adds.random = random;
    if adds.keys == 0 || adds.weights == 0 || adds.weights >= 1 << 32 {
        return false;
    }
    let key = (random >> 33) % adds.keys;
    let weight = 1 + ((random >> 24) % adds.weights) as u32;
    add_to_each(tables, key, weight)
}

/// Whether the three have the same interval for each of these keys.
fn have_equal_intervals(tables: &Three, keys: u64) -> bool {
    for key in 0..keys {
        let expected = tables.plain.interval(key);
        if tables.ranked.interval(key) != expected || tables.stream.interval(key) != expected {
            return false;
        }
    }
    true
}

/// Whether the three are equal after each of this many adds.
fn follow(
    alloc: Global,
    tables: &mut Three,
    adds: &mut Adds,
    turns: u32,
) -> Result<bool, AllocError> {
    for _turn in 0..turns {
        if !add_next(tables, adds) || !are_equal(alloc, tables)? {
            return Ok(false);
        }
    }
    Ok(have_equal_intervals(tables, adds.keys))
}

/// Three tables that are restored from copies of these.
fn restored(alloc: Global, tables: &Three) -> Result<Three, AllocError> {
    Ok(Three {
        plain: PlainTable::restore(alloc, &copy_of(alloc, &tables.plain)?)?,
        ranked: RankTable::restore(alloc, &copy_of(alloc, &tables.ranked)?)?,
        stream: StreamTable::restore(alloc, &copy_of(alloc, &tables.stream)?)?,
    })
}

/// Whether the three are equal after each of 2,000 adds, and restored ones after each of 500 more.
fn three_stay_equal(
    alloc: Global,
    capacity: u32,
    keys: u64,
    weights: u64,
) -> Result<bool, AllocError>
    requires least { 2 ≤ capacity }
    requires most { capacity ≤ 4096 }
{
    let mut adds = Adds {
        random: 7,
        keys,
        weights,
    };
    let mut tables = three_with_capacity(alloc, capacity)?;
    if !follow(alloc, &mut tables, &mut adds, 2000)? {
        return Ok(false);
    }
    let mut again = restored(alloc, &tables)?;
    follow(alloc, &mut again, &mut adds, 500)
}

/// Whether the three of four capacities stay equal.
fn stay_equal(alloc: Global, weights: u64) -> Result<bool, AllocError> {
    Ok(
        three_stay_equal(alloc, 2, 8, weights)?
            && three_stay_equal(alloc, 3, 8, weights)?
            && three_stay_equal(alloc, 16, 40, weights)?
            && three_stay_equal(alloc, 512, 1200, weights)?,
    )
}

#[test]
fn tables_of_equal_weights_stay_equal(rt: HostRuntime) -> Result<(), Fail> {
    assert!(rt; stay_equal(rt.alloc(), 1)?);
    Ok(())
}

#[test]
fn tables_of_few_weights_stay_equal(rt: HostRuntime) -> Result<(), Fail> {
    // Small weights make many ties.
    assert!(rt; stay_equal(rt.alloc(), 3)?);
    Ok(())
}

#[test]
fn tables_of_many_weights_stay_equal(rt: HostRuntime) -> Result<(), Fail> {
    assert!(rt; stay_equal(rt.alloc(), 1500)?);
    Ok(())
}

#[test]
fn tables_of_great_weights_stay_equal(rt: HostRuntime) -> Result<(), Fail> {
    // Nearly each entry has a bucket of its own.
    assert!(rt; stay_equal(rt.alloc(), u64::from(u32::MAX))?);
    Ok(())
}
