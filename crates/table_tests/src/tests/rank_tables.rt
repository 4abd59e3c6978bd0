//! The table of a shard, compared with the plain table.

ghost use Rattle.std.specs.Prelude.{◌≤◌};

use super::{has_entries, next, numbers_of, table_after};
use rank_table::RankTable;
use space_saving::{Entry, Flat, PlainTable, Summary};
use std::alloc::{AllocError, Global};
use std::test::Fail;

/// Adds of weights up to `weights` for keys below `keys`, by random numbers.
#[derive(Drop)]
struct Adds {
    random: u64,
    keys: u64,
    weights: u64,
}

/// The adds that a test begins with.
fn adds_of(keys: u64, weights: u64) -> Adds {
    Adds {
        random: 7,
        keys,
        weights,
    }
}

/// Makes the next add to both tables. Returns whether they can take it.
fn add_to_both(plain: &mut PlainTable, table: &mut RankTable, adds: &mut Adds) -> bool {
    let random = next(adds.random);
    adds.random = random;
    if adds.keys == 0 || adds.weights == 0 || adds.weights >= 1 << 32 {
        return false;
    }
    let key = (random >> 33) % adds.keys;
    let weight = 1 + ((random >> 24) % adds.weights) as u32;
    if plain.total() >= 1 << 55 || table.total() >= 1 << 55 {
        return false;
    }
    plain.add(key, weight);
    table.add(key, weight);
    true
}

/// Whether both tables have the same entries, in their order.
fn are_equal(alloc: Global, plain: &PlainTable, table: &RankTable) -> Result<bool, AllocError> {
    let mut expected = Flat::with_room(alloc, plain.capacity())?;
    plain.copy_into(&mut expected);
    let mut flat = Flat::with_room(alloc, table.capacity())?;
    table.copy_into(&mut flat);
    Ok(are_equal_copies(&flat, &expected))
}

fn are_equal_copies(flat: &Flat, expected: &Flat) -> bool {
    if flat.len() != expected.len() || flat.total() != expected.total() {
        return false;
    }
    for place in 0..flat.len() {
        if place >= expected.len() || flat.entry(place) != expected.entry(place) {
            return false;
        }
    }
    true
}

/// Whether both tables are equal after each of this many adds.
fn follow(
    alloc: Global,
    plain: &mut PlainTable,
    table: &mut RankTable,
    adds: &mut Adds,
    turns: u32,
) -> Result<bool, AllocError> {
    for _turn in 0..turns {
        if !add_to_both(plain, table, adds) || !are_equal(alloc, plain, table)? {
            return Ok(false);
        }
    }
    Ok(true)
}

/// The table that is restored from a copy of this one.
fn restored(alloc: Global, table: &RankTable) -> Result<RankTable, AllocError> {
    let mut flat = Flat::with_room(alloc, table.capacity())?;
    table.copy_into(&mut flat);
    RankTable::restore(alloc, &flat)
}

/// Whether both tables are equal after each of 2,000 adds, and a restored one after each of 500 more.
fn follow_the_plain_table(
    alloc: Global,
    capacity: u32,
    keys: u64,
    weights: u64,
) -> Result<bool, AllocError>
    requires least { 2 ≤ capacity }
    requires most { capacity ≤ 4096 }
{
    let mut adds = adds_of(keys, weights);
    let mut plain = PlainTable::with_capacity(alloc, capacity)?;
    let mut table = RankTable::with_capacity(alloc, capacity)?;
    if !follow(alloc, &mut plain, &mut table, &mut adds, 2000)? {
        return Ok(false);
    }
    let mut again = restored(alloc, &table)?;
    follow(alloc, &mut plain, &mut again, &mut adds, 500)
}

/// Whether tables of four capacities follow the plain table.
fn follow_plain_tables(alloc: Global, weights: u64) -> Result<bool, AllocError> {
    Ok(
        follow_the_plain_table(alloc, 2, 8, weights)?
            && follow_the_plain_table(alloc, 3, 8, weights)?
            && follow_the_plain_table(alloc, 16, 40, weights)?
            && follow_the_plain_table(alloc, 512, 1200, weights)?,
    )
}

#[test]
fn random_adds_follow_the_plain_table(rt: HostRuntime) -> Result<(), Fail> {
    // Few weights make many ties; many make counts that outgrow a word, in the smaller tables again and again.
    for weights in [2, 1500, u64::from(u32::MAX)] {
        assert!(rt;
            follow_plain_tables(rt.alloc(), weights)?,
            "weights up to {weights}"
        );
    }
    Ok(())
}

/// Whether both tables are equal after this many adds.
fn end_as_the_plain_table(
    alloc: Global,
    capacity: u32,
    turns: u32,
    mut adds: Adds,
) -> Result<bool, AllocError>
    requires least { 2 ≤ capacity }
    requires most { capacity ≤ 4096 }
{
    let mut plain = PlainTable::with_capacity(alloc, capacity)?;
    let mut table = RankTable::with_capacity(alloc, capacity)?;
    for _turn in 0..turns {
        if !add_to_both(&mut plain, &mut table, &mut adds) {
            return Ok(false);
        }
    }
    are_equal(alloc, &plain, &table)
}

#[test]
fn counts_that_outgrow_a_word_are_never_wrong(rt: HostRuntime) -> Result<(), Fail> {
    let alloc = rt.alloc();
    // Counts as far apart as weights allow, in the largest table. In the next the least count passes 2^34 twice.
    let far = adds_of(9000, u64::from(u32::MAX));
    assert!(rt; end_as_the_plain_table(alloc, 4096, 10_000, far)?);
    let far = adds_of(1200, u64::from(u32::MAX));
    assert!(rt; end_as_the_plain_table(alloc, 512, 10_000, far)?);
    Ok(())
}

/// Whether both tables are equal after nearly as many adds as times fit into a word, and after each of 1,000 more,
/// which are for other keys too.
fn follow_while_times_begin_anew(
    alloc: Global,
    capacity: u32,
    first_keys: u64,
    keys: u64,
) -> Result<bool, AllocError>
    requires least { 2 ≤ capacity }
    requires most { capacity ≤ 4096 }
{
    let mut adds = adds_of(first_keys, 3);
    let mut plain = PlainTable::with_capacity(alloc, capacity)?;
    let mut table = RankTable::with_capacity(alloc, capacity)?;
    for _turn in 0..(1 << 18) - 500 {
        if !add_to_both(&mut plain, &mut table, &mut adds) {
            return Ok(false);
        }
    }
    let mut more = adds_of(keys, 3);
    follow(alloc, &mut plain, &mut table, &mut more, 1000)
}

#[test]
fn times_that_begin_anew_keep_the_order(rt: HostRuntime) -> Result<(), Fail> {
    let alloc = rt.alloc();
    assert!(rt; follow_while_times_begin_anew(alloc, 2, 8, 8)?);
    assert!(rt; follow_while_times_begin_anew(alloc, 3, 5, 9)?);
    // Places without a slot, which take keys later.
    assert!(rt; follow_while_times_begin_anew(alloc, 40, 7, 90)?);
    // Twice.
    assert!(rt; end_as_the_plain_table(alloc, 16, (1 << 19) + 5000, adds_of(40, 9))?);
    Ok(())
}

#[test]
fn tables_answer(rt: HostRuntime) -> Result<(), Fail> {
    let empty: RankTable = table_after(rt.alloc(), 2, &[])?;
    assert!(rt; empty.interval(7) == (0, 0) && numbers_of(&empty) == (0, 2, 0, false));
    let two: RankTable = table_after(rt.alloc(), 2, &[(1, 5), (2, 3)])?;
    assert!(rt; two.interval(7) == (0, 3));
    let full: RankTable = table_after(rt.alloc(), 2, &[(1, 5), (2, 3), (3, 4)])?;
    assert!(rt; is_full(&full));
    Ok(())
}

fn is_full(table: &RankTable) -> bool {
    let last = Entry {
        key: 3,
        count: 7,
        error: 3,
    };
    let first = Entry {
        key: 1,
        count: 5,
        error: 0,
    };
    table.interval(1) == (5, 5)
        && table.interval(3) == (4, 7)
        && table.interval(2) == (0, 5)
        && numbers_of(table) == (2, 2, 12, true)
        && has_entries(table, &[first, last])
}
