//! The plain table, flat copies, and sources of entries.

ghost use Rattle.std.specs.Prelude.{◌≤◌};

use super::{has_entries, next, numbers_of, table_after};
use space_saving::{Entry, EntrySource, Flat, PlainTable, Summary};
use std::alloc::{AllocError, Global};
use std::test::Fail;

const A: u64 = 0x0a01_0203_1401_0203;

const B: u64 = 7;

const C: u64 = u64::MAX;

/// An entry: the key, the count and the error.
type Row = (u64, u64, u64);

fn entry_of((key, count, error): Row) -> Entry {
    Entry { key, count, error }
}

fn entries_of(alloc: Global, rows: &[Row]) -> Result<Vec<Entry>, AllocError> {
    let mut entries = Vec::new(alloc);
    for row in rows {
        entries.push(entry_of(*row))?;
    }
    Ok(entries)
}

/// The adds in order, and the entries of a table of capacity 2.
type Case = (&'static [(u64, u32)], [Row; 2]);

const CASES: [Case; 3] = [
    // A new key replaces the head and takes its count as error.
    (&[(A, 5), (B, 3), (C, 4)], [(A, 5, 0), (C, 7, 3)]),
    // Of equal counts the one put in first stands at the head.
    (&[(A, 1), (B, 1), (C, 1)], [(B, 1, 0), (C, 2, 1)]),
    // An entry that moves up stands after its equals.
    (&[(A, 5), (B, 3), (A, 1), (B, 3)], [(A, 6, 0), (B, 6, 0)]),
];

#[test]
fn adds_leave_these_entries(rt: HostRuntime) -> Result<(), Fail> {
    assert_eq!(rt; first_wrong_case(rt.alloc(), &CASES)?, None);
    Ok(())
}

fn first_wrong_case(alloc: Global, cases: &[Case]) -> Result<Option<usize>, Fail> {
    for (place, (adds, rows)) in cases.iter().enumerate() {
        if !leave_these(alloc, adds, rows)? {
            return Ok(Some(place));
        }
    }
    Ok(None)
}

fn leave_these(alloc: Global, adds: &[(u64, u32)], rows: &[Row]) -> Result<bool, Fail> {
    let entries = entries_of(alloc, rows)?;
    let table: PlainTable = table_after(alloc, 2, adds)?;
    Ok(has_entries(&table, &entries))
}

// The adds for three keys.
const ADDS: [(u64, u32); 3] = [(A, 5), (B, 3), (C, 4)];

#[test]
fn tables_answer(rt: HostRuntime) -> Result<(), Fail> {
    let full: PlainTable = table_after(rt.alloc(), 2, &ADDS)?;
    assert!(rt; is_full(&full));
    let wide: PlainTable = table_after(rt.alloc(), 3, &[(A, 5), (B, 3)])?;
    assert!(rt; has_room(&wide));
    Ok(())
}

fn is_full(table: &PlainTable) -> bool {
    table.interval(A) == (5, 5)
        && table.interval(C) == (4, 7)
        && table.interval(B) == (0, 5)
        && numbers_of(table) == (2, 2, 12, true)
}

fn has_room(table: &PlainTable) -> bool {
    table.interval(C) == (0, 0) && numbers_of(table) == (2, 3, 8, false)
}

#[test]
fn copies_are_equal(rt: HostRuntime) -> Result<(), Fail> {
    let empty = Flat::with_room(rt.alloc(), 2)?;
    assert!(rt; is_empty_copy(&empty));
    assert!(rt; a_copy_goes_both_ways(rt.alloc())?);
    Ok(())
}

fn is_empty_copy(flat: &Flat) -> bool {
    flat.len() == 0 && flat.capacity() == 2 && flat.total() == 0 && flat.interval(A) == (0, 0)
}

/// Copies a table, and restores it from the copy.
fn a_copy_goes_both_ways(alloc: Global) -> Result<bool, Fail> {
    let rows = entries_of(alloc, &[(A, 5, 0), (C, 7, 3)])?;
    let table: PlainTable = table_after(alloc, 2, &ADDS)?;
    let flat = copy_of(alloc, &table)?;
    let again = PlainTable::restore(alloc, &flat)?;
    Ok(
        is_copy(&flat)
            && has_entries(&table, &rows)
            && has_entries(&again, &rows)
            && again.total() == 12,
    )
}

fn copy_of(alloc: Global, table: &PlainTable) -> Result<Flat, Fail> {
    let mut flat = Flat::with_room(alloc, 2)?;
    if table.capacity() != flat.capacity() {
        return Err("another capacity".into());
    }
    table.copy_into(&mut flat);
    Ok(flat)
}

fn is_copy(flat: &Flat) -> bool {
    flat.len() == 2
        && flat.capacity() == 2
        && flat.total() == 12
        && flat.entry(1) == entry_of((C, 7, 3))
        && flat.interval(B) == (0, 5)
}

/// Two entries, and whether they are those of a table of capacity 2.
type Tested = ([Row; 2], bool);

const TESTED: [Tested; 6] = [
    // Counts fall.
    ([(A, 7, 0), (B, 5, 0)], false),
    // One key twice.
    ([(A, 5, 0), (A, 7, 0)], false),
    // An error that isn't below its count.
    ([(A, 5, 5), (B, 7, 0)], false),
    // An error above the total divided by the capacity.
    ([(A, 1, 0), (B, 9, 6)], false),
    // A total of 2^56.
    ([(A, 1, 0), (B, 0xff_ffff_ffff_ffff, 0)], false),
    ([(A, 5, 0), (B, 7, 3)], true),
];

#[test]
fn entries_are_tested(rt: HostRuntime) -> Result<(), Fail> {
    assert_eq!(rt; first_wrong_test(rt.alloc(), &TESTED)?, None);
    Ok(())
}

fn first_wrong_test(alloc: Global, tests: &[Tested]) -> Result<Option<usize>, Fail> {
    for (place, (rows, accepted)) in tests.iter().enumerate() {
        let [first, second] = *rows;
        let mut entries = Vec::with_capacity(alloc, 2)?;
        entries.push(entry_of(first))?;
        entries.push(entry_of(second))?;
        if Flat::from_entries(2, entries).is_some() != *accepted {
            return Ok(Some(place));
        }
    }
    Ok(None)
}

/// A source that gives the entries of a slice.
#[derive(Clone, Copy)]
struct Listed<'a>(&'a [Entry]);

impl EntrySource for Listed<'_> {
    ghost entries = { λ listed. listed.0.now };

    fn entry_count(&self) -> usize {
        self.0.len()
    }

    fn write_entries(&self, into: &mut [Entry]) {
        into.copy_from_slice(self.0);
    }
}

const REFILLS: [&[Row]; 4] = [
    &[(A, 5, 0), (C, 7, 3)],
    &[(B, 1, 0), (C, 2, 0), (A, 6, 3)],
    &[],
    &[(C, 4, 0)],
];

#[test]
fn tables_are_refilled(rt: HostRuntime) -> Result<(), Fail> {
    assert_eq!(rt; first_wrong_refill(rt.alloc(), &REFILLS)?, None);
    Ok(())
}

fn first_wrong_refill(alloc: Global, refills: &[&[Row]]) -> Result<Option<usize>, Fail> {
    let mut flat = Flat::with_room(alloc, 3)?;
    for (place, rows) in refills.iter().enumerate() {
        if !is_refilled(alloc, &mut flat, rows)? {
            return Ok(Some(place));
        }
    }
    Ok(None)
}

/// Refills a flat copy with the entries of a table of capacity 3.
fn is_refilled(alloc: Global, flat: &mut Flat, rows: &[Row]) -> Result<bool, Fail> {
    let entries = entries_of(alloc, rows)?;
    let mut copied = Vec::with_capacity(alloc, 3)?;
    copied.extend_from_slice(&entries)?;
    let same = Flat::from_entries(3, copied).ok_or("a table")?;
    if same.capacity() != 3 || flat.capacity() != 3 {
        return Ok(false);
    }
    flat.refill(&Listed(&entries));
    Ok(flat.total() == same.total() && holds_entries(flat, &entries))
}

fn holds_entries(flat: &Flat, entries: &[Entry]) -> bool {
    if flat.len() != entries.len() {
        return false;
    }
    for (place, entry) in entries.iter().enumerate() {
        if place >= flat.len() || flat.entry(place) != *entry {
            return false;
        }
    }
    true
}

/// The three cases by an independent method: the changed entry is appended, and a stable sort by count then puts it
/// after those with the same count.
fn plain_step(
    alloc: Global,
    entries: &[Entry],
    capacity: usize,
    key: u64,
    weight: u64,
) -> Result<Vec<Entry>, AllocError> {
    let known = entries.iter().copied().find(|entry| entry.key == key);
    let (gone, new) = match (known, entries.first().copied()) {
        (Some(old), _) => (
            Some(key),
            entry_of((key, old.count.saturating_add(weight), old.error)),
        ),
        (None, Some(head)) if entries.len() == capacity => (
            Some(head.key),
            entry_of((key, head.count.saturating_add(weight), head.count)),
        ),
        _ => (None, entry_of((key, weight, 0))),
    };
    let mut after = Vec::new(alloc);
    for entry in entries {
        if Some(entry.key) != gone {
            after.push(*entry)?;
        }
    }
    after.push(new)?;
    after.sort_by_key(|entry| entry.count)?;
    Ok(after)
}

/// Whether a table has the entries of the plain step after each of 2,000 random adds, and then holds each key's weight.
fn follow_the_plain_step<T: Summary + Drop>(
    alloc: Global,
    capacity: u32,
) -> Result<bool, AllocError>
    requires least { 2 ≤ capacity }
    requires most { capacity ≤ 4096 }
{
    let mut table = T::with_capacity(alloc, capacity)?;
    let mut entries = Vec::new(alloc);
    let mut weights = [0u64; 8];
    let mut random: u64 = 7;
    for _ in 0..2000 {
        random = next(random);
        let key = (random >> 33) % 8;
        let weight = 1 + ((random >> 50) % 9) as u32;
        if table.total() >= 1 << 40 {
            return Ok(false);
        }
        table.add(key, weight);
        entries = plain_step(alloc, &entries, capacity as usize, key, u64::from(weight))?;
        weights[key as usize] = weights[key as usize].saturating_add(u64::from(weight));
        if !has_entries(&table, &entries) {
            return Ok(false);
        }
    }
    Ok(holds_weights(&table, &weights))
}

/// Whether the interval of each key, from 0 on, holds its weight.
fn holds_weights<T: Summary>(table: &T, weights: &[u64]) -> bool {
    for (key, weight) in weights.iter().enumerate() {
        let (low, high) = table.interval(key as u64);
        if *weight < low || high < *weight {
            return false;
        }
    }
    true
}

#[test]
fn random_adds_follow_the_plain_step(rt: HostRuntime) -> Result<(), Fail> {
    assert!(rt; follow_the_plain_step::<PlainTable>(rt.alloc(), 2)?);
    assert!(rt; follow_the_plain_step::<PlainTable>(rt.alloc(), 3)?);
    assert!(rt; follow_the_plain_step::<PlainTable>(rt.alloc(), 16)?);
    Ok(())
}
