//! The staircase law, counted over each small set of prefixes.

ghost use Rattle.std.specs.Prelude.{◌<◌, length};

use super::prefix_of_texts;
use prefix_lattice::{Prefix, Prefixes, Record};
use std::alloc::{AllocError, Global};
use std::test::Fail;

// Each side that keeps at most two bytes, each of which is 0 or 1.
const SIDES: [&str; 7] = [
    "0.0.0.0/0",
    "0.0.0.0/8",
    "1.0.0.0/8",
    "0.0.0.0/16",
    "0.1.0.0/16",
    "1.0.0.0/16",
    "1.1.0.0/16",
];

// Each address whose first two bytes are 0 or 1 and whose other bytes are 0.
const ADDRESSES: [u32; 4] = [0, 0x0001_0000, 0x0100_0000, 0x0101_0000];

/// What was counted.
#[derive(Clone, Copy, Debug, PartialEq, Eq)]
struct Tally {
    /// Sets of incomparable prefixes.
    sets: u32,
    /// Records that some member of a set covers, counted for each set.
    covered: u32,
    /// Those of them for which the law holds.
    obeyed: u32,
}

impl Tally {
    fn add(&mut self, other: Tally) {
        self.sets = self.sets.saturating_add(other.sets);
        self.covered = self.covered.saturating_add(other.covered);
        self.obeyed = self.obeyed.saturating_add(other.obeyed);
    }
}

// How many kept pairs of the members have a meet that covers the record.
fn kept_covering(members: &[Prefix], rec: &Record) -> usize {
    let mut kept = 0usize;
    for second in 0..members.len() {
        for first in 0..second {
            if keeps(members, first, second, rec) {
                kept = kept.saturating_add(1);
            }
        }
    }
    kept
}

// Whether the meet of two members covers the record, and is under no third member.
fn keeps(members: &[Prefix], first: usize, second: usize, rec: &Record) -> bool
    requires first { first < length members.now }
    requires second { second < length members.now }
{
    let Some(meet) = members[first].meet(&members[second]) else {
        return false;
    };
    let third = (0..members.len()).any(|place| place != first
        && place != second
        && meet.under(&members[place]));
    meet.covers(rec) && !third
}

fn counts_of(members: &[Prefix], records: &[Record]) -> Tally {
    let mut tally = Tally {
        sets: 1,
        covered: 0,
        obeyed: 0,
    };
    for rec in records {
        let covering = members.iter().filter(|member| member.covers(rec)).count();
        if covering > 0 {
            tally.covered = tally.covered.saturating_add(1);
            if kept_covering(members, rec) == covering - 1 {
                tally.obeyed = tally.obeyed.saturating_add(1);
            }
        }
    }
    tally
}

// The prefixes of a list that are not under this one, and that this one is not under.
fn apart_from(alloc: Global, prefix: Prefix, others: &[Prefix]) -> Result<Prefixes, AllocError> {
    let mut apart = Prefixes::new(alloc);
    for other in others {
        if !prefix.under(other) && !other.under(&prefix) {
            apart.push(*other)?;
        }
    }
    Ok(apart)
}

// Counts over these three members, and over these with each possible fourth member after them.
fn of_three(
    alloc: Global,
    members: [Prefix; 3],
    later: &[Prefix],
    records: &[Record],
) -> Result<Tally, AllocError> {
    let [first, second, third] = members;
    let mut all = counts_of(&members, records);
    for fourth in apart_from(alloc, third, later)?.as_slice() {
        all.add(counts_of(&[first, second, third, *fourth], records));
    }
    Ok(all)
}

fn of_two(
    alloc: Global,
    first: Prefix,
    second: Prefix,
    later: &[Prefix],
    records: &[Record],
) -> Result<Tally, AllocError> {
    let mut all = counts_of(&[first, second], records);
    let apart = apart_from(alloc, second, later)?;
    let apart = apart.as_slice();
    for place in 0..apart.len() {
        all.add(of_three(
            alloc,
            [first, second, apart[place]],
            &apart[place + 1..],
            records,
        )?);
    }
    Ok(all)
}

fn of_one(
    alloc: Global,
    first: Prefix,
    later: &[Prefix],
    records: &[Record],
) -> Result<Tally, AllocError> {
    let mut all = counts_of(&[first], records);
    let apart = apart_from(alloc, first, later)?;
    let apart = apart.as_slice();
    for place in 0..apart.len() {
        all.add(of_two(alloc, first, apart[place], &apart[place + 1..], records)?);
    }
    Ok(all)
}

fn small_prefixes(alloc: Global) -> Result<Prefixes, Fail> {
    let mut prefixes = Prefixes::new(alloc);
    for source in SIDES {
        for dest in SIDES {
            prefixes.push(prefix_of_texts(source, dest)?)?;
        }
    }
    Ok(prefixes)
}

fn small_records(alloc: Global) -> Result<Vec<Record>, Fail> {
    let mut records = Vec::new(alloc);
    for src in ADDRESSES {
        for dst in ADDRESSES {
            records.push(Record::new(src, dst, 1).ok_or("a weight of 0")?)?;
        }
    }
    Ok(records)
}

// What is counted over every small set.
fn tally_of_all(
    alloc: Global,
    prefixes: &[Prefix],
    records: &[Record],
) -> Result<Tally, AllocError> {
    let mut all = Tally {
        sets: 0,
        covered: 0,
        obeyed: 0,
    };
    for place in 0..prefixes.len() {
        all.add(of_one(alloc, prefixes[place], &prefixes[place + 1..], records)?);
    }
    Ok(all)
}

fn tally_of_small_sets(alloc: Global) -> Result<Tally, Fail> {
    let prefixes = small_prefixes(alloc)?;
    let records = small_records(alloc)?;
    Ok(tally_of_all(alloc, prefixes.as_slice(), records.as_slice())?)
}

// Counted by an independent program.
const COUNTED: Tally = Tally {
    sets: 75_681,
    covered: 591_648,
    obeyed: 591_648,
};

#[test]
fn each_small_set_obeys_the_staircase_law(rt: HostRuntime) -> Result<(), Fail> {
    let all = tally_of_small_sets(rt.alloc())?;
    assert!(rt; all == COUNTED);
    Ok(())
}
