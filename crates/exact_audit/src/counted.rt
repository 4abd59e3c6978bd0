//! The records that a report counts.

ghost use Rattle.std.specs.Prelude.{◌≡◌, ◌≤◌, ◌<◌, ◌*◌, ◌^◌, ◌++◌, ◌↔◌, List, length, All, IsTrue, IfOk, OnOk};
ghost use Rattle.prefix_lattice.specs.{PrefixValue, RecordValue, total_weight, total_limit, record_limit};
ghost use Rattle.hhh_report.specs.{records_before, AreWithinLists};
ghost use Rattle.exact_audit.specs.LineCodes.{AreLineCodes};
ghost use Rattle.exact_audit.specs.NodeSums.{AreCountedIn};
ghost use Rattle.exact_audit.specs.Counted.{part_at};

use crate::depths::Depths;
use crate::line_codes::LineCodes;
use deal_rules::Dealt;
use hhh_report::Positions;
use prefix_lattice::{Grain, Record};
use std::alloc::{AllocError, Global};

/// A record that is counted, with the depths that the lines that cover it reach.
#[derive(Clone, Copy, PartialEq, Eq)]
pub(crate) struct Counted {
    pub(crate) rec: Record,
    pub(crate) depths: Depths,
}

/// Whether there are as many positions as shards, and none is past the end of its shard's records.
pub(crate) fn are_within(dealt: &Dealt, positions: &Positions) -> bool
    ensures { IsTrue result ↔ AreWithinLists positions.now dealt.now }
{
    if positions.len() != dealt.shards() as usize {
        return false;
    }
    for shard in 0..dealt.shards() {
        if positions.at(shard as usize) > dealt.list(shard).len() as u64 {
            return false;
        }
    }
    true
}

/// The weight of the records before positions.
pub(crate) fn total_before(dealt: &Dealt, positions: &Positions) -> u64
    requires { AreWithinLists positions.now dealt.now }
    ensures total { result ≡ total_weight (records_before dealt.now positions.now) }
    ensures bounded { result < total_limit }
{
    let mut total = 0;
    for shard in 0..dealt.shards() {
        total += total_of(part(dealt, positions, shard));
    }
    total
}

/// The records before positions, each with its depths under the lines, which are of a grain.
pub(crate) fn count_before(
    alloc: Global,
    dealt: &Dealt,
    positions: &Positions,
    lines: &LineCodes,
    grain: Grain,
) -> Result<Vec<Counted>, AllocError>
    requires { AreWithinLists positions.now dealt.now }
    ensures { IfOk result (λ counted. (prefixes : List PrefixValue) → AreLineCodes grain prefixes lines.now.codes.keys
        → AreCountedIn grain prefixes (records_before dealt.now positions.now) counted.items) }
{
    let mut counted = Vec::new(alloc);
    for shard in 0..dealt.shards() {
        push_counted(&mut counted, part(dealt, positions, shard), lines, grain)?;
    }
    Ok(counted)
}

// The records of a shard before its position.
fn part<'a>(dealt: &'a Dealt, positions: &Positions, shard: u32) -> &'a [Record]
    requires within { AreWithinLists positions.now dealt.now }
    requires shard { shard < length dealt.now }
    ensures value { result.now ≡ part_at dealt.now positions.now shard }
    ensures few { length result.now ≤ record_limit }
    ensures light { All (λ rec. rec.weight < 2 ^ 32) result.now }
{
    let records = dealt.list(shard).as_slice();
    &records[..positions.at(shard as usize) as usize]
}

// The weight of some records.
fn total_of(records: &[Record]) -> u64
    requires few { length records.now ≤ record_limit }
    requires light { All (λ rec. rec.weight < 2 ^ 32) records.now }
    ensures total { result ≡ total_weight records.now }
    ensures bounded { result ≤ length records.now * 2 ^ 32 }
{
    let mut total = 0;
    for rec in records {
        total += u64::from(rec.weight);
    }
    total
}

// Appends records, each with its depths under the lines.
fn push_counted(
    counted: &mut Vec<Counted>,
    records: &[Record],
    lines: &LineCodes,
    grain: Grain,
) -> Result<(), AllocError>
    ensures { OnOk result ((prefixes : List PrefixValue) (before : List RecordValue)
        → AreLineCodes grain prefixes lines.now.codes.keys → AreCountedIn grain prefixes before counted.old.items
        → AreCountedIn grain prefixes (before ++ records.now) counted.new.items) }
{
    counted.reserve(records.len())?;
    for rec in records {
        let depths = Depths::of(lines, grain, rec);
        counted.push(Counted { rec: *rec, depths })?;
    }
    Ok(())
}
