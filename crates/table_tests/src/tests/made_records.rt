//! The three bodies of a table under the records of made traffic.

ghost use Rattle.std.specs.Prelude.{◌≤◌};

use super::three_tables::{Three, add_to_each, are_equal, three_with_capacity};
use frame_records::{Records, Weigh, read_records};
use outside_io::{MemorySource, Source};
use prefix_lattice::{Grain, Node, Prefix, Record};
use std::alloc::{AllocError, Global};
use std::test::Fail;
use traffic_maker::make_bytes;

#[test]
fn made_records_leave_equal_entries(rt: HostRuntime) -> Result<(), Fail> {
    assert!(rt; made_records_are_counted_alike(rt.alloc())?);
    Ok(())
}

/// Whether tables of three capacities are equal after each of 2,000 records, whose prefixes keep two bytes a side.
fn made_records_are_counted_alike(alloc: Global) -> Result<bool, Fail> {
    let bytes = make_bytes(alloc, 7, 2000)?;
    let mut source = MemorySource::new(bytes, Vec::new(alloc), 65536);
    let Some(records) = read_all(alloc, &mut source) else {
        return Ok(false);
    };
    let records = records.list.as_slice();
    Ok(
        records.len() == 2000
            && are_counted_alike(alloc, 2, records)?
            && are_counted_alike(alloc, 16, records)?
            && are_counted_alike(alloc, 512, records)?,
    )
}

// A source of any kind keeps what is known of one in memory out of the proof.
fn read_all<S: Source>(alloc: Global, source: &mut S) -> Option<Records> {
    read_records(alloc, source, Weigh::Bytes, false).ok()
}

fn are_counted_alike(alloc: Global, capacity: u32, records: &[Record]) -> Result<bool, AllocError>
    requires least { 2 ≤ capacity }
    requires most { capacity ≤ 4096 }
{
    let mut tables = three_with_capacity(alloc, capacity)?;
    for rec in records {
        if !add_record(&mut tables, rec) || !are_equal(alloc, &tables)? {
            return Ok(false);
        }
    }
    Ok(true)
}

fn add_record(tables: &mut Three, rec: &Record) -> bool {
    match Node::new(Grain::Byte, 2, 2) {
        Some(node) => add_to_each(tables, Prefix::of(rec, node).key(), rec.weight),
        None => false,
    }
}
