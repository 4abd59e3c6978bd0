//! Stores that are damaged on purpose, each refused.

use hhh_engine::Status;
use std::alloc::{AllocError, Global};
use std::marker::Sync;
use std::process::Abort;
use std::sync::Wait;
use std::test::Fail;
use std::thread::Threads;
use test_runs::{Ended, FORMAT, Handed, ONE, REPORT, disk_with, run_on};

// The bytes with others at a place, as far as they reach.
fn patched(alloc: Global, bytes: &[u8], place: usize, patch: &[u8]) -> Result<Vec<u8>, AllocError> {
    let mut changed = Vec::with_capacity(alloc, bytes.len())?;
    for (index, byte) in bytes.iter().enumerate() {
        let within = index.checked_sub(place);
        let byte = match within {
            Some(within) => patch.get(within).unwrap_or(byte),
            None => byte,
        };
        changed.push(*byte)?;
    }
    Ok(changed)
}

// What is written over a store of one shard at capacity 512 that has one save over one packet, and at which byte. Its
// body begins at byte 64 with its length, its sequence and the digest; at byte 112 are the shard's position, and the first
// table with its total, its number of entries, and the key, the count and the error of its one entry.
type Damage = (usize, &'static [u8]);

const DAMAGES: [Damage; 6] = [
    // The length of the body.
    (64, &[0xff; 8]),
    // The sequence, which leaves no room for the saves of a run.
    (72, &[0x40, 0, 0, 0, 0, 0, 0, 0]),
    // The position of the shard, past the end of its list.
    (119, &[2]),
    // The total of the first table, unlike those of the other tables.
    (127, &[101]),
    // One entry more than a table may have.
    (128, &[0, 0, 2, 1]),
    // An entry that counts nothing.
    (140, &[0; 8]),
];

pub(crate) fn damaged_stores<R: Abort + Threads + Wait + Sync>(
    rt: &R,
    alloc: Global,
    handed: &Handed,
) -> Result<(), Fail> {
    let store = used_store(rt, alloc, handed)?;
    each_is_damaged(rt, alloc, handed, &store, &DAMAGES)?;
    goes_on_by_a_closed_gate(rt, alloc, handed, &store)
}

// The bytes of a store that has one save over one packet.
fn used_store<R: Abort + Threads + Wait + Sync>(
    rt: &R,
    alloc: Global,
    handed: &Handed,
) -> Result<Vec<u8>, Fail> {
    let mut disk = disk_with(alloc, &[], None, &[])?;
    run_on(rt, alloc, handed, &FORMAT, &[], &mut disk)?;
    let ended = run_on(rt, alloc, handed, &REPORT, &[ONE], &mut disk)?;
    assert_eq!(rt; ended.status, Status::Done);
    Ok(disk.crash(alloc, 0)?)
}

// A report over one packet, with a store of these bytes that are changed at a place.
fn report_on_changed<R: Threads + Wait + Sync>(
    rt: &R,
    alloc: Global,
    handed: &Handed,
    store: &[u8],
    place: usize,
    patch: &[u8],
) -> Result<Ended, AllocError> {
    let changed = patched(alloc, store, place, patch)?;
    let mut disk = disk_with(alloc, &changed, None, &[])?;
    run_on(rt, alloc, handed, &REPORT, &[ONE], &mut disk)
}

// A table is a parameter of what goes through it: a proof with the table in every fact takes far longer.
fn each_is_damaged<R: Abort + Threads + Wait + Sync>(
    rt: &R,
    alloc: Global,
    handed: &Handed,
    store: &[u8],
    damages: &[Damage],
) -> Result<(), Fail> {
    for (place, patch) in damages {
        let ended = report_on_changed(rt, alloc, handed, store, *place, patch)?;
        assert_eq!(rt; ended.status, Status::Damaged(0), "byte {place}");
        assert!(rt; ended.text.is_empty());
    }
    Ok(())
}

// A gate that is neither open nor closed is closed.
fn goes_on_by_a_closed_gate<R: Abort + Threads + Wait + Sync>(
    rt: &R,
    alloc: Global,
    handed: &Handed,
    store: &[u8],
) -> Result<(), Fail> {
    let ended = report_on_changed(rt, alloc, handed, store, 0, &[2])?;
    assert_eq!(rt; ended.status, Status::Done);
    assert!(rt; ended.text.starts_with(b"opened 0\n"));
    Ok(())
}
