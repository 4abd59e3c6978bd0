//! Reports that go on from a store.

use checkpoint::StoreSettings;
use deal_rules::DealKind;
use frame_records::Weigh;
use hhh_engine::Status;
use prefix_lattice::Grain;
use slot_disk::{Disk, MemoryDisk};
use std::alloc::{AllocError, Global};
use std::marker::Sync;
use std::process::Abort;
use std::sync::Wait;
use std::test::Fail;
use std::thread::Threads;
use test_runs::{FORMAT, HEADER, Handed, ONE, REPORT, SECOND_SESSION, SESSION, disk_with, run_on};

// A disk with these bytes, whose calls with these numbers fail.
fn disk_of(alloc: Global, bytes: &[u8], fails: &[u64]) -> Result<MemoryDisk, AllocError> {
    disk_with(alloc, bytes, None, fails)
}

const TWO_ROUNDS: [&str; 6] = [
    "report",
    "--store=s",
    "--shards=1",
    "--rounds=2",
    "--workers=1",
    "--callers=1",
];

// Each round is saved: a store that three sessions of two rounds have used has the sequence 9.
pub(crate) fn saves_each_round<R: Abort + Threads + Wait + Sync>(
    rt: &R,
    alloc: Global,
    handed: &Handed,
) -> Result<(), Fail> {
    let mut disk = disk_of(alloc, &[], &[])?;
    run_on(rt, alloc, handed, &FORMAT, &[], &mut disk)?;
    for _ in 0..3 {
        let ended = run_on(rt, alloc, handed, &TWO_ROUNDS, &[ONE, ONE], &mut disk)?;
        assert_eq!(rt; ended.status, Status::Done);
        assert_eq!(rt; saves_in(&ended.text), 3);
    }
    let slot = [0, 0, 0, 0, 0, 0, 3, 188, 0, 0, 0, 0, 0, 0, 0, 9];
    assert_eq!(rt; slot_on(rt, &mut disk), slot);
    Ok(())
}

// How many saves a session tells of.
fn saves_in(text: &[u8]) -> usize {
    let lines = text.split(|byte| *byte == b'\n');
    lines.filter(|line| line.starts_with(b"saved ")).count()
}

// The first bytes of a store's first slot.
fn slot_on(rt: &impl Abort, disk: &mut MemoryDisk) -> [u8; 16] {
    let mut slot = [0; 16];
    assert_eq!(rt; disk.read_at(64, &mut slot), Ok(16));
    slot
}

// The first bytes of a store.
pub(crate) fn formats<R: Abort + Threads + Wait + Sync>(
    rt: &R,
    alloc: Global,
    handed: &Handed,
) -> Result<(), Fail> {
    let by_bytes = ["format", "--store=s", "--shards=1", "--capacity=2"];
    let header = [0, 0, 0x48, 0x48, 0x48, 0x53, 2, 1, 0, 2, 0, 0, 8];
    formats_as(rt, alloc, handed, &by_bytes, &header)?;
    let by_nibbles = ["format", "--store=s", "--shards=1", "--bits=4"];
    let header = [0, 0, 0x48, 0x48, 0x48, 0x53, 2, 1, 2, 0, 0, 0, 4];
    formats_as(rt, alloc, handed, &by_nibbles, &header)
}

fn formats_as<R: Abort + Threads + Wait + Sync>(
    rt: &R,
    alloc: Global,
    handed: &Handed,
    words: &[&str],
    header: &[u8],
) -> Result<(), Fail> {
    let mut disk = disk_of(alloc, &[], &[])?;
    let ended = run_on(rt, alloc, handed, words, &[], &mut disk)?;
    assert_eq!(rt; ended.status, Status::Done);
    begins_with(rt, &front_on(rt, &mut disk), header);
    Ok(())
}

const BY_NIBBLES: [&str; 4] = ["report", "--store=s", "--shards=1", "--bits=4"];

// A store of tables by half bytes goes on, and isn't opened by whole bytes.
pub(crate) fn keeps_tables_by_half_bytes<R: Abort + Threads + Wait + Sync>(
    rt: &R,
    alloc: Global,
    handed: &Handed,
) -> Result<(), Fail> {
    let mut disk = MemoryDisk::with_room(
        alloc,
        2_000_000,
        1_048_576,
        Vec::new(alloc),
        None,
        Vec::new(alloc),
    )?;
    let format = ["format", "--store=s", "--shards=1", "--bits=4"];
    run_on(rt, alloc, handed, &format, &[], &mut disk)?;
    for session in [SESSION, SECOND_SESSION] {
        let ended = run_on(rt, alloc, handed, &BY_NIBBLES, &[ONE], &mut disk)?;
        assert_eq!(rt; ended.status, Status::Done);
        assert_eq!(rt; ended.text.as_slice(), session.as_bytes());
    }
    let ended = run_on(rt, alloc, handed, &REPORT, &[ONE], &mut disk)?;
    let stored = StoreSettings {
        grain: Grain::Nibble,
        ..ASKED
    };
    let asked = ASKED;
    assert_eq!(rt; ended.status, Status::OtherSettings { stored, asked });
    Ok(())
}

// The bytes of a disk that holds as many.
pub(crate) fn front_on(rt: &impl Abort, disk: &mut MemoryDisk) -> [u8; 64] {
    let mut front = [1; 64];
    assert_eq!(rt; disk.len(), Ok(64));
    assert_eq!(rt; disk.read_at(0, &mut front), Ok(64));
    front
}

// The bytes are these, and after them only 0.
fn begins_with(rt: &impl Abort, bytes: &[u8], front: &[u8]) {
    assert!(rt; bytes.starts_with(front));
    assert!(rt; front.len() <= bytes.len());
    assert!(rt; bytes[front.len()..].iter().all(|byte| *byte == 0));
}

// Stores that aren't opened.
pub(crate) fn refuses_stores<R: Abort + Threads + Wait + Sync>(
    rt: &R,
    alloc: Global,
    handed: &Handed,
) -> Result<(), Fail> {
    refuses_bytes(rt, alloc, handed, &[0; 64])?;
    refuses_bytes(rt, alloc, handed, &[0; 63])?;
    let mut disk = disk_of(alloc, &[], &[])?;
    refuses_other_settings(rt, alloc, handed, &mut disk)?;
    refuses_a_changed_byte(rt, alloc, handed, &mut disk)?;
    refuses_another_capture(rt, alloc, handed, &mut disk)
}

fn refuses_bytes<R: Abort + Threads + Wait + Sync>(
    rt: &R,
    alloc: Global,
    handed: &Handed,
    bytes: &[u8],
) -> Result<(), Fail> {
    let mut disk = disk_of(alloc, bytes, &[])?;
    let ended = run_on(rt, alloc, handed, &REPORT, &[ONE], &mut disk)?;
    assert_eq!(rt; ended.status, Status::NotFormatted);
    assert!(rt; ended.text.is_empty());
    Ok(())
}

const ASKED: StoreSettings = StoreSettings {
    shards: 1,
    capacity: 512,
    weigh: Weigh::Bytes,
    deal: DealKind::RoundRobin,
    grain: Grain::Byte,
};

fn refuses_other_settings<R: Abort + Threads + Wait + Sync>(
    rt: &R,
    alloc: Global,
    handed: &Handed,
    disk: &mut MemoryDisk,
) -> Result<(), Fail> {
    let narrow = ["format", "--store=s", "--shards=1", "--capacity=2"];
    run_on(rt, alloc, handed, &narrow, &[], disk)?;
    let ended = run_on(rt, alloc, handed, &REPORT, &[ONE], disk)?;
    let stored = StoreSettings {
        capacity: 2,
        ..ASKED
    };
    let asked = ASKED;
    assert_eq!(rt; ended.status, Status::OtherSettings { stored, asked });
    Ok(())
}

fn refuses_a_changed_byte<R: Abort + Threads + Wait + Sync>(
    rt: &R,
    alloc: Global,
    handed: &Handed,
    disk: &mut MemoryDisk,
) -> Result<(), Fail> {
    run_on(rt, alloc, handed, &FORMAT, &[], disk)?;
    assert_eq!(rt; disk.write_at(0, &[1]), Ok(()));
    let ended = run_on(rt, alloc, handed, &REPORT, &[ONE], disk)?;
    assert_eq!(rt; ended.status, Status::Damaged(0));
    Ok(())
}

fn refuses_another_capture<R: Abort + Threads + Wait + Sync>(
    rt: &R,
    alloc: Global,
    handed: &Handed,
    disk: &mut MemoryDisk,
) -> Result<(), Fail> {
    run_on(rt, alloc, handed, &FORMAT, &[], disk)?;
    run_on(rt, alloc, handed, &REPORT, &[ONE], disk)?;
    let ended = run_on(rt, alloc, handed, &REPORT, &[ONE, ONE], disk)?;
    assert!(rt; matches!(ended.status, Status::OtherCapture { .. }));
    assert!(rt; ended.text.is_empty());
    Ok(())
}

// A disk whose first call fails: nothing is written, and the store stays as it was.
pub(crate) fn tells_the_faults_of_the_disk<R: Abort + Threads + Wait + Sync>(
    rt: &R,
    alloc: Global,
    handed: &Handed,
) -> Result<(), Fail> {
    let mut disk = disk_of(alloc, &[], &[0])?;
    ends(rt, alloc, handed, &FORMAT, true, &mut disk)?;
    ends(rt, alloc, handed, &FORMAT, true, &mut disk)?;
    ends(rt, alloc, handed, &REPORT, false, &mut disk)?;
    fails_at_first(rt, alloc, handed)
}

// A run ends well, or where it may fail with a fault of the disk.
fn ends<R: Abort + Threads + Wait + Sync>(
    rt: &R,
    alloc: Global,
    handed: &Handed,
    words: &[&str],
    may_fail: bool,
    disk: &mut MemoryDisk,
) -> Result<(), Fail> {
    let ended = run_on(rt, alloc, handed, words, &[ONE], disk)?;
    if may_fail && ended.status == Status::DiskFault {
        assert!(rt; ended.text.is_empty());
    } else {
        assert_eq!(rt; ended.status, Status::Done);
    }
    Ok(())
}

fn fails_at_first<R: Abort + Threads + Wait + Sync>(
    rt: &R,
    alloc: Global,
    handed: &Handed,
) -> Result<(), Fail> {
    let mut disk = disk_of(alloc, &HEADER, &[0])?;
    let ended = run_on(rt, alloc, handed, &REPORT, &[ONE], &mut disk)?;
    assert_eq!(rt; ended.status, Status::DiskFault);
    assert!(rt; ended.text.is_empty());
    Ok(())
}
