//! The reading of a store, which knows no dealt records.

ghost use Rattle.std.specs.Prelude.{◌≡◌, ◌≤◌, length};
ghost use Rattle.checkpoint.specs.{AreSettings, greatest_sequence};

use super::of_recovery::{
    Gates, LAST_OPENED, OLD_STORE, OPEN_GATES, body_of, saved_image, saved_old_image, saved_store,
    store_of,
};
use super::worked_saves::{
    DIGEST, HALF_BYTES, OLD_DIGEST, ONE_SHARD, PACKET, SMALLEST, disk_of, leaves,
};
use checkpoint::{Saved, StoreSettings};
use recovery::{OpenFault, StoreFault, read_store};
use slot_disk::Disk;
use std::alloc::Global;
use std::test::Fail;

// A digest of no records.
const NO_DIGEST: [u8; 32] = [7; 32];

// What the newest slot holds: its sequence, its digest, and the position of its one shard.
#[derive(Clone, Copy, PartialEq, Eq)]
struct Held {
    sequence: u64,
    digest: [u8; 32],
    position: u64,
}

// What a reading answers.
type Read = Result<Option<Held>, StoreFault>;

// Reads a store of these bytes, of these settings of one shard, on a disk whose calls with these numbers fail. `None`
// where a byte of it changed.
fn read_in_part(
    alloc: Global,
    bytes: &[u8],
    fails: &[u64],
    settings: &StoreSettings,
) -> Result<Option<Read>, Fail>
    requires settings { AreSettings settings.now }
    requires shards { settings.now.shards ≡ 1 }
{
    let mut disk = disk_of(alloc, bytes.to_vec(alloc)?, None, fails)?;
    let read = read_on(alloc, &mut disk, settings);
    let stays = leaves(alloc, &disk, 0, bytes)? && leaves(alloc, &disk, 1, bytes)?;
    Ok(stays.then_some(read))
}

// The same on a disk of which no call fails.
fn read(alloc: Global, bytes: &[u8], settings: &StoreSettings) -> Result<Option<Read>, Fail>
    requires settings { AreSettings settings.now }
    requires shards { settings.now.shards ≡ 1 }
{
    read_in_part(alloc, bytes, &[], settings)
}

// A disk of any kind keeps what is known of a disk in memory out of the proof.
fn read_on<D: Disk>(alloc: Global, disk: &mut D, settings: &StoreSettings) -> Read
    requires settings { AreSettings settings.now }
    requires shards { settings.now.shards ≡ 1 }
{
    match read_store(alloc, disk, settings)? {
        None => Ok(None),
        Some(saved) => Ok(Some(held_in(&saved))),
    }
}

fn held_in(saved: &Saved) -> Held
    requires { length saved.now.cut.shards ≡ 1 }
{
    Held {
        sequence: saved.sequence,
        digest: saved.digest,
        position: saved.cut.shard(0).position(),
    }
}

// The answer for a store whose newest slot holds this.
fn answer_of(sequence: u64, digest: [u8; 32], position: u64) -> Option<Read> {
    Some(Ok(Some(Held {
        sequence,
        digest,
        position,
    })))
}

#[test]
fn a_store_of_either_version_is_read(rt: HostRuntime) -> Result<(), Fail> {
    assert!(rt; saved_stores_are_read(rt.alloc())?);
    assert!(rt; closed_stores_are_empty(rt.alloc())?);
    Ok(())
}

fn saved_stores_are_read(alloc: Global) -> Result<bool, Fail> {
    let image = saved_image(alloc)?;
    let old = saved_old_image(alloc)?;
    Ok(
        read(alloc, &image, &ONE_SHARD)? == answer_of(1, DIGEST, 1)
            && read(alloc, &old, &ONE_SHARD)? == answer_of(1, OLD_DIGEST, 1),
    )
}

fn closed_stores_are_empty(alloc: Global) -> Result<bool, Fail> {
    let bytes = store_of(alloc, [0, 0], &[], &[])?;
    Ok(
        read(alloc, &bytes, &SMALLEST)? == Some(Ok(None))
            && read(alloc, &OLD_STORE, &ONE_SHARD)? == Some(Ok(None)),
    )
}

// The sequences of a cut of one packet in slot 0 and of one of two in slot 1, and the sequence and position that are read.
type Newest = (u64, u64, u64, u64);

// However late a sequence is, it is read.
const NEWEST: [Newest; 4] = [
    (1, 2, 2, 2),
    (2, 1, 2, 1),
    (7, 7, 7, 1),
    (LAST_OPENED, LAST_OPENED + 64, LAST_OPENED + 64, 2),
];

#[test]
fn the_newest_slot_is_read(rt: HostRuntime) -> Result<(), Fail> {
    assert_eq!(rt; first_wrong_newest(rt.alloc(), &NEWEST)?, None);
    Ok(())
}

fn first_wrong_newest(alloc: Global, cases: &[Newest]) -> Result<Option<usize>, Fail> {
    for (place, (first, second, sequence, position)) in cases.iter().enumerate() {
        if read_two(alloc, *first, *second)? != answer_of(*sequence, NO_DIGEST, *position) {
            return Ok(Some(place));
        }
    }
    Ok(None)
}

// Reads a store with open gates over saves of one packet and of two with these sequences, which are of no known records.
fn read_two(alloc: Global, first: u64, second: u64) -> Result<Option<Read>, Fail> {
    let last = LAST_OPENED + 64;
    if first < 1 || first > last || second < 1 || second > last {
        return Ok(None);
    }
    let one = body_of(alloc, first, &NO_DIGEST, PACKET, 1)?;
    let two = body_of(alloc, second, &NO_DIGEST, PACKET, 2)?;
    let bytes = store_of(alloc, [1, 1], &one, &two)?;
    read(alloc, &bytes, &SMALLEST)
}

// The file of a missing store is made, and is empty.
#[test]
fn other_bytes_are_not_read(rt: HostRuntime) -> Result<(), Fail> {
    assert!(rt; is_not_formatted(rt.alloc(), &[])?);
    assert!(rt; is_not_formatted(rt.alloc(), &[0; 63])?);
    assert!(rt; is_not_formatted(rt.alloc(), &[0; 64])?);
    assert!(rt; other_settings_are_not_read(rt.alloc())?);
    assert_eq!(rt; first_wrong_gates(rt.alloc(), &OPEN_GATES)?, None);
    Ok(())
}

fn is_not_formatted(alloc: Global, bytes: &[u8]) -> Result<bool, Fail> {
    Ok(read(alloc, bytes, &ONE_SHARD)? == Some(Err(StoreFault::NotFormatted)))
}

const OTHER_SETTINGS: StoreFault = StoreFault::OtherSettings {
    stored: SMALLEST,
    asked: HALF_BYTES,
};

// The settings are compared before a gate is looked at.
fn other_settings_are_not_read(alloc: Global) -> Result<bool, Fail> {
    let bytes = store_of(alloc, [1, 1], &[], &[])?;
    Ok(read(alloc, &bytes, &HALF_BYTES)? == Some(Err(OTHER_SETTINGS)))
}

fn first_wrong_gates(alloc: Global, cases: &[Gates]) -> Result<Option<usize>, Fail> {
    for (place, (gates, slot)) in cases.iter().enumerate() {
        let bytes = store_of(alloc, *gates, &[], &[])?;
        if read(alloc, &bytes, &SMALLEST)? != Some(Err(StoreFault::Damaged(*slot))) {
            return Ok(Some(place));
        }
    }
    Ok(None)
}

// A begun store takes two calls, and a body three.
#[test]
fn each_call_of_a_reading_may_fail(rt: HostRuntime) -> Result<(), Fail> {
    let bytes = saved_store(rt.alloc())?;
    assert_eq!(rt; first_wrong_call(rt.alloc(), &bytes)?, None);
    Ok(())
}

// The first call whose fault shows where it should not, or does not show.
fn first_wrong_call(alloc: Global, bytes: &[u8]) -> Result<Option<u64>, Fail> {
    for call in 0..6 {
        if read_fails(alloc, bytes, call)? != Some(call < 5) {
            return Ok(Some(call));
        }
    }
    Ok(None)
}

// Whether a reading ends with a disk fault if this call fails. `None` where a byte changed.
fn read_fails(alloc: Global, bytes: &[u8], call: u64) -> Result<Option<bool>, Fail> {
    let read = read_in_part(alloc, bytes, &[call], &SMALLEST)?;
    Ok(read.map(|read| read.err() == Some(StoreFault::DiskFault)))
}

#[test]
fn reading_faults_are_told_as_opening_faults(rt: HostRuntime) -> Result<(), Fail> {
    assert!(rt; faults_are_told(rt.alloc())?);
    Ok(())
}

fn faults_are_told(alloc: Global) -> Result<bool, Fail> {
    let text = format!(in alloc;
        "{}, {}, {}, {}, {}",
        StoreFault::DiskFault,
        StoreFault::NotFormatted,
        OTHER_SETTINGS,
        StoreFault::Damaged(1),
        StoreFault::OutOfMemory
    )?;
    let want = "disk fault, store not formatted, store has other settings, store damaged: slot 1, \
                out of memory";
    Ok(text.as_str() == want && OpenFault::from(StoreFault::Damaged(1)) == OpenFault::Damaged(1))
}
