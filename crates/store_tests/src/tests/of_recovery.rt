//! The opening of a store.

ghost use Rattle.std.specs.Prelude.{◌≡◌, ◌≤◌, ◌^◌, length};
ghost use Rattle.checkpoint.specs.{AreSettings, greatest_sequence};
ghost use Rattle.prefix_lattice.specs.declared.grain.Grain.TheVariants.{Byte};

use super::worked_saves::{
    DIGEST, HALF_BYTES, OLD_DIGEST, ONE_SHARD, PACKET, Part, SMALLEST, cut_of, dealt_of, disk_of,
    has_parts, records,
};
use checkpoint::{StoreSettings, digest_of, encode, header_of};
use deal_rules::Dealt;
use prefix_lattice::Record;
use recovery::{OpenFault, Opened, reopen};
use slot_disk::{Disk, format};
use std::alloc::{AllocError, Global};
use std::test::Fail;

// A packet of 100 bytes from 1.0.0.1 to 101.0.0.1.
const OTHER_PACKET: Record = Record {
    src: 0x0100_0001,
    dst: 0x6500_0001,
    weight: 100,
};

// As `DIGEST`, of the same header and of 00000001 01000001 65000001 00000064.
const OTHER_DIGEST: [u8; 32] = [
    0xc2, 0xea, 0x7b, 0x91, 0xa3, 0x0d, 0xc2, 0x70, 0x6c, 0x9c, 0x81, 0x46, 0x2d, 0xe9, 0xf6, 0x57,
    0x9e, 0xde, 0x91, 0xcd, 0x1b, 0xdd, 0xe1, 0x7f, 0x69, 0xa5, 0x71, 0x23, 0x1f, 0xb9, 0x22, 0x22,
];

// As `OLD_DIGEST`, of the header of the first version and the same record.
const OTHER_OLD_DIGEST: [u8; 32] = [
    0x48, 0x4b, 0xd1, 0x3d, 0x1c, 0x87, 0x66, 0x30, 0x16, 0xfe, 0xe1, 0x05, 0x01, 0x69, 0xde, 0x09,
    0x9e, 0x69, 0x81, 0x95, 0xdd, 0x83, 0xe5, 0xc6, 0x8d, 0x8e, 0x68, 0x76, 0x0c, 0xfd, 0x2d, 0x70,
];

// The last sequence that is opened: 64 below the last.
pub(super) const LAST_OPENED: u64 = 0x3fff_ffff_ffff_ffc0;

// The body of a cut of `count` records, with tables of two entries.
pub(super) fn body_of(
    alloc: Global,
    sequence: u64,
    digest: &[u8; 32],
    rec: Record,
    count: usize,
) -> Result<Vec<u8>, AllocError>
    requires first { 1 ≤ sequence }
    requires last { sequence ≤ greatest_sequence }
    requires few { count ≤ 2 ^ 24 }
{
    let cut = cut_of(alloc, records(alloc, rec, count)?, 2)?;
    encode(alloc, sequence, digest, &cut)
}

// A store with these gates and bodies, whose tables have two entries: the bodies are 1,556 bytes apart.
pub(super) fn store_of(
    alloc: Global,
    gates: [u8; 2],
    first: &[u8],
    second: &[u8],
) -> Result<Vec<u8>, Fail> {
    let header = header_of(&SMALLEST);
    let mut bytes = gates.to_vec(alloc)?;
    bytes.extend_from_slice(&header)?;
    bytes.extend_from_slice(first)?;
    bytes.resize(64 + 1_556, 0)?;
    bytes.extend_from_slice(second)?;
    Ok(bytes)
}

// What the opening of a store gives: the sequence of the saver, and whether there is a base and its position.
#[derive(Clone, Copy, PartialEq, Eq)]
struct Found {
    sequence: u64,
    has_base: bool,
    position: Option<u64>,
}

// What the opening of a store gives whose base is at this position.
fn found_at(sequence: u64, position: u64) -> Result<Found, OpenFault> {
    Ok(Found {
        sequence,
        has_base: true,
        position: Some(position),
    })
}

// Opens a store of these bytes, of these settings of one shard, for `count` dealt records.
fn open(
    alloc: Global,
    bytes: &[u8],
    settings: &StoreSettings,
    rec: Record,
    count: usize,
) -> Result<Result<Found, OpenFault>, Fail>
    requires settings { AreSettings settings.now }
    requires shards { settings.now.shards ≡ 1 }
    requires few { count ≤ 2 ^ 24 }
{
    open_in_part(alloc, bytes, &[], settings, rec, count)
}

// The same on a disk whose calls with these numbers fail.
fn open_in_part(
    alloc: Global,
    bytes: &[u8],
    fails: &[u64],
    settings: &StoreSettings,
    rec: Record,
    count: usize,
) -> Result<Result<Found, OpenFault>, Fail>
    requires settings { AreSettings settings.now }
    requires shards { settings.now.shards ≡ 1 }
    requires few { count ≤ 2 ^ 24 }
{
    let dealt = dealt_of(alloc, rec, count)?;
    let mut disk = disk_of(alloc, bytes.to_vec(alloc)?, None, fails)?;
    Ok(found_on(alloc, &mut disk, settings, &dealt))
}

// A disk of any kind keeps what is known of a disk in memory out of the proof.
fn found_on<D: Disk>(
    alloc: Global,
    disk: &mut D,
    settings: &StoreSettings,
    dealt: &Dealt,
) -> Result<Found, OpenFault>
    requires settings { AreSettings settings.now }
    requires shards { length dealt.now ≡ settings.now.shards }
{
    found_of(reopen(alloc, disk, settings, dealt))
}

// Opens a store with these gates and bodies, whose tables have two entries, for `count` dealt packets.
fn open_slots(
    alloc: Global,
    gates: [u8; 2],
    first: &[u8],
    second: &[u8],
    count: usize,
) -> Result<Result<Found, OpenFault>, Fail>
    requires { count ≤ 2 ^ 24 }
{
    let bytes = store_of(alloc, gates, first, second)?;
    open(alloc, &bytes, &SMALLEST, PACKET, count)
}

fn found_of(opened: Result<Opened, OpenFault>) -> Result<Found, OpenFault> {
    let opened = opened?;
    Ok(Found {
        sequence: opened.saver.sequence(),
        has_base: opened.base.is_some(),
        position: opened.positions.as_slice().first().copied(),
    })
}

// The digest of `count` dealt packets under tables of two entries.
fn small_digest(alloc: Global, count: usize) -> Result<[u8; 32], Fail>
    requires { count ≤ 2 ^ 24 }
{
    let dealt = dealt_of(alloc, PACKET, count)?;
    Ok(digest_of(&dealt, &header_of(&SMALLEST)))
}

// Opens a new store, saves a cut of one dealt packet, and gives the digest of the saver.
pub(super) fn save_first<D: Disk>(
    alloc: Global,
    disk: &mut D,
    settings: &StoreSettings,
    rec: Record,
) -> Result<[u8; 32], Fail>
    requires settings { AreSettings settings.now }
    requires shards { settings.now.shards ≡ 1 }
    requires capacity { settings.now.capacity ≡ 512 }
    requires grain { settings.now.grain ≡ Byte }
{
    let dealt = dealt_of(alloc, rec, 1)?;
    let opened = reopen(alloc, disk, settings, &dealt)?;
    if opened.base.is_some() {
        return Err("a base".into());
    }
    let cut = cut_of(alloc, records(alloc, rec, 1)?, 512)?;
    let saver = opened.saver.save(alloc, disk, &cut)?;
    Ok(*saver.digest())
}

// The bytes of a store that the dealt packet was saved into.
pub(super) fn saved_image(alloc: Global) -> Result<Vec<u8>, Fail> {
    let mut disk = disk_of(alloc, Vec::new(alloc), None, &[])?;
    format(&mut disk, &header_of(&ONE_SHARD))?;
    if save_first(alloc, &mut disk, &ONE_SHARD, PACKET)? != DIGEST {
        return Err("another digest".into());
    }
    Ok(disk.crash(alloc, 0)?)
}

// Other records are another capture.
const OTHER_CAPTURE: OpenFault = OpenFault::OtherCapture {
    stored: DIGEST,
    asked: OTHER_DIGEST,
};

#[test]
fn a_store_is_opened_where_it_was_left(rt: HostRuntime) -> Result<(), Fail> {
    assert!(rt; a_left_store_is_opened(rt.alloc())?);
    Ok(())
}

fn a_left_store_is_opened(alloc: Global) -> Result<bool, Fail> {
    let image = saved_image(alloc)?;
    Ok(
        image.len() == 64 + 956
            && open(alloc, &image, &ONE_SHARD, PACKET, 1)? == found_at(1, 1)
            && open(alloc, &image, &ONE_SHARD, OTHER_PACKET, 1)? == Err(OTHER_CAPTURE),
    )
}

// Two closed gates, and the header of the first version of one shard of capacity 512.
pub(super) const OLD_STORE: [u8; 64] = [
    0, 0, 0x48, 0x48, 0x48, 0x53, 1, 1, 2, 0, 0, 0, 0, 0, 0, 0, 0, 0, 0, 0, 0, 0, 0, 0, 0, 0, 0, 0,
    0, 0, 0, 0, 0, 0, 0, 0, 0, 0, 0, 0, 0, 0, 0, 0, 0, 0, 0, 0, 0, 0, 0, 0, 0, 0, 0, 0, 0, 0, 0, 0,
    0, 0, 0, 0,
];

// What a save of the packet leaves of it: gate 0 is open, the header stands, and the body has the digest under it.
const SAVED_OLD_FRONT: [u8; 64] = [
    1, 0, 0x48, 0x48, 0x48, 0x53, 1, 1, 2, 0, 0, 0, 0, 0, 0, 0, 0, 0, 0, 0, 0, 0, 0, 0, 0, 0, 0, 0,
    0, 0, 0, 0, 0, 0, 0, 0, 0, 0, 0, 0, 0, 0, 0, 0, 0, 0, 0, 0, 0, 0, 0, 0, 0, 0, 0, 0, 0, 0, 0, 0,
    0, 0, 0, 0,
];

const SAVED_OLD_STORE: [Part; 3] = [
    (0, &SAVED_OLD_FRONT),
    (64, &[0, 0, 0, 0, 0, 0, 3, 0xbc, 0, 0, 0, 0, 0, 0, 0, 1]),
    (80, &OLD_DIGEST),
];

// Other records are another capture, whose digest is made with the header of the first version too.
const OTHER_OLD_CAPTURE: OpenFault = OpenFault::OtherCapture {
    stored: OLD_DIGEST,
    asked: OTHER_OLD_DIGEST,
};

#[test]
fn a_store_of_the_first_version_keeps_its_header(rt: HostRuntime) -> Result<(), Fail> {
    assert!(rt; an_old_store_keeps_its_header(rt.alloc())?);
    Ok(())
}

fn an_old_store_keeps_its_header(alloc: Global) -> Result<bool, Fail> {
    let image = saved_old_image(alloc)?;
    Ok(
        image.len() == 64 + 956
            && has_parts(&image, &SAVED_OLD_STORE)
            && open(alloc, &image, &ONE_SHARD, PACKET, 1)? == found_at(1, 1)
            && open(alloc, &image, &ONE_SHARD, OTHER_PACKET, 1)? == Err(OTHER_OLD_CAPTURE)
            && open(alloc, &image, &HALF_BYTES, PACKET, 1)? == Err(HALF_ASKED),
    )
}

// The bytes of a store of the first version that the dealt packet was saved into.
pub(super) fn saved_old_image(alloc: Global) -> Result<Vec<u8>, Fail> {
    let mut disk = disk_of(alloc, OLD_STORE.to_vec(alloc)?, None, &[])?;
    if save_first(alloc, &mut disk, &ONE_SHARD, PACKET)? != OLD_DIGEST {
        return Err("another digest".into());
    }
    Ok(disk.crash(alloc, 0)?)
}

#[test]
fn other_bytes_are_refused(rt: HostRuntime) -> Result<(), Fail> {
    assert!(rt; is_not_formatted(rt.alloc(), &[0; 63])?);
    assert!(rt; is_not_formatted(rt.alloc(), &[0; 64])?);
    Ok(())
}

fn is_not_formatted(alloc: Global, bytes: &[u8]) -> Result<bool, Fail> {
    Ok(open(alloc, bytes, &ONE_SHARD, PACKET, 1)? == Err(OpenFault::NotFormatted))
}

const OTHER_SETTINGS: OpenFault = OpenFault::OtherSettings {
    stored: SMALLEST,
    asked: ONE_SHARD,
};

#[test]
fn other_settings_are_refused(rt: HostRuntime) -> Result<(), Fail> {
    assert!(rt; a_smaller_store_is_refused(rt.alloc())?);
    Ok(())
}

fn a_smaller_store_is_refused(alloc: Global) -> Result<bool, Fail> {
    let bytes = store_of(alloc, [0, 0], &[], &[])?;
    Ok(open(alloc, &bytes, &ONE_SHARD, PACKET, 1)? == Err(OTHER_SETTINGS))
}

const HALF_ASKED: OpenFault = OpenFault::OtherSettings {
    stored: ONE_SHARD,
    asked: HALF_BYTES,
};

const HALF_STORED: OpenFault = OpenFault::OtherSettings {
    stored: HALF_BYTES,
    asked: ONE_SHARD,
};

// A store by half bytes. It has other settings than one by whole bytes, and is none with a third version in byte 6 or
// steps of 5 bits in byte 12.
#[test]
fn a_store_is_of_its_grain(rt: HostRuntime) -> Result<(), Fail> {
    assert!(rt; is_store_of_its_grain(rt.alloc())?);
    Ok(())
}

fn is_store_of_its_grain(alloc: Global) -> Result<bool, Fail> {
    let store = half_store(alloc, 2, 4)?;
    Ok(
        open(alloc, &store, &ONE_SHARD, PACKET, 1)? == Err(HALF_STORED)
            && is_not_formatted(alloc, &half_store(alloc, 3, 4)?)?
            && is_not_formatted(alloc, &half_store(alloc, 2, 5)?)?,
    )
}

// A store by half bytes with both gates closed, this byte 6 and this byte 12.
fn half_store(alloc: Global, version: u8, grain: u8) -> Result<Vec<u8>, AllocError> {
    let mut header = header_of(&HALF_BYTES);
    header[4] = version;
    header[10] = grain;
    let mut bytes = [0; 2].to_vec(alloc)?;
    bytes.extend_from_slice(&header)?;
    Ok(bytes)
}

// The gates of a store, and the slot that is damaged.
pub(super) type Gates = ([u8; 2], u8);

pub(super) const OPEN_GATES: [Gates; 3] = [([1, 0], 0), ([0, 1], 1), ([1, 1], 0)];

// A gate is open, and no body is under it.
#[test]
fn open_gates_need_bodies(rt: HostRuntime) -> Result<(), Fail> {
    assert_eq!(rt; first_wrong_gates(rt.alloc(), &OPEN_GATES)?, None);
    Ok(())
}

fn first_wrong_gates(alloc: Global, cases: &[Gates]) -> Result<Option<usize>, Fail> {
    for (place, (gates, slot)) in cases.iter().enumerate() {
        if open_slots(alloc, *gates, &[], &[], 1)? != Err(OpenFault::Damaged(*slot)) {
            return Ok(Some(place));
        }
    }
    Ok(None)
}

// The sequences of a cut of one packet in slot 0 and of one of two in slot 1, and the position that is opened.
type Newest = (u64, u64, u64);

const NEWEST: [Newest; 3] = [(1, 2, 2), (2, 1, 1), (7, 7, 1)];

#[test]
fn the_newest_slot_is_opened(rt: HostRuntime) -> Result<(), Fail> {
    let digest = small_digest(rt.alloc(), 2)?;
    assert_eq!(rt; first_wrong_newest(rt.alloc(), &digest, &NEWEST)?, None);
    Ok(())
}

fn first_wrong_newest(
    alloc: Global,
    digest: &[u8; 32],
    cases: &[Newest],
) -> Result<Option<usize>, Fail> {
    for (place, (first, second, position)) in cases.iter().enumerate() {
        if !newest_is_opened(alloc, digest, *first, *second, *position)? {
            return Ok(Some(place));
        }
    }
    Ok(None)
}

fn newest_is_opened(
    alloc: Global,
    digest: &[u8; 32],
    first: u64,
    second: u64,
    position: u64,
) -> Result<bool, Fail> {
    if first < 1 || first > 7 || second < 1 || second > 7 {
        return Ok(false);
    }
    // A closed gate counts for nothing, whatever is under it.
    Ok(
        open_two(alloc, [1, 1], digest, first, second)? == found_at(first.max(second), position)
            && open_two(alloc, [1, 255], digest, first, second)? == found_at(first, 1),
    )
}

// Opens a store with these gates over saves of one packet and of two with these sequences.
fn open_two(
    alloc: Global,
    gates: [u8; 2],
    digest: &[u8; 32],
    first: u64,
    second: u64,
) -> Result<Result<Found, OpenFault>, Fail>
    requires first { 1 ≤ first }
    requires first_limit { first ≤ greatest_sequence }
    requires second { 1 ≤ second }
    requires second_limit { second ≤ greatest_sequence }
{
    let one = body_of(alloc, first, digest, PACKET, 1)?;
    let two = body_of(alloc, second, digest, PACKET, 2)?;
    open_slots(alloc, gates, &one, &two, 2)
}

const LIGHTER: Record = Record {
    weight: 99,
    ..PACKET
};

// The sequence of a save, and the records that its cut counts.
type SavedCut = (u64, Record, usize);

// A sequence that is too late, a position past the end, and a total that is not the weight of the records.
const DAMAGED_CUTS: [SavedCut; 3] = [
    (LAST_OPENED + 1, PACKET, 1),
    (3, PACKET, 2),
    (3, LIGHTER, 1),
];

#[test]
fn cuts_that_cannot_go_on_are_damaged(rt: HostRuntime) -> Result<(), Fail> {
    let digest = small_digest(rt.alloc(), 1)?;
    assert_eq!(rt; first_undamaged(rt.alloc(), &digest, &DAMAGED_CUTS)?, None);
    Ok(())
}

fn first_undamaged(
    alloc: Global,
    digest: &[u8; 32],
    cases: &[SavedCut],
) -> Result<Option<usize>, Fail> {
    for (place, (sequence, rec, count)) in cases.iter().enumerate() {
        if !is_damaged(alloc, digest, *sequence, *rec, *count)? {
            return Ok(Some(place));
        }
    }
    Ok(None)
}

// Whether this cut in slot 1, after an earlier one in slot 0, is damaged.
fn is_damaged(
    alloc: Global,
    digest: &[u8; 32],
    sequence: u64,
    rec: Record,
    count: usize,
) -> Result<bool, Fail> {
    if sequence < 1 || sequence > LAST_OPENED + 1 || count > 2 {
        return Ok(false);
    }
    let earlier = body_of(alloc, 2, digest, PACKET, 1)?;
    let body = body_of(alloc, sequence, digest, rec, count)?;
    Ok(open_slots(alloc, [1, 1], &earlier, &body, 1)? == Err(OpenFault::Damaged(1)))
}

#[test]
fn the_last_sequence_is_opened(rt: HostRuntime) -> Result<(), Fail> {
    let digest = small_digest(rt.alloc(), 1)?;
    assert!(rt; a_last_sequence_is_opened(rt.alloc(), &digest)?);
    Ok(())
}

fn a_last_sequence_is_opened(alloc: Global, digest: &[u8; 32]) -> Result<bool, Fail> {
    let last = body_of(alloc, LAST_OPENED, digest, PACKET, 1)?;
    let past = body_of(alloc, 3, digest, PACKET, 2)?;
    // Only the newest slot is checked.
    Ok(
        open_slots(alloc, [1, 0], &last, &[], 1)? == found_at(LAST_OPENED, 1)
            && open_slots(alloc, [1, 1], &last, &past, 1)? == found_at(LAST_OPENED, 1),
    )
}

// A begun store takes two calls, and a body three.
#[test]
fn each_call_of_the_disk_may_fail(rt: HostRuntime) -> Result<(), Fail> {
    let bytes = saved_store(rt.alloc())?;
    assert_eq!(rt; first_wrong_call(rt.alloc(), &bytes)?, None);
    Ok(())
}

// A store whose slot 0 holds a cut of the packet.
pub(super) fn saved_store(alloc: Global) -> Result<Vec<u8>, Fail> {
    let digest = small_digest(alloc, 1)?;
    let body = body_of(alloc, 1, &digest, PACKET, 1)?;
    store_of(alloc, [1, 0], &body, &[])
}

// The first call whose fault shows where it should not, or does not show.
fn first_wrong_call(alloc: Global, bytes: &[u8]) -> Result<Option<u64>, Fail> {
    for call in 0..6 {
        let found = open_in_part(alloc, bytes, &[call], &SMALLEST, PACKET, 1)?;
        if found.err() != (call < 5).then_some(OpenFault::DiskFault) {
            return Ok(Some(call));
        }
    }
    Ok(None)
}

#[test]
fn texts(rt: HostRuntime) -> Result<(), Fail> {
    assert!(rt; faults_are_told(rt.alloc())?);
    Ok(())
}

fn faults_are_told(alloc: Global) -> Result<bool, Fail> {
    let text = format!(in alloc;
        "{}, {}, {}, {}, {}, {}",
        OpenFault::DiskFault,
        OpenFault::NotFormatted,
        OTHER_SETTINGS,
        OpenFault::Damaged(1),
        OTHER_CAPTURE,
        OpenFault::OutOfMemory
    )?;
    let want = "disk fault, store not formatted, store has other settings, store damaged: slot 1, \
                store is of another capture, out of memory";
    Ok(text.as_str() == want)
}
