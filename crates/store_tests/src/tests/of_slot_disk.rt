//! Disks, and a store of two slots.

ghost use Rattle.std.specs.Prelude.{◌≡◌, ◌<◌, IfOk, OnOk};
ghost use Rattle.slot_disk.specs.{IfImageKnown, MatchesKnown, IsReadyForPut};

use super::worked_saves::{disk_of, leaves};
use outside_io::Failed;
use slot_disk::{BeginFault, BodyFault, Disk, MemoryDisk, Slots, format};
use std::alloc::{AllocError, Global};
use std::test::Fail;

const SPAN: u64 = 16;

// A length of 16 in 8 bytes, and eight bytes 7.
const FIRST: [u8; 16] = [0, 0, 0, 0, 0, 0, 0, 16, 7, 7, 7, 7, 7, 7, 7, 7];

// A length of 9 in 8 bytes, and a byte 5.
const SECOND: [u8; 9] = [0, 0, 0, 0, 0, 0, 0, 9, 5];

// Makes a store, and puts a body into its slot 0: calls 0 to 9 of the disk.
fn put_first<D: Disk>(disk: &mut D) -> Result<Slots, Failed>
    ensures stands { IfOk result (λ slots. MatchesKnown (D.reads disk.new) (D.image_now disk.new) slots) }
    ensures ready { OnOk result (IfImageKnown (D.reads disk.new) (IsReadyForPut 16 1)) }
{
    format(disk, &[0; 62])?;
    let Ok(slots) = Slots::begin(disk) else {
        return Err(Failed);
    };
    let slots = slots.put(disk, 0, SPAN, &FIRST)?;
    Ok(slots)
}

// Puts a second body into slot 1: calls 10 to 15 of the disk.
fn put_both<D: Disk>(disk: &mut D) -> Result<Slots, Failed> {
    let slots = put_first(disk)?;
    slots.put(disk, 1, SPAN, &SECOND)
}

// The body of a slot of these bytes, if its gate is open.
fn open_body(alloc: Global, bytes: Vec<u8>, slot: u8) -> Result<Option<Vec<u8>>, Fail>
    requires { slot < 2 }
{
    let mut disk = disk_of(alloc, bytes, None, &[])?;
    let slots = Slots::begin(&mut disk)?;
    if !slots.gate(slot) {
        return Ok(None);
    }
    Ok(Some(slots.read_body(alloc, &mut disk, slot, SPAN)?))
}

#[test]
fn a_store_is_made(rt: HostRuntime) -> Result<(), Fail> {
    assert!(rt; a_new_store_is_closed(rt.alloc())?);
    Ok(())
}

fn a_new_store_is_closed(alloc: Global) -> Result<bool, Fail> {
    let mut disk = disk_of(alloc, Vec::new(alloc), None, &[])?;
    Ok(makes_a_store(&mut disk)? && leaves(alloc, &disk, 0, &[0; 64])?)
}

// A disk of any kind, here and below, keeps what is known of a disk in memory out of the proofs.
fn makes_a_store<D: Disk>(disk: &mut D) -> Result<bool, Fail> {
    format(disk, &[0; 62])?;
    let slots = Slots::begin(disk)?;
    Ok(!slots.gate(0) && !slots.gate(1) && slots.header() == &[0; 62])
}

// The bytes of a store with the first body in its slot 0.
const PUT_STORE: [u8; 80] = [
    1, 0, 0, 0, 0, 0, 0, 0, 0, 0, 0, 0, 0, 0, 0, 0, 0, 0, 0, 0, 0, 0, 0, 0, 0, 0, 0, 0, 0, 0, 0, 0,
    0, 0, 0, 0, 0, 0, 0, 0, 0, 0, 0, 0, 0, 0, 0, 0, 0, 0, 0, 0, 0, 0, 0, 0, 0, 0, 0, 0, 0, 0, 0, 0,
    0, 0, 0, 0, 0, 0, 0, 16, 7, 7, 7, 7, 7, 7, 7, 7,
];

#[test]
fn a_body_is_put(rt: HostRuntime) -> Result<(), Fail> {
    assert!(rt; a_put_body_is_read(rt.alloc())?);
    Ok(())
}

fn a_put_body_is_read(alloc: Global) -> Result<bool, Fail> {
    let mut disk = disk_of(alloc, Vec::new(alloc), None, &[])?;
    reads_first(alloc, &mut disk)
}

fn reads_first<D: Disk>(alloc: Global, disk: &mut D) -> Result<bool, Fail> {
    let slots = put_first(disk)?;
    if !slots.gate(0) || slots.gate(1) || !is_put_store(disk) {
        return Ok(false);
    }
    let body = slots.read_body(alloc, disk, 0, SPAN)?;
    Ok(body.as_slice() == FIRST.as_slice())
}

// A read past the end of the disk leaves the rest of the buffer.
fn is_put_store<D: Disk>(disk: &mut D) -> bool {
    let mut bytes = [9; 81];
    disk.len() == Ok(80)
        && disk.read_at(0, &mut bytes) == Ok(80)
        && bytes.starts_with(&PUT_STORE)
        && bytes[80] == 9
}

// A stop at each call of two puts, and each choice of what a crash leaves. Only a crash that keeps all leaves the new
// body, and only once its gate was written.
#[test]
fn a_stop_leaves_the_old_body_or_the_new_one(rt: HostRuntime) -> Result<(), Fail> {
    assert_eq!(rt; first_wrong_stop(rt.alloc())?, None);
    Ok(())
}

// The first call at which a stop leaves something else.
fn first_wrong_stop(alloc: Global) -> Result<Option<u64>, Fail> {
    for fuse in 4..16 {
        if !stop_leaves(alloc, fuse)? {
            return Ok(Some(fuse));
        }
    }
    Ok(None)
}

fn stop_leaves(alloc: Global, fuse: u64) -> Result<bool, Fail> {
    let disk = stopped_disk(alloc, fuse)?;
    for choice in 0..4 {
        if !crash_leaves(alloc, &disk, fuse, choice)? {
            return Ok(false);
        }
    }
    Ok(true)
}

fn crash_leaves(alloc: Global, disk: &MemoryDisk, fuse: u64, choice: u8) -> Result<bool, Fail> {
    let has_first = fuse >= 10 || (fuse >= 8 && choice == 1);
    let has_second = fuse >= 14 && choice == 1;
    Ok(
        slot_holds(alloc, disk, choice, 0, has_first.then_some(&FIRST))?
            && slot_holds(alloc, disk, choice, 1, has_second.then_some(&SECOND))?,
    )
}

// A disk whose calls from the fuse on fail, after two puts that the fuse stopped.
fn stopped_disk(alloc: Global, fuse: u64) -> Result<MemoryDisk, Fail> {
    let mut disk = disk_of(alloc, Vec::new(alloc), Some(fuse), &[])?;
    if put_both(&mut disk).is_ok() {
        return Err("no call failed".into());
    }
    Ok(disk)
}

// Whether a crash with this choice leaves this body in a slot, or its gate closed.
fn slot_holds(
    alloc: Global,
    disk: &MemoryDisk,
    choice: u8,
    slot: u8,
    want: Option<&[u8]>,
) -> Result<bool, Fail>
    requires { slot < 2 }
{
    let body = open_body(alloc, disk.crash(alloc, choice)?, slot)?;
    Ok(body.as_deref() == want)
}

#[test]
fn a_short_disk_is_no_store(rt: HostRuntime) -> Result<(), Fail> {
    assert!(rt; is_too_short(rt.alloc())?);
    Ok(())
}

fn is_too_short(alloc: Global) -> Result<bool, Fail> {
    let mut disk = disk_of(alloc, vec![in alloc; 0; 63]?, None, &[])?;
    Ok(matches!(Slots::begin(&mut disk), Err(BeginFault::TooShort)))
}

#[test]
fn lengths_outside_the_limits_are_damaged(rt: HostRuntime) -> Result<(), Fail> {
    assert!(rt; are_damaged(rt.alloc())?);
    Ok(())
}

fn are_damaged(alloc: Global) -> Result<bool, Fail> {
    Ok(
        length_fault(alloc, 17)? == Some(BodyFault::Damaged)
            && length_fault(alloc, 7)? == Some(BodyFault::Damaged),
    )
}

// Why a body whose length spells this number isn't read.
fn length_fault(alloc: Global, length: u8) -> Result<Option<BodyFault>, Fail> {
    let mut bytes = vec![in alloc; 0; 90]?;
    bytes[71] = length;
    let mut disk = disk_of(alloc, bytes, None, &[])?;
    let slots = Slots::begin(&mut disk)?;
    Ok(slots.read_body(alloc, &mut disk, 0, SPAN).err())
}

// What a crash leaves for a choice.
type Left = (u8, &'static [u8]);

const LEFT: [Left; 4] = [
    (0, &[5]),
    (1, &[5, 0, 0, 6, 7]),
    (2, &[5, 255, 255, 255, 255]),
    (3, &[5, 0, 0]),
];

#[test]
fn a_crash_fills_or_halves_a_gap(rt: HostRuntime) -> Result<(), Fail> {
    let disk = disk_with_gap(rt.alloc())?;
    assert_eq!(rt; first_wrong_choice(rt.alloc(), &disk, &LEFT)?, None);
    Ok(())
}

// A write of two bytes past the end of one byte: its range begins at the old end.
fn disk_with_gap(alloc: Global) -> Result<MemoryDisk, Fail> {
    let mut disk = disk_of(alloc, [5].to_vec(alloc)?, None, &[])?;
    if !writes(&mut disk, 3, &[6, 7]) {
        return Err("the write failed".into());
    }
    Ok(disk)
}

fn first_wrong_choice(
    alloc: Global,
    disk: &MemoryDisk,
    cases: &[Left],
) -> Result<Option<usize>, AllocError> {
    for (place, (choice, bytes)) in cases.iter().enumerate() {
        if !leaves(alloc, disk, *choice, bytes)? {
            return Ok(Some(place));
        }
    }
    Ok(None)
}

#[test]
fn a_disk_fails_where_told(rt: HostRuntime) -> Result<(), Fail> {
    assert!(rt; a_small_disk_fails_where_told(rt.alloc())?);
    Ok(())
}

fn a_small_disk_fails_where_told(alloc: Global) -> Result<bool, Fail> {
    let fails = [1].to_vec(alloc)?;
    let mut disk = MemoryDisk::with_room(alloc, 2, 3, Vec::new(alloc), None, fails)?;
    Ok(calls_end_as_told(&mut disk) && leaves(alloc, &disk, 0, &[3, 2])?)
}

// Calls of a disk that has room for two bytes, and for three in its record, and whose call 1 fails: the third call is
// past the room, and the fifth finds no room in the record.
fn calls_end_as_told<D: Disk>(disk: &mut D) -> bool {
    writes(disk, 0, &[1, 2])
        && disk.len().is_err()
        && !writes(disk, 1, &[3, 4])
        && writes(disk, 0, &[3])
        && !writes(disk, 0, &[4])
        && disk.sync().is_ok()
}

// Whether a write succeeds. It says less than the contract of a disk, and so keeps that out of the proofs.
fn writes<D: Disk>(disk: &mut D, place: u64, bytes: &[u8]) -> bool {
    disk.write_at(place, bytes).is_ok()
}

#[test]
fn texts(rt: HostRuntime) -> Result<(), Fail> {
    assert!(rt; faults_are_told(rt.alloc())?);
    Ok(())
}

fn faults_are_told(alloc: Global) -> Result<bool, Fail> {
    let text = format!(in alloc;
        "{}, {}, {}, {}, {}",
        BeginFault::DiskFault,
        BeginFault::TooShort,
        BodyFault::DiskFault,
        BodyFault::Damaged,
        BodyFault::OutOfMemory
    )?;
    Ok(text.as_str() == "disk fault, no store, disk fault, damaged body, out of memory")
}
