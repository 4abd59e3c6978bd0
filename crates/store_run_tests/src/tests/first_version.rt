//! A store of the first version, as the program wrote it that knew no other: it is opened, goes on and is saved as it is.

use super::stores::front_on;
use hhh_engine::Status;
use slot_disk::{Disk, MemoryDisk};
use std::alloc::{AllocError, Global};
use std::marker::Sync;
use std::process::Abort;
use std::sync::Wait;
use std::test::Fail;
use std::thread::Threads;
use test_runs::{Handed, ONE, REPORT, SECOND_SESSION, SESSION, disk_with, run_on};

// The gates, both closed, and the header for one shard at the default capacity.
const EMPTY: [u8; 64] = [
    0, 0, 0x48, 0x48, 0x48, 0x53, 1, 1, 2, 0, 0, 0, 0, 0, 0, 0, 0, 0, 0, 0, 0, 0, 0, 0, 0, 0, 0, 0,
    0, 0, 0, 0, 0, 0, 0, 0, 0, 0, 0, 0, 0, 0, 0, 0, 0, 0, 0, 0, 0, 0, 0, 0, 0, 0, 0, 0, 0, 0, 0, 0,
    0, 0, 0, 0,
];

// SHA-256 of that header and of the list of one packet of 100 bytes from 10.1.2.3 to 20.1.2.3.
const DIGEST: [u8; 32] = [
    183, 129, 105, 14, 92, 8, 175, 195, 124, 255, 125, 61, 69, 104, 140, 127, 123, 122, 7, 223,
    191, 116, 165, 235, 45, 153, 121, 50, 54, 38, 115, 145,
];

// The same of the list of two such packets.
const DIGEST_OF_TWO: [u8; 32] = [
    179, 172, 161, 210, 62, 157, 9, 24, 147, 35, 107, 114, 144, 200, 184, 191, 82, 128, 246, 227,
    188, 138, 86, 250, 136, 2, 76, 215, 240, 4, 231, 173,
];

// The bytes of the store after one report on one packet.
fn saved_store(alloc: Global) -> Result<Vec<u8>, AllocError> {
    let mut front = EMPTY;
    front[0] = 1;
    let mut bytes = Vec::from_slice(alloc, &front)?;
    bytes.extend_from_slice(&956u64.to_be_bytes())?;
    bytes.extend_from_slice(&1u64.to_be_bytes())?;
    bytes.extend_from_slice(&DIGEST)?;
    bytes.extend_from_slice(&1u64.to_be_bytes())?;
    for source in KEPT {
        for dest in KEPT {
            push_table(&mut bytes, 0x0a01_0203 & source, 0x1401_0203 & dest)?;
        }
    }
    Ok(bytes)
}

// What 0 to 4 whole bytes keep of an address.
const KEPT: [u32; 5] = [0, 0xff00_0000, 0xffff_0000, 0xffff_ff00, 0xffff_ffff];

// The table of a node, whose only entry has the weight of the packet.
fn push_table(bytes: &mut Vec<u8>, source: u32, dest: u32) -> Result<(), AllocError> {
    bytes.extend_from_slice(&100u64.to_be_bytes())?;
    bytes.extend_from_slice(&1u32.to_be_bytes())?;
    bytes.extend_from_slice(&source.to_be_bytes())?;
    bytes.extend_from_slice(&dest.to_be_bytes())?;
    bytes.extend_from_slice(&100u64.to_be_bytes())?;
    bytes.extend_from_slice(&0u64.to_be_bytes())
}

pub(crate) fn stores_of_the_first_version<R: Abort + Threads + Wait + Sync>(
    rt: &R,
    alloc: Global,
    handed: &Handed,
) -> Result<(), Fail> {
    goes_on(rt, alloc, handed)?;
    is_first_saved_to(rt, alloc, handed)?;
    refuses_another_capture(rt, alloc, handed)
}

// It goes on where it was, twice, and what it saves is of the first version.
fn goes_on<R: Abort + Threads + Wait + Sync>(
    rt: &R,
    alloc: Global,
    handed: &Handed,
) -> Result<(), Fail> {
    let mut disk = disk_with(alloc, &saved_store(alloc)?, None, &[])?;
    session_is(rt, alloc, handed, &mut disk, SECOND_SESSION)?;
    session_is(rt, alloc, handed, &mut disk, SECOND_SESSION)?;
    assert!(rt; is_saved_as_before(alloc, &mut disk, 3)?);
    Ok(())
}

// An empty one is saved to for the first time as the program that knew no other version did.
fn is_first_saved_to<R: Abort + Threads + Wait + Sync>(
    rt: &R,
    alloc: Global,
    handed: &Handed,
) -> Result<(), Fail> {
    let mut disk = disk_with(alloc, &EMPTY, None, &[])?;
    session_is(rt, alloc, handed, &mut disk, SESSION)?;
    assert!(rt; is_saved_as_before(alloc, &mut disk, 1)?);
    Ok(())
}

fn session_is<R: Abort + Threads + Wait + Sync>(
    rt: &R,
    alloc: Global,
    handed: &Handed,
    disk: &mut MemoryDisk,
    text: &str,
) -> Result<(), Fail> {
    let ended = run_on(rt, alloc, handed, &REPORT, &[ONE], disk)?;
    assert_eq!(rt; ended.status, Status::Done);
    assert_eq!(rt; ended.text.as_slice(), text.as_bytes());
    Ok(())
}

// Whether the header and the first slot are as in the store above, but for the second gate and the sequence.
fn is_saved_as_before(
    alloc: Global,
    disk: &mut MemoryDisk,
    sequence: u8,
) -> Result<bool, AllocError> {
    let mut wanted = saved_store(alloc)?;
    let mut bytes = vec![in alloc; 0; 1020]?;
    if disk.read_at(0, &mut bytes) != Ok(1020) || wanted.len() != 1020 {
        return Ok(false);
    }
    wanted[79] = sequence;
    wanted[1] = bytes[1];
    Ok(bytes == wanted)
}

// Another capture is told by the digest under the header that the store has.
fn refuses_another_capture<R: Abort + Threads + Wait + Sync>(
    rt: &R,
    alloc: Global,
    handed: &Handed,
) -> Result<(), Fail> {
    let mut disk = disk_with(alloc, &saved_store(alloc)?, None, &[])?;
    let ended = run_on(rt, alloc, handed, &REPORT, &[ONE, ONE], &mut disk)?;
    let told = Status::OtherCapture {
        stored: DIGEST,
        asked: DIGEST_OF_TWO,
    };
    assert_eq!(rt; ended.status, told);
    Ok(())
}

// A version that no header has, and a grain that one of the first version doesn't name.
pub(crate) fn headers_of_no_version<R: Abort + Threads + Wait + Sync>(
    rt: &R,
    alloc: Global,
    handed: &Handed,
) -> Result<(), Fail> {
    let mut third = EMPTY;
    third[6] = 3;
    is_not_formatted(rt, alloc, handed, &third)?;
    let mut with_grain = EMPTY;
    with_grain[12] = 8;
    is_not_formatted(rt, alloc, handed, &with_grain)
}

// The store isn't opened, and stands as it was.
fn is_not_formatted<R: Abort + Threads + Wait + Sync>(
    rt: &R,
    alloc: Global,
    handed: &Handed,
    header: &[u8; 64],
) -> Result<(), Fail> {
    let mut disk = disk_with(alloc, header, None, &[])?;
    let ended = run_on(rt, alloc, handed, &REPORT, &[ONE], &mut disk)?;
    assert_eq!(rt; ended.status, Status::NotFormatted);
    assert!(rt; front_on(rt, &mut disk) == *header);
    Ok(())
}
