//! Headers, bodies and saves of a store.

ghost use Rattle.std.specs.Prelude.{◌≡◌, ◌<◌, [], ◌∷◌, IfOk};
ghost use Rattle.checkpoint.specs.{AreSettings, DiskMatches, written_header};

use super::worked_saves::{
    DIGEST, HALF_BYTES, OLD_DIGEST, ONE_SHARD, PACKET, Part, SMALLEST, cut_by, cut_of, dealt_of,
    disk_of, has_parts, leaves, records,
};
use checkpoint::{
    DecodeFault, SaveFault, Saved, Saver, StoreHeader, StoreSettings, Version, decode, digest_of,
    encode, formatted_stores_are_empty, header_of, read_header, span,
};
use deal_rules::DealKind;
use frame_records::Weigh;
use prefix_lattice::{Grain, Node, Record, RecordList};
use shard_state::Cut;
use slot_disk::{Disk, MemoryDisk, Slots, format};
use std::alloc::{AllocError, Global};
use std::test::Fail;

const GREATEST: StoreSettings = StoreSettings {
    shards: 16,
    capacity: 4096,
    weigh: Weigh::Packets,
    deal: DealKind::Free,
    grain: Grain::Byte,
};

// Settings, the front of the header that is written for them, after which all bytes are 0, and the span of their
// bodies. The front is the letters, the version, the shards, the capacity, the weighing, the dealing and the grain.
type Header = (StoreSettings, [u8; 11], u64);

const HEADERS: [Header; 4] = [
    (
        SMALLEST,
        [0x48, 0x48, 0x48, 0x53, 2, 1, 0, 2, 0, 0, 8],
        1_556,
    ),
    (
        ONE_SHARD,
        [0x48, 0x48, 0x48, 0x53, 2, 1, 2, 0, 0, 0, 8],
        307_556,
    ),
    (
        HALF_BYTES,
        [0x48, 0x48, 0x48, 0x53, 2, 1, 2, 0, 0, 0, 4],
        996_356,
    ),
    (
        GREATEST,
        [0x48, 0x48, 0x48, 0x53, 2, 16, 0x10, 0, 1, 2, 8],
        39_326_576,
    ),
];

#[test]
fn headers_spell_settings(rt: HostRuntime) {
    assert_eq!(rt; first_wrong_header(&HEADERS), None);
}

fn first_wrong_header(cases: &[Header]) -> Option<usize> {
    for (place, (settings, front, room)) in cases.iter().enumerate() {
        if !are_spelled(settings, front, *room) {
            return Some(place);
        }
    }
    None
}

fn are_spelled(settings: &StoreSettings, front: &[u8; 11], room: u64) -> bool {
    settings.shards >= 1
        && settings.shards <= 16
        && settings.capacity >= 2
        && settings.capacity <= settings.grain.greatest_capacity()
        && span(settings) == room
        && go_both_ways(settings, front)
}

// Whether the header that is written begins so, and all its other bytes are 0.
fn go_both_ways(settings: &StoreSettings, front: &[u8; 11]) -> bool
    requires { AreSettings settings.now }
{
    let header = header_of(settings);
    is_read_as(&header, Version::Second, settings)
        && header.starts_with(front)
        && &header[11..] == [0; 51].as_slice()
}

fn is_read_as(bytes: &[u8; 62], version: Version, settings: &StoreSettings) -> bool {
    let header = StoreHeader {
        version,
        settings: *settings,
    };
    read_header(bytes) == Some(header)
}

// Settings, and the front of their header in the first version, which has no byte for the grain.
type OldHeader = (StoreSettings, [u8; 11]);

const OLD_HEADERS: [OldHeader; 3] = [
    (SMALLEST, [0x48, 0x48, 0x48, 0x53, 1, 1, 0, 2, 0, 0, 0]),
    (ONE_SHARD, [0x48, 0x48, 0x48, 0x53, 1, 1, 2, 0, 0, 0, 0]),
    (GREATEST, [0x48, 0x48, 0x48, 0x53, 1, 16, 0x10, 0, 1, 2, 0]),
];

#[test]
fn headers_of_the_first_version_are_read(rt: HostRuntime) {
    assert_eq!(rt; first_wrong_old_header(&OLD_HEADERS), None);
}

fn first_wrong_old_header(cases: &[OldHeader]) -> Option<usize> {
    for (place, (settings, front)) in cases.iter().enumerate() {
        if !is_read_as(&header_with(front), Version::First, settings) {
            return Some(place);
        }
    }
    None
}

// A header with this front, all of whose other bytes are 0.
fn header_with(front: &[u8; 11]) -> [u8; 62] {
    let mut header = [0; 62];
    header[..11].copy_from_slice(front);
    header
}

// Fronts of headers. In each header each byte is changed to each value, and what comes out is read or refused as the
// text of the format says.
const FRONTS: [[u8; 11]; 4] = [
    [0x48, 0x48, 0x48, 0x53, 1, 1, 2, 0, 0, 0, 0],
    [0x48, 0x48, 0x48, 0x53, 2, 1, 2, 0, 0, 0, 8],
    [0x48, 0x48, 0x48, 0x53, 2, 16, 4, 0, 1, 2, 4],
    [0x48, 0x48, 0x48, 0x53, 2, 16, 0, 2, 1, 2, 8],
];

#[test]
fn changed_headers_are_read_or_refused(rt: HostRuntime) {
    assert_eq!(rt; first_wrong_front(&FRONTS), None);
}

fn first_wrong_front(cases: &[[u8; 11]]) -> Option<usize> {
    for (place, front) in cases.iter().enumerate() {
        if !are_changes_told(&header_with(front)) {
            return Some(place);
        }
    }
    None
}

fn are_changes_told(header: &[u8; 62]) -> bool {
    for place in 0..62 {
        if !are_values_told(header, place) {
            return false;
        }
    }
    true
}

fn are_values_told(header: &[u8; 62], place: usize) -> bool
    requires { place < 62 }
{
    for value in 0..256u16 {
        let mut changed = *header;
        changed[place] = value as u8;
        if read_header(&changed).is_some() != is_header(&changed) {
            return false;
        }
    }
    true
}

// Whether the text of the format allows these bytes 2 to 63 of a store.
fn is_header(bytes: &[u8; 62]) -> bool {
    let capacity = 256 * u32::from(bytes[6]) + u32::from(bytes[7]);
    let most = if bytes[10] == 4 { 1024 } else { 4096 };
    bytes.starts_with(&[0x48, 0x48, 0x48, 0x53])
        && has_known_version(bytes[4], bytes[10])
        && (1..=16).contains(&bytes[5])
        && (2..=most).contains(&capacity)
        && bytes[8] < 2
        && bytes[9] < 3
        && bytes[11..] == [0; 51]
}

fn has_known_version(version: u8, grain: u8) -> bool {
    match version {
        1 => grain == 0,
        2 => grain == 8 || grain == 4,
        _ => false,
    }
}

#[test]
fn the_digest_is_that_of_the_dealt_records(rt: HostRuntime) -> Result<(), Fail> {
    assert!(rt; are_packet_digests(rt.alloc())?);
    Ok(())
}

// Under the header of each version.
fn are_packet_digests(alloc: Global) -> Result<bool, Fail> {
    let dealt = dealt_of(alloc, PACKET, 1)?;
    let old = header_with(&[0x48, 0x48, 0x48, 0x53, 1, 1, 2, 0, 0, 0, 0]);
    Ok(digest_of(&dealt, &header_of(&ONE_SHARD)) == DIGEST && digest_of(&dealt, &old) == OLD_DIGEST)
}

// The body of the packet alone, as the third save.
fn packet_body(alloc: Global) -> Result<Vec<u8>, AllocError> {
    let cut = cut_of(alloc, records(alloc, PACKET, 1)?, 512)?;
    encode(alloc, 3, &DIGEST, &cut)
}

// The parts of a body of 956 bytes.
const BODY_PARTS: [Part; 4] = [
    // the length and the sequence
    (0, &[0, 0, 0, 0, 0, 0, 3, 0xbc, 0, 0, 0, 0, 0, 0, 0, 3]),
    (16, &DIGEST),
    // the position, and the table of all traffic: a total of 100, and one entry of key 0, count 100 and error 0
    (
        48,
        &[
            0, 0, 0, 0, 0, 0, 0, 1, 0, 0, 0, 0, 0, 0, 0, 100, 0, 0, 0, 1, 0, 0, 0, 0, 0, 0, 0, 0,
            0, 0, 0, 0, 0, 0, 0, 100, 0, 0, 0, 0, 0, 0, 0, 0,
        ],
    ),
    // the entry of the packet itself
    (
        932,
        &[
            0x0a, 1, 2, 3, 0x14, 1, 2, 3, 0, 0, 0, 0, 0, 0, 0, 100, 0, 0, 0, 0, 0, 0, 0, 0,
        ],
    ),
];

#[test]
fn a_body_spells_a_cut(rt: HostRuntime) -> Result<(), Fail> {
    assert!(rt; a_packet_is_spelled(rt.alloc())?);
    Ok(())
}

fn a_packet_is_spelled(alloc: Global) -> Result<bool, Fail> {
    let body = packet_body(alloc)?;
    Ok(body.len() == 956 && has_parts(&body, &BODY_PARTS) && a_packet_is_read(alloc, &body)?)
}

fn a_packet_is_read(alloc: Global, body: &[u8]) -> Result<bool, Fail> {
    let saved = decoded(alloc, body, &ONE_SHARD)?;
    Ok(is_third(alloc, &saved)? && spells(alloc, &saved, body)?)
}

// The third save, of the packet alone.
fn is_third(alloc: Global, saved: &Saved) -> Result<bool, AllocError> {
    let positions = saved.cut.positions(alloc)?;
    Ok(saved.sequence == 3 && saved.digest == DIGEST && positions.as_slice() == [1].as_slice())
}

// Whether what was decoded spells the same body.
fn spells(alloc: Global, saved: &Saved, body: &[u8]) -> Result<bool, Fail> {
    let again = spelled(alloc, saved.sequence, &saved.digest, &saved.cut)?;
    Ok(again.as_slice() == body)
}

// These two say less than the contracts of what they call, and so keep those out of the proofs of tests.

fn spelled(alloc: Global, sequence: u64, digest: &[u8; 32], cut: &Cut) -> Result<Vec<u8>, Fail> {
    if sequence < 1 || sequence > 1 << 62 {
        return Err("no such sequence".into());
    }
    if cut.shards() > 16 {
        return Err("too many shards".into());
    }
    Ok(encode(alloc, sequence, digest, cut)?)
}

fn decoded(alloc: Global, bytes: &[u8], settings: &StoreSettings) -> Result<Saved, DecodeFault>
    requires { AreSettings settings.now }
{
    decode(alloc, bytes, settings)
}

// A place, and a byte there with which a body is none.
type Damage = (usize, u8);

// In the length, the sequence, the position, the first total, the first number of entries, the key of all traffic, its
// count, its error, and the last total.
const BODY_DAMAGES: [Damage; 13] = [
    (0, 0xff),
    (7, 0xbd),
    (8, 0x40),
    (15, 0),
    (52, 2),
    (63, 101),
    (66, 2),
    (67, 2),
    (67, 0),
    (75, 1),
    (83, 0),
    (91, 100),
    (927, 99),
];

#[test]
fn damaged_bodies_are_refused(rt: HostRuntime) -> Result<(), Fail> {
    let body = packet_body(rt.alloc())?;
    assert_eq!(rt; first_body_read(rt.alloc(), &body, &BODY_DAMAGES)?, None);
    assert_eq!(rt;
        first_length_read(rt.alloc(), &body, &[0, 7, 47, 955]),
        None
    );
    Ok(())
}

fn first_body_read(
    alloc: Global,
    body: &[u8],
    cases: &[Damage],
) -> Result<Option<usize>, AllocError> {
    for (place, (at, byte)) in cases.iter().enumerate() {
        if !is_damage_seen(alloc, body, *at, *byte)? {
            return Ok(Some(place));
        }
    }
    Ok(None)
}

fn is_damage_seen(alloc: Global, body: &[u8], place: usize, byte: u8) -> Result<bool, AllocError> {
    let mut damaged = body.to_vec(alloc)?;
    if place >= damaged.len() {
        return Ok(false);
    }
    damaged[place] = byte;
    Ok(is_damaged(alloc, &damaged, &ONE_SHARD))
}

fn first_length_read(alloc: Global, body: &[u8], lengths: &[usize]) -> Option<usize> {
    for length in lengths {
        if *length > body.len() || !is_damaged(alloc, &body[..*length], &ONE_SHARD) {
            return Some(*length);
        }
    }
    None
}

// Whether these bytes are no body under these settings.
fn is_damaged(alloc: Global, bytes: &[u8], settings: &StoreSettings) -> bool
    requires { AreSettings settings.now }
{
    matches!(decoded(alloc, bytes, settings), Err(DecodeFault::Damaged))
}

const TWO_SHARDS: StoreSettings = StoreSettings {
    shards: 2,
    ..ONE_SHARD
};

#[test]
fn other_bodies_are_refused(rt: HostRuntime) -> Result<(), Fail> {
    assert!(rt; other_bodies_are_damaged(rt.alloc())?);
    Ok(())
}

fn other_bodies_are_damaged(alloc: Global) -> Result<bool, AllocError> {
    let mut body = packet_body(alloc)?;
    let has_other_shards = is_damaged(alloc, &body, &TWO_SHARDS);
    body.push(0)?;
    Ok(has_other_shards && is_damaged(alloc, &body, &ONE_SHARD))
}

// A body by half bytes has 81 tables, which are 12 bytes and one entry here: 48 + 8 + 81 * 36 bytes.
#[test]
fn bodies_are_of_their_grain(rt: HostRuntime) -> Result<(), Fail> {
    assert!(rt; are_bodies_of_their_grain(rt.alloc())?);
    Ok(())
}

fn are_bodies_of_their_grain(alloc: Global) -> Result<bool, Fail> {
    let whole = packet_body(alloc)?;
    let half = half_body(alloc)?;
    Ok(
        half.len() == 2_972
            && is_damaged(alloc, &whole, &HALF_BYTES)
            && is_damaged(alloc, &half, &ONE_SHARD)
            && is_third_by_half_bytes(alloc, &half)?,
    )
}

// The body of the packet alone by half bytes, as the third save.
fn half_body(alloc: Global) -> Result<Vec<u8>, AllocError> {
    let cut = cut_by(alloc, Grain::Nibble, records(alloc, PACKET, 1)?, 512)?;
    encode(alloc, 3, &DIGEST, &cut)
}

fn is_third_by_half_bytes(alloc: Global, body: &[u8]) -> Result<bool, Fail> {
    let saved = decoded(alloc, body, &HALF_BYTES)?;
    Ok(
        saved.cut.grain() == Grain::Nibble
            && is_third(alloc, &saved)?
            && spells(alloc, &saved, body)?,
    )
}

const WIDEST: StoreSettings = StoreSettings {
    capacity: 4096,
    ..ONE_SHARD
};

#[test]
fn full_tables_go_both_ways(rt: HostRuntime) -> Result<(), Fail> {
    assert!(rt; a_full_cut_is_spelled(rt.alloc())?);
    Ok(())
}

fn a_full_cut_is_spelled(alloc: Global) -> Result<bool, Fail> {
    let cut = full_cut(alloc)?;
    let body = spelled(alloc, 1 << 62, &DIGEST, &cut)?;
    is_read(alloc, &cut, &body)
}

fn is_read(alloc: Global, cut: &Cut, body: &[u8]) -> Result<bool, Fail> {
    let saved = decoded(alloc, body, &WIDEST)?;
    Ok(have_same_table(cut, &saved.cut) && spells(alloc, &saved, body)?)
}

// A cut of records whose tables of pairs of addresses are full.
fn full_cut(alloc: Global) -> Result<Cut, Fail> {
    let list = many_records(alloc)?;
    if list.len() > 1 << 24 {
        return Err("too many records".into());
    }
    Ok(cut_of(alloc, list, 4096)?)
}

fn many_records(alloc: Global) -> Result<RecordList, Fail> {
    let mut list = RecordList::new(alloc);
    for place in 0..5_000 {
        list.push(Record::new(place * 77, place, 1 + place % 7).ok_or("a weight of 0")?)?;
    }
    Ok(list)
}

// Whether the tables of pairs of whole addresses are the same.
fn have_same_table(cut: &Cut, read: &Cut) -> bool {
    let Some(node) = Node::from_index(cut.grain(), 24) else {
        return false;
    };
    let Some(read_node) = Node::from_index(read.grain(), 24) else {
        return false;
    };
    if node != read_node || cut.shards() != 1 || read.shards() != 1 {
        return false;
    }
    let table = cut.shard(0).table(node);
    let read = read.shard(0).table(read_node);
    for place in 0..read.len() {
        if place >= table.len() || read.entry(place) != table.entry(place) {
            return false;
        }
    }
    read.len() == 4096
}

// Makes a store, and a saver of it: calls 0 to 3 of the disk.
fn make_store<D: Disk>(alloc: Global, disk: &mut D) -> Result<Saver, Fail>
    ensures stands { IfOk result (λ saver. DiskMatches (D.reads disk.new) (D.image_now disk.new) saver) }
    ensures header { IfOk result (λ saver. saver.header ≡ written_header SMALLEST) }
    ensures sequence { IfOk result (λ saver. saver.sequence ≡ 0) }
    ensures positions { IfOk result (λ saver. saver.positions ≡ 0 ∷ []) }
{
    formatted_stores_are_empty();
    let header = header_of(&SMALLEST);
    format(disk, &header)?;
    let slots = Slots::begin(disk)?;
    if slots.gate(0) {
        return Err("gate 0 is open".into());
    }
    if slots.gate(1) {
        return Err("gate 1 is open".into());
    }
    if slots.header() != &header {
        return Err("another header".into());
    }
    let spelled = StoreHeader {
        version: Version::Second,
        settings: SMALLEST,
    };
    Ok(Saver::new(alloc, slots, spelled, DIGEST, &None)?)
}

// Saves a cut of one packet: calls 4 to 9 of the disk.
fn save_first<D: Disk>(alloc: Global, disk: &mut D) -> Result<Saver, Fail>
    ensures stands { IfOk result (λ saver. DiskMatches (D.reads disk.new) (D.image_now disk.new) saver) }
    ensures header { IfOk result (λ saver. saver.header ≡ written_header SMALLEST) }
    ensures sequence { IfOk result (λ saver. saver.sequence ≡ 1) }
    ensures positions { IfOk result (λ saver. saver.positions ≡ 1 ∷ []) }
{
    let saver = make_store(alloc, disk)?;
    let cut = cut_of(alloc, records(alloc, PACKET, 1)?, 2)?;
    Ok(saver.save(alloc, disk, &cut)?)
}

// Then saves a cut of two packets, calls 10 to 15 of the disk, and compares the saver.
fn saves_both<D: Disk>(alloc: Global, disk: &mut D) -> Result<bool, Fail> {
    let saver = save_first(alloc, disk)?;
    let cut = cut_of(alloc, records(alloc, PACKET, 2)?, 2)?;
    let saver = saver.save(alloc, disk, &cut)?;
    Ok(is_saver(&saver, 2, 2))
}

// Compares the sequence of a saver of one shard, its position, and its digest.
fn is_saver(saver: &Saver, sequence: u64, position: u64) -> bool {
    saver.sequence() == sequence
        && saver.positions().as_slice() == [position].as_slice()
        && saver.digest() == &DIGEST
}

// The newest sequence in these bytes, and the position of its cut, or zeros where no gate is open.
fn newest_of(alloc: Global, bytes: Vec<u8>) -> Result<(u64, u64), Fail> {
    let mut disk = disk_of(alloc, bytes, None, &[])?;
    newest_on(alloc, &mut disk)
}

// A disk of any kind, here and below, keeps what is known of a disk in memory out of the proofs.
fn newest_on<D: Disk>(alloc: Global, disk: &mut D) -> Result<(u64, u64), Fail> {
    let slots = Slots::begin(disk)?;
    let first = saved_in(alloc, disk, &slots, 0)?;
    Ok(first.max(saved_in(alloc, disk, &slots, 1)?))
}

// The sequence in a slot, and the position of its cut, or zeros where its gate is closed.
fn saved_in<D: Disk>(
    alloc: Global,
    disk: &mut D,
    slots: &Slots,
    slot: u8,
) -> Result<(u64, u64), Fail>
    requires { slot < 2 }
{
    if !slots.gate(slot) {
        return Ok((0, 0));
    }
    let body = slots.read_body(alloc, disk, slot, span(&SMALLEST))?;
    let saved = decode(alloc, &body, &SMALLEST)?;
    Ok((saved.sequence, saved.cut.shard(0).position()))
}

// Two closed gates, and the header of the smallest settings.
const MADE_STORE: [u8; 64] = [
    0, 0, 0x48, 0x48, 0x48, 0x53, 2, 1, 0, 2, 0, 0, 8, 0, 0, 0, 0, 0, 0, 0, 0, 0, 0, 0, 0, 0, 0, 0,
    0, 0, 0, 0, 0, 0, 0, 0, 0, 0, 0, 0, 0, 0, 0, 0, 0, 0, 0, 0, 0, 0, 0, 0, 0, 0, 0, 0, 0, 0, 0, 0,
    0, 0, 0, 0,
];

#[test]
fn a_store_is_made_with_its_header(rt: HostRuntime) -> Result<(), Fail> {
    assert!(rt; a_made_store_has_its_header(rt.alloc())?);
    Ok(())
}

fn a_made_store_has_its_header(alloc: Global) -> Result<bool, Fail> {
    let mut disk = disk_of(alloc, Vec::new(alloc), None, &[])?;
    Ok(makes_a_saver(alloc, &mut disk)? && leaves(alloc, &disk, 0, &MADE_STORE)?)
}

fn makes_a_saver<D: Disk>(alloc: Global, disk: &mut D) -> Result<bool, Fail> {
    let saver = make_store(alloc, disk)?;
    Ok(is_saver(&saver, 0, 0))
}

// The parts of a store of two saves: both gates are open, and the bodies are a span of 1,556 bytes apart. Each body
// begins with its length, its sequence and its digest.
const SAVED_PARTS: [Part; 5] = [
    (0, &[1, 1]),
    (64, &[0, 0, 0, 0, 0, 0, 3, 0xbc, 0, 0, 0, 0, 0, 0, 0, 1]),
    (1_620, &[0, 0, 0, 0, 0, 0, 3, 0xbc, 0, 0, 0, 0, 0, 0, 0, 2]),
    (80, &DIGEST),
    (1_636, &DIGEST),
];

#[test]
fn saves_go_to_both_slots_in_turn(rt: HostRuntime) -> Result<(), Fail> {
    let disk = saved_disk(rt.alloc())?;
    assert_eq!(rt; first_wrong_crash(rt.alloc(), &disk)?, None);
    Ok(())
}

// A disk that both slots of a store were saved on.
fn saved_disk(alloc: Global) -> Result<MemoryDisk, Fail> {
    let mut disk = disk_of(alloc, Vec::new(alloc), None, &[])?;
    if !saves_both(alloc, &mut disk)? {
        return Err("another saver".into());
    }
    Ok(disk)
}

// The first choice of a crash that leaves something else than both saves.
fn first_wrong_crash(alloc: Global, disk: &MemoryDisk) -> Result<Option<u8>, Fail> {
    for choice in 0..4 {
        if !has_both_saves(alloc, disk.crash(alloc, choice)?)? {
            return Ok(Some(choice));
        }
    }
    Ok(None)
}

fn has_both_saves(alloc: Global, image: Vec<u8>) -> Result<bool, Fail> {
    let is_whole = image.len() == 64 + 1_556 + 956 && has_parts(&image, &SAVED_PARTS);
    let newest = newest_of(alloc, image)?;
    Ok(is_whole && newest == (2, 2))
}

// A stop at each call of the second save, and each choice of what a crash leaves. Only a crash that keeps all leaves the
// new cut, and only once its gate was written. Half of a gate is none of it.
#[test]
fn a_stop_leaves_the_old_cut_or_the_new_one(rt: HostRuntime) -> Result<(), Fail> {
    assert_eq!(rt; first_wrong_stop(rt.alloc())?, None);
    Ok(())
}

// The first call at which a stop leaves something else.
fn first_wrong_stop(alloc: Global) -> Result<Option<u64>, Fail> {
    for fuse in 10..16 {
        if !stop_leaves(alloc, fuse)? {
            return Ok(Some(fuse));
        }
    }
    Ok(None)
}

fn stop_leaves(alloc: Global, fuse: u64) -> Result<bool, Fail> {
    let disk = stopped_disk(alloc, fuse)?;
    for choice in 0..4 {
        let want = if fuse >= 14 && choice == 1 { 2 } else { 1 };
        if newest_of(alloc, disk.crash(alloc, choice)?)? != (want, want) {
            return Ok(false);
        }
    }
    Ok(true)
}

// A disk whose calls from the fuse on fail, after a first save and one that the fuse stopped.
fn stopped_disk(alloc: Global, fuse: u64) -> Result<MemoryDisk, Fail> {
    let mut disk = disk_of(alloc, Vec::new(alloc), Some(fuse), &[])?;
    if !second_save_stops(alloc, &mut disk)? {
        return Err("no call failed".into());
    }
    Ok(disk)
}

// Whether a fault of the disk stops a second save.
fn second_save_stops<D: Disk>(alloc: Global, disk: &mut D) -> Result<bool, Fail> {
    let saver = save_first(alloc, disk)?;
    let cut = cut_of(alloc, records(alloc, PACKET, 2)?, 2)?;
    let saved = saver.save(alloc, disk, &cut);
    Ok(matches!(saved, Err(SaveFault::DiskFault)))
}
