//! Cuts of a worked packet, and disks in memory that they are saved on.

ghost use Rattle.std.specs.Prelude.{◌≡◌, ◌≤◌, ◌%◌, ◌^◌, [], ◌∷◌, length, IfOk};
ghost use Rattle.deal_rules.specs.{IsAsked};
ghost use Rattle.prefix_lattice.specs.declared.grain.Grain.TheVariants.{Byte};
ghost use Rattle.shard_state.specs.{cut_positions, most_grain_capacity};

use checkpoint::StoreSettings;
use deal_rules::{DealKind, Dealer, Dealt, deal};
use frame_records::Weigh;
use prefix_lattice::{Grain, Record, RecordList};
use shard_state::{Cut, ShardState};
use slot_disk::MemoryDisk;
use std::alloc::{AllocError, Global};
use std::test::Fail;

pub(crate) const ONE_SHARD: StoreSettings = StoreSettings {
    shards: 1,
    capacity: 512,
    weigh: Weigh::Bytes,
    deal: DealKind::RoundRobin,
    grain: Grain::Byte,
};

pub(crate) const HALF_BYTES: StoreSettings = StoreSettings {
    grain: Grain::Nibble,
    ..ONE_SHARD
};

// The smallest settings: tables of two entries.
pub(crate) const SMALLEST: StoreSettings = StoreSettings {
    capacity: 2,
    ..ONE_SHARD
};

// A packet of 100 bytes from 10.1.2.3 to 20.1.2.3.
pub(crate) const PACKET: Record = Record {
    src: 0x0a01_0203,
    dst: 0x1401_0203,
    weight: 100,
};

// SHA-256, by another program, of the header of the second version of one shard of capacity 512, by bytes, dealt in turn
// and by whole bytes, and of 00000001 0a010203 14010203 00000064.
pub(crate) const DIGEST: [u8; 32] = [
    0x6c, 0xd1, 0x07, 0x99, 0xfb, 0xe3, 0xcc, 0x1c, 0xa3, 0x93, 0x32, 0xe0, 0xed, 0xf3, 0x36, 0x4f,
    0x50, 0x2e, 0x13, 0xcc, 0x92, 0x8f, 0x7d, 0x82, 0x6a, 0x07, 0x32, 0xd3, 0xc6, 0xce, 0x1b, 0x79,
];

// The same of the header of the first version.
pub(crate) const OLD_DIGEST: [u8; 32] = [
    0xb7, 0x81, 0x69, 0x0e, 0x5c, 0x08, 0xaf, 0xc3, 0x7c, 0xff, 0x7d, 0x3d, 0x45, 0x68, 0x8c, 0x7f,
    0x7b, 0x7a, 0x07, 0xdf, 0xbf, 0x74, 0xa5, 0xeb, 0x2d, 0x99, 0x79, 0x32, 0x36, 0x26, 0x73, 0x91,
];

fn by_place(place: u64, rec: Record, shards: u32) -> u32
    requires { IsAsked place rec shards }
    ensures { result ≡ place % shards }
{
    (place % u64::from(shards)) as u32
}

// `count` records.
pub(crate) fn records(alloc: Global, rec: Record, count: usize) -> Result<RecordList, AllocError>
    ensures { IfOk result (λ list. length list ≡ count) }
{
    let mut list = RecordList::new(alloc);
    for _record in 0..count {
        list.push(rec)?;
    }
    Ok(list)
}

// `count` records, dealt to one shard.
pub(crate) fn dealt_of(alloc: Global, rec: Record, count: usize) -> Result<Dealt, Fail>
    requires { count ≤ 2 ^ 24 }
    ensures { IfOk result (λ dealt. length dealt ≡ 1) }
{
    let dealt = deal_in_turn(alloc, rec, count)?;
    if dealt.shards() != 1 {
        return Err("not one shard".into());
    }
    Ok(dealt)
}

fn deal_in_turn(alloc: Global, rec: Record, count: usize) -> Result<Dealt, AllocError>
    requires { count ≤ 2 ^ 24 }
{
    let dealer = Dealer::new(DealKind::RoundRobin, Box::new(alloc, by_place)?);
    let list = records(alloc, rec, count)?;
    deal(alloc, &list, &dealer, 1)
}

// A cut of one shard, by whole bytes, that counted these records whole.
pub(crate) fn cut_of(alloc: Global, list: RecordList, capacity: u32) -> Result<Cut, AllocError>
    requires few { length list ≤ 2 ^ 24 }
    requires least { 2 ≤ capacity }
    requires most { capacity ≤ 4096 }
    ensures shards { IfOk result (λ cut. length cut.shards ≡ 1) }
    ensures shape { IfOk result (λ cut. cut.shape ≡ record { grain = Byte; capacity = capacity }) }
    ensures positions { IfOk result (λ cut. cut_positions cut ≡ length list ∷ []) }
{
    cut_by(alloc, Grain::Byte, list, capacity)
}

// The same by a grain.
pub(crate) fn cut_by(
    alloc: Global,
    grain: Grain,
    list: RecordList,
    capacity: u32,
) -> Result<Cut, AllocError>
    requires few { length list ≤ 2 ^ 24 }
    requires least { 2 ≤ capacity }
    requires most { capacity ≤ 4096 }
    requires of_grain { capacity ≤ most_grain_capacity grain }
    ensures shards { IfOk result (λ cut. length cut.shards ≡ 1) }
    ensures shape { IfOk result (λ cut. cut.shape ≡ record { grain = grain; capacity = capacity }) }
    ensures positions { IfOk result (λ cut. cut_positions cut ≡ length list ∷ []) }
{
    let mut shard = ShardState::start(alloc, grain, list, capacity)?;
    shard.fold_block(u32::MAX);
    let mut cut = Cut::with_room(alloc, grain, 1, capacity)?;
    cut.copy_shard(0, &shard);
    Ok(cut)
}

// A disk of these bytes with room for more. Its calls from the fuse on fail, and those with these numbers.
pub(crate) fn disk_of(
    alloc: Global,
    bytes: Vec<u8>,
    fuse: Option<u64>,
    fails: &[u64],
) -> Result<MemoryDisk, AllocError> {
    let room = bytes.len().max(4_096);
    let fails = Vec::from_slice(alloc, fails)?;
    MemoryDisk::with_room(alloc, room, 1_048_576, bytes, fuse, fails)
}

// Whether a crash with this choice leaves these bytes.
pub(crate) fn leaves(
    alloc: Global,
    disk: &MemoryDisk,
    choice: u8,
    want: &[u8],
) -> Result<bool, AllocError> {
    Ok(disk.crash(alloc, choice)?.as_slice() == want)
}

// A place in bytes, and what they go on with there.
pub(crate) type Part = (usize, &'static [u8]);

pub(crate) fn has_parts(bytes: &[u8], parts: &[Part]) -> bool {
    for (place, part) in parts {
        if *place > bytes.len() || !bytes[*place..].starts_with(part) {
            return false;
        }
    }
    true
}
