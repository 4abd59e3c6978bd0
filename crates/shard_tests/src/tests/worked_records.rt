//! The records of eleven packets, which are dealt to two shards in turn, and shards of such records.

ghost use Rattle.std.specs.Prelude.{◌≡◌, ◌^◌, ◌≤◌, length, IfOk};
ghost use Rattle.prefix_lattice.specs.declared.grain.Grain.TheVariants.{Byte};

use prefix_lattice::{Grain, Record, RecordList};
use shard_state::{Folded, ShardState};
use std::alloc::{AllocError, Global};

// Packets from N.0.0.1 to (100 + N).0.0.1, N being 1 to 6.
pub(crate) const X: Record = Record {
    src: 0x0100_0001,
    dst: 0x6500_0001,
    weight: 1,
};

pub(crate) const U: Record = Record {
    src: 0x0200_0001,
    dst: 0x6600_0001,
    weight: 1,
};

pub(crate) const Y: Record = Record {
    src: 0x0300_0001,
    dst: 0x6700_0001,
    weight: 1,
};

pub(crate) const Z: Record = Record {
    src: 0x0400_0001,
    dst: 0x6800_0001,
    weight: 1,
};

pub(crate) const W: Record = Record {
    src: 0x0500_0001,
    dst: 0x6900_0001,
    weight: 1,
};

pub(crate) const V: Record = Record {
    src: 0x0600_0001,
    dst: 0x6a00_0001,
    weight: 1,
};

// The packets X X X Y X Z X W X V U, dealt to two shards in turn.
pub(crate) const FIRST: [Record; 6] = [X, X, X, X, X, U];

pub(crate) const SECOND: [Record; 5] = [X, Y, Z, W, V];

// The key of a packet where both addresses are kept whole.
pub(crate) fn key(packet: Record) -> u64 {
    u64::from(packet.src) << 32 | u64::from(packet.dst)
}

pub(crate) fn list_of(alloc: Global, records: &[Record]) -> Result<RecordList, AllocError>
    ensures { IfOk result (λ list. list ≡ records.now) }
{
    let mut list = RecordList::new(alloc);
    for rec in records {
        list.push(*rec)?;
    }
    Ok(list)
}

// A shard with these packets, and with tables of capacity 4.
pub(crate) fn started(alloc: Global, records: &[Record]) -> Result<ShardState, AllocError>
    requires { length records.now ≤ 2 ^ 24 }
    ensures shape { IfOk result (λ shard. shard.base.shape ≡ record { grain = Byte; capacity = 4 }) }
    ensures list { IfOk result (λ shard. shard.list ≡ records.now) }
{
    let list = list_of(alloc, records)?;
    ShardState::start(alloc, Grain::Byte, list, 4)
}

// A fold with a short contract, so that the proofs of the tests stay short.
pub(crate) fn fold(shard: &mut ShardState, block: u32) -> Folded
    requires { 1 ≤ block }
    ensures shape { shard.new.base.shape ≡ shard.old.base.shape }
    ensures list { shard.new.list ≡ shard.old.list }
{
    shard.fold_block(block)
}
