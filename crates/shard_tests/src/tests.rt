ghost use Rattle.std.specs.Prelude.{◌≡◌, ◌≤◌, length, IfOk};
ghost use Rattle.prefix_lattice.specs.declared.grain.Grain.TheVariants.{Byte};
ghost use Rattle.shard_state.specs.{AreCoreShards, core_shape};
ghost use Rattle.pass_tokens.specs.{IsPassOf};

mod of_cut_merge;
mod of_gate_workers;
mod of_hhh_output;
mod of_pass_tokens;
mod of_position_words;
mod of_shard_state;
mod worked_records;

use pass_tokens::{Board, Pass};
use prefix_lattice::{Grain, Record, RecordList};
use shard_state::{Cut, ShardState};
use std::alloc::{AllocError, Global};

// The shards of eleven packets that were dealt to two shards in turn: six and five packets, in tables of capacity 4.
pub(crate) fn worked_states(alloc: Global) -> Result<Vec<ShardState>, AllocError>
    ensures { IfOk result (λ states. AreCoreShards states.items × (length states.items ≡ 2)
        × (core_shape states.items ≡ record { grain = Byte; capacity = 4 })) }
{
    let mut states = Vec::new(alloc);
    states.push(shard_of(alloc, &[1, 1, 1, 1, 1, 2])?)?;
    states.push(shard_of(alloc, &[1, 3, 4, 5, 6])?)?;
    Ok(states)
}

// A board of the worked shards, and its first pass.
pub(crate) fn worked_board(alloc: Global) -> Result<(Board, Pass), AllocError>
    ensures { IfOk result (λ made. (length made.0.opening ≡ 2) × (core_shape made.0.opening ≡ record { grain = Byte; capacity = 4 }) × IsPassOf made.0 made.1) }
{
    Board::start(alloc, worked_states(alloc)?)
}

// A board of one shard with these packets, and its first pass.
pub(crate) fn board_of_one(alloc: Global, packets: &[u8]) -> Result<(Board, Pass), AllocError>
    requires { length packets.now ≤ 256 }
    ensures { IfOk result (λ made. (length made.0.opening ≡ 1) × (core_shape made.0.opening ≡ record { grain = Byte; capacity = 4 }) × IsPassOf made.0 made.1) }
{
    Board::start(alloc, one_shard(alloc, packets)?)
}

// One shard with these packets.
fn one_shard(alloc: Global, packets: &[u8]) -> Result<Vec<ShardState>, AllocError>
    requires { length packets.now ≤ 256 }
    ensures { IfOk result (λ states. AreCoreShards states.items × (length states.items ≡ 1)
        × (core_shape states.items ≡ record { grain = Byte; capacity = 4 })) }
{
    let mut states = Vec::new(alloc);
    states.push(shard_of(alloc, packets)?)?;
    Ok(states)
}

// A shard with packets from N.0.0.1 to (100 + N).0.0.1.
fn shard_of(alloc: Global, packets: &[u8]) -> Result<ShardState, AllocError>
    requires { length packets.now ≤ 256 }
    ensures { IfOk result (λ state. state.base.shape ≡ record { grain = Byte; capacity = 4 }) }
{
    let list = packets_from(alloc, packets)?;
    ShardState::start(alloc, Grain::Byte, list, 4)
}

fn packets_from(alloc: Global, packets: &[u8]) -> Result<RecordList, AllocError>
    ensures { IfOk result (λ list. length list ≡ length packets.now) }
{
    let mut list = RecordList::new(alloc);
    for packet in packets {
        let number = u32::from(*packet);
        let src = number << 24 | 1;
        let dst = (number + 100) << 24 | 1;
        list.push(Record {
            src,
            dst,
            weight: 1,
        })?;
    }
    Ok(list)
}

// Whether these are the positions of a cut.
pub(crate) fn stands_at(alloc: Global, cut: &Cut, positions: &[u64]) -> Result<bool, AllocError> {
    Ok(cut.positions(alloc)?.as_slice() == positions)
}
