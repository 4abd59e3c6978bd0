//! Feeding the shards of a board to their ends.

ghost use Rattle.std.specs.Prelude.{◌≤◌, ◌<◌, length, IsTrue};
ghost use Rattle.pass_tokens.specs.{IsPassOf, view};
ghost use Rattle.gate_workers.specs.Feeding.{Feeds, HasSeenEnd, HasSeenEnds};

use crate::Gate;
use pass_tokens::{Board, Pass, TryFold};
use std::sync::Wait;
use std::sync::atomic::AtomicU64;
use std::thread;
use std::time::Duration;

// How long a worker that met no free shard with remaining records sleeps, in microseconds: less than a fold of 1,024
// records takes.
const NAP_MICROS: u64 = 200;

/// Counts blocks of the board's shards, `block` records at a time, at least one, until all shards are at their ends.
/// Worker w begins at shard w mod the number of shards, stays at a shard while no other pass holds it, and goes round.
/// The pass that comes back has seen the end of each list. It allocates no memory.
pub fn feed_all<R: Wait, G: Gate>(
    rt: &R,
    board: &Board,
    mut pass: Pass,
    worker: u32,
    block: u32,
    gate: &G,
) -> Pass
    requires block { 1 ≤ block }
    requires pass { IsPassOf board.now pass }
    ensures feeds { Feeds board.now.opening block (view pass) (view result) }
    ensures ends { HasSeenEnds board.now.opening (view result) }
    ensures pass { IsPassOf board.now result }
{
    feed_to_ends(rt, board, &mut pass, worker, block, gate);
    pass
}

/// What `feed_all` does, with a pass that is lent.
pub(crate) fn feed_to_ends<R: Wait, G: Gate>(
    rt: &R,
    board: &Board,
    pass: &mut Pass,
    worker: u32,
    block: u32,
    gate: &G,
)
    requires block { 1 ≤ block }
    requires pass { IsPassOf board.now pass.old }
    ensures feeds { Feeds board.now.opening block (view pass.old) (view pass.new) }
    ensures ends { HasSeenEnds board.now.opening (view pass.new) }
    ensures pass { IsPassOf board.now pass.new }
{
    for _ in rt.forever() {
        if feed_round(rt, board, pass, worker, block, gate) {
            return;
        }
        nap(rt);
    }
    unreachable!()
}

// Sleeps for a moment, so that a worker that waits for a shard leaves its processor to others.
fn nap<R: Wait>(rt: &R) {
    AtomicU64::new(0).park_timeout(rt, 0, Duration::from_micros(NAP_MICROS));
}

// Feeds each shard in turn. Returns whether all are at their ends.
fn feed_round<R: Wait, G: Gate>(
    rt: &R,
    board: &Board,
    pass: &mut Pass,
    worker: u32,
    block: u32,
    gate: &G,
) -> bool
    requires block { 1 ≤ block }
    requires pass { IsPassOf board.now pass.old }
    ensures feeds { Feeds board.now.opening block (view pass.old) (view pass.new) }
    ensures ends { IsTrue result → HasSeenEnds board.now.opening (view pass.new) }
    ensures pass { IsPassOf board.now pass.new }
{
    let shards = board.shards();
    let first = worker % shards;
    let mut ended = true;
    for turn in 0..shards {
        let shard = (first + turn) % shards;
        ended &= feed_shard(rt, board, pass, shard, worker, block, gate);
    }
    ended
}

// Folds a shard until it is at its end, or another pass holds it. Returns whether it is at its end.
fn feed_shard<R: Wait, G: Gate>(
    rt: &R,
    board: &Board,
    pass: &mut Pass,
    shard: u32,
    worker: u32,
    block: u32,
    gate: &G,
) -> bool
    requires within { shard < length board.now.opening }
    requires block { 1 ≤ block }
    requires pass { IsPassOf board.now pass.old }
    ensures feeds { Feeds board.now.opening block (view pass.old) (view pass.new) }
    ensures end { IsTrue result → HasSeenEnd board.now.opening shard (view pass.new) }
    ensures pass { IsPassOf board.now pass.new }
{
    for _ in rt.forever() {
        gate.before_fold(worker, shard);
        let tried = board.try_fold(shard, block, pass);
        gate.after_fold(worker, shard);
        match tried {
            TryFold::Busy => return false,
            TryFold::Done(done) => {
                if done.from == done.to {
                    return true;
                }
                // The shard is free for a moment, in which a caller that waits for it can read.
                thread::yield_now();
            }
        }
    }
    unreachable!()
}
