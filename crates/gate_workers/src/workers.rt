//! The workers: a pass for each, split off before threads start, and joined after they have ended.

ghost use Rattle.std.specs.Prelude.{◌≡◌, ◌<◌, ◌^◌, length, All, IfOk, OnOk, fold, map};
ghost use Rattle.pass_tokens.specs.{IsPassOf, after_join, view};
ghost use Rattle.gate_workers.specs.Plan.{IsPlanFor};
ghost use Rattle.gate_workers.specs.Running.{EachRelates, FeedsToEnds, IsSplitOff};
ghost use Rattle.gate_workers.specs.Running.{EachByNumber, after_splits};

use crate::feeding::feed_to_ends;
use crate::{Gate, ThreadPlan};
use pass_tokens::{Board, Pass};
use std::alloc::{AllocError, Global};
use std::marker::Sync;
use std::sync::Wait;
use std::thread::{Threads, for_each_mut};

/// As many passes as there are workers, split off from this one, in their order.
pub(crate) fn split_workers(
    alloc: Global,
    board: &Board,
    pass: &mut Pass,
    count: u32,
) -> Result<Vec<Pass>, AllocError>
    requires pass { IsPassOf board.now pass.old }
    ensures workers { IfOk result (λ workers. EachByNumber
        (λ number. IsSplitOff board.now (after_splits number (view pass.old))) workers.items) }
    ensures count { IfOk result (λ workers. length workers.items ≡ count) }
    ensures split { OnOk result (view pass.new ≡ after_splits count (view pass.old)) }
    ensures pass { IsPassOf board.now pass.new }
{
    let mut workers = Vec::new(alloc);
    for _worker in 0..count {
        let worker = board.split(pass);
        workers.push(worker)?;
    }
    Ok(workers)
}

/// Feeds the board by each worker, in a thread of its own where one can be started.
pub(crate) fn feed_each<R: Threads + Wait + Sync, G: Gate + Sync>(
    rt: &R,
    board: &Board,
    plan: &ThreadPlan,
    gate: &G,
    workers: &mut [Pass],
)
    requires plan { IsPlanFor board.now.opening plan.now }
    requires count { length workers.old ≡ plan.now.workers }
    requires workers { All (IsPassOf board.now) workers.old }
    ensures { EachRelates (FeedsToEnds board.now plan.now.block) workers.old workers.new }
{
    let threads = plan.workers as usize;
    let feed = |number: usize, pass: &mut Pass|
        requires { (number < 2 ^ 32) × IsPlanFor board.now.opening plan.now × IsPassOf board.now pass.now }
        ensures { FeedsToEnds board.entry.now plan.entry.now.block pass.entry.now pass.exit.now }
    { feed_to_ends(rt, board, pass, number as u32, plan.block, gate) };
    for_each_mut(rt, workers, threads, &feed);
}

/// Joins the passes of the workers, which have ended, to that of the calling thread.
pub(crate) fn join_workers(board: &Board, pass: &mut Pass, workers: Vec<Pass>)
    requires pass { IsPassOf board.now pass.old }
    requires workers { All (IsPassOf board.now) workers.items }
    ensures joined { view pass.new ≡ fold after_join (view pass.old) (map view workers.items) }
    ensures pass { IsPassOf board.now pass.new }
{
    for worker in workers {
        board.join(pass, worker);
    }
}
