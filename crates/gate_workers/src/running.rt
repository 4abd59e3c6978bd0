//! Workers, callers and the rounds of the calling thread, all at once.

ghost use Rattle.std.specs.Prelude.{◌≡◌, ◌⊎◌, ◌≤◌, ◌+◌, length, All, IfOk, OnErr};
ghost use Rattle.shard_state.specs.{BasesRepresent};
ghost use Rattle.pass_tokens.specs.{IsPassOf, view};
ghost use Rattle.gate_workers.specs.Feeding.{HasSeenEnds};
ghost use Rattle.gate_workers.specs.Running.{AreSoundReports, CanCall, EachRelates};
ghost use Rattle.gate_workers.specs.Running.{FeedsToEnds, BringBack, MakesRounds};
ghost use Rattle.gate_workers.specs.Running.{Runs};
ghost use Rattle.gate_workers.specs.Plan.{IsPlanFor};

use crate::callers::{Caller, brought_back, call_each, split_callers};
use crate::workers::{feed_each, join_workers, split_workers};
use crate::{Gate, Gathered, Rounds, ThreadPlan};
use pass_tokens::{Board, Pass};
use std::alloc::{AllocError, Global};
use std::marker::Sync;
use std::sync::Wait;
use std::thread::{Threads, join_mut};

/// Feeds a board to its ends by the plan's workers, while the plan's callers report and the calling thread makes the
/// rounds of `work` once. All passes and cuts are made before the first thread starts, the workers' passes first, and all
/// threads have ended when it returns. Where a thread can't be started, the calling thread does its work.
///
/// An error means that memory ran out, here or in a caller.
pub fn run_threads<R: Threads + Wait + Sync, G: Gate + Sync, W: Rounds>(
    rt: &R,
    alloc: Global,
    board: &Board,
    mut pass: Pass,
    plan: &ThreadPlan,
    gate: &G,
    work: &mut W,
) -> Result<Gathered, AllocError>
    requires pass { IsPassOf board.now pass }
    requires plan { IsPlanFor board.now.opening plan.now }
    requires ready { W.ready work.old board.now (view pass) }
    ensures gathers { IfOk result (BringBack board.now.opening plan.now
        (λ before now. W.does work.old before work.new now) (view pass)) }
    ensures sound { IfOk result (λ gathered. BasesRepresent board.now.opening
        → All (λ called. AreSoundReports board.now.opening plan.now.phi called.reports) gathered.called.items) }
    ensures ends { IfOk result (λ gathered. HasSeenEnds board.now.opening (view gathered.pass)) }
    ensures pass { IfOk result (λ gathered. IsPassOf board.now gathered.pass) }
    ensures passes { IfOk result (λ gathered. All (λ called. IsPassOf board.now called.pass) gathered.called.items) }
    ensures memory { OnErr result ((work.new ≡ work.old)
        ⊎ MakesRounds (λ before now. W.does work.old before work.new now) (plan.now.workers + plan.now.callers) (view pass)) }
{
    let mut workers = split_workers(alloc, board, &mut pass, plan.workers)?;
    let mut callers = split_callers(alloc, board, &mut pass, plan)?;
    run_all(
        rt,
        alloc,
        board,
        &mut pass,
        plan,
        gate,
        work,
        workers.as_mut_slice(),
        callers.as_mut_slice(),
    );
    join_workers(board, &mut pass, workers);
    let called = brought_back(alloc, callers)?;
    Ok(Gathered { pass, called })
}

// Feeds, calls and makes the rounds of the calling thread, all at once.
fn run_all<R: Threads + Wait + Sync, G: Gate + Sync, W: Rounds>(
    rt: &R,
    alloc: Global,
    board: &Board,
    pass: &mut Pass,
    plan: &ThreadPlan,
    gate: &G,
    work: &mut W,
    workers: &mut [Pass],
    callers: &mut [Caller],
)
    requires pass { IsPassOf board.now pass.old }
    requires plan { IsPlanFor board.now.opening plan.now }
    requires ready { W.ready work.old board.now (view pass.old) }
    requires workers { All (IsPassOf board.now) workers.old }
    requires as_many_workers { length workers.old ≡ plan.now.workers }
    requires callers { All (CanCall board.now) callers.old }
    requires as_many_callers { length callers.old ≡ plan.now.callers }
    ensures does { W.does work.old (view pass.old) work.new (view pass.new) }
    ensures pass { IsPassOf board.now pass.new }
    ensures workers { EachRelates (FeedsToEnds board.now plan.now.block) workers.old workers.new }
    ensures callers { EachRelates (Runs board.now plan.now) callers.old callers.new }
{
    let mut others = ||
        requires { IsPlanFor board.now.opening plan.now
            × (length workers.now ≡ plan.now.workers) × All (IsPassOf board.now) workers.now
            × (length callers.now ≡ plan.now.callers) × All (CanCall board.now) callers.now }
        ensures { EachRelates (FeedsToEnds board.entry.now plan.entry.now.block) workers.entry.now workers.exit.now
            × EachRelates (Runs board.entry.now plan.entry.now) callers.entry.now callers.exit.now }
    { feed_and_call(rt, alloc, board, plan, gate, workers, callers) };
    let mut rounds = ||
        requires { IsPassOf board.now pass.now × W.ready work.now board.now (view pass.now) }
        ensures { IsPassOf board.entry.now pass.exit.now
            × W.does work.entry.now (view pass.entry.now) work.exit.now (view pass.exit.now) }
    { work.go(rt, alloc, board, pass) };
    join_mut(rt, &mut others, &mut rounds);
}

// Feeds and calls at once.
fn feed_and_call<R: Threads + Wait + Sync, G: Gate + Sync>(
    rt: &R,
    alloc: Global,
    board: &Board,
    plan: &ThreadPlan,
    gate: &G,
    workers: &mut [Pass],
    callers: &mut [Caller],
)
    requires plan { IsPlanFor board.now.opening plan.now }
    requires workers { All (IsPassOf board.now) workers.old }
    requires as_many_workers { length workers.old ≡ plan.now.workers }
    requires callers { All (CanCall board.now) callers.old }
    requires as_many_callers { length callers.old ≡ plan.now.callers }
    ensures workers { EachRelates (FeedsToEnds board.now plan.now.block) workers.old workers.new }
    ensures callers { EachRelates (Runs board.now plan.now) callers.old callers.new }
{
    let mut calling = ||
        requires { IsPlanFor board.now.opening plan.now
            × (length callers.now ≡ plan.now.callers) × All (CanCall board.now) callers.now }
        ensures { EachRelates (Runs board.entry.now plan.entry.now) callers.entry.now callers.exit.now }
    { call_each(rt, alloc, board, plan, gate, callers) };
    let mut feeding = ||
        requires { IsPlanFor board.now.opening plan.now
            × (length workers.now ≡ plan.now.workers) × All (IsPassOf board.now) workers.now }
        ensures { EachRelates (FeedsToEnds board.entry.now plan.entry.now.block) workers.entry.now workers.exit.now }
    { feed_each(rt, board, plan, gate, workers) };
    join_mut(rt, &mut calling, &mut feeding);
}
