//! The callers: a pass and a cut for each, made before threads start, and what each brings back after they have ended.

ghost use Rattle.std.specs.Prelude.{◌≡◌, ◌≤◌, ◌<◌, ◌^◌, length, All, IfOk, OnOk};
ghost use Rattle.std.specs.List.{AllZip};
ghost use Rattle.pass_tokens.specs.{IsPassOf, newcomer_view, view};
ghost use Rattle.gate_workers.specs.Running.{BringsBack, CanCall, EachRelates};
ghost use Rattle.gate_workers.specs.Running.{Runs, EachByNumber, after_splits};
ghost use Rattle.gate_workers.specs.Plan.{IsPlanFor};

use crate::calling::report_in_rounds;
use crate::{Called, Gate, ThreadPlan};
use hhh_report::Reports;
use pass_tokens::{Board, Pass};
use shard_state::Cut;
use std::alloc::{AllocError, Global};
use std::marker::Sync;
use std::sync::Wait;
use std::thread::{Threads, for_each_mut};

/// A caller, before its thread starts and after it has ended.
#[derive(Drop)]
pub(crate) struct Caller {
    /// The pass with which it reads.
    pub(crate) pass: Pass,
    /// The cut into which it reads.
    pub(crate) cut: Cut,
    /// Its reports so far.
    pub(crate) reports: Result<Reports, AllocError>,
}

/// The callers of a plan, each with a pass that is split off from this one, in their order, and a cut of the board's shape.
pub(crate) fn split_callers(
    alloc: Global,
    board: &Board,
    pass: &mut Pass,
    plan: &ThreadPlan,
) -> Result<Vec<Caller>, AllocError>
    requires plan { IsPlanFor board.now.opening plan.now }
    requires pass { IsPassOf board.now pass.old }
    ensures callers { IfOk result (λ callers. All (CanCall board.now) callers.items) }
    ensures newcomers { IfOk result (λ callers. EachByNumber
        (λ number caller. view caller.pass ≡ newcomer_view (after_splits number (view pass.old))) callers.items) }
    ensures count { IfOk result (λ callers. length callers.items ≡ plan.now.callers) }
    ensures split { OnOk result (view pass.new ≡ after_splits plan.now.callers (view pass.old)) }
    ensures pass { IsPassOf board.now pass.new }
{
    let mut callers = Vec::new(alloc);
    for _caller in 0..plan.callers {
        let made = new_caller(alloc, board, pass, plan)?;
        callers.push(made)?;
    }
    Ok(callers)
}

// A caller with a pass that is split off from this one, and a cut of the board's shape.
fn new_caller(
    alloc: Global,
    board: &Board,
    pass: &mut Pass,
    plan: &ThreadPlan,
) -> Result<Caller, AllocError>
    requires plan { IsPlanFor board.now.opening plan.now }
    requires pass { IsPassOf board.now pass.old }
    ensures caller { IfOk result (CanCall board.now) }
    ensures newcomer { IfOk result (λ caller. view caller.pass ≡ newcomer_view (view pass.old)) }
    ensures split { OnOk result (view pass.new ≡ after_splits 1 (view pass.old)) }
    ensures pass { IsPassOf board.now pass.new }
{
    let cut = Cut::with_room(alloc, plan.grain, board.shards(), plan.capacity)?;
    Ok(Caller {
        pass: board.split(pass),
        cut,
        reports: Ok(Reports::new(alloc)),
    })
}

/// Makes the rounds of each caller, in a thread of its own where one can be started.
pub(crate) fn call_each<R: Threads + Wait + Sync, G: Gate + Sync>(
    rt: &R,
    alloc: Global,
    board: &Board,
    plan: &ThreadPlan,
    gate: &G,
    callers: &mut [Caller],
)
    requires plan { IsPlanFor board.now.opening plan.now }
    requires count { length callers.old ≡ plan.now.callers }
    requires callers { All (CanCall board.now) callers.old }
    ensures { EachRelates (Runs board.now plan.now) callers.old callers.new }
{
    let threads = plan.callers.max(1) as usize;
    let call = |number: usize, caller: &mut Caller|
        requires { (number < 2 ^ 32) × IsPlanFor board.now.opening plan.now × CanCall board.now caller.now }
        ensures { Runs board.entry.now plan.entry.now caller.entry.now caller.exit.now }
    { make_rounds(rt, alloc, board, plan, number as u32, gate, caller) };
    for_each_mut(rt, callers, threads, &call);
}

// Makes the rounds of a caller.
fn make_rounds<R: Wait, G: Gate>(
    rt: &R,
    alloc: Global,
    board: &Board,
    plan: &ThreadPlan,
    number: u32,
    gate: &G,
    caller: &mut Caller,
)
    requires plan { IsPlanFor board.now.opening plan.now }
    requires caller { CanCall board.now caller.old }
    ensures { Runs board.now plan.now caller.old caller.new }
{
    caller.reports = report_in_rounds(
        rt,
        alloc,
        board,
        &mut caller.pass,
        number,
        plan.rounds,
        plan.phi,
        &mut caller.cut,
        gate,
    );
}

/// What the callers bring back, in their order. The first error that a caller met is returned.
pub(crate) fn brought_back(alloc: Global, callers: Vec<Caller>) -> Result<Vec<Called>, AllocError>
    ensures { IfOk result (λ called. AllZip BringsBack callers.items called.items) }
{
    let mut called = Vec::new(alloc);
    for caller in callers {
        called.push(Called {
            pass: caller.pass,
            reports: caller.reports?,
        })?;
    }
    Ok(called)
}
