//! Workers and callers at a gate.

ghost use Rattle.std.specs.Prelude.{◌≡◌, ◌<◌, ◌≤◌, length};
ghost use Rattle.prefix_lattice.specs.declared.grain.Grain.TheVariants.{Byte};
ghost use Rattle.shard_state.specs.{HasCoreShape, core_shape};
ghost use Rattle.pass_tokens.specs.{IsPassOf};

use super::{board_of_one, worked_board};
use gate_workers::{
    Called, Gate, Gathered, OpenGate, Rounds, ThreadPlan, call_reports, feed_all, run_threads,
};
use hhh_report::Reports;
use pass_tokens::{Board, Pass};
use prefix_lattice::Grain;
use shard_state::Cut;
use std::alloc::{AllocError, Global};
use std::marker::Sync;
use std::sync::Wait;
use std::sync::atomic::{AtomicU64, Ordering};
use std::test::Fail;
use std::thread;
use std::thread::{Threads, join};

// How often a thread looks before it gives up.
const TURNS: u32 = 10_000_000;

// The packets of one shard.
const EIGHT: [u8; 8] = [1, 2, 1, 3, 1, 2, 1, 4];

// A worker with blocks of one record.
fn feeds<R: Wait, G: Gate>(rt: &R, board: &Board, pass: Pass, worker: u32, gate: &G) -> Pass
    requires { IsPassOf board.now pass }
    ensures { IsPassOf board.now result }
{
    feed_all(rt, board, pass, worker, 1, gate)
}

// A caller of two rounds.
fn calls<R: Wait, G: Gate>(
    rt: &R,
    alloc: Global,
    board: &Board,
    pass: Pass,
    cut: Cut,
    gate: &G,
) -> Result<Reports, AllocError>
    requires pass { IsPassOf board.now pass }
    requires shape_of_board { core_shape board.now.opening ≡ record { grain = Byte; capacity = 4 } }
    requires shape { HasCoreShape (length board.now.opening) (core_shape board.now.opening) cut }
{
    let (_pass, reports) = call_reports(rt, alloc, board, pass, 0, 2, 500_000, cut, gate);
    reports
}

// Waits until a number is at least this, for a limited number of turns. Returns whether it was.
fn reaches(number: &AtomicU64, least: u64) -> bool {
    for _ in 0..TURNS {
        if number.load(Ordering::SeqCst) >= least {
            return true;
        }
        thread::yield_now();
    }
    false
}

// Holds each of two workers after its first fold until the other has folded too.
#[derive(Drop)]
struct Meeting {
    first: AtomicU64,
    second: AtomicU64,
    missed: AtomicU64,
}

impl Gate for Meeting {
    fn before_fold(&self, _worker: u32, _shard: u32) {}

    fn after_fold(&self, worker: u32, _shard: u32) {
        let (mine, other) = if worker == 0 {
            (&self.first, &self.second)
        } else {
            (&self.second, &self.first)
        };
        if mine.fetch_add(1, Ordering::SeqCst) == 0 && !reaches(other, 1) {
            self.missed.fetch_add(1, Ordering::SeqCst);
        }
    }

    fn before_read(&self, _caller: u32, _round: u32) {}

    fn after_read(&self, _caller: u32, _round: u32) {}
}

impl Meeting {
    fn new() -> Meeting {
        Meeting {
            first: AtomicU64::new(0),
            second: AtomicU64::new(0),
            missed: AtomicU64::new(0),
        }
    }

    fn missed(&self) -> u64 {
        self.missed.load(Ordering::SeqCst)
    }
}

// Two workers at once. Where the shards are that they fed.
fn feeds_of_two<R: Threads + Wait + Sync>(
    rt: &R,
    board: &Board,
    mut first: Pass,
    gate: &Meeting,
) -> (u64, u64)
    requires two { length board.now.opening ≡ 2 }
    requires pass { IsPassOf board.now first }
{
    let second = board.split(&mut first);
    let (first, _second) = join(
        rt,
        || feeds(rt, board, first, 0, gate),
        || feeds(rt, board, second, 1, gate),
    );
    ends_of_two(board, first)
}

fn ends_of_two(board: &Board, mut pass: Pass) -> (u64, u64)
    requires two { length board.now.opening ≡ 2 }
    requires pass { IsPassOf board.now pass }
{
    (board.position(0, &mut pass), board.position(1, &mut pass))
}

// How often a worker missed the other, and where the shards are.
fn meetings_of_two<R: Threads + Wait + Sync>(
    rt: &R,
    alloc: Global,
) -> Result<(u64, (u64, u64)), AllocError> {
    let gate = Meeting::new();
    let (board, pass) = worked_board(alloc)?;
    let ends = feeds_of_two(rt, &board, pass, &gate);
    Ok((gate.missed(), ends))
}

#[test]
fn two_workers_feed_at_once(rt: HostRuntime) -> Result<(), Fail> {
    let done = meetings_of_two(&rt, rt.alloc())?;
    assert!(rt; done == (0, (6, 5)));
    Ok(())
}

// Holds a caller's first read until two folds were made, and the third fold until that read was made.
#[derive(Drop)]
struct Turnstile {
    folds: AtomicU64,
    reads: AtomicU64,
    missed: AtomicU64,
}

impl Turnstile {
    fn new() -> Turnstile {
        Turnstile {
            folds: AtomicU64::new(0),
            reads: AtomicU64::new(0),
            missed: AtomicU64::new(0),
        }
    }

    fn missed(&self) -> u64 {
        self.missed.load(Ordering::SeqCst)
    }

    fn hold(&self, number: &AtomicU64, least: u64) {
        if !reaches(number, least) {
            self.missed.fetch_add(1, Ordering::SeqCst);
        }
    }
}

impl Gate for Turnstile {
    fn before_fold(&self, _worker: u32, _shard: u32) {
        if self.folds.load(Ordering::SeqCst) == 2 {
            self.hold(&self.reads, 1);
        }
    }

    fn after_fold(&self, _worker: u32, _shard: u32) {
        self.folds.fetch_add(1, Ordering::SeqCst);
    }

    fn before_read(&self, _caller: u32, round: u32) {
        if round == 0 {
            self.hold(&self.folds, 2);
        }
    }

    fn after_read(&self, _caller: u32, _round: u32) {
        self.reads.fetch_add(1, Ordering::SeqCst);
    }
}

// Whether a caller of two rounds read two records in the first of them.
fn calls_between<R: Wait, G: Gate>(
    rt: &R,
    alloc: Global,
    board: &Board,
    pass: Pass,
    cut: Cut,
    gate: &G,
) -> Result<bool, AllocError>
    requires pass { IsPassOf board.now pass }
    requires shape_of_board { core_shape board.now.opening ≡ record { grain = Byte; capacity = 4 } }
    requires shape { HasCoreShape (length board.now.opening) (core_shape board.now.opening) cut }
{
    let reports = calls(rt, alloc, board, pass, cut, gate)?;
    Ok(reports.len() == 2 && reads_two_first(&reports))
}

fn reads_two_first(reports: &Reports) -> bool {
    match reports.as_slice().first() {
        Some(one) => one.report.positions.as_slice() == [2].as_slice() && one.report.total == 2,
        None => false,
    }
}

// A worker and a caller of two rounds at once: where the worker ends, and whether the caller read between two folds.
fn feeds_beside_a_caller<R: Threads + Wait + Sync>(
    rt: &R,
    alloc: Global,
    board: &Board,
    mut first: Pass,
    gate: &Turnstile,
) -> Result<(u64, bool), AllocError>
    requires shards { (length board.now.opening ≡ 1) × (core_shape board.now.opening ≡ record { grain = Byte; capacity = 4 }) }
    requires pass { IsPassOf board.now first }
{
    let second = board.split(&mut first);
    let cut = Cut::with_room(alloc, Grain::Byte, 1, 4)?;
    let (mut first, between) = join(
        rt,
        || feeds(rt, board, first, 0, gate),
        || calls_between(rt, alloc, board, second, cut, gate),
    );
    Ok((board.position(0, &mut first), between?))
}

// How often the worker and the caller missed each other, and what they did.
fn turns_of_both<R: Threads + Wait + Sync>(
    rt: &R,
    alloc: Global,
) -> Result<(u64, (u64, bool)), AllocError> {
    let gate = Turnstile::new();
    let (board, pass) = board_of_one(alloc, &EIGHT)?;
    let done = feeds_beside_a_caller(rt, alloc, &board, pass, &gate)?;
    Ok((gate.missed(), done))
}

#[test]
fn a_caller_reads_between_two_folds(rt: HostRuntime) -> Result<(), Fail> {
    let done = turns_of_both(&rt, rt.alloc())?;
    assert!(rt; done == (0, (8, true)));
    Ok(())
}

// Whether a caller that follows a worker reports on all records.
fn calls_after<R: Wait>(
    rt: &R,
    alloc: Global,
    board: &Board,
    mut pass: Pass,
) -> Result<bool, AllocError>
    requires shards { (length board.now.opening ≡ 2) × (core_shape board.now.opening ≡ record { grain = Byte; capacity = 4 }) }
    requires pass { IsPassOf board.now pass }
{
    let other = board.split(&mut pass);
    let _fed = feeds(rt, board, pass, 1, &OpenGate);
    let cut = Cut::with_room(alloc, Grain::Byte, 2, 4)?;
    Ok(reads_all_last(&calls(rt, alloc, board, other, cut, &OpenGate)?))
}

fn reads_all_last(reports: &Reports) -> bool {
    match reports.as_slice().last() {
        Some(last) => {
            last.report.total == 11 && last.report.threshold == 6 && last.report.lines.len() == 2
        }
        None => false,
    }
}

fn passes_an_open_gate<R: Wait>(rt: &R, alloc: Global) -> Result<bool, AllocError> {
    let (board, pass) = worked_board(alloc)?;
    calls_after(rt, alloc, &board, pass)
}

#[test]
fn nobody_waits_at_an_open_gate(rt: HostRuntime) -> Result<(), Fail> {
    assert!(rt; passes_an_open_gate(&rt, rt.alloc())?);
    Ok(())
}

// Rounds of the calling thread that read the board, and count how often they were made.
#[derive(Drop)]
struct Watching {
    cut: Cut,
    rounds: u32,
    made: u32,
}

impl Rounds for Watching {
    ghost use Rattle.std.specs.Prelude.{length, refl};
    ghost use Rattle.shard_state.specs.{HasCoreShape, core_shape};

    ghost ready = { λ r board view. HasCoreShape (length board.opening) (core_shape board.opening) r.cut };

    ghost stays = { λ rounds board before now later ready. ready };

    ghost does = { λ rounds before later now. Unit {0} };

    fn go<R: Wait>(&mut self, rt: &R, _alloc: Global, board: &Board, pass: &mut Pass) {
        self.made = self.made.wrapping_add(1);
        for _round in 0..self.rounds {
            board.read_cut(rt, pass, &mut self.cut);
        }
    }
}

fn plan(workers: u32, callers: u32) -> ThreadPlan
    ensures { result ≡ record { grain = Byte; workers = workers; callers = callers; rounds = 2; block = 1; phi = 500000; capacity = 4 } }
{
    ThreadPlan {
        grain: Grain::Byte,
        workers,
        callers,
        rounds: 2,
        block: 1,
        phi: 500_000,
        capacity: 4,
    }
}

// What `run_threads` brings back, and how often the calling thread made its rounds.
fn gathered<R: Threads + Wait + Sync, G: Gate + Sync>(
    rt: &R,
    alloc: Global,
    board: &Board,
    pass: Pass,
    cut: Cut,
    plan: &ThreadPlan,
    gate: &G,
) -> Result<(u32, Gathered), AllocError>
    requires pass { IsPassOf board.now pass }
    requires shape_of_board { core_shape board.now.opening ≡ record { grain = Byte; capacity = 4 } }
    requires shape { HasCoreShape (length board.now.opening) (core_shape board.now.opening) cut }
    requires plan { (1 ≤ plan.now.workers) × (plan.now.block ≡ 1) × (plan.now.phi ≡ 500000) × (plan.now.grain ≡ Byte) × (plan.now.capacity ≡ 4) }
{
    let mut work = Watching {
        cut,
        rounds: 3,
        made: 0,
    };
    let gathered = run_threads(rt, alloc, board, pass, plan, gate, &mut work)?;
    Ok((work.made, gathered))
}

// How often the calling thread made its rounds, how many callers there were, and whether each reported twice.
type Done = (u32, usize, bool);

fn done_with<R: Threads + Wait + Sync, G: Gate + Sync>(
    rt: &R,
    alloc: Global,
    board: &Board,
    pass: Pass,
    plan: &ThreadPlan,
    gate: &G,
) -> Result<Done, AllocError>
    requires pass { IsPassOf board.now pass }
    requires shards { (length board.now.opening ≡ 2) × (core_shape board.now.opening ≡ record { grain = Byte; capacity = 4 }) }
    requires plan { (1 ≤ plan.now.workers) × (plan.now.block ≡ 1) × (plan.now.phi ≡ 500000) × (plan.now.grain ≡ Byte) × (plan.now.capacity ≡ 4) }
{
    let cut = Cut::with_room(alloc, Grain::Byte, 2, 4)?;
    let (made, gathered) = gathered(rt, alloc, board, pass, cut, plan, gate)?;
    Ok((
        made,
        gathered.called.len(),
        all_report_twice(&gathered.called),
    ))
}

fn done_on_a_board<R: Threads + Wait + Sync, G: Gate + Sync>(
    rt: &R,
    alloc: Global,
    plan: &ThreadPlan,
    gate: &G,
) -> Result<Done, AllocError>
    requires { (1 ≤ plan.now.workers) × (plan.now.block ≡ 1) × (plan.now.phi ≡ 500000) × (plan.now.grain ≡ Byte) × (plan.now.capacity ≡ 4) }
{
    let (board, pass) = worked_board(alloc)?;
    done_with(rt, alloc, &board, pass, plan, gate)
}

fn all_report_twice(callers: &[Called]) -> bool {
    for called in callers {
        if called.reports.len() != 2 {
            return false;
        }
    }
    true
}

#[test]
fn two_workers_of_a_plan_feed_at_once(rt: HostRuntime) -> Result<(), Fail> {
    let gate = Meeting::new();
    let (_made, callers, _twice) = done_on_a_board(&rt, rt.alloc(), &plan(2, 0), &gate)?;
    assert!(rt; gate.missed() == 0 && callers == 0);
    Ok(())
}

// Whether the caller of a plan read two records of eight in its first round.
fn caller_reads_between<R: Threads + Wait + Sync>(
    rt: &R,
    alloc: Global,
    board: &Board,
    pass: Pass,
    gate: &Turnstile,
) -> Result<bool, AllocError>
    requires pass { IsPassOf board.now pass }
    requires shards { (length board.now.opening ≡ 1) × (core_shape board.now.opening ≡ record { grain = Byte; capacity = 4 }) }
{
    let cut = Cut::with_room(alloc, Grain::Byte, 1, 4)?;
    let (_made, gathered) = gathered(rt, alloc, board, pass, cut, &plan(1, 1), gate)?;
    Ok(first_reads_two(&gathered.called))
}

fn first_reads_two(callers: &[Called]) -> bool {
    match callers.first() {
        Some(called) => reads_two_first(&called.reports),
        None => false,
    }
}

// How often the worker and the caller of a plan missed each other, and whether the caller read between two folds.
fn turns_of_a_plan<R: Threads + Wait + Sync>(
    rt: &R,
    alloc: Global,
) -> Result<(u64, bool), AllocError> {
    let gate = Turnstile::new();
    let (board, pass) = board_of_one(alloc, &EIGHT)?;
    let between = caller_reads_between(rt, alloc, &board, pass, &gate)?;
    Ok((gate.missed(), between))
}

#[test]
fn a_caller_of_a_plan_reads_between_two_folds(rt: HostRuntime) -> Result<(), Fail> {
    let done = turns_of_a_plan(&rt, rt.alloc())?;
    assert!(rt; done == (0, true));
    Ok(())
}

#[test]
fn all_threads_bring_back_what_they_did(rt: HostRuntime) -> Result<(), Fail> {
    let done = done_on_a_board(&rt, rt.alloc(), &plan(2, 3), &OpenGate)?;
    assert!(rt; done == (1, 3, true));
    Ok(())
}

// The most blocks of the address space that are taken, and the greatest and the least of them in bytes. A stack takes
// more than the least.
const MOST_BLOCKS: usize = 65_536;

const GREATEST_BLOCK: usize = 1 << 34;

const LEAST_BLOCK: usize = 1 << 20;

// Takes enough of the address space that no stack of a thread fits into the rest. None of it is touched.
fn take_address_space(alloc: Global) -> Result<Vec<Vec<u8>>, AllocError> {
    let mut taken = Vec::with_capacity(alloc, MOST_BLOCKS)?;
    let mut size = GREATEST_BLOCK;
    for _ in 0..MOST_BLOCKS {
        match Vec::with_capacity(alloc, size) {
            Ok(block) => taken.push(block)?,
            Err(_) if size > LEAST_BLOCK => size /= 2,
            Err(_) => break,
        }
    }
    Ok(taken)
}

fn no_thread_starts<R: Threads>(rt: &R) -> bool {
    thread::spawn(rt, || {}).is_err()
}

// Whether no thread started, and what was done all the same.
fn done_without_threads<R: Threads + Wait + Sync>(
    rt: &R,
    alloc: Global,
) -> Result<(bool, Done), AllocError> {
    let (board, pass) = worked_board(alloc)?;
    let taken = take_address_space(alloc)?;
    let none = no_thread_starts(rt);
    let done = done_with(rt, alloc, &board, pass, &plan(2, 3), &OpenGate);
    drop(taken);
    Ok((none, done?))
}

#[test]
fn all_work_is_done_where_no_thread_starts(rt: HostRuntime) -> Result<(), Fail> {
    let done = done_without_threads(&rt, rt.alloc())?;
    assert!(rt; done == (true, (1, 3, true)));
    Ok(())
}
