//! A board, and passes that fold and read its shards.

ghost use Rattle.std.specs.Prelude.{◌≡◌, ◌<◌, length};
ghost use Rattle.prefix_lattice.specs.declared.grain.Grain.TheVariants.{Byte};
ghost use Rattle.shard_state.specs.{HasCoreShape, core_shape};
ghost use Rattle.pass_tokens.specs.{IsPassOf};

use super::{board_of_one, stands_at, worked_board};
use pass_tokens::{Board, Pass, TryFold, TryRead};
use prefix_lattice::Grain;
use shard_state::{Cut, Folded};
use std::alloc::{AllocError, Global};
use std::sync::Wait;
use std::test::Fail;
use std::thread;
use std::thread::{Threads, join};

// Whether a cut that is read after a fold of four records has them.
fn reads_four(alloc: Global, board: &Board, mut pass: Pass) -> Result<bool, AllocError>
    requires shards { (length board.now.opening ≡ 2) × (core_shape board.now.opening ≡ record { grain = Byte; capacity = 4 }) }
    requires pass { IsPassOf board.now pass }
{
    let done = board.try_fold(0, 4, &mut pass) == TryFold::Done(Folded { from: 0, to: 4 });
    let mut cut = Cut::with_room(alloc, Grain::Byte, 2, 4)?;
    let read = board.try_read(0, &mut pass, &mut cut) == TryRead::Done;
    Ok(done && read && stands_at(alloc, &cut, &[4, 0])?)
}

fn reads_a_fold(alloc: Global) -> Result<bool, AllocError> {
    let (board, pass) = worked_board(alloc)?;
    reads_four(alloc, &board, pass)
}

#[test]
fn folds_and_reads_in_turn(rt: HostRuntime) -> Result<(), Fail> {
    assert!(rt; reads_a_fold(rt.alloc())?);
    Ok(())
}

// Whether a pass sees what another folded that then joined it.
fn joins_what_it_saw<R: Wait>(rt: &R, board: &Board, mut p: Pass) -> bool
    requires two { length board.now.opening ≡ 2 }
    requires pass { IsPassOf board.now p }
{
    let mut q = board.split(&mut p);
    let folded = board.fold(rt, 1, 8, &mut q) == Folded { from: 0, to: 5 };
    board.join(&mut p, q);
    folded && sees_the_second(board, p)
}

fn sees_the_second(board: &Board, mut pass: Pass) -> bool
    requires two { length board.now.opening ≡ 2 }
    requires pass { IsPassOf board.now pass }
{
    board.position(1, &mut pass) == 5 && board.position(0, &mut pass) == 0 && board.shards() == 2
}

fn joins_on_a_board<R: Wait>(rt: &R, alloc: Global) -> Result<bool, AllocError> {
    let (board, pass) = worked_board(alloc)?;
    Ok(joins_what_it_saw(rt, &board, pass))
}

#[test]
fn a_joined_pass_brings_what_it_saw(rt: HostRuntime) -> Result<(), Fail> {
    assert!(rt; joins_on_a_board(&rt, rt.alloc())?);
    Ok(())
}

// Whether a cut that is read at the start stands there.
fn reads_the_start<R: Wait>(
    rt: &R,
    alloc: Global,
    board: &Board,
    mut pass: Pass,
) -> Result<bool, AllocError>
    requires shards { (length board.now.opening ≡ 2) × (core_shape board.now.opening ≡ record { grain = Byte; capacity = 4 }) }
    requires pass { IsPassOf board.now pass }
{
    let mut cut = Cut::with_room(alloc, Grain::Byte, 2, 4)?;
    board.read_cut(rt, &mut pass, &mut cut);
    stands_at(alloc, &cut, &[0, 0])
}

fn reads_on_a_board<R: Wait>(rt: &R, alloc: Global) -> Result<bool, AllocError> {
    let (board, pass) = worked_board(alloc)?;
    reads_the_start(rt, alloc, &board, pass)
}

#[test]
fn reads_the_opening_cut(rt: HostRuntime) -> Result<(), Fail> {
    assert!(rt; reads_on_a_board(&rt, rt.alloc())?);
    Ok(())
}

// Folds the first shard record by record to its end. Each fold that was made.
fn folds_to_the_end<R: Wait>(
    rt: &R,
    alloc: Global,
    board: &Board,
    mut pass: Pass,
) -> Result<Vec<Folded>, AllocError>
    requires { (0 < length board.now.opening) × IsPassOf board.now pass }
{
    let mut folds = Vec::new(alloc);
    for _ in 0..1_000 {
        let done = board.fold(rt, 0, 1, &mut pass);
        if done.from == done.to {
            break;
        }
        folds.push(done)?;
        thread::yield_now();
    }
    Ok(folds)
}

// The folds of two threads.
fn folds_of_two<R: Threads + Wait + Sync>(
    rt: &R,
    alloc: Global,
    board: &Board,
    first: Pass,
    second: Pass,
) -> (
    Result<Vec<Folded>, AllocError>,
    Result<Vec<Folded>, AllocError>,
)
    requires { (0 < length board.now.opening) × IsPassOf board.now first × IsPassOf board.now second }
{
    join(
        rt,
        || folds_to_the_end(rt, alloc, board, first),
        || folds_to_the_end(rt, alloc, board, second),
    )
}

// Reads the first shard until its end was read. The positions that were read.
fn reads_to_the_end<R: Wait>(
    rt: &R,
    alloc: Global,
    board: &Board,
    mut pass: Pass,
    mut cut: Cut,
) -> Result<Vec<u64>, AllocError>
    requires { IsPassOf board.now pass × HasCoreShape (length board.now.opening) (core_shape board.now.opening) cut }
{
    let mut positions = Vec::new(alloc);
    for _ in 0..1_000_000 {
        board.read_cut(rt, &mut pass, &mut cut);
        let read = cut.positions(alloc)?;
        let Some(position) = read.as_slice().first() else {
            break;
        };
        positions.push(*position)?;
        if *position == 200 {
            break;
        }
        thread::yield_now();
    }
    Ok(positions)
}

// Two threads fold, while a third reads. Whether the folds and the reads went as they must.
fn fold_and_read<R: Threads + Wait + Sync>(
    rt: &R,
    alloc: Global,
    board: &Board,
    first: Pass,
    second: Pass,
    third: Pass,
    cut: Cut,
) -> Result<bool, AllocError>
    requires folding { (0 < length board.now.opening) × IsPassOf board.now first × IsPassOf board.now second }
    requires reading { IsPassOf board.now third × HasCoreShape (length board.now.opening) (core_shape board.now.opening) cut }
{
    let (folded, read) = join(
        rt,
        ||
            requires { (0 < length board.now.opening) × IsPassOf board.now first × IsPassOf board.now second }
        { both_fold(rt, alloc, board, first, second) },
        || reads_rise(rt, alloc, board, third, cut),
    );
    Ok(folded? && read?)
}

// Whether each record was folded once, by one of two threads.
fn both_fold<R: Threads + Wait + Sync>(
    rt: &R,
    alloc: Global,
    board: &Board,
    first: Pass,
    second: Pass,
) -> Result<bool, AllocError>
    requires { (0 < length board.now.opening) × IsPassOf board.now first × IsPassOf board.now second }
{
    let (one, two) = folds_of_two(rt, alloc, board, first, second);
    each_once(one?, two?)
}

fn each_once(mut folds: Vec<Folded>, more: Vec<Folded>) -> Result<bool, AllocError> {
    folds.extend_from_slice(&more)?;
    folds.sort_by_key(|done: &Folded| done.from)?;
    Ok(folds.len() == 200 && follow_one_another(&folds))
}

fn follow_one_another(folds: &[Folded]) -> bool {
    for (place, done) in folds.iter().enumerate() {
        if done.from != place as u64 || done.to != place as u64 + 1 {
            return false;
        }
    }
    true
}

// Whether the positions that were read never fall, and end at the last.
fn reads_rise<R: Wait>(
    rt: &R,
    alloc: Global,
    board: &Board,
    pass: Pass,
    cut: Cut,
) -> Result<bool, AllocError>
    requires { IsPassOf board.now pass × HasCoreShape (length board.now.opening) (core_shape board.now.opening) cut }
{
    let positions = reads_to_the_end(rt, alloc, board, pass, cut)?;
    Ok(never_fall(&positions) && positions.as_slice().last() == Some(&200))
}

fn never_fall(positions: &[u64]) -> bool {
    for pair in positions.windows(2) {
        if pair[0] > pair[1] {
            return false;
        }
    }
    true
}

fn three_threads_agree<R: Threads + Wait + Sync>(
    rt: &R,
    alloc: Global,
) -> Result<bool, AllocError> {
    let (board, mut first) = board_of_one(alloc, &[1; 200])?;
    let second = board.split(&mut first);
    let third = board.split(&mut first);
    let cut = Cut::with_room(alloc, Grain::Byte, 1, 4)?;
    fold_and_read(rt, alloc, &board, first, second, third, cut)
}

#[test]
fn two_threads_fold_while_a_third_reads(rt: HostRuntime) -> Result<(), Fail> {
    assert!(rt; three_threads_agree(&rt, rt.alloc())?);
    Ok(())
}
