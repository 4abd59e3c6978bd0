//! Shards that are taken and given back by words.

ghost use Rattle.std.specs.Prelude.{◌≡◌, ◌<◌, ◌≤◌, length, None};
ghost use Rattle.position_words.specs.{IsSeatOf, view};

use super::worked_states;
use position_words::{Aim, Seat, Take, Words};
use shard_state::Folded;
use std::alloc::{AllocError, Global};
use std::marker::Sync;
use std::sync::Wait;
use std::test::Fail;
use std::thread;
use std::thread::{Threads, join};

// Takes a shard, counts a block of it and gives it back, unless another seat holds it.
fn fold(words: &Words, shard: u32, block: u32, seat: &mut Seat) -> Option<Folded>
    requires block { 1 ≤ block }
    requires within { shard < length words.now.opening }
    requires seat { IsSeatOf words.now seat.old }
    requires free { (view seat.old).held ≡ None }
    ensures seat { IsSeatOf words.now seat.new }
    ensures free { (view seat.new).held ≡ None }
{
    match words.try_take(shard, Aim::Fold, seat) {
        Take::Busy => None,
        Take::Taken(mut state) => {
            let folded = state.fold_block(block);
            words.give(shard, seat, state);
            Some(folded)
        }
    }
}

// The position at which a shard was taken to read it, unless another seat holds it.
fn read(words: &Words, shard: u32, seat: &mut Seat) -> Option<u64>
    requires within { shard < length words.now.opening }
    requires seat { IsSeatOf words.now seat.old }
    requires free { (view seat.old).held ≡ None }
    ensures seat { IsSeatOf words.now seat.new }
    ensures free { (view seat.new).held ≡ None }
{
    match words.try_take(shard, Aim::Read, seat) {
        Take::Busy => None,
        Take::Taken(state) => {
            let position = state.position();
            words.give(shard, seat, state);
            Some(position)
        }
    }
}

// Takes the first shard to fold four records of it, and looks at it from another seat while it is held. The position at
// which it was taken, the one that the other seat saw, and whether that seat found it busy.
fn held_and_looked_at(words: &Words, a: &mut Seat, b: &mut Seat) -> Option<(u64, u64, bool)>
    requires within { 0 < length words.now.opening }
    requires seat { IsSeatOf words.now a.old }
    requires free { (view a.old).held ≡ None }
    requires other { IsSeatOf words.now b.old }
    requires other_free { (view b.old).held ≡ None }
    ensures seat { IsSeatOf words.now a.new }
    ensures free { (view a.new).held ≡ None }
    ensures other { IsSeatOf words.now b.new }
    ensures other_free { (view b.new).held ≡ None }
{
    match words.try_take(0, Aim::Fold, a) {
        Take::Busy => None,
        Take::Taken(mut state) => {
            let taken = state.position();
            let looked = look(words, 0, b);
            let busy = read(words, 0, b).is_none();
            state.fold_block(4);
            words.give(0, a, state);
            Some((taken, looked, busy))
        }
    }
}

// A look with a short contract.
fn look(words: &Words, shard: u32, seat: &mut Seat) -> u64
    requires within { shard < length words.now.opening }
    requires seat { IsSeatOf words.now seat.old }
    requires free { (view seat.old).held ≡ None }
    ensures seat { IsSeatOf words.now seat.new }
    ensures free { (view seat.new).held ≡ None }
{
    words.look(shard, seat)
}

// Whether each seat sees what the other folded and gave back.
fn sees_what_was_given(words: &Words, mut a: Seat, mut b: Seat) -> bool
    requires two { length words.now.opening ≡ 2 }
    requires seat { IsSeatOf words.now a }
    requires free { (view a).held ≡ None }
    requires other { IsSeatOf words.now b }
    requires other_free { (view b).held ≡ None }
{
    let read_at_four = read(words, 0, &mut b) == Some(4);
    let folded_on = fold(words, 0, 4, &mut a) == Some(Folded { from: 4, to: 6 });
    let looked_at_six = look(words, 0, &mut b) == 6;
    read_at_four && folded_on && looked_at_six && holds_nothing(words) && sees_all(words, a, b)
}

fn holds_nothing(words: &Words) -> bool
    requires { length words.now.opening ≡ 2 }
{
    words.shared().peek(0) == 12 && words.shared().peek(1) == 0
}

// Whether one seat sees all positions once the other has joined it.
fn sees_all(words: &Words, mut a: Seat, b: Seat) -> bool
    requires two { length words.now.opening ≡ 2 }
    requires seat { IsSeatOf words.now a }
    requires free { (view a).held ≡ None }
    requires other { IsSeatOf words.now b }
    requires other_free { (view b).held ≡ None }
{
    words.join(&mut a, b);
    words.look(0, &mut a) == 6 && words.look(1, &mut a) == 0 && words.shards() == 2
}

// What two seats see of the worked shards: one while the other holds the first shard, and both after that.
fn two_seats_see(alloc: Global) -> Result<(Option<(u64, u64, bool)>, bool), AllocError> {
    let (words, mut a) = Words::start(alloc, worked_states(alloc)?)?;
    let mut b = words.split(&mut a);
    let held = held_and_looked_at(&words, &mut a, &mut b);
    Ok((held, sees_what_was_given(&words, a, b)))
}

#[test]
fn one_seat_holds_and_another_looks(rt: HostRuntime) -> Result<(), Fail> {
    let (held, given) = two_seats_see(rt.alloc())?;
    assert!(rt; held == Some((0, 0, true)));
    assert!(rt; given);
    Ok(())
}

// Folds the first shard record by record, in at most `turns` turns. Returns how many records were counted.
fn folds_in_turns(words: &Words, mut seat: Seat, turns: u32) -> u64
    requires within { 0 < length words.now.opening }
    requires seat { IsSeatOf words.now seat }
    requires free { (view seat).held ≡ None }
{
    let mut counted: u64 = 0;
    for _ in 0..turns {
        match fold(words, 0, 1, &mut seat) {
            Some(folded) if folded.from == folded.to => break,
            Some(_) => counted = counted.saturating_add(1),
            None => thread::yield_now(),
        }
    }
    counted
}

// How many records two threads counted together.
fn counted_by_two<R: Threads + Wait + Sync>(rt: &R, words: &Words, mut a: Seat) -> Option<u64>
    requires within { 0 < length words.now.opening }
    requires seat { IsSeatOf words.now a }
    requires free { (view a).held ≡ None }
{
    let b = words.split(&mut a);
    let (first, second) = join(
        rt,
        || -> u64 { folds_in_turns(words, a, 1_000_000) },
        || -> u64 { folds_in_turns(words, b, 1_000_000) },
    );
    first.checked_add(second)
}

fn counted_at_once<R: Threads + Wait + Sync>(
    rt: &R,
    alloc: Global,
) -> Result<Option<u64>, AllocError> {
    let (words, seat) = Words::start(alloc, worked_states(alloc)?)?;
    Ok(counted_by_two(rt, &words, seat))
}

#[test]
fn two_threads_count_each_record_once(rt: HostRuntime) -> Result<(), Fail> {
    let counted = counted_at_once(&rt, rt.alloc())?;
    assert_eq!(rt; counted, Some(6));
    Ok(())
}
