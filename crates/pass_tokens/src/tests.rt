use super::*;
use position_words::{Aim, Take};
use prefix_lattice::{Grain, Record, RecordList};
use shard_state::{Cut, Folded, ShardState};
use std::test::Fail;

// Only inside the crate can a pass hold a shard between two calls.
#[test]
fn a_held_shard_is_busy(rt: HostRuntime) -> Result<(), Fail> {
    let alloc = rt.alloc();
    let mut list = RecordList::new(alloc);
    list.push(Record::new(1, 2, 3).ok_or("a weight of 0")?)?;
    assert!(rt; list.len() <= 1);
    let mut states = Vec::new(alloc);
    states.push(ShardState::start(alloc, Grain::Byte, list, 4)?)?;
    let (board, mut pass) = Board::start(alloc, states)?;
    let mut cut = Cut::with_room(alloc, Grain::Byte, 1, 4)?;
    assert_eq!(rt;
        board.try_fold(0, 4, &mut pass),
        TryFold::Done(Folded { from: 0, to: 1 })
    );
    let mut other = board.split(&mut pass);
    let Take::Taken(state) = board.words.try_take(0, Aim::Fold, &mut other) else {
        return Err("no pass holds the shard".into());
    };
    assert_eq!(rt; board.try_fold(0, 4, &mut pass), TryFold::Busy);
    assert_eq!(rt; board.try_read(0, &mut pass, &mut cut), TryRead::Busy);
    assert_eq!(rt; board.position(0, &mut pass), 1);
    board.words.give(0, &mut other, state);
    Ok(())
}
