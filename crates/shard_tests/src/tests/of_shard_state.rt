//! Shards, snapshots and cuts.

ghost use Rattle.std.specs.Prelude.{◌≡◌, ◌^◌, ◌<◌, ◌≤◌, length, All, IfOk};
ghost use Rattle.prefix_lattice.specs.declared.grain.Grain.TheVariants.{Byte};
ghost use Rattle.shard_state.specs.{HasCoreShape, core_shape};

use super::stands_at;
use super::worked_records::{FIRST, SECOND, U, V, W, X, Y, Z, fold, key, list_of, started};
use hhh_report::Positions;
use prefix_lattice::{Grain, Node, Record, RecordList};
use shard_state::{Core, Cut, Event, Folded, ShardState, Snapshot};
use space_saving::{Flat, PlainTable, Summary};
use std::alloc::{AllocError, Global};
use std::test::Fail;

fn snapshot_of(alloc: Global, shard: &ShardState) -> Result<Snapshot, AllocError>
    requires { shard.now.base.shape ≡ record { grain = Byte; capacity = 4 } }
    ensures { IfOk result (λ snapshot. snapshot.shape ≡ record { grain = Byte; capacity = 4 }) }
{
    let mut snapshot = Snapshot::with_room(alloc, Grain::Byte, 4)?;
    shard.copy_into(&mut snapshot);
    Ok(snapshot)
}

// A shard with these packets that goes on from the snapshot of another shard.
fn resumed(alloc: Global, list: RecordList, shard: &ShardState) -> Result<ShardState, AllocError>
    requires shape { shard.now.base.shape ≡ record { grain = Byte; capacity = 4 } }
    requires list { list ≡ shard.now.list }
    ensures { IfOk result (λ again. again.base.shape ≡ record { grain = Byte; capacity = 4 }) }
{
    let _kept = shard.position();
    let mut base = Snapshot::with_room(alloc, Grain::Byte, 4)?;
    shard.copy_into(&mut base);
    ShardState::resume(alloc, list, base)
}

// The key, count and error of an entry.
type Counted = (u64, u64, u64);

// Whether these are the entries of the table where both addresses are kept whole.
fn has_entries(snapshot: &Snapshot, wanted: &[Counted]) -> bool {
    let units = 32 / snapshot.grain().bits();
    let Some(node) = Node::new(snapshot.grain(), units, units) else {
        return false;
    };
    has_entries_at(snapshot, node, wanted)
}

// Whether these are the entries of the table of a node.
fn has_entries_at(snapshot: &Snapshot, node: Node, wanted: &[Counted]) -> bool
    requires { node.grain ≡ snapshot.now.shape.grain }
{
    let table = snapshot.table(node);
    for place in 0..table.len() {
        if wanted.get(place) != Some(&entry_at(table, place)) {
            return false;
        }
    }
    table.len() == wanted.len()
}

fn entry_at(table: &Flat, place: usize) -> Counted
    requires { place < length table.now.entries }
{
    let entry = table.entry(place);
    (entry.key, entry.count, entry.error)
}

// Copies of the tables of a snapshot.
fn tables_of(alloc: Global, snapshot: &Snapshot) -> Result<Vec<Flat>, Fail> {
    let mut tables = Vec::new(alloc);
    for place in 0..snapshot.grain().nodes() {
        let node = Node::from_index(snapshot.grain(), place).ok_or("a node")?;
        tables.push(copy_of(alloc, snapshot.table(node))?)?;
    }
    Ok(tables)
}

fn copy_of(alloc: Global, flat: &Flat) -> Result<Flat, Fail> {
    let table = PlainTable::restore(alloc, flat)?;
    let mut copy = Flat::with_room(alloc, table.capacity())?;
    if copy.capacity() != table.capacity() {
        return Err("a copy of the same capacity".into());
    }
    table.copy_into(&mut copy);
    Ok(copy)
}

#[test]
fn folds_move_to_the_end(rt: HostRuntime) -> Result<(), Fail> {
    let wrong = first_wrong_move(rt.alloc(), &[(0, 2), (2, 3), (3, 3)])?;
    assert_eq!(rt; wrong, None);
    Ok(())
}

// The first move of a shard of three packets that isn't from and to these positions.
fn first_wrong_move(alloc: Global, moves: &[(u64, u64)]) -> Result<Option<usize>, AllocError> {
    let mut shard = started(alloc, &[X, Y, Z])?;
    Ok(first_not_made(&mut shard, moves))
}

fn first_not_made(shard: &mut ShardState, moves: &[(u64, u64)]) -> Option<usize> {
    for (place, (from, to)) in moves.iter().enumerate() {
        if !moves_on(shard, *from, *to) {
            return Some(place);
        }
    }
    None
}

fn moves_on(shard: &mut ShardState, from: u64, to: u64) -> bool {
    shard.fold_block(2) == Folded { from, to } && shard.position() == to && shard.length() == 3
}

// The snapshot, in tables of capacity 4, after all these packets.
fn end_of(alloc: Global, records: &[Record]) -> Result<Snapshot, AllocError>
    requires { length records.now ≤ 2 ^ 24 }
{
    let mut shard = started(alloc, records)?;
    fold(&mut shard, 9);
    snapshot_of(alloc, &shard)
}

// The same snapshot, from one shard that stopped at the third packet and another that went on.
fn resumed_end_of(alloc: Global, records: &[Record]) -> Result<Snapshot, AllocError>
    requires { length records.now ≤ 2 ^ 24 }
{
    let mut stopped = started(alloc, records)?;
    fold(&mut stopped, 3);
    let mut shard = resumed(alloc, list_of(alloc, records)?, &stopped)?;
    fold(&mut shard, 9);
    snapshot_of(alloc, &shard)
}

// Whether the shard that started with these packets counted each of them, so that these entries stand.
fn counts(alloc: Global, records: &[Record], wanted: &[Counted]) -> Result<bool, AllocError>
    requires { length records.now ≤ 2 ^ 24 }
{
    Ok(has_counted(&end_of(alloc, records)?, records.len() as u64, wanted))
}

fn has_counted(snapshot: &Snapshot, packets: u64, wanted: &[Counted]) -> bool {
    snapshot.position() == packets && snapshot.total() == packets && has_entries(snapshot, wanted)
}

// The same for a shard that stopped, and another that went on.
fn counts_resumed(alloc: Global, records: &[Record], wanted: &[Counted]) -> Result<bool, AllocError>
    requires { length records.now ≤ 2 ^ 24 }
{
    Ok(has_entries(&resumed_end_of(alloc, records)?, wanted))
}

#[test]
fn folds_count_the_worked_records(rt: HostRuntime) -> Result<(), Fail> {
    let want = [(key(U), 1, 0), (key(X), 5, 0)];
    assert!(rt; counts(rt.alloc(), &FIRST, &want)?);
    let want = [
        (key(Y), 1, 0),
        (key(Z), 1, 0),
        (key(W), 1, 0),
        (key(V), 2, 1),
    ];
    assert!(rt; counts(rt.alloc(), &SECOND, &want)?);
    assert!(rt; counts_resumed(rt.alloc(), &SECOND, &want)?);
    Ok(())
}

#[test]
fn tables_are_tested(rt: HostRuntime) -> Result<(), Fail> {
    let alloc = rt.alloc();
    assert!(rt; whole_is_taken(tables_at_end(alloc)?));
    assert!(rt; is_refused((1 << 24) + 1, tables_at_end(alloc)?));
    // The index and the capacity of an empty table that replaces one of the tables.
    assert_eq!(rt; first_taken(alloc, &[(7, 4), (24, 5)])?, None);
    assert!(rt; swapped_are_refused(tables_at_end(alloc)?));
    Ok(())
}

fn tables_at_end(alloc: Global) -> Result<Vec<Flat>, Fail> {
    let end = end_of(alloc, &SECOND)?;
    tables_of(alloc, &end)
}

fn whole_is_taken(tables: Vec<Flat>) -> bool {
    match Snapshot::from_tables(Grain::Byte, 1 << 24, tables) {
        Some(whole) => whole.position() == 1 << 24 && whole.total() == 5,
        None => false,
    }
}

fn is_refused(position: u64, tables: Vec<Flat>) -> bool {
    Snapshot::from_tables(Grain::Byte, position, tables).is_none()
}

fn first_taken(alloc: Global, cases: &[(usize, u32)]) -> Result<Option<usize>, Fail> {
    for (number, (place, capacity)) in cases.iter().enumerate() {
        let changed = with_empty_table(alloc, *place, *capacity)?;
        if !is_refused(5, changed) {
            return Ok(Some(number));
        }
    }
    Ok(None)
}

// The tables at the end, one of which is replaced by an empty one of this capacity.
fn with_empty_table(alloc: Global, place: usize, capacity: u32) -> Result<Vec<Flat>, Fail> {
    let mut tables = tables_at_end(alloc)?;
    if place >= tables.len() || !(2..=4096).contains(&capacity) {
        return Err("a table".into());
    }
    tables[place] = Flat::with_room(alloc, capacity)?;
    Ok(tables)
}

fn swapped_are_refused(mut tables: Vec<Flat>) -> bool {
    if tables.len() != 25 {
        return false;
    }
    tables.swap(0, 24);
    is_refused(5, tables)
}

// The grain, the number and the capacity of empty tables, and whether they are those of a snapshot.
type Emptied = (Grain, usize, u32, bool);

const EMPTIED: [Emptied; 6] = [
    (Grain::Byte, 25, 4096, true),
    (Grain::Byte, 81, 4, false),
    (Grain::Nibble, 81, 4, true),
    (Grain::Nibble, 25, 4, false),
    (Grain::Nibble, 81, 1024, true),
    (Grain::Nibble, 81, 1025, false),
];

#[test]
fn each_grain_has_its_tables(rt: HostRuntime) -> Result<(), Fail> {
    assert_eq!(rt; first_mistaken(rt.alloc(), &EMPTIED)?, None);
    assert!(rt;
        Grain::Byte.greatest_capacity() == 4096 && Grain::Nibble.greatest_capacity() == 1024
    );
    Ok(())
}

fn first_mistaken(alloc: Global, cases: &[Emptied]) -> Result<Option<usize>, Fail> {
    for (place, (grain, number, capacity, taken)) in cases.iter().enumerate() {
        let tables = empty_tables(alloc, *number, *capacity)?;
        if Snapshot::from_tables(*grain, 0, tables).is_some() != *taken {
            return Ok(Some(place));
        }
    }
    Ok(None)
}

fn empty_tables(alloc: Global, number: usize, capacity: u32) -> Result<Vec<Flat>, Fail> {
    if !(2..=4096).contains(&capacity) {
        return Err("a capacity".into());
    }
    let mut tables = Vec::new(alloc);
    for _table in 0..number {
        tables.push(Flat::with_room(alloc, capacity)?)?;
    }
    Ok(tables)
}

// A packet from 10.SECOND.0.1 to 20.0.0.1.
fn packet_from(second: u32) -> Record {
    Record {
        src: 0x0a00_0001 | (second & 0xff) << 16,
        dst: 0x1400_0001,
        weight: 1,
    }
}

// The tables of half bytes of two packets, from 10.16.0.1 and from 10.31.0.1.
fn halves_of_two(alloc: Global) -> Result<Snapshot, AllocError> {
    let list = list_of(alloc, &[packet_from(16), packet_from(31)])?;
    let mut shard = ShardState::start(alloc, Grain::Nibble, list, 4)?;
    fold(&mut shard, 9);
    let mut snapshot = Snapshot::with_room(alloc, Grain::Nibble, 4)?;
    shard.copy_into(&mut snapshot);
    Ok(snapshot)
}

// Whether this is the only entry of the node that keeps so many half bytes of the source, and the whole destination.
fn has_alone(snapshot: &Snapshot, source_halves: u8, entry: Counted) -> bool {
    match Node::new(snapshot.grain(), source_halves, 8) {
        Some(node) => has_entries_at(snapshot, node, &[entry]),
        None => false,
    }
}

#[test]
fn half_bytes_tell_networks_apart(rt: HostRuntime) -> Result<(), Fail> {
    let snapshot = halves_of_two(rt.alloc())?;
    assert!(rt; has_alone(&snapshot, 3, (0x0a10_0000_1400_0001, 2, 0)));
    assert!(rt; has_alone(&snapshot, 2, (0x0a00_0000_1400_0001, 2, 0)));
    assert!(rt;
        has_entries(
            &snapshot,
            &[(key(packet_from(16)), 1, 0), (key(packet_from(31)), 1, 0)]
        )
    );
    Ok(())
}

// A cut of three shards: the third has the first two packets, and the second has all.
fn cut_of_three(alloc: Global) -> Result<Cut, AllocError> {
    let mut cut = Cut::with_room(alloc, Grain::Byte, 3, 4)?;
    let mut shard = started(alloc, &FIRST)?;
    fold(&mut shard, 2);
    cut.put_shard(2, snapshot_of(alloc, &shard)?);
    fold(&mut shard, 9);
    cut.copy_shard(1, &shard);
    Ok(cut)
}

fn has_three_shards(alloc: Global) -> Result<bool, AllocError> {
    let cut = cut_of_three(alloc)?;
    Ok(
        has_three_positions(&cut.positions(alloc)?)
            && has_three_totals(&cut)
            && cut.into_shards().len() == 3,
    )
}

fn has_three_positions(positions: &Positions) -> bool {
    positions.as_slice() == [0, 6, 2].as_slice() && positions.len() == 3 && positions.at(1) == 6
}

fn has_three_totals(cut: &Cut) -> bool {
    cut.shards() == 3 && cut.shard(1).total() == 6 && cut.shard(2).total() == 2
}

#[test]
fn cuts_keep_a_snapshot_for_each_shard(rt: HostRuntime) -> Result<(), Fail> {
    assert!(rt; has_three_shards(rt.alloc())?);
    Ok(())
}

// A core of two shards, and one cut for it.
struct Machine {
    core: Core,
    cuts: Vec<Cut>,
}

fn core_with_cut(
    alloc: Global,
    first: ShardState,
    second: ShardState,
) -> Result<Machine, AllocError>
    requires first { first.base.shape ≡ record { grain = Byte; capacity = 4 } }
    requires second { second.base.shape ≡ record { grain = Byte; capacity = 4 } }
    ensures two { IfOk result (λ m. length m.core ≡ 2) }
    ensures one { IfOk result (λ m. length m.cuts.items ≡ 1) }
    ensures shapes { IfOk result (λ m. All (HasCoreShape (length m.core) (core_shape m.core)) m.cuts.items) }
{
    let mut states = Vec::new(alloc);
    states.push(first)?;
    states.push(second)?;
    let mut cuts = Vec::new(alloc);
    cuts.push(Cut::with_room(alloc, Grain::Byte, 2, 4)?)?;
    Ok(Machine {
        core: Core::new(states),
        cuts,
    })
}

// A run of events that reads the first shard at 4 and the second at 2.
fn run_worked_events(core: &mut Core, cuts: &mut Vec<Cut>)
    requires two { length core.old ≡ 2 }
    requires one { length cuts.old.items ≡ 1 }
    requires shapes { All (HasCoreShape (length core.old) (core_shape core.old)) cuts.old.items }
{
    let events = [
        Event::Fold { shard: 0, block: 4 },
        Event::Read {
            caller: 0,
            shard: 0,
        },
        Event::Fold { shard: 1, block: 2 },
    ];
    core.run_events(&events, cuts);
    let read = Event::Read {
        caller: 0,
        shard: 1,
    };
    core.step(read, cuts);
}

// The cut of the worked events.
fn cut_of_events(alloc: Global) -> Result<Cut, Fail> {
    let first = started(alloc, &FIRST)?;
    let second = started(alloc, &SECOND)?;
    let Machine { mut core, mut cuts } = core_with_cut(alloc, first, second)?;
    run_worked_events(&mut core, &mut cuts);
    Ok(cuts.pop().ok_or("a cut")?)
}

fn has_worked_reads(alloc: Global) -> Result<bool, Fail> {
    let cut = cut_of_events(alloc)?;
    Ok(has_two_totals(&cut) && stands_at(alloc, &cut, &[4, 2])?)
}

fn has_two_totals(cut: &Cut) -> bool {
    cut.shards() == 2 && cut.shard(0).total() == 4 && cut.shard(1).total() == 2
}

#[test]
fn runs_the_worked_events(rt: HostRuntime) -> Result<(), Fail> {
    assert!(rt; has_worked_reads(rt.alloc())?);
    Ok(())
}
