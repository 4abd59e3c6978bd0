//! The tables of a cut, merged.

ghost use Rattle.std.specs.Prelude.{◌≡◌, ◌^◌, ◌≤◌, length, IfOk};
ghost use Rattle.prefix_lattice.specs.declared.grain.Grain.TheVariants.{Byte};

use super::worked_records::{FIRST, SECOND, U, V, W, X, Y, Z, fold, key, started};
use cut_merge::Merged;
use prefix_lattice::{Grain, Node, Prefix, Record};
use shard_state::{Cut, ShardState};
use std::alloc::{AllocError, Global};
use std::test::Fail;

// The state of a shard with these packets, all counted in tables of capacity 4.
fn folded(alloc: Global, records: &[Record]) -> Result<ShardState, AllocError>
    requires { length records.now ≤ 2 ^ 24 }
    ensures { IfOk result (λ shard. shard.base.shape ≡ record { grain = Byte; capacity = 4 }) }
{
    let mut shard = started(alloc, records)?;
    fold(&mut shard, 16);
    Ok(shard)
}

// The cut of both shards at their ends.
fn cut_of_both(alloc: Global) -> Result<Cut, AllocError> {
    let first = folded(alloc, &FIRST)?;
    let second = folded(alloc, &SECOND)?;
    let mut cut = Cut::with_room(alloc, Grain::Byte, 2, 4)?;
    cut.copy_shard(0, &first);
    cut.copy_shard(1, &second);
    Ok(cut)
}

// The tables of both shards, merged.
fn merged(alloc: Global) -> Result<Merged, Fail> {
    let cut = cut_of_both(alloc)?;
    if cut.shards() > 16 {
        return Err("at most 16 shards".into());
    }
    Ok(Merged::of(alloc, &cut)?)
}

// The source and the destination of a prefix, and its interval.
type Weighed = (&'static str, &'static str, (u64, u64));

// The first table has the entries U 1 and X 5, and room for two more; the second has Y 1, Z 1, W 1, and V 2 with an
// error of 1, since V replaced X.
const WEIGHED: [Weighed; 8] = [
    // X, missing in the full table
    ("1.0.0.1/32", "101.0.0.1/32", (5, 6)),
    // Y, missing where room is left
    ("3.0.0.1/32", "103.0.0.1/32", (1, 1)),
    // U, missing in the full table
    ("2.0.0.1/32", "102.0.0.1/32", (1, 2)),
    // V, with an error
    ("6.0.0.1/32", "106.0.0.1/32", (1, 2)),
    // one that no shard monitors
    ("9.0.0.1/32", "109.0.0.1/32", (0, 1)),
    // X's source
    ("1.0.0.0/8", "0.0.0.0/0", (5, 6)),
    // another network
    ("9.0.0.0/8", "0.0.0.0/0", (0, 1)),
    // all packets
    ("0.0.0.0/0", "0.0.0.0/0", (11, 11)),
];

fn first_wrong(alloc: Global, cases: &[Weighed]) -> Result<Option<usize>, Fail> {
    let merged = merged(alloc)?;
    first_wrong_in(&merged, cases)
}

fn first_wrong_in(merged: &Merged, cases: &[Weighed]) -> Result<Option<usize>, Fail> {
    for (place, (source, dest, want)) in cases.iter().enumerate() {
        if interval_of(merged, source, dest)? != *want {
            return Ok(Some(place));
        }
    }
    Ok(None)
}

fn interval_of(merged: &Merged, source: &str, dest: &str) -> Result<(u64, u64), Fail> {
    let prefix = Prefix::parse(merged.grain(), source.as_bytes(), dest.as_bytes())?;
    if !prefix.of_grain(merged.grain()) {
        return Err("a prefix of the grain".into());
    }
    Ok(merged.interval(&prefix))
}

fn merged_limits(alloc: Global) -> Result<(u64, u32), Fail> {
    let merged = merged(alloc)?;
    Ok((merged.total(), merged.capacity()))
}

#[test]
fn merged_intervals_add_up_over_shards(rt: HostRuntime) -> Result<(), Fail> {
    assert_eq!(rt; first_wrong(rt.alloc(), &WEIGHED)?, None);
    assert!(rt; merged_limits(rt.alloc())? == (11, 4));
    Ok(())
}

// Whether these are the candidates of the node that keeps so many bytes of each address.
fn has_candidates(merged: &Merged, bytes: u8, keys: &[u64]) -> bool {
    match Node::new(merged.grain(), bytes, bytes) {
        Some(node) => merged.candidates(node) == keys,
        None => false,
    }
}

#[test]
fn candidates_stand_in_first_seen_order(rt: HostRuntime) -> Result<(), Fail> {
    let merged = merged(rt.alloc())?;
    let keys = [key(U), key(X), key(Y), key(Z), key(W), key(V)];
    assert!(rt; has_candidates(&merged, 4, &keys));
    assert!(rt; has_candidates(&merged, 0, &[0]));
    Ok(())
}
