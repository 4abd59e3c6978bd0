//! What a seat knows, as plain data. Only proofs use it: of these types a program makes only values of `Aim`.

use shard_state::{Folded, ShardState};
use std::collections::LinkedList;

/// What a seat takes a shard for.
#[derive(Clone, Copy, Debug, PartialEq, Eq)]
pub enum Aim {
    /// To count more of its records.
    Fold,
    /// To read its tables as they are.
    Read,
}

/// What a seat knows of a shard, and each step that it made there. Each list is in the order of the steps.
pub struct Trail {
    /// The position that was last seen.
    pub seen: u64,
    /// The positions that looks met.
    pub looks: LinkedList<u64>,
    /// The positions at which the shard was taken to read it.
    pub reads: LinkedList<u64>,
    /// The positions at which the shard was taken to fold it, and those at which it was given back.
    pub folds: LinkedList<Folded>,
    /// The odd words that were met where another seat held the shard.
    pub losses: LinkedList<u64>,
}

/// A shard that a seat holds.
pub struct Held {
    /// The index of the shard.
    pub shard: u32,
    /// The position at which it was taken.
    pub position: u64,
    /// What it was taken for.
    pub aim: Aim,
}

/// What a seat that was joined to another left there.
pub struct Joined {
    /// The splits that led from the first seat to it.
    pub lineage: LinkedList<u64>,
    /// What it knew of each shard, with its steps.
    pub trails: LinkedList<Trail>,
}

/// What a seat knows.
pub struct View {
    /// The shards as they were at the start, with their lists, bases and starting positions.
    pub opening: LinkedList<ShardState>,
    /// What it knows of each shard.
    pub trails: LinkedList<Trail>,
    /// The splits that lead from the first seat to this one: of each seat on the way, how many it had split off before.
    pub lineage: LinkedList<u64>,
    /// How many seats were split off.
    pub splits: u64,
    /// What the seats that were joined to it left, in the order of the joins.
    pub joins: LinkedList<Joined>,
    /// The shard that it holds, if any.
    pub held: Option<Held>,
    /// Whether it was joined to another, and knows nothing from then on.
    pub spent: bool,
}
