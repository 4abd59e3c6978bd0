//! Checks that tables from outside are those of a snapshot, and makes empty tables.

ghost use Rattle.std.specs.Prelude.{◌≡◌, ◌<◌, ◌≤◌, ◌↔◌, ℕ, [], length, slice_get, Some, IfOk, IsTrue};
ghost use Rattle.std.proofs.Math.ListN.{replicate};
ghost use Rattle.prefix_lattice.specs.{node_at, node_count};
ghost use Rattle.shard_state.specs.Snapshot.{IsLikeTable, AreTablesOf, HasKeys};
ghost use Rattle.space_saving.specs.{TableValue, AreTableEntries, least_capacity, most_capacity};

use prefix_lattice::{Grain, Node, Prefix};
use space_saving::Flat;
use std::alloc::{AllocError, Global};

/// One empty table for each node of a grain.
pub(crate) fn empty_tables(
    alloc: Global,
    grain: Grain,
    capacity: u32,
) -> Result<Vec<Flat>, AllocError>
    requires least { least_capacity ≤ capacity }
    requires most { capacity ≤ most_capacity }
    ensures { IfOk result (λ tables. tables.items ≡ replicate (node_count grain) (record { capacity = capacity; entries = [] })) }
{
    let mut tables = Vec::with_capacity(alloc, usize::from(grain.nodes()))?;
    for _place in 0..grain.nodes() {
        tables.push(Flat::with_room(alloc, capacity)?)?;
    }
    Ok(tables)
}

/// Whether there is one table for each node of the grain, all of one capacity that the grain allows and one total, each
/// with keys of the node at its index.
pub(crate) fn are_tables(grain: Grain, tables: &[Flat]) -> bool
    ensures tables { IsTrue result ↔ AreTablesOf grain tables.now }
    ensures kept { IsTrue result → (place : ℕ) (table : TableValue) → slice_get tables.now place ≡ Some table → AreTableEntries table.capacity table.entries }
{
    if tables.len() != usize::from(grain.nodes()) {
        return false;
    }
    let first = &tables[0];
    let (capacity, total) = (first.capacity(), first.total());
    if capacity > grain.greatest_capacity() {
        return false;
    }
    for place in 0..grain.nodes() {
        if !is_like(grain, capacity, total, place, &tables[usize::from(place)]) {
            return false;
        }
    }
    true
}

fn is_like(grain: Grain, capacity: u32, total: u64, place: u8, table: &Flat) -> bool
    requires { place < node_count grain }
    ensures like { IsTrue result ↔ IsLikeTable capacity total (node_at grain place) table.now }
    ensures kept { AreTableEntries table.now.capacity table.now.entries }
{
    let node = Node::from_index(grain, place).unwrap();
    let counted = table.total();
    counted == total && table.capacity() == capacity && has_keys_of(node, table)
}

// Whether each key of the table is one of the node.
fn has_keys_of(node: Node, table: &Flat) -> bool
    ensures { IsTrue result ↔ HasKeys node table.now.entries }
{
    for place in 0..table.len() {
        if Prefix::from_key(table.entry(place).key, node).is_none() {
            return false;
        }
    }
    true
}
