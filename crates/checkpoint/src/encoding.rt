//! Spells a cut as a body.

ghost use Rattle.std.specs.Prelude.{◌≡◌, ◌+◌, ◌*◌, ◌<◌, ◌≤◌, ◌^◌, ◌++◌, length, All, OnOk, IfOk};
ghost use Rattle.std.specs.List.{flat_map};
ghost use Rattle.prefix_lattice.specs.{shard_limit};
ghost use Rattle.shard_state.specs.{IsSnapshot};
ghost use Rattle.checkpoint.specs.Lengths.{body_span};
ghost use Rattle.checkpoint.specs.Body.{entry_bytes, table_bytes, snapshot_bytes, HasShortKeys};
ghost use Rattle.checkpoint.specs.Body.{KeysFit};
ghost use Rattle.checkpoint.specs.Body.{IsBody, greatest_sequence};

use crate::lengths::body_length;
use crate::numbers::{push_count, push_number};
use prefix_lattice::Node;
use shard_state::{Cut, Snapshot};
use space_saving::{Entry, Flat};
use std::alloc::{AllocError, Global};

/// The body of a cut of at most 16 shards, with its sequence, 1 to 2^62, and the digest of the dealt records. Its
/// memory is allocated once: as many bytes as the body has. The only error is that memory runs out.
pub fn encode(
    alloc: Global,
    sequence: u64,
    digest: &[u8; 32],
    cut: &Cut,
) -> Result<Vec<u8>, AllocError>
    requires sequenced { 1 ≤ sequence }
    requires early { sequence ≤ greatest_sequence }
    requires few { length cut.now.shards ≤ shard_limit }
    ensures body { IfOk result (λ body. IsBody (length cut.now.shards) cut.now.shape
        (record { sequence = sequence; digest = digest.now; cut = cut.now }) body.items) }
    ensures fits { IfOk result (λ body. length body.items ≤ body_span (length cut.now.shards) cut.now.shape) }
{
    let length = body_length(cut);
    let mut body = Vec::with_capacity(alloc, length)?;
    push_number(&mut body, length as u64)?;
    push_number(&mut body, sequence)?;
    body.extend_from_slice(digest)?;
    push_snapshots(&mut body, cut)?;
    Ok(body)
}

// Appends the snapshots of the shards, in order.
fn push_snapshots(out: &mut Vec<u8>, cut: &Cut) -> Result<(), AllocError>
    ensures spelled { OnOk result (out.new.items ≡ out.old.items ++ flat_map snapshot_bytes cut.now.shards) }
    ensures keys { OnOk result (All KeysFit cut.now.shards) }
{
    for shard in 0..cut.shards() {
        push_snapshot(out, cut.shard(shard))?;
    }
    Ok(())
}

// Appends the position and the tables of a shard.
fn push_snapshot(out: &mut Vec<u8>, snapshot: &Snapshot) -> Result<(), AllocError>
    ensures spelled { OnOk result (out.new.items ≡ out.old.items ++ snapshot_bytes snapshot.now) }
    ensures keys { OnOk result (KeysFit snapshot.now) }
{
    push_number(out, snapshot.position())?;
    push_tables(out, snapshot)
}

// Appends the tables of a shard, in the order of their nodes' indexes.
fn push_tables(out: &mut Vec<u8>, snapshot: &Snapshot) -> Result<(), AllocError>
    requires { IsSnapshot snapshot.now }
    ensures spelled { OnOk result (out.new.items ≡ out.old.items ++ flat_map table_bytes snapshot.now.tables) }
    ensures keys { OnOk result (KeysFit snapshot.now) }
{
    let grain = snapshot.grain();
    for index in 0..grain.nodes() {
        let node = Node::from_index(grain, index).unwrap();
        push_table(out, snapshot.table(node))?;
    }
    Ok(())
}

// Appends the total of a table, the number of its entries, and the entries.
fn push_table(out: &mut Vec<u8>, table: &Flat) -> Result<(), AllocError>
    ensures spelled { OnOk result (out.new.items ≡ out.old.items ++ table_bytes table.now.entries) }
    ensures keys { OnOk result (HasShortKeys table.now.entries) }
{
    let _capacity = table.capacity();
    push_number(out, table.total())?;
    push_count(out, table.len() as u32)?;
    push_entries(out, table)
}

// Appends the entries of a table, in the order of rising counts.
fn push_entries(out: &mut Vec<u8>, table: &Flat) -> Result<(), AllocError>
    ensures spelled { OnOk result (out.new.items ≡ out.old.items ++ flat_map entry_bytes table.now.entries) }
    ensures keys { OnOk result (HasShortKeys table.now.entries) }
{
    for place in 0..table.len() {
        push_entry(out, table.entry(place))?;
    }
    Ok(())
}

// Appends the key, the count and the error of an entry.
fn push_entry(out: &mut Vec<u8>, entry: Entry) -> Result<(), AllocError>
    ensures spelled { OnOk result (out.new.items ≡ out.old.items ++ entry_bytes entry) }
    ensures key { entry.key < 2 ^ 64 }
{
    push_number(out, entry.key)?;
    push_number(out, entry.count)?;
    push_number(out, entry.error)
}
