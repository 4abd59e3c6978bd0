//! How many bytes the parts of a body have.

ghost use Rattle.std.specs.Prelude.{◌≡◌, ◌+◌, ◌*◌, ◌≤◌, length};
ghost use Rattle.std.specs.List.{flat_map};
ghost use Rattle.prefix_lattice.specs.{finest_grain, shard_limit};
ghost use Rattle.shard_state.specs.{IsCut, IsSnapshot};
ghost use Rattle.space_saving.specs.{most_capacity};
ghost use Rattle.checkpoint.specs.Body.{table_bytes, snapshot_bytes};
ghost use Rattle.checkpoint.specs.Lengths.{front_span, snapshot_span, table_span};

use prefix_lattice::Node;
use shard_state::{Cut, Snapshot};
use space_saving::Flat;

/// How many bytes the body of a cut of at most 16 shards has.
pub(crate) fn body_length(cut: &Cut) -> usize
    requires { length cut.now.shards ≤ shard_limit }
    ensures is { result ≡ front_span + length (flat_map snapshot_bytes cut.now.shards) }
    ensures kept { IsCut cut.now }
{
    let mut length = 48;
    for shard in 0..cut.shards() {
        length += snapshot_length(cut.shard(shard));
    }
    length
}

fn snapshot_length(snapshot: &Snapshot) -> usize
    requires { IsSnapshot snapshot.now }
    ensures is { result ≡ length (snapshot_bytes snapshot.now) }
    ensures bounded { result ≤ snapshot_span (record { grain = finest_grain; capacity = most_capacity }) }
{
    let mut length = 8;
    let grain = snapshot.grain();
    for index in 0..grain.nodes() {
        let node = Node::from_index(grain, index).unwrap();
        length += table_length(snapshot.table(node));
    }
    length
}

fn table_length(table: &Flat) -> usize
    ensures is { result ≡ length (table_bytes table.now.entries) }
    ensures bounded { result ≤ table_span most_capacity }
{
    let _capacity = table.capacity();
    12 + 24 * table.len()
}
