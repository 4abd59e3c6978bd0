//! Reads a cut from a body.

ghost use Rattle.std.specs.Prelude.{◌≡◌, ℕ, ◌+◌, ◌*◌, ◌<◌, ◌≤◌, ◌^◌, ◌++◌, List, [], length, map, All, IfOk};
ghost use Rattle.std.specs.Prelude.{IsErrOf, vec_capacity};
ghost use Rattle.std.specs.List.{flat_map};
ghost use Rattle.space_saving.specs.declared.entry.Entry.{Entry};
ghost use Rattle.prefix_lattice.specs.{node_count};
ghost use Rattle.shard_state.specs.{IsCut, SnapshotValue, least_capacity, most_capacity, most_grain_capacity};
ghost use Rattle.checkpoint.specs.Header.{AreSettings, settings_shape};
ghost use Rattle.checkpoint.specs.Saved.{SavedValue, saved_value};
ghost use Rattle.checkpoint.specs.Body.{IsBody, entry_bytes, table_bytes, snapshot_bytes};
ghost use Rattle.checkpoint.specs.Lengths.{entry_span};
ghost use Rattle.checkpoint.specs.Decoding.{ListFits, BeginsWith, BeginsWithNone};
ghost use Rattle.checkpoint.specs.Decoding.{EntryFits, SnapshotFits, TableFits};

use crate::numbers::{first_count, first_digest, first_number};
use crate::{DecodeFault, Saved, StoreSettings};
use prefix_lattice::Grain;
use shard_state::{Cut, Snapshot};
use space_saving::{Entry, Flat};
use std::alloc::Global;

/// The last sequence.
const LAST_SEQUENCE: u64 = 1 << 62;

/// What a body spells under these settings. `Damaged` is returned exactly if the bytes are no body: if they aren't as
/// many as their length says, the sequence isn't from 1 to 2^62, a position is above 16,777,216, a table isn't one of
/// the capacity, its total isn't the sum of its counts or that of another table of its shard, a key has a bit set that
/// its node doesn't keep, or bytes are missing or follow.
///
/// Whatever the bytes say, memory is allocated for the tables of one cut and of one shard under the settings.
pub fn decode(alloc: Global, bytes: &[u8], settings: &StoreSettings) -> Result<Saved, DecodeFault>
    requires { AreSettings settings.now }
    ensures body { IfOk result (λ saved. IsBody settings.now.shards (settings_shape settings.now)
        (saved_value saved) bytes.now) }
    ensures damaged { IsErrOf result DecodeFault.Damaged → (saved : SavedValue) → IsBody settings.now.shards (settings_shape settings.now) saved bytes.now → ⊥ }
{
    if bytes.len() < 48 {
        return Err(DecodeFault::Damaged);
    }
    let (length, rest) = first_number(bytes);
    if length != bytes.len() as u64 {
        return Err(DecodeFault::Damaged);
    }
    let (sequence, rest) = first_number(rest);
    if sequence < 1 {
        return Err(DecodeFault::Damaged);
    }
    if sequence > LAST_SEQUENCE {
        return Err(DecodeFault::Damaged);
    }
    let (digest, rest) = first_digest(rest);
    let cut = read_cut(alloc, settings, rest)?;
    Ok(Saved {
        sequence,
        digest,
        cut,
    })
}

// The cut whose snapshots these bytes, all of them, spell.
fn read_cut(alloc: Global, settings: &StoreSettings, bytes: &[u8]) -> Result<Cut, DecodeFault>
    requires { AreSettings settings.now }
    ensures cut { IfOk result IsCut }
    ensures shape { IfOk result (λ cut. cut.shape ≡ settings_shape settings.now) }
    ensures read { IfOk result (λ cut. BeginsWith (flat_map snapshot_bytes)
        (ListFits (SnapshotFits (settings_shape settings.now)) settings.now.shards) bytes.now cut.shards []) }
    ensures damaged { IsErrOf result DecodeFault.Damaged → (shards : List SnapshotValue) → BeginsWith (flat_map snapshot_bytes)
        (ListFits (SnapshotFits (settings_shape settings.now)) settings.now.shards) bytes.now shards [] → ⊥ }
{
    let (cut, rest) = read_snapshots(alloc, settings, bytes)?;
    if !rest.is_empty() {
        return Err(DecodeFault::Damaged);
    }
    Ok(cut)
}

// The cut whose snapshots these bytes begin with, and the bytes after them.
fn read_snapshots<'a>(
    alloc: Global,
    settings: &StoreSettings,
    bytes: &'a [u8],
) -> Result<(Cut, &'a [u8]), DecodeFault>
    requires { AreSettings settings.now }
    ensures shape { IfOk result (λ read. read.0.shape ≡ settings_shape settings.now) }
    ensures read { IfOk result (λ read. BeginsWith (flat_map snapshot_bytes)
        (ListFits (SnapshotFits (settings_shape settings.now)) settings.now.shards) bytes.now read.0.shards read.1.now) }
    ensures damaged { IsErrOf result DecodeFault.Damaged →
        BeginsWithNone (flat_map snapshot_bytes) (ListFits (SnapshotFits (settings_shape settings.now)) settings.now.shards) bytes.now }
{
    let mut cut = Cut::with_room(alloc, settings.grain, settings.shards, settings.capacity)?;
    let mut rest = bytes;
    for shard in 0..settings.shards {
        let (snapshot, after) = read_snapshot(alloc, settings.grain, settings.capacity, rest)?;
        cut.put_shard(shard, snapshot);
        rest = after;
    }
    Ok((cut, rest))
}

// The snapshot that these bytes begin with, and the bytes after it.
fn read_snapshot(
    alloc: Global,
    grain: Grain,
    capacity: u32,
    bytes: &[u8],
) -> Result<(Snapshot, &[u8]), DecodeFault>
    requires least { least_capacity ≤ capacity }
    requires most { capacity ≤ most_capacity }
    requires of_grain { capacity ≤ most_grain_capacity grain }
    ensures read { IfOk result (λ read. BeginsWith snapshot_bytes (SnapshotFits (record { grain = grain; capacity = capacity }))
        bytes.now read.0 read.1.now) }
    ensures damaged { IsErrOf result DecodeFault.Damaged
        → BeginsWithNone snapshot_bytes (SnapshotFits (record { grain = grain; capacity = capacity })) bytes.now }
{
    if bytes.len() < 8 {
        return Err(DecodeFault::Damaged);
    }
    let (position, rest) = first_number(bytes);
    let (tables, rest) = read_tables(alloc, grain, capacity, rest)?;
    let Some(snapshot) = Snapshot::from_tables(grain, position, tables) else {
        return Err(DecodeFault::Damaged);
    };
    let _kept = snapshot.position();
    Ok((snapshot, rest))
}

// The tables of a grain that these bytes begin with, and the bytes after them.
fn read_tables(
    alloc: Global,
    grain: Grain,
    capacity: u32,
    bytes: &[u8],
) -> Result<(Vec<Flat>, &[u8]), DecodeFault>
    requires least { least_capacity ≤ capacity }
    requires most { capacity ≤ most_capacity }
    ensures capacity { IfOk result (λ read. All (λ table. table.capacity ≡ capacity) read.0.items) }
    ensures read { IfOk result (λ read. BeginsWith (flat_map table_bytes) (ListFits (TableFits capacity) (node_count grain))
        bytes.now (map (λ table. table.entries) read.0.items) read.1.now) }
    ensures damaged { IsErrOf result DecodeFault.Damaged →
        BeginsWithNone (flat_map table_bytes) (ListFits (TableFits capacity) (node_count grain)) bytes.now }
{
    let nodes = grain.nodes();
    let mut tables = Vec::with_capacity(alloc, usize::from(nodes))?;
    let mut rest = bytes;
    for _index in 0..nodes {
        let (table, after) = read_table(alloc, capacity, rest)?;
        tables.push(table)?;
        rest = after;
    }
    Ok((tables, rest))
}

// The table that these bytes begin with, and the bytes after it.
fn read_table(alloc: Global, capacity: u32, bytes: &[u8]) -> Result<(Flat, &[u8]), DecodeFault>
    requires least { least_capacity ≤ capacity }
    requires most { capacity ≤ most_capacity }
    ensures capacity { IfOk result (λ read. read.0.capacity ≡ capacity) }
    ensures read { IfOk result (λ read. BeginsWith table_bytes (TableFits capacity) bytes.now read.0.entries read.1.now) }
    ensures damaged { IsErrOf result DecodeFault.Damaged → BeginsWithNone table_bytes (TableFits capacity) bytes.now }
{
    if bytes.len() < 12 {
        return Err(DecodeFault::Damaged);
    }
    let (total, rest) = first_number(bytes);
    let (count, rest) = first_count(rest);
    if count > capacity {
        return Err(DecodeFault::Damaged);
    }
    let (entries, rest) = read_entries(alloc, capacity, count, rest)?;
    let Some(table) = Flat::from_entries(capacity, entries) else {
        return Err(DecodeFault::Damaged);
    };
    if table.total() != total {
        return Err(DecodeFault::Damaged);
    }
    Ok((table, rest))
}

// The first `count` entries of these bytes, in a vector with room for a table of the capacity, and the bytes after them.
fn read_entries(
    alloc: Global,
    capacity: u32,
    count: u32,
    bytes: &[u8],
) -> Result<(Vec<Entry>, &[u8]), DecodeFault>
    requires few { count ≤ capacity }
    ensures reserved { IfOk result (λ read. capacity ≤ vec_capacity read.0) }
    ensures read { IfOk result (λ read. BeginsWith (flat_map entry_bytes) (ListFits EntryFits count)
        bytes.now read.0.items read.1.now) }
    ensures damaged { IsErrOf result DecodeFault.Damaged
        → BeginsWithNone (flat_map entry_bytes) (ListFits EntryFits count) bytes.now }
{
    let mut entries = Vec::with_capacity(alloc, capacity as usize)?;
    let mut rest = bytes;
    for _place in 0..count {
        if rest.len() < 24 {
            return Err(DecodeFault::Damaged);
        }
        let (entry, after) = first_entry(rest);
        entries.push(entry)?;
        rest = after;
    }
    Ok((entries, rest))
}

// The entry in the first bytes, and the bytes after it.
fn first_entry(bytes: &[u8]) -> (Entry, &[u8])
    requires { entry_span ≤ length bytes.now }
    ensures { BeginsWith entry_bytes EntryFits bytes.now result.0 result.1.now }
{
    let (key, rest) = first_number(bytes);
    let (count, rest) = first_number(rest);
    let (error, rest) = first_number(rest);
    (Entry { key, count, error }, rest)
}
