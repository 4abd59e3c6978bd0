//! The tables of one node, merged.

ghost use Rattle.std.specs.Prelude.{◌≡◌, ◌==◌, ◌^◌, ◌<◌, ◌≤◌, ℕ, true, [], IfOk, OnOk, fold, length};
ghost use Rattle.std.specs.List.{list_any};
ghost use Rattle.space_saving.specs.{KeysApart};
ghost use Rattle.cut_merge.specs.Merged.{keys_seen, WithTable, CanBeMerged};
ghost use Rattle.cut_merge.specs.Merged.{interval_for_key};
ghost use Rattle.cut_merge.specs.NodeMerge.{has_key};
ghost use Rattle.cut_merge.specs.Run.{IsRunOf, missing_high};
ghost use Rattle.cut_merge.specs.HighBounds.{bound_cell, NoteEntries};
ghost use Rattle.cut_merge.specs.SeenHomes.{SeeEntries, is_seen};
ghost use Rattle.cut_merge.specs.CutTables.{keys_of};

use crate::high_bounds::HighBounds;
use crate::run::Run;
use crate::seen_homes::SeenHomes;
use space_saving::Flat;
use std::alloc::{AllocError, Global};
use std::marker::Model;

/// The tables of one node, merged: the run of each shard's table, the keys that some table monitors, and upper bounds
/// on the highs of keys.
#[derive(Drop)]
pub(crate) struct NodeMerge {
    runs: Vec<Run>,
    keys: Vec<u64>,
    bounds: HighBounds,
}

impl Model for NodeMerge {
    ghost use Rattle.cut_merge.specs.NodeMerge.{NodeMergeValue};
    ghost use Rattle.cut_merge.specs.HighBounds.{AreBoundsOf};

    ghost Value = { NodeMergeValue };

    ghost view = { λ m. record { runs = m.runs.items; keys = m.keys.items } };

    ghost invariant = { λ m. AreBoundsOf m.runs.items m.bounds };
}

impl NodeMerge {
    /// No table is merged yet. The only error is that memory runs out.
    pub(crate) fn new(alloc: Global) -> Result<NodeMerge, AllocError>
        ensures { IfOk result (λ merge. merge ≡ record { runs = []; keys = [] }) }
    {
        Ok(NodeMerge {
            runs: Vec::new(alloc),
            keys: Vec::new(alloc),
            bounds: HighBounds::new(alloc)?,
        })
    }

    /// Merges one more table in, and sees its keys. After an `Err` the table may be merged in part.
    pub(crate) fn add(
        &mut self,
        alloc: Global,
        table: &Flat,
        seen: &mut SeenHomes,
    ) -> Result<(), AllocError>
        requires known { (key : ℕ) → list_any (λ other. key == other) self.old.keys ≡ has_key key self.old.runs }
        requires seen { (key : ℕ) → has_key key self.old.runs ≡ true → is_seen seen.old key ≡ true }
        requires apart { KeysApart table.now.entries }
        requires bounded { (key : ℕ) → CanBeMerged key table.now }
        ensures with { OnOk result (WithTable self.old table.now self.new) }
        ensures seen { OnOk result ((key : ℕ) → has_key key self.new.runs ≡ true → is_seen seen.new key ≡ true) }
    {
        let run = Run::of(alloc, table)?;
        self.bounds.add_missing(run.missing());
        note_keys(
            &mut self.keys,
            &mut self.bounds,
            seen,
            &self.runs,
            table,
            run.missing(),
        )?;
        Ok(self.runs.push(run)?)
    }

    /// A bound on the greatest weight that the key can have had, found without a search.
    pub(crate) fn at_most(&self, key: u64) -> u64
        requires { (interval_for_key self.now key).high < 2 ^ 64 }
        ensures { (interval_for_key self.now key).high ≤ result }
    {
        self.bounds.at_most(key)
    }

    /// The least and the greatest weight that the key can have had.
    pub(crate) fn interval(&self, key: u64) -> (u64, u64)
        requires low { (interval_for_key self.now key).low < 2 ^ 64 }
        requires high { (interval_for_key self.now key).high < 2 ^ 64 }
        ensures low { result.0 ≡ (interval_for_key self.now key).low }
        ensures high { result.1 ≡ (interval_for_key self.now key).high }
    {
        let mut low = 0;
        let mut high = 0;
        for run in &self.runs {
            let (least, most) = run.interval(key);
            low += least;
            high += most;
        }
        (low, high)
    }

    /// The keys that some table monitors, in the order in which they were first seen.
    pub(crate) fn keys(&self) -> &[u64]
        ensures { result.now ≡ self.now.keys }
    {
        self.keys.as_slice()
    }
}

// Appends the keys of a table that none of these runs has, sees all its keys, and counts all its entries.
fn note_keys(
    keys: &mut Vec<u64>,
    bounds: &mut HighBounds,
    seen: &mut SeenHomes,
    runs: &[Run],
    table: &Flat,
    missing: u64,
) -> Result<(), AllocError>
    requires known { (key : ℕ) → list_any (λ other. key == other) keys.old.items ≡ has_key key runs.now }
    requires seen { (key : ℕ) → has_key key runs.now ≡ true → is_seen seen.old key ≡ true }
    requires missing { missing ≡ missing_high table.now }
    ensures keys { OnOk result (keys.new.items ≡ fold keys_seen keys.old.items (keys_of table.now)) }
    ensures bounds { OnOk result (NoteEntries table.now bounds.old bounds.new (length table.now.entries)) }
    ensures seen { OnOk result (SeeEntries table.now seen.old seen.new (length table.now.entries)) }
    ensures raises { (key : ℕ) → bound_cell bounds.old key ≤ bound_cell bounds.new key }
    ensures same { bounds.new.missing ≡ bounds.old.missing }
{
    for place in 0..table.len() {
        let entry = table.entry(place);
        if !is_known(seen, runs, entry.key) {
            keys.push(entry.key)?;
        }
        seen.note(entry.key);
        bounds.note(entry.key, entry.count - missing);
    }
    Ok(())
}

// Whether one of these runs has the key. Where no key with its home was seen, none has.
fn is_known(seen: &SeenHomes, runs: &[Run], key: u64) -> bool
    requires { has_key key runs.now ≡ true → is_seen seen.now key ≡ true }
    ensures { result ≡ has_key key runs.now }
{
    if !seen.has(key) {
        return false;
    }
    runs.iter().any(|run| run.monitors(key))
}
