//! The intervals of one table, sorted by key.

ghost use Rattle.std.specs.Prelude.{◌≡◌, ◌==◌, IfOk, OnOk, length, map};
ghost use Rattle.std.specs.List.{find};
ghost use Rattle.std.specs.List.Sorted.{IsNonDecreasingBy, IsPermutation};
ghost use Rattle.space_saving.specs.{KeysApart};
ghost use Rattle.cut_merge.specs.Run.{IsRun, IsRunOf, run_interval, is_monitored, interval_of_entry};
ghost use Rattle.cut_merge.specs.Run.{missing_high};

use crate::key_interval::KeyInterval;
use space_saving::Flat;
use std::alloc::{AllocError, Global};
use std::marker::Model;

/// The intervals of one table in the order of their keys, and the high of a key that the table lacks. A key is found
/// by binary search, so no choice of keys makes a search slow.
#[derive(Drop)]
pub(crate) struct Run {
    intervals: Vec<KeyInterval>,
    missing: u64,
}

impl Model for Run {
    ghost use Rattle.cut_merge.specs.Run.{RunValue, IsRun};

    ghost Value = { RunValue };

    ghost view = { λ r. record { intervals = r.intervals.items; missing = r.missing } };

    ghost invariant = { λ r. IsRun r.intervals.items };
}

impl Run {
    /// The run of a table. The only error is that memory runs out.
    pub(crate) fn of(alloc: Global, table: &Flat) -> Result<Run, AllocError>
        requires { KeysApart table.now.entries }
        ensures { IfOk result (λ run. IsRunOf run table.now) }
    {
        let mut intervals = Vec::with_capacity(alloc, table.len())?;
        push_intervals(&mut intervals, table)?;
        sort_by_key(&mut intervals);
        Ok(Run {
            intervals,
            missing: missing_in(table),
        })
    }

    /// The least and the greatest weight that the key can have in the table.
    pub(crate) fn interval(&self, key: u64) -> (u64, u64)
        ensures low { result.0 ≡ (run_interval self.now key).low }
        ensures high { result.1 ≡ (run_interval self.now key).high }
    {
        match interval_of(&self.intervals, key) {
            Some(interval) => (interval.low, interval.high),
            None => (0, self.missing),
        }
    }

    /// The high of a key that the table lacks.
    pub(crate) fn missing(&self) -> u64
        ensures { result ≡ self.now.missing }
    {
        self.missing
    }

    /// Whether the table monitors the key.
    pub(crate) fn monitors(&self, key: u64) -> bool
        ensures { result ≡ is_monitored key self.now }
    {
        interval_of(&self.intervals, key).is_some()
    }
}

// The interval of a key that the table monitors.
fn interval_of(intervals: &[KeyInterval], key: u64) -> Option<KeyInterval>
    requires { IsRun intervals.now }
    ensures { result ≡ find (λ interval. interval.key == key) intervals.now }
{
    match intervals.binary_search_by_key(&key, |interval| interval.key) {
        Ok(place) => Some(intervals[place]),
        Err(_) => None,
    }
}

// Appends the interval of each entry of a table.
fn push_intervals(intervals: &mut Vec<KeyInterval>, table: &Flat) -> Result<(), AllocError>
    requires { length intervals.old.items ≡ 0 }
    ensures { OnOk result (intervals.new.items ≡ map interval_of_entry table.now.entries) }
{
    for place in 0..table.len() {
        let entry = table.entry(place);
        intervals.push(KeyInterval {
            key: entry.key,
            low: entry.count - entry.error,
            high: entry.count,
        })?;
    }
    Ok(())
}

// Sorts intervals by key.
fn sort_by_key(intervals: &mut Vec<KeyInterval>)
    ensures permuted { IsPermutation intervals.old.items intervals.new.items }
    ensures rising { IsNonDecreasingBy (λ interval. interval.key) intervals.new.items }
{
    intervals.sort_unstable_by_key(|interval| interval.key);
}

// The high of a key that is missing in a table.
fn missing_in(table: &Flat) -> u64
    ensures { result ≡ missing_high table.now }
{
    if table.len() < table.capacity() as usize {
        0
    } else {
        table.entry(0).count
    }
}
