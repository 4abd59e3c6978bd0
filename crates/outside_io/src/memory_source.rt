//! A source in memory whose calls fail where a test chooses.

ghost use Rattle.std.specs.Prelude.{◌≡◌, ◌≤◌, ◌++◌, [], length, take, drop, is_err, IfOk, OnErr, None, Some};
ghost use Rattle.std.specs.Io.KnownBytes.{ReadConsumes};
ghost use Rattle.outside_io.specs.Failed.{FailsByCount};
ghost use Rattle.outside_io.specs.MemorySource.{call_fails, given};
ghost use Rattle.outside_io.specs.MemorySource.{after_fault, source_after};

use crate::{Failed, Source};
use std::marker::Model;

/// A source of bytes in memory. Call number k, from 0, fails exactly where k is one of the numbers that fail, and
/// leaves the buffer unchanged. Any other call gives the least of the step, the room in the buffer and the number of
/// remaining bytes. The counts of calls and of faults stay at the greatest `u64`.
#[derive(Drop)]
pub struct MemorySource {
    bytes: Vec<u8>,
    place: usize,
    fails: Vec<u64>,
    step: usize,
    calls: u64,
    faults: u64,
}

impl Model for MemorySource {
    ghost use Rattle.std.specs.Prelude.{◌≤◌, drop, vec_len};
    ghost use Rattle.outside_io.specs.MemorySource.{SourceState};

    ghost Value = { SourceState };

    ghost view = { λ s. record {
      left = drop s.place s.bytes.items;
      fails = s.fails.items;
      step = s.step;
      calls = s.calls;
      faults = s.faults;
    } };

    ghost invariant = { λ s. (s.place ≤ vec_len s.bytes) × (1 ≤ s.step) };
}

impl MemorySource {
    /// A source of these bytes, none of which is read yet. `step`, at least 1, is the most bytes that one call gives.
    pub fn new(bytes: Vec<u8>, fails: Vec<u64>, step: usize) -> MemorySource
        requires { 1 ≤ step }
        ensures state { result ≡ record { left = bytes.items; fails = fails.items; step = step; calls = 0; faults = 0 } }

        // As a source it tells its bytes: all of them remain.
        ensures known { ⟦<MemorySource as Source>⟧.left result ≡ Some bytes.items }
    {
        MemorySource {
            bytes,
            place: 0,
            fails,
            step,
            calls: 0,
            faults: 0,
        }
    }
}

impl Source for MemorySource {
    ghost left = { λ s. Some s.left };

    ghost faults = { λ s. s.faults };

    fn read(&mut self, into: &mut [u8]) -> Result<usize, Failed>
        ensures fits { IfOk result (λ count. count ≤ length into.old) }
        ensures later_places { IfOk result (λ count. drop count into.new ≡ drop count into.old) }
        ensures first_bytes { ReadConsumes (Some self.old.left) (Some self.new.left) result into.new }
        ensures cause { FailsByCount self.old.faults self.new.faults result }

        ensures fails { is_err result ≡ call_fails self.old }
        ensures failed { OnErr result (self.new ≡ after_fault self.old) }
        ensures untouched { OnErr result (into.new ≡ into.old) }
        ensures count { IfOk result (λ count. count ≡ given self.old (length into.old)) }
        ensures gave { IfOk result (λ count. self.new ≡ source_after self.old count) }
    {
        let fails = self.fails.contains(&self.calls);
        self.calls = self.calls.saturating_add(1);
        if fails {
            self.faults = self.faults.saturating_add(1);
            return Err(Failed);
        }
        let (_, left) = self.bytes.split_at(self.place);
        let count = self.step.min(into.len()).min(left.len());
        copy_front(left, into, count);
        self.place += count;
        Ok(count)
    }
}

fn copy_front(from: &[u8], into: &mut [u8], count: usize)
    requires in_from { count ≤ length from.now }
    requires in_into { count ≤ length into.old }
    ensures { into.new ≡ take count from.now ++ drop count into.old }
{
    let (front, _) = from.split_at(count);
    into[..count].copy_from_slice(front);
}
