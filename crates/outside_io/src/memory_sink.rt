//! A sink in memory whose calls fail where a test chooses.

ghost use Rattle.std.specs.Prelude.{◌≡◌, ◌≤◌, ◌<◌, [], length, is_err, IfOk, OnErr, Some};
ghost use Rattle.std.specs.Io.KnownBytes.{WriteAppends};
ghost use Rattle.outside_io.specs.Failed.{FailsByCount};
ghost use Rattle.outside_io.specs.MemorySink.{write_fails, accepted};
ghost use Rattle.outside_io.specs.MemorySink.{sink_after_fault, sink_after};

use crate::{Failed, Sink};
use std::alloc::{AllocError, Global};
use std::marker::Model;

/// A sink in memory with room for a number of bytes. Call number k, from 0, fails exactly where k is one of the
/// numbers that fail, or where the piece has bytes and no room remains. Any other call takes the bytes that fit. The
/// counts of calls and of faults stay at the greatest `u64`.
#[derive(Drop)]
pub struct MemorySink {
    taken: Vec<u8>,
    room: usize,
    fails: Vec<u64>,
    calls: u64,
    faults: u64,
}

impl Model for MemorySink {
    ghost use Rattle.std.specs.Prelude.{◌≤◌, vec_len, vec_capacity};
    ghost use Rattle.outside_io.specs.MemorySink.{SinkState};

    ghost Value = { SinkState };

    ghost view = { λ s. record {
      taken = s.taken.items;
      room = s.room;
      fails = s.fails.items;
      calls = s.calls;
      faults = s.faults;
    } };

    ghost invariant = { λ s. (vec_len s.taken ≤ s.room) × (s.room ≤ vec_capacity s.taken) };
}

impl MemorySink {
    /// An empty sink that takes at most `room` bytes. All memory is reserved here: after an `Err` there is no sink.
    pub fn with_room(alloc: Global, room: usize, fails: Vec<u64>) -> Result<MemorySink, AllocError>
        ensures state { IfOk result (λ sink. sink ≡ record { taken = []; room = room; fails = fails.items; calls = 0; faults = 0 }) }

        // As a sink it tells its bytes: none was taken yet.
        ensures known { IfOk result (λ sink. ⟦<MemorySink as Sink>⟧.taken sink ≡ Some []) }
    {
        Ok(MemorySink {
            taken: Vec::with_capacity(alloc, room)?,
            room,
            fails,
            calls: 0,
            faults: 0,
        })
    }

    /// The bytes that were taken.
    pub fn taken(&self) -> &[u8]
        ensures { result.now ≡ self.now.taken }
    {
        &self.taken
    }
}

impl Sink for MemorySink {
    ghost taken = { λ s. Some s.taken };

    ghost faults = { λ s. s.faults };

    fn write(&mut self, bytes: &[u8]) -> Result<usize, Failed>
        ensures fits { IfOk result (λ count. count ≤ length bytes.now) }
        ensures takes_some { IfOk result (λ count. 0 < length bytes.now → 0 < count) }
        ensures appended { WriteAppends (Some self.old.taken) (Some self.new.taken) result bytes.now }
        ensures cause { FailsByCount self.old.faults self.new.faults result }

        ensures fails { is_err result ≡ write_fails self.old (length bytes.now) }
        ensures failed { OnErr result (self.new ≡ sink_after_fault self.old) }
        ensures count { IfOk result (λ count. count ≡ accepted self.old (length bytes.now)) }
        ensures took { IfOk result (λ count. self.new ≡ sink_after self.old bytes.now count) }
    {
        let left = self.room - self.taken.len();
        let fails = self.fails.contains(&self.calls) || (left == 0 && !bytes.is_empty());
        self.calls = self.calls.saturating_add(1);
        if fails {
            self.faults = self.faults.saturating_add(1);
            return Err(Failed);
        }
        let count = left.min(bytes.len());
        self.taken.extend_from_slice(&bytes[..count]).unwrap();
        Ok(count)
    }
}
