//! A made capture as a source that never fails.

ghost use Rattle.std.specs.Prelude.{◌≡◌, ◌≤◌, length, drop, IfOk, Some};
ghost use Rattle.std.specs.Io.KnownBytes.{ReadConsumes};
ghost use Rattle.outside_io.specs.{FailsByCount};

use outside_io::{Failed, MemorySource, Source};
use std::alloc::Global;
use std::marker::Model;

// The most bytes that one call gives.
const STEP: usize = 65_536;

/// The bytes of a made capture, in memory. No read fails.
#[derive(Drop)]
pub(crate) struct MadeSource {
    source: MemorySource,
}

impl Model for MadeSource {
    ghost use Rattle.std.specs.Prelude.{◌≡◌, ℕ, List, []};

    // The remaining bytes.
    ghost Value = { List ℕ };

    ghost view = { λ s. s.source.left };

    ghost invariant = { λ s. s.source.fails ≡ [] };
}

impl MadeSource {
    /// A source of these bytes.
    pub(crate) fn new(alloc: Global, bytes: Vec<u8>) -> MadeSource
        ensures { result ≡ bytes.items }
    {
        MadeSource {
            source: MemorySource::new(bytes, Vec::new(alloc), STEP),
        }
    }
}

impl Source for MadeSource {
    ghost left = { λ s. Some s };

    ghost faults = { λ s. 0 };

    fn read(&mut self, into: &mut [u8]) -> Result<usize, Failed>
        ensures fits { IfOk result (λ count. count ≤ length into.old) }
        ensures later_places { IfOk result (λ count. drop count into.new ≡ drop count into.old) }
        ensures first_bytes { ReadConsumes (Some self.old) (Some self.new) result into.new }
        ensures cause { FailsByCount 0 0 result }
    {
        match self.source.read(into) {
            Ok(count) => Ok(count),
            Err(_) => unreachable!(),
        }
    }
}
