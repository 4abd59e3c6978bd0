//! A stream of bytes to write to.

ghost use Rattle.std.specs.Prelude.{◌≤◌, ◌<◌, ℕ, Option, List, length, IfOk};
ghost use Rattle.std.specs.Io.KnownBytes.{WriteAppends};
ghost use Rattle.outside_io.specs.Failed.{FailsByCount};

use crate::Failed;

/// A stream of bytes that is written once, from its beginning on.
pub trait Sink {
    /// The bytes that were taken, where they are known.
    ghost taken: { Self → Option (List ℕ) };

    /// How many calls have failed. The count stays at the greatest `u64`.
    ghost faults: { Self → ℕ };

    /// Takes bytes from the front of `bytes`, and returns how many it took: at least one, unless `bytes` is empty.
    ///
    /// After `Failed` the bytes taken are as before, and the next call may succeed.
    fn write(&mut self, bytes: &[u8]) -> Result<usize, Failed>
        ensures fits { IfOk result (λ count. count ≤ length bytes.now) }
        ensures takes_some { IfOk result (λ count. 0 < length bytes.now → 0 < count) }
        ensures appended { WriteAppends (taken self.old) (taken self.new) result bytes.now }
        ensures cause { FailsByCount (faults self.old) (faults self.new) result };
}
