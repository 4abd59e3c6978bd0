//! A stream of bytes to read from.

ghost use Rattle.std.specs.Prelude.{◌≡◌, ◌≤◌, ℕ, Option, List, length, drop, IfOk};
ghost use Rattle.std.specs.Io.KnownBytes.{ReadConsumes};
ghost use Rattle.outside_io.specs.Failed.{FailsByCount};

use crate::Failed;

/// A stream of bytes that is read once, from its beginning to its end.
pub trait Source {
    /// The remaining bytes, where they are known.
    ghost left: { Self → Option (List ℕ) };

    /// How many calls have failed. The count stays at the greatest `u64`.
    ghost faults: { Self → ℕ };

    /// Reads the next bytes into the front of `into`, and returns how many there are. Bytes of `into` after them are
    /// unchanged. If `into` is not empty, 0 means the end.
    ///
    /// After `Failed` the remaining bytes are as before, and the next call may succeed. The contents of `into` are
    /// then unspecified.
    fn read(&mut self, into: &mut [u8]) -> Result<usize, Failed>
        ensures fits { IfOk result (λ count. count ≤ length into.old) }
        ensures later_places { IfOk result (λ count. drop count into.new ≡ drop count into.old) }
        ensures first_bytes { ReadConsumes (left self.old) (left self.new) result into.new }
        ensures cause { FailsByCount (faults self.old) (faults self.new) result };
}
