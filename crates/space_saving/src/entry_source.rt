//! The source of a table's entries when it is refilled.

ghost use Rattle.std.specs.Prelude.{◌≡◌, List, length};
ghost use Rattle.space_saving.specs.declared.entry.Entry.{Entry};

use crate::Entry;

/// A list of entries in any representation, which can be written in its order. `Flat::refill` takes one, so that a
/// `Summary` of another crate can copy its entries into a flat table.
pub trait EntrySource {
    /// The entries, in the order in which they are written.
    ghost entries: { Self → List Entry };

    /// How many entries there are.
    fn entry_count(&self) -> usize
        ensures { result ≡ length (entries self.now) };

    /// Writes the entries over a slice of the same length, whose old contents don't matter. A source that keeps them
    /// in another order can sort within the slice, so it needs no memory.
    fn write_entries(&self, into: &mut [Entry])
        requires { length into.old ≡ length (entries self.now) }
        ensures { into.new ≡ entries self.now };
}
