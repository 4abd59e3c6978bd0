//! One slot of a table.

use key_index::Keyed;
use space_saving::Entry;

/// An entry, and when it was changed last.
#[derive(Clone, Copy, PartialEq, Eq)]
pub(crate) struct Slot {
    /// The entry of the key that has the slot.
    pub entry: Entry,
    /// When the entry was changed last: greater than the times of all slots that were changed before, and below 2^18.
    pub time: u64,
}

impl Keyed for Slot {
    ghost key_of = { λ slot. slot.entry.key };

    fn key(&self) -> u64 {
        self.entry.key
    }
}
