//! What an arena has of an entry, and of a bucket.

use crate::numbers::{BucketNumber, EntryNumber};
use key_index::Keyed;

/// An entry, without its count, which its bucket has.
#[derive(Clone, Copy)]
pub(crate) struct Slot {
    /// The key that is monitored.
    pub key: u64,
    /// The error of the entry.
    pub error: u64,
    /// The bucket in which the entry stands.
    pub bucket: BucketNumber,
}

impl Keyed for Slot {
    ghost key_of = { λ slot. slot.key };

    fn key(&self) -> u64 {
        self.key
    }
}

/// The entries of one count.
#[derive(Clone, Copy)]
pub(crate) struct Bucket {
    /// The count of its entries, or `FREE` if it has none.
    pub count: u64,
    /// The entry that comes last among its entries.
    pub last: EntryNumber,
}

/// The count of a bucket that isn't in use, above each count of an entry.
pub(crate) const FREE: u64 = u64::MAX;
