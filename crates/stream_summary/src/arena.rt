//! Where entries, buckets and their orders stand.

ghost use Rattle.std.specs.Prelude.{◌≡◌, ◌<◌, ◌≤◌, ◌++◌, ◌∷◌, [], length, IfOk, vec_capacity};
ghost use Rattle.stream_summary.specs.Lists.{numbers_below};
ghost use Rattle.stream_summary.specs.Buckets.{bucket_of, count_of, entry_at, keys_of, last_of};
ghost use Rattle.stream_summary.specs.Arena.{IsArena, IsEmptyArena, arena_entries};

use crate::numbers::{BucketNumber, EntryNumber, Number};
use crate::recent::Recent;
use crate::ring::Ring;
use crate::slot::{Bucket, FREE, Slot};
use space_saving::Entry;
use std::alloc::{AllocError, Global};

/// Entries in buckets. The number of an entry is the place of its slot, and that of a bucket its place among the
/// buckets. All memory is taken when the arena is made.
#[derive(Drop)]
pub(crate) struct Arena {
    /// The slots, in the order in which their first keys came.
    pub slots: Vec<Slot>,
    /// The buckets, as many as there can be slots.
    pub buckets: Vec<Bucket>,
    /// All entries in the order of the table, so that those of one bucket stand together.
    pub order: Ring<EntryNumber>,
    /// All buckets: those in use, with rising counts, and then those that are free.
    pub steps: Ring<BucketNumber>,
    /// To which buckets entries went last.
    pub recent: Recent,
}

impl Arena {
    /// An arena of no entries, with memory for `room` of them, 1 to 4,096, and as many buckets.
    pub(crate) fn with_room(alloc: Global, room: usize) -> Result<Arena, AllocError>
        requires some { 1 ≤ room }
        requires few { room ≤ 4096 }
        ensures { IfOk result (λ arena. IsEmptyArena room arena) }
    {
        let free = Bucket {
            count: FREE,
            last: EntryNumber::from_index(0),
        };
        let slots = Vec::with_capacity(alloc, room)?;
        let buckets = vec![in alloc; free; room]?;
        let order = Ring::with_room(alloc, room)?;
        let steps = all_buckets(alloc, room)?;
        Ok(Arena {
            slots,
            buckets,
            order,
            steps,
            recent: Recent::none(),
        })
    }

    /// Appends the slot of an entry, which isn't in the order yet. The answer is its number.
    pub(crate) fn push(&mut self, entry: Entry) -> EntryNumber
        requires arena { IsArena self.old }
        requires room { length self.old.slots.items < length self.old.buckets.items }
        requires memory { length self.old.slots.items < vec_capacity self.old.slots }
        ensures number { result.0 ≡ length self.old.slots.items }
        ensures arena { IsArena self.new }
        ensures entries { arena_entries self.new ≡ arena_entries self.old }
        ensures order { self.new.order ≡ self.old.order }
        ensures buckets { self.new.buckets ≡ self.old.buckets }
        ensures keys { keys_of self.new.slots.items ≡ keys_of self.old.slots.items ++ entry.key ∷ [] }
        ensures memory { vec_capacity self.old.slots ≤ vec_capacity self.new.slots }
    {
        let number = EntryNumber::from_index(self.slots.len());
        let slot = Slot {
            key: entry.key,
            error: entry.error,
            bucket: BucketNumber::from_index(0),
        };
        self.slots.push(slot).unwrap();
        number
    }

    /// The bucket of an entry.
    pub(crate) fn bucket_of(&self, number: EntryNumber) -> BucketNumber
        requires { number.0 < length self.now.slots.items }
        ensures { result.0 ≡ bucket_of self.now.slots.items number.0 }
    {
        self.slots[number.index()].bucket
    }

    /// The last entry in a bucket.
    pub(crate) fn last_of(&self, bucket: BucketNumber) -> EntryNumber
        requires { bucket.0 < length self.now.buckets.items }
        ensures { result.0 ≡ last_of self.now.buckets.items bucket.0 }
    {
        self.buckets[bucket.index()].last
    }

    /// The count of a bucket.
    pub(crate) fn count_of(&self, bucket: BucketNumber) -> u64
        requires { bucket.0 < length self.now.buckets.items }
        ensures { result ≡ count_of self.now.buckets.items bucket.0 }
    {
        self.buckets[bucket.index()].count
    }

    /// The entry with this number.
    pub(crate) fn entry(&self, number: EntryNumber) -> Entry
        requires within { number.0 < length self.now.slots.items }
        requires bucket { bucket_of self.now.slots.items number.0 < length self.now.buckets.items }
        ensures { result ≡ entry_at self.now.slots.items self.now.buckets.items number.0 }
    {
        let slot = self.slots[number.index()];
        let count = self.count_of(slot.bucket);
        Entry {
            key: slot.key,
            count,
            error: slot.error,
        }
    }
}

// A ring of this many buckets.
fn all_buckets(alloc: Global, room: usize) -> Result<Ring<BucketNumber>, AllocError>
    requires some { 1 ≤ room }
    requires few { room ≤ 4096 }
    ensures room { IfOk result (λ steps. steps.room ≡ room) }
    ensures steps { IfOk result (λ steps. steps.order ≡ numbers_below room) }
{
    let mut steps = Ring::with_room(alloc, room)?;
    for index in 0..room {
        steps.push(BucketNumber::from_index(index));
    }
    Ok(steps)
}
