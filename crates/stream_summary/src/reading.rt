//! What is read of an arena.

ghost use Rattle.std.specs.Prelude.{◌≡◌, ◌<◌, ◌≤◌, ℕ, IfSome, Some, length, slice_get};
ghost use Rattle.std.specs.List.{AllByRecursion};
ghost use Rattle.space_saving.specs.{IsTable, interval_in, least_count};
ghost use Rattle.stream_summary.specs.Ring.{IsFirstOf};
ghost use Rattle.stream_summary.specs.Buckets.{count_of};
ghost use Rattle.stream_summary.specs.Arena.{AreParts, IsArena, arena_entries};

use crate::arena::Arena;
use crate::numbers::{BucketNumber, EntryNumber, Number};
use key_index::KeyIndex;
use space_saving::Entry;

impl Arena {
    /// The entry at this index in the order.
    pub(crate) fn entry_in_order(&self, place: usize) -> Entry
        requires arena { IsArena self.now }
        requires within { place < length self.now.order.order }
        ensures { slice_get (arena_entries self.now) place ≡ Some result }
    {
        let mut next = self.order.first();
        for _passed in 0..place {
            next = self.order.after(next.unwrap());
        }
        self.entry(next.unwrap())
    }

    /// Writes the entries in their order over as many entries.
    pub(crate) fn write_in_order(&self, into: &mut [Entry])
        requires arena { IsArena self.now }
        requires as_many { length into.old ≡ length self.now.order.order }
        ensures { into.new ≡ arena_entries self.now }
    {
        let mut next = self.order.first();
        for place in 0..into.len() {
            let number = next.unwrap();
            into[place] = self.entry(number);
            next = self.order.after(number);
        }
    }

    /// The entry that comes first.
    pub(crate) fn first_entry(&self) -> EntryNumber
        requires { 1 ≤ length self.now.order.order }
        ensures { IsFirstOf result.0 self.now.order.order }
    {
        self.order.first().unwrap()
    }

    /// The bucket of the entry that comes last.
    pub(crate) fn last_bucket(&self) -> Option<BucketNumber>
        requires { IsArena self.now }
        ensures within { IfSome result (λ b. b.0 < length self.now.buckets.items) }
        ensures counts { (limit : ℕ) → AllByRecursion (λ entry. entry.count ≤ limit) (arena_entries self.now)
            → IfSome result (λ b. count_of self.now.buckets.items b.0 ≤ limit) }
    {
        match self.order.last() {
            Some(number) => Some(self.bucket_of(number)),
            None => None,
        }
    }

    /// The least count, or 0 if there is no entry.
    pub(crate) fn least_count(&self) -> u64
        requires { IsArena self.now }
        ensures { result ≡ least_count (arena_entries self.now) }
    {
        match self.order.first() {
            Some(number) => self.entry(number).count,
            None => 0,
        }
    }
}

/// The least and the greatest weight that a key can have had.
pub(crate) fn interval_of(index: &KeyIndex, arena: &Arena, key: u64) -> (u64, u64)
    requires together { AreParts index.now arena.now }
    requires table { IsTable (length arena.now.buckets.items) (arena_entries arena.now) }
    ensures low { result.0 ≡ (interval_in (record { capacity = length arena.now.buckets.items; entries = arena_entries arena.now }) key).low }
    ensures high { result.1 ≡ (interval_in (record { capacity = length arena.now.buckets.items; entries = arena_entries arena.now }) key).high }
{
    match index.find(&arena.slots, key) {
        Ok(place) => {
            let entry = arena.entry(EntryNumber::from_index(place));
            (entry.count - entry.error, entry.count)
        }
        Err(_) if arena.slots.len() < arena.buckets.len() => (0, 0),
        Err(_) => (0, arena.least_count()),
    }
}
