//! Entries that go to their buckets.

ghost use Rattle.std.specs.Prelude.{◌≡◌, ◌≢◌, ◌<◌, ◌≤◌, IfSome, MatchOption, Some, length, slice_index_or, slice_set, vec_capacity};
ghost use Rattle.std.specs.List.{AllByRecursion};
ghost use Rattle.std.specs.Option.{option_map};
ghost use Rattle.stream_summary.specs.Ring.{IsIn};
ghost use Rattle.stream_summary.specs.Buckets.{bucket_of, count_of, free_count, keys_of, no_bucket};
ghost use Rattle.stream_summary.specs.Arena.{HasFree, IsArena, IsLastUpTo, IsPutIn, IsReplaced, begun, slot_of};

use crate::arena::Arena;
use crate::numbers::{BucketNumber, EntryNumber, Number};
use crate::slot::{Bucket, Slot};
use space_saving::Entry;

impl Arena {
    /// Takes an entry out and puts another one, whose count isn't less, into its slot.
    pub(crate) fn replace(&mut self, number: EntryNumber, entry: Entry)
        requires arena { IsArena self.old }
        requires stands { IsIn number.0 self.old.order.order }
        requires counts { entry.count < free_count }
        requires rises { count_of self.old.buckets.items (bucket_of self.old.slots.items number.0) ≤ entry.count }
        ensures arena { IsArena self.new }
        ensures replaced { IsReplaced number.0 entry self.old self.new }
        ensures keys { keys_of self.new.slots.items ≡ slice_set (keys_of self.old.slots.items) number.0 entry.key }
        ensures memory { vec_capacity self.new.slots ≡ vec_capacity self.old.slots }
        ensures buckets { length self.new.buckets.items ≡ length self.old.buckets.items }
    {
        let from = self.take_out(number);
        self.put_in(number, entry, from);
    }

    /// Writes an entry to a slot that isn't in the order, and puts it last in the bucket of its count, which is made where
    /// it is missing. The search for it begins at `from`, whose count isn't greater, or at the first bucket.
    pub(crate) fn put_in(&mut self, number: EntryNumber, entry: Entry, from: Option<BucketNumber>)
        requires arena { IsArena self.old }
        requires within { number.0 < length self.old.slots.items }
        requires apart { AllByRecursion (λ other. other ≢ number.0) self.old.order.order }
        requires counts { entry.count < free_count }
        requires from { IfSome from (λ b. b.0 < length self.old.buckets.items) }
        requires below { IfSome from (λ b. count_of self.old.buckets.items b.0 ≤ entry.count) }
        ensures arena { IsArena self.new }
        ensures put { IsPutIn number.0 entry self.old self.new }
        ensures keys { keys_of self.new.slots.items ≡ slice_set (keys_of self.old.slots.items) number.0 entry.key }
        ensures memory { vec_capacity self.new.slots ≡ vec_capacity self.old.slots }
        ensures buckets { length self.new.buckets.items ≡ length self.old.buckets.items }
    {
        let start = self.nearest_start(from, entry.count);
        let below = self.bucket_up_to(start, entry.count);
        match self.where_counts_agree(below, entry.count) {
            Some(bucket) => self.join(number, entry, bucket),
            None => self.begin(number, entry, below),
        }
    }

    // Where a search for a count begins: at `from`, or at one of the buckets to which entries went last, if its count is nearer.
    fn nearest_start(&self, from: Option<BucketNumber>, count: u64) -> Option<BucketNumber>
        requires within { IfSome from (λ b. b.0 < length self.now.buckets.items) }
        requires below { IfSome from (λ b. count_of self.now.buckets.items b.0 ≤ count) }
        ensures within { IfSome result (λ b. b.0 < length self.now.buckets.items) }
        ensures below { IfSome result (λ b. count_of self.now.buckets.items b.0 ≤ count) }
    {
        let mut start = from;
        for recent in &self.recent.buckets {
            start = self.nearer_start(start, *recent, count);
        }
        start
    }

    // The second of two buckets, if there is one of this number and its count is nearer, from below, to a count; else the first.
    fn nearer_start(
        &self,
        start: Option<BucketNumber>,
        recent: BucketNumber,
        count: u64,
    ) -> Option<BucketNumber>
        requires within { IfSome start (λ b. b.0 < length self.now.buckets.items) }
        requires below { IfSome start (λ b. count_of self.now.buckets.items b.0 ≤ count) }
        ensures within { IfSome result (λ b. b.0 < length self.now.buckets.items) }
        ensures below { IfSome result (λ b. count_of self.now.buckets.items b.0 ≤ count) }
    {
        let Some(bucket) = self.buckets.get(recent.index()) else {
            return start;
        };
        let least = match start {
            Some(start) => self.count_of(start),
            None => 0,
        };
        if bucket.count < least || count < bucket.count {
            return start;
        }
        Some(recent)
    }

    // The bucket, if it has this count.
    fn where_counts_agree(&self, bucket: Option<BucketNumber>, count: u64) -> Option<BucketNumber>
        requires { IfSome bucket (λ b. b.0 < length self.now.buckets.items) }
        ensures { MatchOption result (IfSome bucket (λ b. count_of self.now.buckets.items b.0 ≢ count))
            (λ b. (bucket ≡ Some b) × (count_of self.now.buckets.items b.0 ≡ count)) }
    {
        let Some(found) = bucket else {
            return None;
        };
        if self.count_of(found) == count {
            Some(found)
        } else {
            None
        }
    }

    // Puts an entry last in a bucket that has its count.
    fn join(&mut self, number: EntryNumber, entry: Entry, bucket: BucketNumber)
        requires arena { IsArena self.old }
        requires within { number.0 < length self.old.slots.items }
        requires apart { AllByRecursion (λ other. other ≢ number.0) self.old.order.order }
        requires counts { entry.count < free_count }
        requires bucket { bucket.0 < length self.old.buckets.items }
        requires agrees { count_of self.old.buckets.items bucket.0 ≡ entry.count }
        ensures arena { IsArena self.new }
        ensures put { IsPutIn number.0 entry self.old self.new }
        ensures keys { keys_of self.new.slots.items ≡ slice_set (keys_of self.old.slots.items) number.0 entry.key }
        ensures memory { vec_capacity self.new.slots ≡ vec_capacity self.old.slots }
        ensures buckets { length self.new.buckets.items ≡ length self.old.buckets.items }
    {
        let last = self.last_of(bucket);
        self.order.insert_after(Some(last), number);
        self.write_bucket(bucket, entry.count, number);
        self.write_slot(number, entry, bucket);
    }

    // Puts an entry into a free bucket, which goes after this one, or to the front.
    fn begin(&mut self, number: EntryNumber, entry: Entry, below: Option<BucketNumber>)
        requires arena { IsArena self.old }
        requires within { number.0 < length self.old.slots.items }
        requires apart { AllByRecursion (λ other. other ≢ number.0) self.old.order.order }
        requires counts { entry.count < free_count }
        requires below { IfSome below (λ b. b.0 < length self.old.buckets.items) }
        requires less { IfSome below (λ b. count_of self.old.buckets.items b.0 < entry.count) }
        requires last { IsLastUpTo self.old.buckets.items entry.count below }
        ensures arena { IsArena self.new }
        ensures put { IsPutIn number.0 entry self.old self.new }
        ensures keys { keys_of self.new.slots.items ≡ slice_set (keys_of self.old.slots.items) number.0 entry.key }
        ensures memory { vec_capacity self.new.slots ≡ vec_capacity self.old.slots }
        ensures buckets { length self.new.buckets.items ≡ length self.old.buckets.items }
    {
        let bucket = self.free_bucket();
        let last = self.last_in(below);
        self.steps.remove(bucket);
        self.steps.insert_after(below, bucket);
        self.order.insert_after(last, number);
        self.write_bucket(bucket, entry.count, number);
        self.write_slot(number, entry, bucket);
    }

    // A bucket that isn't in use: the last of all.
    fn free_bucket(&self) -> BucketNumber
        requires arena { IsArena self.now }
        requires free { HasFree self.now.buckets.items }
        ensures within { result.0 < length self.now.buckets.items }
        ensures free { count_of self.now.buckets.items result.0 ≡ free_count }
    {
        self.steps.last().unwrap()
    }

    // The last entry in a bucket.
    fn last_in(&self, bucket: Option<BucketNumber>) -> Option<EntryNumber>
        requires { IfSome bucket (λ b. b.0 < length self.now.buckets.items) }
        ensures { result ≡ option_map (λ b. (slice_index_or self.now.buckets.items b.0 no_bucket).last) bucket }
    {
        match bucket {
            Some(bucket) => Some(self.buckets[bucket.index()].last),
            None => None,
        }
    }

    // Writes a bucket.
    fn write_bucket(&mut self, bucket: BucketNumber, count: u64, last: EntryNumber)
        requires { bucket.0 < length self.old.buckets.items }
        ensures slots { self.new.slots ≡ self.old.slots }
        ensures order { self.new.order ≡ self.old.order }
        ensures steps { self.new.steps ≡ self.old.steps }
        ensures buckets { self.new.buckets.items ≡ begun self.old.buckets.items bucket.0 count last }
    {
        self.buckets[bucket.index()] = Bucket { count, last };
    }

    // Writes an entry to its slot.
    fn write_slot(&mut self, number: EntryNumber, entry: Entry, bucket: BucketNumber)
        requires { number.0 < length self.old.slots.items }
        ensures slots { self.new.slots.items ≡ slice_set self.old.slots.items number.0 (slot_of entry bucket) }
        ensures memory { vec_capacity self.new.slots ≡ vec_capacity self.old.slots }
        ensures order { self.new.order ≡ self.old.order }
        ensures steps { self.new.steps ≡ self.old.steps }
        ensures buckets { self.new.buckets ≡ self.old.buckets }
    {
        self.slots[number.index()] = Slot {
            key: entry.key,
            error: entry.error,
            bucket,
        };
        self.recent.push(bucket);
    }
}
