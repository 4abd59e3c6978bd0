//! Entries that leave their buckets.

ghost use Rattle.std.specs.Prelude.{◌≡◌, ◌≢◌, ◌<◌, ◌≤◌, ◌++◌, ◌∷◌, [], ℕ, List, MatchOption, IfSome, length, slice_index_or};
ghost use Rattle.stream_summary.specs.Lists.{Pairwise};
ghost use Rattle.stream_summary.specs.Ring.{IsIn, IsLastOf};
ghost use Rattle.stream_summary.specs.Buckets.{IsBelow, bucket_of, count_of};
ghost use Rattle.stream_summary.specs.Arena.{IsArena, IsTakenOut, given_back, with_last};

use crate::arena::Arena;
use crate::numbers::{BucketNumber, EntryNumber, Number};
use crate::slot::{Bucket, FREE};

impl Arena {
    /// Takes an entry out of its bucket and out of the order. A bucket that has no entry then is free. The answer is where
    /// a search for a greater count may begin.
    pub(crate) fn take_out(&mut self, number: EntryNumber) -> Option<BucketNumber>
        requires arena { IsArena self.old }
        requires stands { IsIn number.0 self.old.order.order }
        ensures arena { IsArena self.new }
        ensures slots { self.new.slots ≡ self.old.slots }
        ensures buckets { length self.new.buckets.items ≡ length self.old.buckets.items }
        ensures taken { IsTakenOut number.0 self.old self.new }
        ensures within { IfSome result (λ b. b.0 < length self.new.buckets.items) }
        ensures below { IfSome result (λ b. count_of self.new.buckets.items b.0
            ≤ count_of self.old.buckets.items (bucket_of self.old.slots.items number.0)) }
    {
        let bucket = self.bucket_of(number);
        let before = self.entry_before(number, bucket);
        self.order.remove(number);
        if self.last_of(bucket) != number {
            return Some(bucket);
        }
        match before {
            Some(before) => {
                self.set_last(bucket, before);
                Some(bucket)
            }
            None => self.give_back(bucket),
        }
    }

    // The entry right before this one, if it is in that bucket.
    fn entry_before(&self, number: EntryNumber, bucket: BucketNumber) -> Option<EntryNumber>
        requires arena { IsArena self.now }
        requires stands { IsIn number.0 self.now.order.order }
        ensures { (front back : List ℕ) → self.now.order.order ≡ front ++ number.0 ∷ back
            → MatchOption result ((other : ℕ) → IsLastOf other front → bucket_of self.now.slots.items other ≢ bucket.0)
            (λ before. IsLastOf before.0 front × (bucket_of self.now.slots.items before.0 ≡ bucket.0)) }
    {
        let Some(before) = self.order.before(number) else {
            return None;
        };
        if self.bucket_of(before) == bucket {
            Some(before)
        } else {
            None
        }
    }

    // Makes an entry the last one of a bucket.
    fn set_last(&mut self, bucket: BucketNumber, last: EntryNumber)
        requires { bucket.0 < length self.old.buckets.items }
        ensures slots { self.new.slots ≡ self.old.slots }
        ensures order { self.new.order ≡ self.old.order }
        ensures steps { self.new.steps ≡ self.old.steps }
        ensures buckets { self.new.buckets.items ≡ with_last self.old.buckets.items bucket.0 last }
    {
        self.buckets[bucket.index()].last = last;
    }

    // Makes a bucket that has no entry free, so the last of all. The answer is the bucket before it.
    fn give_back(&mut self, bucket: BucketNumber) -> Option<BucketNumber>
        requires within { bucket.0 < length self.old.buckets.items }
        requires room { self.old.steps.room ≡ length self.old.buckets.items }
        requires stands { IsIn bucket.0 self.old.steps.order }
        requires apart { Pairwise (IsBelow (count_of self.old.buckets.items)) self.old.steps.order }
        ensures slots { self.new.slots ≡ self.old.slots }
        ensures order { self.new.order ≡ self.old.order }
        ensures room { self.new.steps.room ≡ self.old.steps.room }
        ensures buckets { self.new.buckets.items ≡ given_back self.old.buckets.items bucket.0 }
        ensures steps { (front back : List ℕ) → self.old.steps.order ≡ front ++ bucket.0 ∷ back
            → self.new.steps.order ≡ (front ++ back) ++ bucket.0 ∷ [] }
        ensures before { (front back : List ℕ) → self.old.steps.order ≡ front ++ bucket.0 ∷ back
            → MatchOption result (front ≡ []) (λ before. IsLastOf before.0 front) }
    {
        let before = self.steps.before(bucket);
        self.steps.remove(bucket);
        self.steps.push(bucket);
        self.buckets[bucket.index()].count = FREE;
        before
    }
}
