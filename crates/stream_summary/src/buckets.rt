//! Buckets by their counts.

ghost use Rattle.std.specs.Prelude.{◌≡◌, ◌+◌, ◌-◌, ◌<◌, ◌≤◌, ℕ, length, IfSome, IfNone, MatchOption};
ghost use Rattle.stream_summary.specs.Buckets.{count_of, free_count};
ghost use Rattle.stream_summary.specs.Arena.{IsArena, IsLastUpTo};

use crate::arena::Arena;
use crate::numbers::{BucketNumber, Number};

impl Arena {
    /// The bucket with the greatest count of at most this one. The search begins at `from`, whose count is at most that
    /// too, or at the first bucket.
    pub(crate) fn bucket_up_to(
        &self,
        from: Option<BucketNumber>,
        count: u64,
    ) -> Option<BucketNumber>
        requires arena { IsArena self.now }
        requires counts { count < free_count }
        requires from { IfSome from (λ b. b.0 < length self.now.buckets.items) }
        requires below { IfSome from (λ b. count_of self.now.buckets.items b.0 ≤ count) }
        ensures within { IfSome result (λ b. b.0 < length self.now.buckets.items) }
        ensures below { IfSome result (λ b. count_of self.now.buckets.items b.0 ≤ count) }
        ensures last { IsLastUpTo self.now.buckets.items count result }
    {
        let mut found = from;
        while let Some(next) = self.next_up_to(found, count) {
            found = Some(next);
        }
        found
    }

    // The bucket that follows this one, or the first bucket, if its count is at most that count.
    fn next_up_to(&self, bucket: Option<BucketNumber>, count: u64) -> Option<BucketNumber>
        requires arena { IsArena self.now }
        requires counts { count < free_count }
        requires within { IfSome bucket (λ b. b.0 < length self.now.buckets.items) }
        requires below { IfSome bucket (λ b. count_of self.now.buckets.items b.0 ≤ count) }
        ensures within { IfSome result (λ b. b.0 < length self.now.buckets.items) }
        ensures below { IfSome result (λ b. count_of self.now.buckets.items b.0 ≤ count) }
        ensures above { IfSome result (λ b. IfSome bucket (λ a.
            count_of self.now.buckets.items a.0 < count_of self.now.buckets.items b.0)) }
        ensures last { IfNone result (IsLastUpTo self.now.buckets.items count bucket) }
    {
        let Some(next) = self.bucket_after(bucket) else {
            return None;
        };
        if self.buckets[next.index()].count <= count {
            Some(next)
        } else {
            None
        }
    }

    // The bucket that follows this one, or the first bucket.
    fn bucket_after(&self, bucket: Option<BucketNumber>) -> Option<BucketNumber>
        requires arena { IsArena self.now }
        requires within { IfSome bucket (λ b. b.0 < length self.now.buckets.items) }
        requires used { IfSome bucket (λ b. count_of self.now.buckets.items b.0 < free_count) }
        ensures within { IfSome result (λ b. b.0 < length self.now.buckets.items) }
        ensures above { IfSome result (λ b. IfSome bucket (λ a.
            count_of self.now.buckets.items a.0 < count_of self.now.buckets.items b.0)) }
        ensures next { (other : ℕ) → other < length self.now.buckets.items
            → IfSome bucket (λ a. count_of self.now.buckets.items a.0 < count_of self.now.buckets.items other)
            → MatchOption result ⊥ (λ b. count_of self.now.buckets.items b.0 ≤ count_of self.now.buckets.items other) }
    {
        match bucket {
            Some(bucket) => self.steps.after(bucket),
            None => self.steps.first(),
        }
    }
}
