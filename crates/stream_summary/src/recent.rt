//! Hints where a search for a bucket may begin.

use crate::numbers::{BucketNumber, Number};

/// How many buckets are remembered.
const REMEMBERED: usize = 4;

/// The buckets to which entries went last. New keys that take over entries of nearly equal counts go to buckets near each
/// other, so a walk from the nearest of these is a fifth as long as one from the bucket that was left. They are hints alone: a
/// bucket may have been given back since, or begun for another count, so whoever uses one looks at its count.
#[derive(Clone, Copy)]
pub(crate) struct Recent {
    /// The numbers of the buckets, in no order.
    pub buckets: [BucketNumber; REMEMBERED],
    // Which is replaced next, if it is the index of one.
    next: usize,
}

impl Recent {
    /// Hints where no entry went anywhere: at the first bucket, four times.
    pub(crate) fn none() -> Recent {
        Recent {
            buckets: [BucketNumber::from_index(0); REMEMBERED],
            next: 0,
        }
    }

    /// Remembers a bucket, in place of the one that was remembered first.
    pub(crate) fn push(&mut self, bucket: BucketNumber) {
        let place = self.next % REMEMBERED;
        self.buckets[place] = bucket;
        self.next = place + 1;
    }
}
