//! The intervals of merged tables, as input for bounds.

use conditioned_bounds::Intervals;
use cut_merge::Merged;
use prefix_lattice::{Grain, Prefix};

/// The intervals of merged tables.
#[derive(Clone, Copy)]
pub(crate) struct MergedIntervals<'a> {
    pub(crate) merged: &'a Merged,
}

impl Intervals for MergedIntervals<'_> {
    ghost use Rattle.hhh_output.specs.Selecting.{low_of, high_of};

    ghost low = { λ s. low_of s.merged.now };

    ghost high = { λ s. high_of s.merged.now };

    ghost grain_of = { λ s. s.merged.now.shape.grain };

    fn grain(&self) -> Grain {
        self.merged.grain()
    }

    fn interval(&self, prefix: &Prefix) -> (u64, u64) {
        self.merged.interval(prefix)
    }
}
