//! Upper bounds on the highs of keys, so that few keys need a search.

ghost use Rattle.std.specs.Prelude.{◌≡◌, ◌+◌, ◌<◌, ℕ, min, IfOk};
ghost use Rattle.cut_merge.specs.HighBounds.{bound_home, bound_cell, cell_count};
ghost use Rattle.cut_merge.specs.HighBounds.{greatest_bound, NoteKey, AddMissing, high_bound};

use std::alloc::{AllocError, Global};
use std::marker::Model;

/// How many cells there are. Four tables of 512 entries fill half of them.
const CELLS: usize = 4096;

/// Spreads keys over the cells. Any odd number is right; that of the golden ratio separates successive keys.
const MULTIPLIER: u64 = 0x9e37_79b9_7f4a_7c15;

/// Upper bounds on the highs of keys. A key has its home in one of some cells. A cell sums up what entries add to the
/// highs of the keys whose home it is, beyond the highs of missing keys. Keys that share a home share a bound, which is
/// too high for each of them: that may cost a search, but changes no interval.
#[derive(Drop)]
pub(crate) struct HighBounds {
    cells: Vec<u64>,
    missing: u64,
}

impl Model for HighBounds {
    ghost use Rattle.std.specs.Prelude.{◌≡◌, length};
    ghost use Rattle.cut_merge.specs.HighBounds.{BoundsValue, cell_count};

    ghost Value = { BoundsValue };

    ghost view = { λ b. record { cells = b.cells.items; missing = b.missing } };

    ghost invariant = { λ b. length b.cells.items ≡ cell_count };
}

impl HighBounds {
    /// No entry is counted yet. The only error is that memory runs out.
    pub(crate) fn new(alloc: Global) -> Result<HighBounds, AllocError> {
        let mut cells = Vec::with_capacity(alloc, CELLS)?;
        for _ in 0..CELLS {
            cells.push(0)?;
        }
        Ok(HighBounds { cells, missing: 0 })
    }

    /// The bound on the high of a key.
    pub(crate) fn at_most(&self, key: u64) -> u64
        ensures { result ≡ high_bound self.now key }
    {
        self.missing.saturating_add(self.cells[home_of(key)])
    }

    /// Raises all bounds by the high of a missing key in one more table.
    pub(crate) fn add_missing(&mut self, missing: u64)
        ensures { AddMissing self.old self.new missing }
    {
        self.missing = self.missing.saturating_add(missing);
    }

    /// Counts an entry of a key, whose high exceeds that of a missing key by this much.
    pub(crate) fn note(&mut self, key: u64, excess: u64)
        ensures { NoteKey self.old self.new key excess }
    {
        let home = home_of(key);
        self.cells[home] = self.cells[home].saturating_add(excess);
    }
}

// The home of a key: the twelve highest bits of its product with the multiplier.
fn home_of(key: u64) -> usize
    ensures value { result ≡ bound_home key }
    ensures within { result < cell_count }
{
    (key.wrapping_mul(MULTIPLIER) >> 52) as usize
}
