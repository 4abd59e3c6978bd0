ghost use Rattle.std.specs.Prelude.{◌≤◌};

mod key_indexes;
mod loser_trees;
mod made_records;
mod plain_tables;
mod rank_tables;
mod three_tables;

use space_saving::{Entry, Summary};
use std::alloc::Global;
use std::test::Fail;

/// A table of this capacity after some adds.
pub(crate) fn table_after<T: Summary + Drop>(
    alloc: Global,
    capacity: u32,
    adds: &[(u64, u32)],
) -> Result<T, Fail>
    requires least { 2 ≤ capacity }
    requires most { capacity ≤ 4096 }
{
    let mut table = T::with_capacity(alloc, capacity)?;
    for (key, weight) in adds {
        if *weight == 0 || table.total() >= 1 << 40 {
            return Err("no weight that can be added".into());
        }
        table.add(*key, *weight);
    }
    Ok(table)
}

/// Whether a table has these entries, in this order.
pub(crate) fn has_entries<T: Summary>(table: &T, entries: &[Entry]) -> bool {
    if table.len() != entries.len() {
        return false;
    }
    for (place, entry) in entries.iter().enumerate() {
        if place >= table.len() || table.entry(place) != *entry {
            return false;
        }
    }
    true
}

/// The number of entries, the capacity, the total, and whether each place is taken.
pub(crate) fn numbers_of<T: Summary>(table: &T) -> (usize, u32, u64, bool) {
    (table.len(), table.capacity(), table.total(), table.full())
}

/// The next state of a linear congruential generator.
pub(crate) fn next(random: u64) -> u64 {
    random
        .wrapping_mul(6364136223846793005)
        .wrapping_add(1442695040888963407)
}
