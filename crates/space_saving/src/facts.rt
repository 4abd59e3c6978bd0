//! Whether entries from outside are those of a table.

ghost use Rattle.std.specs.Prelude.{◌≡◌, ◌<◌, ◌≤◌, ◌↔◌, IsTrue, All};
ghost use Rattle.std.specs.Option.{SomeIff};
ghost use Rattle.space_saving.specs.Summary.{table_total, HasSmallError, IsTable, RisesFrom};
ghost use Rattle.space_saving.specs.Summary.{most_capacity, table_limit};

use crate::Entry;
use crate::keys::are_apart;

/// The total of a table is below this number.
const TOTAL_LIMIT: u64 = 1 << 56;

/// The sum of the counts, if it is below 2^56.
pub(crate) fn total_of(entries: &[Entry]) -> Option<u64>
    ensures { SomeIff result (table_total entries.now < table_limit) (table_total entries.now) }
{
    let mut total: u64 = 0;
    for entry in entries {
        if entry.count >= TOTAL_LIMIT - total {
            return None;
        }
        total += entry.count;
    }
    Some(total)
}

/// Whether these entries, whose counts add up to `total`, are those of a table of this capacity.
pub(crate) fn is_table(capacity: u32, total: u64, entries: &[Entry]) -> bool
    requires some { 1 ≤ capacity }
    requires most { capacity ≤ most_capacity }
    requires total { total ≡ table_total entries.now }
    ensures { IsTrue result ↔ IsTable capacity entries.now }
{
    entries.len() <= capacity as usize
        && rises(entries)
        && are_apart(entries)
        && has_small_errors(u64::from(capacity), total, entries)
}

/// Whether the counts never fall.
fn rises(entries: &[Entry]) -> bool
    ensures { IsTrue result ↔ RisesFrom 0 entries.now }
{
    let mut least = 0;
    for entry in entries {
        if entry.count < least {
            return false;
        }
        least = entry.count;
    }
    true
}

/// Whether each error is below its count and, times the capacity, at most the total.
fn has_small_errors(capacity: u64, total: u64, entries: &[Entry]) -> bool
    requires { 1 ≤ capacity }
    ensures { IsTrue result ↔ All (HasSmallError capacity total) entries.now }
{
    for entry in entries {
        if !has_small_error(capacity, total, entry) {
            return false;
        }
    }
    true
}

fn has_small_error(capacity: u64, total: u64, entry: &Entry) -> bool
    requires { 1 ≤ capacity }
    ensures { IsTrue result ↔ HasSmallError capacity total entry.now }
{
    entry.error < entry.count && entry.error <= total / capacity
}
