//! One step of Space-Saving on a list of entries.

ghost use Rattle.std.specs.Prelude.{◌≡◌, ◌+◌, ◌<◌, ◌≤◌, vec_capacity};
ghost use Rattle.space_saving.specs.Summary.{after_step, table_total, IsTable, table_limit};

use crate::Entry;
use crate::places::{place_for, place_of, settle};

/// Adds a weight for a key: its entry moves up, or a new entry takes free room, or a new entry replaces the head.
pub(crate) fn add_weight(entries: &mut Vec<Entry>, capacity: usize, key: u64, weight: u64)
    requires some { 1 ≤ capacity }
    requires reserved { capacity ≤ vec_capacity entries.old }
    requires table { IsTable capacity entries.old.items }
    requires room { table_total entries.old.items + weight < table_limit }
    ensures stepped { entries.new.items
        ≡ after_step capacity entries.old.items (record { key = key; weight = weight }) }
    ensures still_reserved { capacity ≤ vec_capacity entries.new }
{
    match place_of(entries, key) {
        Some(place) => {
            let entry = entries[place];
            let count = entry.count + weight;
            settle(entries, place, Entry { count, ..entry });
        }
        None if entries.len() < capacity => {
            let entry = Entry {
                key,
                count: weight,
                error: 0,
            };
            let place = place_for(entries, &entry);
            entries.insert(place, entry).unwrap();
        }
        None => {
            let least = entries[0].count;
            let entry = Entry {
                key,
                count: least + weight,
                error: least,
            };
            settle(entries, 0, entry);
        }
    }
}
