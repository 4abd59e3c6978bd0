//! Indexes in a list of entries whose counts rise: that of a key, and that at which an entry is inserted.

ghost use Rattle.std.specs.Prelude.{◌≡◌, ◌+◌, ◌<◌, ◌≤◌, ◌++◌, None, MatchOption, length, insert, take, drop};
ghost use Rattle.space_saving.specs.Places.{IsPlaceOf};
ghost use Rattle.space_saving.specs.Summary.{put_into, table_entry};

use crate::Entry;

/// The index of the first entry of this key, if there is one.
pub(crate) fn place_of(entries: &[Entry], key: u64) -> Option<usize>
    ensures { MatchOption result (table_entry key entries.now ≡ None) (IsPlaceOf key entries.now) }
{
    for (place, entry) in entries.iter().enumerate() {
        if entry.key == key {
            return Some(place);
        }
    }
    None
}

/// The index at which this entry is inserted: after every entry whose count is at most its own.
pub(crate) fn place_for(entries: &[Entry], new: &Entry) -> usize
    ensures within { result ≤ length entries.now }
    ensures place { put_into new.now entries.now ≡ insert entries.now result new.now }
{
    for (place, entry) in entries.iter().enumerate() {
        if new.count < entry.count {
            return place;
        }
    }
    entries.len()
}

/// Removes the entry at index `from`, and inserts a new one by its count, at that index or later. The entries between
/// the two indexes move down by one.
pub(crate) fn settle(entries: &mut [Entry], from: usize, new: Entry)
    requires { from < length entries.old }
    ensures { entries.new ≡ take from entries.old ++ put_into new (drop (from + 1) entries.old) }
{
    let mut place = from;
    while place + 1 < entries.len() && entries[place + 1].count <= new.count {
        entries[place] = entries[place + 1];
        place += 1;
    }
    entries[place] = new;
}
