//! Whether keys of entries are distinct.

ghost use Rattle.std.specs.Prelude.{◌≡◌, ◌≤◌, ◌↔◌, IsTrue, length, map, IsPermutation, IsSorted};
ghost use Rattle.std.specs.List.Sorted.{IsStrictlyIncreasing};
ghost use Rattle.std.specs.Ordering.{nat_cmp};
ghost use Rattle.space_saving.specs.Summary.{KeysApart, most_capacity};

use crate::Entry;

/// The most entries that a table can have.
const MOST_ENTRIES: usize = 4096;

/// Whether no two entries have the same key. The keys are sorted on the stack: it allocates no memory, and no choice of
/// keys makes it slow.
pub(crate) fn are_apart(entries: &[Entry]) -> bool
    requires { length entries.now ≤ most_capacity }
    ensures { IsTrue result ↔ KeysApart entries.now }
{
    let mut room = room_for_keys();
    are_apart_in(&mut room[..entries.len()], entries)
}

/// Room for the keys of a table. It has a function of its own so that the array is part of no other proof goal.
fn room_for_keys() -> [u64; MOST_ENTRIES] {
    [0; MOST_ENTRIES]
}

/// Whether no two entries have the same key. It overwrites `keys`, which has as many numbers as there are entries.
fn are_apart_in(keys: &mut [u64], entries: &[Entry]) -> bool
    requires { length keys.old ≡ length entries.now }
    ensures { IsTrue result ↔ KeysApart entries.now }
{
    write_sorted_keys(keys, entries);
    rise_strictly(keys)
}

/// Overwrites these numbers with the keys of the entries, in rising order.
fn write_sorted_keys(keys: &mut [u64], entries: &[Entry])
    requires { length keys.old ≡ length entries.now }
    ensures permutation { IsPermutation (map (λ entry. entry.key) entries.now) keys.new }
    ensures sorted { IsSorted nat_cmp keys.new }
{
    write_keys(keys, entries);
    keys.sort_unstable();
}

fn write_keys(keys: &mut [u64], entries: &[Entry])
    requires { length keys.old ≡ length entries.now }
    ensures { keys.new ≡ map (λ entry. entry.key) entries.now }
{
    for (place, entry) in entries.iter().enumerate() {
        keys[place] = entry.key;
    }
}

/// Whether each number is below the next.
fn rise_strictly(keys: &[u64]) -> bool
    ensures { IsTrue result ↔ IsStrictlyIncreasing keys.now }
{
    for place in 1..keys.len() {
        if keys[place - 1] >= keys[place] {
            return false;
        }
    }
    true
}
