//! Indexes of keys, compared with plain lists of the same keys.

ghost use Rattle.std.specs.Prelude.{◌≡◌, map};
ghost use Rattle.key_index.specs.{HaveTurnedAway, HoldsKeys};

use super::next;
use key_index::{KeyIndex, Keyed, Seen, appended_key_is_missing};
use std::alloc::Global;
use std::marker::Model;
use std::test::Fail;

/// What has a key and no more.
#[derive(Clone, Copy)]
struct Holder {
    key: u64,
}

impl Keyed for Holder {
    ghost key_of = { λ holder. holder.key };

    fn key(&self) -> u64 {
        self.key
    }
}

/// A list and an index of its keys.
#[derive(Drop)]
struct IndexedList {
    room: usize,
    index: KeyIndex,
    list: Vec<Holder>,
}

impl Model for IndexedList {
    ghost use Rattle.std.specs.Prelude.{ℕ, ◌≡◌, map};
    ghost use Rattle.key_index.specs.{HoldsKeys};

    ghost Value = { ℕ };

    ghost view = { λ i. i.room };

    ghost invariant = { λ i. (i.index.room ≡ i.room) × HoldsKeys (map (λ holder. holder.key) i.list.items) i.index };
}

impl IndexedList {
    fn with_room(alloc: Global, room: usize) -> Result<IndexedList, Fail> {
        if room == 0 || room > 8192 {
            return Err("too little or too much room".into());
        }
        let index = KeyIndex::with_room(alloc, room)?;
        let list = Vec::with_capacity(alloc, room)?;
        Ok(IndexedList { room, index, list })
    }

    /// Appends a key, from where a search for it stops.
    fn append(&mut self, key: u64) -> Result<(), Fail> {
        let place = self.list.len();
        if place >= self.room {
            return Err("no room for one more".into());
        }
        let seen = seen_of(&self.index, &self.list, key);
        appended_key_is_missing();
        self.list.push(Holder { key })?;
        self.index.enter(&self.list, place, seen);
        Ok(())
    }

    /// Puts a key in the place of another, from where a search for it stops.
    fn replace(&mut self, place: usize, key: u64) {
        if place < self.list.len() {
            let seen = seen_of(&self.index, &self.list, key);
            self.index.leave(&self.list, place);
            self.list[place] = Holder { key };
            self.index.enter(&self.list, place, seen);
        }
    }

    /// The place of a key, by the index.
    fn find(&self, key: u64) -> Option<usize> {
        self.index.find(&self.list, key).ok()
    }

    /// The place of a key in the list, as the index should find it.
    fn place_in_list(&self, key: u64) -> Option<usize> {
        for (place, holder) in self.list.iter().enumerate() {
            if holder.key == key {
                return Some(place);
            }
        }
        None
    }

    /// The key at a place.
    fn key_at(&self, place: usize) -> Option<u64> {
        self.list.get(place).map(|holder| holder.key)
    }

    /// Whether the index finds each key at its place in the list.
    fn finds_all(&self) -> bool {
        for (place, holder) in self.list.iter().enumerate() {
            if self.find(holder.key) != Some(place) {
                return false;
            }
        }
        true
    }
}

/// Where a search for a key stops, or nothing where the key is found.
fn seen_of(index: &KeyIndex, list: &[Holder], key: u64) -> Seen
    requires { HoldsKeys (map (λ holder. holder.key) list.now) index.now }
    ensures { HaveTurnedAway result key index.now }
{
    match index.find(list, key) {
        Ok(_) => Seen::nothing(),
        Err(seen) => seen,
    }
}

/// Whether an index has the places of a list through 2,000 turns in which a new key may replace another. All keys are
/// multiples of `step`.
fn follow_a_list(alloc: Global, room: usize, step: u64) -> Result<bool, Fail> {
    if room == 0 {
        return Err("no room".into());
    }
    let mut keys = IndexedList::with_room(alloc, room)?;
    for place in 0..room {
        keys.append((place as u64).wrapping_mul(step))?;
    }
    let mut random: u64 = 7;
    for _turn in 0..2000 {
        random = next(random);
        let place = (random >> 33) as usize % room;
        if !replace_one(&mut keys, place, (random >> 41).wrapping_mul(step)) {
            return Ok(false);
        }
    }
    Ok(keys.finds_all())
}

/// Puts a key in the place of another, unless it is in the list. Returns whether the index then finds what the list has.
fn replace_one(keys: &mut IndexedList, place: usize, key: u64) -> bool {
    let known = keys.place_in_list(key);
    if keys.find(key) != known {
        return false;
    }
    if known.is_some() {
        return true;
    }
    let gone = keys.key_at(place);
    keys.replace(place, key);
    keys.find(key) == Some(place) && gone.is_some_and(|gone| keys.find(gone).is_none())
}

#[test]
fn places_are_those_of_the_list(rt: HostRuntime) -> Result<(), Fail> {
    for room in [1, 2, 3, 16, 512] {
        assert!(rt; follow_lists(rt.alloc(), room)?, "room for {room}");
    }
    Ok(())
}

fn follow_lists(alloc: Global, room: usize) -> Result<bool, Fail> {
    Ok(
        follow_a_list(alloc, room, 1)?
            && follow_a_list(alloc, room, 1 << 24)?
            && follow_a_list(alloc, room, 1 << 41)?,
    )
}

/// What a turn multiplies by.
const MULTIPLIER: u64 = 0x9e37_79b9_7f4a_7c15;

/// One divided by an odd number, modulo 2^64 (Newton's method).
fn inverse_of(odd: u64) -> u64 {
    let mut inverse = odd;
    for _ in 0..6 {
        inverse = inverse.wrapping_mul(2u64.wrapping_sub(odd.wrapping_mul(inverse)));
    }
    inverse
}

/// The number of which the next turn makes this product. It lays the high half over the low one once more, which takes it
/// off again.
fn before_turn(product: u64) -> u64 {
    let factor = product.wrapping_mul(inverse_of(MULTIPLIER));
    factor ^ factor >> 32
}

/// What a turn makes of a number.
fn after_turn(number: u64) -> u64 {
    (number ^ number >> 32).wrapping_mul(MULTIPLIER)
}

#[test]
fn keys_that_share_homes_are_found(rt: HostRuntime) -> Result<(), Fail> {
    assert!(rt; finds_keys_of_one_home(rt.alloc())?, "one home");
    assert!(rt; finds_keys_behind_full_homes(rt.alloc())?, "full homes");
    assert!(rt; finds_keys_entered_near(rt.alloc())?, "near");
    Ok(())
}

/// Whether an index finds forty keys of which the first turn makes products that differ only in their low half, and no
/// other.
fn finds_keys_of_one_home(alloc: Global) -> Result<bool, Fail> {
    let mut keys = IndexedList::with_room(alloc, 512)?;
    for number in 0..40 {
        keys.append(before_turn((5 << 32) + number))?;
    }
    Ok(keys.finds_all() && keys.find(before_turn((5 << 32) + 40)).is_none())
}

/// Whether an index finds twelve keys all of whose homes have four other keys each, and no other: nothing but its list is
/// left for them. Then whether it finds what replaces them.
fn finds_keys_behind_full_homes(alloc: Global) -> Result<bool, Fail> {
    let mut keys = IndexedList::with_room(alloc, 512)?;
    for key in 1..13 {
        fill_homes_of(&mut keys, key)?;
    }
    for key in 1..13 {
        keys.append(key)?;
    }
    let found = keys.finds_all() && keys.find(13).is_none();
    Ok(
        found
            && replace_one(&mut keys, 384, 13)
            && replace_one(&mut keys, 395, 1)
            && keys.finds_all(),
    )
}

/// Whether an index finds all keys after one goes into its list where a search stopped: where the key belongs, one place
/// behind, in the middle and at the end, and where the search saw nothing of the list, since no key was turned away from the
/// full homes yet. The key `k`, 1 to 13, is at the place `k + 447`.
fn finds_keys_entered_near(alloc: Global) -> Result<bool, Fail> {
    let mut keys = IndexedList::with_room(alloc, 512)?;
    for key in 1..15 {
        fill_homes_of(&mut keys, key)?;
    }
    for key in 1..14 {
        keys.append(key)?;
    }
    let elsewhere = 1 << 40;
    Ok(
        // The key 6 goes and comes back. Then it goes again, and takes the place of the key 2, which stands before it.
        finds_all_after(&mut keys, 453, elsewhere)
            && finds_all_after(&mut keys, 453, 6)
            && finds_all_after(&mut keys, 453, elsewhere)
            && finds_all_after(&mut keys, 449, 6)
            // The last key goes, and takes the place of the one before it.
            && finds_all_after(&mut keys, 460, elsewhere + 1)
            && finds_all_after(&mut keys, 459, 13)
            // The key 2 belongs to the middle of the list. No key was turned away yet from the homes of the key 14.
            && finds_all_after(&mut keys, 460, 2)
            && finds_all_after(&mut keys, 453, 14),
    )
}

/// Puts a key in the place of another. Returns whether the index then finds all keys, and no longer the one that is gone.
fn finds_all_after(keys: &mut IndexedList, place: usize, key: u64) -> bool {
    let gone = keys.key_at(place);
    keys.replace(place, key);
    keys.finds_all() && gone.is_some_and(|gone| keys.find(gone).is_none())
}

/// Appends four keys to each of the eight homes of a key. Of 2,048 homes, the high 11 bits of a product name one.
fn fill_homes_of(keys: &mut IndexedList, key: u64) -> Result<(), Fail> {
    let mut number = key;
    for step in 0..32u64 {
        if step % 4 == 0 {
            number = after_turn(number);
        }
        keys.append(before_turn((number >> 53 << 53) | key << 5 | step))?;
    }
    Ok(())
}
