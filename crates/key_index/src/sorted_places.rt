//! Lists of places in the order of their keys.

ghost use Rattle.std.specs.Prelude.{◌≡◌, ◌≢◌, ◌+◌, ◌-◌, ◌*◌, ◌^◌, ◌<◌, ◌≤◌, ◌⊎◌, ◌↔◌, ℕ, All, IfOk, IfErr, IsTrue, length, map};
ghost use Rattle.std.specs.Prelude.{slice_index};
ghost use Rattle.std.specs.Prelude.{vec_len, vec_capacity};
ghost use Rattle.key_index.specs.SortedPlaces.{HasLess, HasMore, IsListed, Rises, Splits, standing};

use crate::keyed::{Keyed, key_at};

/// Where this place of the key stands in the order.
fn standing_of(key: u64, place: usize) -> u128
    requires { place < 2 ^ 16 }
    ensures { result ≡ standing key place }
{
    u128::from(key) * 65_536 + place as u128
}

/// Whether the place at an index of the list stands before a number.
fn is_before<T: Keyed>(listed: &[u16], slots: &[T], number: u128, index: usize) -> bool
    requires few { length slots.now < 2 ^ 16 }
    requires places { All (λ place. place < length slots.now) listed.now }
    requires within { index < length listed.now }
    ensures { IsTrue result ↔ (standing (slice_index (map T.key_of slots.now) (slice_index listed.now index)) (slice_index listed.now index)
        < number) }
{
    let place = usize::from(listed[index]);
    standing_of(key_at(slots, place), place) < number
}

/// Where the window of a search begins after a look at the last place of its first half: behind it if that place stands
/// before the number.
fn next_from<T: Keyed>(listed: &[u16], slots: &[T], number: u128, from: usize, half: usize) -> usize
    requires few { length slots.now < 2 ^ 16 }
    requires places { All (λ place. place < length slots.now) listed.now }
    requires some { 1 ≤ half }
    requires within { from + half ≤ length listed.now }
    ensures { ((result ≡ from) × (number ≤ standing (slice_index (map T.key_of slots.now) (slice_index listed.now (from + half - 1)))
        (slice_index listed.now (from + half - 1))))
        ⊎ ((result ≡ from + half) × (standing (slice_index (map T.key_of slots.now) (slice_index listed.now (from + half - 1)))
        (slice_index listed.now (from + half - 1)) < number)) }
{
    if is_before(listed, slots, number, from + half - 1) {
        from + half
    } else {
        from
    }
}

/// How many of the places stand before this place of the key. Each round halves the window, so the length of the list
/// alone fixes how many rounds there are.
fn first_from<T: Keyed>(listed: &[u16], slots: &[T], key: u64, place: usize) -> usize
    requires few { length slots.now < 2 ^ 16 }
    requires place { place < 2 ^ 16 }
    requires places { All (λ place. place < length slots.now) listed.now }
    ensures within { result ≤ length listed.now }
    ensures splits { Rises (map T.key_of slots.now) listed.now → Splits (map T.key_of slots.now) listed.now (standing key place) result }
{
    let number = standing_of(key, place);
    let mut from = 0;
    let mut size = listed.len();
    while size > 1 {
        let half = size / 2;
        from = next_from(listed, slots, number, from, half);
        size -= half;
    }
    if size == 1 {
        return next_from(listed, slots, number, from, 1);
    }
    from
}

/// Whether exactly as many places stand before a number as this index says.
fn belongs_at<T: Keyed>(listed: &[u16], slots: &[T], number: u128, at: usize) -> bool
    requires few { length slots.now < 2 ^ 16 }
    requires places { All (λ place. place < length slots.now) listed.now }
    ensures within { IsTrue result → at ≤ length listed.now }
    ensures low { IsTrue result → 1 ≤ at
        → standing (slice_index (map T.key_of slots.now) (slice_index listed.now (at - 1))) (slice_index listed.now (at - 1)) < number }
    ensures high { IsTrue result → at < length listed.now
        → number ≤ standing (slice_index (map T.key_of slots.now) (slice_index listed.now at)) (slice_index listed.now at) }
{
    at <= listed.len()
        && (at == 0 || is_before(listed, slots, number, at - 1))
        && (at == listed.len() || !is_before(listed, slots, number, at))
}

/// What `first_from` says. Nearly always it is what a search for the key found before, or one less, if the place that
/// was taken out of the list meanwhile stood before the key: both are tried first.
fn first_near<T: Keyed>(listed: &[u16], slots: &[T], key: u64, place: usize, near: usize) -> usize
    requires few { length slots.now < 2 ^ 16 }
    requires place { place < 2 ^ 16 }
    requires places { All (λ place. place < length slots.now) listed.now }
    ensures within { result ≤ length listed.now }
    ensures splits { Rises (map T.key_of slots.now) listed.now → Splits (map T.key_of slots.now) listed.now (standing key place) result }
{
    let number = standing_of(key, place);
    if belongs_at(listed, slots, number, near) {
        return near;
    }
    if near > 0 && belongs_at(listed, slots, number, near - 1) {
        return near - 1;
    }
    first_from(listed, slots, key, place)
}

/// A place of the key in the list, or how many places stand before the key, which has none there.
pub(crate) fn find<T: Keyed>(listed: &[u16], slots: &[T], key: u64) -> Result<usize, usize>
    requires few { length slots.now < 2 ^ 16 }
    requires places { All (λ place. place < length slots.now) listed.now }
    ensures within { IfOk result (λ place. place < length slots.now) }
    ensures found { IfOk result (λ place. slice_index (map T.key_of slots.now) place ≡ key) }
    ensures missing { IfErr result (λ _. Rises (map T.key_of slots.now) listed.now
        → (place : ℕ) → IsListed listed.now place → slice_index (map T.key_of slots.now) place ≢ key) }
{
    let at = first_from(listed, slots, key, 0);
    if at == listed.len() {
        return Err(at);
    }
    let place = usize::from(listed[at]);
    if key_at(slots, place) == key {
        return Ok(place);
    }
    Err(at)
}

/// Puts a place into the list, which has memory for it. `near` is where a search for its key ended.
pub(crate) fn insert<T: Keyed>(listed: &mut Vec<u16>, slots: &[T], place: usize, near: usize)
    requires few { length slots.now < 2 ^ 16 }
    requires place { place < length slots.now }
    requires places { All (λ place. place < length slots.now) listed.old.items }
    requires memory { vec_len listed.old < vec_capacity listed.old }
    ensures more { HasMore (map T.key_of slots.now) listed.old.items listed.new.items place }
    ensures length { vec_len listed.new ≡ vec_len listed.old + 1 }
    ensures capacity { vec_capacity listed.new ≡ vec_capacity listed.old }
    ensures places { All (λ place. place < length slots.now) listed.new.items }
{
    let at = first_near(listed, slots, key_at(slots, place), place, near);
    listed.insert(at, place as u16).unwrap();
}

/// Takes a place out of the list. It stays a function of its own in the binary, since few places are in the list.
#[inline(never)]
pub(crate) fn remove<T: Keyed>(listed: &mut Vec<u16>, slots: &[T], place: usize)
    requires few { length slots.now < 2 ^ 16 }
    requires place { place < length slots.now }
    requires places { All (λ place. place < length slots.now) listed.old.items }
    requires rises { Rises (map T.key_of slots.now) listed.old.items }
    requires listed { IsListed listed.old.items place }
    ensures less { HasLess (map T.key_of slots.now) listed.old.items listed.new.items place }
    ensures length { vec_len listed.new + 1 ≡ vec_len listed.old }
    ensures capacity { vec_capacity listed.new ≡ vec_capacity listed.old }
    ensures places { All (λ place. place < length slots.now) listed.new.items }
{
    let at = first_from(listed, slots, key_at(slots, place), place);
    listed.remove(at);
}
