//! Chains of places, one for each home. A cell leads to the next place of a chain, and each place knows the cell that
//! leads to it, so that a place leaves its chain without a search.

ghost use Rattle.std.specs.Prelude.{◌≡◌, ◌≢◌, ◌+◌, ◌-◌, ◌*◌, ◌^◌, ◌<◌, ◌≤◌, ◌↔◌, ℕ, List, All, IfOk, IfSome, IfNone, IsTrue};
ghost use Rattle.std.specs.Prelude.{length, map, replicate, slice_index, slice_set, true, if◌then◌else◌};
ghost use Rattle.key_index.specs.Chains.{AreChains, HasPassed, HaveShape, IsLinked};

use crate::homes::HOMES_A_KEY;
use crate::keyed::{Keyed, key_at};
use std::alloc::{AllocError, Global};
use std::marker::Model;

/// The chain of a home has at most this many places.
const PLACES_A_HOME: usize = 4;

/// Cells in a row, one for each place and then one for each home, and the way back to each place.
#[derive(Drop)]
pub(crate) struct KeyChains {
    room: usize,
    links: Vec<u16>,
    backs: Vec<u16>,
}

impl Model for KeyChains {
    ghost use Rattle.key_index.specs.Chains.{Chains, HaveShape};

    ghost Value = { Chains };

    ghost view = { λ c. record { room = c.room; links = c.links.items; backs = c.backs.items } };

    ghost invariant = { λ c. HaveShape c.room c.links.items c.backs.items };
}

impl KeyChains {
    /// Empty chains for as many places as `room`.
    pub(crate) fn with_room(alloc: Global, room: usize) -> Result<KeyChains, AllocError>
        requires some { 1 ≤ room }
        requires few { room ≤ 8192 }
        ensures empty { IfOk result
            (λ chains. chains ≡ record { room = room; links = replicate (5 * room) 0; backs = replicate (room + 1) 0 }) }
        ensures shape { IfOk result (λ chains. HaveShape chains.room chains.links chains.backs) }
    {
        let links = vec![in alloc; 0u16; (1 + HOMES_A_KEY) * room]?;
        let backs = vec![in alloc; 0u16; room + 1]?;
        Ok(KeyChains { room, links, backs })
    }

    /// A place of the key in the chain of this home. It passes at most four keys, each once.
    pub(crate) fn place_of<T: Keyed>(&self, slots: &[T], key: u64, home: usize) -> Option<usize>
        requires home { home < 4 * self.now.room }
        requires some { 0 < length slots.now }
        requires few { length slots.now ≤ self.now.room }
        requires marks { All (λ mark. mark ≤ length slots.now) self.now.links }
        ensures within { IfSome result (λ place. place < length slots.now) }
        ensures found { IfSome result (λ place. slice_index (map T.key_of slots.now) place ≡ key) }
        ensures missing { IfNone result ((rank home_of : ℕ → ℕ) → AreChains self.now.room self.now.links self.now.backs rank home_of
            → (place : ℕ) → IsLinked self.now.backs place → home_of place ≡ self.now.room + home → slice_index (map T.key_of slots.now) place ≢ key) }
    {
        place_in_chain(&self.links, slots, key, self.room + home)
    }

    /// Whether the chain of this home has four places.
    pub(crate) fn is_full(&self, home: usize) -> bool
        requires home { home < 4 * self.now.room }
        ensures { (rank home_of : ℕ → ℕ) → AreChains self.now.room self.now.links self.now.backs rank home_of
            → (IsTrue result ↔ (4 ≤ rank (self.now.room + home))) }
    {
        is_full_chain(&self.links, self.room + home)
    }

    /// Whether the chain of this home has at most one place, which is known without a walk.
    pub(crate) fn is_short(&self, home: usize) -> bool
        requires home { home < 4 * self.now.room }
        ensures { (rank home_of : ℕ → ℕ) → AreChains self.now.room self.now.links self.now.backs rank home_of
            → IsTrue result → rank (self.now.room + home) ≤ 1 }
    {
        is_short_chain(&self.links, self.room + home)
    }

    /// Whether the place is in a chain.
    pub(crate) fn has(&self, place: usize) -> bool
        requires { place < self.now.room }
        ensures { IsTrue result ↔ IsLinked self.now.backs place }
    {
        self.backs[place + 1] != 0
    }

    /// Puts the place at the front of the home's chain.
    pub(crate) fn link(&mut self, place: usize, home: usize)
        requires place { place < self.old.room }
        requires home { home < 4 * self.old.room }
        ensures room { self.new.room ≡ self.old.room }
        ensures shape { HaveShape self.new.room self.new.links self.new.backs }
        ensures links { self.new.links ≡ slice_set (slice_set self.old.links place (slice_index self.old.links (self.old.room + home)))
            (self.old.room + home) (place + 1) }
        ensures backs { self.new.backs ≡ slice_set (slice_set self.old.backs (slice_index self.old.links (self.old.room + home)) (place + 1))
            (place + 1) (self.old.room + home + 1) }
    {
        let head = self.room + home;
        let next = self.links[head];
        self.links[place] = next;
        self.links[head] = (place + 1) as u16;
        // If no place follows, this writes the number that belongs to no place.
        self.backs[usize::from(next)] = (place + 1) as u16;
        self.backs[place + 1] = (head + 1) as u16;
    }

    /// Takes the place out of its chain.
    pub(crate) fn unlink(&mut self, place: usize)
        requires place { place < self.old.room }
        requires linked { IsLinked self.old.backs place }
        ensures room { self.new.room ≡ self.old.room }
        ensures shape { HaveShape self.new.room self.new.links self.new.backs }
        ensures links { self.new.links ≡ slice_set self.old.links (slice_index self.old.backs (place + 1) - 1) (slice_index self.old.links place) }
        ensures backs { self.new.backs ≡ slice_set
            (slice_set self.old.backs (slice_index self.old.links place) (slice_index self.old.backs (place + 1)))
            (place + 1) 0 }
    {
        let way = self.backs[place + 1];
        let next = self.links[place];
        self.links[usize::from(way) - 1] = next;
        // If no place follows, this writes the number that belongs to no place.
        self.backs[usize::from(next)] = way;
        self.backs[place + 1] = 0;
    }

    /// Empties all chains.
    pub(crate) fn clear(&mut self)
        ensures empty { self.new
            ≡ record { room = self.old.room; links = replicate (5 * self.old.room) 0; backs = replicate (self.old.room + 1) 0 } }
        ensures shape { HaveShape self.new.room self.new.links self.new.backs }
    {
        self.links.fill(0);
        self.backs.fill(0);
    }
}

// A place of the key among the at most four places of a chain. The first two are looked at by numbers in place of conditions,
// since which of them has the key can't be foreseen: so there is one branch, and not three. Where the chain has ended, another
// place is looked at, and doesn't count.
fn place_in_chain<T: Keyed>(links: &[u16], slots: &[T], key: u64, head: usize) -> Option<usize>
    requires head { head < length links.now }
    requires some { 0 < length slots.now }
    requires few { length slots.now ≤ length links.now }
    requires marks { All (λ mark. mark ≤ length slots.now) links.now }
    ensures within { IfSome result (λ place. place < length slots.now) }
    ensures found { IfSome result (λ place. slice_index (map T.key_of slots.now) place ≡ key) }
    ensures missing { IfNone result ((room : ℕ) (backs : List ℕ) (rank home : ℕ → ℕ) → AreChains room links.now backs rank home
        → room ≤ head → (place : ℕ) → IsLinked backs place → home place ≡ head → slice_index (map T.key_of slots.now) place ≢ key) }
{
    let first = usize::from(links[head]);
    let one = first.saturating_sub(1);
    let second = usize::from(links[one]);
    let two = second.saturating_sub(1);
    let found_first = mark_if(key_at(slots, one) == key, first);
    let found_second = mark_if(key_at(slots, two) == key, second);
    let found = found_first.max(found_second);
    if found != 0 {
        return Some(found - 1);
    }
    if first.min(second) == 0 {
        return None;
    }
    walk_chain(links, slots, key, two)
}

// The mark, if this holds, and else that of no place.
fn mark_if(holds: bool, mark: usize) -> usize
    ensures { result ≡ (if holds then mark else 0) }
{
    if holds { mark } else { 0 }
}

// A place of the key behind the second one of a chain, found place by place. It stays a function of its own in the binary,
// since few searches come to it.
#[inline(never)]
fn walk_chain<T: Keyed>(links: &[u16], slots: &[T], key: u64, second: usize) -> Option<usize>
    requires second { second < length links.now }
    requires few { length slots.now ≤ length links.now }
    requires marks { All (λ mark. mark ≤ length slots.now) links.now }
    ensures within { IfSome result (λ place. place < length slots.now) }
    ensures found { IfSome result (λ place. slice_index (map T.key_of slots.now) place ≡ key) }
    ensures missing { IfNone result ((room head : ℕ) (backs : List ℕ) (rank home : ℕ → ℕ) → AreChains room links.now backs rank home
        → HasPassed room backs (map T.key_of slots.now) rank home key head second 2
        → (place : ℕ) → IsLinked backs place → home place ≡ head → slice_index (map T.key_of slots.now) place ≢ key) }
{
    let mut cell = second;
    for _step in 2..PLACES_A_HOME {
        let mark = usize::from(links[cell]);
        if mark == 0 {
            return None;
        }
        if key_at(slots, mark - 1) == key {
            return Some(mark - 1);
        }
        cell = mark - 1;
    }
    None
}

// Whether a chain has four places. Nearly always it has at most one, which is known without a walk.
fn is_full_chain(links: &[u16], head: usize) -> bool
    requires head { head < length links.now }
    requires marks { All (λ mark. mark ≤ length links.now) links.now }
    ensures { (room : ℕ) (backs : List ℕ) (rank home : ℕ → ℕ) → AreChains room links.now backs rank home
        → room ≤ head → (IsTrue result ↔ (4 ≤ rank head)) }
{
    if is_short_chain(links, head) {
        return false;
    }
    is_full_walk(links, head)
}

// Whether a chain has at most one place.
fn is_short_chain(links: &[u16], head: usize) -> bool
    requires head { head < length links.now }
    requires marks { All (λ mark. mark ≤ length links.now) links.now }
    ensures { (room : ℕ) (backs : List ℕ) (rank home : ℕ → ℕ) → AreChains room links.now backs rank home
        → room ≤ head → IsTrue result → rank head ≤ 1 }
{
    let first = usize::from(links[head]);
    let second = usize::from(links[first.saturating_sub(1)]);
    // The lesser of the two, so that there is one branch.
    first.min(second) == 0
}

// Whether a chain has four places, found place by place.
#[inline(never)]
fn is_full_walk(links: &[u16], head: usize) -> bool
    requires head { head < length links.now }
    requires marks { All (λ mark. mark ≤ length links.now) links.now }
    ensures { (room : ℕ) (backs : List ℕ) (rank home : ℕ → ℕ) → AreChains room links.now backs rank home
        → room ≤ head → (IsTrue result ↔ (4 ≤ rank head)) }
{
    let mut cell = head;
    for _step in 0..PLACES_A_HOME {
        let mark = usize::from(links[cell]);
        if mark == 0 {
            return false;
        }
        cell = mark - 1;
    }
    true
}
