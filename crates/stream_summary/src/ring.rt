//! Numbers in an order of their own.

ghost use Rattle.std.specs.Prelude.{◌≡◌, ◌≢◌, ◌<◌, ◌≤◌, ◌++◌, ◌∷◌, [], List, ℕ, All, IfOk, IfNone, IfSome};
ghost use Rattle.std.specs.Prelude.{MatchOption, length};
ghost use Rattle.stream_summary.specs.Ring.{IsFirstOf, IsIn, IsLastOf, IsRing};

use crate::links::{Link, before_of, join, next_of};
use crate::numbers::Number;
use std::alloc::{AllocError, Global};
use std::marker::{Model, PhantomData};

/// Numbers below a limit in an order of their own, each at most once. They are linked both ways, so that one goes to
/// any place, or leaves its own, by a few writes.
#[derive(Drop)]
pub(crate) struct Ring<N: Number> {
    room: usize,
    // How many numbers are in the order.
    len: usize,
    // The cell of each number, and behind them that of both ends.
    links: Vec<Link>,
    of: PhantomData<N>,
}

impl<N: Number> Model for Ring<N> {
    ghost use Rattle.stream_summary.specs.Links.{befores, nexts, walked};
    ghost use Rattle.stream_summary.specs.Ring.{AreRingLinks, RingValue};

    ghost Value = { RingValue };

    ghost view = { λ r. record { room = r.room; order = walked r.len (nexts r.links.items) r.room } };

    ghost invariant = { λ r. AreRingLinks r.room r.len (nexts r.links.items) (befores r.links.items)
        (walked r.len (nexts r.links.items) r.room) };
}

impl<N: Number> Ring<N> {
    /// No numbers, and memory for those below the room, 1 to 8,192: four bytes each, and nothing later.
    pub(crate) fn with_room(alloc: Global, room: usize) -> Result<Ring<N>, AllocError>
        requires some { 1 ≤ room }
        requires few { room ≤ 8192 }
        ensures empty { IfOk result (λ ring. ring ≡ record { room = room; order = [] }) }
        ensures ring { IfOk result (λ ring. IsRing ring.room ring.order) }
    {
        let end = Link {
            next: room as u16,
            before: room as u16,
        };
        let links = vec![in alloc; end; room + 1]?;
        Ok(Ring {
            room,
            len: 0,
            links,
            of: PhantomData,
        })
    }

    /// The first number of the order.
    pub(crate) fn first(&self) -> Option<N>
        ensures { MatchOption result (self.now.order ≡ []) (λ first. IsFirstOf (N.value_of first) self.now.order) }
    {
        self.number_of(next_of(&self.links, self.room))
    }

    /// The last number of the order.
    pub(crate) fn last(&self) -> Option<N>
        ensures { MatchOption result (self.now.order ≡ []) (λ last. IsLastOf (N.value_of last) self.now.order) }
    {
        self.number_of(before_of(&self.links, self.room))
    }

    /// The number that follows this one in the order, and None for the last one.
    pub(crate) fn after(&self, number: N) -> Option<N>
        requires { IsIn (N.value_of number) self.now.order }
        ensures { (front back : List ℕ) → self.now.order ≡ front ++ N.value_of number ∷ back
            → MatchOption result (back ≡ []) (λ next. IsFirstOf (N.value_of next) back) }
    {
        self.number_of(next_of(&self.links, number.index()))
    }

    /// The number before this one in the order, and None for the first one.
    pub(crate) fn before(&self, number: N) -> Option<N>
        requires { IsIn (N.value_of number) self.now.order }
        ensures { (front back : List ℕ) → self.now.order ≡ front ++ N.value_of number ∷ back
            → MatchOption result (front ≡ []) (λ before. IsLastOf (N.value_of before) front) }
    {
        self.number_of(before_of(&self.links, number.index()))
    }

    /// Puts a number into the order: after that one, or to the front for None.
    pub(crate) fn insert_after(&mut self, at: Option<N>, number: N)
        requires at { IfSome at (λ at. IsIn (N.value_of at) self.old.order) }
        requires below { N.value_of number < self.old.room }
        requires apart { All (λ other. other ≢ N.value_of number) self.old.order }
        ensures room { self.new.room ≡ self.old.room }
        ensures first { IfNone at (self.new.order ≡ N.value_of number ∷ self.old.order) }
        ensures order { IfSome at (λ at. (front back : List ℕ) → self.old.order ≡ front ++ N.value_of at ∷ back
            → self.new.order ≡ front ++ N.value_of at ∷ N.value_of number ∷ back) }
        ensures ring { IsRing self.new.room self.new.order }
    {
        let cell = self.cell_of(at);
        let here = number.index();
        let next = next_of(&self.links, cell);
        join(&mut self.links, cell, here);
        join(&mut self.links, here, next);
        self.len += 1;
    }

    /// Puts a number to the end of the order.
    pub(crate) fn push(&mut self, number: N)
        requires below { N.value_of number < self.old.room }
        requires apart { All (λ other. other ≢ N.value_of number) self.old.order }
        ensures room { self.new.room ≡ self.old.room }
        ensures order { self.new.order ≡ self.old.order ++ N.value_of number ∷ [] }
        ensures ring { IsRing self.new.room self.new.order }
    {
        let last = self.last();
        self.insert_after(last, number);
    }

    /// Takes a number out of the order.
    pub(crate) fn remove(&mut self, number: N)
        requires { IsIn (N.value_of number) self.old.order }
        ensures room { self.new.room ≡ self.old.room }
        ensures order { (front back : List ℕ) → self.old.order ≡ front ++ N.value_of number ∷ back
            → self.new.order ≡ front ++ back }
        ensures ring { IsRing self.new.room self.new.order }
    {
        let here = number.index();
        let before = before_of(&self.links, here);
        let next = next_of(&self.links, here);
        join(&mut self.links, before, next);
        self.len -= 1;
    }

    // The cell of a number, and that of the ends for None.
    fn cell_of(&self, at: Option<N>) -> usize
        ensures { MatchOption at (result ≡ self.now.room) (λ at. result ≡ N.value_of at) }
    {
        match at {
            Some(at) => at.index(),
            None => self.room,
        }
    }

    // The number of a cell, and None for that of the ends.
    fn number_of(&self, cell: usize) -> Option<N>
        requires { cell ≤ self.now.room }
        ensures { MatchOption result (cell ≡ self.now.room)
            (λ number. (N.value_of number ≡ cell) × (cell < self.now.room)) }
    {
        if cell == self.room {
            return None;
        }
        Some(N::from_index(cell))
    }
}
