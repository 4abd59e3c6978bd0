//! Prefixes in their order.

ghost use Rattle.std.specs.Prelude.{◌≡◌, ◌==◌, ◌<◌, ◌++◌, [], ◌∷◌, length, All, OnOk, OnErr, slice_get, Some};
ghost use Rattle.prefix_lattice.specs.Grain.{finest_grain};
ghost use Rattle.prefix_lattice.specs.Prefix.{IsPrefix};

use crate::Prefix;
use std::alloc::{AllocError, Global};
use std::marker::Model;

/// A list of prefixes, in the order in which they were pushed.
#[derive(Drop)]
pub struct Prefixes {
    prefixes: Vec<Prefix>,
}

impl Model for Prefixes {
    ghost use Rattle.std.specs.Prelude.{List, All};
    ghost use Rattle.prefix_lattice.specs.Grain.{finest_grain};
    ghost use Rattle.prefix_lattice.specs.Prefix.{PrefixValue, IsPrefix};

    ghost Value = { List PrefixValue };

    ghost view = { λ l. l.prefixes.items };

    // Each is a pair of lists of leading bits.
    ghost invariant = { λ l. All (IsPrefix finest_grain) l.prefixes.items };
}

impl Prefixes {
    /// An empty list. It allocates no memory.
    pub fn new(alloc: Global) -> Prefixes
        ensures { result ≡ [] }
    {
        Prefixes {
            prefixes: Vec::new(alloc),
        }
    }

    /// Appends a prefix. After an `Err` the list is as before.
    pub fn push(&mut self, prefix: Prefix) -> Result<(), AllocError>
        ensures ok { OnOk result (self.new ≡ self.old ++ prefix ∷ []) }
        ensures err { OnErr result (self.new ≡ self.old) }
    {
        prefix.keeps_leading_bits();
        Ok(self.prefixes.push(prefix)?)
    }

    /// How many prefixes there are.
    pub fn len(&self) -> usize
        ensures { result ≡ length self.now }
    {
        self.prefixes.len()
    }

    /// Whether there is no prefix.
    pub fn is_empty(&self) -> bool
        ensures { result ≡ (length self.now == 0) }
    {
        self.prefixes.is_empty()
    }

    /// The prefix at an index below the length.
    pub fn at(&self, place: usize) -> &Prefix
        requires { place < length self.now }
        ensures { slice_get self.now place ≡ Some result.now }
    {
        &self.prefixes[place]
    }

    /// The prefixes in their order.
    pub fn as_slice(&self) -> &[Prefix]
        ensures value { result.now ≡ self.now }
        ensures prefixes { All (IsPrefix finest_grain) self.now }
    {
        self.prefixes.as_slice()
    }
}
