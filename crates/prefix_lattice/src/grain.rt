//! The grains of the lattice.

ghost use Rattle.std.specs.Prelude.{◌≡◌, ◌==◌, ◌<◌, ◌≤◌};
ghost use Rattle.std.proofs.Common.{rules};
ghost use Rattle.std.specs.Cmp.Rules.{comparing};
ghost use Rattle.std.specs.Ordering.{on};
ghost use Rattle.prefix_lattice.specs.Grain.{finest_grain, grain_bits, grain_lengths, node_count};
ghost use Rattle.prefix_lattice.specs.Limits.{most_grain_capacity};

use std::cmp::{Eq, PartialEq};

/// By how many bits a prefix may keep more of an address.
#[derive(Clone, Copy, Debug)]
pub enum Grain {
    /// Whole bytes: lengths 0, 8, 16, 24 and 32, and 25 nodes.
    Byte,
    /// Half bytes: lengths 0, 4, 8 and so on to 32, and 81 nodes.
    Nibble,
}

impl Grain {
    /// The bits of one step: 8 or 4.
    pub fn bits(self) -> u8
        ensures value { result ≡ grain_bits self }
        ensures some { 0 < result }
    {
        match self {
            Grain::Byte => 8,
            Grain::Nibble => 4,
        }
    }

    /// How many lengths a side of a prefix may have: 5 or 9.
    pub fn lengths(self) -> u8
        ensures value { result ≡ grain_lengths self }
        ensures some { 0 < result }
        ensures few { result ≤ 9 }
    {
        32 / self.bits() + 1
    }

    /// How many nodes the lattice has: 25 or 81.
    pub fn nodes(self) -> u8
        ensures value { result ≡ node_count self }
        ensures few { result ≤ node_count finest_grain }
    {
        self.lengths() * self.lengths()
    }

    /// The most entries of the tables of this grain: 4096 or 1024.
    pub fn greatest_capacity(self) -> u32
        ensures { result ≡ most_grain_capacity self }
    {
        match self {
            Grain::Byte => 4096,
            Grain::Nibble => 1024,
        }
    }
}

impl PartialEq for Grain {
    ghost use Rattle.prefix_lattice.specs.Grain.{grain_bits};

    ghost eq = { on grain_bits ◌==◌ };

    ghost laws = { Prim.search (comparing, rules) };

    fn eq(&self, other: &Grain) -> bool {
        self.bits() == other.bits()
    }
}

impl Eq for Grain {
    ghost laws = { Prim.search (comparing, rules) };
}
