//! The nodes of the lattice.

ghost use Rattle.std.specs.Prelude.{◌≡◌, ◌<◌, ◌≤◌, ◌*◌, ◌/◌, ◌↔◌, ◌⊎◌, IsNone, IfSome};
ghost use Rattle.prefix_lattice.specs.Address.{address_length};
ghost use Rattle.prefix_lattice.specs.Grain.{grain_bits, node_count, IsGrainLength};
ghost use Rattle.prefix_lattice.specs.Node.{IsNode, node_index, node_at, node_level, deepest_level};

use crate::Grain;
use std::marker::Model;

/// A node of the lattice: how many leading bits a prefix keeps of each address, 0 to 32 in steps of a grain.
#[derive(Clone, Copy, Debug, PartialEq, Eq)]
pub struct Node {
    grain: Grain,
    source_bits: u8,
    dest_bits: u8,
}

impl Model for Node {
    ghost use Rattle.prefix_lattice.specs.Grain.{IsGrainLength};
    ghost use Rattle.prefix_lattice.specs.Node.{NodeValue};

    ghost Value = { NodeValue };

    ghost view = { λ n. record { grain = n.grain; source_bits = n.source_bits; dest_bits = n.dest_bits } };

    ghost invariant = { λ n. IsGrainLength n.grain n.source_bits × IsGrainLength n.grain n.dest_bits };

    ghost inverse = { λ v. record { grain = v.grain; source_bits = v.source_bits; dest_bits = v.dest_bits } };
}

impl Node {
    /// The node of a grain that keeps this many steps of the source and of the destination. `None` exactly where one of
    /// the numbers is above 32 divided by the bits of a step.
    pub fn new(grain: Grain, source_units: u8, dest_units: u8) -> Option<Node>
        ensures none { IsNone result ↔ ((address_length / grain_bits grain < source_units) ⊎ (address_length / grain_bits grain < dest_units)) }
        ensures some { IfSome result (λ node. node ≡ record {
          grain = grain;
          source_bits = source_units * grain_bits grain;
          dest_bits = dest_units * grain_bits grain;
        }) }
    {
        let bits = grain.bits();
        let most = 32 / bits;
        if source_units > most || dest_units > most {
            return None;
        }
        Some(Node {
            grain,
            source_bits: source_units * bits,
            dest_bits: dest_units * bits,
        })
    }

    /// The node of a grain at this index. `None` exactly where the index isn't below the number of nodes.
    pub fn from_index(grain: Grain, index: u8) -> Option<Node>
        ensures none { IsNone result ↔ (node_count grain ≤ index) }
        ensures some { IfSome result (λ node. node ≡ node_at grain index) }
        ensures back { IfSome result (λ node. node_index node ≡ index) }
        ensures is_node { IfSome result (IsNode grain) }
    {
        let lengths = grain.lengths();
        Node::new(grain, index / lengths, index % lengths)
    }

    /// The index of the node among those of its grain, from 0: the steps of the source, times the number of lengths,
    /// plus the steps of the destination.
    pub fn index(self) -> u8
        ensures value { result ≡ node_index self }
        ensures few { result < node_count self.grain }
        ensures back { node_at self.grain result ≡ self }
        ensures is_node { IsNode self.grain self }
    {
        let bits = self.grain.bits();
        self.source_bits / bits * self.grain.lengths() + self.dest_bits / bits
    }

    /// The grain in whose steps the node keeps bits.
    pub fn grain(self) -> Grain
        ensures { result ≡ self.grain }
    {
        self.grain
    }

    /// How many bits are kept of both addresses together, 0 to 64.
    pub fn level(self) -> u8
        ensures value { result ≡ node_level self }
        ensures few { result ≤ deepest_level }
    {
        self.source_bits + self.dest_bits
    }

    /// How many leading bits of the source are kept.
    pub fn source_bits(self) -> u8
        ensures value { result ≡ self.source_bits }
        ensures length { IsGrainLength self.grain result }
    {
        self.source_bits
    }

    /// How many leading bits of the destination are kept.
    pub fn dest_bits(self) -> u8
        ensures value { result ≡ self.dest_bits }
        ensures length { IsGrainLength self.grain result }
    {
        self.dest_bits
    }
}
