//! Prefixes of pairs of addresses.

ghost use Rattle.std.specs.Prelude.{◌≡◌, ◌==◌, ◌↔◌, ◌≤◌, ℕ, List, length, true, IfOk, IfErr, IfSome, IfNone, IsSome, IsTrue};
ghost use Rattle.prefix_lattice.specs.Grain.{finest_grain};
ghost use Rattle.prefix_lattice.specs.Node.{NodeValue, IsNode, deepest_level};
ghost use Rattle.prefix_lattice.specs.Record.{RecordValue};
ghost use Rattle.prefix_lattice.specs.Address.{address_of};
ghost use Rattle.prefix_lattice.specs.Prefix.{IsPrefixKey, HasPrefixKey, PrefixValue, IsPrefix, covers, node_of_prefix};
ghost use Rattle.prefix_lattice.specs.Prefix.{prefix_at, prefix_key, prefix_level};
ghost use Rattle.prefix_lattice.specs.PrefixText.{SpellsPrefix, HasPrefixFault};
ghost use Rattle.prefix_lattice.specs.declared.grain.Grain.{Grain};
ghost use Rattle.prefix_lattice.specs.declared.prefix_fault.PrefixFault.{PrefixFault};

mod lattice;
mod writing;

use crate::kept_bits::KeptBits;
use crate::side_reading::parse_side;
use crate::{Grain, Node, PrefixFault, Record, Side};
use std::marker::Model;

/// A prefix: the leading bits of a source and of a destination address, 0 to 32 of each in steps of four.
#[derive(Clone, Copy, Debug, PartialEq, Eq)]
pub struct Prefix {
    source: KeptBits,
    dest: KeptBits,
}

impl Model for Prefix {
    ghost use Rattle.prefix_lattice.specs.Prefix.{PrefixValue};

    ghost Value = { PrefixValue };

    ghost view = { λ p. record { source = p.source; dest = p.dest } };

    ghost inverse = { λ v. record { source = v.source; dest = v.dest } };
}

impl Prefix {
    /// Reads the texts of the source and of the destination, such as `10.0.0.0/8` and `20.1.0.0/16`: an address
    /// without leading zeros, a slash, and a multiple of the grain's bits from 0 to 32. The source is checked completely
    /// before the destination.
    pub fn parse(grain: Grain, source: &[u8], dest: &[u8]) -> Result<Prefix, PrefixFault>
        ensures ok { (prefix : PrefixValue) → (result ≡ Ok prefix) ↔ SpellsPrefix grain source.now dest.now prefix }
        ensures fault { (fault : PrefixFault) → (result ≡ Err fault) ↔ HasPrefixFault grain source.now dest.now fault }
    {
        parse_sides(grain, source, dest)
    }

    /// The only prefix of the node that covers the record.
    pub fn of(rec: &Record, node: Node) -> Prefix
        ensures value { result ≡ prefix_at node rec.now }
        ensures prefix { IsPrefix node.grain result }
        ensures node { node_of_prefix node.grain result ≡ node }
        ensures covers { covers result rec.now ≡ true }
        ensures only { (other : PrefixValue) → node_of_prefix node.grain other ≡ node → covers other rec.now ≡ true → other ≡ result }
    {
        Prefix {
            source: KeptBits::of(rec.src, node.source_bits()),
            dest: KeptBits::of(rec.dst, node.dest_bits()),
        }
    }

    /// Whether both sides keep whole steps of a grain.
    pub fn of_grain(&self, grain: Grain) -> bool
        ensures { IsTrue result ↔ IsPrefix grain self.now }
    {
        let bits = grain.bits();
        self.source.len() % bits == 0 && self.dest.len() % bits == 0
    }

    /// The node of the prefix among those of a grain. `None` exactly where the prefix isn't of that grain.
    pub fn node(&self, grain: Grain) -> Option<Node>
        ensures some { IsSome result ↔ IsPrefix grain self.now }
        ensures node { IfSome result (λ node. node ≡ node_of_prefix grain self.now) }
    {
        if self.of_grain(grain) {
            let bits = grain.bits();
            Node::new(grain, self.source.len() / bits, self.dest.len() / bits)
        } else {
            None
        }
    }

    /// Both addresses, with zeros for the bits that are not kept, as one number: the source in the high half.
    /// Distinct prefixes of one node have distinct keys, by `keys_are_of_their_node`.
    pub fn key(&self) -> u64
        ensures value { result ≡ prefix_key self.now }
        ensures prefix { IsPrefix finest_grain self.now }
    {
        self.keeps_leading_bits();
        u64::from(self.source.address()) << 32 | u64::from(self.dest.address())
    }

    /// The prefix of this node with this key. `None` exactly where the key has a bit set that the node doesn't keep.
    pub fn from_key(key: u64, node: Node) -> Option<Prefix>
        ensures accepted { IsSome result ↔ IsPrefixKey node key }
        ensures prefix { (prefix : PrefixValue) → (result ≡ Some prefix) ↔ HasPrefixKey node key prefix }
    {
        prefix_of_key(key, node)
    }

    /// The source address, with zeros for the bits that are not kept.
    pub fn source(&self) -> u32
        ensures { result ≡ address_of self.now.source }
    {
        self.source.address()
    }

    /// The destination address, with zeros for the bits that are not kept.
    pub fn dest(&self) -> u32
        ensures { result ≡ address_of self.now.dest }
    {
        self.dest.address()
    }

    /// How many leading bits of the source are kept.
    pub fn source_bits(&self) -> u8
        ensures { result ≡ length self.now.source }
    {
        self.source.len()
    }

    /// How many leading bits of the destination are kept.
    pub fn dest_bits(&self) -> u8
        ensures { result ≡ length self.now.dest }
    {
        self.dest.len()
    }

    /// How many bits are kept of both addresses together, 0 to 64.
    pub fn level(&self) -> u8
        ensures value { result ≡ prefix_level self.now }
        ensures few { result ≤ deepest_level }
    {
        self.source.len() + self.dest.len()
    }

    /// Whether the record's addresses begin with the bits of the prefix.
    pub fn covers(&self, rec: &Record) -> bool
        ensures { result ≡ covers self.now rec.now }
    {
        self.source.begin(rec.src) && self.dest.begin(rec.dst)
    }
}

// Reads one side after the other.
fn parse_sides(grain: Grain, source: &[u8], dest: &[u8]) -> Result<Prefix, PrefixFault>
    ensures ok { IfOk result (SpellsPrefix grain source.now dest.now) }
    ensures fault { IfErr result (HasPrefixFault grain source.now dest.now) }
{
    let source = parse_side(grain, source, Side::Source)?;
    let dest = parse_side(grain, dest, Side::Dest)?;
    Ok(Prefix { source, dest })
}

// The prefix with both halves of the key, if all bits that the node doesn't keep are zero.
fn prefix_of_key(key: u64, node: Node) -> Option<Prefix>
    ensures some { IfSome result (HasPrefixKey node key) }
    ensures none { IfNone result (IsPrefixKey node key → ⊥) }
{
    let source = KeptBits::exact((key >> 32) as u32, node.source_bits())?;
    let dest = KeptBits::exact((key % (1 << 32)) as u32, node.dest_bits())?;
    Some(Prefix { source, dest })
}

/// A law of keys: a prefix covers a record exactly where the record's prefix of that node has its key.
pub fn keys_tell_covering()
    ensures { (grain : Grain) (prefix : PrefixValue) (rec : RecordValue) → IsPrefix grain prefix
        → covers prefix rec ≡ (prefix_key (prefix_at (node_of_prefix grain prefix) rec) == prefix_key prefix) }
{}

/// A law of keys: the key of a prefix sets no bit that the prefix doesn't keep, each record's prefix at a node has a
/// key of that node, and distinct prefixes of one node have distinct keys.
pub fn keys_are_of_their_node()
    ensures of_prefix { (grain : Grain) (prefix : PrefixValue) → IsPrefix grain prefix → IsPrefixKey (node_of_prefix grain prefix) (prefix_key prefix) }
    ensures of_record { (node : NodeValue) (rec : RecordValue) → IsNode node.grain node
        → HasPrefixKey node (prefix_key (prefix_at node rec)) (prefix_at node rec) }
    ensures of_record_key { (node : NodeValue) (rec : RecordValue) → IsNode node.grain node → IsPrefixKey node (prefix_key (prefix_at node rec)) }
    ensures apart { (grain : Grain) (prefix other : PrefixValue) → IsPrefix grain prefix → IsPrefix grain other
        → node_of_prefix grain prefix ≡ node_of_prefix grain other → prefix_key prefix ≡ prefix_key other → prefix ≡ other }
{}

/// A law of texts: two texts spell one prefix of a grain, or have one fault, and never both.
pub fn prefix_texts_have_one_reading()
    ensures one_prefix { (grain : Grain) (source dest : List ℕ) (prefix other : PrefixValue)
        → SpellsPrefix grain source dest prefix → SpellsPrefix grain source dest other → prefix ≡ other }
    ensures no_fault { (grain : Grain) (source dest : List ℕ) (prefix : PrefixValue) (fault : PrefixFault)
        → SpellsPrefix grain source dest prefix → HasPrefixFault grain source dest fault → ⊥ }
    ensures one_fault { (grain : Grain) (source dest : List ℕ) (fault other : PrefixFault)
        → HasPrefixFault grain source dest fault → HasPrefixFault grain source dest other → fault ≡ other }
{}
