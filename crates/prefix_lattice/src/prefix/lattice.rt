//! Which prefix is under which, the greatest under two, and the order of a report.

ghost use Rattle.std.specs.Prelude.{◌≡◌, ◌≢◌, ◌↔◌, true, IsTrue, IsSome, IsSomeAnd, IfSome};
ghost use Rattle.prefix_lattice.specs.Grain.{finest_grain};
ghost use Rattle.prefix_lattice.specs.Node.{IsNode};
ghost use Rattle.prefix_lattice.specs.Prefix.{PrefixValue, IsPrefix};
ghost use Rattle.prefix_lattice.specs.Lattice.{under, strictly_under};
ghost use Rattle.prefix_lattice.specs.Meets.{meet, AreOverlapping};
ghost use Rattle.prefix_lattice.specs.ReportOrder.{report_order};
ghost use Rattle.prefix_lattice.specs.Uppers.{upper_at};

use crate::{Node, Prefix, Record};
use std::cmp::Ordering;

impl Prefix {
    /// Makes known to proofs that a prefix keeps at most 32 bits of each address, in steps of four.
    pub fn keeps_leading_bits(&self)
        ensures { IsPrefix finest_grain self.now }
    {
        let _ = self.source.len();
        let _ = self.dest.len();
    }

    /// Whether the bits of this prefix begin with those of the other, on both sides.
    pub fn under(&self, other: &Prefix) -> bool
        ensures { result ≡ under self.now other.now }
    {
        self.source.under(&other.source) && self.dest.under(&other.dest)
    }

    /// Whether this prefix is under the other and not equal to it.
    #[tactic(auto, using(crate::proofs::UnderMeetLemmas::strictly_under_unless_back))]
    pub fn strictly_under(&self, other: &Prefix) -> bool
        ensures value { result ≡ strictly_under self.now other.now }
        ensures differs { IsTrue result ↔ (IsTrue (under self.now other.now) × (self.now ≢ other.now)) }
    {
        self.under(other) && !other.under(self)
    }

    /// The prefix of a node that this prefix is under: as many of its leading bits as the node keeps. `None` exactly where
    /// the node keeps more bits of an address than this prefix. `uppers_are_above` says more of it.
    pub fn upper(&self, node: Node) -> Option<Prefix>
        ensures value { result ≡ upper_at self.now node }
        ensures prefix { IsPrefix finest_grain self.now }
        ensures node { IsNode node.grain node }
    {
        self.keeps_leading_bits();
        if node.source_bits() > self.source_bits() || node.dest_bits() > self.dest_bits() {
            return None;
        }
        let pair = Record {
            src: self.source(),
            dst: self.dest(),
            weight: 1,
        };
        Some(Prefix::of(&pair, node))
    }

    /// The greatest prefix under both. `None` exactly where no pair of addresses is covered by both.
    pub fn meet(&self, other: &Prefix) -> Option<Prefix>
        ensures value { result ≡ meet self.now other.now }
        ensures under_both { IfSome result (λ m. (under m self.now ≡ true) × (under m other.now ≡ true)) }
        ensures greatest { (lower : PrefixValue) → under lower self.now ≡ true → under lower other.now ≡ true
            → IsSomeAnd result (λ m. under lower m ≡ true) }
        ensures some { IsSome result ↔ AreOverlapping self.now other.now }
    {
        lowest(self, other)
    }

    /// The order of a report: the level falls, then the source address rises, then how many of its bits are kept,
    /// then the destination address.
    pub fn order(&self, other: &Prefix) -> Ordering
        ensures { result ≡ report_order self.now other.now }
    {
        let level = other.level().cmp(&self.level());
        let source = self.source().cmp(&other.source());
        let source_bits = self.source.len().cmp(&other.source.len());
        let dest = self.dest().cmp(&other.dest());
        level.then(source).then(source_bits).then(dest)
    }
}

// The prefix with the longer list on each side, if it is under both.
fn lowest(prefix: &Prefix, other: &Prefix) -> Option<Prefix>
    ensures value { result ≡ meet prefix.now other.now }
    ensures prefix { IsPrefix finest_grain prefix.now }
    ensures other { IsPrefix finest_grain other.now }
{
    prefix.keeps_leading_bits();
    other.keeps_leading_bits();
    let source = prefix.source.longer(other.source);
    let dest = prefix.dest.longer(other.dest);
    Some(Prefix {
        source: source?,
        dest: dest?,
    })
}
