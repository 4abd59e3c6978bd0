//! The traffic that one packet carried.

ghost use Rattle.std.specs.Prelude.{◌≡◌, IsNone, IfSome, ◌↔◌};

use std::marker::Model;

/// What one packet carried from a source to a destination: a weight of at least 1.
#[derive(Clone, Copy, Debug, PartialEq, Eq)]
pub struct Record {
    /// The IPv4 address of the source.
    pub src: u32,
    /// The IPv4 address of the destination.
    pub dst: u32,
    /// Bytes, or 1 where packets are counted.
    pub weight: u32,
}

impl Model for Record {
    ghost use Rattle.std.specs.Prelude.{◌≤◌};
    ghost use Rattle.prefix_lattice.specs.Record.{RecordValue};

    ghost Value = { RecordValue };

    ghost view = { λ r. record { src = r.src; dst = r.dst; weight = r.weight } };

    ghost invariant = { λ r. 1 ≤ r.weight };

    ghost inverse = { λ v. record { src = v.src; dst = v.dst; weight = v.weight } };
}

impl Record {
    /// A record with these addresses and this weight. `None` exactly where the weight is 0.
    pub fn new(src: u32, dst: u32, weight: u32) -> Option<Record>
        ensures none { IsNone result ↔ (weight ≡ 0) }
        ensures some { IfSome result (λ r. r ≡ record { src = src; dst = dst; weight = weight }) }
    {
        if weight == 0 {
            return None;
        }
        Some(Record { src, dst, weight })
    }
}
