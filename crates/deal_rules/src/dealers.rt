//! The dealers of a program.

ghost use Rattle.std.specs.Prelude.{◌≡◌};
ghost use Rattle.deal_rules.specs.declared.deal_kind.DealKind.TheVariants.{RoundRobin, BySource, Free};

use crate::Dealer;

/// One dealer of each kind.
#[derive(Drop)]
pub struct Dealers {
    /// Deals in turn, by the index of a record.
    pub round: Dealer,
    /// Deals by the source address of a record.
    pub source: Dealer,
    /// Deals by any function.
    pub free: Dealer,
    ghost by_round: { round.kind ≡ RoundRobin },
    ghost by_source: { source.kind ≡ BySource },
    ghost by_free: { free.kind ≡ Free },
}
