//! Choosing a dealer.

ghost use Rattle.std.specs.Prelude.{◌≡◌};
ghost use Rattle.deal_rules.specs.Dealers.{dealer_of};

use crate::{DealKind, Dealer, Dealers, Deals};

impl Dealers {
    /// The dealer of a kind.
    pub fn of(&self, kind: DealKind) -> &Dealer
        ensures kind { ⟦<Dealer as Deals>⟧.kind_of result.now ≡ kind }
        ensures dealer { result.now ≡ dealer_of kind self.now }
    {
        match kind {
            DealKind::RoundRobin => &self.round,
            DealKind::BySource => &self.source,
            DealKind::Free => &self.free,
        }
    }
}
