//! Dealing records to shards, by a rule that the caller provides.
#![tactic(auto)]

mod choosing;
mod deal_kind;
mod dealer;
mod dealers;
mod dealing;
mod dealt;

pub use deal_kind::DealKind;
pub use dealer::{DealRule, Dealer, Deals};
pub use dealers::Dealers;
pub use dealing::{a_formula_deals_in_one_way, deal, deal_out, dealing_loses_nothing};
pub use dealt::Dealt;
