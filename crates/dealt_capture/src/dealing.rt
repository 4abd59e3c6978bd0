//! Dealing records as the settings specify.

ghost use Rattle.std.specs.Prelude.{◌≡◌, ◌≤◌, length, IfOk};
ghost use Rattle.deal_rules.specs.{IsDealing, dealer_of};
ghost use Rattle.prefix_lattice.specs.{record_limit};
ghost use Rattle.command_words.specs.{AreLimited};

use command_words::Settings;
use deal_rules::{Dealer, Dealers, Deals, Dealt, deal_out};
use prefix_lattice::RecordList;
use std::alloc::{AllocError, Global};

/// Deals records to as many shards as the settings specify, by their rule. The memory of the list is given back as its
/// records go over to those of the shards.
pub fn deal_records(
    alloc: Global,
    list: RecordList,
    settings: &Settings,
    dealers: &Dealers,
) -> Result<Dealt, AllocError>
    requires limited { AreLimited settings.now }
    requires small { length list ≤ record_limit }
    ensures dealt { IfOk result (IsDealing settings.now.deal (⟦<Dealer as Deals>⟧.may_answer (dealer_of settings.now.deal dealers.now))
        settings.now.shards list) }
    ensures shards { IfOk result (λ lists. length lists ≡ settings.now.shards) }
{
    let lists = deal_out(alloc, list, dealers.of(settings.deal), settings.shards)?;
    Ok(lists)
}
