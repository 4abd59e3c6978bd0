//! Dealing records to shards.

ghost use Rattle.std.specs.Prelude.{◌≡◌, ℕ, ◌≤◌, List, [], length, IfOk};
ghost use Rattle.std.specs.List.{flat_map, sum_by};
ghost use Rattle.std.specs.List.Sorted.{IsPermutation};
ghost use Rattle.prefix_lattice.specs.{PrefixValue, prefix_weight, total_weight, RecordValue, record_limit};
ghost use Rattle.prefix_lattice.specs.{shard_limit};
ghost use Rattle.deal_rules.specs.declared.deal_kind.DealKind.{DealKind};
ghost use Rattle.deal_rules.specs.Dealing.{AreDealt, IsDealing, dealt_lists};

use crate::{Dealer, Deals, Dealt};
use prefix_lattice::RecordList;
use std::alloc::{AllocError, Global};

/// Deals the records, at most 16,777,216, to 1 to 16 shards. Each record goes to the shard that the dealer returns
/// for its index, counted from 0, and keeps its order there. On an error, which means that memory ran out, the dealt
/// lists are dropped. The list stays as it is: a copy of it is dealt.
pub fn deal(
    alloc: Global,
    list: &RecordList,
    dealer: &Dealer,
    shards: u32,
) -> Result<Dealt, AllocError>
    requires some { 1 ≤ shards }
    requires few { shards ≤ shard_limit }
    requires small { length list.now ≤ record_limit }
    ensures { IfOk result (λ dealt. IsDealing (⟦<Dealer as Deals>⟧.kind_of dealer.now)
        (⟦<Dealer as Deals>⟧.may_answer dealer.now) shards list.now dealt) }
{
    deal_out(alloc, list.copy(alloc)?, dealer, shards)
}

/// Deals the records of a list as `deal` does, and gives back the memory of the list as they go over to those of the
/// shards, so that each record is in memory once.
pub fn deal_out(
    alloc: Global,
    list: RecordList,
    dealer: &Dealer,
    shards: u32,
) -> Result<Dealt, AllocError>
    requires some { 1 ≤ shards }
    requires few { shards ≤ shard_limit }
    requires small { length list ≤ record_limit }
    ensures { IfOk result (λ dealt. IsDealing (⟦<Dealer as Deals>⟧.kind_of dealer.now)
        (⟦<Dealer as Deals>⟧.may_answer dealer.now) shards list dealt) }
{
    let mut lists = empty_lists(alloc, shards)?;
    let mut left = list.into_queue();
    let mut place = 0;
    while let Some(rec) = left.take_first() {
        let shard = dealer.shard(place, &rec, shards);
        lists[shard as usize].push(rec)?;
        place += 1;
    }
    Ok(Dealt::of(lists))
}

// An empty list for each shard.
fn empty_lists(alloc: Global, shards: u32) -> Result<Vec<RecordList>, AllocError>
    ensures { IfOk result (λ lists. lists.items ≡ dealt_lists shards [] []) }
{
    let mut lists = Vec::with_capacity(alloc, shards as usize)?;
    for _ in 0..shards {
        lists.push(RecordList::new(alloc))?;
    }
    Ok(lists)
}

/// The lists of a dealing hold its records, none lost and none duplicated, so every sum over the records stays the
/// same: their number, the weight of each prefix, and the total weight.
pub fn dealing_loses_nothing()
    ensures permuted { (shards : ℕ) (records : List RecordValue) (numbers : List ℕ) (lists : List (List RecordValue))
        → AreDealt shards records numbers lists → IsPermutation records (flat_map (λ list. list) lists) }
    ensures summed { (shards : ℕ) (records : List RecordValue) (numbers : List ℕ) (lists : List (List RecordValue))
        → AreDealt shards records numbers lists
        → (weigh : RecordValue → ℕ) → sum_by (sum_by weigh) lists ≡ sum_by weigh records }
    ensures counted { (shards : ℕ) (records : List RecordValue) (numbers : List ℕ) (lists : List (List RecordValue))
        → AreDealt shards records numbers lists → sum_by (λ list. length list) lists ≡ length records }
    ensures weighed { (shards : ℕ) (records : List RecordValue) (numbers : List ℕ) (lists : List (List RecordValue))
        → AreDealt shards records numbers lists
        → (prefix : PrefixValue) → sum_by (prefix_weight prefix) lists ≡ prefix_weight prefix records }
    ensures total { (shards : ℕ) (records : List RecordValue) (numbers : List ℕ) (lists : List (List RecordValue))
        → AreDealt shards records numbers lists → sum_by total_weight lists ≡ total_weight records }
{}

/// Where the rule is a formula, records are dealt in one way: two dealings of the same records to as many shards have
/// the same lists.
pub fn a_formula_deals_in_one_way()
    ensures { (kind : DealKind) (formula : ℕ → RecordValue → ℕ → ℕ) (shards : ℕ) (records : List RecordValue) (lists others : List (List RecordValue))
        → IsDealing kind (λ place rec shards number. number ≡ formula place rec shards) shards records lists
        → IsDealing kind (λ place rec shards number. number ≡ formula place rec shards) shards records others → lists ≡ others }
{}
