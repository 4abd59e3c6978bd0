//! A stored rule of dealing.

ghost use Rattle.std.specs.Prelude.{◌≡◌, ◌↔◌, ℕ, ◌<◌, ◌≤◌};
ghost use Rattle.prefix_lattice.specs.{RecordValue, record_limit, shard_limit};
ghost use Rattle.deal_rules.specs.declared.deal_kind.DealKind.{DealKind};
ghost use Rattle.deal_rules.specs.DealKind.{IsAsked, IsNumberBy, MayDeal};

use crate::DealKind;
use prefix_lattice::Record;

/// The stored function of a dealer. It maps the index of a record, counted from 0, the record and the number of
/// shards to the shard of the record.
pub type DealRule = Box<dyn Fn(u64, Record, u32) -> u32>;

/// What contracts say of a dealer.
pub trait Deals {
    /// How it deals.
    ghost kind_of: { Self → DealKind };

    /// What it may answer for an index, a record and a number of shards.
    ghost may_answer: { Self → ℕ → RecordValue → ℕ → ℕ → Type 0 };
}

/// A rule of dealing. Its function may be called for each index below 16,777,216, each record and 1 to 16
/// shards, and returns a number below the number of shards, by the formula of its kind.
#[derive(Drop)]
pub struct Dealer {
    kind: DealKind,
    rule: DealRule,
    ghost callable: { (place : ℕ) (rec : RecordValue) (shards : ℕ)
        → IsAsked place rec shards → pre rule place rec shards },
    ghost below: { (place : ℕ) (rec : RecordValue) (shards number : ℕ)
        → IsAsked place rec shards → post rule place rec shards number → number < shards },
    ghost of_kind: { (place : ℕ) (rec : RecordValue) (shards number : ℕ)
        → IsAsked place rec shards → post rule place rec shards number
        → IsNumberBy kind place rec shards number },
}

impl Deals for Dealer {
    ghost kind_of = { λ dealer. dealer.kind };

    ghost may_answer = { λ dealer place rec shards number. post dealer.rule place rec shards number };
}

impl Dealer {
    /// A dealer that deals by the rule, which must be of this kind: for each index below 16,777,216, each record
    /// and 1 to 16 shards it may be called, and it returns a number below the number of shards, by the kind's formula.
    pub fn new(kind: DealKind, rule: DealRule) -> Dealer
        requires callable { (place : ℕ) (rec : RecordValue) (shards : ℕ)
            → IsAsked place rec shards → pre rule place rec shards }
        requires below { (place : ℕ) (rec : RecordValue) (shards number : ℕ)
            → IsAsked place rec shards → post rule place rec shards number → number < shards }
        requires of_kind { (place : ℕ) (rec : RecordValue) (shards number : ℕ)
            → IsAsked place rec shards → post rule place rec shards number
            → IsNumberBy kind place rec shards number }
        ensures kind { ⟦<Dealer as Deals>⟧.kind_of result ≡ kind }
        ensures rule { (place : ℕ) (rec : RecordValue) (shards number : ℕ)
            → ⟦<Dealer as Deals>⟧.may_answer result place rec shards number ↔ post rule place rec shards number }
    {
        Dealer { kind, rule }
    }

    /// How it deals.
    pub fn kind(&self) -> DealKind
        ensures { result ≡ ⟦<Dealer as Deals>⟧.kind_of self.now }
    {
        self.kind
    }

    /// The shard of the record at this index, from 0 to 16,777,215, among 1 to 16 shards, as returned by the stored
    /// function.
    pub fn shard(&self, place: u64, rec: &Record, shards: u32) -> u32
        requires early { place < record_limit }
        requires some { 1 ≤ shards }
        requires few { shards ≤ shard_limit }
        ensures { MayDeal (⟦<Dealer as Deals>⟧.kind_of self.now) (⟦<Dealer as Deals>⟧.may_answer self.now)
            place rec.now shards result }
    {
        // Reading the weight makes it known that the weight is at least 1.
        let _weight = rec.weight;
        ask(&self.rule, place, *rec, shards)
    }
}

// Calls a rule, for arguments that it accepts.
fn ask(rule: &DealRule, place: u64, rec: Record, shards: u32) -> u32
    requires { pre rule.now place rec shards }
    ensures { post rule.now place rec shards result }
{
    rule(place, rec, shards)
}
