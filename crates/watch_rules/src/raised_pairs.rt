//! The pairs of a rule and a prefix for which there was an alarm.

ghost use Rattle.std.specs.Prelude.{◌≡◌, ◌+◌, ◌≤◌, ◌++◌, List, [], length, OnOk, OnErr, vec_len, vec_capacity};
ghost use Rattle.prefix_lattice.specs.{IsPrefix, finest_grain};
ghost use Rattle.watch_rules.specs.declared.raised.Raised.{Raised};
ghost use Rattle.watch_rules.specs.RaisedPairs.{AreCoded, AreNew, is_raised, pair_code, raised_by};

use crate::Alarm;
use crate::raised::Raised;
use prefix_lattice::{
    Prefix, keys_are_of_their_node, prefixes_are_ordered, prefixes_cover_their_own_addresses,
};
use std::alloc::{AllocError, Global};
use std::collections::BTreeSet;
use std::marker::Model;

/// The pairs in the order in which they were raised, and their codes, by which a pair is found.
#[derive(Drop)]
pub(crate) struct RaisedPairs {
    pairs: Vec<Raised>,
    codes: BTreeSet<u128>,
}

impl Model for RaisedPairs {
    ghost use Rattle.std.specs.Prelude.{List};
    ghost use Rattle.watch_rules.specs.declared.raised.Raised.{Raised};
    ghost use Rattle.watch_rules.specs.RaisedPairs.{AreCoded};

    ghost Value = { List Raised };

    ghost view = { λ r. r.pairs.items };

    ghost invariant = { λ r. AreCoded r.pairs.items r.codes };
}

impl RaisedPairs {
    /// No pair. It allocates no memory.
    pub(crate) fn new(alloc: Global) -> RaisedPairs
        ensures { result ≡ [] }
    {
        RaisedPairs {
            pairs: Vec::new(alloc),
            codes: BTreeSet::new(alloc),
        }
    }

    /// Whether this rule and this prefix are a pair of these.
    pub(crate) fn has(&self, rule: u32, prefix: &Prefix) -> bool
        ensures { result ≡ is_raised self.now rule prefix.now }
    {
        self.codes.contains(&code_of(rule, prefix))
    }

    /// Appends the pairs of these alarms, none of which is here. After an `Err` the pairs are as before.
    pub(crate) fn raise(&mut self, alarms: &[Alarm]) -> Result<(), AllocError>
        requires { AreNew self.old alarms.now }
        ensures ok { OnOk result (self.new ≡ self.old ++ raised_by alarms.now) }
        ensures err { OnErr result (self.new ≡ self.old) }
    {
        self.pairs.reserve(alarms.len())?;
        enter(&mut self.codes, alarms)?;
        append(&mut self.pairs, alarms);
        Ok(())
    }
}

// Appends the pairs of these alarms. There is room for them.
fn append(pairs: &mut Vec<Raised>, alarms: &[Alarm])
    requires { vec_len pairs.old + length alarms.now ≤ vec_capacity pairs.old }
    ensures { pairs.new.items ≡ pairs.old.items ++ raised_by alarms.now }
{
    for alarm in alarms {
        let pair = Raised {
            rule: alarm.rule,
            prefix: alarm.prefix,
        };
        pairs.push(pair).unwrap();
    }
}

// Enters the codes of these alarms, or none of them where memory runs out.
fn enter(codes: &mut BTreeSet<u128>, alarms: &[Alarm]) -> Result<(), AllocError>
    ensures ok { OnOk result ((pairs : List Raised) → AreCoded pairs codes.old → AreCoded (pairs ++ raised_by alarms.now) codes.new) }
    ensures err { OnErr result ((pairs : List Raised) → AreCoded pairs codes.old → AreNew pairs alarms.now → AreCoded pairs codes.new) }
{
    keys_are_of_their_node();
    prefixes_cover_their_own_addresses();
    prefixes_are_ordered();
    for (place, alarm) in alarms.iter().enumerate() {
        if codes.insert(code_of(alarm.rule, &alarm.prefix)).is_err() {
            forget(codes, &alarms[..place]);
            return Err(AllocError);
        }
    }
    Ok(())
}

// Takes the codes of these alarms out again.
fn forget(codes: &mut BTreeSet<u128>, alarms: &[Alarm])
    ensures { (pairs : List Raised) → AreCoded (pairs ++ raised_by alarms.now) codes.old → AreNew pairs alarms.now → AreCoded pairs codes.new }
{
    keys_are_of_their_node();
    prefixes_cover_their_own_addresses();
    prefixes_are_ordered();
    for alarm in alarms {
        codes.remove(&code_of(alarm.rule, &alarm.prefix));
    }
}

// A number for each rule and prefix, by the rule, the kept bits of both sides, and the key. No two pairs share one.
fn code_of(rule: u32, prefix: &Prefix) -> u128
    ensures value { result ≡ pair_code rule prefix.now }
    ensures prefix { IsPrefix finest_grain prefix.now }
{
    prefix.keeps_leading_bits();
    let lengths = u128::from(prefix.source_bits()) * 256 + u128::from(prefix.dest_bits());
    (u128::from(rule) * 65_536 + lengths) << 64 | u128::from(prefix.key())
}
