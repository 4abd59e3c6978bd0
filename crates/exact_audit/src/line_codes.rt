//! The prefixes of lines, for look-ups.

ghost use Rattle.std.specs.Prelude.{◌≡◌, ◌^◌, ◌<◌, nat_eq, length, position, is_some, IfOk, IfSome};
ghost use Rattle.std.specs.List.{list_any};
ghost use Rattle.prefix_lattice.specs.{IsPrefix, finest_grain, prefix_key};
ghost use Rattle.prefix_lattice.specs.declared.grain.Grain.{Grain};
ghost use Rattle.hhh_report.specs.{AreOfGrain, AreReportLines, prefixes_of_lines};
ghost use Rattle.exact_audit.specs.LineCodes.{AreLineCodes, ArePlaced, line_code};

use crate::seed::Seed;
use hhh_report::Line;
use indexmap::IndexSet;
use prefix_lattice::{Grain, Prefix, keys_are_of_their_node, report_order_is_total};
use std::alloc::{AllocError, Global};

/// The codes of the prefixes of all lines.
#[derive(Drop)]
pub(crate) struct LineCodes {
    codes: IndexSet<u128, Seed>,
}

impl LineCodes {
    /// The codes of these lines, in their order, which are looked up by a seed.
    pub(crate) fn of(alloc: Global, lines: &[Line], seed: Seed) -> Result<LineCodes, AllocError>
        requires { AreReportLines lines.now }
        ensures codes { IfOk result (λ found. (grain : Grain) → AreOfGrain grain lines.now
            → AreLineCodes grain (prefixes_of_lines lines.now) found.codes.keys) }
        ensures placed { IfOk result (λ found. ArePlaced (prefixes_of_lines lines.now) found.codes.keys) }
    {
        keys_are_of_their_node();
        report_order_is_total();
        let mut codes = IndexSet::with_hasher(alloc, seed);
        for line in lines {
            codes.insert(code_of(&line.prefix))?;
        }
        Ok(LineCodes { codes })
    }

    /// Whether a line has this prefix.
    pub(crate) fn has(&self, prefix: &Prefix) -> bool
        ensures value { result ≡ list_any (nat_eq (line_code prefix.now)) self.now.codes.keys }
        ensures prefix { IsPrefix finest_grain prefix.now }
        ensures small { prefix_key prefix.now < 2 ^ 64 }
    {
        self.codes.contains(&code_of(prefix))
    }

    /// The place, from 0, of the line with this prefix, if one has it.
    pub(crate) fn place(&self, prefix: &Prefix) -> Option<usize>
        ensures value { result ≡ position (nat_eq (line_code prefix.now)) self.now.codes.keys }
        ensures has { is_some result ≡ list_any (nat_eq (line_code prefix.now)) self.now.codes.keys }
        ensures within { IfSome result (λ place. place < length self.now.codes.keys) }
        ensures prefix { IsPrefix finest_grain prefix.now }
        ensures small { prefix_key prefix.now < 2 ^ 64 }
    {
        self.codes.get_index_of(&code_of(prefix))
    }
}

// A number for each prefix, by its node among those of the finest grain, of which it is in any case, and then by its
// key. No two prefixes share one.
fn code_of(prefix: &Prefix) -> u128
    ensures value { result ≡ line_code prefix.now }
    ensures prefix { IsPrefix finest_grain prefix.now }
    ensures small { prefix_key prefix.now < 2 ^ 64 }
{
    prefix.keeps_leading_bits();
    let node = prefix.node(Grain::Nibble).unwrap();
    u128::from(node.index()) << 64 | u128::from(prefix.key())
}
