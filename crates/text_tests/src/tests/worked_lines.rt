//! Prefixes by their texts, and two lines of a report.

ghost use Rattle.std.specs.Prelude.{IfOk};
ghost use Rattle.hhh_report.specs.{AreReportLines};

use hhh_report::{Line, Lines};
use prefix_lattice::{Grain, Prefix};
use std::alloc::Global;
use std::cmp::Ordering;
use std::test::Fail;

/// A prefix of whole bytes.
pub(crate) fn prefix_of(source: &str, dest: &str) -> Result<Prefix, Fail> {
    prefix_of_grain(Grain::Byte, source, dest)
}

/// A prefix of a grain.
pub(crate) fn prefix_of_grain(grain: Grain, source: &str, dest: &str) -> Result<Prefix, Fail> {
    Ok(Prefix::parse(grain, source.as_bytes(), dest.as_bytes())?)
}

// Two lines in their order.
#[tactic(auto, using(crate::proofs::LinePairLemmas::line_pair_is_in_order))]
pub(crate) fn two_lines(alloc: Global, first: Line, second: Line) -> Result<Lines, Fail>
    ensures { IfOk result AreReportLines }
{
    if first.lo > first.hi {
        return Err(Fail::from("first line"));
    }
    if second.lo > second.hi {
        return Err(Fail::from("second line"));
    }
    match first.prefix.order(&second.prefix) {
        Ordering::Less => {}
        _ => return Err(Fail::from("order")),
    }
    let mut lines = Lines::new(alloc);
    lines.push(first)?;
    lines.push(second)?;
    Ok(lines)
}
