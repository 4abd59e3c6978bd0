//! The lines that explain a prefix most directly.

ghost use Rattle.std.specs.Prelude.{◌≡◌, IfOk};
ghost use Rattle.std.specs.List.{list_any};
ghost use Rattle.prefix_lattice.specs.{strictly_under, lines_under, greatest_lines, closest};

use prefix_lattice::{Prefix, Prefixes};
use std::alloc::{AllocError, Global};

/// The closest lines of a prefix: the reported prefixes that are strictly under it, and strictly under no other
/// such line. They are in the order of `reported`. The only error is that memory runs out.
pub fn closest(alloc: Global, prefix: &Prefix, reported: &Prefixes) -> Result<Prefixes, AllocError>
    ensures { IfOk result (λ lines. lines ≡ closest prefix.now reported.now) }
{
    let under = lines_under(alloc, prefix, reported.as_slice())?;
    greatest(alloc, under.as_slice())
}

/// The lines that are strictly under the prefix.
fn lines_under(alloc: Global, prefix: &Prefix, lines: &[Prefix]) -> Result<Prefixes, AllocError>
    ensures { IfOk result (λ under. under ≡ lines_under prefix.now lines.now) }
{
    let mut under = Prefixes::new(alloc);
    for line in lines {
        if line.strictly_under(prefix) {
            under.push(*line)?;
        }
    }
    Ok(under)
}

/// The members that are strictly under no other member.
fn greatest(alloc: Global, members: &[Prefix]) -> Result<Prefixes, AllocError>
    ensures { IfOk result (λ tops. tops ≡ greatest_lines members.now) }
{
    let mut tops = Prefixes::new(alloc);
    for member in members {
        if !is_under_another(member, members) {
            tops.push(*member)?;
        }
    }
    Ok(tops)
}

fn is_under_another(member: &Prefix, members: &[Prefix]) -> bool
    ensures { result ≡ list_any (λ other. strictly_under member.now other) members.now }
{
    members.iter().any(|other| member.strictly_under(other))
}
