//! The meets of pairs of prefixes that are under no third prefix.

ghost use Rattle.std.specs.Prelude.{◌≡◌, ◌++◌, IfOk, OnOk};
ghost use Rattle.std.specs.List.{filter_map};
ghost use Rattle.prefix_lattice.specs.{same_as, under_third, pair_meet, kept_pairs};

use prefix_lattice::{Prefix, Prefixes};
use std::alloc::{AllocError, Global};

/// The meets of the kept pairs of some members: of each pair whose meet exists and is under no third member. They
/// are in the order of the first member, then of the second. The only error is that memory runs out.
pub fn kept_pairs(alloc: Global, members: &Prefixes) -> Result<Prefixes, AllocError>
    ensures { IfOk result (λ meets. meets ≡ kept_pairs members.now) }
{
    let members = members.as_slice();
    let mut meets = Prefixes::new(alloc);
    for (place, first) in members.iter().enumerate() {
        push_meets(members, first, &members[place + 1..], &mut meets)?;
    }
    Ok(meets)
}

/// Appends the meets of the kept pairs of one member with each of these others.
fn push_meets(
    members: &[Prefix],
    first: &Prefix,
    seconds: &[Prefix],
    meets: &mut Prefixes,
) -> Result<(), AllocError>
    ensures { OnOk result (meets.new ≡ meets.old ++ filter_map (pair_meet members.now first.now) seconds.now) }
{
    for second in seconds {
        if let Some(meet) = kept_meet(members, first, second) {
            meets.push(meet)?;
        }
    }
    Ok(())
}

/// The meet of a pair, if the pair is kept.
fn kept_meet(members: &[Prefix], first: &Prefix, second: &Prefix) -> Option<Prefix>
    ensures { result ≡ pair_meet members.now first.now second.now }
{
    let meet = first.meet(second)?;
    if is_under_third(members, first, second, &meet) {
        None
    } else {
        Some(meet)
    }
}

fn is_under_third(members: &[Prefix], first: &Prefix, second: &Prefix, meet: &Prefix) -> bool
    ensures { result ≡ under_third members.now first.now second.now meet.now }
{
    members.iter().any(|third| meet.under(third)
        && !(is_same(third, first) || is_same(third, second)))
}

/// Whether two prefixes are the same: each is under the other.
fn is_same(prefix: &Prefix, other: &Prefix) -> bool
    ensures { result ≡ same_as prefix.now other.now }
{
    prefix.under(other) && other.under(prefix)
}
