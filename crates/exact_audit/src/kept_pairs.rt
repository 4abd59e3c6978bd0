//! The number of kept pairs of some prefixes.

ghost use Rattle.std.specs.Prelude.{◌≡◌, ◌<◌, ◌≤◌, ◌*◌, length};
ghost use Rattle.std.specs.List.{filter_map};
ghost use Rattle.prefix_lattice.specs.{same_as, under_third, pair_meet, kept_pairs};
ghost use Rattle.hhh_report.specs.{line_limit};

use prefix_lattice::Prefix;

/// How many pairs of members are kept: those whose meet exists and is under no third member. It costs up to the cube
/// of the number of members.
pub(crate) fn count_kept_pairs(members: &[Prefix]) -> u64
    requires { length members.now < line_limit }
    ensures number { result ≡ length (kept_pairs members.now) }
    ensures few { result ≤ line_limit * line_limit }
{
    let mut pairs = 0;
    for (place, first) in members.iter().enumerate() {
        pairs += count_kept_with(members, first, &members[place + 1..]);
    }
    pairs
}

// How many pairs of one member with each of these others are kept.
fn count_kept_with(members: &[Prefix], first: &Prefix, seconds: &[Prefix]) -> u64
    requires { length seconds.now < line_limit }
    ensures number { result ≡ length (filter_map (pair_meet members.now first.now) seconds.now) }
    ensures few { result ≤ length seconds.now }
{
    let mut pairs = 0;
    for second in seconds {
        if kept_meet(members, first, second).is_some() {
            pairs += 1;
        }
    }
    pairs
}

// The meet of a pair, if the pair is kept.
fn kept_meet(members: &[Prefix], first: &Prefix, second: &Prefix) -> Option<Prefix>
    ensures { result ≡ pair_meet members.now first.now second.now }
{
    let meet = first.meet(second)?;
    if is_under_third(members, first, second, &meet) {
        None
    } else {
        Some(meet)
    }
}

fn is_under_third(members: &[Prefix], first: &Prefix, second: &Prefix, meet: &Prefix) -> bool
    ensures { result ≡ under_third members.now first.now second.now meet.now }
{
    members.iter().any(|third| meet.under(third)
        && !(is_same(third, first) || is_same(third, second)))
}

// Whether two prefixes are the same: each is under the other.
fn is_same(prefix: &Prefix, other: &Prefix) -> bool
    ensures { result ≡ same_as prefix.now other.now }
{
    prefix.under(other) && other.under(prefix)
}
