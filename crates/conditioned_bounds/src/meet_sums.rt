//! The sum over the meets of kept pairs, without a list of these.

ghost use Rattle.std.specs.Prelude.{◌≡◌, ◌*◌, ◌<◌, ◌≤◌, true, length, sum_by, All, IfSome, Some};
ghost use Rattle.std.specs.List.{filter_map};
ghost use Rattle.prefix_lattice.specs.{IsPrefix, under, under_third, meet, pair_meet, kept_pairs, total_limit};
ghost use Rattle.conditioned_bounds.specs.Members.{member_limit};

use crate::Intervals;
use crate::members::{Members, member_node};
use prefix_lattice::{Prefix, meets_are_greatest, prefixes_are_ordered, uppers_are_above};

/// The sum of the highs of some meets, and how many there are.
#[derive(Clone, Copy, PartialEq, Eq)]
pub(crate) struct MeetSum {
    pub(crate) highs: u128,
    pub(crate) pairs: u64,
}

/// The sum over the meets of the kept pairs of some members. Each pair costs one look-up for each node that has a
/// member, and no memory.
pub(crate) fn sum_of_meets<I: Intervals>(members: &Members, intervals: &I) -> MeetSum
    requires { All (IsPrefix (I.grain_of intervals.now)) members.now }
    ensures highs { result.highs ≡ sum_by (I.high intervals.now) (kept_pairs members.now) }
    ensures pairs { result.pairs ≡ length (kept_pairs members.now) }
    ensures bounded { result.highs ≤ result.pairs * total_limit }
    ensures few { result.pairs ≤ member_limit * member_limit }
{
    let mut sum = MeetSum { highs: 0, pairs: 0 };
    let prefixes = members.as_slice();
    for (place, first) in prefixes.iter().enumerate() {
        let more = sum_of_meets_with(members, first, &prefixes[place + 1..], intervals);
        sum.highs += more.highs;
        sum.pairs += more.pairs;
    }
    sum
}

/// The sum over the meets of the kept pairs of one member with each of these others.
fn sum_of_meets_with<I: Intervals>(
    members: &Members,
    first: &Prefix,
    seconds: &[Prefix],
    intervals: &I,
) -> MeetSum
    requires first { IsPrefix (I.grain_of intervals.now) first.now }
    requires seconds { All (IsPrefix (I.grain_of intervals.now)) seconds.now }
    requires few { length seconds.now < member_limit }
    ensures highs { result.highs ≡ sum_by (I.high intervals.now) (filter_map (pair_meet members.now first.now) seconds.now) }
    ensures pairs { result.pairs ≡ length (filter_map (pair_meet members.now first.now) seconds.now) }
    ensures bounded { result.highs ≤ result.pairs * total_limit }
    ensures few { result.pairs ≤ length seconds.now }
{
    meets_are_greatest();
    let mut sum = MeetSum { highs: 0, pairs: 0 };
    for second in seconds {
        if let Some(meet) = kept_meet(members, first, second) {
            let (_, high) = intervals.interval(&meet);
            sum.highs += u128::from(high);
            sum.pairs += 1;
        }
    }
    sum
}

/// The meet of a pair, if the pair is kept.
fn kept_meet(members: &Members, first: &Prefix, second: &Prefix) -> Option<Prefix>
    ensures value { result ≡ pair_meet members.now first.now second.now }
    ensures meet { IfSome result (λ lowest. meet first.now second.now ≡ Some lowest) }
{
    let meet = first.meet(second)?;
    if is_under_third(members, first, second, &meet) {
        None
    } else {
        Some(meet)
    }
}

/// Whether the meet of a pair is under a third member: one of another node than either, which is looked up there.
fn is_under_third(members: &Members, first: &Prefix, second: &Prefix, meet: &Prefix) -> bool
    requires first { under meet.now first.now ≡ true }
    requires second { under meet.now second.now ≡ true }
    ensures { result ≡ under_third members.now first.now second.now meet.now }
{
    prefixes_are_ordered();
    uppers_are_above();
    let first = member_node(first);
    let second = member_node(second);
    for node in members.nodes() {
        if *node == first {
            continue;
        }
        if *node == second {
            continue;
        }
        let Some(third) = meet.upper(*node) else {
            continue;
        };
        if members.has(&third) {
            return true;
        }
    }
    false
}
