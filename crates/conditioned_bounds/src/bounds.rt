//! Bounds on conditioned weights.

ghost use Rattle.std.specs.Prelude.{◌≡◌, ◌≢◌, ℕ, ◌+◌, ◌*◌, List, length, All, AllPairs, IfOk, sum_by, pos, ◌-ℤ◌};
ghost use Rattle.std.specs.Prelude.{◌*ℤ◌, ◌≤ℤ◌};
ghost use Rattle.prefix_lattice.specs.{RecordValue, IsPrefix, closest, kept_pairs, conditioned_weight};
ghost use Rattle.conditioned_bounds.specs.Bounds.{bound_of, prefixes_asked, HoldWeights};
ghost use Rattle.conditioned_bounds.specs.Bounds.{AreNarrow, AreWeights};

use crate::sums::{sum_of_highs, sum_of_lows};
use crate::{Intervals, bounds_hold, closest, kept_pairs, only_prefixes_are_asked};
use prefix_lattice::{Prefix, Prefixes};
use std::alloc::{AllocError, Global};

/// A bound on the conditioned weight of a prefix, and the numbers of intervals that it is made of.
#[derive(Clone, Copy, Debug, PartialEq, Eq)]
pub struct BoundParts {
    /// The bound, in bytes or packets. It is negative where the lows of the lines add up to more than the highs.
    pub value: i128,
    /// How many closest lines the prefix has.
    pub closest: u64,
    /// How many pairs of these lines are kept.
    pub pairs: u64,
}

/// The bound of a prefix over the reported lines (Mitzenmacher, Steinke, Thaler 2012): its high and the highs
/// of the meets of its closest lines' kept pairs, less the lows of those lines. A record that n of the lines
/// cover is covered by n - 1 of the meets, so it is subtracted exactly once. All prefixes are of the grain of the
/// intervals. The only error is that memory runs out.
pub fn bound<I: Intervals>(
    alloc: Global,
    prefix: &Prefix,
    reported: &Prefixes,
    intervals: &I,
) -> Result<BoundParts, AllocError>
    requires prefix { IsPrefix (I.grain_of intervals.now) prefix.now }
    requires reported { All (IsPrefix (I.grain_of intervals.now)) reported.now }
    ensures closest { IfOk result (λ parts. parts.closest ≡ length (closest prefix.now reported.now)) }
    ensures pairs { IfOk result (λ parts.
        parts.pairs ≡ length (kept_pairs (closest prefix.now reported.now))) }
    ensures value { IfOk result (λ parts.
        parts.value ≡ bound_of (I.low intervals.now) (I.high intervals.now) prefix.now reported.now) }

    // Over any records, where the reported lines are distinct:
    ensures at_least { IfOk result (λ parts. (records : List RecordValue)
        → AllPairs (λ line other. line ≢ other) reported.now
        → HoldWeights (I.low intervals.now) (I.high intervals.now) records (prefixes_asked prefix.now reported.now)
        → pos (conditioned_weight prefix.now reported.now records) ≤ℤ parts.value) }
    ensures at_most { IfOk result (λ parts. (records : List RecordValue) (times whole : ℕ)
        → AllPairs (λ line other. line ≢ other) reported.now
        → HoldWeights (I.low intervals.now) (I.high intervals.now) records (prefixes_asked prefix.now reported.now)
        → AreNarrow (I.low intervals.now) (I.high intervals.now) times whole (prefixes_asked prefix.now reported.now)
        → (pos times *ℤ parts.value) ≤ℤ pos (times * conditioned_weight prefix.now reported.now records
        + (1 + parts.closest + parts.pairs) * whole)) }
    ensures exact { IfOk result (λ parts. (records : List RecordValue)
        → AllPairs (λ line other. line ≢ other) reported.now
        → AreWeights (I.low intervals.now) (I.high intervals.now) records (prefixes_asked prefix.now reported.now)
        → parts.value ≡ pos (conditioned_weight prefix.now reported.now records)) }
{
    bounds_hold();
    only_prefixes_are_asked();
    let lines = closest(alloc, prefix, reported)?;
    let meets = kept_pairs(alloc, &lines)?;
    Ok(parts_of(prefix, &lines, &meets, intervals))
}

/// The bound of a prefix with these closest lines, and these meets of their kept pairs.
fn parts_of<I: Intervals>(
    prefix: &Prefix,
    lines: &Prefixes,
    meets: &Prefixes,
    intervals: &I,
) -> BoundParts
    requires prefix { IsPrefix (I.grain_of intervals.now) prefix.now }
    requires lines { All (IsPrefix (I.grain_of intervals.now)) lines.now }
    requires meets { All (IsPrefix (I.grain_of intervals.now)) meets.now }
    ensures value { result.value ≡ pos (I.high intervals.now prefix.now + sum_by (I.high intervals.now) meets.now)
        -ℤ pos (sum_by (I.low intervals.now) lines.now) }
    ensures closest { result.closest ≡ length lines.now }
    ensures pairs { result.pairs ≡ length meets.now }
{
    let (_, high) = intervals.interval(prefix);
    let highs = u128::from(high) + sum_of_highs(meets.as_slice(), intervals);
    let lows = sum_of_lows(lines.as_slice(), intervals);
    BoundParts {
        value: highs as i128 - lows as i128,
        closest: lines.len() as u64,
        pairs: meets.len() as u64,
    }
}
