//! Sums over the intervals of some prefixes.

ghost use Rattle.std.specs.Prelude.{◌≡◌, ◌<◌, All, sum_by};
ghost use Rattle.prefix_lattice.specs.{IsPrefix};
ghost use Rattle.conditioned_bounds.specs.Bounds.{sum_limit};

use crate::Intervals;
use prefix_lattice::Prefix;

/// The sum of the lows.
pub(crate) fn sum_of_lows<I: Intervals>(prefixes: &[Prefix], intervals: &I) -> u128
    requires { All (IsPrefix (I.grain_of intervals.now)) prefixes.now }
    ensures value { result ≡ sum_by (I.low intervals.now) prefixes.now }
    ensures bounded { result < sum_limit }
{
    let mut sum: u128 = 0;
    for prefix in prefixes {
        let (low, _) = intervals.interval(prefix);
        sum += u128::from(low);
    }
    sum
}

/// The sum of the highs.
pub(crate) fn sum_of_highs<I: Intervals>(prefixes: &[Prefix], intervals: &I) -> u128
    requires { All (IsPrefix (I.grain_of intervals.now)) prefixes.now }
    ensures value { result ≡ sum_by (I.high intervals.now) prefixes.now }
    ensures bounded { result < sum_limit }
{
    let mut sum: u128 = 0;
    for prefix in prefixes {
        let (_, high) = intervals.interval(prefix);
        sum += u128::from(high);
    }
    sum
}
