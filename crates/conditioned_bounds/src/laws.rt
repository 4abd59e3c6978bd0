//! Laws of bounds. A caller that calls one has its contract available.

ghost use Rattle.std.specs.Prelude.{◌≡◌, ◌≢◌, ℕ, ◌+◌, ◌*◌, ◌≤◌, List, length, All, AllPairs, sum_by, pos, ◌*ℤ◌, ◌≤ℤ◌};
ghost use Rattle.prefix_lattice.specs.{RecordValue, PrefixValue, IsPrefix, prefix_weight, closest, kept_pairs};
ghost use Rattle.prefix_lattice.specs.{conditioned_weight};
ghost use Rattle.conditioned_bounds.specs.Bounds.{bound_of, prefixes_asked, HoldWeights};
ghost use Rattle.conditioned_bounds.specs.Bounds.{AreNarrow, AreWeights};
ghost use Rattle.prefix_lattice.specs.declared.grain.Grain.{Grain};

use prefix_lattice::{
    closest_lines_explain, covering_goes_up, kept_meets_stay_under, meets_are_greatest,
    staircase_law,
};

/// A law of weights: the weight of a prefix plus the weights of the meets of its closest lines' kept pairs equals
/// its conditioned weight plus the weights of those lines.
pub fn weights_balance()
    ensures { (prefix : PrefixValue) (lines : List PrefixValue) (records : List RecordValue)
        → AllPairs (λ line other. line ≢ other) lines
        → prefix_weight prefix records + sum_by (λ lowest. prefix_weight lowest records) (kept_pairs (closest prefix lines))
        ≡ sum_by (λ line. prefix_weight line records) (closest prefix lines) + conditioned_weight prefix lines records }
{
    covering_goes_up();
    meets_are_greatest();
    closest_lines_explain();
    staircase_law();
}

/// A law of bounds over distinct lines, for any intervals that hold the weights over some records. The bound is at
/// least the conditioned weight. If no interval is wider than a limit, then the bound, and each number that is at
/// most the bound, exceeds that weight by at most the limit times the number of intervals. If the intervals are
/// exactly the weights, the bound is the conditioned weight.
pub fn bounds_hold()
    ensures at_least { (low high : PrefixValue → ℕ) (prefix : PrefixValue) (lines : List PrefixValue) (records : List RecordValue)
        → AllPairs (λ line other. line ≢ other) lines → HoldWeights low high records (prefixes_asked prefix lines)
        → pos (conditioned_weight prefix lines records) ≤ℤ bound_of low high prefix lines }
    ensures at_most { (low high : PrefixValue → ℕ) (prefix : PrefixValue) (lines : List PrefixValue) (records : List RecordValue) (times whole : ℕ)
        → AllPairs (λ line other. line ≢ other) lines → HoldWeights low high records (prefixes_asked prefix lines)
        → AreNarrow low high times whole (prefixes_asked prefix lines)
        → (pos times *ℤ bound_of low high prefix lines) ≤ℤ pos (times * conditioned_weight prefix lines records
        + (1 + length (closest prefix lines) + length (kept_pairs (closest prefix lines))) * whole) }
    ensures reached { (low high : PrefixValue → ℕ) (prefix : PrefixValue) (lines : List PrefixValue) (records : List RecordValue) (times whole least : ℕ)
        → AllPairs (λ line other. line ≢ other) lines → HoldWeights low high records (prefixes_asked prefix lines)
        → AreNarrow low high times whole (prefixes_asked prefix lines) → pos least ≤ℤ bound_of low high prefix lines
        → times * least ≤ times * conditioned_weight prefix lines records
        + (1 + length (closest prefix lines) + length (kept_pairs (closest prefix lines))) * whole }
    ensures exact { (low high : PrefixValue → ℕ) (prefix : PrefixValue) (lines : List PrefixValue) (records : List RecordValue)
        → AllPairs (λ line other. line ≢ other) lines → AreWeights low high records (prefixes_asked prefix lines)
        → bound_of low high prefix lines ≡ pos (conditioned_weight prefix lines records) }
{
    weights_balance();
}

/// A law of the intervals that a bound is made of: for a prefix and lines of one grain, all are of prefixes of that
/// grain.
pub fn only_prefixes_are_asked()
    ensures { (grain : Grain) (prefix : PrefixValue) (lines : List PrefixValue) → IsPrefix grain prefix
        → All (IsPrefix grain) lines
        → All (IsPrefix grain) (prefixes_asked prefix lines) }
{
    kept_meets_stay_under();
}
