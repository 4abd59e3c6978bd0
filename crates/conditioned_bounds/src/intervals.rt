//! The source of the intervals of prefixes.

ghost use Rattle.std.specs.Prelude.{◌≡◌, ◌<◌, ◌≤◌, ℕ};
ghost use Rattle.prefix_lattice.specs.{PrefixValue, IsPrefix, total_limit};
ghost use Rattle.prefix_lattice.specs.declared.grain.Grain.{Grain};

use prefix_lattice::{Grain, Prefix};

/// Intervals that hold the weights of prefixes of one grain, as a summary of some traffic gives them.
pub trait Intervals {
    /// The least weight that each prefix can have.
    ghost low: { Self → PrefixValue → ℕ };

    /// The greatest weight that each prefix can have.
    ghost high: { Self → PrefixValue → ℕ };

    /// The grain of the prefixes that have intervals.
    ghost grain_of: { Self → Grain };

    /// The grain of the prefixes that have intervals.
    fn grain(&self) -> Grain
        ensures { result ≡ grain_of self.now };

    /// The least and the greatest weight that a prefix of the grain can have, in bytes or packets. The least is at most
    /// the greatest, which is below 2^60.
    fn interval(&self, prefix: &Prefix) -> (u64, u64)
        requires { IsPrefix (grain_of self.now) prefix.now }
        ensures least { result.0 ≡ low self.now prefix.now }
        ensures most { result.1 ≡ high self.now prefix.now }
        ensures ordered { result.0 ≤ result.1 }
        ensures bounded { result.1 < total_limit };
}
