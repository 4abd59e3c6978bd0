//! The least weight at which a prefix is heavy.

ghost use Rattle.std.specs.Prelude.{◌≤◌, ◌<◌};
ghost use Rattle.hhh_report.specs.Thresholds.{IsThreshold, million};
ghost use Rattle.prefix_lattice.specs.{total_limit};

const MILLION: u128 = 1_000_000;

/// The least weight that is at least 1 and at least `phi` parts per million of the total, in the unit of the total,
/// bytes or packets. `phi` is at most 1,000,000 and the total below 2^60, so nothing wraps.
pub fn threshold(phi: u32, total: u64) -> u64
    requires phi { phi ≤ million }
    requires total { total < total_limit }
    ensures { IsThreshold phi total result }
{
    let share = (u128::from(phi) * u128::from(total)).div_ceil(MILLION) as u64;
    share.max(1)
}
