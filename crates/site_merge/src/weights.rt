//! The weight of all sites.

ghost use Rattle.std.specs.Prelude.{◌≡◌, ◌<◌, ◌≤◌, length, All, IfErr, OnOk};
ghost use Rattle.prefix_lattice.specs.{total_limit};
ghost use Rattle.site_merge.specs.SiteCut.{site_limit, weight_limit};
ghost use Rattle.site_merge.specs.Taking.{weight_of_marks};

use crate::SiteFault;
use crate::taking::SiteMark;

/// From this weight on the stores of sites give no report.
const TOO_HEAVY: u64 = 1 << 56;

/// Refuses marks that are too heavy together.
pub(crate) fn check_weight(marks: &[SiteMark]) -> Result<(), SiteFault>
    requires few { length marks.now ≤ site_limit }
    requires bounded { All (λ mark. mark.weight < total_limit) marks.now }
    ensures light { OnOk result (weight_of_marks marks.now < weight_limit) }
    ensures refused { IfErr result (λ fault. (fault ≡ SiteFault.TooHeavy (weight_of_marks marks.now)) × (weight_limit ≤ weight_of_marks marks.now)) }
{
    let total = weight_of(marks);
    if total >= TOO_HEAVY {
        return Err(SiteFault::TooHeavy { total });
    }
    Ok(())
}

// The weights of marks together.
fn weight_of(marks: &[SiteMark]) -> u64
    requires few { length marks.now ≤ site_limit }
    requires bounded { All (λ mark. mark.weight < total_limit) marks.now }
    ensures { result ≡ weight_of_marks marks.now }
{
    let mut total = 0;
    for mark in marks {
        total += mark.weight;
    }
    total
}
