//! The report of several sites.

ghost use Rattle.std.specs.Prelude.{◌≡◌, ◌+◌, ◌<◌, ◌≤◌, ℕ, List, Option, Some, length, map, slice_index, IfErr, IfOk, IsErrOf};
ghost use Rattle.prefix_lattice.specs.{RecordValue};
ghost use Rattle.hhh_report.specs.{IsSound, million};
ghost use Rattle.hhh_output.specs.{IsWideShare};
ghost use Rattle.checkpoint.specs.{AreSettings, SavedValue};
ghost use Rattle.site_merge.specs.SiteCut.{site_limit, site_lists};
ghost use Rattle.site_merge.specs.Sites.{SitesReadAs, RefusesSites, SitesBelong};
ghost use Rattle.site_merge.specs.Disks.{AreLeftAlone, RoseAtSite};
ghost use Rattle.site_merge.specs.Reporting.{IsSiteReport, MustRefuseSites, MustReport};

use crate::SiteFault;
use crate::captures::check_captures;
use crate::laws::site_reports_are_decided;
use crate::taking::take_sites;
use crate::weights::check_weight;
use checkpoint::{StoreSettings, stores_open_to_one};
use hhh_output::report_of;
use hhh_report::Report;
use shard_state::{shards_stand, snapshots_hold_weights};
use slot_disk::Disk;
use std::alloc::Global;

/// The report of several sites.
#[derive(Drop)]
pub struct SiteReport {
    /// The report. Its positions are those of the shards of the first site, then those of the second, and so on.
    pub report: Report,
    /// How many sites there are.
    pub sites: u32,
    /// How many shards each of them has.
    pub shards: u32,
}

/// One report over the stores of 1 to 8 sites, all of these settings: that of the cut which has the shards of the first
/// store's newest cut, then those of the second, and so on. A store that has no cut counts nothing. `phi` is as for
/// `report_of`.
///
/// Where each store belongs to the dealt records of its site, the report is sound over those of all sites together.
///
/// Each refusal comes exactly if its variant says so. Whatever is returned, each disk reads as before, and a crash leaves
/// nothing of it that it could not have left before.
pub fn site_report<D: Disk>(
    alloc: Global,
    disks: &mut [D],
    settings: &StoreSettings,
    phi: u32,
) -> Result<SiteReport, SiteFault>
    requires some { 1 ≤ length disks.old }
    requires few { length disks.old ≤ site_limit }
    requires settings { AreSettings settings.now }
    requires least { 1 ≤ phi }
    requires most { phi ≤ million }
    requires wide { IsWideShare phi settings.now.capacity }
    ensures made { IfOk result (λ made. (sites : List (Option SavedValue))
        × SitesReadAs settings.now (map D.reads disks.old) sites × IsSiteReport settings.now sites phi made) }
    ensures sound { IfOk result (λ made. (dealt : List (List (List RecordValue))) → SitesBelong settings.now (map D.reads disks.old) dealt
        → IsSound settings.now.grain made.report (site_lists dealt) settings.now.capacity phi) }
    ensures refused { IfErr result (RefusesSites settings.now (map D.reads disks.old)) }
    ensures must_report { (images : List (List ℕ)) → map D.reads disks.old ≡ map Some images → MustReport settings.now images phi result }
    ensures must_refuse { (images : List (List ℕ)) → map D.reads disks.old ≡ map Some images → MustRefuseSites settings.now images result }
    ensures left { AreLeftAlone D.Disk disks.old disks.new }
    ensures fault { (site : ℕ) → IsErrOf result (SiteFault.DiskFault site) → RoseAtSite (map D.faults disks.old) (map D.faults disks.new) site }
    ensures no_fault { (place : ℕ) → (IsErrOf result (SiteFault.DiskFault (place + 1)) → ⊥)
        → slice_index (map D.faults disks.new) place ≡ slice_index (map D.faults disks.old) place }
{
    site_reports_are_decided();
    report_sites(alloc, disks, settings, phi)
}

// The same, but for what must be returned where the bytes of all sites are known.
fn report_sites<D: Disk>(
    alloc: Global,
    disks: &mut [D],
    settings: &StoreSettings,
    phi: u32,
) -> Result<SiteReport, SiteFault>
    requires some { 1 ≤ length disks.old }
    requires few { length disks.old ≤ site_limit }
    requires settings { AreSettings settings.now }
    requires least { 1 ≤ phi }
    requires most { phi ≤ million }
    requires wide { IsWideShare phi settings.now.capacity }
    ensures made { IfOk result (λ made. (sites : List (Option SavedValue))
        × SitesReadAs settings.now (map D.reads disks.old) sites × IsSiteReport settings.now sites phi made) }
    ensures sound { IfOk result (λ made. (dealt : List (List (List RecordValue))) → SitesBelong settings.now (map D.reads disks.old) dealt
        → IsSound settings.now.grain made.report (site_lists dealt) settings.now.capacity phi) }
    ensures refused { IfErr result (RefusesSites settings.now (map D.reads disks.old)) }
    ensures left { AreLeftAlone D.Disk disks.old disks.new }
    ensures fault { (site : ℕ) → IsErrOf result (SiteFault.DiskFault site) → RoseAtSite (map D.faults disks.old) (map D.faults disks.new) site }
    ensures no_fault { (place : ℕ) → (IsErrOf result (SiteFault.DiskFault (place + 1)) → ⊥)
        → slice_index (map D.faults disks.new) place ≡ slice_index (map D.faults disks.old) place }
{
    stores_open_to_one();
    shards_stand();
    snapshots_hold_weights();
    let taken = take_sites(alloc, disks, settings)?;
    check_captures(taken.marks.as_slice())?;
    check_weight(taken.marks.as_slice())?;
    let report = report_of(alloc, &taken.cut, phi)?;
    Ok(SiteReport {
        report,
        sites: taken.marks.len() as u32,
        shards: settings.shards,
    })
}
