//! Takes the stores of sites, one after another, into one cut.

ghost use Rattle.std.specs.Prelude.{◌≡◌, ◌+◌, ◌<◌, ◌≤◌, ◌++◌, [], ◌∷◌, ℕ, List, Option, length, map, option_map, slice_index};
ghost use Rattle.std.specs.Prelude.{IfErr, IfOk, IsErrOf, OnOk};
ghost use Rattle.outside_io.specs.{FaultRose};
ghost use Rattle.slot_disk.specs.{IfImageKnown};
ghost use Rattle.checkpoint.specs.{AreSettings, SavedValue, saved_value};
ghost use Rattle.recovery.specs.{RefusesReading};
ghost use Rattle.recovery.specs.declared.store_fault.StoreFault.{StoreFault as StoreRefusal};
ghost use Rattle.site_merge.specs.SiteCut.{IsReadStore, site_limit};
ghost use Rattle.site_merge.specs.Sites.{SitesReadAs, SiteReadsAs, RefusesSites, fault_at};
ghost use Rattle.site_merge.specs.Disks.{AreLeftAlone, IsLeftAlone, RoseAtSite};
ghost use Rattle.site_merge.specs.Taking.{HasTaken};

use crate::SiteFault;
use crate::fault::fault_of_site;
use crate::putting::put_site;
use checkpoint::{Saved, StoreSettings};
use recovery::read_store;
use shard_state::Cut;
use slot_disk::Disk;
use std::alloc::{AllocError, Global};

/// What is kept of a store beside its shards.
#[derive(Clone, Copy)]
pub(crate) struct SiteMark {
    /// The digest of the records that its cut counts.
    pub(crate) digest: [u8; 32],
    /// The weight that its cut counts, 0 where it has none.
    pub(crate) weight: u64,
}

/// The stores of sites that were taken so far.
#[derive(Drop)]
pub(crate) struct Taken {
    /// A cut with room for the shards of all sites.
    pub(crate) cut: Cut,
    /// A mark for each store that was taken.
    pub(crate) marks: Vec<SiteMark>,
}

/// Takes the stores of 1 to 8 sites in their order, or refuses the first that isn't read.
pub(crate) fn take_sites<D: Disk>(
    alloc: Global,
    disks: &mut [D],
    settings: &StoreSettings,
) -> Result<Taken, SiteFault>
    requires some { 1 ≤ length disks.old }
    requires few { length disks.old ≤ site_limit }
    requires settings { AreSettings settings.now }
    ensures taken { IfOk result (λ taken. (sites : List (Option SavedValue))
        × SitesReadAs settings.now (map D.reads disks.old) sites × HasTaken settings.now sites 0 taken) }
    ensures refused { IfErr result (RefusesSites settings.now (map D.reads disks.old)) }
    ensures left { AreLeftAlone D.Disk disks.old disks.new }
    ensures fault { (site : ℕ) → IsErrOf result (SiteFault.DiskFault site) → RoseAtSite (map D.faults disks.old) (map D.faults disks.new) site }
    ensures no_fault { (place : ℕ) → (IsErrOf result (SiteFault.DiskFault (place + 1)) → ⊥)
        → slice_index (map D.faults disks.new) place ≡ slice_index (map D.faults disks.old) place }
{
    let sites = disks.len() as u32;
    let mut taken = room_for(alloc, sites, settings)?;
    for place in 0..sites {
        let read = read_site(alloc, &mut disks[place as usize], settings, place + 1)?;
        add_site(&mut taken, settings, place, read)?;
    }
    Ok(taken)
}

// Room for the stores of sites, none of which was taken yet.
fn room_for(alloc: Global, sites: u32, settings: &StoreSettings) -> Result<Taken, AllocError>
    requires some { 1 ≤ sites }
    requires few { sites ≤ site_limit }
    requires settings { AreSettings settings.now }
    ensures { IfOk result (HasTaken settings.now [] sites) }
{
    let cut = Cut::with_room(
        alloc,
        settings.grain,
        sites * settings.shards,
        settings.capacity,
    )?;
    Ok(Taken {
        cut,
        marks: Vec::new(alloc),
    })
}

// Reads the store of the site with this number.
fn read_site<D: Disk>(
    alloc: Global,
    disk: &mut D,
    settings: &StoreSettings,
    site: u32,
) -> Result<Option<Saved>, SiteFault>
    requires { AreSettings settings.now }
    ensures read { IfOk result (λ read. SiteReadsAs settings.now (D.reads disk.old) (option_map saved_value read)) }
    ensures refused { IfErr result (λ fault. (cause : StoreRefusal) × (fault ≡ fault_at site cause)
        × IfImageKnown (D.reads disk.old) (λ image. RefusesReading settings.now image cause)) }
    ensures left { IsLeftAlone D.Disk disk.old disk.new }
    ensures fault { (other : ℕ) → IsErrOf result (SiteFault.DiskFault other) → (other ≡ site) × FaultRose (D.faults disk.old) (D.faults disk.new) }
    ensures no_fault { (IsErrOf result (SiteFault.DiskFault site) → ⊥) → D.faults disk.new ≡ D.faults disk.old }
{
    match read_store(alloc, disk, settings) {
        Ok(read) => Ok(read),
        Err(fault) => Err(fault_of_site(site, fault)),
    }
}

// Puts what the store of a site reads as into the cut, and keeps a mark of it.
fn add_site(
    taken: &mut Taken,
    settings: &StoreSettings,
    place: u32,
    read: Option<Saved>,
) -> Result<(), AllocError>
    requires settings { AreSettings settings.now }
    requires read { IsReadStore settings.now (option_map saved_value read) }
    requires few { place < site_limit }
    requires taken { (sites : List (Option SavedValue)) × (left : ℕ) × (length sites ≡ place) × HasTaken settings.now sites (left + 1) taken.old }
    ensures { OnOk result ((sites : List (Option SavedValue)) (left : ℕ) → length sites ≡ place → HasTaken settings.now sites (left + 1) taken.old
        → HasTaken settings.now (sites ++ option_map saved_value read ∷ []) left taken.new) }
{
    let mark = put_site(&mut taken.cut, place * settings.shards, read);
    Ok(taken.marks.push(mark)?)
}
