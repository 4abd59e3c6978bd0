//! The report of several stores.

ghost use Rattle.std.specs.Prelude.{◌≤◌, length};
ghost use Rattle.checkpoint.specs.{AreSettings};
ghost use Rattle.site_merge.specs.{site_limit};

use super::of_recovery::{save_first, saved_image, saved_old_image};
use super::worked_saves::{ONE_SHARD, PACKET, disk_of, leaves};
use checkpoint::{StoreSettings, header_of};
use hhh_report::Line;
use prefix_lattice::{Grain, Prefix, Record};
use site_merge::{SiteFault, SiteReport, site_report};
use slot_disk::{Disk, MemoryDisk, format};
use std::alloc::Global;
use std::test::Fail;

// A packet of 100 bytes from 10.1.2.3 to 20.1.2.4.
const NEXT_PACKET: Record = Record {
    dst: 0x1401_0204,
    ..PACKET
};

pub(super) const TWO_SHARDS: StoreSettings = StoreSettings {
    shards: 2,
    ..ONE_SHARD
};

// What sites answer.
type Answer = Result<SiteReport, SiteFault>;

// The bytes of a new store.
pub(super) fn new_image(alloc: Global) -> Result<Vec<u8>, Fail> {
    let mut disk = disk_of(alloc, Vec::new(alloc), None, &[])?;
    format(&mut disk, &header_of(&ONE_SHARD))?;
    Ok(disk.crash(alloc, 0)?)
}

// The bytes of a store that the next packet was saved into.
pub(super) fn next_image(alloc: Global) -> Result<Vec<u8>, Fail> {
    let mut disk = disk_of(alloc, new_image(alloc)?, None, &[])?;
    save_first(alloc, &mut disk, &ONE_SHARD, NEXT_PACKET)?;
    Ok(disk.crash(alloc, 0)?)
}

// Disks of these bytes, of the last of which the calls with these numbers fail.
pub(super) fn disks_of(
    alloc: Global,
    images: &[&[u8]],
    fails: &[u64],
) -> Result<Vec<MemoryDisk>, Fail> {
    let mut disks = Vec::new(alloc);
    for (place, image) in images.iter().enumerate() {
        let fails = if place + 1 == images.len() {
            fails
        } else {
            &[]
        };
        disks.push(disk_of(alloc, image.to_vec(alloc)?, None, fails)?)?;
    }
    Ok(disks)
}

// Whether disks have these bytes, whatever a crash leaves.
pub(super) fn stay(alloc: Global, disks: &[MemoryDisk], images: &[&[u8]]) -> Result<bool, Fail> {
    for (disk, image) in disks.iter().zip(images) {
        if !leaves(alloc, disk, 0, image)? || !leaves(alloc, disk, 1, image)? {
            return Ok(false);
        }
    }
    Ok(true)
}

// The report of stores with these bytes. `None` where a byte of them changed.
fn answer(
    alloc: Global,
    images: &[&[u8]],
    fails: &[u64],
    settings: &StoreSettings,
) -> Result<Option<Answer>, Fail>
    requires settings { AreSettings settings.now }
{
    let mut disks = disks_of(alloc, images, fails)?;
    let made = report_on(alloc, disks.as_mut_slice(), settings)?;
    let stay = stay(alloc, &disks, images)?;
    Ok(stay.then_some(made))
}

// Disks of any kind keep what is known of a disk in memory out of the proof.
fn report_on<D: Disk>(
    alloc: Global,
    disks: &mut [D],
    settings: &StoreSettings,
) -> Result<Answer, Fail>
    requires settings { AreSettings settings.now }
{
    if disks.is_empty() || disks.len() > 8 {
        return Err("no such sites".into());
    }
    Ok(site_report(alloc, disks, settings, 1_000_000))
}

#[test]
fn sites_give_one_report(rt: HostRuntime) -> Result<(), Fail> {
    assert!(rt; two_sites_are_merged(rt.alloc())?);
    assert!(rt; a_site_without_a_cut_counts_nothing(rt.alloc())?);
    Ok(())
}

// The line of the sum has none at either site, where one host explains it.
fn two_sites_are_merged(alloc: Global) -> Result<bool, Fail> {
    let images = [saved_image(alloc)?, next_image(alloc)?];
    let made = answer(alloc, &[&images[0], &images[1]], &[], &ONE_SHARD)?;
    says(made, 2, &[1, 1], 200, "20.1.2.0/24")
}

fn a_site_without_a_cut_counts_nothing(alloc: Global) -> Result<bool, Fail> {
    let images = [new_image(alloc)?, next_image(alloc)?];
    let made = answer(alloc, &[&images[0], &images[1]], &[], &ONE_SHARD)?;
    says(made, 2, &[0, 1], 100, "20.1.2.4/32")
}

// Whether the report has these positions, this total, and one line of this weight: from 10.1.2.3 to this destination.
fn says(
    made: Option<Answer>,
    sites: u32,
    positions: &[u64],
    total: u64,
    dest: &str,
) -> Result<bool, Fail> {
    let Some(Ok(made)) = made else {
        return Ok(false);
    };
    let line = Line {
        prefix: Prefix::parse(Grain::Byte, b"10.1.2.3/32", dest.as_bytes())?,
        lo: total,
        hi: total,
    };
    let report = made.report;
    Ok(
        made.sites == sites
            && made.shards == 1
            && report.positions.as_slice() == positions
            && report.total == total
            && report.threshold == total
            && report.lines.as_slice() == [line].as_slice(),
    )
}

#[test]
fn sites_are_refused(rt: HostRuntime) -> Result<(), Fail> {
    assert!(rt; one_capture_is_refused(rt.alloc())?);
    assert!(rt; stores_are_refused(rt.alloc())?);
    assert!(rt; a_failing_disk_is_told(rt.alloc())?);
    Ok(())
}

// Whether the sites are refused for this fault.
fn is_refused(made: Option<Answer>, fault: SiteFault) -> bool {
    match made {
        Some(Err(told)) => told == fault,
        _ => false,
    }
}

// Stores of two versions over one capture have different digests.
fn one_capture_is_refused(alloc: Global) -> Result<bool, Fail> {
    let store = saved_image(alloc)?;
    let old = saved_old_image(alloc)?;
    let same = answer(alloc, &[&store, &old, &store], &[], &ONE_SHARD)?;
    let fault = SiteFault::SameCapture {
        first: 1,
        second: 3,
    };
    Ok(is_refused(same, fault))
}

const OTHER_SETTINGS: SiteFault = SiteFault::OtherSettings {
    site: 1,
    stored: ONE_SHARD,
    asked: TWO_SHARDS,
};

fn stores_are_refused(alloc: Global) -> Result<bool, Fail> {
    let store = saved_image(alloc)?;
    let other = answer(alloc, &[&store], &[], &TWO_SHARDS)?;
    let short = answer(alloc, &[&store, &store, &[0; 63]], &[], &ONE_SHARD)?;
    Ok(is_refused(other, OTHER_SETTINGS) && is_refused(short, SiteFault::NotFormatted(3)))
}

// What was read before the fault is left as it was.
fn a_failing_disk_is_told(alloc: Global) -> Result<bool, Fail> {
    let store = saved_image(alloc)?;
    let told = answer(alloc, &[&store, &store], &[1], &ONE_SHARD)?;
    Ok(is_refused(told, SiteFault::DiskFault(2)))
}
