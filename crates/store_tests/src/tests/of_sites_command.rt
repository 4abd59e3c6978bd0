//! The command that writes one report over several stores.

use super::of_recovery::saved_image;
use super::of_sites::{TWO_SHARDS, disks_of, new_image, next_image, stay};
use super::worked_saves::ONE_SHARD;
use outside_io::{MemorySink, Sink};
use site_merge::{SiteStatus, SiteWords, SiteWordsRefusal, run_sites, site_fault_line, site_paths};
use slot_disk::Disk;
use std::alloc::Global;
use std::test::Fail;

// The share of these words is the whole, so that one line is left.
const TWO_SITES: [&str; 7] = ["sites", "--shards", "1", "--phi", "1000000", "S1", "S2"];

const ONE_STORE_TWICE: [&str; 5] = ["sites", "--shards", "1", "S1", "S1"];

const ASKING_TWO_SHARDS: [&str; 4] = ["sites", "--shards", "2", "S1"];

const WITH_A_SHORT_STORE: [&str; 5] = ["sites", "--shards", "1", "S1", "S3"];

const NINE_NAMES: [&str; 12] = [
    "sites", "--shards", "1", "a", "b", "c", "d", "e", "f", "g", "h", "i",
];

const NO_NAME: [&str; 3] = ["sites", "--shards", "1"];

// The line of the sum has none at either site, where one host explains it.
const MERGED: &str = "sites 2\nsite 1 1\nsite 2 1\ntotal 200\nthreshold 200\n\
                      line 10.1.2.3/32 20.1.2.0/24 200 200\nend\n";

const BESIDE_AN_EMPTY_STORE: &str = "sites 2\nsite 1 0\nsite 2 1\ntotal 100\nthreshold 100\n\
                                     line 10.1.2.3/32 20.1.2.4/32 100 100\nend\n";

// Which calls of the last disk fail, and how many bytes the sink has room for.
#[derive(Clone, Copy)]
struct Outside {
    disk_fails: &'static [u64],
    room: usize,
}

// Nothing fails.
const SOUND: Outside = Outside {
    disk_fails: &[],
    room: 4_096,
};

// How a run ended, and what it wrote.
#[derive(Drop)]
struct Ended {
    status: SiteStatus,
    text: Vec<u8>,
}

// Runs the command over stores with these bytes. `None` where a byte of them changed.
fn run_over(
    alloc: Global,
    words: &[&str],
    images: &[&[u8]],
    outside: Outside,
) -> Result<Option<Ended>, Fail> {
    let mut disks = disks_of(alloc, images, outside.disk_fails)?;
    let mut sink = MemorySink::with_room(alloc, outside.room, Vec::new(alloc))?;
    let status = run_on(alloc, words, disks.as_mut_slice(), &mut sink)?;
    let text = Vec::from_slice(alloc, sink.taken())?;
    let stay = stay(alloc, &disks, images)?;
    Ok(stay.then_some(Ended { status, text }))
}

// Disks and sinks of any kind keep what is known of those in memory out of the proof.
fn run_on<D: Disk, K: Sink>(
    alloc: Global,
    words: &[&str],
    disks: &mut [D],
    sink: &mut K,
) -> Result<SiteStatus, Fail> {
    match site_paths(alloc, words) {
        Ok(paths) if paths.len() == disks.len() => Ok(run_sites(alloc, words, disks, sink)),
        Err(SiteWordsRefusal::Bad(_)) => Ok(run_sites(alloc, words, disks, sink)),
        _ => Err("other stores than names".into()),
    }
}

// Whether a run over stores with these bytes ends with this status and this text.
fn ends(
    alloc: Global,
    words: &[&str],
    images: &[&[u8]],
    outside: Outside,
    status: SiteStatus,
    text: &str,
) -> Result<bool, Fail> {
    let ended = run_over(alloc, words, images, outside)?;
    let Some(ended) = ended else {
        return Ok(false);
    };
    Ok(ended.status == status && ended.text.as_slice() == text.as_bytes())
}

#[test]
fn the_report_of_sites_is_written(rt: HostRuntime) -> Result<(), Fail> {
    assert!(rt; two_stores_are_merged(rt.alloc())?);
    assert!(rt; an_empty_store_counts_nothing(rt.alloc())?);
    Ok(())
}

// A sink without room for the whole took a beginning.
fn two_stores_are_merged(alloc: Global) -> Result<bool, Fail> {
    let images = [saved_image(alloc)?, next_image(alloc)?];
    let images = [images[0].as_slice(), images[1].as_slice()];
    let narrow = Outside { room: 20, ..SOUND };
    Ok(
        ends(alloc, &TWO_SITES, &images, SOUND, SiteStatus::Done, MERGED)?
            && ends(
                alloc,
                &TWO_SITES,
                &images,
                narrow,
                SiteStatus::WriteFault,
                &MERGED[..20],
            )?,
    )
}

fn an_empty_store_counts_nothing(alloc: Global) -> Result<bool, Fail> {
    let images = [new_image(alloc)?, next_image(alloc)?];
    ends(
        alloc,
        &TWO_SITES,
        &[&images[0], &images[1]],
        SOUND,
        SiteStatus::Done,
        BESIDE_AN_EMPTY_STORE,
    )
}

#[test]
fn the_fault_of_sites_is_the_status(rt: HostRuntime) -> Result<(), Fail> {
    assert!(rt; stores_are_refused(rt.alloc())?);
    assert!(rt; words_are_refused(rt.alloc())?);
    Ok(())
}

const SAME_CAPTURE: SiteStatus = SiteStatus::SameCapture {
    first: 1,
    second: 2,
};

const OTHER_SETTINGS: SiteStatus = SiteStatus::OtherSettings {
    site: 1,
    stored: ONE_SHARD,
    asked: TWO_SHARDS,
};

fn stores_are_refused(alloc: Global) -> Result<bool, Fail> {
    let store = saved_image(alloc)?;
    let failing = Outside {
        disk_fails: &[1],
        ..SOUND
    };
    Ok(
        ends(
            alloc,
            &ONE_STORE_TWICE,
            &[&store, &store],
            SOUND,
            SAME_CAPTURE,
            "",
        )? && ends(
            alloc,
            &ASKING_TWO_SHARDS,
            &[&store],
            SOUND,
            OTHER_SETTINGS,
            "",
        )? && ends(
            alloc,
            &WITH_A_SHORT_STORE,
            &[&store, &[0; 63]],
            SOUND,
            SiteStatus::NotFormatted(2),
            "",
        )? && ends(
            alloc,
            &ONE_STORE_TWICE,
            &[&store, &store],
            failing,
            SiteStatus::DiskFault(2),
            "",
        )?,
    )
}

fn words_are_refused(alloc: Global) -> Result<bool, Fail> {
    let too_many = SiteStatus::BadWords(SiteWords::TooMany);
    let refused = SiteStatus::BadWords(SiteWords::Refused);
    Ok(
        ends(alloc, &NINE_NAMES, &[], SOUND, too_many, "")?
            && ends(alloc, &NO_NAME, &[], SOUND, refused, "")?,
    )
}

#[test]
fn sites_have_their_names(rt: HostRuntime) -> Result<(), Fail> {
    assert!(rt; two_paths_are_named(rt.alloc())?);
    Ok(())
}

fn two_paths_are_named(alloc: Global) -> Result<bool, Fail> {
    match site_paths(alloc, &TWO_SITES) {
        Ok(paths) => Ok(paths.len() == 2 && paths[0].as_str() == "S1" && paths[1].as_str() == "S2"),
        Err(_) => Ok(false),
    }
}

#[test]
fn a_line_says_how_sites_ended(rt: HostRuntime) -> Result<(), Fail> {
    assert!(rt; one_capture_has_its_line(rt.alloc())?);
    Ok(())
}

fn one_capture_has_its_line(alloc: Global) -> Result<bool, Fail> {
    let line = site_fault_line(alloc, &SAME_CAPTURE)?;
    let want = "hhh: sites 1 and 2 are of one capture\n";
    Ok(SAME_CAPTURE.number() == 14 && line.as_slice() == want.as_bytes())
}
