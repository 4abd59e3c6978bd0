//! Captures in the pcapng format.

use super::audits::SOUND_TEXT;
use super::endings::compare;
use hhh_engine::Status;
use pcap_frames::{CaptureFault, FaultKind};
use std::alloc::Global;
use std::marker::Sync;
use std::process::Abort;
use std::sync::Wait;
use std::test::Fail;
use std::thread::Threads;
use test_runs::{Handed, SOUND, run_over};

// A section header, an Ethernet interface, and a packet of 34 captured and 100 original bytes, in little-endian order: the
// frame of which `SOUND_TEXT` is the session.
const ONE_PACKET: [u8; 116] = [
    0x0a, 0x0d, 0x0d, 0x0a, 0x1c, 0, 0, 0, 0x4d, 0x3c, 0x2b, 0x1a, 1, 0, 0, 0, 0xff, 0xff, 0xff,
    0xff, 0xff, 0xff, 0xff, 0xff, 0x1c, 0, 0, 0, 1, 0, 0, 0, 0x14, 0, 0, 0, 1, 0, 0, 0, 0, 0, 4, 0,
    0x14, 0, 0, 0, 6, 0, 0, 0, 0x44, 0, 0, 0, 0, 0, 0, 0, 0, 0, 0, 0, 0, 0, 0, 0, 0x22, 0, 0, 0,
    0x64, 0, 0, 0, 2, 0, 0, 0, 0, 2, 2, 0, 0, 0, 0, 1, 8, 0, 0x45, 0, 0, 0x56, 0, 0, 0, 0, 0x40,
    0x11, 0, 0, 10, 1, 2, 3, 20, 1, 2, 3, 0, 0, 0x44, 0, 0, 0,
];

const PACKET_PLACE: usize = 48;

// The session over no frame, of which the first one is cut.
const OF_NONE: &str =
    "opened 0\nreport\nat 0\ntotal 0\nthreshold 1\ndone\nframes 0\nskipped 0 0 0\ncut 48\nend\n";

pub(crate) fn blocks_are_reported<R: Abort + Threads + Wait + Sync>(
    rt: &R,
    alloc: Global,
    handed: &Handed,
) -> Result<(), Fail> {
    let words = ["report", "--shards", "1"];
    let whole = Vec::from_slice(alloc, &ONE_PACKET)?;
    let ended = run_over(rt, alloc, handed, &words, whole, SOUND)?;
    compare(rt, ended, Status::Done, SOUND_TEXT.as_bytes());

    let (front, _) = ONE_PACKET.split_at(100);
    let cut = Vec::from_slice(alloc, front)?;
    let ended = run_over(rt, alloc, handed, &words, cut, SOUND)?;
    let fault = CaptureFault {
        kind: FaultKind::CutBlock,
        place: PACKET_PLACE as u64,
    };
    compare(rt, ended, Status::BadCapture(fault), b"");

    let words = ["report", "--shards", "1", "--front", "yes"];
    let cut = Vec::from_slice(alloc, front)?;
    let ended = run_over(rt, alloc, handed, &words, cut, SOUND)?;
    compare(rt, ended, Status::Done, OF_NONE.as_bytes());
    Ok(())
}

// The weight of the root over two such files in one.
pub(crate) fn two_sections_are_weighed<R: Abort + Threads + Wait + Sync>(
    rt: &R,
    alloc: Global,
    handed: &Handed,
) -> Result<(), Fail> {
    let mut bytes = Vec::from_slice(alloc, &ONE_PACKET)?;
    bytes.extend_from_slice(&ONE_PACKET)?;
    let words = ["weigh", "0.0.0.0/0", "0.0.0.0/0"];
    let ended = run_over(rt, alloc, handed, &words, bytes, SOUND)?;
    compare(rt, ended, Status::Done, b"low 200\nhigh 200\ntotal 200\n");
    Ok(())
}
