//! What `report` writes.

use super::endings::{Written, each_is_written, writes};
use std::alloc::{AllocError, Global};
use std::marker::Sync;
use std::process::Abort;
use std::sync::Wait;
use std::test::Fail;
use std::thread::Threads;
use test_runs::{HEADER, Handed, ONE, Packet, capture_of, packet_bytes, push_frame};

// Packets from N.0.0.1 to (100 + N).0.0.1, N being 1 to 6.
const X: Packet = (0x0100_0001, 0x6500_0001);

const U: Packet = (0x0200_0001, 0x6600_0001);

const Y: Packet = (0x0300_0001, 0x6700_0001);

const Z: Packet = (0x0400_0001, 0x6800_0001);

const W: Packet = (0x0500_0001, 0x6900_0001);

const V: Packet = (0x0600_0001, 0x6a00_0001);

pub(crate) const ELEVEN: [Packet; 11] = [X, X, X, Y, X, Z, X, W, X, V, U];

// The session over these, dealt in turn to two shards, where one prefix is heavy besides the root.
pub(crate) const ONE_OF_ELEVEN: &str =
    "opened 0 0\nreport\nat 6 5\ntotal 11\nthreshold 6\nline 1.0.0.1/32 101.0.0.1/32 5 6\nline 0.0.0.0/0 0.0.0.0/0 11 11\ndone\nframes 11\nskipped 0 0 0\nend\n";

// Four sources of one network to one destination.
const NETWORK: [Packet; 4] = [
    (0x0a00_0001, 0x1400_0001),
    (0x0a00_0002, 0x1400_0001),
    (0x0a00_0003, 0x1400_0001),
    (0x0a00_0004, 0x1400_0001),
];

// Two sources whose addresses first differ in the last half of their second byte, and one destination.
pub(crate) const HALVES: [Packet; 2] = [(0x0a10_0001, 0x1400_0001), (0x0a1f_0001, 0x1400_0001)];

// The session over these, with one shard and no share below the whole, by bytes and by half bytes.
pub(crate) const HALVES_BY_BYTES: &str =
    "opened 0\nreport\nat 2\ntotal 2\nthreshold 2\nline 10.0.0.0/8 20.0.0.1/32 2 2\ndone\nframes 2\nskipped 0 0 0\nend\n";

pub(crate) const HALVES_BY_NIBBLES: &str =
    "opened 0\nreport\nat 2\ntotal 2\nthreshold 2\nline 10.16.0.0/12 20.0.0.1/32 2 2\ndone\nframes 2\nskipped 0 0 0\nend\n";

// Three packets from 10.0.0.0/8 and three to 20.0.0.0/8, one of which is both, and three that are neither.
const CROSSING: [Packet; 8] = [
    (0x0a01_0001, 0x1f00_0001),
    (0x0a02_0001, 0x2000_0001),
    (0x0a03_0001, 0x1401_0001),
    (0x2100_0001, 0x1402_0001),
    (0x2200_0001, 0x1403_0001),
    (0x2900_0001, 0x3300_0001),
    (0x2a00_0001, 0x3400_0001),
    (0x2b00_0001, 0x3500_0001),
];

// The session over that one packet, with one shard.
const OF_ONE: &str =
    "opened 0\nreport\nat 1\ntotal 100\nthreshold 1\nline 10.1.2.3/32 20.1.2.3/32 100 100\ndone\nframes 1\nskipped 0 0 0\nend\n";

const CASES: [Written; 11] = [
    (
        &["report", "--shards", "1"],
        &[],
        "opened 0\nreport\nat 0\ntotal 0\nthreshold 1\ndone\nframes 0\nskipped 0 0 0\nend\n",
    ),
    (&["report", "--shards", "1"], &[ONE], OF_ONE),
    (
        &["report"],
        &[ONE, ONE],
        "opened 0 0 0 0\nreport\nat 1 1 0 0\ntotal 200\nthreshold 2\nline 10.1.2.3/32 20.1.2.3/32 200 200\ndone\nframes 2\nskipped 0 0 0\nend\n",
    ),
    // X is heavy only by the sum over both shards.
    (
        &[
            "report",
            "--shards",
            "2",
            "--capacity",
            "4",
            "--phi",
            "500000",
            "--weigh",
            "packets",
        ],
        &ELEVEN,
        ONE_OF_ELEVEN,
    ),
    // All sources are odd numbers.
    (
        &[
            "report",
            "--deal=source",
            "--weigh=packets",
            "--phi=500000",
            "--shards=2",
            "--capture=a.pcap",
        ],
        &ELEVEN,
        "opened 0 0\nreport\nat 0 11\ntotal 11\nthreshold 6\nline 1.0.0.1/32 101.0.0.1/32 6 6\ndone\nframes 11\nskipped 0 0 0\nend\n",
    ),
    (
        &[
            "report",
            "--shards",
            "1",
            "--capacity",
            "16",
            "--phi",
            "125000",
        ],
        &[],
        "opened 0\nreport\nat 0\ntotal 0\nthreshold 1\ndone\nframes 0\nskipped 0 0 0\nend\n",
    ),
    (
        &[
            "report", "--shards", "1", "--phi", "500000", "--weigh", "packets",
        ],
        &NETWORK,
        "opened 0\nreport\nat 4\ntotal 4\nthreshold 2\nline 10.0.0.0/24 20.0.0.1/32 4 4\ndone\nframes 4\nskipped 0 0 0\nend\n",
    ),
    (
        &[
            "report", "--shards", "1", "--phi", "500000", "--weigh", "packets", "--bits", "4",
        ],
        &NETWORK,
        "opened 0\nreport\nat 4\ntotal 4\nthreshold 2\nline 10.0.0.0/28 20.0.0.1/32 4 4\ndone\nframes 4\nskipped 0 0 0\nend\n",
    ),
    (
        &[
            "report", "--shards", "1", "--phi", "1000000", "--weigh", "packets",
        ],
        &HALVES,
        HALVES_BY_BYTES,
    ),
    (
        &[
            "report", "--shards", "1", "--phi", "1000000", "--weigh", "packets", "--bits", "4",
        ],
        &HALVES,
        HALVES_BY_NIBBLES,
    ),
    // The packet that both lines cover is counted once for the root.
    (
        &[
            "report", "--shards", "1", "--phi", "375000", "--weigh", "packets",
        ],
        &CROSSING,
        "opened 0\nreport\nat 8\ntotal 8\nthreshold 3\nline 0.0.0.0/0 20.0.0.0/8 3 3\nline 10.0.0.0/8 0.0.0.0/0 3 3\nline 0.0.0.0/0 0.0.0.0/0 8 8\ndone\nframes 8\nskipped 0 0 0\nend\n",
    ),
];

pub(crate) fn reports<R: Abort + Threads + Wait + Sync>(
    rt: &R,
    alloc: Global,
    handed: &Handed,
) -> Result<(), Fail> {
    each_is_written(rt, alloc, handed, &CASES)
}

// The rule answers shard 0 for each record.
pub(crate) fn deals_to_the_first<R: Abort + Threads + Wait + Sync>(
    rt: &R,
    alloc: Global,
    handed: &Handed,
) -> Result<(), Fail> {
    let words = ["report", "--shards", "2", "--deal", "free"];
    let want =
        "opened 0 0\nreport\nat 1 0\ntotal 100\nthreshold 1\nline 10.1.2.3/32 20.1.2.3/32 100 100\ndone\nframes 1\nskipped 0 0 0\nend\n";
    let bytes = capture_of(alloc, &[ONE])?;
    writes(rt, alloc, handed, &words, bytes, want)
}

// The header of a big-endian capture with timestamps in nanoseconds.
const BIG_HEADER: [u8; 24] = [
    0xa1, 0xb2, 0x3c, 0x4d, // magic
    0, 2, 0, 4, // version 2.4
    0, 0, 0, 0, 0, 0, 0, 0, // time zone and accuracy
    0, 4, 0, 0, // snap length 262,144
    0, 0, 0, 1, // link type Ethernet
];

// The header of a frame with 34 captured bytes in a big-endian capture.
const BIG_FRAME_HEADER: [u8; 16] = [0, 0, 0, 0, 0, 0, 0, 0, 0, 0, 0, 34, 0, 0, 0, 100];

// A capture of one frame that begins with this magic, big-endian or little-endian.
fn capture_by(alloc: Global, big: bool, magic: &[u8]) -> Result<Vec<u8>, AllocError> {
    let packet = packet_bytes(alloc, &[], ONE)?;
    let mut bytes = Vec::from_slice(alloc, magic)?;
    if big {
        bytes.extend_from_slice(&BIG_HEADER[4..])?;
        bytes.extend_from_slice(&BIG_FRAME_HEADER)?;
        bytes.extend_from_slice(&packet)?;
    } else {
        bytes.extend_from_slice(&HEADER[4..])?;
        push_frame(&mut bytes, &packet)?;
    }
    Ok(bytes)
}

// A magic, and whether it is that of a big-endian capture.
type Spelling = (bool, [u8; 4]);

const SPELLINGS: [Spelling; 4] = [
    (false, [0xd4, 0xc3, 0xb2, 0xa1]),
    (false, [0x4d, 0x3c, 0xb2, 0xa1]),
    (true, [0xa1, 0xb2, 0xc3, 0xd4]),
    (true, [0xa1, 0xb2, 0x3c, 0x4d]),
];

pub(crate) fn reads_the_four_spellings_of_the_magic<R: Abort + Threads + Wait + Sync>(
    rt: &R,
    alloc: Global,
    handed: &Handed,
) -> Result<(), Fail> {
    each_spelling_is_read(rt, alloc, handed, &SPELLINGS)
}

fn each_spelling_is_read<R: Abort + Threads + Wait + Sync>(
    rt: &R,
    alloc: Global,
    handed: &Handed,
    spellings: &[Spelling],
) -> Result<(), Fail> {
    let words = ["report", "--shards", "1"];
    for (big, magic) in spellings {
        let bytes = capture_by(alloc, *big, magic)?;
        writes(rt, alloc, handed, &words, bytes, OF_ONE)?;
    }
    Ok(())
}

// The VLAN tags before the type of a frame.
const TAG: [u8; 4] = [0x81, 0, 0, 1];

const TWO_TAGS: [u8; 8] = [0x88, 0xa8, 0, 1, 0x81, 0, 0, 2];

const THREE_TAGS: [u8; 12] = [0x88, 0xa8, 0, 1, 0x81, 0, 0, 2, 0x81, 0, 0, 3];

// What is between the addresses and the type of a frame.
type Tags = &'static [u8];

// Three IPv4 frames with no tag, one and two; then ARP, IPv6 and three tags.
const TAGGED: [Tags; 6] = [&[], &TAG, &TWO_TAGS, &[8, 6], &[0x86, 0xdd], &THREE_TAGS];

fn push_tagged(alloc: Global, bytes: &mut Vec<u8>, tagged: &[Tags]) -> Result<(), AllocError> {
    for tags in tagged {
        push_frame(bytes, &packet_bytes(alloc, tags, ONE)?)?;
    }
    Ok(())
}

// A frame whose header is cut off by one byte.
fn push_cut(alloc: Global, bytes: &mut Vec<u8>) -> Result<(), AllocError> {
    let mut cut = packet_bytes(alloc, &[], ONE)?;
    cut.pop();
    push_frame(bytes, &cut)
}

// A frame whose header says that it is too short.
fn push_short(alloc: Global, bytes: &mut Vec<u8>) -> Result<(), AllocError> {
    let whole = packet_bytes(alloc, &[], ONE)?;
    let mut short = Vec::new(alloc);
    for (place, byte) in whole.iter().enumerate() {
        short.push(if place == 14 { 0x44 } else { *byte })?;
    }
    push_frame(bytes, &short)
}

// The tagged frames, then a cut-off header and one too short.
fn mixed_capture(alloc: Global) -> Result<Vec<u8>, AllocError> {
    let mut bytes = Vec::from_slice(alloc, &HEADER)?;
    push_tagged(alloc, &mut bytes, &TAGGED)?;
    push_cut(alloc, &mut bytes)?;
    push_short(alloc, &mut bytes)?;
    Ok(bytes)
}

pub(crate) fn counts_frames_without_a_record<R: Abort + Threads + Wait + Sync>(
    rt: &R,
    alloc: Global,
    handed: &Handed,
) -> Result<(), Fail> {
    let words = ["report", "--shards", "1"];
    let want =
        "opened 0\nreport\nat 3\ntotal 300\nthreshold 3\nline 10.1.2.3/32 20.1.2.3/32 300 300\ndone\nframes 8\nskipped 3 1 1\nend\n";
    writes(rt, alloc, handed, &words, mixed_capture(alloc)?, want)
}
