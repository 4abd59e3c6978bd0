//! The lines of a report.

ghost use Rattle.std.specs.Prelude.{◌≡◌, ◌≤◌, IfOk};
ghost use Rattle.shard_state.specs.{most_grain_capacity};

use hhh_output::report_of;
use hhh_report::{Line, Lines, Positions, Report, Reported, Reports};
use prefix_lattice::{Grain, Prefix, Record, RecordList};
use shard_state::{Cut, ShardState};
use std::alloc::Global;
use std::test::Fail;

/// The source and the destination of a packet.
type Packet = (u32, u32);

// Packets from N.0.0.1 to (100 + N).0.0.1, N being 1 to 6.
const X: Packet = (0x0100_0001, 0x6500_0001);

const U: Packet = (0x0200_0001, 0x6600_0001);

const Y: Packet = (0x0300_0001, 0x6700_0001);

const Z: Packet = (0x0400_0001, 0x6800_0001);

const W: Packet = (0x0500_0001, 0x6900_0001);

const V: Packet = (0x0600_0001, 0x6a00_0001);

// The packets X X X Y X Z X W X V U, dealt to two shards in turn.
const DEALT: [&[Packet]; 2] = [&[X, X, X, X, X, U], &[X, Y, Z, W, V]];

// Four sources of one network to one destination.
const NETWORK: [&[Packet]; 1] = [&[
    (0x0a00_0001, 0x1400_0001),
    (0x0a00_0002, 0x1400_0001),
    (0x0a00_0003, 0x1400_0001),
    (0x0a00_0004, 0x1400_0001),
]];

// Three packets from 10.0.0.0/8 and three to 20.0.0.0/8, one of which is both, and three that are neither.
const CROSSING: [&[Packet]; 1] = [&[
    (0x0a01_0001, 0x1f00_0001),
    (0x0a02_0001, 0x2000_0001),
    (0x0a03_0001, 0x1401_0001),
    (0x2100_0001, 0x1402_0001),
    (0x2200_0001, 0x1403_0001),
    (0x2900_0001, 0x3300_0001),
    (0x2a00_0001, 0x3400_0001),
    (0x2b00_0001, 0x3500_0001),
]];

// Two sources whose addresses first differ in the last half of their second byte, and one destination.
const HALVES: [&[Packet]; 1] = [&[(0x0a10_0001, 0x1400_0001), (0x0a1f_0001, 0x1400_0001)]];

/// A record of one packet for each of these, in order.
fn list_of(alloc: Global, packets: &[Packet]) -> Result<RecordList, Fail> {
    let mut list = RecordList::new(alloc);
    for (src, dst) in packets {
        list.push(Record::new(*src, *dst, 1).ok_or("a weight of 0")?)?;
    }
    Ok(list)
}

/// A shard with these packets, folded up to a position.
fn shard_at(
    alloc: Global,
    grain: Grain,
    packets: &[Packet],
    capacity: u32,
    position: u32,
) -> Result<ShardState, Fail>
    requires least { 2 ≤ capacity }
    requires most { capacity ≤ 4096 }
    requires of_grain { capacity ≤ most_grain_capacity grain }
    ensures { IfOk result (λ state. state.base.shape ≡ record { grain = grain; capacity = capacity }) }
{
    let list = list_of(alloc, packets)?;
    if list.len() > 16 {
        return Err("at most 16 packets".into());
    }
    let mut state = ShardState::start(alloc, grain, list, capacity)?;
    if position > 0 {
        state.fold_block(position);
    }
    Ok(state)
}

fn put_shard(cut: &mut Cut, shard: usize, state: &ShardState) -> Result<(), Fail>
    requires { state.now.base.shape ≡ cut.old.shape }
    ensures { cut.new.shape ≡ cut.old.shape }
{
    if shard >= cut.shards() as usize {
        return Err("a shard of the cut".into());
    }
    cut.copy_shard(shard as u32, state);
    Ok(())
}

/// The cut of shards with these lists, each folded up to its position.
fn cut_at(
    alloc: Global,
    grain: Grain,
    capacity: u32,
    lists: &[&[Packet]],
    positions: &[u32],
) -> Result<Cut, Fail>
    requires least { 2 ≤ capacity }
    requires most { capacity ≤ 4096 }
    requires of_grain { capacity ≤ most_grain_capacity grain }
{
    if lists.is_empty() || lists.len() > 16 {
        return Err("1 to 16 lists".into());
    }
    let mut cut = Cut::with_room(alloc, grain, lists.len() as u32, capacity)?;
    for (shard, packets) in lists.iter().enumerate() {
        let position = positions.get(shard).copied().ok_or("a position")?;
        put_shard(
            &mut cut,
            shard,
            &shard_at(alloc, grain, packets, capacity, position)?,
        )?;
    }
    Ok(cut)
}

/// The source, the destination, the least and the greatest weight of a line.
type Wanted = (&'static str, &'static str, u64, u64);

/// A case: the grain, the lists, the positions, the capacity, phi, and what is reported.
struct Case {
    grain: Grain,
    lists: &'static [&'static [Packet]],
    positions: &'static [u32],
    capacity: u32,
    phi: u32,
    total: u64,
    threshold: u64,
    lines: &'static [Wanted],
}

const CASES: [Case; 9] = [
    // The first of six packets is heavy only by the sum over both shards.
    Case {
        grain: Grain::Byte,
        lists: &DEALT,
        positions: &[6, 5],
        capacity: 4,
        phi: 500_000,
        total: 11,
        threshold: 6,
        lines: &[
            ("1.0.0.1/32", "101.0.0.1/32", 5, 6),
            ("0.0.0.0/0", "0.0.0.0/0", 11, 11),
        ],
    },
    // The same shards, read before their ends.
    Case {
        grain: Grain::Byte,
        lists: &DEALT,
        positions: &[4, 2],
        capacity: 4,
        phi: 500_000,
        total: 6,
        threshold: 3,
        lines: &[("1.0.0.1/32", "101.0.0.1/32", 5, 5)],
    },
    // No source is heavy, but their network is.
    Case {
        grain: Grain::Byte,
        lists: &NETWORK,
        positions: &[4],
        capacity: 512,
        phi: 500_000,
        total: 4,
        threshold: 2,
        lines: &[("10.0.0.0/24", "20.0.0.1/32", 4, 4)],
    },
    // What both lines cover is subtracted from the root once.
    Case {
        grain: Grain::Byte,
        lists: &CROSSING,
        positions: &[8],
        capacity: 512,
        phi: 375_000,
        total: 8,
        threshold: 3,
        lines: &[
            ("0.0.0.0/0", "20.0.0.0/8", 3, 3),
            ("10.0.0.0/8", "0.0.0.0/0", 3, 3),
            ("0.0.0.0/0", "0.0.0.0/0", 8, 8),
        ],
    },
    // Nothing was counted yet.
    Case {
        grain: Grain::Byte,
        lists: &DEALT,
        positions: &[0, 0],
        capacity: 4,
        phi: 500_000,
        total: 0,
        threshold: 1,
        lines: &[],
    },
    // The least share that the capacity allows.
    Case {
        grain: Grain::Byte,
        lists: &NETWORK,
        positions: &[4],
        capacity: 16,
        phi: 125_000,
        total: 4,
        threshold: 1,
        lines: &[
            ("10.0.0.1/32", "20.0.0.1/32", 1, 1),
            ("10.0.0.2/32", "20.0.0.1/32", 1, 1),
            ("10.0.0.3/32", "20.0.0.1/32", 1, 1),
            ("10.0.0.4/32", "20.0.0.1/32", 1, 1),
        ],
    },
    // The same four sources by half bytes: they share 28 bits.
    Case {
        grain: Grain::Nibble,
        lists: &NETWORK,
        positions: &[4],
        capacity: 512,
        phi: 500_000,
        total: 4,
        threshold: 2,
        lines: &[("10.0.0.0/28", "20.0.0.1/32", 4, 4)],
    },
    // Two sources share one whole byte, and three half bytes.
    Case {
        grain: Grain::Byte,
        lists: &HALVES,
        positions: &[2],
        capacity: 512,
        phi: 1_000_000,
        total: 2,
        threshold: 2,
        lines: &[("10.0.0.0/8", "20.0.0.1/32", 2, 2)],
    },
    Case {
        grain: Grain::Nibble,
        lists: &HALVES,
        positions: &[2],
        capacity: 512,
        phi: 1_000_000,
        total: 2,
        threshold: 2,
        lines: &[("10.16.0.0/12", "20.0.0.1/32", 2, 2)],
    },
];

/// The report of a case.
fn report_for(alloc: Global, case: &Case) -> Result<Report, Fail> {
    if case.capacity < 2 || case.capacity > 4096 || case.capacity > case.grain.greatest_capacity() {
        return Err("a capacity".into());
    }
    let cut = cut_at(alloc, case.grain, case.capacity, case.lists, case.positions)?;
    report_at(alloc, &cut, case.phi)
}

fn report_at(alloc: Global, cut: &Cut, phi: u32) -> Result<Report, Fail> {
    if cut.shards() > 16 {
        return Err("at most 16 shards".into());
    }
    if phi < 1 || phi > 1_000_000 || u64::from(phi) * u64::from(cut.capacity()) < 2_000_000 {
        return Err("a share that the capacity allows".into());
    }
    Ok(report_of(alloc, cut, phi)?)
}

fn shows(report: &Report, case: &Case) -> Result<bool, Fail> {
    Ok(
        report.total == case.total
            && report.threshold == case.threshold
            && has_these_positions(&report.positions, case.positions)
            && has_these_lines(&report.lines, case)?,
    )
}

fn has_these_positions(positions: &Positions, wanted: &[u32]) -> bool {
    for (place, position) in positions.as_slice().iter().enumerate() {
        if !is_at(wanted, place, *position) {
            return false;
        }
    }
    positions.len() == wanted.len()
}

fn is_at(wanted: &[u32], place: usize, position: u64) -> bool {
    match wanted.get(place) {
        Some(want) => u64::from(*want) == position,
        None => false,
    }
}

fn has_these_lines(lines: &Lines, case: &Case) -> Result<bool, Fail> {
    let wanted = case.lines;
    if lines.len() != wanted.len() || lines.is_empty() != wanted.is_empty() {
        return Ok(false);
    }
    for (place, want) in wanted.iter().enumerate() {
        if !has_line(lines, place, line_of(case.grain, want)?) {
            return Ok(false);
        }
    }
    Ok(true)
}

fn line_of(grain: Grain, wanted: &Wanted) -> Result<Line, Fail> {
    let (source, dest, lo, hi) = *wanted;
    let prefix = Prefix::parse(grain, source.as_bytes(), dest.as_bytes())?;
    Ok(Line { prefix, lo, hi })
}

fn has_line(lines: &Lines, place: usize, line: Line) -> bool {
    place < lines.len() && *lines.at(place) == line && lines.as_slice().get(place) == Some(&line)
}

/// Puts a report with this total into a list. Whether it stands there.
fn stands_in_a_list(alloc: Global, report: Report, total: u64) -> Result<bool, Fail> {
    let mut reports = Reports::new(alloc);
    let was_empty = reports.is_empty();
    let saved = None;
    reports.push(Reported { report, saved })?;
    Ok(was_empty && is_alone(&reports, total))
}

fn is_alone(reports: &Reports, total: u64) -> bool {
    reports.len() == 1 && reports.as_slice().len() == 1 && reports.at(0).report.total == total
}

#[test]
fn cuts_are_reported(rt: HostRuntime) -> Result<(), Fail> {
    assert_eq!(rt; first_wrong(rt.alloc(), &CASES)?, None);
    Ok(())
}

fn first_wrong(alloc: Global, cases: &[Case]) -> Result<Option<usize>, Fail> {
    for (place, case) in cases.iter().enumerate() {
        if !is_reported(alloc, case)? {
            return Ok(Some(place));
        }
    }
    Ok(None)
}

fn is_reported(alloc: Global, case: &Case) -> Result<bool, Fail> {
    let report = report_for(alloc, case)?;
    if !shows(&report, case)? {
        return Ok(false);
    }
    stands_in_a_list(alloc, report, case.total)
}
