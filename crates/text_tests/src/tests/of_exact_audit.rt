//! Audits of reports.

ghost use Rattle.std.specs.Prelude.{◌≡◌, ◌%◌, true};
ghost use Rattle.deal_rules.specs.{IsAsked};
ghost use Rattle.hhh_report.specs.{AreOfGrain};

use super::worked_lines::{prefix_of, prefix_of_grain, two_lines};
use deal_rules::{DealKind, Dealer, Dealt, deal};
use exact_audit::{Verdict, audit};
use hhh_report::{Line, Lines, Positions, Report};
use prefix_lattice::{Grain, Prefix, Record, RecordList};
use std::alloc::{AllocError, Global};
use std::test::Fail;

/// The source, the destination and the weight of a record.
type Sent = (u32, u32, u32);

// One packet of 100 bytes from 10.1.2.3 to 20.1.2.3.
const ONE: [Sent; 1] = [(0x0a01_0203, 0x1401_0203, 100)];

// Two packets to one destination, of 100 and of 10 bytes.
const TWO: [Sent; 2] = [
    (0x0a01_0203, 0x1401_0203, 100),
    (0x0a01_0204, 0x1401_0203, 10),
];

// Two packets whose sources share a byte and a half.
const HALVES: [Sent; 2] = [(0x0a10_0001, 0x1400_0001, 1), (0x0a1f_0001, 0x1400_0001, 1)];

// Packets from N.0.0.1 to (100 + N).0.0.1, N being 1 1 1 3 1 4 1 5 1 6 2.
const ELEVEN: [Sent; 11] = [
    (0x0100_0001, 0x6500_0001, 1),
    (0x0100_0001, 0x6500_0001, 1),
    (0x0100_0001, 0x6500_0001, 1),
    (0x0300_0001, 0x6700_0001, 1),
    (0x0100_0001, 0x6500_0001, 1),
    (0x0400_0001, 0x6800_0001, 1),
    (0x0100_0001, 0x6500_0001, 1),
    (0x0500_0001, 0x6900_0001, 1),
    (0x0100_0001, 0x6500_0001, 1),
    (0x0600_0001, 0x6a00_0001, 1),
    (0x0200_0001, 0x6600_0001, 1),
];

fn in_turn(place: u64, rec: Record, shards: u32) -> u32
    requires { IsAsked place rec shards }
    ensures { result ≡ place % shards }
{
    (place % u64::from(shards)) as u32
}

fn list_of(alloc: Global, sent: &[Sent]) -> Result<RecordList, Fail> {
    let mut list = RecordList::new(alloc);
    for (src, dst, weight) in sent {
        list.push(Record::new(*src, *dst, *weight).ok_or("a weight of 0")?)?;
    }
    Ok(list)
}

/// These records, dealt in turn.
fn dealt_of(alloc: Global, list: &RecordList, shards: u32) -> Result<Dealt, Fail> {
    if shards < 1 || shards > 16 {
        return Err("number of shards".into());
    }
    if list.len() > 16_777_216 {
        return Err("too many records".into());
    }
    let dealer = Dealer::new(DealKind::RoundRobin, Box::new(alloc, in_turn)?);
    Ok(deal(alloc, list, &dealer, shards)?)
}

fn positions_of(alloc: Global, of_shards: &[u64]) -> Result<Positions, AllocError> {
    let mut positions = Positions::new(alloc);
    for position in of_shards {
        positions.push(*position)?;
    }
    Ok(positions)
}

/// A report without lines.
fn without_lines(alloc: Global, at: &[u64], total: u64, threshold: u64) -> Result<Report, Fail> {
    Ok(Report {
        positions: positions_of(alloc, at)?,
        total,
        threshold,
        lines: Lines::new(alloc),
    })
}

/// A report of one line.
fn with_line(
    alloc: Global,
    at: &[u64],
    total: u64,
    threshold: u64,
    line: Line,
) -> Result<Report, Fail> {
    if line.lo > line.hi {
        return Err(Fail::from("low above high"));
    }
    let mut lines = Lines::new(alloc);
    lines.push(line)?;
    Ok(Report {
        positions: positions_of(alloc, at)?,
        total,
        threshold,
        lines,
    })
}

/// A report of two lines in their order.
fn with_two_lines(
    alloc: Global,
    at: &[u64],
    total: u64,
    threshold: u64,
    first: Line,
    second: Line,
) -> Result<Report, Fail> {
    let lines = two_lines(alloc, first, second)?;
    Ok(Report {
        positions: positions_of(alloc, at)?,
        total,
        threshold,
        lines,
    })
}

/// The line of a prefix.
fn line_of(source: &str, dest: &str, lo: u64, hi: u64) -> Result<Line, Fail> {
    Ok(Line {
        prefix: prefix_of(source, dest)?,
        lo,
        hi,
    })
}

/// Whether all lines are of a grain.
fn are_of_grain(lines: &[Line], grain: Grain) -> bool
    ensures { result ≡ true → AreOfGrain grain lines.now }
{
    for line in lines {
        if !line.prefix.of_grain(grain) {
            return false;
        }
    }
    true
}

/// Audits a report over these records, dealt in turn.
fn audit_over(
    alloc: Global,
    grain: Grain,
    sent: &[Sent],
    report: &Report,
    shards: u32,
    capacity: u32,
    phi: u32,
) -> Result<Verdict, Fail> {
    if capacity < 2 || capacity > 4096 {
        return Err("capacity".into());
    }
    if phi < 1 || phi > 1_000_000 {
        return Err("phi".into());
    }
    if !are_of_grain(report.lines.as_slice(), grain) {
        return Err("a line of another grain".into());
    }
    let dealt = dealt_of(alloc, &list_of(alloc, sent)?, shards)?;
    Ok(audit(alloc, &dealt, report, grain, capacity, phi)?)
}

/// Audits a report of the one packet, for tables of 512 entries and a hundredth of the total.
fn audit_one(alloc: Global, report: &Report) -> Result<Verdict, Fail> {
    audit_over(alloc, Grain::Byte, &ONE, report, 1, 512, 10_000)
}

/// Audits a report of the eleven packets in two shards, for half of the total.
fn audit_eleven(alloc: Global, report: &Report, capacity: u32) -> Result<Verdict, Fail> {
    audit_over(alloc, Grain::Byte, &ELEVEN, report, 2, capacity, 500_000)
}

/// The position, total, threshold, low and high of a report, and its verdict.
type Row = (u64, u64, u64, u64, u64, Verdict);

const ROWS: [Row; 9] = [
    (1, 100, 1, 100, 100, Verdict::Good),
    (2, 100, 1, 100, 100, Verdict::BadPositions),
    (0, 100, 1, 100, 100, Verdict::BadTotal),
    (1, 99, 1, 100, 100, Verdict::BadTotal),
    (1, 100, 2, 100, 100, Verdict::BadThreshold),
    (1, 100, 0, 100, 100, Verdict::BadThreshold),
    (1, 100, 1, 99, 99, Verdict::BadInterval(1)),
    (1, 100, 1, 101, 101, Verdict::BadInterval(1)),
    (1, 100, 1, 99, 100, Verdict::TooWide(1)),
];

#[test]
fn one_number_is_changed_at_a_time(rt: HostRuntime) -> Result<(), Fail> {
    assert_eq!(rt; first_wrong(rt.alloc(), &ROWS)?, None);
    Ok(())
}

/// The place of the first row whose verdict is another.
fn first_wrong(alloc: Global, rows: &[Row]) -> Result<Option<usize>, Fail> {
    let prefix = prefix_of("10.1.2.3/32", "20.1.2.3/32")?;
    for (place, row) in rows.iter().enumerate() {
        if !has_its_verdict(alloc, prefix, row)? {
            return Ok(Some(place));
        }
    }
    Ok(None)
}

fn has_its_verdict(alloc: Global, prefix: Prefix, row: &Row) -> Result<bool, Fail> {
    let (at, total, threshold, lo, hi, want) = *row;
    let report = with_line(alloc, &[at], total, threshold, Line { prefix, lo, hi })?;
    Ok(audit_one(alloc, &report)? == want)
}

#[test]
fn a_prefix_without_a_line_is_left_out(rt: HostRuntime) -> Result<(), Fail> {
    let prefix = prefix_of("10.1.2.3/32", "20.1.2.3/32")?;
    assert!(rt; verdict_without_lines(rt.alloc())? == Verdict::LeftOut(prefix, 100));
    Ok(())
}

fn verdict_without_lines(alloc: Global) -> Result<Verdict, Fail> {
    let silent = without_lines(alloc, &[1], 100, 1)?;
    audit_one(alloc, &silent)
}

#[test]
fn prefixes_of_the_grain_are_left_out(rt: HostRuntime) -> Result<(), Fail> {
    let half = prefix_of_grain(Grain::Nibble, "10.16.0.0/12", "20.0.0.1/32")?;
    let whole = prefix_of("10.0.0.0/8", "20.0.0.1/32")?;
    assert!(rt; verdict_on_both_halves(rt.alloc(), Grain::Byte, whole)? == Verdict::Good);
    assert!(rt;
        verdict_on_both_halves(rt.alloc(), Grain::Nibble, whole)? == Verdict::LeftOut(half, 2)
    );
    assert!(rt; verdict_on_both_halves(rt.alloc(), Grain::Nibble, half)? == Verdict::Good);
    Ok(())
}

fn verdict_on_both_halves(alloc: Global, grain: Grain, prefix: Prefix) -> Result<Verdict, Fail> {
    let line = Line {
        prefix,
        lo: 2,
        hi: 2,
    };
    let report = with_line(alloc, &[2], 2, 2, line)?;
    audit_over(alloc, grain, &HALVES, &report, 1, 512, 1_000_000)
}

#[test]
fn a_line_for_which_nothing_is_left_is_too_many(rt: HostRuntime) -> Result<(), Fail> {
    assert!(rt; verdict_with_one_more(rt.alloc())? == Verdict::NotJustified(2));
    Ok(())
}

fn verdict_with_one_more(alloc: Global) -> Result<Verdict, Fail> {
    let first = line_of("10.1.2.3/32", "20.1.2.3/32", 100, 100)?;
    let root = line_of("0.0.0.0/0", "0.0.0.0/0", 100, 100)?;
    let more = with_two_lines(alloc, &[1], 100, 1, first, root)?;
    audit_one(alloc, &more)
}

#[test]
fn each_shard_has_one_position(rt: HostRuntime) -> Result<(), Fail> {
    assert!(rt; verdict_of_two_positions(rt.alloc())? == Verdict::BadPositions);
    Ok(())
}

fn verdict_of_two_positions(alloc: Global) -> Result<Verdict, Fail> {
    let line = line_of("10.1.2.3/32", "20.1.2.3/32", 100, 100)?;
    let two_positions = with_line(alloc, &[1, 0], 100, 1, line)?;
    audit_one(alloc, &two_positions)
}

#[test]
fn a_line_below_the_threshold_is_low(rt: HostRuntime) -> Result<(), Fail> {
    assert!(rt; verdict_on_a_light_line(rt.alloc())? == Verdict::LowLine(2));
    Ok(())
}

fn verdict_on_a_light_line(alloc: Global) -> Result<Verdict, Fail> {
    let first = line_of("10.1.2.3/32", "20.1.2.3/32", 100, 100)?;
    let light = line_of("10.1.2.4/32", "20.1.2.3/32", 10, 10)?;
    let low = with_two_lines(alloc, &[2], 110, 55, first, light)?;
    audit_over(alloc, Grain::Byte, &TWO, &low, 1, 512, 500_000)
}

#[test]
fn records_of_two_shards_are_added(rt: HostRuntime) -> Result<(), Fail> {
    assert!(rt; verdict_on_both_lines(rt.alloc(), 4)? == Verdict::Good);
    // With larger tables an interval as wide is too wide.
    assert!(rt; verdict_on_both_lines(rt.alloc(), 12)? == Verdict::TooWide(1));
    Ok(())
}

fn verdict_on_both_lines(alloc: Global, capacity: u32) -> Result<Verdict, Fail> {
    let first = line_of("1.0.0.1/32", "101.0.0.1/32", 5, 6)?;
    let root = line_of("0.0.0.0/0", "0.0.0.0/0", 11, 11)?;
    let whole = with_two_lines(alloc, &[6, 5], 11, 6, first, root)?;
    audit_eleven(alloc, &whole, capacity)
}

#[test]
fn a_heavy_prefix_of_two_shards_is_left_out(rt: HostRuntime) -> Result<(), Fail> {
    let prefix = prefix_of("1.0.0.1/32", "101.0.0.1/32")?;
    assert!(rt; verdict_on_the_root(rt.alloc())? == Verdict::LeftOut(prefix, 6));
    Ok(())
}

fn verdict_on_the_root(alloc: Global) -> Result<Verdict, Fail> {
    let root = line_of("0.0.0.0/0", "0.0.0.0/0", 11, 11)?;
    let coarse = with_line(alloc, &[6, 5], 11, 6, root)?;
    audit_eleven(alloc, &coarse, 4)
}
