//! An index of the lines of a whole report, compared with the plain list of them.

ghost use Rattle.std.specs.Prelude.{◌≡◌, All, IfOk, IsTrue, OnOk};
ghost use Rattle.std.specs.List.{list_any};
ghost use Rattle.prefix_lattice.specs.{IsPrefix, under};
ghost use Rattle.prefix_lattice.specs.declared.grain.Grain.TheVariants.{Byte};

use conditioned_bounds::{Intervals, LineIndex, bound, closest, kept_pairs};
use cut_merge::Merged;
use deal_rules::{Dealer, Dealt, deal};
use frame_records::{Records, Weigh, read_records};
use hhh_output::{Report, report_of};
use outside_io::MemorySource;
use prefix_lattice::{Grain, Prefix, Prefixes, prefixes_are_ordered};
use shard_state::{Cut, ShardState};
use std::alloc::{AllocError, Global};
use std::process::Abort;
use std::test::Fail;
use traffic_maker::make_bytes;

// The intervals of merged tables.
#[derive(Clone, Copy)]
struct MergedIntervals<'a> {
    merged: &'a Merged,
}

impl Intervals for MergedIntervals<'_> {
    ghost use Rattle.cut_merge.specs.{interval_for};

    ghost low = { λ s prefix. (interval_for s.merged.now prefix).low };

    ghost high = { λ s prefix. (interval_for s.merged.now prefix).high };

    ghost grain_of = { λ s. s.merged.now.shape.grain };

    fn grain(&self) -> Grain {
        self.merged.grain()
    }

    fn interval(&self, prefix: &Prefix) -> (u64, u64) {
        self.merged.interval(prefix)
    }
}

// The records of 200,000 made frames.
fn demo_records(alloc: Global) -> Result<Records, Fail> {
    let bytes = make_bytes(alloc, 7, 200_000)?;
    let mut capture = MemorySource::new(bytes, Vec::new(alloc), 65_536);
    Ok(read_records(alloc, &mut capture, Weigh::Bytes, false).map_err(|_| "a capture")?)
}

// These records, dealt to 8 shards.
fn demo_dealt(rt: &impl Abort, alloc: Global, dealer: &Dealer) -> Result<Dealt, Fail> {
    let records = demo_records(alloc)?;
    assert!(rt; records.list.len() <= 200_000);
    Ok(deal(alloc, &records.list, dealer, 8)?)
}

// The tables of the shards that count the records.
fn demo_cut(rt: &impl Abort, alloc: Global, dealer: &Dealer) -> Result<Cut, Fail> {
    let dealt = demo_dealt(rt, alloc, dealer)?;
    let mut cut = Cut::with_room(alloc, Grain::Byte, 8, 512)?;
    for shard in 0..dealt.shards() {
        let state = counted(rt, alloc, &dealt, shard)?;
        assert!(rt; shard < cut.shards());
        cut.copy_shard(shard, &state);
    }
    Ok(cut)
}

// A shard after all its records.
fn counted(rt: &impl Abort, alloc: Global, dealt: &Dealt, shard: u32) -> Result<ShardState, Fail>
    ensures { IfOk result (λ state. state.base.shape ≡ record { grain = Byte; capacity = 512 }) }
{
    assert!(rt; shard < dealt.shards());
    let list = dealt.list(shard).copy(alloc)?;
    assert!(rt; list.len() <= 200_000);
    let mut state = ShardState::start(alloc, Grain::Byte, list, 512)?;
    state.fold_block(200_000);
    Ok(state)
}

// Whether a prefix is under one of some lines, or is one of them.
fn is_under_any(lines: &Prefixes, prefix: &Prefix) -> bool
    ensures { result ≡ list_any (λ line. under prefix.now line) lines.now }
{
    lines.as_slice().iter().any(|line| prefix.under(line))
}

// Pushes a prefix of a grain that is under no line yet to both.
fn push_new(
    rt: &impl Abort,
    grain: Grain,
    lines: &mut Prefixes,
    index: &mut LineIndex,
    prefix: &Prefix,
) -> Result<(), AllocError>
    requires grain { index.old.grain ≡ grain }
    requires lines { lines.old ≡ index.old.lines }
    ensures grain { OnOk result (index.new.grain ≡ grain) }
    ensures lines { OnOk result (lines.new ≡ index.new.lines) }
{
    prefixes_are_ordered();
    assert!(rt; lines.len() < 28);
    assert!(rt; prefix.of_grain(grain));
    assert!(rt; !is_under_any(lines, prefix));
    lines.push(*prefix)?;
    index.push(prefix)
}

// Whether all prefixes are of a grain.
fn are_of_grain(prefixes: &Prefixes, grain: Grain) -> bool
    ensures { IsTrue result → All (IsPrefix grain) prefixes.now }
{
    for prefix in prefixes.as_slice() {
        if !prefix.of_grain(grain) {
            return false;
        }
    }
    true
}

// How many pairs of lines the plain calls find for a prefix.
fn pairs_of(alloc: Global, lines: &Prefixes, prefix: &Prefix) -> Result<u64, Fail> {
    let near = closest(alloc, prefix, lines)?;
    Ok(kept_pairs(alloc, &near)?.len() as u64)
}

// Whether the index returns for a prefix what the plain calls return.
fn agree(
    rt: &impl Abort,
    alloc: Global,
    lines: &Prefixes,
    index: &LineIndex,
    prefix: &Prefix,
    intervals: &MergedIntervals<'_>,
) -> Result<(), Fail>
    requires { index.now.grain ≡ intervals.now.merged.now.shape.grain }
{
    assert!(rt; prefix.of_grain(intervals.grain()));
    let near = closest(alloc, prefix, lines)?;
    assert_eq!(rt; index.closest(prefix)?.as_slice(), near.as_slice());
    agree_on_bound(rt, alloc, lines, index, prefix, intervals)
}

fn agree_on_bound(
    rt: &impl Abort,
    alloc: Global,
    lines: &Prefixes,
    index: &LineIndex,
    prefix: &Prefix,
    intervals: &MergedIntervals<'_>,
) -> Result<(), Fail>
    requires grain { index.now.grain ≡ intervals.now.merged.now.shape.grain }
    requires prefix { IsPrefix index.now.grain prefix.now }
{
    assert!(rt; are_of_grain(lines, intervals.grain()));
    let parts = bound(alloc, prefix, lines, intervals)?;
    assert_eq!(rt; parts.pairs, pairs_of(alloc, lines, prefix)?);
    assert_eq!(rt; index.bound(prefix, intervals)?, parts);
    Ok(())
}

// The report has 28 lines, as that of `demo` over the same records.
fn report_on(rt: &impl Abort, alloc: Global, cut: &Cut) -> Result<Report, Fail> {
    assert!(rt; cut.shards() <= 16);
    assert!(rt; cut.capacity() == 512);
    let report = report_of(alloc, cut, 10_000)?;
    assert_eq!(rt; report.lines.len(), 28);
    Ok(report)
}

fn merged_of(rt: &impl Abort, alloc: Global, cut: &Cut) -> Result<Merged, Fail> {
    assert!(rt; cut.shards() <= 16);
    assert!(rt; cut.capacity() == 512);
    Ok(Merged::of(alloc, cut)?)
}

pub(crate) fn compares_a_report(
    rt: &impl Abort,
    alloc: Global,
    dealer: &Dealer,
) -> Result<(), Fail> {
    let cut = demo_cut(rt, alloc, dealer)?;
    let report = report_on(rt, alloc, &cut)?;
    let merged = merged_of(rt, alloc, &cut)?;
    compares_the_lines_of_a_report(rt, alloc, &report, &MergedIntervals { merged: &merged })
}

fn compares_the_lines_of_a_report(
    rt: &impl Abort,
    alloc: Global,
    report: &Report,
    intervals: &MergedIntervals<'_>,
) -> Result<(), Fail> {
    let mut lines = Prefixes::new(alloc);
    let grain = intervals.grain();
    let mut index = LineIndex::new(alloc, grain);
    for line in report.lines.as_slice() {
        push_new(rt, grain, &mut lines, &mut index, &line.prefix)?;
    }
    agree_on_each(rt, alloc, &lines, &index, intervals)
}

// Also for the root, which is no line.
fn agree_on_each(
    rt: &impl Abort,
    alloc: Global,
    lines: &Prefixes,
    index: &LineIndex,
    intervals: &MergedIntervals<'_>,
) -> Result<(), Fail>
    requires { index.now.grain ≡ intervals.now.merged.now.shape.grain }
{
    let root = Prefix::parse(Grain::Byte, b"0.0.0.0/0", b"0.0.0.0/0").map_err(|_| "a prefix")?;
    agree(rt, alloc, lines, index, &root, intervals)?;
    for prefix in lines.as_slice() {
        agree(rt, alloc, lines, index, prefix, intervals)?;
    }
    Ok(())
}
