//! A report.

ghost use Rattle.hhh_report.specs.Lines.{AreReportLines};

use crate::{Lines, Positions};

/// What is reported of the records before some positions.
#[derive(Drop)]
pub struct Report {
    /// How many records of each shard are counted, in the order of the shards.
    pub positions: Positions,
    /// The weight of all these records together, in bytes or packets.
    pub total: u64,
    /// The least weight at which a prefix is heavy, at least 1.
    pub threshold: u64,
    /// The lines, in the order of a report: the level falls, then the source address rises, then its kept
    /// bits, then the destination address.
    pub lines: Lines,
    ghost are_lines: { AreReportLines lines },
}
