//! What each command makes of its inputs, one file for each command.

pub(crate) mod audit;
pub(crate) mod demo;
pub(crate) mod format;
mod made_source;
pub(crate) mod make;
pub(crate) mod report;
pub(crate) mod watch;
pub(crate) mod weigh;

use deal_rules::Dealers;
use gate_workers::Gate;
use std::alloc::Global;
use std::marker::Sync;
use std::sync::Wait;
use std::thread::Threads;
use watch_rules::Judge;

/// What a command is run by: what starts threads, the gate that is told of their steps, the dealers of records, and the judge
/// of alarms.
#[derive(Drop)]
pub(crate) struct Runner<'a, R: Threads + Wait + Sync, G: Gate + Sync> {
    pub(crate) rt: &'a R,
    pub(crate) alloc: Global,
    pub(crate) gate: &'a G,
    pub(crate) dealers: &'a Dealers,
    pub(crate) judge: &'a Judge,
}
