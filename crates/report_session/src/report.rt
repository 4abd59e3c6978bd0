//! The session over the dealt records of a capture.

ghost use Rattle.std.specs.Prelude.{◌≡◌, ◌<◌, false, length};
ghost use Rattle.command_words.specs.{AreLimited, HaveWideShare};
ghost use Rattle.report_session.specs.DealtFeed.{FeedEnds};
ghost use Rattle.report_session.specs.Saving.{IsAsBefore, AreKeptOnDisk};

use crate::base::open_base;
use crate::feed::Setup;
use crate::session::{openings_stand, write_session};
use checkpoint::stores_show_their_header;
use command_words::Settings;
use deal_rules::Dealt;
use gate_workers::Gate;
use outside_io::Sink;
use run_status::Status;
use slot_disk::Disk;
use std::alloc::Global;
use std::marker::Sync;
use std::sync::Wait;
use std::thread::Threads;

/// The dealt records of a capture.
#[derive(Drop)]
pub struct DealtFeed {
    /// The list of each shard.
    pub dealt: Dealt,
    /// The last lines of the session over the capture.
    pub tail: Vec<u8>,
}

/// Opens the store, if the settings ask for one, counts dealt records while reports are made, and writes the session, which
/// ends with the lines `tail`. With a store it goes on from the newest saved cut, and saves each cut that the calling thread
/// reports on.
pub fn report_dealt<R: Threads + Wait + Sync, K: Sink, D: Disk, G: Gate + Sync>(
    rt: &R,
    alloc: Global,
    fed: DealtFeed,
    settings: &Settings,
    sink: &mut K,
    disk: &mut D,
    gate: &G,
) -> Status
    requires limited { AreLimited settings.now }
    requires wide { HaveWideShare settings.now }
    requires shards { length fed.dealt ≡ settings.now.shards }
    requires tail { 0 < length fed.tail.items }
    ensures ends { FeedEnds K.Sink D.Disk settings.now fed.dealt fed.tail.items sink.old sink.new disk.old disk.new result }
    ensures unused { settings.now.store ≡ false → disk.new ≡ disk.old }
{
    let DealtFeed { dealt, tail } = fed;
    let base = match open_base(alloc, settings, &dealt, disk) {
        Ok(base) => base,
        Err(status) => return status,
    };
    openings_stand(&dealt, &base.cut, settings);
    stores_show_their_header();
    let setup = Setup {
        rt,
        alloc,
        gate,
        settings,
    };
    match write_session(&setup, dealt, base, &tail, sink, disk) {
        Ok(()) => Status::Done,
        Err(status) => status,
    }
}
