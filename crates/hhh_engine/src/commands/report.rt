//! The session that `report` writes.

ghost use Rattle.std.specs.Prelude.{ℕ, ◌≡◌, ◌<◌, false, length, IfOk, IfErr, IfSome, OnOk, IsErrOf};
ghost use Rattle.std.specs.Io.KnownBytes.{IsAtEnd};
ghost use Rattle.outside_io.specs.{ReadsFront};
ghost use Rattle.deal_rules.specs.{dealer_of};
ghost use Rattle.command_words.specs.{AreLimited, HaveWideShare};
ghost use Rattle.hhh_engine.specs.Tasks.{report_task};
ghost use Rattle.hhh_engine.specs.Ending.{course, Ends, faults_of_source};
ghost use Rattle.hhh_engine.specs.Reading.{HasNoText};
ghost use Rattle.report_session.specs.{IsFeedCapture};
ghost use Rattle.run_status.specs.declared.status.Status.TheVariants.{DiskFault};

use crate::commands::Runner;
use crate::{Settings, Status};
use deal_rules::{Dealer, Dealers, Deals};
use dealt_capture::deal_records;
use frame_records::read_records;
use gate_workers::Gate;
use outside_io::{Sink, Source};
use report_session::{DealtFeed, report_dealt};
use report_text::print_tail;
use slot_disk::Disk;
use std::alloc::Global;
use std::marker::Sync;
use std::sync::Wait;
use std::thread::Threads;

/// Reads a capture to its end, opens the store, if the settings ask for one, counts the records while reports are made, and
/// writes the session.
pub(crate) fn report<R: Threads + Wait + Sync, S: Source, K: Sink, D: Disk, G: Gate + Sync>(
    runner: &Runner<'_, R, G>,
    settings: &Settings,
    capture: &mut S,
    sink: &mut K,
    disk: &mut D,
) -> Status
    requires limited { AreLimited settings.now }
    requires wide { HaveWideShare settings.now }
    ensures ends { (other : ℕ) → Ends
        (report_task D.Disk settings.now (λ kind. ⟦<Dealer as Deals>⟧.may_answer (dealer_of kind runner.now.dealers.now))
        (S.left capture.old) (S.left capture.new) disk.old disk.new)
        (course K.Sink (S.left capture.old) (faults_of_source (S.faults capture.old) other) (faults_of_source (S.faults capture.new) other)
        sink.old sink.new) result }
    ensures front { ReadsFront (S.left capture.old) (S.left capture.new) }
    ensures told { (result ≡ DiskFault → ⊥) → D.faults disk.new ≡ D.faults disk.old }
    ensures unused { settings.now.store ≡ false → disk.new ≡ disk.old }
{
    let fed = match read_dealt(runner.alloc, settings, capture, runner.dealers) {
        Ok(fed) => fed,
        Err(status) => return status,
    };
    report_dealt(
        runner.rt,
        runner.alloc,
        fed,
        settings,
        sink,
        disk,
        runner.gate,
    )
}

// Reads a capture to its end, and deals its records as the settings specify.
fn read_dealt<S: Source>(
    alloc: Global,
    settings: &Settings,
    capture: &mut S,
    dealers: &Dealers,
) -> Result<DealtFeed, Status>
    requires limited { AreLimited settings.now }
    ensures dealt { IfOk result (λ fed. IsFeedCapture settings.now (λ kind. ⟦<Dealer as Deals>⟧.may_answer (dealer_of kind dealers.now))
        (S.left capture.old) fed.dealt fed.tail.items) }
    ensures shards { IfOk result (λ fed. length fed.dealt ≡ settings.now.shards) }
    ensures tail { IfOk result (λ fed. 0 < length fed.tail.items) }
    ensures at_end { OnOk result (IsAtEnd (S.left capture.new)) }
    ensures front { ReadsFront (S.left capture.old) (S.left capture.new) }
    ensures refused { IfErr result (HasNoText settings.now.front (S.left capture.old) (S.faults capture.old) (S.faults capture.new)) }
    ensures told { (IsErrOf result Status.ReadFault → ⊥) → S.faults capture.new ≡ S.faults capture.old }
{
    let records = read_records(alloc, capture, settings.weigh, settings.front)?;
    let mut tail = Vec::new(alloc);
    print_tail(&records, &mut tail)?;
    let dealt = deal_records(alloc, records.list, settings, dealers)?;
    Ok(DealtFeed { dealt, tail })
}
