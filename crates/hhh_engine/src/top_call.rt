//! The top call: from arguments, a capture and the disk of a store to an output text and a status.

ghost use Rattle.std.specs.Prelude.{◌≡◌};
ghost use Rattle.outside_io.specs.{ReadsFront};
ghost use Rattle.pcap_frames.specs.declared.fault.CaptureFault.{CaptureFault};
ghost use Rattle.deal_rules.specs.{dealer_of};
ghost use Rattle.command_words.specs.{argument_texts, IsLimitedCommand};
ghost use Rattle.command_words.specs.declared.command.Command.TheVariants.{Format};
ghost use Rattle.command_words.specs.declared.settings.Settings.{Settings};
ghost use Rattle.hhh_engine.specs.Commands.{CommandEnds, CommandInOrder};
ghost use Rattle.hhh_engine.specs.Ending.{FormatEnds};
ghost use Rattle.hhh_engine.specs.Inputs.{UsesCapture, UsesSession, UsesStore};
ghost use Rattle.hhh_engine.specs.Rules.{run_rules};
ghost use Rattle.hhh_engine.specs.TopCall.{RunEnds, streams};
ghost use Rattle.report_session.specs.{settings_of_store};
ghost use Rattle.run_status.specs.declared.status.Status.TheVariants.{BadCapture, DiskFault};

use crate::Status;
use crate::commands::Runner;
use crate::commands::audit::audit;
use crate::commands::demo::demo;
use crate::commands::format::format;
use crate::commands::make::make;
use crate::commands::report::report;
use crate::commands::watch::watch;
use crate::commands::weigh::weigh;
use command_words::{Command, read_words};
use deal_rules::{Dealer, Dealers, Deals};
use frame_records::files_are_read_or_refused;
use gate_workers::Gate;
use outside_io::{Sink, Source};
use recovery::{belonging_stores_are_opened, openings_are_decided};
use report_text::session_texts_have_one_reading;
use session_audit::audits_find_one_report;
use slot_disk::Disk;
use std::alloc::Global;
use std::marker::Sync;
use std::sync::Wait;
use std::thread::Threads;
use watch_rules::{Judge, Judges};

/// Runs the command that the arguments `words` ask for.
///
/// `weigh SRC DST` reads a capture to its end, weighs its records, and writes three lines: the least and the
/// greatest weight of the prefix, as given by its Space-Saving table, and the weight of all records.
///
/// `report` reads a capture to its end, deals its records to shards, and writes a session. Workers count the records in
/// the tables of the shards; meanwhile the calling thread writes its reports, and the other callers make theirs, which
/// are written after the workers have ended, before a last report over all records. What goes on at the same time is no
/// promise: the contract says what is written, however the threads are scheduled. A report has a position for each
/// shard, which is how many of its records are counted. Of these records it leaves out no prefix that carries the
/// threshold or more, once what its lines explain is subtracted. With a store `report` goes on from the newest saved
/// cut, and saves each cut that the calling thread reports on, once the report is written.
///
/// `format` makes an empty store on the disk, and writes one line.
///
/// `audit` reads a capture and the text of a session to their ends, deals the records, and audits each report of the
/// session by these records alone. It writes one line: how many reports there are, if all are sound, else what is wrong
/// with the first that is not.
///
/// `watch` reads the text of a session to its end, and writes an alarm for each prefix under that of its rule when a report
/// shows for the first time that its weight is surely at least the rule's limit. The judge gives each alarm its severity.
///
/// `make SEED FRAMES` writes the capture that the seed and the number of frames determine.
///
/// `demo SEED FRAMES` makes that capture in memory, deals its records to shards, counts them by workers, reports on all of
/// them, and audits the report. It writes a summary, which says that the audit found the report sound.
///
/// `gate` is called around each fold and each read. The contract holds for any gate.
pub fn run<R: Threads + Wait + Sync, S: Source, T: Source, K: Sink, D: Disk, G: Gate + Sync>(
    rt: &R,
    alloc: Global,
    words: &[&str],
    capture: &mut S,
    text: &mut T,
    sink: &mut K,
    disk: &mut D,
    gate: &G,
    dealers: &Dealers,
    judge: &Judge,
) -> Status
    ensures { RunEnds S.Source T.Source K.Sink D.Disk (streams capture.old text.old sink.old disk.old)
        (streams capture.new text.new sink.new disk.new) (argument_texts words.now)
        (run_rules (λ kind. ⟦<Dealer as Deals>⟧.may_answer (dealer_of kind dealers.now)) (⟦<Judge as Judges>⟧.may_answer judge.now)) result }
{
    files_are_read_or_refused();
    openings_are_decided();
    session_texts_have_one_reading();
    audits_find_one_report();
    belonging_stores_are_opened();
    let command = match read_words(alloc, words) {
        Ok(command) => command,
        Err(refusal) => return Status::from(refusal),
    };
    let runner = Runner {
        rt,
        alloc,
        gate,
        dealers,
        judge,
    };
    answer(&runner, &command, capture, text, sink, disk)
}

// Runs the command.
fn answer<R: Threads + Wait + Sync, S: Source, T: Source, K: Sink, D: Disk, G: Gate + Sync>(
    runner: &Runner<'_, R, G>,
    command: &Command,
    capture: &mut S,
    text: &mut T,
    sink: &mut K,
    disk: &mut D,
) -> Status
    requires { IsLimitedCommand command.now }
    ensures ends { CommandEnds S.Source T.Source K.Sink D.Disk (streams capture.old text.old sink.old disk.old)
        (streams capture.new text.new sink.new disk.new) (run_rules (λ kind. ⟦<Dealer as Deals>⟧.may_answer (dealer_of kind runner.now.dealers.now))
        (⟦<Judge as Judges>⟧.may_answer runner.now.judge.now)) command.now result }
    ensures order { CommandInOrder S.Source T.Source K.Sink D.Disk (streams capture.old text.old sink.old disk.old)
        (streams capture.new text.new sink.new disk.new) (run_rules (λ kind. ⟦<Dealer as Deals>⟧.may_answer (dealer_of kind runner.now.dealers.now))
        (⟦<Judge as Judges>⟧.may_answer runner.now.judge.now)) command.now result }
    ensures told { (result ≡ DiskFault → ⊥) → D.faults disk.new ≡ D.faults disk.old }
    ensures unused { (UsesStore command.now → ⊥) → disk.new ≡ disk.old }
    ensures reads { (fault : CaptureFault) → result ≡ BadCapture fault → UsesCapture command.now }
    ensures unread { (UsesCapture command.now → ⊥) → capture.new ≡ capture.old }
    ensures text_unread { (UsesSession command.now → ⊥) → text.new ≡ text.old }
    ensures fronts { ReadsFront (S.left capture.old) (S.left capture.new) × ReadsFront (T.left text.old) (T.left text.new) }
    ensures formats { (settings : Settings) → command.now ≡ Format settings
        → FormatEnds D.Disk (settings_of_store settings) sink.old sink.new disk.old disk.new result }
{
    let alloc = runner.alloc;
    match command {
        Command::Weigh { prefix, settings } => weigh(alloc, prefix, settings, capture, sink),
        Command::Report(settings) => report(runner, settings, capture, sink, disk),
        Command::Format(settings) => format(settings, sink, disk),
        Command::Audit(settings) => audit(alloc, settings, capture, text, sink, runner.dealers),
        Command::Watch { rule, grain } => watch(alloc, *rule, *grain, text, sink, runner.judge),
        Command::Make { seed, frames } => make(*seed, *frames, sink),
        Command::Demo {
            seed,
            frames,
            settings,
        } => demo(runner, *seed, *frames, settings, sink),
    }
}
