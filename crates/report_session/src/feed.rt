//! The running feed: workers count records while the calling thread and the other callers make their rounds.

ghost use Rattle.std.specs.Prelude.{◌≡◌, length, IfErr, IfOk, IfSome, None, OnErr, OnOk, is_some};
ghost use Rattle.shard_state.specs.{HasCoreShape, core_shape};
ghost use Rattle.pass_tokens.specs.{IsPassOf, first_view, view};
ghost use Rattle.command_words.specs.{AreLimited, HaveWideShare};
ghost use Rattle.report_session.specs.DealtFeed.{IsFeedFault, IsFeedResult, IsGathered};
ghost use Rattle.report_session.specs.DealtFeed.{FeedBreaksOff, RunsPlan, feed_plan};
ghost use Rattle.report_session.specs.Saving.{CanMakeSaves, SavesInPart, SavesInTurn};
ghost use Rattle.report_session.specs.Session.{asked_shape};

use crate::LiveRounds;
use checkpoint::Saver;
use command_words::Settings;
use gate_workers::{Gate, Gathered, ThreadPlan, calls_follow_calls, run_threads};
use outside_io::Sink;
use pass_tokens::{Board, Pass};
use run_status::Status;
use shard_state::Cut;
use slot_disk::Disk;
use std::alloc::Global;
use std::marker::Sync;
use std::sync::Wait;
use std::thread::Threads;

/// What a session is made with: what starts threads, the gate that is told of their steps, and the settings.
#[derive(Drop)]
pub(crate) struct Setup<'a, R: Threads + Wait + Sync, G: Gate + Sync> {
    pub(crate) rt: &'a R,
    pub(crate) alloc: Global,
    pub(crate) gate: &'a G,
    pub(crate) settings: &'a Settings,
}

/// What the calling thread reads with: its pass, and the cut that it reads into.
#[derive(Drop)]
pub(crate) struct Reader {
    pub(crate) pass: Pass,
    pub(crate) cut: Cut,
}

/// What is there after the threads fed the board to the ends.
#[derive(Drop)]
pub(crate) struct Fed {
    /// What the threads bring back.
    pub(crate) gathered: Gathered,
    /// What the calling thread reads into.
    pub(crate) cut: Cut,
}

/// Feeds the board to the ends by the plan of the settings, while the calling thread and the other callers make their
/// rounds. With a saver the calling thread saves each of its cuts.
pub(crate) fn feed<'a, R: Threads + Wait + Sync, K: Sink, D: Disk, G: Gate + Sync>(
    setup: &Setup<'_, R, G>,
    board: &Board,
    reader: Reader,
    sink: &'a mut K,
    disk: &'a mut D,
    saver: &'a mut Option<Saver>,
    gate: &'a G,
) -> Result<Fed, Status>
    requires limited { AreLimited setup.now.settings.now }
    requires wide { HaveWideShare setup.now.settings.now }
    requires pass { IsPassOf board.now reader.pass }
    requires view { view reader.pass ≡ first_view board.now.opening }
    requires shape { HasCoreShape (length board.now.opening) (core_shape board.now.opening) reader.cut }
    requires alike { core_shape board.now.opening ≡ asked_shape setup.now.settings.now }
    requires used { is_some saver.old ≡ setup.now.settings.now.store }
    requires can_save { IfSome saver.old (CanMakeSaves (D.reads disk.old) (D.image_now disk.old) board.now.opening (view reader.pass)
        setup.now.settings.now.rounds) }
    ensures ran { IfOk result (λ fed. RunsPlan board.now setup.now.settings.now (view reader.pass) fed.gathered) }
    ensures fed { IfOk result (IsFeedResult board.now setup.now.settings.now
        (SavesInTurn D.Disk saver.old saver.new disk.old disk.new) (K.taken sink.old) (K.taken sink.new)) }
    ensures faults { OnOk result ((K.faults sink.new ≡ K.faults sink.old) × (D.faults disk.new ≡ D.faults disk.old)) }
    ensures part { OnErr result (FeedBreaksOff board.now.opening setup.now.settings.now
        (SavesInPart D.Disk saver.old disk.old disk.new) (K.taken sink.old) (K.taken sink.new)) }
    ensures fault { IfErr result (IsFeedFault (record { sink = K.faults sink.old; disk = D.faults disk.old })
        (record { sink = K.faults sink.new; disk = D.faults disk.new })) }
    ensures unused { saver.old ≡ None → (saver.new ≡ None) × (disk.new ≡ disk.old) }
{
    let settings = setup.settings;
    let Reader { pass, mut cut } = reader;
    let mut rounds = LiveRounds {
        sink,
        disk,
        gate,
        saver,
        cut: &mut cut,
        callers: settings.callers,
        rounds: settings.rounds,
        phi: settings.phi,
        stop: None,
    };
    let gathered = run_feed(setup, board, pass, &mut rounds)?;
    Ok(Fed { gathered, cut })
}

// Feeds the board to the ends by the plan of the settings while these rounds are made. What the callers bring back is in
// their order. A fault of the sink or the disk is reported also where memory ran out in a caller.
fn run_feed<R: Threads + Wait + Sync, K: Sink, D: Disk, G: Gate + Sync>(
    setup: &Setup<'_, R, G>,
    board: &Board,
    pass: Pass,
    rounds: &mut LiveRounds<'_, K, D, G>,
) -> Result<Gathered, Status>
    requires limited { AreLimited setup.now.settings.now }
    requires wide { HaveWideShare setup.now.settings.now }
    requires pass { IsPassOf board.now pass }
    requires view { view pass ≡ first_view board.now.opening }
    requires alike { core_shape board.now.opening ≡ asked_shape setup.now.settings.now }
    requires shape { HasCoreShape (length board.now.opening) (core_shape board.now.opening) rounds.old.cut.now }
    requires share { rounds.old.phi ≡ setup.now.settings.now.phi }
    requires count { rounds.old.rounds ≡ setup.now.settings.now.rounds }
    requires number { rounds.old.callers ≡ setup.now.settings.now.callers }
    requires begun { rounds.old.stop ≡ None }
    requires used { is_some rounds.old.saver.now ≡ setup.now.settings.now.store }
    requires can_save { IfSome rounds.old.saver.now (CanMakeSaves (D.reads rounds.old.disk.now) (D.image_now rounds.old.disk.now)
        board.now.opening (view pass) setup.now.settings.now.rounds) }
    ensures same_sink { rounds.new.sink.ghost_name ≡ rounds.old.sink.ghost_name }
    ensures same_disk { rounds.new.disk.ghost_name ≡ rounds.old.disk.ghost_name }
    ensures same_saver { rounds.new.saver.ghost_name ≡ rounds.old.saver.ghost_name }
    ensures same_cut { rounds.new.cut.ghost_name ≡ rounds.old.cut.ghost_name }
    ensures shape { HasCoreShape (length board.now.opening) (core_shape board.now.opening) rounds.new.cut.now }
    ensures ran { IfOk result (RunsPlan board.now setup.now.settings.now (view pass)) }
    ensures fed { IfOk result (IsGathered board.now setup.now.settings.now
        (SavesInTurn D.Disk rounds.old.saver.now rounds.new.saver.now rounds.old.disk.now rounds.new.disk.now)
        (K.taken rounds.old.sink.now) (K.taken rounds.new.sink.now)) }
    ensures faults { OnOk result ((K.faults rounds.new.sink.now ≡ K.faults rounds.old.sink.now)
        × (D.faults rounds.new.disk.now ≡ D.faults rounds.old.disk.now)) }
    ensures part { OnErr result (FeedBreaksOff board.now.opening setup.now.settings.now
        (SavesInPart D.Disk rounds.old.saver.now rounds.old.disk.now rounds.new.disk.now)
        (K.taken rounds.old.sink.now) (K.taken rounds.new.sink.now)) }
    ensures fault { IfErr result (IsFeedFault (record { sink = K.faults rounds.old.sink.now; disk = D.faults rounds.old.disk.now })
        (record { sink = K.faults rounds.new.sink.now; disk = D.faults rounds.new.disk.now })) }
    ensures unused { rounds.old.saver.now ≡ None → (rounds.new.saver.now ≡ None) × (rounds.new.disk.now ≡ rounds.old.disk.now) }
{
    calls_follow_calls();
    let gathered = run_threads(
        setup.rt,
        setup.alloc,
        board,
        pass,
        &plan_of(setup.settings),
        setup.gate,
        rounds,
    );
    if let Some(status) = rounds.stop {
        return Err(status);
    }
    let gathered = gathered?;
    Ok(gathered)
}

/// The threads that the settings ask for.
pub(crate) fn plan_of(settings: &Settings) -> ThreadPlan
    ensures { result ≡ feed_plan settings.now }
{
    ThreadPlan {
        grain: settings.grain,
        workers: settings.workers,
        callers: settings.callers,
        rounds: settings.rounds,
        block: settings.block,
        phi: settings.phi,
        capacity: settings.capacity,
    }
}
