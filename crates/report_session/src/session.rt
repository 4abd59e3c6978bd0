//! The session of `report`: the running feed and its reports, and a last report over all records.

ghost use Rattle.std.specs.Prelude.{◌≡◌, ◌≤◌, ◌<◌, ◌+◌, ◌⊎◌, ◌++◌, [], ◌∷◌, length, All, None, IfErr, IfOk, IfSome};
ghost use Rattle.std.specs.Prelude.{OnErr, OnOk, false, is_some};
ghost use Rattle.std.specs.List.{AllZip};
ghost use Rattle.std.specs.Io.KnownBytes.{Appends};
ghost use Rattle.deal_rules.specs.{AreDealings};
ghost use Rattle.space_saving.specs.{least_capacity, most_capacity};
ghost use Rattle.shard_state.specs.{AreCoreShards, HasCoreShape, IsShard, core_shape};
ghost use Rattle.pass_tokens.specs.{IsPassOf, first_view, view};
ghost use Rattle.gate_workers.specs.{HasSeenEnds};
ghost use Rattle.checkpoint.specs.{DiskMatches};
ghost use Rattle.recovery.specs.{ContinuesList};
ghost use Rattle.report_text.specs.{ShowsPositions, mark_text};
ghost use Rattle.report_text.specs.declared.mark.Mark.TheVariants.{Opened as OpenedMark};
ghost use Rattle.command_words.specs.{AreLimited, HaveWideShare};
ghost use Rattle.report_session.specs.Session.{WritesAnswer, AreOfCaller, AreSessionShards, BeginsSession};
ghost use Rattle.report_session.specs.Session.{BreaksOffAround, GoesOnSoundly, IsOverShards};
ghost use Rattle.report_session.specs.Session.{other_parts, session_opening, session_parts};
ghost use Rattle.report_session.specs.Session.{resumed_shards, new_shards, session_start};
ghost use Rattle.report_session.specs.DealtFeed.{CanSaveCut, FeedGoesOn, IsFeedBase};
ghost use Rattle.report_session.specs.DealtFeed.{IsFeedFault, IsFeedOpening, IsFeedRest};
ghost use Rattle.report_session.specs.DealtFeed.{StartsBefore, other_reports};
ghost use Rattle.report_session.specs.Saving.{CanMakeSaves, Saves, SavesInPart, SavesInTurn};
ghost use Rattle.run_status.specs.declared.status.Status.TheVariants.{OutOfMemory};
ghost use Rattle.report_session.specs.Session.{asked_shape};

use crate::base::Base;
use crate::feed::{Fed, Reader, Setup, feed};
use crate::saving::{save_cut, saved_line};
use crate::writing::write;
use checkpoint::{Saver, stores_open_to_one};
use command_words::Settings;
use deal_rules::Dealt;
use gate_workers::{Called, Gate, Gathered, OpenGate, Turn, report_once};
use hhh_report::{Positions, Reports};
use outside_io::Sink;
use pass_tokens::Board;
use report_text::{Mark, print, print_positions};
use run_status::Status;
use shard_state::{Cut, ShardState, shards_stand};
use slot_disk::Disk;
use std::alloc::{AllocError, Global};
use std::marker::Sync;
use std::sync::Wait;
use std::thread::Threads;

/// Shards on a board whose records are not counted further yet.
#[derive(Drop)]
pub(crate) struct Opened {
    pub(crate) board: Board,
    pub(crate) reader: Reader,
}

/// The rest of a session, once all records are counted.
#[derive(Drop)]
pub(crate) struct Rest {
    /// The cut of the last report.
    pub(crate) cut: Cut,
    /// The reports of the other callers, and the last report.
    pub(crate) front: Vec<u8>,
    /// What is written after the last cut was saved.
    pub(crate) back: Vec<u8>,
}

/// Counts dealt records from the base on while reports are made, and writes the session, which ends with the text `tail`.
/// With a saver it saves each cut that the calling thread reports on. On an error the sink or the disk failed, or memory ran
/// out; threads that had begun have then counted all records.
pub(crate) fn write_session<R: Threads + Wait + Sync, K: Sink, D: Disk, G: Gate + Sync>(
    setup: &Setup<'_, R, G>,
    dealt: Dealt,
    base: Base,
    tail: &[u8],
    sink: &mut K,
    disk: &mut D,
) -> Result<(), Status>
    requires limited { AreLimited setup.now.settings.now }
    requires wide { HaveWideShare setup.now.settings.now }
    requires shards { length dealt ≡ setup.now.settings.now.shards }
    requires base { IsFeedBase setup.now.settings.now dealt (D.reads disk.old) base }
    requires stands { IfSome base.saver (DiskMatches (D.reads disk.old) (D.image_now disk.old)) }
    requires tail { 0 < length tail.now }
    ensures whole { OnOk result (WritesAnswer (IsOverShards (session_opening (asked_shape setup.now.settings.now) dealt base.cut) setup.now.settings.now
        (λ cuts. Saves D.Disk base.saver cuts disk.old disk.new) tail.now) (K.taken sink.old) (K.taken sink.new)) }
    ensures faults { OnOk result ((K.faults sink.new ≡ K.faults sink.old) × (D.faults disk.new ≡ D.faults disk.old)) }
    ensures part { IfErr result (λ status. (((sink.new ≡ sink.old) × (disk.new ≡ disk.old)) × (status ≡ OutOfMemory))
        ⊎ (AreSessionShards (asked_shape setup.now.settings.now) (session_opening (asked_shape setup.now.settings.now) dealt base.cut)
        × WritesAnswer (BeginsSession (session_opening (asked_shape setup.now.settings.now) dealt base.cut) setup.now.settings.now
        (SavesInPart D.Disk base.saver disk.old disk.new) tail.now) (K.taken sink.old) (K.taken sink.new))) }
    ensures fault { IfErr result (IsFeedFault (record { sink = K.faults sink.old; disk = D.faults disk.old })
        (record { sink = K.faults sink.new; disk = D.faults disk.new })) }
    ensures unused { base.saver ≡ None → disk.new ≡ disk.old }
{
    let Base {
        cut,
        positions,
        saver,
    } = base;
    openings_stand(&dealt, &cut, setup.settings);
    let line = opened_line(setup.alloc, &positions)?;
    let opened = open(setup.alloc, dealt, cut, setup.settings)?;
    write_feed(setup, opened, saver, &line, tail, sink, disk)
}

/// Puts the shards of dealt lists on a board, from the base on.
pub(crate) fn open(
    alloc: Global,
    dealt: Dealt,
    base: Option<Cut>,
    settings: &Settings,
) -> Result<Opened, AllocError>
    requires limited { AreLimited settings.now }
    requires fits { IfSome base (FeedGoesOn (asked_shape settings.now) dealt) }
    ensures { IfOk result (IsFeedOpening (session_opening (asked_shape settings.now) dealt base)) }
{
    openings_stand(&dealt, &base, settings);
    let shards = dealt.shards();
    let states = states_of(alloc, dealt, base, settings)?;
    let (board, pass) = Board::start(alloc, states)?;
    let cut = Cut::with_room(alloc, settings.grain, shards, settings.capacity)?;
    let reader = Reader { pass, cut };
    Ok(Opened { board, reader })
}

/// Shards of dealt lists have the tables asked for, and start before the ends of their lists. The tables of their base
/// represent the lists, if they were saved of them or are empty.
pub(crate) fn openings_stand(dealt: &Dealt, base: &Option<Cut>, settings: &Settings)
    requires { IfSome base.now (FeedGoesOn (asked_shape settings.now) dealt.now) }
    ensures shards { AreCoreShards (session_opening (asked_shape settings.now) dealt.now base.now) }
    ensures many { length (session_opening (asked_shape settings.now) dealt.now base.now) ≡ length dealt.now }
    ensures alike { core_shape (session_opening (asked_shape settings.now) dealt.now base.now) ≡ asked_shape settings.now }
    ensures starts { StartsBefore (session_opening (asked_shape settings.now) dealt.now base.now) }
    ensures positions { ShowsPositions (session_start (session_opening (asked_shape settings.now) dealt.now base.now)) }
    ensures represents { GoesOnSoundly dealt.now base.now (session_opening (asked_shape settings.now) dealt.now base.now) }
{
    shards_stand();
    let _shards = dealt.shards();
    match base {
        None => {}
        Some(cut) => {
            let _kept = cut.shards();
        }
    }
}

// The states of shards, from the base on.
fn states_of(
    alloc: Global,
    dealt: Dealt,
    base: Option<Cut>,
    settings: &Settings,
) -> Result<Vec<ShardState>, AllocError>
    requires limited { AreLimited settings.now }
    requires fits { IfSome base (FeedGoesOn (asked_shape settings.now) dealt) }
    ensures states { IfOk result (λ states. states.items ≡ session_opening (asked_shape settings.now) dealt base) }
    ensures kept { IfOk result (λ states. All IsShard states.items) }
{
    match base {
        None => new_states(alloc, dealt, settings),
        Some(cut) => resumed_states(alloc, dealt, cut),
    }
}

// The states of shards, none of their records counted.
fn new_states(
    alloc: Global,
    dealt: Dealt,
    settings: &Settings,
) -> Result<Vec<ShardState>, AllocError>
    requires limited { AreLimited settings.now }
    ensures states { IfOk result (λ states. states.items ≡ new_shards (asked_shape settings.now) dealt) }
    ensures kept { IfOk result (λ states. All IsShard states.items) }
    ensures shards { AreDealings dealt }
{
    let mut states = Vec::new(alloc);
    for list in dealt.into_lists() {
        let state = ShardState::start(alloc, settings.grain, list, settings.capacity)?;
        let _kept = state.position();
        states.push(state)?;
    }
    Ok(states)
}

// The states of shards that go on from the snapshots of a cut.
fn resumed_states(alloc: Global, dealt: Dealt, cut: Cut) -> Result<Vec<ShardState>, AllocError>
    requires { AllZip ContinuesList cut.shards dealt }
    ensures states { IfOk result (λ states. states.items ≡ resumed_shards dealt cut.shards) }
    ensures kept { IfOk result (λ states. All IsShard states.items) }
{
    let mut states = Vec::new(alloc);
    for (list, base) in dealt.into_lists().into_iter().zip(cut.into_shards()) {
        let state = ShardState::resume(alloc, list, base)?;
        let _kept = state.position();
        states.push(state)?;
    }
    Ok(states)
}

// The first line of a session.
fn opened_line(alloc: Global, positions: &Positions) -> Result<Vec<u8>, AllocError>
    requires { ShowsPositions positions.now }
    ensures { IfOk result (λ line. line.items ≡ mark_text OpenedMark positions.now) }
{
    let mut line = Vec::new(alloc);
    print_positions(Mark::Opened, positions, &mut line)?;
    Ok(line)
}

// Writes the session of shards on a board: its first line, the calling thread's rounds while workers feed, and the rest.
fn write_feed<R: Threads + Wait + Sync, K: Sink, D: Disk, G: Gate + Sync>(
    setup: &Setup<'_, R, G>,
    opened: Opened,
    saver: Option<Saver>,
    line: &[u8],
    tail: &[u8],
    sink: &mut K,
    disk: &mut D,
) -> Result<(), Status>
    requires limited { AreLimited setup.now.settings.now }
    requires wide { HaveWideShare setup.now.settings.now }
    requires opened { IsFeedOpening opened.board.opening opened }
    requires alike { core_shape opened.board.opening ≡ asked_shape setup.now.settings.now }
    requires starts { StartsBefore opened.board.opening }
    requires line { line.now ≡ mark_text OpenedMark (session_start opened.board.opening) }
    requires tail { 0 < length tail.now }
    requires used { is_some saver ≡ setup.now.settings.now.store }
    requires can_save { IfSome saver (CanMakeSaves (D.reads disk.old) (D.image_now disk.old) opened.board.opening
        (first_view opened.board.opening) (setup.now.settings.now.rounds + 1)) }
    ensures whole { OnOk result (WritesAnswer (IsOverShards opened.board.opening setup.now.settings.now
        (λ cuts. Saves D.Disk saver cuts disk.old disk.new) tail.now) (K.taken sink.old) (K.taken sink.new)) }
    ensures faults { OnOk result ((K.faults sink.new ≡ K.faults sink.old) × (D.faults disk.new ≡ D.faults disk.old)) }
    ensures part { OnErr result (WritesAnswer (BeginsSession opened.board.opening setup.now.settings.now
        (SavesInPart D.Disk saver disk.old disk.new) tail.now) (K.taken sink.old) (K.taken sink.new)) }
    ensures fault { IfErr result (IsFeedFault (record { sink = K.faults sink.old; disk = D.faults disk.old })
        (record { sink = K.faults sink.new; disk = D.faults disk.new })) }
    ensures unused { saver ≡ None → disk.new ≡ disk.old }
{
    let Opened { board, reader } = opened;
    let mut saver = saver;
    stores_open_to_one();
    if let Err(status) = write(sink, line) {
        return Err(status);
    }
    let fed = match feed(setup, &board, reader, sink, disk, &mut saver, setup.gate) {
        Ok(fed) => fed,
        Err(status) => return Err(status),
    };
    let rest = rest_of_session(setup.rt, setup.alloc, &board, fed, tail, setup.settings)?;
    match write_rest(setup.alloc, &rest, &mut saver, sink, disk) {
        Ok(()) => Ok(()),
        Err(status) => Err(status),
    }
}

// Writes the rest of a session, and saves its cut, if there is a saver, once the last report was written.
fn write_rest<K: Sink, D: Disk>(
    alloc: Global,
    rest: &Rest,
    saver: &mut Option<Saver>,
    sink: &mut K,
    disk: &mut D,
) -> Result<(), Status>
    requires { IfSome saver.old (CanSaveCut (D.reads disk.old) (D.image_now disk.old) rest.now.cut) }
    ensures whole { OnOk result (Appends (K.taken sink.old) (K.taken sink.new) (rest.now.front.items ++ rest.now.back.items)) }
    ensures saved { OnOk result (SavesInTurn D.Disk saver.old saver.new disk.old disk.new (rest.now.cut ∷ [])) }
    ensures faults { OnOk result ((K.faults sink.new ≡ K.faults sink.old) × (D.faults disk.new ≡ D.faults disk.old)) }
    ensures part { OnErr result (WritesAnswer (BreaksOffAround rest.now.front.items rest.now.back.items (rest.now.cut ∷ [])
        (SavesInPart D.Disk saver.old disk.old disk.new)) (K.taken sink.old) (K.taken sink.new)) }
    ensures fault { IfErr result (IsFeedFault (record { sink = K.faults sink.old; disk = D.faults disk.old })
        (record { sink = K.faults sink.new; disk = D.faults disk.new })) }
    ensures unused { saver.old ≡ None → disk.new ≡ disk.old }
{
    if let Err(status) = write(sink, &rest.front) {
        return Err(status);
    }
    if let Err(status) = save_cut(alloc, saver, disk, &rest.cut) {
        return Err(status);
    }
    match write(sink, &rest.back) {
        Ok(()) => Ok(()),
        Err(status) => Err(status),
    }
}

// What follows the calling thread's rounds in a session: the reports of the other callers, a last report over all
// records, and the last lines.
fn rest_of_session<R: Wait>(
    rt: &R,
    alloc: Global,
    board: &Board,
    fed: Fed,
    tail: &[u8],
    settings: &Settings,
) -> Result<Rest, AllocError>
    requires limited { AreLimited settings.now }
    requires wide { HaveWideShare settings.now }
    requires pass { IsPassOf board.now fed.gathered.pass }
    requires ends { HasSeenEnds board.now.opening (view fed.gathered.pass) }
    requires shape { HasCoreShape (length board.now.opening) (core_shape board.now.opening) fed.cut }
    requires callers { All (AreOfCaller board.now.opening settings.now settings.now.rounds) (other_reports fed.gathered.called.items) }
    requires alike { core_shape board.now.opening ≡ asked_shape settings.now }
    ensures rest { IfOk result (IsFeedRest board.now settings.now fed.gathered.called.items tail.now) }
    ensures shape { IfOk result (λ rest. HasCoreShape (length board.now.opening) (core_shape board.now.opening) rest.cut) }
{
    let Fed { gathered, mut cut } = fed;
    let Gathered { mut pass, called } = gathered;
    let _shards = board.shards();
    let turn = Turn {
        gate: &OpenGate,
        caller: 0,
        round: 0,
    };
    let last = report_once(rt, alloc, board, &mut pass, &mut cut, settings.phi, &turn)?;
    let mut front = reports_text(alloc, board, settings, &called)?;
    print(&last, &mut front)?;
    let mut back = saved_line(alloc, settings.store, &last.positions)?;
    back.extend_from_slice(tail)?;
    Ok(Rest { cut, front, back })
}

// The reports of the other callers, one caller after the other.
fn reports_text(
    alloc: Global,
    board: &Board,
    settings: &Settings,
    called: &[Called],
) -> Result<Vec<u8>, AllocError>
    requires { All (AreOfCaller board.now.opening settings.now settings.now.rounds) (other_reports called.now) }
    ensures { IfOk result (λ text. text.items ≡ other_parts (other_reports called.now)) }
{
    let _shards = board.shards();
    let mut text = Vec::new(alloc);
    for caller in called {
        put_reports(board, settings, &caller.reports, &mut text)?;
    }
    Ok(text)
}

// Appends the reports of one caller.
fn put_reports(
    board: &Board,
    settings: &Settings,
    reports: &Reports,
    text: &mut Vec<u8>,
) -> Result<(), AllocError>
    requires { AreOfCaller board.now.opening settings.now settings.now.rounds reports.now }
    ensures { OnOk result (text.new.items ≡ text.old.items ++ session_parts false reports.now) }
{
    let _shards = board.shards();
    let all = reports.as_slice();
    for reported in all {
        print(&reported.report, text)?;
    }
    Ok(())
}
