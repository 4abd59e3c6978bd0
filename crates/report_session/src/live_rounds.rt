//! The rounds of the calling thread: reports that are written, and cuts that are saved, while workers feed.

ghost use Rattle.std.specs.Prelude.{◌≡◌, ◌≤◌, length, IfErr, IfSome, OnOk, None, is_some};
ghost use Rattle.shard_state.specs.{HasCoreShape, core_shape};
ghost use Rattle.hhh_report.specs.{million};
ghost use Rattle.hhh_output.specs.{IsWideShare};
ghost use Rattle.pass_tokens.specs.{IsPassOf, view};
ghost use Rattle.report_session.specs.LiveRounds.{BreaksRound, EndRounds, WritesRounds, round_side};
ghost use Rattle.report_session.specs.Saving.{CanMakeSaves, SavesBreakOff, SavesFitBoard, SavesInTurn};

use crate::saving::{save_cut, saved_line};
use crate::writing::write;
use checkpoint::{Saver, stores_open_to_one};
use gate_workers::{Gate, Rounds, Turn, calls_follow_calls, report_once};
use outside_io::Sink;
use pass_tokens::{Board, Pass};
use report_text::print;
use run_status::Status;
use shard_state::Cut;
use slot_disk::Disk;
use std::alloc::Global;
use std::sync::Wait;

/// The rounds of the calling thread. In each it reads a cut of all shards, reports on it, and writes the report's text.
/// With a saver, it then saves the cut, and writes the line of the saved positions. The first fault ends them. After a
/// fault of the disk there is no saver; after any other it is the one after the cuts that were saved.
#[derive(Drop)]
pub struct LiveRounds<'a, K: Sink, D: Disk, G: Gate> {
    /// Where the reports are written.
    pub sink: &'a mut K,
    /// Where the cuts are saved.
    pub disk: &'a mut D,
    /// What is called around each read.
    pub gate: &'a G,
    /// What saves the cuts: `None` without a store, and after a fault of the disk.
    pub saver: &'a mut Option<Saver>,
    /// What each round reads into: a cut of the board's shape.
    pub cut: &'a mut Cut,
    /// How many other callers there are. The calling thread bears this number at the gate.
    pub callers: u32,
    /// How many rounds are made.
    pub rounds: u32,
    /// The share of the total at which a prefix is heavy, 1 to 1,000,000 parts per million. Its product with the
    /// capacity of the board's tables is at least 2,000,000.
    pub phi: u32,
    /// What ended the rounds before all were made: `WriteFault`, `DiskFault` or `OutOfMemory`.
    pub stop: Option<Status>,
}

impl<K: Sink, D: Disk, G: Gate> Rounds for LiveRounds<'_, K, D, G> {
    ghost use Rattle.std.specs.Prelude.{◌≡◌, ◌≤◌, length, IfSome, None, is_some};
    ghost use Rattle.shard_state.specs.{HasCoreShape, core_shape};
    ghost use Rattle.hhh_report.specs.{million};
    ghost use Rattle.hhh_output.specs.{IsWideShare};
    ghost use Rattle.report_session.specs.LiveRounds.{EndRounds, round_side};
    ghost use Rattle.report_session.specs.Saving.{CanMakeSaves, CanMakeSaves-later, SavesBreakOff, SavesInTurn};

    ghost ready = { λ rounds board view. HasCoreShape (length board.opening) (core_shape board.opening) rounds.cut.now
        × (1 ≤ rounds.phi) × (rounds.phi ≤ million) × IsWideShare rounds.phi (core_shape board.opening).capacity
        × (rounds.stop ≡ None)
        × IfSome rounds.saver.now (CanMakeSaves (D.reads rounds.disk.now) (D.image_now rounds.disk.now) board.opening view rounds.rounds) };

    ghost stays = { λ rounds board before now later ready. (
      ready.0,
      ready.1,
      ready.2,
      ready.3,
      ready.4,
      CanMakeSaves-later (D.reads rounds.disk.now) (D.image_now rounds.disk.now) board.opening before now rounds.rounds
          rounds.saver.now later ready.5,
    ) };

    ghost does = { λ before view after later. (after.sink.ghost_name ≡ before.sink.ghost_name)
        × (after.disk.ghost_name ≡ before.disk.ghost_name)
        × (after.saver.ghost_name ≡ before.saver.ghost_name)
        × (after.cut.ghost_name ≡ before.cut.ghost_name)
        × HasCoreShape (length view.opening) (core_shape view.opening) after.cut.now
        × EndRounds view.opening before.phi (is_some before.saver.now) before.rounds
        (round_side K.Sink D.Disk view before.sink.now before.disk.now)
        (round_side K.Sink D.Disk later after.sink.now after.disk.now)
        (SavesInTurn D.Disk before.saver.now after.saver.now before.disk.now after.disk.now)
        (SavesBreakOff D.Disk before.saver.now after.saver.now before.disk.now after.disk.now) after.stop
        × (before.saver.now ≡ None → (after.saver.now ≡ None) × (after.disk.now ≡ before.disk.now))
        × (after.phi ≡ before.phi) × (after.rounds ≡ before.rounds) × (after.callers ≡ before.callers) };

    fn go<R: Wait>(&mut self, rt: &R, alloc: Global, board: &Board, pass: &mut Pass) {
        calls_follow_calls();
        stores_open_to_one();
        for round in 0..self.rounds {
            if let Err(status) = self.make_round(rt, alloc, board, pass, round) {
                self.stop = Some(status);
                return;
            }
        }
    }
}

impl<K: Sink, D: Disk, G: Gate> LiveRounds<'_, K, D, G> {
    // Makes one round: reads a cut of the board's shape, writes the report on it, and saves it, if there is a saver.
    fn make_round<R: Wait>(
        &mut self,
        rt: &R,
        alloc: Global,
        board: &Board,
        pass: &mut Pass,
        round: u32,
    ) -> Result<(), Status>
        requires pass { IsPassOf board.now pass.old }
        requires shape { HasCoreShape (length board.now.opening) (core_shape board.now.opening) self.old.cut.now }
        requires some { 1 ≤ self.old.phi }
        requires most { self.old.phi ≤ million }
        requires wide { IsWideShare self.old.phi (core_shape board.now.opening).capacity }
        requires can_save { IfSome self.old.saver.now (CanMakeSaves (D.reads self.old.disk.now) (D.image_now self.old.disk.now)
            board.now.opening (view pass.old) 1) }
        ensures whole { OnOk result (WritesRounds board.now.opening self.old.phi (is_some self.old.saver.now) 1
            (round_side K.Sink D.Disk (view pass.old) self.old.sink.now self.old.disk.now)
            (round_side K.Sink D.Disk (view pass.new) self.new.sink.now self.new.disk.now)
            (SavesInTurn D.Disk self.old.saver.now self.new.saver.now self.old.disk.now self.new.disk.now)) }
        ensures fits { OnOk result (IfSome self.new.saver.now (SavesFitBoard board.now.opening (view pass.new))) }
        ensures broken { IfErr result (BreaksRound board.now.opening self.old.phi (is_some self.old.saver.now)
            (round_side K.Sink D.Disk (view pass.old) self.old.sink.now self.old.disk.now)
            (round_side K.Sink D.Disk (view pass.new) self.new.sink.now self.new.disk.now)
            (SavesBreakOff D.Disk self.old.saver.now self.new.saver.now self.old.disk.now self.new.disk.now)) }
        ensures unused { self.old.saver.now ≡ None → (self.new.saver.now ≡ None) × (self.new.disk.now ≡ self.old.disk.now) }
        ensures shape { HasCoreShape (length board.now.opening) (core_shape board.now.opening) self.new.cut.now }
        ensures pass { IsPassOf board.now pass.new }
        ensures same_sink { self.new.sink.ghost_name ≡ self.old.sink.ghost_name }
        ensures same_disk { self.new.disk.ghost_name ≡ self.old.disk.ghost_name }
        ensures same_saver { self.new.saver.ghost_name ≡ self.old.saver.ghost_name }
        ensures same_cut { self.new.cut.ghost_name ≡ self.old.cut.ghost_name }
        ensures same_share { self.new.phi ≡ self.old.phi }
        ensures same_rounds { self.new.rounds ≡ self.old.rounds }
        ensures same_callers { self.new.callers ≡ self.old.callers }
        ensures same_stop { self.new.stop ≡ self.old.stop }
    {
        let _shards = board.shards();
        let turn = Turn {
            gate: self.gate,
            caller: self.callers,
            round,
        };
        let report = report_once(rt, alloc, board, pass, self.cut, self.phi, &turn)?;
        let mut text = Vec::new(alloc);
        print(&report, &mut text)?;
        let line = saved_line(alloc, self.saver.is_some(), &report.positions)?;
        if let Err(status) = write(self.sink, &text) {
            return Err(status);
        }
        if let Err(status) = save_cut(alloc, self.saver, self.disk, self.cut) {
            return Err(status);
        }
        match write(self.sink, &line) {
            Ok(()) => Ok(()),
            Err(status) => Err(status),
        }
    }
}
