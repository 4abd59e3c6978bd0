//! The report over all dealt records, without a session.

ghost use Rattle.std.specs.Prelude.{◌≡◌, length, None, IfOk};
ghost use Rattle.shard_state.specs.{core_shape};
ghost use Rattle.pass_tokens.specs.{IsPassOf, view};
ghost use Rattle.gate_workers.specs.{HasSeenEnds};
ghost use Rattle.command_words.specs.{AreLimited, HaveWideShare};
ghost use Rattle.report_session.specs.Session.{IsWholeReport, IsShownInSession, session_ends};
ghost use Rattle.report_session.specs.DealtFeed.{RunsPlan, IsFeedOpening};
ghost use Rattle.report_session.specs.Session.{asked_shape};

use crate::feed::{Reader, plan_of};
use crate::session::{Opened, open, openings_stand};
use command_words::Settings;
use deal_rules::Dealt;
use gate_workers::{Gate, Gathered, OpenGate, Rounds, Turn, report_once, run_threads};
use hhh_report::Report;
use pass_tokens::{Board, Pass};
use std::alloc::{AllocError, Global};
use std::marker::Sync;
use std::sync::Wait;
use std::thread::Threads;

/// Counts all dealt records in new tables by the plan of the settings, and reports on them.
pub fn report_all<R: Threads + Wait + Sync, G: Gate + Sync>(
    rt: &R,
    alloc: Global,
    dealt: Dealt,
    settings: &Settings,
    gate: &G,
) -> Result<Report, AllocError>
    requires limited { AreLimited settings.now }
    requires wide { HaveWideShare settings.now }
    requires shards { length dealt ≡ settings.now.shards }
    ensures { IfOk result (IsWholeReport settings.now dealt) }
{
    openings_stand(&dealt, &None, settings);
    let opened = open(alloc, dealt, None, settings)?;
    let report = report_opened(rt, alloc, opened, settings, gate)?;
    Ok(report)
}

// Counts all records of the shards on a board, and reports on them.
fn report_opened<R: Threads + Wait + Sync, G: Gate + Sync>(
    rt: &R,
    alloc: Global,
    opened: Opened,
    settings: &Settings,
    gate: &G,
) -> Result<Report, AllocError>
    requires limited { AreLimited settings.now }
    requires wide { HaveWideShare settings.now }
    requires opened { IsFeedOpening opened.board.opening opened }
    requires alike { core_shape opened.board.opening ≡ asked_shape settings.now }
    ensures shown { IfOk result (λ report. IsShownInSession opened.board.opening settings.now (record { report = report; saved = None })) }
    ensures at_ends { IfOk result (λ report. report.positions ≡ session_ends opened.board.opening) }
{
    let Opened { board, reader } = opened;
    let Reader { pass, mut cut } = reader;
    let gathered = count_all(rt, alloc, &board, pass, settings, gate)?;
    let mut pass = gathered.pass;
    let turn = Turn {
        gate: &OpenGate,
        caller: 0,
        round: 0,
    };
    let report = report_once(rt, alloc, &board, &mut pass, &mut cut, settings.phi, &turn)?;
    Ok(report)
}

// Counts all records of the shards on a board by the plan of the settings. The calling thread makes no rounds.
fn count_all<R: Threads + Wait + Sync, G: Gate + Sync>(
    rt: &R,
    alloc: Global,
    board: &Board,
    pass: Pass,
    settings: &Settings,
    gate: &G,
) -> Result<Gathered, AllocError>
    requires limited { AreLimited settings.now }
    requires wide { HaveWideShare settings.now }
    requires pass { IsPassOf board.now pass }
    requires alike { core_shape board.now.opening ≡ asked_shape settings.now }
    ensures ran { IfOk result (RunsPlan board.now settings.now (view pass)) }
    ensures ends { IfOk result (λ gathered. HasSeenEnds board.now.opening (view gathered.pass)) }
    ensures pass { IfOk result (λ gathered. IsPassOf board.now gathered.pass) }
{
    let mut rounds = NoRounds;
    let gathered = run_threads(
        rt,
        alloc,
        board,
        pass,
        &plan_of(settings),
        gate,
        &mut rounds,
    )?;
    Ok(gathered)
}

// The calling thread makes no rounds.
#[derive(Drop)]
struct NoRounds;

impl Rounds for NoRounds {
    ghost use Rattle.std.specs.Prelude.{⊤, ◌≡◌};

    ghost ready = { λ rounds board view. ⊤ };

    ghost stays = { λ rounds board before now later ready. ready };

    ghost does = { λ rounds before later now. now ≡ before };

    fn go<R: Wait>(&mut self, _rt: &R, _alloc: Global, _board: &Board, _pass: &mut Pass) {}
}
