//! Reporting round after round.

ghost use Rattle.std.specs.Prelude.{◌≡◌, ◌≤◌, ◌<◌, ◌++◌, [], ◌∷◌, length, All, IfOk, None, OnErr};
ghost use Rattle.shard_state.specs.{BasesRepresent, HasCoreShape, core_shape, core_lists, cut_positions};
ghost use Rattle.hhh_report.specs.{IsSound, million};
ghost use Rattle.hhh_output.specs.{IsWideShare};
ghost use Rattle.pass_tokens.specs.{IsPassOf, view};
ghost use Rattle.gate_workers.specs.Calling.{Calls, IsCoreCut, IsCoreReport, ReadsInRounds};
ghost use Rattle.gate_workers.specs.Calling.{ReadsOnce, cut_at};

use crate::{Gate, Turn};
use hhh_output::report_of;
use hhh_report::{Report, Reported, Reports};
use pass_tokens::{Board, Pass};
use shard_state::{Cut, shards_stand};
use std::alloc::{AllocError, Global};
use std::sync::Wait;

/// Reads a cut and reports on it, once in each round. `phi` is 1 to 1,000,000 parts per million, and wide enough for the
/// capacity of the board's tables. The pass comes back also after an error, which means that memory ran out: then it has read
/// in whole rounds all the same, the last of which has no report.
pub fn call_reports<R: Wait, G: Gate>(
    rt: &R,
    alloc: Global,
    board: &Board,
    mut pass: Pass,
    caller: u32,
    rounds: u32,
    phi: u32,
    mut cut: Cut,
    gate: &G,
) -> (Pass, Result<Reports, AllocError>)
    requires pass { IsPassOf board.now pass }
    requires shape { HasCoreShape (length board.now.opening) (core_shape board.now.opening) cut }
    requires some { 1 ≤ phi }
    requires most { phi ≤ million }
    requires wide { IsWideShare phi (core_shape board.now.opening).capacity }
    ensures calls { IfOk result.1 (Calls board.now.opening phi rounds (view pass) (view result.0)) }
    ensures sound { IfOk result.1 (λ reports. BasesRepresent board.now.opening
        → All (λ reported. IsSound (core_shape board.now.opening).grain reported.report
        (core_lists board.now.opening) (core_shape board.now.opening).capacity phi) reports) }
    ensures in_part { OnErr result.1 (ReadsInRounds board.now.opening rounds (view pass) (view result.0)) }
    ensures pass { IsPassOf board.now result.0 }
{
    let reports = report_in_rounds(
        rt, alloc, board, &mut pass, caller, rounds, phi, &mut cut, gate,
    );
    (pass, reports)
}

/// The reports of all rounds, read with a pass and a cut that are lent.
pub(crate) fn report_in_rounds<R: Wait, G: Gate>(
    rt: &R,
    alloc: Global,
    board: &Board,
    pass: &mut Pass,
    caller: u32,
    rounds: u32,
    phi: u32,
    cut: &mut Cut,
    gate: &G,
) -> Result<Reports, AllocError>
    requires pass { IsPassOf board.now pass.old }
    requires shape { HasCoreShape (length board.now.opening) (core_shape board.now.opening) cut.old }
    requires some { 1 ≤ phi }
    requires most { phi ≤ million }
    requires wide { IsWideShare phi (core_shape board.now.opening).capacity }
    ensures calls { IfOk result (Calls board.now.opening phi rounds (view pass.old) (view pass.new)) }
    ensures sound { IfOk result (λ reports. BasesRepresent board.now.opening
        → All (λ reported. IsSound (core_shape board.now.opening).grain reported.report
        (core_lists board.now.opening) (core_shape board.now.opening).capacity phi) reports) }
    ensures in_part { OnErr result (ReadsInRounds board.now.opening rounds (view pass.old) (view pass.new)) }
    ensures pass { IsPassOf board.now pass.new }
{
    let mut reports = Reports::new(alloc);
    for round in 0..rounds {
        let turn = Turn {
            gate,
            caller,
            round,
        };
        let report = report_once(rt, alloc, board, pass, cut, phi, &turn)?;
        reports.push(Reported {
            report,
            saved: None,
        })?;
    }
    Ok(reports)
}

/// Reads a cut of the board's shape with a pass, between two calls of the gate, and reports on it. `phi` is 1 to
/// 1,000,000 parts per million, and wide enough for the capacity of the board's tables. After an error, which means that
/// memory ran out, the pass has read each shard all the same, and the cut keeps the shape of the board.
pub fn report_once<R: Wait, G: Gate>(
    rt: &R,
    alloc: Global,
    board: &Board,
    pass: &mut Pass,
    cut: &mut Cut,
    phi: u32,
    turn: &Turn<'_, G>,
) -> Result<Report, AllocError>
    requires pass { IsPassOf board.now pass.old }
    requires shape { HasCoreShape (length board.now.opening) (core_shape board.now.opening) cut.old }
    requires some { 1 ≤ phi }
    requires most { phi ≤ million }
    requires wide { IsWideShare phi (core_shape board.now.opening).capacity }
    ensures reads { ReadsOnce board.now.opening (view pass.old) (view pass.new) }
    ensures calls { IfOk result (λ report. Calls board.now.opening phi 1 (view pass.old) (view pass.new)
        (record { report = report; saved = None } ∷ [])) }
    ensures sound { IfOk result (λ report. BasesRepresent board.now.opening
        → IsSound (core_shape board.now.opening).grain report (core_lists board.now.opening) (core_shape board.now.opening).capacity phi) }
    ensures read { IsCoreCut board.now.opening (cut_positions cut.new) cut.new }
    ensures cut { IfOk result (λ report. cut.new ≡ cut_at board.now.opening report.positions) }
    ensures shape { HasCoreShape (length board.now.opening) (core_shape board.now.opening) cut.new }
    ensures pass { IsPassOf board.now pass.new }
{
    turn.gate.before_read(turn.caller, turn.round);
    board.read_cut(rt, pass, cut);
    turn.gate.after_read(turn.caller, turn.round);
    let report = report_at(alloc, board, cut, phi)?;
    Ok(report)
}

// The report of a cut that was read.
fn report_at(alloc: Global, board: &Board, cut: &Cut, phi: u32) -> Result<Report, AllocError>
    requires cut { IsCoreCut board.now.opening (cut_positions cut.now) cut.now }
    requires some { 1 ≤ phi }
    requires most { phi ≤ million }
    requires wide { IsWideShare phi (core_shape board.now.opening).capacity }
    ensures positions { IfOk result (λ report. report.positions ≡ cut_positions cut.now) }
    ensures report { IfOk result (IsCoreReport board.now.opening phi) }
    ensures sound { IfOk result (λ report. BasesRepresent board.now.opening
        → IsSound (core_shape board.now.opening).grain report (core_lists board.now.opening) (core_shape board.now.opening).capacity phi) }
{
    shards_stand();
    let _shards = (board.shards(), cut.shards());
    let report = report_of(alloc, cut, phi)?;
    Ok(report)
}
