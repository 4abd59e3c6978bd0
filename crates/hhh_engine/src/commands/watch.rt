//! The watch of a session.

ghost use Rattle.std.specs.Prelude.{◌≡◌, List, ℕ, Option, IfOk, IfErr, IfSome, OnOk, IsErrOf};
ghost use Rattle.std.specs.Io.KnownBytes.{IsAtEnd};
ghost use Rattle.outside_io.specs.{ReadsFront};
ghost use Rattle.pcap_frames.specs.declared.fault.CaptureFault.{CaptureFault};
ghost use Rattle.session_watch.specs.{IsWatchOf};
ghost use Rattle.hhh_engine.specs.Reading.{HasNoWatch};
ghost use Rattle.hhh_engine.specs.Tasks.{watch_task};
ghost use Rattle.hhh_engine.specs.Ending.{course, Ends, faults_of_source};
ghost use Rattle.hhh_engine.specs.Inputs.{inputs};
ghost use Rattle.run_status.specs.declared.status.Status.TheVariants.{BadCapture};

use crate::Status;
use outside_io::{Sink, Source, write_all};
use prefix_lattice::Grain;
use report_text::{read_session, session_texts_hold_their_reports};
use session_audit::read_text;
use session_watch::watch_session;
use std::alloc::Global;
use watch_rules::{Judge, Judges, Rule};

/// Reads the text of a session to its end, and writes an alarm for each prefix that its reports show for the first time to
/// be surely at or over the limit of the rule, under the rule's prefix.
pub(crate) fn watch<T: Source, K: Sink>(
    alloc: Global,
    rule: Rule,
    grain: Grain,
    text: &mut T,
    sink: &mut K,
    judge: &Judge,
) -> Status
    ensures ends { (capture capture_left store : Option (List ℕ)) (other : ℕ) → Ends
        (watch_task rule grain (⟦<Judge as Judges>⟧.may_answer judge.now)
        (inputs capture capture_left (T.left text.old) (T.left text.new) store))
        (course K.Sink capture (faults_of_source other (T.faults text.old)) (faults_of_source other (T.faults text.new)) sink.old sink.new)
        result }
    ensures no_capture { (fault : CaptureFault) → result ≡ BadCapture fault → ⊥ }
    ensures front { ReadsFront (T.left text.old) (T.left text.new) }
{
    let answer = match watch_text(alloc, rule, grain, text, judge) {
        Ok(answer) => answer,
        Err(status) => return status,
    };
    match write_all(sink, &answer) {
        Ok(()) => Status::Done,
        Err(_) => Status::WriteFault,
    }
}

// Reads the text of a session to its end, and returns the text of its alarms.
fn watch_text<T: Source>(
    alloc: Global,
    rule: Rule,
    grain: Grain,
    text: &mut T,
    judge: &Judge,
) -> Result<Vec<u8>, Status>
    ensures text { IfOk result (λ answer.
        IfSome (T.left text.old) (λ session. IsWatchOf (⟦<Judge as Judges>⟧.may_answer judge.now) rule grain session answer.items)) }
    ensures at_end { OnOk result (IsAtEnd (T.left text.new)) }
    ensures front { ReadsFront (T.left text.old) (T.left text.new) }
    ensures refused { (capture capture_left store : Option (List ℕ)) → IfErr result (HasNoWatch grain
        (inputs capture capture_left (T.left text.old) (T.left text.new) store) (T.faults text.old) (T.faults text.new)) }
    ensures told { (IsErrOf result Status.ReadFault → ⊥) → T.faults text.new ≡ T.faults text.old }
{
    let bytes = read_text(alloc, text)?;
    session_texts_hold_their_reports();
    let session = read_session(alloc, grain, &bytes)?;
    Ok(watch_session(alloc, judge, rule, &session)?)
}
