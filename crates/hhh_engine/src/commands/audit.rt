//! The audit of a session by the records of a capture.

ghost use Rattle.std.specs.Prelude.{⊤, ◌≡◌, List, ℕ, All, Option, IfOk, IfErr, OnOk, IsErrOf};
ghost use Rattle.std.specs.Io.KnownBytes.{IsAtEnd};
ghost use Rattle.outside_io.specs.{ReadsFront};
ghost use Rattle.deal_rules.specs.{dealer_of};
ghost use Rattle.hhh_report.specs.{AreOfGrain};
ghost use Rattle.command_words.specs.{AreLimited};
ghost use Rattle.command_words.specs.declared.command.Command.TheVariants.{Audit as AuditCommand};
ghost use Rattle.hhh_engine.specs.Reading.{AreAuditing, HasNoAudit};
ghost use Rattle.hhh_engine.specs.Tasks.{audit_task};
ghost use Rattle.hhh_engine.specs.Ending.{course, Ends, EndsInOrder, faults_of_source, sources};
ghost use Rattle.hhh_engine.specs.Inputs.{ReadsSession, inputs};

use crate::{Settings, Status};
use deal_rules::{Dealer, Dealers, Deals};
use dealt_capture::deal_records;
use frame_records::read_records;
use outside_io::{Sink, Source, write_all};
use report_text::read_session;
use session_audit::{Audited, audit_session, read_text};
use std::alloc::Global;

/// Reads a capture and the text of a session to their ends, and audits the reports of the session in their order, by the
/// dealt records of the capture. Writes how many reports there are if all are sound, else what is wrong with the first
/// that is not.
pub(crate) fn audit<S: Source, T: Source, K: Sink>(
    alloc: Global,
    settings: &Settings,
    capture: &mut S,
    text: &mut T,
    sink: &mut K,
    dealers: &Dealers,
) -> Status
    requires { AreLimited settings.now }
    ensures ends { (store : Option (List ℕ)) → Ends
        (audit_task settings.now (λ kind. ⟦<Dealer as Deals>⟧.may_answer (dealer_of kind dealers.now))
        (inputs (S.left capture.old) (S.left capture.new) (T.left text.old) (T.left text.new) store) (K.taken sink.old) (K.taken sink.new))
        (course K.Sink (S.left capture.old) (faults_of_source (S.faults capture.old) (T.faults text.old))
        (faults_of_source (S.faults capture.new) (T.faults text.new)) sink.old sink.new) result }
    ensures order { (store : Option (List ℕ)) → EndsInOrder ⊤
        (ReadsSession (inputs (S.left capture.old) (S.left capture.new) (T.left text.old) (T.left text.new) store) (AuditCommand settings.now))
        (inputs (S.left capture.old) (S.left capture.new) (T.left text.old) (T.left text.new) store)
        (sources S.Source T.Source capture.old text.old) (sources S.Source T.Source capture.new text.new) result }
    ensures capture_front { ReadsFront (S.left capture.old) (S.left capture.new) }
    ensures text_front { ReadsFront (T.left text.old) (T.left text.new) }
{
    let audited = match read_audited(alloc, settings, capture, text, dealers) {
        Ok(audited) => audited,
        Err(status) => return status,
    };
    let answer = match audit_session(alloc, settings, &audited) {
        Ok(answer) => answer,
        Err(_) => return Status::OutOfMemory,
    };
    match write_all(sink, &answer.text) {
        Ok(()) => answer.status,
        Err(_) => Status::WriteFault,
    }
}

// Reads the capture and then the text to their ends, and deals the records as the settings specify.
fn read_audited<S: Source, T: Source>(
    alloc: Global,
    settings: &Settings,
    capture: &mut S,
    text: &mut T,
    dealers: &Dealers,
) -> Result<Audited, Status>
    requires { AreLimited settings.now }
    ensures audited { (store : Option (List ℕ))
        → IfOk result (AreAuditing settings.now (λ kind. ⟦<Dealer as Deals>⟧.may_answer (dealer_of kind dealers.now))
        (inputs (S.left capture.old) (S.left capture.new) (T.left text.old) (T.left text.new) store)) }
    ensures of_grain { IfOk result (λ audited. All (λ reported. AreOfGrain settings.now.grain reported.report.lines) audited.session.reports) }
    ensures capture_at_end { OnOk result (IsAtEnd (S.left capture.new)) }
    ensures text_at_end { OnOk result (IsAtEnd (T.left text.new)) }
    ensures capture_front { ReadsFront (S.left capture.old) (S.left capture.new) }
    ensures text_front { ReadsFront (T.left text.old) (T.left text.new) }
    ensures refused { (store : Option (List ℕ))
        → IfErr result (HasNoAudit settings.now (inputs (S.left capture.old) (S.left capture.new) (T.left text.old) (T.left text.new) store)
        (faults_of_source (S.faults capture.old) (T.faults text.old)) (faults_of_source (S.faults capture.new) (T.faults text.new))) }
    ensures order { (store : Option (List ℕ))
        → IfErr result (EndsInOrder ⊤
        (ReadsSession (inputs (S.left capture.old) (S.left capture.new) (T.left text.old) (T.left text.new) store) (AuditCommand settings.now))
        (inputs (S.left capture.old) (S.left capture.new) (T.left text.old) (T.left text.new) store)
        (sources S.Source T.Source capture.old text.old) (sources S.Source T.Source capture.new text.new)) }
    ensures told { (IsErrOf result Status.ReadFault → ⊥)
        → faults_of_source (S.faults capture.new) (T.faults text.new) ≡ faults_of_source (S.faults capture.old) (T.faults text.old) }
{
    let records = read_records(alloc, capture, settings.weigh, settings.front)?;
    let bytes = read_text(alloc, text)?;
    let session = read_session(alloc, settings.grain, &bytes)?;
    let dealt = deal_records(alloc, records.list, settings, dealers)?;
    Ok(Audited { dealt, session })
}
