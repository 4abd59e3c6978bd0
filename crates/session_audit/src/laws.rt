//! What an audit finds is one, as the contracts of functions that do nothing.

ghost use Rattle.std.specs.Prelude.{◌≡◌, ℕ, List, length, All};
ghost use Rattle.prefix_lattice.specs.{RecordValue};
ghost use Rattle.deal_rules.specs.declared.deal_kind.DealKind.{DealKind};
ghost use Rattle.hhh_report.specs.declared.reports.Reported.{Reported};
ghost use Rattle.session_audit.specs.Audit.{AreAudited, IsFirstUnsound, IsAuditedSound, IsSoundAudit};
ghost use Rattle.session_audit.specs.Audit.{IsUnsoundAudit, sound_audit};
ghost use Rattle.exact_audit.specs.declared.verdict.Verdict.{Verdict};
ghost use Rattle.command_words.specs.declared.settings.Settings.{Settings};
ghost use Rattle.report_text.specs.declared.session.Session.{Session};
ghost use Rattle.dealt_capture.specs.{rules_by};

use dealt_capture::captures_are_dealt_in_one_way;
use exact_audit::a_report_has_one_verdict;
use report_text::{same_sessions_have_equal_reports, session_texts_have_one_reading};

/// An audit finds one report first: two that are the first that isn't sound have one number and one verdict, and where there
/// is one, not all are sound.
pub fn audits_find_one_report()
    ensures one_first { (settings : Settings) (lists : List (List RecordValue)) (reports : List Reported) (report number : ℕ) (verdict other : Verdict)
        → IsFirstUnsound settings lists reports report verdict
        → IsFirstUnsound settings lists reports number other → (number ≡ report) × (other ≡ verdict) }
    ensures never_both { (settings : Settings) (lists : List (List RecordValue)) (reports : List Reported) (report : ℕ) (verdict : Verdict)
        → IsFirstUnsound settings lists reports report verdict → All (IsAuditedSound settings lists) reports → ⊥ }
{
    a_report_has_one_verdict();
}

/// An audit of a text over a capture has one answer, where each kind of dealing is a formula: however the records are dealt
/// and the text is read, all reports are sound, and as many, or one report is the first that isn't, with one verdict.
pub fn audits_have_one_answer()
    ensures sound { (formula : DealKind → ℕ → RecordValue → ℕ → ℕ) (settings : Settings) (file text answer : List ℕ)
        (lists : List (List RecordValue)) (session : Session)
        → IsSoundAudit settings (rules_by formula) file text answer
        → AreAudited settings (rules_by formula) file text lists session
        → All (IsAuditedSound settings lists) session.reports × (answer ≡ sound_audit (length session.reports)) }
    ensures unsound { (formula : DealKind → ℕ → RecordValue → ℕ → ℕ) (settings : Settings) (file text : List ℕ) (report : ℕ) (verdict : Verdict)
        (lists : List (List RecordValue)) (session : Session) → IsUnsoundAudit settings (rules_by formula) file text report verdict
        → AreAudited settings (rules_by formula) file text lists session
        → IsFirstUnsound settings lists session.reports report verdict }
    ensures never_both { (formula : DealKind → ℕ → RecordValue → ℕ → ℕ) (settings : Settings) (file text answer : List ℕ) (report : ℕ) (verdict : Verdict)
        → IsSoundAudit settings (rules_by formula) file text answer
        → IsUnsoundAudit settings (rules_by formula) file text report verdict → ⊥ }
    ensures one_first { (formula : DealKind → ℕ → RecordValue → ℕ → ℕ) (settings : Settings) (file text : List ℕ) (report number : ℕ) (verdict other : Verdict)
        → IsUnsoundAudit settings (rules_by formula) file text report verdict
        → IsUnsoundAudit settings (rules_by formula) file text number other
        → (number ≡ report) × (other ≡ verdict) }
{
    captures_are_dealt_in_one_way();
    session_texts_have_one_reading();
    same_sessions_have_equal_reports();
    a_report_has_one_verdict();
}
