//! Laws of what commands write, each the contract of a function that does nothing.

ghost use Rattle.std.specs.Prelude.{◌≡◌, ◌⊎◌, ℕ, ◌+◌, ◌*◌, ◌≤◌, true, List, length, All, Option, Some, IfSome};
ghost use Rattle.prefix_lattice.specs.{RecordValue};
ghost use Rattle.deal_rules.specs.{dealer_of};
ghost use Rattle.deal_rules.specs.declared.deal_kind.DealKind.{DealKind};
ghost use Rattle.session_audit.specs.{IsSoundAudit, sound_audit};
ghost use Rattle.hhh_engine.specs.Demo.{IsDemoText};
ghost use Rattle.hhh_engine.specs.SessionPromise.{BeginsItsSession};
ghost use Rattle.hhh_engine.specs.StorePromise.{KeepsBelonging, KeepsItsStore};
ghost use Rattle.hhh_engine.specs.Rules.{run_rules};
ghost use Rattle.watch_rules.specs.{GoesByFormula, judged_by};
ghost use Rattle.watch_rules.specs.declared.rule.Rule.{Rule};
ghost use Rattle.session_watch.specs.{IsHeavyAlarm, IsWatchOf};
ghost use Rattle.hhh_engine.specs.TopCall.{RunEnds, Streams};
ghost use Rattle.run_status.specs.declared.status.Status.{Status};
ghost use Rattle.pcap_frames.specs.{FrameValue};
ghost use Rattle.frame_records.specs.{FileHasFrames};
ghost use Rattle.traffic_maker.specs.{made_capture, most_frames};
ghost use Rattle.exact_audit.specs.{IsVerdict};
ghost use Rattle.exact_audit.specs.declared.verdict.Verdict.{Verdict};
ghost use Rattle.exact_audit.specs.declared.verdict.Verdict.TheVariants.{Good};
ghost use Rattle.command_words.specs.{AreLimited, AskForCommand};
ghost use Rattle.command_words.specs.declared.command.Command.TheVariants.{Report};
ghost use Rattle.command_words.specs.declared.settings.Settings.{Settings};
ghost use Rattle.report_text.specs.{IsSessionText, longest_session};
ghost use Rattle.report_text.specs.declared.session.Session.{Session};
ghost use Rattle.shard_state.specs.{CutRepresents};
ghost use Rattle.report_session.specs.{IsSession, reports_in, AreKeptOnDisk};
ghost use Rattle.dealt_capture.specs.{rules_by};

use command_words::arguments_ask_for_one_command;
use deal_rules::{Dealer, Dealers, Deals};
use dealt_capture::captures_are_dealt_in_one_way;
use exact_audit::a_report_has_one_verdict;
use outside_io::{Sink, Source};
use report_session::{
    own_reports_are_sound, sessions_in_part_begin_whole_ones, sessions_keep_their_store,
    sessions_read_back, stores_belong_throughout, whole_reports_are_one,
};
use report_text::{same_sessions_have_equal_reports, session_texts_have_one_reading};
use session_watch::{watched_alarms_are_certain, watches_have_one_text};
use slot_disk::Disk;
use watch_rules::{Judge, Judges};

/// If each dealer answers by a formula, one for each kind of dealing, and the judge by one of its own, then a run that ended
/// under what dealers and judge may answer also ended so under the formulas: the records are dealt by them, and the alarms
/// have their severities; and what must come of known inputs comes where the records are dealt so.
pub fn runs_follow_formulas<S: Source, T: Source, K: Sink, D: Disk>(
    dealers: &Dealers,
    judge: &Judge,
)
    ensures { (formula : DealKind → ℕ → RecordValue → ℕ → ℕ) (severity : ℕ → ℕ → ℕ → ℕ) (old new : Streams S T K D) (words : List (List ℕ))
        (status : Status)
        → ((kind : DealKind) (place : ℕ) (rec : RecordValue) (shards number : ℕ)
        → ⟦<Dealer as Deals>⟧.may_answer (dealer_of kind dealers.now) place rec shards number → number ≡ formula kind place rec shards)
        → GoesByFormula severity (⟦<Judge as Judges>⟧.may_answer judge.now)
        → RunEnds S.Source T.Source K.Sink D.Disk old new words
        (run_rules (λ kind. ⟦<Dealer as Deals>⟧.may_answer (dealer_of kind dealers.now)) (⟦<Judge as Judges>⟧.may_answer judge.now)) status
        → RunEnds S.Source T.Source K.Sink D.Disk old new words (run_rules (rules_by formula) (judged_by severity)) status }
{
    watches_have_one_text(judge);
}

/// An audit of a session's reports over the dealt records finds each of them good, for the grain, the capacity and the share of
/// the session, also where the session went on from a saved cut, if the tables of this were those of its records.
pub fn own_reports_are_good<D: Disk>()
    ensures { (formula : DealKind → ℕ → RecordValue → ℕ → ℕ) (before now : D) (settings : Settings) (store file : Option (List ℕ)) (text : List ℕ)
        (is : IsSession settings (rules_by formula) (AreKeptOnDisk D.Disk before now) store file text)
        (verdict : Verdict) → IfSome is.base (λ cut. CutRepresents cut is.lists)
        → All (λ reported. IsVerdict settings.grain is.lists settings.capacity settings.phi reported.report verdict
        → verdict ≡ Good) (reports_in is.spelled.reports) }
{
    own_reports_are_sound::<D>();
    a_report_has_one_verdict();
}

/// What `report` writes over a capture is the text of a session, and an audit of it over this capture finds all its
/// reports sound: those of each round of each caller, the calling thread among them, and the last one. The audit may have
/// settings of its own that agree on the grain, the shards, the capacity, the share, the dealing, the weighing and whether a
/// cut capture is taken up to its cut, and the text may not be longer than the longest that is audited. If the session went
/// on from a saved cut, then the tables of this have to be those of its records.
pub fn own_sessions_are_audited_good<D: Disk>()
    ensures is_text { (formula : DealKind → ℕ → RecordValue → ℕ → ℕ) (before now : D) (settings : Settings) (store : Option (List ℕ)) (file text : List ℕ)
        (is : IsSession settings (rules_by formula) (AreKeptOnDisk D.Disk before now) store (Some file) text)
        → AreLimited settings → IfSome is.base (λ cut. CutRepresents cut is.lists) → (known : Session) × IsSessionText settings.grain text known }
    ensures good { (formula : DealKind → ℕ → RecordValue → ℕ → ℕ) (before now : D) (settings other : Settings) (store : Option (List ℕ)) (file text : List ℕ)
        (is : IsSession settings (rules_by formula) (AreKeptOnDisk D.Disk before now) store (Some file) text)
        → AreLimited settings → settings.grain ≡ other.grain → settings.shards ≡ other.shards
        → settings.capacity ≡ other.capacity → settings.phi ≡ other.phi → settings.deal ≡ other.deal
        → settings.weigh ≡ other.weigh → settings.front ≡ other.front → length text ≤ longest_session
        → IfSome is.base (λ cut. CutRepresents cut is.lists)
        → IsSoundAudit other (rules_by formula) file text (sound_audit ((settings.callers + 1) * settings.rounds + 1)) }
{
    sessions_read_back::<D>();
}

/// Where an audit finds all reports of a text sound over a capture, each alarm of a watch over this text is of a heavy
/// prefix: the records before the positions of the alarm's report give it at least the limit of the rule.
pub fn alarms_of_sound_sessions_are_certain(judge: &Judge)
    ensures { (formula : DealKind → ℕ → RecordValue → ℕ → ℕ) (settings : Settings) (rule : Rule) (file text answer alarms : List ℕ)
        (audit : IsSoundAudit settings (rules_by formula) file text answer)
        (watch : IsWatchOf (⟦<Judge as Judges>⟧.may_answer judge.now) rule settings.grain text alarms)
        → All (IsHeavyAlarm rule.limit audit.lists watch.session.reports) watch.watched.alarms }
{
    session_texts_have_one_reading();
    same_sessions_have_equal_reports();
    watched_alarms_are_certain(judge);
}

/// A made capture is a capture of its frames.
pub fn made_captures_are_captures()
    ensures { (seed count : ℕ) → count ≤ most_frames
        → (frames : List FrameValue) × FileHasFrames (made_capture seed count) frames × (length frames ≡ count) }
{}

/// The text of a demonstration depends on the seed, the number of frames, the grain, the shards, the capacity, the share,
/// the dealing and the weighing alone, where each kind of dealing is a formula: whatever the number of workers, the block and the
/// threads, its bytes are the same.
pub fn demos_have_one_text()
    ensures { (formula : DealKind → ℕ → RecordValue → ℕ → ℕ) (settings other : Settings) (seed frames : ℕ) (text other_text : List ℕ)
        → settings.grain ≡ other.grain → settings.shards ≡ other.shards → settings.capacity ≡ other.capacity
        → settings.phi ≡ other.phi → settings.deal ≡ other.deal → settings.weigh ≡ other.weigh
        → IsDemoText settings (rules_by formula) seed frames text → IsDemoText other (rules_by formula) seed frames other_text
        → text ≡ other_text }
{
    captures_are_dealt_in_one_way();
    whole_reports_are_one();
}

/// Whatever the status of a run of `report` with a store, whose bytes were known as it began: the store is kept, by the bytes
/// that were written. What a crash now leaves of it opens to no earlier positions than the last line `saved` shows, or than
/// the line `opened` where there is none, and its sequence counts these lines, exactly so where the run is Done.
pub fn runs_keep_their_store<S: Source, T: Source, K: Sink, D: Disk>(
    dealers: &Dealers,
    judge: &Judge,
)
    ensures { (old new : Streams S T K D) (words : List (List ℕ)) (status : Status) (settings : Settings) (store : List ℕ)
        → AskForCommand words (Report settings) → settings.store ≡ true → D.reads old.disk ≡ Some store
        → RunEnds S.Source T.Source K.Sink D.Disk old new words
        (run_rules (λ kind. ⟦<Dealer as Deals>⟧.may_answer (dealer_of kind dealers.now)) (⟦<Judge as Judges>⟧.may_answer judge.now)) status
        → KeepsItsStore K.Sink D.Disk old new settings store status }
{
    arguments_ask_for_one_command();
    sessions_keep_their_store::<D>(dealers);
}

/// Whatever the status of a run of `report` with a store, whose bytes were known as it began, and by whatever rules the
/// dealers deal: the store keeps belonging to its records. If nothing was written, it belongs to whatever lists it belonged
/// to. Else the records of the capture were dealt to lists; if whatever a crash could have left of the store as the run
/// began belonged to these, the saved cut that the run went on from represents them, and whatever a crash leaves of the
/// store, at any moment of the run or after it, belongs to them.
pub fn runs_keep_stores_belonging<S: Source, T: Source, K: Sink, D: Disk>(
    dealers: &Dealers,
    judge: &Judge,
)
    ensures { (old new : Streams S T K D) (words : List (List ℕ)) (status : Status) (settings : Settings) (store : List ℕ)
        → AskForCommand words (Report settings) → settings.store ≡ true → D.reads old.disk ≡ Some store
        → RunEnds S.Source T.Source K.Sink D.Disk old new words
        (run_rules (λ kind. ⟦<Dealer as Deals>⟧.may_answer (dealer_of kind dealers.now)) (⟦<Judge as Judges>⟧.may_answer judge.now)) status
        → KeepsBelonging S.Source D.Disk old new settings (λ kind. ⟦<Dealer as Deals>⟧.may_answer (dealer_of kind dealers.now)) }
{
    arguments_ask_for_one_command();
    stores_belong_throughout::<D>(dealers);
}

/// Whatever the status of a run of `report`: nothing was written, or bytes with which a whole session over the capture
/// begins. So where a run breaks off, the reports that it didn't write exist, whether or not there was memory for them.
pub fn runs_write_what_begins_a_session<S: Source, T: Source, K: Sink, D: Disk>(
    dealers: &Dealers,
    judge: &Judge,
)
    ensures { (old new : Streams S T K D) (words : List (List ℕ)) (status : Status) (settings : Settings)
        → AskForCommand words (Report settings)
        → RunEnds S.Source T.Source K.Sink D.Disk old new words
        (run_rules (λ kind. ⟦<Dealer as Deals>⟧.may_answer (dealer_of kind dealers.now)) (⟦<Judge as Judges>⟧.may_answer judge.now)) status
        → (new.sink ≡ old.sink) ⊎ BeginsItsSession S.Source K.Sink D.Disk old new settings
        (λ kind. ⟦<Dealer as Deals>⟧.may_answer (dealer_of kind dealers.now)) }
{
    arguments_ask_for_one_command();
    sessions_in_part_begin_whole_ones::<D>(dealers);
}
