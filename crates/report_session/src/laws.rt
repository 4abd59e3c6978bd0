//! Laws of sessions and of the stores of their saves, each the contract of a function that does nothing.

ghost use Rattle.std.specs.Prelude.{◌≡◌, ℕ, ◌+◌, ◌*◌, ◌++◌, true, false, List, [], length, All, Option, Some, None, IfSome};
ghost use Rattle.std.specs.Prelude.{IsSomeAnd};
ghost use Rattle.prefix_lattice.specs.{RecordValue};
ghost use Rattle.deal_rules.specs.{dealer_of};
ghost use Rattle.deal_rules.specs.declared.deal_kind.DealKind.{DealKind};
ghost use Rattle.hhh_report.specs.declared.reports.Reported.{Reported};
ghost use Rattle.command_words.specs.{AreLimited, HaveWideShare};
ghost use Rattle.command_words.specs.declared.settings.Settings.{Settings};
ghost use Rattle.report_text.specs.{IsSessionText, mark_text, report_text};
ghost use Rattle.report_text.specs.declared.mark.Mark.TheVariants.{Opened};
ghost use Rattle.report_text.specs.declared.session.Session.{Session};
ghost use Rattle.shard_state.specs.{AreCoreShards, BasesRepresent, CutRepresents};
ghost use Rattle.shard_state.specs.{ShardValue, core_shape, core_lists, cut_positions};
ghost use Rattle.checkpoint.specs.declared.header.StoreHeader.{StoreHeader};
ghost use Rattle.checkpoint.specs.declared.settings.StoreSettings.{StoreSettings};
ghost use Rattle.checkpoint.specs.{StoreBelongs, IsStoreOf, StoreOpensTo, SavedValue};
ghost use Rattle.checkpoint.specs.{store_sequence, stored_header, written_header};
ghost use Rattle.report_session.specs.Session.{AreReports, IsSession, IsSessionInPart, IsShownInSession};
ghost use Rattle.report_session.specs.Session.{BeginsWholeSession};
ghost use Rattle.report_session.specs.Session.{SessionReports, calling_reports, session_ends};
ghost use Rattle.report_session.specs.Session.{new_shards, session_part, reports_in, saves_of};
ghost use Rattle.report_session.specs.Session.{text_of_reports, session_start, IsWholeReport};
ghost use Rattle.dealt_capture.specs.{rules_by};
ghost use Rattle.report_session.specs.KeptStore.{SessionsBelong, StoreIsKept};
ghost use Rattle.report_session.specs.Saving.{IsAsBefore, BelongThroughout, OpensToSaves, AreKeptOnDisk};
ghost use Rattle.report_session.specs.Saving.{last_of_saves, AreReopened, BelongsToLists, settings_of_store};
ghost use Rattle.hhh_report.specs.{IsSameReport, IsSound};
ghost use Rattle.hhh_report.specs.declared.report.Report.{Report};
ghost use Rattle.report_session.specs.Session.{asked_shape};

use checkpoint::{stores_open_to_one, stores_show_their_header};
use deal_rules::{Dealer, Dealers, Deals};
use frame_records::files_are_read_or_refused;
use gate_workers::reported_cuts_represent;
use hhh_output::{
    a_cut_has_one_report, each_cut_has_a_report, reports_are_sound, standing_cuts_have_one_report,
};
use report_text::{printed_sessions_read_back, same_reports_have_one_text, texts_show_saves};
use shard_state::shards_keep_their_limits;
use slot_disk::Disk;

/// The text of the last report of a session depends on the dealt lists, the grain, the capacity and the share alone: whatever
/// the numbers of workers, callers and rounds, the block and the threads, its bytes are the same.
pub fn last_reports_are_one()
    ensures { (lists : List (List RecordValue)) (settings other : Settings) (reports others : SessionReports) → settings.grain ≡ other.grain
        → settings.capacity ≡ other.capacity → settings.phi ≡ other.phi
        → AreReports (new_shards (asked_shape settings) lists) settings reports
        → AreReports (new_shards (asked_shape other) lists) other others
        → report_text reports.last.report ≡ report_text others.last.report }
{
    a_cut_has_one_report();
    same_reports_have_one_text();
}

/// A session without rounds has one report, the last one, whatever the numbers of workers and callers.
pub fn sessions_without_rounds_have_one_report()
    ensures { (opening : List ShardValue) (settings : Settings) (reports : SessionReports) (tail : List ℕ) → settings.rounds ≡ 0
        → AreReports opening settings reports
        → text_of_reports settings.store (session_start opening) reports tail
        ≡ mark_text Opened (session_start opening) ++ (session_part settings.store reports.last ++ tail) }
{}

/// The last reports of two sessions over the same dealt lists have one text, also where their shards went on from saved
/// cuts, if the tables of these were those of their records: a run that was stopped and goes on ends as if it had not been.
pub fn resumed_sessions_end_alike()
    ensures { (opening other_opening : List ShardValue) (settings other : Settings) (reports others : SessionReports)
        → AreCoreShards opening → AreCoreShards other_opening → BasesRepresent opening → BasesRepresent other_opening
        → core_lists opening ≡ core_lists other_opening → core_shape opening ≡ core_shape other_opening
        → settings.phi ≡ other.phi → AreReports opening settings reports → AreReports other_opening other others
        → report_text reports.last.report ≡ report_text others.last.report }
{
    standing_cuts_have_one_report();
    reported_cuts_represent();
    same_reports_have_one_text();
}

/// What the saves of reports, whether a session was whole or broke off, may leave of a store belongs to the dealt lists, if
/// the store did before and the shards began with tables of their records.
pub fn saves_belong()
    ensures { (header : StoreHeader) (opening : List ShardValue) (settings : Settings) (reports : List Reported)
        (opened : Option SavedValue) (image : List ℕ)
        → AreCoreShards opening → BasesRepresent opening → All (IsShownInSession opening settings) reports
        → IsStoreOf header (core_lists opening) opened
        → OpensToSaves header opened (saves_of header opening opened reports) image
        → StoreBelongs header (core_lists opening) image }
{
    reported_cuts_represent();
}

/// The last save of a session, which its store opens to, is of the last report: its positions are at the ends of the lists,
/// and its sequence has risen by one for each report of the calling thread.
pub fn last_saves_are_at_the_ends()
    ensures { (header : StoreHeader) (opening : List ShardValue) (settings : Settings) (reports : SessionReports)
        (opened : Option SavedValue) → AreReports opening settings reports
        → IsSomeAnd (last_of_saves opened (saves_of header opening opened (calling_reports reports))) (λ saved.
        (cut_positions saved.cut ≡ session_ends opening) × (saved.sequence ≡ store_sequence opened + (settings.rounds + 1))) }
{}

/// Where each kind of dealing is a formula and the bytes of the disk were known as `report` began: what a crash leaves of
/// the store after it, whether its session was whole or broke off, is a sound store. It opens to no earlier cut than the
/// last one that was saved, or than the one that it opened to before where none was: neither its sequence, which counts
/// the saves, nor the position of any shard is smaller. If no save is unfinished, it opens to exactly that. The
/// settings of a session that broke off have to be within their limits.
pub fn sessions_lose_no_save<D: Disk>()
    ensures whole { (formula : DealKind → ℕ → RecordValue → ℕ → ℕ) (before now : D) (settings : Settings) (file : Option (List ℕ)) (text : List ℕ)
        → IsSession settings (rules_by formula) (AreKeptOnDisk D.Disk before now)
        (D.reads before) file text
        → IsSession settings (rules_by formula) (AreReopened D.Disk before now) (D.reads before) file text }
    ensures in_part { (formula : DealKind → ℕ → RecordValue → ℕ → ℕ) (before now : D) (settings : Settings) (file : Option (List ℕ)) (front : List ℕ)
        → AreLimited settings
        → IsSessionInPart settings (rules_by formula)
        (AreKeptOnDisk D.Disk before now) (D.reads before) file front
        → IsSessionInPart settings (rules_by formula) (AreReopened D.Disk before now) (D.reads before) file front }
{
    stores_open_to_one();
}

/// What belonged to the dealt lists keeps belonging to them. If the bytes of the disk were known as `report` began, and
/// whatever a crash could have left of the store then belonged to the dealt lists: the saved cut that the session went on
/// from represents them, so its reports are sound; and whatever a crash leaves of the store at any moment of the session,
/// or after it, belongs to them, whether the session was whole or broke off, by whatever rules these dealers deal, and by
/// formulas. The settings have to be within their limits. A disk that is as before belongs to what it belonged to; a store
/// with no gate open, such as one that was just formatted, belongs to any lists.
pub fn stores_belong_throughout<D: Disk>(dealers: &Dealers)
    ensures formatted { (settings : StoreSettings) (lists : List (List RecordValue)) (image : List ℕ)
        → StoreOpensTo (written_header settings) image None → BelongsToLists settings lists image }
    ensures as_before { (old new : D) (settings : StoreSettings) (lists : List (List RecordValue)) → IsAsBefore D.Disk old new
        → ((image : List ℕ) → D.image_now old image → BelongsToLists settings lists image)
        → BelongThroughout D.Disk settings lists None old new }
    ensures by_dealers { SessionsBelong D.Disk (λ kind. ⟦<Dealer as Deals>⟧.may_answer (dealer_of kind dealers.now)) }
    ensures by_formula { (formula : DealKind → ℕ → RecordValue → ℕ → ℕ) → SessionsBelong D.Disk (rules_by formula) }
{
    stores_open_to_one();
    stores_show_their_header();
    reported_cuts_represent();
}

/// Two reports over all records of the same dealt lists are the same, where the grain, the capacity and the share are: whatever
/// the numbers of workers and callers, the block and the threads.
pub fn whole_reports_are_one()
    ensures { (settings other : Settings) (lists : List (List RecordValue)) (report others : Report) → settings.grain ≡ other.grain
        → settings.capacity ≡ other.capacity → settings.phi ≡ other.phi → IsWholeReport settings lists report
        → IsWholeReport other lists others → IsSameReport report others }
{
    a_cut_has_one_report();
}

/// Where each kind of dealing is a formula, the reports of a session are sound over the dealt records, also where it went on
/// from a saved cut, if the tables of this were those of its records.
pub fn own_reports_are_sound<D: Disk>()
    ensures { (formula : DealKind → ℕ → RecordValue → ℕ → ℕ) (before now : D) (settings : Settings) (store file : Option (List ℕ)) (text : List ℕ)
        (is : IsSession settings (rules_by formula) (AreKeptOnDisk D.Disk before now) store file text)
        → IfSome is.base (λ cut. CutRepresents cut is.lists)
        → All (λ reported. IsSound settings.grain reported.report is.lists settings.capacity settings.phi) (reports_in is.spelled.reports) }
{}

/// Where each kind of dealing is a formula, what `report` writes over a capture is the text of a session, whose reports are
/// sound over the dealt records: those of each round of each caller, and the last one. If it went on from a saved cut, the
/// tables of this have to be those of its records.
pub fn sessions_read_back<D: Disk>()
    ensures { (formula : DealKind → ℕ → RecordValue → ℕ → ℕ) (before now : D) (settings : Settings) (store : Option (List ℕ)) (file text : List ℕ)
        (is : IsSession settings (rules_by formula) (AreKeptOnDisk D.Disk before now) store (Some file) text) → AreLimited settings
        → IfSome is.base (λ cut. CutRepresents cut is.lists) → (known : Session) × IsSessionText settings.grain text known
        × All (λ reported. IsSound settings.grain reported.report is.lists settings.capacity settings.phi) known.reports
        × (length known.reports ≡ (settings.callers + 1) * settings.rounds + 1) }
{
    files_are_read_or_refused();
    printed_sessions_read_back();
}

/// A law of sessions with a store, whose bytes were known as `report` began: the store is kept, by the bytes that were written.
/// Where the session is whole, its sequence counts the saves exactly. Where nothing was written and the disk is as before, the
/// store is kept too. The settings have to be within their limits.
pub fn sessions_keep_their_store<D: Disk>(dealers: &Dealers)
    ensures whole { (old new : D) (settings : Settings) (store : List ℕ) (file : Option (List ℕ)) (text : List ℕ) → AreLimited settings
        → settings.store ≡ true → D.reads old ≡ Some store
        → IsSession settings (λ kind. ⟦<Dealer as Deals>⟧.may_answer (dealer_of kind dealers.now)) (AreKeptOnDisk D.Disk old new)
        (D.reads old) file text
        → StoreIsKept D.Disk (stored_header (settings_of_store settings) store) old new store text true }
    ensures in_part { (old new : D) (settings : Settings) (store : List ℕ) (file : Option (List ℕ)) (front : List ℕ) → AreLimited settings
        → settings.store ≡ true → D.reads old ≡ Some store
        → IsSessionInPart settings (λ kind. ⟦<Dealer as Deals>⟧.may_answer (dealer_of kind dealers.now)) (AreKeptOnDisk D.Disk old new)
        (D.reads old) file front
        → StoreIsKept D.Disk (stored_header (settings_of_store settings) store) old new store front false }
    ensures as_before { (old new : D) (header : StoreHeader) (store : List ℕ) → IsAsBefore D.Disk old new
        → StoreIsKept D.Disk header old new store [] false }
{
    stores_open_to_one();
    texts_show_saves();
}

/// What was written of a session that broke off begins a whole session, so the reports that it lacks exist, whether or
/// not there was memory to make them. Nothing is said of the disk.
pub fn sessions_in_part_begin_whole_ones<D: Disk>(dealers: &Dealers)
    ensures { (old new : D) (settings : Settings) (store file : Option (List ℕ)) (front : List ℕ) → HaveWideShare settings
        → IsSessionInPart settings (λ kind. ⟦<Dealer as Deals>⟧.may_answer (dealer_of kind dealers.now)) (AreKeptOnDisk D.Disk old new)
        store file front
        → BeginsWholeSession settings (λ kind. ⟦<Dealer as Deals>⟧.may_answer (dealer_of kind dealers.now)) store file front }
{
    each_cut_has_a_report();
    reports_are_sound();
    reported_cuts_represent();
    shards_keep_their_limits();
}
