//! Laws of texts. A caller that calls one has its contract available.

ghost use Rattle.std.specs.Prelude.{◌≡◌, ◌≤◌, ◌<◌, List, ℕ, [], ◌∷◌, ◌++◌, length, map};
ghost use Rattle.std.specs.List.{flat_map};
ghost use Rattle.prefix_lattice.specs.declared.grain.Grain.{Grain};
ghost use Rattle.hhh_report.specs.{IsSameReport};
ghost use Rattle.hhh_report.specs.declared.report.Report.{Report};
ghost use Rattle.frame_records.specs.declared.records.Records.{Records};
ghost use Rattle.report_text.specs.Printing.{report_text, mark_text, tail_text, Shows};
ghost use Rattle.report_text.specs.SavedLines.{ShowsSaves};
ghost use Rattle.report_text.specs.declared.mark.Mark.{Mark};
ghost use Rattle.report_text.specs.declared.mark.Mark.TheVariants.{Opened, Saved};
ghost use Rattle.report_text.specs.Session.{AreSameSessions, HasSessionFault, IsTextSession, IsSessionText};
ghost use Rattle.report_text.specs.Session.{longest_session};
ghost use Rattle.report_text.specs.Session.{printed_text, report_lines, session_lines};
ghost use Rattle.report_text.specs.Session.{session_text, words_text, whole_lines};
ghost use Rattle.report_text.specs.declared.session.Session.{Session};
ghost use Rattle.report_text.specs.declared.session_fault.TextFault.{TextFault};

use prefix_lattice::{prefix_texts_read_back, report_order_is_total};

/// A law of reports: reports with the same text show the same.
pub fn report_texts_are_apart()
    ensures { (report other : Report) → Shows report → Shows other → report_text report ≡ report_text other → IsSameReport report other }
{
    prefix_texts_read_back();
}

/// A law of reports: reports that show the same have the same text.
pub fn same_reports_have_one_text()
    ensures { (report other : Report) → IsSameReport report other → report_text report ≡ report_text other }
{}

/// A law of sessions: what is printed of a session, part by part, is its text, and is read back as that session by the
/// grain of its prefixes. The text of a report is that of its lines, and the whole lines of the text of a session are
/// its lines.
pub fn printed_sessions_read_back()
    ensures report { (report : Report) → flat_map words_text (report_lines report) ≡ report_text report }
    ensures printed { (session : Session) → printed_text session ≡ session_text session }
    ensures lines { (grain : Grain) (session : Session) → IsTextSession grain session
        → whole_lines (session_text session) ≡ map words_text (session_lines session) }
    ensures read { (grain : Grain) (session other : Session) → IsTextSession grain session
        → IsSessionText grain (printed_text session) other → AreSameSessions session other }
{
    prefix_texts_read_back();
    report_order_is_total();
}

/// A law of sessions: for a grain, a text has one fault at most, and is that of one session at most. A text of at most
/// 268,435,456 bytes isn't both.
pub fn session_texts_have_one_reading()
    ensures apart { (grain : Grain) (text : List ℕ) (session other : Session) → IsSessionText grain text session
        → IsSessionText grain text other → AreSameSessions session other }
    ensures one_fault { (grain : Grain) (text : List ℕ) (fault other : TextFault) → HasSessionFault grain text fault
        → HasSessionFault grain text other → fault ≡ other }
    ensures no_fault { (grain : Grain) (text : List ℕ) (session : Session) (fault : TextFault)
        → IsSessionText grain text session → length text ≤ longest_session → ¬ HasSessionFault grain text fault }
{
    prefix_texts_read_back();
    report_order_is_total();
}

/// A law of sessions: sessions that say the same have equal reports.
pub fn same_sessions_have_equal_reports()
    ensures { (session other : Session) → AreSameSessions session other → other.reports ≡ session.reports }
{}

/// A law of sessions: a session has no more reports than its text has bytes.
pub fn session_texts_hold_their_reports()
    ensures { (grain : Grain) (text : List ℕ) (session : Session) → IsSessionText grain text session
        → length session.reports ≤ length text }
{}

/// A law of texts: which cuts the whole lines of a text say were saved, from its parts. Reports, the first line of a session
/// and its last ones show none, a line `saved` shows its positions, and a front of a text that shows none shows none. A
/// line of positions is one whole line, and a strict front of it has none.
pub fn texts_show_saves()
    ensures report { (report : Report) (rest : List ℕ) (saves : List (List ℕ)) → ShowsSaves rest saves → ShowsSaves (report_text report ++ rest) saves }
    ensures opened { (positions rest : List ℕ) (saves : List (List ℕ)) → ShowsSaves rest saves → ShowsSaves (mark_text Opened positions ++ rest) saves }
    ensures saved { (positions rest : List ℕ) (saves : List (List ℕ)) → ShowsSaves rest saves
        → ShowsSaves (mark_text Saved positions ++ rest) (positions ∷ saves) }
    ensures line { (mark : Mark) (positions rest : List ℕ)
        → whole_lines (mark_text mark positions ++ rest) ≡ mark_text mark positions ∷ whole_lines rest }
    ensures tail { (records : Records) → ShowsSaves (tail_text records) [] }
    ensures front { (front rest : List ℕ) → ShowsSaves (front ++ rest) [] → ShowsSaves front [] }
    ensures unfinished { (mark : Mark) (positions front rest : List ℕ) → mark_text mark positions ≡ front ++ rest
        → length front < length (mark_text mark positions) → whole_lines front ≡ [] }
{}
