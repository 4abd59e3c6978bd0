//! The top call of the program.
#![tactic(auto)]

mod commands;
mod laws;
mod top_call;

pub use command_words::{
    Command, Opt, PathTexts, Settings, WordsKind, WordsRefusal, paths, read_words,
};
pub use exact_audit::Verdict;
pub use laws::{
    alarms_of_sound_sessions_are_certain, demos_have_one_text, made_captures_are_captures,
    own_reports_are_good, own_sessions_are_audited_good, runs_follow_formulas,
    runs_keep_stores_belonging, runs_keep_their_store, runs_write_what_begins_a_session,
};
pub use report_session::{
    LiveRounds, last_reports_are_one, last_saves_are_at_the_ends, resumed_sessions_end_alike,
    saves_belong, sessions_lose_no_save, sessions_without_rounds_have_one_report,
    stores_belong_throughout,
};
pub use run_status::{Status, fault_line};
pub use session_audit::audits_have_one_answer;
pub use session_watch::{watched_prefixes_are_told_once, watches_have_one_text};
pub use top_call::run;
