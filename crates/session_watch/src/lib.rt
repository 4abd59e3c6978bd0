//! The watch over a session: the alarms of its reports by one rule, as text.
#![tactic(auto)]

mod laws;
mod watch;

pub use laws::{watched_alarms_are_certain, watched_prefixes_are_told_once, watches_have_one_text};
pub use watch::watch_session;
