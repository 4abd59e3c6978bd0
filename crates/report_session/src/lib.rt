//! The session of `report`: the reports on dealt records while they are counted, a last one over all of them, and the saves
//! of what was reported.
#![tactic(auto)]

mod base;
mod feed;
mod laws;
mod live_rounds;
mod report;
mod saving;
mod session;
mod whole_report;
mod writing;

pub use base::store_settings;
pub use laws::{
    last_reports_are_one, last_saves_are_at_the_ends, own_reports_are_sound,
    resumed_sessions_end_alike, saves_belong, sessions_in_part_begin_whole_ones,
    sessions_keep_their_store, sessions_lose_no_save, sessions_read_back,
    sessions_without_rounds_have_one_report, stores_belong_throughout, whole_reports_are_one,
};
pub use live_rounds::LiveRounds;
pub use report::{DealtFeed, report_dealt};
pub use whole_report::report_all;
