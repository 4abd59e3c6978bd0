//! The audit of a session: which of its reports are sound over the dealt records of a capture, by these records alone.
#![tactic(auto)]

mod audit;
mod laws;
mod reading_text;

pub use audit::{Answer, Audited, audit_session};
pub use laws::{audits_find_one_report, audits_have_one_answer};
pub use reading_text::read_text;
