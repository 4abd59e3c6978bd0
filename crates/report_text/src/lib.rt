//! The text of reports and of the lines around them, and the reader of the text of a session.
#![tactic(auto)]

mod laws;
mod line_cursor;
mod line_reading;
mod mark;
mod printing;
mod putting;
mod session;
mod session_fault;
mod session_line;
mod session_reading;
mod word_cut;

pub use laws::{
    printed_sessions_read_back, report_texts_are_apart, same_reports_have_one_text,
    same_sessions_have_equal_reports, session_texts_have_one_reading,
    session_texts_hold_their_reports, texts_show_saves,
};
pub use mark::Mark;
pub use printing::{print, print_lines, print_named_positions, print_positions, print_tail};
pub use session::Session;
pub use session_fault::{SessionFault, TextFault};
pub use session_reading::read_session;
