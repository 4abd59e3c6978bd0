//! How a command ended, as a status, as the exit status of the program, and as a line.
#![tactic(auto)]

mod decimal_text;
mod prefix_text;
mod status;

pub use decimal_text::push_number;
pub use prefix_text::push_prefix;
pub use status::{Status, fault_line};
