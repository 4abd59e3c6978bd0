//! The records of a capture, dealt to shards: what is counted, and what an audit judges by.
#![tactic(auto)]

mod dealing;
mod laws;

pub use dealing::deal_records;
pub use laws::captures_are_dealt_in_one_way;
