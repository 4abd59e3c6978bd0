//! The records of a capture's frames.
#![tactic(auto)]

mod frame_record;
mod laws;
mod reading;
mod record_visitor;
mod records;
mod skip;
mod weigh;

pub use frame_record::record_of;
pub use laws::files_are_read_or_refused;
pub use reading::read_records;
pub use records::Records;
pub use skip::Skip;
pub use weigh::Weigh;
