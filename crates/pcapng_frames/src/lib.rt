//! Captures in the pcapng format: the frames of the Ethernet packets of a file or its first fault, read as a stream in
//! pieces of any size.
#![tactic(auto)]

mod block;
mod laws;
mod reader;
mod reading;
mod verdict;

pub use laws::{any_captures_are_decided, ng_captures_are_decided};
pub use reader::NgReader;
pub use reading::read_any;
