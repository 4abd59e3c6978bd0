//! The outside of the program: bytes read from a source, bytes written to a sink, and the count of faults of
//! each. Two fakes in memory replace them in tests.
#![tactic(auto)]

mod failed;
mod memory_sink;
mod memory_source;
mod path_text;
mod sink;
mod source;
mod writing;

pub use failed::Failed;
pub use memory_sink::MemorySink;
pub use memory_source::MemorySource;
pub use path_text::PathText;
pub use sink::Sink;
pub use source::Source;
pub use writing::write_all;
