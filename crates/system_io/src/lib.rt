//! Streams and files of the system as sources, sinks and a disk.
#![tactic(auto)]

mod file_disk;
mod input;
mod std_sink;
mod std_source;
mod store_file;
#[cfg(test)]
mod tests;

pub use file_disk::{FileDisk, StoreDisk};
pub use input::{Input, LateFile, NamedInput, Opener, input_of};
pub use std_sink::StdSink;
pub use std_source::StdSource;
pub use store_file::{StoreFile, StoreOpener, SystemStore};
