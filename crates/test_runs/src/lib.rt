//! Runs of the top call over sources, sinks and disks in memory, for the crates of tests.
#![tactic(auto)]

mod captures;
mod handed;
mod runs;
mod stores;

pub use captures::{HEADER, ONE, Packet, capture_of, packet_bytes, push_frame};
pub use handed::Handed;
pub use runs::{Ended, Outside, SOUND, run_gated, run_over};
pub use stores::{FORMAT, REPORT, SECOND_SESSION, SESSION, disk_with, run_gated_on, run_on};
