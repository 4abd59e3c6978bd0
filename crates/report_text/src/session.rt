//! What the text of a session says.

use hhh_report::{Positions, Reports};

/// What the text of a session says.
#[derive(Drop)]
pub struct Session {
    /// The positions at its start, one for each shard.
    pub opened: Positions,
    /// Its reports, each with the positions of the cut that was saved after it, if one was.
    pub reports: Reports,
    /// How many frames were read.
    pub frames: u64,
    /// How many of them were skipped as not IPv4.
    pub not_ipv4: u64,
    /// How many were skipped as too short.
    pub short: u64,
    /// How many were skipped for a bad header.
    pub bad_header: u64,
    /// The place in bytes of the frame inside which the capture ended, if it did.
    pub cut: Option<u64>,
}
