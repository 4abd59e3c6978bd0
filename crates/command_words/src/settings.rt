//! The settings of a command.

use deal_rules::DealKind;
use frame_records::Weigh;
use prefix_lattice::Grain;

/// The settings of a command, with defaults filled in.
#[derive(Clone, Copy, Debug, PartialEq, Eq)]
pub struct Settings {
    /// How many shards the records are dealt to, 1 to 16.
    pub shards: u32,
    /// How many prefixes each table can monitor, 2 to 4096, and at most 1024 by half bytes.
    pub capacity: u32,
    /// The least share, in parts per million of the total, at which a prefix is heavy, 1 to 1,000,000.
    pub phi: u32,
    /// The most records that one fold counts, 1 to 65,536.
    pub block: u32,
    /// How many threads fold records, 1 to 16.
    pub workers: u32,
    /// How many threads report besides the calling one, 0 to 8.
    pub callers: u32,
    /// How many reports each of them makes while records are folded, 0 to 32.
    pub rounds: u32,
    /// How traffic is weighed.
    pub weigh: Weigh,
    /// How records are dealt to shards.
    pub deal: DealKind,
    /// By how many bits prefixes may keep more of an address.
    pub grain: Grain,
    /// Whether a capture that ends inside a frame is taken up to that frame.
    pub front: bool,
    /// Whether cuts are saved in a store.
    pub store: bool,
}
