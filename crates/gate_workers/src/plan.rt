//! How many threads work on a board, and with what.

use prefix_lattice::Grain;

/// What `run_threads` starts.
#[derive(Clone, Copy, Debug, PartialEq, Eq)]
pub struct ThreadPlan {
    /// The grain of the board's tables.
    pub grain: Grain,
    /// How many workers feed the shards, at least 1.
    pub workers: u32,
    /// How many callers report besides the calling thread.
    pub callers: u32,
    /// How often each caller reports.
    pub rounds: u32,
    /// How many records a worker folds at a time, at least 1.
    pub block: u32,
    /// The share of the total at which a prefix is heavy, 1 to 1,000,000 parts per million.
    pub phi: u32,
    /// The capacity of the board's tables, at most 1024 for half bytes. Its product with `phi` is at least 2,000,000.
    pub capacity: u32,
}
