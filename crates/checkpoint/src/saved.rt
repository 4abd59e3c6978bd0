//! What a body spells.

use shard_state::Cut;

/// A saved cut, with its sequence among the saves of a store, and the digest of its records.
#[derive(Drop)]
pub struct Saved {
    /// Which save of the store it is, from 1 to 2^62.
    pub sequence: u64,
    /// The digest of the dealt records that the cut counts.
    pub digest: [u8; 32],
    /// The tables of all shards, and how many records each of them counts.
    pub cut: Cut,
}
