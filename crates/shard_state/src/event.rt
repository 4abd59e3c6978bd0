//! The events of the core.

/// One event of the core.
#[derive(Clone, Copy, Debug, PartialEq, Eq)]
pub enum Event {
    /// A shard counts its next `block` records, at least one, or its remaining records.
    Fold { shard: u32, block: u32 },
    /// A caller reads a shard into its cut.
    Read { caller: u32, shard: u32 },
}
