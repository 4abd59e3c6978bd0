//! How records are dealt.

/// How records are dealt to shards.
#[derive(Clone, Copy, Debug, PartialEq, Eq)]
pub enum DealKind {
    /// The index of the record, from 0, modulo the number of shards.
    RoundRobin,
    /// The source address of the record modulo the number of shards.
    BySource,
    /// Whatever the stored function returns.
    Free,
}
