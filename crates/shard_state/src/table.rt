//! The body of a shard's tables, named only here.
//!
//! Three bodies meet `Summary`, and the crates above prove over each of them as they are. To count by another one, name its
//! type below, and its crate in the line of this crate in `crates.txt`: `rank_table::RankTable`,
//! `stream_summary::StreamTable`, or `space_saving::PlainTable`, which needs no further crate. `bench/bodies.sh` does so in
//! copies of the repository.

use rank_table::RankTable;

/// A table of a shard, of which the crate knows no more than that it is a `Summary`.
pub(crate) type Table = RankTable;
