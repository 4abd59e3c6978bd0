//! The states of shards: tables that count a shard's records up to a position, snapshots of these tables, and
//! cuts, which have one snapshot for each shard.
#![tactic(auto)]

mod cut;
mod event;
mod folding;
mod laws;
mod shard_core;
mod shard_state;
mod snapshot;
mod snapshot_parts;
mod table;

pub use cut::Cut;
pub use event::Event;
pub use hhh_report::Positions;
pub use laws::{
    runs_stand, shards_keep_their_limits, shards_stand, snapshots_hold_weights,
    standing_cuts_are_equal, tables_hold_weights,
};
pub use shard_core::{Core, states_are_kept};
pub use shard_state::{Folded, ShardState};
pub use snapshot::Snapshot;
