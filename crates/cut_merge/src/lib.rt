//! The tables of all shards read as one: the interval of each prefix, and the prefixes that some shard
//! monitors.
#![tactic(auto)]

mod high_bounds;
mod key_interval;
mod laws;
mod merged;
mod node_merge;
mod run;
mod seen_homes;

pub use laws::{
    merged_intervals_are_narrow, merged_intervals_hold_weights, monitored_keys_are_few,
};
pub use merged::Merged;
