//! A table of Space-Saving whose adds take nearly constant time. Its entries stay in slots in the order in which
//! their first keys came; a loser tree of ranks answers the least one when a new key needs it.
#![tactic(auto)]

mod copying;
mod rank_table;
mod ranked_slots;
mod renumbering;
mod scanning;
mod slot;
mod steps;
mod words;

pub use rank_table::RankTable;
