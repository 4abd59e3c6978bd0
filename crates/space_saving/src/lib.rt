//! Space-Saving tables with weights: the few keys that may have had the most weight, each with the interval that
//! holds its weight.
#![tactic(auto)]

mod entry;
mod entry_source;
mod facts;
mod flat;
mod keys;
mod laws;
mod places;
mod plain_table;
mod steps;
mod summary;

pub use entry::Entry;
pub use entry_source::EntrySource;
pub use flat::Flat;
pub use laws::{
    adds_go_on, adds_leave_a_table, intervals_are_narrow, intervals_hold, missing_keys_are_light,
    steps_leave_a_table,
};
pub use plain_table::PlainTable;
pub use summary::Summary;
