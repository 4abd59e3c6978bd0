//! A table of Space-Saving that is the classic Stream-Summary (Metwally, Agrawal, El Abbadi 2005): entries of equal
//! count stand in one bucket, and both are linked, by numbers, in the order of their counts.
#![tactic(auto)]

mod arena;
mod buckets;
mod links;
mod numbers;
mod putting;
mod reading;
mod recent;
mod ring;
mod slot;
mod steps;
mod stream_table;
mod taking;

pub use stream_table::StreamTable;
