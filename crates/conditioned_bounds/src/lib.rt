//! Bounds on conditioned weights, from intervals that hold weights.
#![tactic(auto)]

mod bounds;
mod intervals;
mod laws;
mod line_index;
mod lines;
mod meet_sums;
mod meets;
mod members;
mod numbers;
mod sums;
mod uppers;

pub use bounds::{BoundParts, bound};
pub use intervals::Intervals;
pub use laws::{bounds_hold, only_prefixes_are_asked, weights_balance};
pub use line_index::LineIndex;
pub use lines::closest;
pub use meets::kept_pairs;
