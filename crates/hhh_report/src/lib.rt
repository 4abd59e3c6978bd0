//! What a report says: how many records of each shard it counts, their weight, the threshold, and a line for each
//! reported prefix. How reports are made is the matter of crates above, and so is how they are written and audited.
#![tactic(auto)]

mod laws;
mod line;
mod lines;
mod positions;
mod report;
mod reports;
mod thresholds;

pub use laws::lines_bound_other_positions;
pub use line::Line;
pub use lines::Lines;
pub use positions::Positions;
pub use report::Report;
pub use reports::{Reported, Reports};
pub use thresholds::threshold;
