//! Made traffic: a capture that a seed and a number of frames determine, for trying the program out.
#![tactic(auto)]

mod address;
mod draws;
mod frame;
mod making;
mod piece;

pub use making::{make, make_bytes};
