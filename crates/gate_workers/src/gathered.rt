//! What comes back from threads.

use hhh_report::Reports;
use pass_tokens::Pass;

/// What one caller brings back.
#[derive(Drop)]
pub struct Called {
    /// The pass with which it read.
    pub pass: Pass,
    /// Its reports, one for each round.
    pub reports: Reports,
}

/// What all threads of a plan bring back.
#[derive(Drop)]
pub struct Gathered {
    /// The pass of the calling thread, to which those of the workers are joined.
    pub pass: Pass,
    /// What each caller brings back, in the order of the callers.
    pub called: Vec<Called>,
}
