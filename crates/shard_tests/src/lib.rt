//! Tests of shards: what they count, their cuts, merges and reports, and threads that take them in turn.
#![tactic(auto)]

#[cfg(test)]
mod tests;
