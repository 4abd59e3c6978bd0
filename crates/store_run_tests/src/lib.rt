//! Tests of runs with a store: saves, faults, stops and damages.
#![tactic(auto)]

#[cfg(test)]
mod tests;
