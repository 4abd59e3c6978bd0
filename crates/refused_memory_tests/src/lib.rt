//! A test of a store, to be run with requests for memory refused.
#![tactic(auto)]

#[cfg(test)]
mod tests;
