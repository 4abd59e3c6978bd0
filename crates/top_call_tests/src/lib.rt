//! Tests of the top call, and of what only all crates together show.
#![tactic(auto)]

#[cfg(test)]
mod tests;
