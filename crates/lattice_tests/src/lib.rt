//! Tests of prefixes, of dealing records, and of bounds.
#![tactic(auto)]

#[cfg(test)]
mod tests;
