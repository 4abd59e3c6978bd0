//! Tests of the tables and of what they are made of.
#![tactic(auto)]

#[cfg(test)]
mod tests;
