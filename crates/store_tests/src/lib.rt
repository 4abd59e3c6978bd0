//! Tests of stores: of their disk and slots, of what they hold, of how they are opened, and of the report of several.
#![tactic(auto)]

#[cfg(test)]
mod tests;
