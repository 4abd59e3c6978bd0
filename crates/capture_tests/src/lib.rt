//! Tests of sources and sinks, of captures and their records, and of made traffic.
#![tactic(auto)]

#[cfg(test)]
mod tests;
