//! The board on which threads fold and read shards, and the passes with which they do.
#![tactic(auto)]

mod board;

pub use board::{Board, Pass, TryFold, TryRead};

#[cfg(test)]
mod tests;
