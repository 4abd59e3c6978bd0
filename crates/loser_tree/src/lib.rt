//! A loser tree: a list of words of which the least is known at once, and in which this one is changed by
//! as many comparisons as the tree has levels (Knuth, The Art of Computer Programming, volume 3, 5.4.1).
#![tactic(auto)]

mod loser_tree;
mod nodes;

pub use loser_tree::LoserTree;
