//! The tree, as a list of its nodes.

ghost use Rattle.std.specs.Prelude.{◌≡◌, ◌^◌, ◌<◌, ◌≤◌, All, Contains, IfOk, List, ℕ, length, slice_index, slice_set};
ghost use Rattle.std.specs.List.{range_with_len, sum};
ghost use Rattle.loser_tree.specs.LoserTree.{HasLeaves};

use crate::nodes::{number_leaves, replace_least_leaf};
use std::alloc::{AllocError, Global};
use std::marker::Model;

/// A tree over a list of words, its leaves, of which the least is known at once. It has one word for each leaf: each
/// inner node has the word that lost there, and node 0 has the least. So the leaves are known by their nodes only.
#[derive(Drop)]
pub struct LoserTree {
    nodes: Vec<u64>,
}

impl Model for LoserTree {
    ghost use Rattle.std.specs.Prelude.{ℕ, List};
    ghost use Rattle.loser_tree.specs.Nodes.{IsNodeList};

    ghost Value = { List ℕ };

    ghost view = { λ t. t.nodes.items };

    ghost invariant = { λ t. IsNodeList t.nodes.items };
}

impl LoserTree {
    /// A tree of this many leaves, 1 to 2^32 - 1, each of which is its index, from 0. It allocates one word for each
    /// leaf, and nothing later.
    pub fn with_leaves(alloc: Global, leaves: usize) -> Result<LoserTree, AllocError>
        requires some { 1 ≤ leaves }
        requires few { leaves < 2 ^ 32 }
        ensures { IfOk result (λ tree. HasLeaves tree (range_with_len 0 leaves)) }
    {
        let mut nodes = vec![in alloc; 0u64; leaves]?;
        number_leaves(&mut nodes);
        Ok(LoserTree { nodes })
    }

    /// The least leaf, in constant time.
    pub fn least(&self) -> u64
        ensures present { (leaves : List ℕ) → HasLeaves self.now leaves → Contains leaves result }
        ensures least { (leaves : List ℕ) → HasLeaves self.now leaves → All (λ leaf. result ≤ leaf) leaves }
        ensures sum { (leaves : List ℕ) → HasLeaves self.now leaves → sum self.now ≡ sum leaves }
    {
        self.nodes[0]
    }

    /// Changes the least leaf, which is the one at this index, with one comparison for each level. Where that leaf isn't
    /// the least one, the tree is of no use until it restarts.
    pub fn replace_least(&mut self, place: usize, word: u64)
        requires { place < length self.old }
        ensures shape { length self.new ≡ length self.old }
        ensures leaves { (leaves : List ℕ) → HasLeaves self.old leaves → All (λ leaf. slice_index leaves place ≤ leaf) leaves
            → HasLeaves self.new (slice_set leaves place word) }
        ensures sum { (leaves : List ℕ) → HasLeaves self.new leaves → sum self.new ≡ sum leaves }
    {
        replace_least_leaf(&mut self.nodes, place, word);
    }

    /// Sets each leaf to its index again, with two comparisons for each leaf.
    pub fn restart(&mut self)
        ensures { HasLeaves self.new (range_with_len 0 (length self.old)) }
    {
        number_leaves(&mut self.nodes);
    }
}
