//! The inner nodes of a loser tree in heap order: node 1 is the root, and the children of node i are 2 i and 2 i + 1.
//! The leaves would come last, and aren't stored. Node 0 has the least leaf.

ghost use Rattle.std.specs.Prelude.{◌≡◌, ◌+◌, ◌*◌, ◌/◌, ◌^◌, ◌<◌, ◌≤◌, All, List, ℕ, length, max, min, slice_index, slice_set};
ghost use Rattle.std.specs.List.{range_with_len};
ghost use Rattle.loser_tree.specs.LoserTree.{HasLeaves};
ghost use Rattle.loser_tree.specs.Nodes.{HasClimbed, HaveLeastNumbers, number_below};

/// Changes the least leaf, which is at this place, to this word.
pub(crate) fn replace_least_leaf(nodes: &mut [u64], place: usize, word: u64)
    requires few { length nodes.old < 2 ^ 32 }
    requires within { place < length nodes.old }
    ensures shape { length nodes.new ≡ length nodes.old }
    ensures leaves { (leaves : List ℕ) → HasLeaves nodes.old leaves → All (λ leaf. slice_index leaves place ≤ leaf) leaves
        → HasLeaves nodes.new (slice_set leaves place word) }
{
    let least = climb(nodes, place, word);
    nodes[0] = least;
}

// Carries a word from the leaf at this place up to the root, and returns the least word of the tree. Each node on the
// way has what lost there to the least leaf, which was at this place, so no other node need be looked at.
fn climb(nodes: &mut [u64], place: usize, word: u64) -> u64
    requires few { length nodes.old < 2 ^ 32 }
    requires within { place < length nodes.old }
    ensures shape { length nodes.new ≡ length nodes.old }
    ensures climbed { (leaves : List ℕ) → HasLeaves nodes.old leaves → slice_index leaves place ≡ slice_index nodes.old 0
        → HasClimbed (slice_set leaves place word) nodes.new (slice_index nodes.old 0) 1 result }
{
    let mut node = nodes.len() + place;
    let mut least = word;
    while node >= 8 {
        least = climb_three_levels(nodes, node, least);
        node /= 8;
    }
    while node > 1 {
        node /= 2;
        least = meet(nodes, node, least);
    }
    least
}

// Carries a word three levels up from a node, and returns the least word there. It is straight code, which asks only once
// in three levels whether the root is reached.
fn climb_three_levels(nodes: &mut [u64], node: usize, word: u64) -> u64
    requires inner { 8 ≤ node }
    requires within { node < 2 * length nodes.old }
    ensures shape { length nodes.new ≡ length nodes.old }
    ensures climbed { (leaves : List ℕ) (past : ℕ) → HasClimbed leaves nodes.old past node word
        → HasClimbed leaves nodes.new past (node / 8) result }
{
    let lesser = meet(nodes, node / 2, word);
    let least_of_three = meet(nodes, node / 4, lesser);
    meet(nodes, node / 8, least_of_three)
}

// Leaves the greater one of a word and a node's in the node, and returns the lesser.
fn meet(nodes: &mut [u64], node: usize, word: u64) -> u64
    requires { node < length nodes.old }
    ensures lesser { result ≡ min word (slice_index nodes.old node) }
    ensures greater { nodes.new ≡ slice_set nodes.old node (max word (slice_index nodes.old node)) }
{
    let other = nodes[node];
    nodes[node] = word.max(other);
    word.min(other)
}

/// Builds the tree whose leaves are their indices.
pub(crate) fn number_leaves(nodes: &mut [u64])
    requires some { 1 ≤ length nodes.old }
    requires few { length nodes.old < 2 ^ 32 }
    ensures { HasLeaves nodes.new (range_with_len 0 (length nodes.old)) }
{
    write_least_numbers(nodes);
    write_losers(nodes);
}

// Writes the least index of a leaf below it to each inner node.
fn write_least_numbers(nodes: &mut [u64])
    requires some { 1 ≤ length nodes.old }
    requires few { length nodes.old < 2 ^ 32 }
    ensures shape { length nodes.new ≡ length nodes.old }
    ensures least { HaveLeastNumbers 1 nodes.new }
{
    let mut node = nodes.len();
    while node > 1 {
        node -= 1;
        nodes[node] = least_below(nodes, 2 * node).min(least_below(nodes, 2 * node + 1));
    }
}

// Writes the greater one of its children's to each inner node, where they have the least below them. A node comes before its
// children, so these still have it.
fn write_losers(nodes: &mut [u64])
    requires some { 1 ≤ length nodes.old }
    requires few { length nodes.old < 2 ^ 32 }
    requires least { HaveLeastNumbers 1 nodes.old }
    ensures { HasLeaves nodes.new (range_with_len 0 (length nodes.old)) }
{
    nodes[0] = least_below(nodes, 1);
    for node in 1..nodes.len() {
        nodes[node] = least_below(nodes, 2 * node).max(least_below(nodes, 2 * node + 1));
    }
}

// What an inner node has, or the index of a leaf.
fn least_below(nodes: &[u64], node: usize) -> u64
    ensures { result ≡ number_below nodes.now node }
{
    if node < nodes.len() {
        nodes[node]
    } else {
        (node - nodes.len()) as u64
    }
}
