//! Loser trees, compared with plain lists.

use super::next;
use loser_tree::LoserTree;
use std::alloc::Global;
use std::test::Fail;

/// Whether the least leaf of a tree is that of a plain list, after each of 300 changes of the least leaf to a random word,
/// and after a restart.
fn follow_a_list(alloc: Global, leaves: usize) -> Result<bool, Fail> {
    if leaves == 0 || leaves >= 100 {
        return Err("too few or too many leaves".into());
    }
    let mut tree = LoserTree::with_leaves(alloc, leaves)?;
    let mut list: Vec<u64> = (0..leaves as u64).collect(alloc)?;
    let mut random: u64 = 7;
    for turn in 0..300u64 {
        random = next(random);
        let least = tree.least();
        let Some(place) = list.iter().position(|word| *word == least) else {
            return Ok(false);
        };
        if place >= leaves {
            return Ok(false);
        }
        // The words rise with the turns, so that each leaf comes to be the least. Some are less than all others.
        let word = turn + (random >> 20) % 50;
        tree.replace_least(place, word);
        if place >= list.len() {
            return Ok(false);
        }
        list[place] = word;
        if Some(tree.least()) != list.iter().copied().min() {
            return Ok(false);
        }
    }
    tree.restart();
    let first = tree.least();
    tree.replace_least(0, 9);
    Ok(first == 0 && tree.least() == if leaves == 1 { 9 } else { 1 })
}

#[test]
fn least_is_that_of_the_list(rt: HostRuntime) -> Result<(), Fail> {
    for leaves in 1..20 {
        assert!(rt; follow_a_list(rt.alloc(), leaves)?, "{leaves} leaves");
    }
    Ok(())
}
