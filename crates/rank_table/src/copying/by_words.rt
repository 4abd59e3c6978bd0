//! Entries in the order of a table, by sorting a word for each slot.

ghost use Rattle.std.specs.Prelude.{◌≡◌, ◌%◌, ◌^◌, ◌<◌, ◌≤◌, ◌↔◌, All, IsTrue, length, map};
ghost use Rattle.std.specs.List.Sorted.{IsNonDecreasingBy, IsPermutation};
ghost use Rattle.rank_table.specs.SlotOrder.{AreOrdered, ordered_entries};
ghost use Rattle.rank_table.specs.Words.{IsExactWord, words_from, slot_of_word};

use crate::slot::Slot;
use crate::words::{PLACES, is_exact, word_of};
use space_saving::Entry;

/// Writes the entries of slots in their order over as many entries, by sorting a word for each, for which these numbers are
/// room. `false` says that a count is too great for a word, and that nothing is in order.
pub(crate) fn write_by_words(slots: &[Slot], words: &mut [u64], into: &mut [Entry]) -> bool
    requires slots { AreOrdered (2 ^ 18) slots.now }
    requires few { length slots.now ≤ 4096 }
    requires as_many { length into.old ≡ length slots.now }
    requires room { length words.old ≡ length slots.now }
    ensures exact { IsTrue result ↔ All (IsExactWord 0) slots.now }
    ensures written { IsTrue result → into.new ≡ ordered_entries slots.now }
    ensures length { length into.new ≡ length into.old }
{
    if !write_words(slots, words) {
        return false;
    }
    sort_words(words);
    write_slots_of(slots, words, into);
    true
}

// Writes a word for each slot, and says whether each count fits into its word.
fn write_words(slots: &[Slot], words: &mut [u64]) -> bool
    requires slots { AreOrdered (2 ^ 18) slots.now }
    requires few { length slots.now ≤ 4096 }
    requires room { length words.old ≡ length slots.now }
    ensures exact { IsTrue result ↔ All (IsExactWord 0) slots.now }
    ensures words { IsTrue result → words.new ≡ words_from 0 slots.now }
    ensures length { length words.new ≡ length words.old }
{
    for place in 0..slots.len() {
        if !is_exact(0, &slots[place]) {
            return false;
        }
        words[place] = word_of(0, &slots[place], place);
    }
    true
}

// Sorts words.
fn sort_words(words: &mut [u64])
    ensures permuted { IsPermutation words.old words.new }
    ensures rising { IsNonDecreasingBy (λ word. word) words.new }
{
    words.sort_unstable_by_key(|word| *word);
}

// Writes the entry of the slot that each word names.
fn write_slots_of(slots: &[Slot], words: &[u64], into: &mut [Entry])
    requires as_many { length into.old ≡ length words.now }
    requires named { All (λ word. word % 4096 < length slots.now) words.now }
    ensures { into.new ≡ map (λ word. (slot_of_word slots.now word).entry) words.now }
{
    for place in 0..words.len() {
        into[place] = slots[(words[place] % PLACES) as usize].entry;
    }
}
