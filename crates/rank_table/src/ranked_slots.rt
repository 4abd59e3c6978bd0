//! Slots, and a tree that shows which one comes first.

ghost use Rattle.std.specs.Prelude.{◌≡◌, ◌+◌, ◌^◌, ◌<◌, ◌≤◌, ◌++◌, ◌∷◌, [], ℕ, IfOk, IsTrue, false, ◌↔◌, length};
ghost use Rattle.std.specs.Prelude.{map, slice_index_or, slice_set};
ghost use Rattle.rank_table.specs.declared.slot.Slot.{Slot};
ghost use Rattle.rank_table.specs.Ranks.{HasLeast, HasRankLeaves};
ghost use Rattle.rank_table.specs.SlotOrder.{AreOrdered, ordered_entries};
ghost use Rattle.rank_table.specs.Times.{renumbered_slots};
ghost use Rattle.rank_table.specs.Words.{rank_word};

use crate::renumbering::renumber_slots;
use crate::scanning::least_of;
use crate::slot::Slot;
use crate::words::{PLACES, TIMES, is_exact, word_of};
use loser_tree::LoserTree;
use std::alloc::{AllocError, Global};
use std::marker::Model;

/// Slots at fixed places. The leaves of the tree are lower bounds of the slots' words, so the tree need not change
/// when the rank of a slot rises.
#[derive(Drop)]
pub(crate) struct RankedSlots {
    capacity: usize,
    slots: Vec<Slot>,
    tree: LoserTree,
    base: u64,
}

impl Model for RankedSlots {
    ghost use Rattle.std.specs.Prelude.{vec_capacity};
    ghost use Rattle.rank_table.specs.Slot.{Slots};
    ghost use Rattle.rank_table.specs.Ranks.{AreRanked};

    ghost Value = { Slots };

    ghost view = { λ r. record { capacity = r.capacity; slots = r.slots.items } };

    ghost invariant = { λ r. AreRanked r.capacity (vec_capacity r.slots) r.base r.tree r.slots.items };
}

impl RankedSlots {
    /// No slots, and memory for as many as the capacity, 1 to 4096.
    pub(crate) fn with_capacity(alloc: Global, capacity: usize) -> Result<RankedSlots, AllocError>
        requires least { 1 ≤ capacity }
        requires most { capacity ≤ 4096 }
        ensures { IfOk result (λ ranked. ranked ≡ record { capacity = capacity; slots = [] }) }
    {
        Ok(RankedSlots {
            capacity,
            slots: Vec::with_capacity(alloc, capacity)?,
            tree: LoserTree::with_leaves(alloc, capacity)?,
            base: 0,
        })
    }

    /// The slots in the order of their places.
    pub(crate) fn slots(&self) -> &[Slot]
        ensures slots { result.now ≡ self.now.slots }
        ensures within_capacity { length result.now ≤ self.now.capacity }
    {
        self.slots.as_slice()
    }

    /// Whether there can be one more slot.
    pub(crate) fn has_room(&self) -> bool
        ensures room { IsTrue result ↔ (length self.now.slots < self.now.capacity) }
        ensures full { result ≡ false → length self.now.slots ≡ self.now.capacity }
    {
        self.slots.len() < self.capacity
    }

    /// Appends a slot. It allocates no memory.
    pub(crate) fn push(&mut self, slot: Slot)
        requires room { length self.old.slots < self.old.capacity }
        requires early { slot.time < 2 ^ 18 }
        ensures { self.new ≡ record self.old { slots = self.old.slots ++ slot ∷ [] } }
    {
        self.slots.push(slot).unwrap();
    }

    /// Changes the slot at a place to one of no smaller count and time.
    pub(crate) fn raise(&mut self, place: usize, slot: Slot)
        requires within { place < length self.old.slots }
        requires count { (d : Slot) → (slice_index_or self.old.slots place d).entry.count ≤ slot.entry.count }
        requires time { (d : Slot) → (slice_index_or self.old.slots place d).time ≤ slot.time }
        requires early { slot.time < 2 ^ 18 }
        ensures { self.new ≡ record self.old { slots = slice_set self.old.slots place slot } }
    {
        self.slots[place] = slot;
    }

    /// Changes the slot that comes first to one of no smaller count and time. Its leaf is mended too, if it is the least
    /// one. `least` would do it later; done at once, it overlaps with the look-ups of the next keys, and nothing waits for it.
    pub(crate) fn replace_first(&mut self, place: usize, slot: Slot)
        requires within { place < length self.old.slots }
        requires count { (d : Slot) → (slice_index_or self.old.slots place d).entry.count ≤ slot.entry.count }
        requires time { (d : Slot) → (slice_index_or self.old.slots place d).time ≤ slot.time }
        requires early { slot.time < 2 ^ 18 }
        ensures { self.new ≡ record self.old { slots = slice_set self.old.slots place slot } }
    {
        self.raise(place, slot);
        self.mend(place, &slot);
    }

    // Sets the leaf of a place to the word of its slot, which is this one, if it is the least leaf.
    fn mend(&mut self, place: usize, slot: &Slot)
        requires within { place < length self.old.slots }
        requires slot { (d : Slot) → slice_index_or self.old.slots place d ≡ slot.now }
        ensures { self.new ≡ self.old }
    {
        if self.tree.least() % PLACES == place as u64 {
            let word = word_of(self.base, slot, place);
            self.tree.replace_least(place, word);
        }
    }

    /// The place of the slot that comes before all others, among as many slots as the capacity. It looks at all slots
    /// if the excess of this one doesn't fit into its word.
    pub(crate) fn least(&mut self) -> usize
        requires { length self.old.slots ≡ self.old.capacity }
        ensures same { self.new ≡ self.old }
        ensures least { HasLeast self.old.slots result }
    {
        let place = winner(&mut self.tree, &self.slots, self.base);
        if is_exact(self.base, &self.slots[place]) {
            return place;
        }
        // No slot's excess fits. The least count as the base leaves room for 2^34 more.
        let place = least_of(&self.slots);
        self.base = self.slots[place].entry.count;
        self.tree.restart();
        place
    }

    /// The time of the next add, by a clock that is later than all slots: the clock's, as long as that fits into a
    /// word. Once it doesn't, the slots get the times from 0 on, in the order of the old ones, and the add the next.
    pub(crate) fn time_of_add(&mut self, clock: u64) -> u64
        requires slots { AreOrdered clock self.old.slots }
        requires early { clock ≤ 2 ^ 18 }
        ensures capacity { self.new.capacity ≡ self.old.capacity }
        ensures keys { map (λ slot. slot.entry.key) self.new.slots ≡ map (λ slot. slot.entry.key) self.old.slots }
        ensures entries { ordered_entries self.new.slots ≡ ordered_entries self.old.slots }
        ensures slots { AreOrdered result self.new.slots }
        ensures early { result < 2 ^ 18 }
    {
        if clock < TIMES {
            return clock;
        }
        self.renumber();
        self.slots.len() as u64
    }

    // Gives the slots the times from 0 on, in the order of the old ones.
    fn renumber(&mut self)
        requires { AreOrdered (2 ^ 18) self.old.slots }
        ensures slots { self.new ≡ record self.old { slots = renumbered_slots self.old.slots } }
        ensures fits { length self.new.slots ≤ 4096 }
    {
        renumber_slots(&mut self.tree, &mut self.slots, self.capacity);
    }
}

// The place whose slot has the least word. A leaf that comes first and is less than its slot's word gets that word.
fn winner(tree: &mut LoserTree, slots: &[Slot], base: u64) -> usize
    requires some { 0 < length slots.now }
    requires leaves { HasRankLeaves (length slots.now) base tree.old slots.now }
    ensures leaves { HasRankLeaves (length slots.now) base tree.new slots.now }
    ensures within { result < length slots.now }
    ensures least { (place : ℕ) (d : Slot) → place < length slots.now
        → rank_word base (slice_index_or slots.now result d) result ≤ rank_word base (slice_index_or slots.now place d) place }
{
    'mending: loop {
        let leaf = tree.least();
        let place = (leaf % PLACES) as usize;
        let word = word_of(base, &slots[place], place);
        if word == leaf {
            return place;
        }
        tree.replace_least(place, word);
    }
}
