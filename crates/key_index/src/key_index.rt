//! The index: where the places of keys are entered, in the chain of one of eight homes or in a sorted list.

ghost use Rattle.std.specs.Prelude.{◌≡◌, ◌≢◌, ◌+◌, ◌*◌, ◌/◌, ◌<◌, ◌≤◌, ◌++◌, ◌∷◌, [], ℕ, List, All, IfOk, IfErr, IfSome, IfNone};
ghost use Rattle.std.specs.Prelude.{IsTrue, Some, length, map, replicate, slice_get, slice_index, slice_set};
ghost use Rattle.key_index.specs.Chains.{AreChains};
ghost use Rattle.key_index.specs.HomeMarks.{IsMarked};
ghost use Rattle.key_index.specs.Homes.{home_at, mixed};
ghost use Rattle.key_index.specs.Entries.{KeyEntries, AreEntered, HaveTurnedAway, IsNotBefore, LeadBelow};
ghost use Rattle.key_index.specs.KeyIndex.{HoldsKeys, HoldsKeysButOne};

use crate::chains::KeyChains;
use crate::home_marks::HomeMarks;
use crate::homes::{HOMES_A_KEY, TURNS, home_of, mix, mix_on};
use crate::keyed::{Keyed, key_at};
use crate::sorted_places;
use std::alloc::{AllocError, Global};
use std::marker::Model;

/// Where a search that didn't find its key stopped. The key is entered from there: each home that the search passed has
/// turned a key away, and isn't asked again. Contracts see it as how many homes those are, or more than all eight.
#[derive(Clone, Copy)]
pub struct Seen {
    // The homes that were passed and, if these are all eight, the places of the list that stood before the key. Of the
    // places nothing is promised, since one may leave the list before the key is entered.
    passed: usize,
}

impl Model for Seen {
    ghost use Rattle.std.specs.Prelude.{ℕ};

    ghost Value = { ℕ };

    ghost view = { λ seen. seen.passed };

    ghost inverse = { λ passed. record { passed = passed } };
}

impl Seen {
    /// What is seen without a search: nothing.
    pub fn nothing() -> Seen
        ensures { result ≡ 0 }
    {
        Seen { passed: 0 }
    }
}

/// The first home of a key that has room for it, and at which turn that is.
#[derive(Clone, Copy)]
struct Free {
    turn: usize,
    home: usize,
}

/// Where the place of a key among slots is found in a few steps. It has no keys: each call takes the slots, which have
/// them.
#[derive(Drop)]
pub struct KeyIndex {
    room: usize,
    chains: KeyChains,
    // The homes from which a key was turned away.
    turned: HomeMarks,
    // The places that no home took.
    listed: Vec<u16>,
    // How many more keys may be turned away before all are entered again.
    patience: usize,
}

impl Model for KeyIndex {
    ghost use Rattle.std.specs.Prelude.{vec_capacity};
    ghost use Rattle.key_index.specs.Entries.{KeyEntries, AreEntries};

    ghost Value = { KeyEntries };

    ghost view = { λ i. record { room = i.room; links = i.chains.links; backs = i.chains.backs; turned = i.turned; listed = i.listed.items } };

    ghost invariant = { λ i. AreEntries i.room (vec_capacity i.listed) i.chains i.turned };
}

impl KeyIndex {
    /// An index of no keys, with memory for the places of `room` keys, 1 to 8,192. It allocates 14.5 bytes for each and
    /// 10 more, and nothing later.
    pub fn with_room(alloc: Global, room: usize) -> Result<KeyIndex, AllocError>
        requires some { 1 ≤ room }
        requires few { room ≤ 8192 }
        ensures room { IfOk result (λ index. index.room ≡ room) }
        ensures holds { IfOk result (λ index. HoldsKeys [] index) }
    {
        Ok(KeyIndex {
            room,
            chains: KeyChains::with_room(alloc, room)?,
            turned: HomeMarks::for_homes(alloc, HOMES_A_KEY * room)?,
            listed: Vec::with_capacity(alloc, room)?,
            patience: room,
        })
    }

    /// A place of the key among these slots, or how far the search came that didn't find it. Whatever the keys are, it
    /// passes at most four in each of eight homes, and then halves a sorted list of the places that no home took. Nearly
    /// always it ends in the first home.
    pub fn find<T: Keyed>(&self, slots: &[T], key: u64) -> Result<usize, Seen>
        requires holds { HoldsKeys (map T.key_of slots.now) self.now }
        ensures found { IfOk result (λ place. slice_get (map T.key_of slots.now) place ≡ Some key) }
        ensures missing { IfErr result (λ _. All (λ other. other ≢ key) (map T.key_of slots.now)) }
        ensures seen { IfErr result (λ seen. HaveTurnedAway seen key self.now) }
    {
        if slots.is_empty() {
            return Err(Seen::nothing());
        }
        let number = mix(key);
        let home = home_of(number, self.room);
        if let Some(place) = self.chains.place_of(slots, key, home) {
            return Ok(place);
        }
        if !self.turned.has(home) {
            return Err(Seen::nothing());
        }
        self.find_further(slots, key, number)
    }

    /// Enters the place of the one slot whose key isn't held, from where a search for the key stopped: what the search
    /// returned, or `Seen::nothing`. It allocates no memory. Once many keys were turned away, all are taken out and entered
    /// again: only this lets searches end again at the homes that turned a key away.
    pub fn enter<T: Keyed>(&mut self, slots: &[T], place: usize, seen: Seen)
        requires within { place < length slots.now }
        requires others { HoldsKeysButOne place (map T.key_of slots.now) self.old }
        requires seen { HaveTurnedAway seen (slice_index (map T.key_of slots.now) place) self.old }
        ensures room { self.new.room ≡ self.old.room }
        ensures holds { HoldsKeys (map T.key_of slots.now) self.new }
    {
        if self.is_crowded() {
            enter_all(self, slots);
        } else {
            self.enter_one(slots, place, seen);
        }
    }

    /// Takes out the place of a slot, whose key may then be any other. A key that was searched before can still be entered
    /// from where the search stopped.
    pub fn leave<T: Keyed>(&mut self, slots: &[T], place: usize)
        requires within { place < length slots.now }
        requires holds { HoldsKeys (map T.key_of slots.now) self.old }
        ensures room { self.new.room ≡ self.old.room }
        ensures others { (key : ℕ) → HoldsKeysButOne place (slice_set (map T.key_of slots.now) place key) self.new }
        ensures seen { (seen key : ℕ) → HaveTurnedAway seen key self.old → HaveTurnedAway seen key self.new }
    {
        if self.chains.has(place) {
            self.chains.unlink(place);
        } else {
            sorted_places::remove(&mut self.listed, slots, place);
        }
    }

    // A place of the key, looked for in its homes from the second on, by the number that named the first one. It stays a function
    // of its own in the binary, since few searches come to it.
    #[inline(never)]
    fn find_further<T: Keyed>(&self, slots: &[T], key: u64, number: u64) -> Result<usize, Seen>
        requires some { 0 < length slots.now }
        requires holds { HoldsKeys (map T.key_of slots.now) self.now }
        requires number { number ≡ mixed key }
        requires further { IsNotBefore 1 key (map T.key_of slots.now) self.now }
        requires seen { HaveTurnedAway 1 key self.now }
        ensures found { IfOk result (λ place. slice_get (map T.key_of slots.now) place ≡ Some key) }
        ensures missing { IfErr result (λ _. All (λ other. other ≢ key) (map T.key_of slots.now)) }
        ensures seen { IfErr result (λ seen. HaveTurnedAway seen key self.now) }
    {
        let mut number = number;
        for turn in 1..TURNS {
            number = mix(number);
            let home = home_of(number, self.room);
            if let Some(place) = self.chains.place_of(slots, key, home) {
                return Ok(place);
            }
            if !self.turned.has(home) {
                return Err(Seen { passed: turn });
            }
        }
        match sorted_places::find(&self.listed, slots, key) {
            Ok(place) => Ok(place),
            Err(at) => Err(Seen {
                passed: TURNS.saturating_add(at),
            }),
        }
    }

    // Whether as many keys were turned away from homes since all were entered as there is room for.
    fn is_crowded(&self) -> bool {
        self.patience == 0
    }

    // Enters one place. Nearly always its first home has at most one place: then nothing is called, so the binary needs to
    // save nothing.
    fn enter_one<T: Keyed>(&mut self, slots: &[T], place: usize, seen: Seen)
        requires few { length slots.now ≤ self.old.room }
        requires within { place < length slots.now }
        requires leads { LeadBelow (length slots.now) self.old.links self.old.listed }
        requires memory { length self.old.listed < self.old.room }
        requires seen { HaveTurnedAway seen (slice_index (map T.key_of slots.now) place) self.old }
        ensures room { self.new.room ≡ self.old.room }
        ensures leads { LeadBelow (length slots.now) self.new.links self.new.listed }
        ensures listed { length self.new.listed ≤ length self.old.listed + 1 }
        ensures entered { (end : ℕ) → place < end → AreEntered end place (map T.key_of slots.now) self.old
            → AreEntered end end (map T.key_of slots.now) self.new }
    {
        let home = home_of(mix(key_at(slots, place)), self.room);
        if self.chains.is_short(home) {
            self.chains.link(place, home);
        } else {
            self.enter_in_turn(slots, place, seen);
        }
    }

    // Enters one place, in the first of its key's homes that has room and wasn't passed, else in the list. It stays a function
    // of its own in the binary, since few places come to it.
    #[inline(never)]
    fn enter_in_turn<T: Keyed>(&mut self, slots: &[T], place: usize, seen: Seen)
        requires few { length slots.now ≤ self.old.room }
        requires within { place < length slots.now }
        requires leads { LeadBelow (length slots.now) self.old.links self.old.listed }
        requires memory { length self.old.listed < self.old.room }
        requires seen { HaveTurnedAway seen (slice_index (map T.key_of slots.now) place) self.old }
        ensures room { self.new.room ≡ self.old.room }
        ensures leads { LeadBelow (length slots.now) self.new.links self.new.listed }
        ensures listed { length self.new.listed ≤ length self.old.listed + 1 }
        ensures entered { (end : ℕ) → place < end → AreEntered end place (map T.key_of slots.now) self.old
            → AreEntered end end (map T.key_of slots.now) self.new }
    {
        match free_home(
            &self.chains,
            &mut self.turned,
            key_at(slots, place),
            self.room,
            seen.passed,
        ) {
            Some(free) => {
                self.chains.link(place, free.home);
                self.patience = self.patience.saturating_sub(usize::from(free.turn > 0));
            }
            None => {
                let near = seen.passed.saturating_sub(TURNS);
                sorted_places::insert(&mut self.listed, slots, place, near);
                self.patience = self.patience.saturating_sub(1);
            }
        }
    }

    // Takes out all places.
    fn clear(&mut self)
        ensures { self.new ≡ record {
          room = self.old.room;
          links = replicate (5 * self.old.room) 0;
          backs = replicate (self.old.room + 1) 0;
          turned = replicate (length self.old.turned) 0;
          listed = [];
        } }
    {
        self.chains.clear();
        self.turned.clear();
        self.listed.clear();
    }

    // Begins to count anew the keys that are turned away.
    fn calm(&mut self)
        ensures { self.new ≡ self.old }
    {
        self.patience = self.room;
    }
}

/// Where all keys are held and one is appended, all but the last are held.
pub fn appended_key_is_missing()
    ensures { (keys : List ℕ) (key : ℕ) (index : KeyEntries) → length keys < index.room → HoldsKeys keys index
        → HoldsKeysButOne (length keys) (keys ++ key ∷ []) index }
{}

// Takes all places out and enters them again. What this turns away isn't counted: else keys that were chosen to meet
// would have all places entered again every few calls. It stays a function of its own in the binary, since it is seldom called.
#[inline(never)]
fn enter_all<T: Keyed>(index: &mut KeyIndex, slots: &[T])
    requires few { length slots.now ≤ index.old.room }
    ensures room { index.new.room ≡ index.old.room }
    ensures holds { HoldsKeys (map T.key_of slots.now) index.new }
{
    index.clear();
    for next in 0..slots.len() {
        index.enter_one(slots, next, Seen::nothing());
    }
    index.calm();
}

// The first home of the key that has room for it, of those that a search didn't pass. Each one before it is marked: this
// key is turned away from there. A home that was passed is marked already; it may have room again, and isn't asked.
fn free_home(
    chains: &KeyChains,
    turned: &mut HomeMarks,
    key: u64,
    room: usize,
    passed: usize,
) -> Option<Free>
    requires some { 1 ≤ room }
    requires few { room ≤ 8192 }
    requires room { chains.now.room ≡ room }
    requires homes { 4 * room ≤ 64 * length turned.old }
    requires passed { (earlier : ℕ) → earlier < passed → earlier < 8 → IsMarked turned.old (home_at room earlier key) }
    ensures homes { length turned.new ≡ length turned.old }
    ensures turns { IfSome result (λ free. free.turn < 8) }
    ensures within { IfSome result (λ free. free.home < 4 * room) }
    ensures home { IfSome result (λ free. free.home ≡ home_at room free.turn key) }
    ensures roomy { IfSome result (λ free. (rank home : ℕ → ℕ) → AreChains chains.now.room chains.now.links chains.now.backs rank home
        → rank (room + free.home) < 4) }
    ensures passed { IfSome result (λ free. (earlier : ℕ) → earlier < free.turn
        → IsMarked turned.new (home_at room earlier key)) }
    ensures passed_all { IfNone result ((earlier : ℕ) → earlier < 8
        → IsMarked turned.new (home_at room earlier key)) }
    ensures kept { (home : ℕ) → IsMarked turned.old home → IsMarked turned.new home }
{
    if passed >= TURNS {
        return None;
    }
    let mut number = mix_on(key, passed);
    for turn in passed..TURNS {
        number = mix(number);
        let home = home_of(number, room);
        if !chains.is_full(home) {
            return Some(Free { turn, home });
        }
        turned.set(home);
    }
    None
}
