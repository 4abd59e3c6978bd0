//! An index of keys: where among slots the one with a key is, found in a few steps (hashing with chains: Knuth,
//! The Art of Computer Programming, volume 3, 6.4). A chain has at most four places, and a key that finds its home's
//! chain full goes on to another home (several hash functions for a table of small buckets: Azar, Broder, Karlin and
//! Upfal, Balanced allocations, 1994).
#![tactic(auto)]

mod chains;
mod home_marks;
mod homes;
mod key_index;
mod keyed;
mod sorted_places;

pub use key_index::{KeyIndex, Seen, appended_key_is_missing};
pub use keyed::Keyed;
