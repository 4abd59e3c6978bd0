//! A filter of keys, so that nearly each new key is known to be new without a search.

ghost use Rattle.std.specs.Prelude.{◌≡◌, ◌≤◌, ◌<◌, ◌^◌, length, replicate, false, IfOk};
ghost use Rattle.cut_merge.specs.SeenHomes.{SeesKey, is_seen, seen_home};

use std::alloc::{AllocError, Global};
use std::marker::Model;

/// Spreads keys over the homes. Any odd number is right; that of the golden ratio separates successive keys.
const MULTIPLIER: u64 = 0x9e37_79b9_7f4a_7c15;

/// Homes of keys, and in which of them a key was seen. Keys that share a home are seen together: that may cost a search,
/// but changes no answer.
#[derive(Drop)]
pub(crate) struct SeenHomes {
    homes: Vec<bool>,
}

impl Model for SeenHomes {
    ghost use Rattle.std.specs.Prelude.{◌≤◌, ◌^◌, Bool, List, length};

    ghost Value = { List Bool };

    ghost view = { λ s. s.homes.items };

    ghost invariant = { λ s. (1 ≤ length s.homes.items) × (length s.homes.items ≤ 2 ^ 32) };
}

impl SeenHomes {
    /// This many homes, 1 to 2^32, in which no key was seen. The only error is that memory runs out.
    pub(crate) fn with_homes(alloc: Global, count: usize) -> Result<SeenHomes, AllocError>
        requires some { 1 ≤ count }
        requires few { count ≤ 2 ^ 32 }
        ensures { IfOk result (λ seen. seen ≡ replicate count false) }
    {
        let homes = vec![in alloc; false; count]?;
        Ok(SeenHomes { homes })
    }

    /// Whether a key with the home of this one was seen.
    pub(crate) fn has(&self, key: u64) -> bool
        ensures { result ≡ is_seen self.now key }
    {
        self.homes[home_of(key, self.homes.len())]
    }

    /// Sees a key.
    pub(crate) fn note(&mut self, key: u64)
        ensures { SeesKey self.old self.new key }
    {
        let home = home_of(key, self.homes.len());
        self.homes[home] = true;
    }

    /// Forgets all keys.
    pub(crate) fn clear(&mut self)
        ensures { self.new ≡ replicate (length self.old) false }
    {
        self.homes.fill(false);
    }
}

// The home of a key: the high half of its product with the multiplier, scaled to the number of homes.
fn home_of(key: u64, count: usize) -> usize
    requires some { 1 ≤ count }
    requires few { count ≤ 2 ^ 32 }
    ensures value { result ≡ seen_home count key }
    ensures within { result < count }
{
    ((key.wrapping_mul(MULTIPLIER) >> 32) * count as u64 >> 32) as usize
}
