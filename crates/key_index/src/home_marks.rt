//! Which homes are marked.

ghost use Rattle.std.specs.Prelude.{◌≡◌, ◌+◌, ◌*◌, ◌/◌, ◌^◌, ◌<◌, ◌≤◌, ◌↔◌, ℕ, IfOk, IsTrue, length, replicate};
ghost use Rattle.key_index.specs.HomeMarks.{IsMarked};

use std::alloc::{AllocError, Global};
use std::marker::Model;

/// A bit for each home, in words of 64.
#[derive(Drop)]
pub(crate) struct HomeMarks {
    words: Vec<u64>,
}

impl Model for HomeMarks {
    ghost use Rattle.std.specs.Prelude.{ℕ, List};

    ghost Value = { List ℕ };

    ghost view = { λ m. m.words.items };
}

impl HomeMarks {
    /// Marks of as many homes, and of up to 63 more, of which none is marked.
    pub(crate) fn for_homes(alloc: Global, homes: usize) -> Result<HomeMarks, AllocError>
        requires { homes < 2 ^ 16 }
        ensures { IfOk result (λ marks. marks ≡ replicate (homes / 64 + 1) 0) }
    {
        let words = vec![in alloc; 0u64; homes / 64 + 1]?;
        Ok(HomeMarks { words })
    }

    /// Whether the home is marked.
    pub(crate) fn has(&self, home: usize) -> bool
        requires { home < 64 * length self.now }
        ensures { IsTrue result ↔ IsMarked self.now home }
    {
        self.words[home / 64] >> (home % 64) & 1 == 1
    }

    /// Marks the home.
    pub(crate) fn set(&mut self, home: usize)
        requires { home < 64 * length self.old }
        ensures length { length self.new ≡ length self.old }
        ensures marked { IsMarked self.new home }
        ensures kept { (other : ℕ) → IsMarked self.old other → IsMarked self.new other }
    {
        self.words[home / 64] |= 1 << (home % 64);
    }

    /// Takes all marks off.
    pub(crate) fn clear(&mut self)
        ensures { self.new ≡ replicate (length self.old) 0 }
    {
        self.words.fill(0);
    }
}
