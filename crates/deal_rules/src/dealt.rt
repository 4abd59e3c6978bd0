//! The records of all shards.

ghost use Rattle.std.specs.Prelude.{◌≡◌, ◌<◌, ◌≤◌, length, slice_get, Some, IfOk};
ghost use Rattle.deal_rules.specs.Dealing.{AreDealings};
ghost use Rattle.prefix_lattice.specs.{record_limit};

use prefix_lattice::RecordList;
use std::alloc::{AllocError, Global};
use std::marker::Model;

/// The records of 1 to 16 shards, a list each, with at most 16,777,216 records in all.
#[derive(Drop)]
pub struct Dealt {
    lists: Vec<RecordList>,
}

impl Model for Dealt {
    ghost use Rattle.std.specs.Prelude.{List};
    ghost use Rattle.prefix_lattice.specs.{RecordValue};
    ghost use Rattle.deal_rules.specs.Dealing.{AreDealings};

    ghost Value = { List (List RecordValue) };

    ghost view = { λ d. d.lists.items };

    ghost invariant = { λ d. AreDealings d.lists.items };
}

impl Dealt {
    /// Takes the lists of all shards, from shard 0 on.
    pub(crate) fn of(lists: Vec<RecordList>) -> Dealt
        requires { AreDealings lists.items }
        ensures { result ≡ lists.items }
    {
        Dealt { lists }
    }

    /// How many shards there are.
    pub fn shards(&self) -> u32
        ensures value { result ≡ length self.now }
        ensures bounded { AreDealings self.now }
    {
        self.lists.len() as u32
    }

    /// The records of a shard, in their order. The shard's index is below the number of shards.
    pub fn list(&self, shard: u32) -> &RecordList
        requires { shard < length self.now }
        ensures value { slice_get self.now shard ≡ Some result.now }
        ensures few { length result.now ≤ record_limit }
    {
        &self.lists[shard as usize]
    }

    /// The lists of all shards, from shard 0 on.
    pub fn into_lists(self) -> Vec<RecordList>
        ensures value { result.items ≡ self }
        ensures bounded { AreDealings result.items }
    {
        self.lists
    }

    /// An equal copy. The only error is that memory runs out.
    pub fn copy(&self, alloc: Global) -> Result<Dealt, AllocError>
        ensures { IfOk result (λ dealt. dealt ≡ self.now) }
    {
        let mut lists = Vec::with_capacity(alloc, self.lists.len())?;
        for list in &self.lists {
            lists.push(list.copy(alloc)?)?;
        }
        Ok(Dealt { lists })
    }
}
