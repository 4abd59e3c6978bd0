//! Records that are taken one by one.

ghost use Rattle.std.specs.Prelude.{◌≡◌, ◌∷◌, [], reverse, MatchOption};

use crate::Record;
use std::marker::Model;

/// Memory is given back each time that so many records, or a multiple of this number, are left.
const RECORDS_A_PIECE: usize = 65_536;

/// Records that are taken from the first one on, and whose memory is given back as they are taken.
#[derive(Drop)]
pub struct RecordQueue {
    // The last record comes first, since a vector gives memory back at its end alone.
    reversed: Vec<Record>,
}

impl Model for RecordQueue {
    ghost use Rattle.std.specs.Prelude.{List, reverse};
    ghost use Rattle.prefix_lattice.specs.Record.{RecordValue};

    ghost Value = { List RecordValue };

    ghost view = { λ q. reverse q.reversed.items };
}

impl RecordQueue {
    /// The records, from the first one on.
    pub(crate) fn of(records: Vec<Record>) -> RecordQueue
        ensures { result ≡ records.items }
    {
        let mut reversed = records;
        reversed.reverse();
        RecordQueue { reversed }
    }

    /// Takes the first of the records that are left.
    pub fn take_first(&mut self) -> Option<Record>
        ensures { MatchOption result ((self.old ≡ []) × (self.new ≡ [])) (λ rec. self.old ≡ rec ∷ self.new) }
    {
        let first = self.reversed.pop();
        if self.reversed.len() % RECORDS_A_PIECE == 0 {
            self.reversed.shrink_to_fit();
        }
        first
    }
}
