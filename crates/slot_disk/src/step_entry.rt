//! The record of a disk's writes and syncs.

ghost use Rattle.std.specs.Prelude.{◌≡◌, ◌+◌, ◌<◌, ◌≤◌, [], ◌∷◌, ◌++◌, length, vec_len, vec_capacity, MatchOption};
ghost use Rattle.std.specs.Prelude.{IfSome};
ghost use Rattle.slot_disk.specs.StepEntry.{newest_last, entry_step};

/// What was done.
#[derive(Clone, Copy, PartialEq, Eq)]
pub(crate) enum StepKind {
    /// A whole write.
    Wrote,
    /// A write that was begun only.
    Began,
    /// A sync that succeeded.
    Synced,
}

/// One write or sync. The bytes of all writes are in one list, each write's from its start on.
#[derive(Clone, Copy, PartialEq, Eq)]
pub(crate) struct StepEntry {
    /// What was done.
    pub kind: StepKind,
    /// The offset of the write.
    pub place: usize,
    /// Where its bytes begin in the list of all writes' bytes.
    pub start: usize,
}

/// Adds a step to a record, for which both lists have room.
pub(crate) fn add_entry(
    entries: &mut Vec<StepEntry>,
    written: &mut Vec<u8>,
    kind: StepKind,
    place: usize,
    piece: &[u8],
)
    requires entry_fits { vec_len entries.old < vec_capacity entries.old }
    requires piece_fits { vec_len written.old + length piece.now ≤ vec_capacity written.old }
    ensures added { newest_last entries.new.items written.new.items ≡ entry_step kind place piece.now
        ∷ newest_last entries.old.items written.old.items }
    ensures one_more { vec_len entries.new ≡ vec_len entries.old + 1 }
    ensures bytes { written.new.items ≡ written.old.items ++ piece.now }
    ensures entry_room { vec_capacity entries.old ≤ vec_capacity entries.new }
    ensures byte_room { vec_capacity written.old ≤ vec_capacity written.new }
{
    let start = written.len();
    written.extend_from_slice(piece).unwrap();
    entries.push(StepEntry { kind, place, start }).unwrap();
}

/// The newest step of a record, and the record before it.
#[derive(Clone, Copy)]
pub(crate) struct NewestStep<'a> {
    /// What was done.
    pub kind: StepKind,
    /// The offset of the write.
    pub place: usize,
    /// The bytes of the write.
    pub piece: &'a [u8],
    /// The entries before it.
    pub entries: &'a [StepEntry],
    /// The bytes of the writes before it.
    pub written: &'a [u8],
}

/// The newest step of a record, unless there is none.
pub(crate) fn take_newest<'a>(entries: &'a [StepEntry], written: &'a [u8]) -> Option<NewestStep<'a>>
    ensures step { MatchOption result (newest_last entries.now written.now ≡ [])
        (λ newest. newest_last entries.now written.now
        ≡ entry_step newest.kind newest.place newest.piece.now ∷ newest_last newest.entries.now newest.written.now) }
    ensures fewer { IfSome result (λ newest. length newest.entries.now < length entries.now) }
{
    if entries.is_empty() {
        return None;
    }
    let last = entries.len() - 1;
    let entry = entries[last];
    let (earlier, _) = entries.split_at(last);
    let (before, piece) = written.split_at(entry.start.min(written.len()));
    Some(NewestStep {
        kind: entry.kind,
        place: entry.place,
        piece,
        entries: earlier,
        written: before,
    })
}
