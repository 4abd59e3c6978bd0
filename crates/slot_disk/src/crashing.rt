//! The bytes that a crash leaves of a record of writes and syncs.

ghost use Rattle.std.specs.Prelude.{◌≡◌, length, IfOk, OnOk};
ghost use Rattle.slot_disk.specs.Recorded.{no_bytes, reading_of, bytes_kept, crash_part};
ghost use Rattle.slot_disk.specs.Recorded.{crash_image};
ghost use Rattle.slot_disk.specs.StepEntry.{newest_last};

use crate::overwriting::put_over;
use crate::step_entry::{StepEntry, StepKind, take_newest};
use std::alloc::{AllocError, Global};

/// The image that a crash of this choice leaves of the first bytes and a record.
pub(crate) fn crashed(
    alloc: Global,
    choice: u8,
    first: &[u8],
    entries: &[StepEntry],
    written: &[u8],
) -> Result<Vec<u8>, AllocError>
    ensures { IfOk result (λ image. image.items ≡ crash_image choice first.now (newest_last entries.now written.now)) }
{
    let Some(newest) = take_newest(entries, written) else {
        return first.to_vec(alloc);
    };
    match newest.kind {
        StepKind::Synced => reading(alloc, first, newest.entries, newest.written),
        StepKind::Wrote | StepKind::Began => {
            let mut image = crashed(alloc, choice, first, newest.entries, newest.written)?;
            crash_range(alloc, choice, newest.place, newest.piece, &mut image)?;
            Ok(image)
        }
    }
}

/// What a read gives after a record of the first bytes.
fn reading(
    alloc: Global,
    first: &[u8],
    entries: &[StepEntry],
    written: &[u8],
) -> Result<Vec<u8>, AllocError>
    ensures { IfOk result (λ bytes. bytes.items ≡ reading_of first.now (newest_last entries.now written.now)) }
{
    let Some(newest) = take_newest(entries, written) else {
        return first.to_vec(alloc);
    };
    let mut bytes = reading(alloc, first, newest.entries, newest.written)?;
    match newest.kind {
        StepKind::Synced | StepKind::Began => Ok(bytes),
        StepKind::Wrote => {
            // A crash that keeps all leaves what the write leaves.
            crash_range(alloc, 1, newest.place, newest.piece, &mut bytes)?;
            Ok(bytes)
        }
    }
}

// Leaves in the image what a crash of this choice keeps of a write's range.
fn crash_range(
    alloc: Global,
    choice: u8,
    place: usize,
    piece: &[u8],
    image: &mut Vec<u8>,
) -> Result<(), AllocError>
    ensures { OnOk result (image.new.items ≡ crash_part choice place piece.now image.old.items) }
{
    let start = place.min(image.len());
    let mut range = zeros(alloc, place - start)?;
    range.extend_from_slice(piece)?;
    keep(choice, &mut range);
    put_over(image, start, &range)
}

// `count` zero bytes.
fn zeros(alloc: Global, count: usize) -> Result<Vec<u8>, AllocError>
    ensures { IfOk result (λ bytes. bytes.items ≡ no_bytes count) }
{
    vec![in alloc; 0u8; count]
}

// What a crash of this choice keeps of a range.
fn keep(choice: u8, range: &mut Vec<u8>)
    ensures { range.new.items ≡ bytes_kept choice range.old.items }
{
    match choice {
        0 => range.clear(),
        1 => {}
        2 => range.fill(0xFF),
        _ => range.truncate(range.len() / 2),
    }
}
