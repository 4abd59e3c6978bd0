//! Making a store.

ghost use Rattle.std.specs.Prelude.{◌≡◌, ℕ, ◌∷◌, List, Some, length, is_some, OnOk};
ghost use Rattle.outside_io.specs.{FailsByCount};
ghost use Rattle.slot_disk.specs.Images.{IfBothKnown, IsTornImage, IsWrittenImage, IsTornFrom};
ghost use Rattle.slot_disk.specs.Moments.{CrashLeaves};
ghost use Rattle.slot_disk.specs.StoreLayout.{front_bytes, header_bytes};
ghost use Rattle.slot_disk.specs.Slots.{MatchesKnown, closed_known_slots};

use crate::Disk;
use crate::safe_write::write_safely;
use outside_io::Failed;

/// Makes a store: writes both gates closed and the header, 64 bytes in all, and syncs. What the disk holds after them
/// is unchanged. After `Failed` those 64 bytes are unspecified.
pub fn format<D: Disk>(disk: &mut D, header: &[u8; 62]) -> Result<(), Failed>
    ensures known { is_some (D.reads disk.new) ≡ is_some (D.reads disk.old) }
    ensures torn { IfBothKnown (D.reads disk.old) (D.reads disk.new) (IsTornImage 0 front_bytes) }
    ensures written { OnOk result (IfBothKnown (D.reads disk.old) (D.reads disk.new) (IsWrittenImage 0 (0 ∷ 0 ∷ header.now))) }
    ensures stands { OnOk result (MatchesKnown (D.reads disk.new) (D.image_now disk.new) (closed_known_slots header.now)) }
    ensures any_moment { CrashLeaves D.moment D.image_since disk.old disk.new (IsTornFrom (D.image_now disk.old) 0 front_bytes) }
    ensures cause { FailsByCount (D.faults disk.old) (D.faults disk.new) result }
{
    let front = closed_front(header);
    write_safely(disk, 0, &front)?;
    Ok(())
}

// Two closed gates and the header.
fn closed_front(header: &[u8; 62]) -> [u8; 64]
    ensures front { result ≡ 0 ∷ 0 ∷ header.now }
    ensures header_length { length header.now ≡ header_bytes }
{
    let mut front = [0; 64];
    front[2..].copy_from_slice(header);
    front
}
