//! A write that is made safe at once.

ghost use Rattle.std.specs.Prelude.{◌≡◌, ℕ, List, Some, length, is_some, OnOk};
ghost use Rattle.outside_io.specs.{FailsByCount};
ghost use Rattle.slot_disk.specs.Images.{IfImageKnown, IfBothKnown, IsTornImage, IsWrittenImage, IsTornFrom};
ghost use Rattle.slot_disk.specs.Images.{IsOnlyImage};
ghost use Rattle.slot_disk.specs.Moments.{CrashLeaves};

use crate::Disk;
use outside_io::Failed;

/// Writes the bytes at an offset, and syncs.
pub(crate) fn write_safely<D: Disk>(disk: &mut D, place: u64, bytes: &[u8]) -> Result<(), Failed>
    ensures known { is_some (D.reads disk.new) ≡ is_some (D.reads disk.old) }
    ensures torn { IfBothKnown (D.reads disk.old) (D.reads disk.new) (IsTornImage place (length bytes.now)) }
    ensures written { OnOk result (IfBothKnown (D.reads disk.old) (D.reads disk.new) (IsWrittenImage place bytes.now)) }
    ensures safe { OnOk result (IfImageKnown (D.reads disk.new) (λ new. IsOnlyImage new (D.image_now disk.new))) }
    ensures any_moment { CrashLeaves D.moment D.image_since disk.old disk.new (IsTornFrom (D.image_now disk.old) place (length bytes.now)) }
    ensures cause { FailsByCount (D.faults disk.old) (D.faults disk.new) result }
{
    disk.write_at(place, bytes)?;
    disk.sync()?;
    Ok(())
}
