//! The three parts of a put, of two disk calls each: the gate is closed, the body is written, the gate is opened.

ghost use Rattle.std.specs.Prelude.{◌≡◌, ℕ, ◌<◌, ◌≤◌, ◌^◌, List, Some, length, is_some, OnOk};
ghost use Rattle.outside_io.specs.{FailsByCount};
ghost use Rattle.slot_disk.specs.Images.{IfImageKnown, IfBothKnown, IsOnlyImage};
ghost use Rattle.slot_disk.specs.Moments.{CrashLeaves};
ghost use Rattle.slot_disk.specs.Putting.{closing_put, CanClose, MayBeClosed, IsClosed, CanWrite};
ghost use Rattle.slot_disk.specs.Putting.{FitsSlot, IsStored, CanOpen, MayBeOpen, IsPut};

use crate::Disk;
use crate::safe_write::write_safely;
use crate::slots::body_place;
use outside_io::Failed;

/// Closes the gate of a slot. Where it is closed already, an empty piece is written: a byte written there could come
/// back as 1 after a crash, over a body that is cut short.
pub(crate) fn close_gate<D: Disk>(disk: &mut D, slot: u8, is_open: bool) -> Result<(), Failed>
    requires { slot < 2 }
    ensures known { is_some (D.reads disk.new) ≡ is_some (D.reads disk.old) }
    ensures closed { OnOk result ((span : ℕ) → IfBothKnown (D.reads disk.old) (D.reads disk.new)
        (λ old new. CanClose span slot is_open old → IsClosed span slot old new)) }
    ensures safe { OnOk result (IfImageKnown (D.reads disk.new) (λ new. IsOnlyImage new (D.image_now disk.new))) }
    ensures any_moment { (span : ℕ) → IfImageKnown (D.reads disk.old) (λ old. IsOnlyImage old (D.image_now disk.old) → CanClose span slot is_open old
        → CrashLeaves D.moment D.image_since disk.old disk.new (MayBeClosed span slot old)) }
    ensures cause { FailsByCount (D.faults disk.old) (D.faults disk.new) result }
{
    write_safely(disk, slot as u64, closing(is_open))?;
    Ok(())
}

// What is written at a gate to close it.
fn closing(is_open: bool) -> &'static [u8]
    ensures { result.now ≡ closing_put is_open }
{
    if is_open { &[0] } else { &[] }
}

/// Writes the body of a slot whose gate is closed.
pub(crate) fn write_body<D: Disk>(
    disk: &mut D,
    slot: u8,
    span: u64,
    body: &[u8],
) -> Result<(), Failed>
    requires slot { slot < 2 }
    requires span { span < 2 ^ 32 }
    requires body { FitsSlot span body.now }
    ensures known { is_some (D.reads disk.new) ≡ is_some (D.reads disk.old) }
    ensures stored { OnOk result (IfBothKnown (D.reads disk.old) (D.reads disk.new)
        (λ old new. CanWrite span slot old → IsStored span slot body.now old new)) }
    ensures safe { OnOk result (IfImageKnown (D.reads disk.new) (λ new. IsOnlyImage new (D.image_now disk.new))) }
    ensures any_moment { IfImageKnown (D.reads disk.old) (λ old. IsOnlyImage old (D.image_now disk.old) → CanWrite span slot old
        → CrashLeaves D.moment D.image_since disk.old disk.new (IsClosed span slot old)) }
    ensures cause { FailsByCount (D.faults disk.old) (D.faults disk.new) result }
{
    write_safely(disk, body_place(slot, span), body)?;
    Ok(())
}

/// Opens the gate of a slot over its body.
pub(crate) fn open_gate<D: Disk>(disk: &mut D, slot: u8) -> Result<(), Failed>
    requires { slot < 2 }
    ensures known { is_some (D.reads disk.new) ≡ is_some (D.reads disk.old) }
    ensures opened { OnOk result ((span : ℕ) (body : List ℕ) → IfBothKnown (D.reads disk.old) (D.reads disk.new)
        (λ old new. CanOpen span slot body old → IsPut span slot body old new)) }
    ensures safe { OnOk result (IfImageKnown (D.reads disk.new) (λ new. IsOnlyImage new (D.image_now disk.new))) }
    ensures any_moment { (span : ℕ) (body : List ℕ)
        → IfImageKnown (D.reads disk.old) (λ old. IsOnlyImage old (D.image_now disk.old) → CanOpen span slot body old
        → CrashLeaves D.moment D.image_since disk.old disk.new (MayBeOpen span slot body old)) }
    ensures cause { FailsByCount (D.faults disk.old) (D.faults disk.new) result }
{
    write_safely(disk, slot as u64, &[1])?;
    Ok(())
}
