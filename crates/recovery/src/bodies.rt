//! The bodies of a store.

ghost use Rattle.std.specs.Prelude.{◌≡◌, ◌≤◌, ◌<◌, ℕ, is_some, option_map, IfErr, IfOk, IfSome, IsErrOf};
ghost use Rattle.outside_io.specs.{FaultRose};
ghost use Rattle.slot_disk.specs.{IfImageKnown, CrashLeaves, IsUnchangedAt, known_slot_open};
ghost use Rattle.slot_disk.specs.{known_slots_of};
ghost use Rattle.checkpoint.specs.{AreSettings, IsSaved, SlotHolds, saved_value};
ghost use Rattle.recovery.specs.Found.{IsBodyFault};
ghost use Rattle.checkpoint.specs.{settings_shape};

use crate::StoreFault;
use crate::store_fault::{fault_of_body, fault_of_decode};
use checkpoint::{Saved, StoreSettings, decode, span};
use slot_disk::{Disk, Slots};
use std::alloc::Global;

/// What the body of a slot, 0 or 1, spells, `None` where its gate is closed.
pub(crate) fn read_slot<D: Disk>(
    alloc: Global,
    disk: &mut D,
    slots: &Slots,
    settings: &StoreSettings,
    slot: u8,
) -> Result<Option<Saved>, StoreFault>
    requires slot { slot < 2 }
    requires settings { AreSettings settings.now }
    ensures gate { IfOk result (λ held. is_some held ≡ known_slot_open slots.now slot) }
    ensures saved { IfOk result (λ held. IfSome held (λ saved. IsSaved settings.now.shards (settings_shape settings.now) (saved_value saved))) }
    ensures holds { IfOk result (λ held. IfImageKnown (D.reads disk.old)
        (λ image. slots.now ≡ known_slots_of image → SlotHolds settings.now slot image (option_map saved_value held))) }
    ensures refused { IfErr result (λ fault. IfImageKnown (D.reads disk.old)
        (λ image. slots.now ≡ known_slots_of image → IsBodyFault settings.now slot image fault)) }
    ensures unchanged { IsUnchangedAt D.reads D.image_now disk.old disk.new }
    ensures any_moment { CrashLeaves D.moment D.image_since disk.old disk.new (D.image_now disk.old) }
    ensures later { D.faults disk.old ≤ D.faults disk.new }
    ensures fault { IsErrOf result StoreFault.DiskFault → FaultRose (D.faults disk.old) (D.faults disk.new) }
    ensures no_fault { (IsErrOf result StoreFault.DiskFault → ⊥) → D.faults disk.new ≡ D.faults disk.old }
{
    if !slots.gate(slot) {
        return Ok(None);
    }
    let body = match slots.read_body(alloc, disk, slot, span(settings)) {
        Ok(body) => body,
        Err(fault) => return Err(fault_of_body(fault, slot)),
    };
    match decode(alloc, &body, settings) {
        Ok(saved) => Ok(Some(saved)),
        Err(fault) => Err(fault_of_decode(fault, slot)),
    }
}
