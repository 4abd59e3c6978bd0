//! Reads a store.

ghost use Rattle.std.specs.Prelude.{◌≡◌, ◌≤◌, ℕ, is_some, option_map, IfErr, IfOk, IfSome, IsErrOf};
ghost use Rattle.outside_io.specs.{FaultRose};
ghost use Rattle.slot_disk.specs.{IfImageKnown, CrashLeaves, MatchesKnown};
ghost use Rattle.checkpoint.specs.{AreSettings, IsHeader, IsNewestSave, IsSaved, header_bytes, saved_value, settings_shape};
ghost use Rattle.recovery.specs.Reading.{MustRead, MustRefuse, ReadsAs, RefusesReading, has_open_gate};
ghost use Rattle.recovery.specs.Found.{HoldsFound, ShowsHeader};

use crate::StoreFault;
use crate::bodies::read_slot;
use crate::front::{Front, open_front};
use crate::laws::readings_are_decided;
use crate::newest::newest_of;
use checkpoint::{Newest, Saved, StoreSettings};
use slot_disk::Disk;
use std::alloc::Global;

/// Reads the store of these settings, whatever capture it is of: what its newest slot holds, `None` exactly where no gate
/// is open. The header of the store may be of either version.
///
/// Each refusal comes exactly if its variant says so, in the order that `StoreFault` gives. Whatever is returned, the disk
/// reads as before, and a crash leaves nothing that it could not have left before.
pub fn read_store<D: Disk>(
    alloc: Global,
    disk: &mut D,
    settings: &StoreSettings,
) -> Result<Option<Saved>, StoreFault>
    requires settings { AreSettings settings.now }
    ensures opens { IfOk result (λ read. IfImageKnown (D.reads disk.old) (λ image. ReadsAs settings.now image (option_map saved_value read))) }
    ensures gate { IfOk result (λ read. IfImageKnown (D.reads disk.old) (λ image. is_some read ≡ has_open_gate image)) }
    ensures saved { IfOk result (λ read. IfSome read (λ saved. IsSaved settings.now.shards (settings_shape settings.now) (saved_value saved))) }
    ensures must_read { IfImageKnown (D.reads disk.old) (λ image. MustRead settings.now image result) }
    ensures refused { IfErr result (λ fault. IfImageKnown (D.reads disk.old) (λ image. RefusesReading settings.now image fault)) }
    ensures must_refuse { IfImageKnown (D.reads disk.old) (λ image. MustRefuse settings.now image result) }
    ensures reads { D.reads disk.new ≡ D.reads disk.old }
    ensures any_moment { CrashLeaves D.moment D.image_since disk.old disk.new (D.image_now disk.old) }
    ensures later { D.faults disk.old ≤ D.faults disk.new }
    ensures fault { IsErrOf result StoreFault.DiskFault → FaultRose (D.faults disk.old) (D.faults disk.new) }
    ensures no_fault { (IsErrOf result StoreFault.DiskFault → ⊥) → D.faults disk.new ≡ D.faults disk.old }
{
    readings_are_decided();
    let found = find_newest(alloc, disk, settings)?;
    Ok(into_saved(found.newest))
}

/// The gates and the header of a store, and its newest slot.
#[derive(Drop)]
pub(crate) struct Found {
    pub(crate) front: Front,
    pub(crate) newest: Option<Newest>,
}

/// Finds the newest slot of a store of these settings.
pub(crate) fn find_newest<D: Disk>(
    alloc: Global,
    disk: &mut D,
    settings: &StoreSettings,
) -> Result<Found, StoreFault>
    requires { AreSettings settings.now }
    ensures stands { IfOk result (λ found. MatchesKnown (D.reads disk.new) (D.image_now disk.new) found.front.slots) }
    ensures is_header { IfOk result (λ found. IsHeader found.front.header) }
    ensures settings { IfOk result (λ found. found.front.header.settings ≡ settings.now) }
    ensures spelled { IfOk result (λ found. found.front.slots.header ≡ header_bytes found.front.header) }
    ensures shows { IfOk result (λ found. IfImageKnown (D.reads disk.old) (ShowsHeader settings.now found.front.header)) }
    ensures newest { IfOk result (λ found. IsNewestSave settings.now found.front.slots found.newest) }
    ensures holds { IfOk result (λ found. IfImageKnown (D.reads disk.old) (HoldsFound found.front.header found.newest)) }
    ensures refused { IfErr result (λ fault. IfImageKnown (D.reads disk.old) (λ image. RefusesReading settings.now image fault)) }
    ensures reads { D.reads disk.new ≡ D.reads disk.old }
    ensures any_moment { CrashLeaves D.moment D.image_since disk.old disk.new (D.image_now disk.old) }
    ensures later { D.faults disk.old ≤ D.faults disk.new }
    ensures fault { IsErrOf result StoreFault.DiskFault → FaultRose (D.faults disk.old) (D.faults disk.new) }
    ensures no_fault { (IsErrOf result StoreFault.DiskFault → ⊥) → D.faults disk.new ≡ D.faults disk.old }
{
    let front = open_front(disk, settings)?;
    let first = read_slot(alloc, disk, &front.slots, settings, 0)?;
    let second = read_slot(alloc, disk, &front.slots, settings, 1)?;
    Ok(Found {
        front,
        newest: newest_of(first, second),
    })
}

// What the newest slot holds.
fn into_saved(newest: Option<Newest>) -> Option<Saved>
    ensures { result ≡ option_map (λ last. last.saved) newest }
{
    match newest {
        None => None,
        Some(newest) => Some(newest.saved),
    }
}
