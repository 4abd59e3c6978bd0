//! The gates and the header of a store.

ghost use Rattle.std.specs.Prelude.{◌≡◌, ◌≤◌, ◌↔◌, ℕ, IfErr, IfOk, IsErrOf, IsTrue};
ghost use Rattle.outside_io.specs.{FaultRose};
ghost use Rattle.slot_disk.specs.{IfImageKnown, CrashLeaves, MatchesKnown};
ghost use Rattle.checkpoint.specs.{IsHeader, header_bytes};
ghost use Rattle.recovery.specs.Found.{IsFrontFault, ShowsHeader};

use crate::StoreFault;
use checkpoint::{StoreHeader, StoreSettings, read_header, stores_show_their_header};
use slot_disk::{Disk, Slots};

/// The gates of a store and the bytes of its header, and what these spell.
#[derive(Drop)]
pub(crate) struct Front {
    pub(crate) slots: Slots,
    pub(crate) header: StoreHeader,
}

/// Begins a store whose header, of either version, spells these settings.
pub(crate) fn open_front<D: Disk>(
    disk: &mut D,
    settings: &StoreSettings,
) -> Result<Front, StoreFault>
    ensures stands { IfOk result (λ front. MatchesKnown (D.reads disk.new) (D.image_now disk.new) front.slots) }
    ensures is_header { IfOk result (λ front. IsHeader front.header) }
    ensures settings { IfOk result (λ front. front.header.settings ≡ settings.now) }
    ensures spelled { IfOk result (λ front. front.slots.header ≡ header_bytes front.header) }
    ensures shows { IfOk result (λ front. IfImageKnown (D.reads disk.old) (ShowsHeader settings.now front.header)) }
    ensures refused { IfErr result (λ fault. IfImageKnown (D.reads disk.old) (λ image. IsFrontFault settings.now image fault)) }
    ensures reads { D.reads disk.new ≡ D.reads disk.old }
    ensures any_moment { CrashLeaves D.moment D.image_since disk.old disk.new (D.image_now disk.old) }
    ensures later { D.faults disk.old ≤ D.faults disk.new }
    ensures fault { IsErrOf result StoreFault.DiskFault → FaultRose (D.faults disk.old) (D.faults disk.new) }
    ensures no_fault { (IsErrOf result StoreFault.DiskFault → ⊥) → D.faults disk.new ≡ D.faults disk.old }
{
    stores_show_their_header();
    let slots = Slots::begin(disk)?;
    let Some(header) = read_header(slots.header()) else {
        return Err(StoreFault::NotFormatted);
    };
    if !are_same(&header.settings, settings) {
        return Err(StoreFault::OtherSettings {
            stored: header.settings,
            asked: *settings,
        });
    }
    Ok(Front { slots, header })
}

fn are_same(stored: &StoreSettings, asked: &StoreSettings) -> bool
    ensures { IsTrue result ↔ (stored.now ≡ asked.now) }
{
    stored == asked
}
