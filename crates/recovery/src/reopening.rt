//! Opens a store.

ghost use Rattle.std.specs.Prelude.{◌≡◌, ◌≤◌, ℕ, length, IfErr, IfOk, IsErrOf};
ghost use Rattle.outside_io.specs.{FaultRose};
ghost use Rattle.slot_disk.specs.{IfImageKnown, CrashLeaves};
ghost use Rattle.checkpoint.specs.{AreSettings, DiskMatches};
ghost use Rattle.recovery.specs.Reopening.{CanGoOn, RefusesOpening, OpensToBase};
ghost use Rattle.recovery.specs.Found.{base_in_parts};

use crate::belonging::check_newest;
use crate::front::Front;
use crate::reading::find_newest;
use crate::{OpenFault, Opened};
use checkpoint::{Newest, Saver, StoreSettings, digest_of};
use deal_rules::Dealt;
use hhh_report::Positions;
use shard_state::Cut;
use slot_disk::Disk;
use std::alloc::{AllocError, Global};

/// Opens the store of these settings, which has saved cuts of the dealt records, with as many shards as the settings
/// have. The base is the newest saved cut, `None` where no gate is open. The header of the store may be of either
/// version: digests are made with the bytes that stand there, and saves leave them.
///
/// Each refusal comes exactly if its variant says so, in the order that `OpenFault` gives. Whatever is returned, the
/// disk reads as before, and a crash leaves nothing that it could not have left before. After `Ok` a crash leaves the
/// disk as it reads, and the saver may save.
pub fn reopen<D: Disk>(
    alloc: Global,
    disk: &mut D,
    settings: &StoreSettings,
    dealt: &Dealt,
) -> Result<Opened, OpenFault>
    requires settings { AreSettings settings.now }
    requires shards { length dealt.now ≡ settings.now.shards }
    ensures opens { IfOk result (λ opened. IfImageKnown (D.reads disk.old)
        (λ image. OpensToBase settings.now dealt.now image opened.base)) }
    ensures stands { IfOk result (λ opened. DiskMatches (D.reads disk.new) (D.image_now disk.new) opened.saver) }
    ensures goes_on { IfOk result (CanGoOn settings.now dealt.now) }
    ensures refused { IfErr result (λ fault. IfImageKnown (D.reads disk.old) (λ image. RefusesOpening settings.now dealt.now image fault)) }
    ensures reads { D.reads disk.new ≡ D.reads disk.old }
    ensures any_moment { CrashLeaves D.moment D.image_since disk.old disk.new (D.image_now disk.old) }
    ensures later { D.faults disk.old ≤ D.faults disk.new }
    ensures fault { IsErrOf result OpenFault.DiskFault → FaultRose (D.faults disk.old) (D.faults disk.new) }
    ensures no_fault { (IsErrOf result OpenFault.DiskFault → ⊥) → D.faults disk.new ≡ D.faults disk.old }
{
    let found = find_newest(alloc, disk, settings)?;
    let digest = digest_of(dealt, found.front.slots.header());
    check_newest(&found.newest, dealt, &digest)?;
    let Front { slots, header } = found.front;
    let saver = Saver::new(alloc, slots, header, digest, &found.newest)?;
    let positions = copy_positions(alloc, saver.positions())?;
    Ok(Opened {
        base: into_base(found.newest),
        positions,
        saver,
    })
}

// The cut of the newest slot.
fn into_base(newest: Option<Newest>) -> Option<Cut>
    ensures { result ≡ base_in_parts newest }
{
    match newest {
        None => None,
        Some(newest) => Some(newest.saved.cut),
    }
}

// The same positions.
fn copy_positions(alloc: Global, positions: &Positions) -> Result<Positions, AllocError>
    ensures { IfOk result (λ copy. copy ≡ positions.now) }
{
    let mut copy = Positions::new(alloc);
    for position in positions.as_slice() {
        copy.push(*position)?;
    }
    Ok(copy)
}
