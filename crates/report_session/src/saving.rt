//! Saving the cuts of the calling thread.

ghost use Rattle.std.specs.Prelude.{◌≡◌, [], ◌∷◌, IfErr, IfOk, IfSome, None, OnErr, OnOk, is_some, true};
ghost use Rattle.report_text.specs.{ShowsPositions};
ghost use Rattle.report_session.specs.DealtFeed.{CanSaveCut, IsSaveFault};
ghost use Rattle.report_session.specs.Saving.{SavesInPart, SavesInTurn};
ghost use Rattle.report_session.specs.Session.{save_line};
ghost use Rattle.run_status.specs.declared.status.Status.TheVariants.{DiskFault, OutOfMemory};

use checkpoint::{SaveFault, Saver, stores_open_to_one};
use hhh_report::Positions;
use report_text::{Mark, print_positions};
use run_status::Status;
use shard_state::Cut;
use slot_disk::Disk;
use std::alloc::{AllocError, Global};

/// Saves a cut, if there is a saver. Where memory runs out, the disk and the saver are as before; after a fault of the disk
/// there is no saver.
pub(crate) fn save_cut<D: Disk>(
    alloc: Global,
    saver: &mut Option<Saver>,
    disk: &mut D,
    cut: &Cut,
) -> Result<(), Status>
    requires { IfSome saver.old (CanSaveCut (D.reads disk.old) (D.image_now disk.old) cut.now) }
    ensures saved { OnOk result (SavesInTurn D.Disk saver.old saver.new disk.old disk.new (cut.now ∷ [])) }
    ensures in_part { OnErr result (SavesInPart D.Disk saver.old disk.old disk.new [] (cut.now ∷ [])) }
    ensures ran_out { IfErr result (λ status. status ≡ OutOfMemory → disk.new ≡ disk.old) }
    ensures saver_stays { IfErr result (λ status. status ≡ OutOfMemory → saver.new ≡ saver.old) }
    ensures saver_goes { IfErr result (λ status. status ≡ DiskFault → saver.new ≡ None) }
    ensures used { OnErr result (is_some saver.old ≡ true) }
    ensures fault { IfErr result (IsSaveFault (D.faults disk.old) (D.faults disk.new)) }
    ensures no_fault { OnOk result (D.faults disk.new ≡ D.faults disk.old) }
    ensures unused { saver.old ≡ None → (saver.new ≡ None) × (disk.new ≡ disk.old) }
{
    stores_open_to_one();
    match saver.take() {
        None => Ok(()),
        Some(open) => match open.save(alloc, disk, cut) {
            Ok(next) => {
                *saver = Some(next);
                Ok(())
            }
            Err(SaveFault::DiskFault) => Err(Status::DiskFault),
            Err(SaveFault::OutOfMemory(open)) => {
                *saver = Some(open);
                Err(Status::OutOfMemory)
            }
        },
    }
}

/// The line of the positions that a save puts into the store; no line without a store. It is made before the save, so that
/// memory can't run out between the two.
pub(crate) fn saved_line(
    alloc: Global,
    store: bool,
    positions: &Positions,
) -> Result<Vec<u8>, AllocError>
    requires { ShowsPositions positions.now }
    ensures { IfOk result (λ line. line.items ≡ save_line store positions.now) }
{
    let mut line = Vec::new(alloc);
    if store {
        print_positions(Mark::Saved, positions, &mut line)?;
    }
    Ok(line)
}
