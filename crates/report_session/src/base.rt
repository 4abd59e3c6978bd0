//! What a run goes on from: the newest cut of its store, or nothing.

ghost use Rattle.std.specs.Prelude.{◌≡◌, true, false, length, replicate, IfErr, IfOk, IfSome, OnOk};
ghost use Rattle.slot_disk.specs.{CrashLeaves};
ghost use Rattle.checkpoint.specs.{AreSettings, DiskMatches};
ghost use Rattle.command_words.specs.{AreLimited};
ghost use Rattle.report_session.specs.DealtFeed.{HasNoBase, IsFeedBase};
ghost use Rattle.report_session.specs.Saving.{settings_of_store};
ghost use Rattle.run_status.specs.declared.status.Status.TheVariants.{OutOfMemory};

use checkpoint::{Saver, StoreSettings};
use command_words::Settings;
use deal_rules::Dealt;
use hhh_report::Positions;
use recovery::{Opened, reopen};
use run_status::Status;
use shard_state::Cut;
use slot_disk::Disk;
use std::alloc::{AllocError, Global};

/// What a run goes on from.
#[derive(Drop)]
pub(crate) struct Base {
    /// The saved cut, `None` where the shards are new.
    pub(crate) cut: Option<Cut>,
    /// The positions at which the shards start.
    pub(crate) positions: Positions,
    /// What saves into the store, `None` without one.
    pub(crate) saver: Option<Saver>,
}

/// Opens the store of a run, if its settings ask for one. The disk reads as before.
pub(crate) fn open_base<D: Disk>(
    alloc: Global,
    settings: &Settings,
    dealt: &Dealt,
    disk: &mut D,
) -> Result<Base, Status>
    requires limited { AreLimited settings.now }
    requires shards { length dealt.now ≡ settings.now.shards }
    ensures base { IfOk result (IsFeedBase settings.now dealt.now (D.reads disk.old)) }
    ensures stands { IfOk result (λ base. IfSome base.saver (DiskMatches (D.reads disk.new) (D.image_now disk.new))) }
    ensures refused { IfErr result (HasNoBase settings.now dealt.now (D.reads disk.old) (D.faults disk.old) (D.faults disk.new)) }
    ensures no_fault { OnOk result (D.faults disk.new ≡ D.faults disk.old) }
    ensures reads { D.reads disk.new ≡ D.reads disk.old }
    ensures any_moment { CrashLeaves D.moment D.image_since disk.old disk.new (D.image_now disk.old) }
    ensures unused { settings.now.store ≡ false → disk.new ≡ disk.old }
{
    if settings.store {
        open_store(alloc, settings, dealt, disk)
    } else {
        new_base(alloc, dealt)
    }
}

// Opens the store.
fn open_store<D: Disk>(
    alloc: Global,
    settings: &Settings,
    dealt: &Dealt,
    disk: &mut D,
) -> Result<Base, Status>
    requires limited { AreLimited settings.now }
    requires used { settings.now.store ≡ true }
    requires shards { length dealt.now ≡ settings.now.shards }
    ensures base { IfOk result (IsFeedBase settings.now dealt.now (D.reads disk.old)) }
    ensures stands { IfOk result (λ base. IfSome base.saver (DiskMatches (D.reads disk.new) (D.image_now disk.new))) }
    ensures refused { IfErr result (HasNoBase settings.now dealt.now (D.reads disk.old) (D.faults disk.old) (D.faults disk.new)) }
    ensures no_fault { OnOk result (D.faults disk.new ≡ D.faults disk.old) }
    ensures reads { D.reads disk.new ≡ D.reads disk.old }
    ensures any_moment { CrashLeaves D.moment D.image_since disk.old disk.new (D.image_now disk.old) }
{
    match reopen(alloc, disk, &store_settings(settings), dealt) {
        Ok(opened) => Ok(base_from(opened)),
        Err(fault) => Err(Status::from(fault)),
    }
}

fn base_from(opened: Opened) -> Base
    ensures cut { result.cut ≡ opened.base }
    ensures positions { result.positions ≡ opened.positions }
    ensures saver { result.saver ≡ Some opened.saver }
{
    let Opened {
        base,
        positions,
        saver,
    } = opened;
    Base {
        cut: base,
        positions,
        saver: Some(saver),
    }
}

// A run without a store starts at position 0 in each shard.
fn new_base(alloc: Global, dealt: &Dealt) -> Result<Base, Status>
    ensures base { IfOk result (λ base. base ≡ record { cut = None; positions = replicate (length dealt.now) 0; saver = None }) }
    ensures memory { IfErr result (λ status. status ≡ OutOfMemory) }
{
    let positions = zero_positions(alloc, dealt.shards())?;
    Ok(Base {
        cut: None,
        positions,
        saver: None,
    })
}

fn zero_positions(alloc: Global, shards: u32) -> Result<Positions, AllocError>
    ensures { IfOk result (λ positions. positions ≡ replicate shards 0) }
{
    let mut positions = Positions::new(alloc);
    for _shard in 0..shards {
        positions.push(0)?;
    }
    Ok(positions)
}

/// The settings of the store of a command.
pub fn store_settings(settings: &Settings) -> StoreSettings
    requires { AreLimited settings.now }
    ensures settings { result ≡ settings_of_store settings.now }
    ensures allowed { AreSettings (settings_of_store settings.now) }
{
    StoreSettings {
        shards: settings.shards,
        capacity: settings.capacity,
        weigh: settings.weigh,
        deal: settings.deal,
        grain: settings.grain,
    }
}
