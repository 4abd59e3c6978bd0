//! Why a store was not opened.

ghost use Rattle.std.specs.Prelude.{◌≡◌};
ghost use Rattle.recovery.specs.OpenFault.{open_fault};
ghost use Rattle.recovery.specs.declared.fault.OpenFault.TheVariants.{OutOfMemory};

use crate::StoreFault;
use checkpoint::StoreSettings;
use std::alloc::AllocError;
use thiserror::Error;

/// Why a store was not opened. These faults are tested in this order, except that the first and the last come at the
/// call that failed, and that whether the newest cut can be continued from is tested after its digest.
#[derive(Clone, Copy, Debug, PartialEq, Eq, Error)]
pub enum OpenFault {
    /// A call of the disk failed.
    #[error("disk fault")]
    DiskFault,
    /// The disk is shorter than 64 bytes, or its header spells no settings in either version.
    #[error("store not formatted")]
    NotFormatted,
    /// The header spells other settings.
    #[error("store has other settings")]
    OtherSettings {
        /// The settings that the header spells.
        stored: StoreSettings,
        /// The settings that were asked for.
        asked: StoreSettings,
    },
    /// The gate of this slot, the first such, is open over no body of the settings. Or the slot is the newest and has
    /// the digest of the dealt records, and its cut can't be continued from over them: its sequence is above 2^62 - 64,
    /// a position is past the end of its list, or a total isn't the weight of the records before its position.
    #[error("store damaged: slot {0}")]
    Damaged(u8),
    /// The newest slot has the digest of other records.
    #[error("store is of another capture")]
    OtherCapture {
        /// The digest in the newest slot.
        stored: [u8; 32],
        /// The digest of the dealt records under the header of the store.
        asked: [u8; 32],
    },
    /// Out of memory.
    #[error("out of memory")]
    OutOfMemory,
}

impl From<StoreFault> for OpenFault {
    ghost from_gives = { λ reading fault. fault ≡ open_fault reading };

    fn from(fault: StoreFault) -> OpenFault {
        match fault {
            StoreFault::DiskFault => OpenFault::DiskFault,
            StoreFault::NotFormatted => OpenFault::NotFormatted,
            StoreFault::OtherSettings { stored, asked } => {
                OpenFault::OtherSettings { stored, asked }
            }
            StoreFault::Damaged(slot) => OpenFault::Damaged(slot),
            StoreFault::OutOfMemory => OpenFault::OutOfMemory,
        }
    }
}

impl From<AllocError> for OpenFault {
    ghost from_gives = { λ _ fault. fault ≡ OutOfMemory };

    fn from(_: AllocError) -> OpenFault {
        OpenFault::OutOfMemory
    }
}
