//! Why a body was not decoded, and why a cut was not saved.

ghost use Rattle.std.specs.Prelude.{◌≡◌};
ghost use Rattle.checkpoint.specs.declared.fault.DecodeFault.TheVariants.{OutOfMemory};
ghost use Rattle.checkpoint.specs.declared.fault.SaveFault.TheVariants.{DiskFault};

use crate::Saver;
use outside_io::Failed;
use std::alloc::{AllocError, AllocFailed};
use thiserror::Error;

/// Why a body was not decoded.
#[derive(Clone, Copy, Debug, PartialEq, Eq, Error)]
pub enum DecodeFault {
    /// The bytes are no body under the settings.
    #[error("damaged body")]
    Damaged,
    /// Out of memory.
    #[error("out of memory")]
    OutOfMemory,
}

/// Why a cut was not saved.
#[derive(Debug, Drop, Error)]
pub enum SaveFault {
    /// A call of the disk failed. The store is opened again.
    #[error("disk fault")]
    DiskFault,
    /// Out of memory. The disk is unchanged, and the saver is the one that was to save.
    #[error("out of memory")]
    OutOfMemory(Saver),
}

impl From<Failed> for SaveFault {
    ghost from_gives = { λ _ fault. fault ≡ DiskFault };

    fn from(_: Failed) -> SaveFault {
        SaveFault::DiskFault
    }
}

impl From<AllocError> for DecodeFault {
    ghost from_gives = { λ _ fault. fault ≡ OutOfMemory };

    fn from(_: AllocError) -> DecodeFault {
        DecodeFault::OutOfMemory
    }
}

impl<T: Drop> From<AllocFailed<T>> for DecodeFault {
    ghost from_gives = { λ _ fault. fault ≡ OutOfMemory };

    fn from(_: AllocFailed<T>) -> DecodeFault {
        DecodeFault::OutOfMemory
    }
}
