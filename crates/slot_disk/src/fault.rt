//! Why a store was not begun, and why a body was not read.

ghost use Rattle.std.specs.Prelude.{◌≡◌};
ghost use Rattle.slot_disk.specs.declared.fault.BeginFault.TheVariants.{DiskFault as BeginDiskFault};
ghost use Rattle.slot_disk.specs.declared.fault.BodyFault.TheVariants.{DiskFault as BodyDiskFault, OutOfMemory};

use outside_io::Failed;
use std::alloc::AllocError;
use thiserror::Error;

/// Why a store was not begun.
#[derive(Clone, Copy, Debug, PartialEq, Eq, Error)]
pub enum BeginFault {
    /// A call of the disk failed.
    #[error("disk fault")]
    DiskFault,
    /// The disk is shorter than the gates and the header, 64 bytes.
    #[error("no store")]
    TooShort,
}

/// Why a body was not read.
#[derive(Clone, Copy, Debug, PartialEq, Eq, Error)]
pub enum BodyFault {
    /// A call of the disk failed.
    #[error("disk fault")]
    DiskFault,
    /// The disk ends inside the body's length, or the length is below 8, above the span, or past the disk's end.
    #[error("damaged body")]
    Damaged,
    /// Out of memory.
    #[error("out of memory")]
    OutOfMemory,
}

impl From<Failed> for BeginFault {
    ghost from_gives = { λ _ fault. fault ≡ BeginDiskFault };

    fn from(_: Failed) -> BeginFault {
        BeginFault::DiskFault
    }
}

impl From<Failed> for BodyFault {
    ghost from_gives = { λ _ fault. fault ≡ BodyDiskFault };

    fn from(_: Failed) -> BodyFault {
        BodyFault::DiskFault
    }
}

impl From<AllocError> for BodyFault {
    ghost from_gives = { λ _ fault. fault ≡ OutOfMemory };

    fn from(_: AllocError) -> BodyFault {
        BodyFault::OutOfMemory
    }
}
