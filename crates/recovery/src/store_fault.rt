//! Why a store was not read.

ghost use Rattle.std.specs.Prelude.{◌≡◌};
ghost use Rattle.recovery.specs.StoreFault.{begin_fault, body_fault, decode_fault};

use crate::OpenFault;
use checkpoint::{DecodeFault, StoreSettings};
use slot_disk::{BeginFault, BodyFault};
use std::fmt;
use std::fmt::{Display, Formatter};
use thiserror::Error;

/// Why a store was not read. These faults are tested in this order, except that the first and the last come at the call
/// that failed. Each is shown as the fault of opening that it is.
#[derive(Clone, Copy, Debug, PartialEq, Eq, Error)]
pub enum StoreFault {
    /// A call of the disk failed.
    DiskFault,
    /// The disk is shorter than 64 bytes, or its header spells no settings in either version.
    NotFormatted,
    /// The header spells other settings.
    OtherSettings {
        /// The settings that the header spells.
        stored: StoreSettings,
        /// The settings that were asked for.
        asked: StoreSettings,
    },
    /// The gate of this slot, the first such, is open over no body of the settings.
    Damaged(u8),
    /// Out of memory.
    OutOfMemory,
}

impl Display for StoreFault {
    fn fmt<W: fmt::Write>(&self, f: &mut Formatter<W>) -> fmt::Result {
        OpenFault::from(*self).fmt(f)
    }
}

impl From<BeginFault> for StoreFault {
    ghost from_gives = { λ begin fault. fault ≡ begin_fault begin };

    fn from(fault: BeginFault) -> StoreFault {
        match fault {
            BeginFault::DiskFault => StoreFault::DiskFault,
            BeginFault::TooShort => StoreFault::NotFormatted,
        }
    }
}

/// Why a store was not read whose slot has a body that wasn't read.
pub(crate) fn fault_of_body(fault: BodyFault, slot: u8) -> StoreFault
    ensures { result ≡ body_fault fault slot }
{
    match fault {
        BodyFault::DiskFault => StoreFault::DiskFault,
        BodyFault::Damaged => StoreFault::Damaged(slot),
        BodyFault::OutOfMemory => StoreFault::OutOfMemory,
    }
}

/// Why a store was not read whose slot has a body that wasn't decoded.
pub(crate) fn fault_of_decode(fault: DecodeFault, slot: u8) -> StoreFault
    ensures { result ≡ decode_fault fault slot }
{
    match fault {
        DecodeFault::Damaged => StoreFault::Damaged(slot),
        DecodeFault::OutOfMemory => StoreFault::OutOfMemory,
    }
}
