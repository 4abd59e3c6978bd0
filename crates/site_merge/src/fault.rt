//! Why the stores of several sites give no report.

ghost use Rattle.std.specs.Prelude.{◌≡◌};
ghost use Rattle.site_merge.specs.Sites.{fault_at};
ghost use Rattle.site_merge.specs.declared.fault.SiteFault.TheVariants.{OutOfMemory};

use checkpoint::StoreSettings;
use recovery::StoreFault;
use std::alloc::AllocError;
use thiserror::Error;

/// Why the stores of several sites give no report. Sites are numbered from 1. The first four are those of the first site
/// whose store is refused by itself; then captures are compared, and last the weight of all is tested.
#[derive(Clone, Copy, Debug, PartialEq, Eq, Error)]
pub enum SiteFault {
    /// A call of the disk of this site failed.
    #[error("site {0}: disk fault")]
    DiskFault(u32),
    /// The disk of this site is shorter than 64 bytes, or its header spells no settings in either version.
    #[error("site {0}: not formatted")]
    NotFormatted(u32),
    /// The header of a site's store spells other settings.
    #[error("site {site}: other settings")]
    OtherSettings {
        /// The number of the site.
        site: u32,
        /// The settings that the header spells.
        stored: StoreSettings,
        /// The settings that were asked for.
        asked: StoreSettings,
    },
    /// In a site's store the gate of a slot, the first such, is open over no body of the settings.
    #[error("site {site}: damaged: slot {slot}")]
    Damaged {
        /// The number of the site.
        site: u32,
        /// The slot, 0 or 1.
        slot: u8,
    },
    /// The stores of two sites counted some weight and have one digest, so that its records would count twice.
    #[error("sites {first} and {second} are of one capture")]
    SameCapture {
        /// The least number of a site with whose capture a later one was made.
        first: u32,
        /// The least number of such a later site.
        second: u32,
    },
    /// The stores counted a weight of 2^56 or more together.
    #[error("too heavy")]
    TooHeavy {
        /// The weight, in bytes or packets.
        total: u64,
    },
    /// Out of memory.
    #[error("out of memory")]
    OutOfMemory,
}

impl From<AllocError> for SiteFault {
    ghost from_gives = { λ _ fault. fault ≡ OutOfMemory };

    fn from(_: AllocError) -> SiteFault {
        SiteFault::OutOfMemory
    }
}

/// Why there is no report where the store of a site is refused for this fault.
pub(crate) fn fault_of_site(site: u32, fault: StoreFault) -> SiteFault
    ensures { result ≡ fault_at site fault }
{
    match fault {
        StoreFault::DiskFault => SiteFault::DiskFault(site),
        StoreFault::NotFormatted => SiteFault::NotFormatted(site),
        StoreFault::OtherSettings { stored, asked } => SiteFault::OtherSettings {
            site,
            stored,
            asked,
        },
        StoreFault::Damaged(slot) => SiteFault::Damaged { site, slot },
        StoreFault::OutOfMemory => SiteFault::OutOfMemory,
    }
}
