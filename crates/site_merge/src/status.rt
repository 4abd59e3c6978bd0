//! How the command `sites` ended.

ghost use Rattle.std.specs.Prelude.{◌≡◌, ◌++◌, codes, decimal, IfOk, OnOk};
ghost use Rattle.site_merge.specs.SiteStatus.{site_line, status_number, status_of_sites, status_of_site_words, status_text};

use crate::{SiteFault, SiteWords, SiteWordsRefusal};
use checkpoint::StoreSettings;
use run_status::push_number;
use std::alloc::{AllocError, Global};

/// How the command `sites` ended. Whatever is returned, each disk reads as before. Sites are numbered from 1.
#[derive(Clone, Copy, Debug, PartialEq, Eq)]
pub enum SiteStatus {
    /// The text of the report was written in full.
    Done,
    /// The words ask for no report. Nothing was read or written.
    BadWords(SiteWords),
    /// The sink failed. The text was written in part.
    WriteFault,
    /// The disk of this site failed. Nothing was written.
    DiskFault(u32),
    /// The disk of this site is shorter than 64 bytes, or its header spells no settings. Nothing was written.
    NotFormatted(u32),
    /// In a site's store the gate of a slot is open over no body of the settings. Nothing was written.
    Damaged {
        /// The number of the site.
        site: u32,
        /// The slot, 0 or 1.
        slot: u8,
    },
    /// The store of a site has other settings. Nothing was written.
    OtherSettings {
        /// The number of the site.
        site: u32,
        /// The settings of the store.
        stored: StoreSettings,
        /// The settings that were asked for.
        asked: StoreSettings,
    },
    /// Memory ran out. Nothing was written.
    OutOfMemory,
    /// The stores of two sites are of one capture. Nothing was written.
    SameCapture {
        /// The number of the one site.
        first: u32,
        /// The number of the other, which is greater.
        second: u32,
    },
    /// The stores counted a weight of 2^56 or more together. Nothing was written.
    TooHeavy {
        /// The weight, in bytes or packets.
        total: u64,
    },
}

impl SiteStatus {
    /// The exit status of the program: 0 for `Done`.
    pub fn number(&self) -> u8
        ensures { result ≡ status_number self.now }
    {
        match self {
            SiteStatus::Done => 0,
            SiteStatus::BadWords(_) => 2,
            SiteStatus::WriteFault => 5,
            SiteStatus::DiskFault(_) => 6,
            SiteStatus::NotFormatted(_) => 7,
            SiteStatus::Damaged { .. } => 8,
            SiteStatus::OtherSettings { .. } => 9,
            SiteStatus::OutOfMemory => 13,
            SiteStatus::SameCapture { .. } => 14,
            SiteStatus::TooHeavy { .. } => 15,
        }
    }
}

/// The line for standard error: `hhh: `, how the command ended, and a line feed.
pub fn site_fault_line(alloc: Global, status: &SiteStatus) -> Result<Vec<u8>, AllocError>
    ensures { IfOk result (λ line. line.items ≡ site_line status.now) }
{
    let mut line = Vec::from_slice(alloc, b"hhh: ")?;
    push_status(&mut line, status)?;
    line.extend_from_slice(b"\n")?;
    Ok(line)
}

fn push_status(line: &mut Vec<u8>, status: &SiteStatus) -> Result<(), AllocError>
    ensures { OnOk result (line.new.items ≡ line.old.items ++ status_text status.now) }
{
    match status {
        SiteStatus::Done => line.extend_from_slice(b"done"),
        SiteStatus::BadWords(_) => line.extend_from_slice(b"bad words"),
        SiteStatus::WriteFault => line.extend_from_slice(b"write fault"),
        SiteStatus::DiskFault(site) => push_site(line, *site, b": disk fault"),
        SiteStatus::NotFormatted(site) => push_site(line, *site, b": not formatted"),
        SiteStatus::Damaged { site, slot } => {
            push_site(line, *site, b"")?;
            push_number(line, b": damaged: slot ", u64::from(*slot))
        }
        SiteStatus::OtherSettings { site, .. } => push_site(line, *site, b": other settings"),
        SiteStatus::OutOfMemory => line.extend_from_slice(b"out of memory"),
        SiteStatus::SameCapture { first, second } => push_pair(line, *first, *second),
        SiteStatus::TooHeavy { .. } => line.extend_from_slice(b"too heavy"),
    }
}

// Appends `site`, its number and what is wrong with it.
fn push_site(line: &mut Vec<u8>, site: u32, wrong: &[u8]) -> Result<(), AllocError>
    ensures { OnOk result (line.new.items ≡ line.old.items ++ codes "site " ++ decimal site ++ wrong.now) }
{
    push_number(line, b"site ", u64::from(site))?;
    line.extend_from_slice(wrong)
}

// Appends that two sites are of one capture.
fn push_pair(line: &mut Vec<u8>, first: u32, second: u32) -> Result<(), AllocError>
    ensures { OnOk result (line.new.items
        ≡ line.old.items ++ codes "sites " ++ decimal first ++ codes " and " ++ decimal second ++ codes " are of one capture") }
{
    push_number(line, b"sites ", u64::from(first))?;
    push_number(line, b" and ", u64::from(second))?;
    line.extend_from_slice(b" are of one capture")
}

impl From<SiteFault> for SiteStatus {
    ghost from_gives = { λ fault status. status ≡ status_of_sites fault };

    fn from(fault: SiteFault) -> SiteStatus {
        match fault {
            SiteFault::DiskFault(site) => SiteStatus::DiskFault(site),
            SiteFault::NotFormatted(site) => SiteStatus::NotFormatted(site),
            SiteFault::OtherSettings {
                site,
                stored,
                asked,
            } => SiteStatus::OtherSettings {
                site,
                stored,
                asked,
            },
            SiteFault::Damaged { site, slot } => SiteStatus::Damaged { site, slot },
            SiteFault::SameCapture { first, second } => SiteStatus::SameCapture { first, second },
            SiteFault::TooHeavy { total } => SiteStatus::TooHeavy { total },
            SiteFault::OutOfMemory => SiteStatus::OutOfMemory,
        }
    }
}

impl From<SiteWordsRefusal> for SiteStatus {
    ghost from_gives = { λ refusal status. status ≡ status_of_site_words refusal };

    fn from(refusal: SiteWordsRefusal) -> SiteStatus {
        match refusal {
            SiteWordsRefusal::Bad(fault) => SiteStatus::BadWords(fault),
            SiteWordsRefusal::OutOfMemory => SiteStatus::OutOfMemory,
        }
    }
}

impl From<AllocError> for SiteStatus {
    ghost use Rattle.site_merge.specs.declared.status.SiteStatus.TheVariants.{OutOfMemory};

    ghost from_gives = { λ _ status. status ≡ OutOfMemory };

    fn from(_error: AllocError) -> SiteStatus {
        SiteStatus::OutOfMemory
    }
}
