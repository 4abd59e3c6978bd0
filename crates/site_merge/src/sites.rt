//! The top call of the command `sites`.

ghost use Rattle.std.specs.Prelude.{◌≡◌, ℕ, List, length, IfOk, IfErr, OnOk};
ghost use Rattle.checkpoint.specs.declared.settings.StoreSettings.{StoreSettings as StoreSettingsValue};
ghost use Rattle.command_words.specs.{argument_texts};
ghost use Rattle.site_merge.specs.SiteWords.{AskForSites};
ghost use Rattle.site_merge.specs.SiteText.{sites_text};
ghost use Rattle.site_merge.specs.TopCall.{AnswersSites, EndsUnread, ReadingEnds, SitesEnd};
ghost use Rattle.site_merge.specs.declared.reporting.SiteReport.{SiteReport as SiteReportValue};
ghost use Rattle.site_merge.specs.declared.status.SiteStatus.TheVariants.{Done};

use crate::text::text_of;
use crate::words::read_line;
use crate::{SiteStatus, site_report};
use outside_io::{Sink, write_all};
use slot_disk::Disk;
use std::alloc::Global;

/// Runs the command `sites`: one report over the stores that the words name, to the sink. The first word is the name of the
/// command, and the others are read. Where they ask for a report, there are as many disks as names, in their order. `SitesEnd`
/// says what each status means.
pub fn run_sites<D: Disk, K: Sink>(
    alloc: Global,
    words: &[&str],
    disks: &mut [D],
    sink: &mut K,
) -> SiteStatus
    requires { (settings : StoreSettingsValue) (phi : ℕ) (names : List (List ℕ)) → AskForSites (argument_texts words.now) settings phi names
        → length disks.old ≡ length names }
    ensures { SitesEnd D.Disk K.Sink (argument_texts words.now) disks.old disks.new sink.old sink.new result }
{
    let text = match read_sites(alloc, words, disks) {
        Ok(text) => text,
        Err(status) => return status,
    };
    match write_all(sink, &text) {
        Ok(()) => SiteStatus::Done,
        Err(_) => SiteStatus::WriteFault,
    }
}

// The text of the report over the stores that the words name, or why there is none.
fn read_sites<D: Disk>(
    alloc: Global,
    words: &[&str],
    disks: &mut [D],
) -> Result<Vec<u8>, SiteStatus>
    requires { (settings : StoreSettingsValue) (phi : ℕ) (names : List (List ℕ)) → AskForSites (argument_texts words.now) settings phi names
        → length disks.old ≡ length names }
    ensures text { IfOk result (λ text. (made : SiteReportValue) × AnswersSites D.Disk (argument_texts words.now) disks.old disks.new made
        × (text.items ≡ sites_text made)) }
    ensures read { OnOk result (ReadingEnds D.Disk (argument_texts words.now) disks.old disks.new Done) }
    ensures unread { IfErr result (EndsUnread D.Disk (argument_texts words.now) disks.old disks.new) }
{
    let line = read_line(alloc, words)?;
    let made = site_report(alloc, disks, &line.settings, line.phi)?;
    Ok(text_of(alloc, &made)?)
}
