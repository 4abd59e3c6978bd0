//! The command `sites`: one report over the stores of several sites.

ghost use Rattle.std.specs.Prelude.{◌≡◌, ℕ, List, length, false, true, IfOk, OnErr};
ghost use Rattle.std.specs.List.{AllZip};
ghost use Rattle.std.specs.Process.{exit_status};
ghost use Rattle.checkpoint.specs.declared.settings.StoreSettings.{StoreSettings as StoreSettingsValue};
ghost use Rattle.hhh_engine.specs.{argument_texts};
ghost use Rattle.hhh.specs.Ending.{TellsEnding};
ghost use Rattle.hhh.specs.Named.{AreStoresOf, EndsAtStores};
ghost use Rattle.hhh.specs.Sites.{AreForSites};
ghost use Rattle.site_merge.specs.{AskForSites, SitesEnd, site_line, status_number};
ghost use Rattle.site_merge.specs.declared.status.SiteStatus.{SiteStatus as SiteStatusValue};
ghost use Rattle.system_io.specs.{IsUnusedDisk, sink_contents};

use crate::ending::finish;
use outside_io::{PathText, Sink};
use site_merge::{SiteWordsRefusal, run_sites, site_paths};
use slot_disk::Disk;
use std::alloc::{AllocError, Global};
use std::io::{Stdout, Write};
use std::process::ExitCode;
use system_io::{StdSink, StoreDisk, SystemStore};

/// Whether the first word is the name of this command.
pub(crate) fn are_for_sites(words: &[&str]) -> bool
    ensures yes { result ≡ true → AreForSites (argument_texts words.now) }
    ensures no { result ≡ false → AreForSites (argument_texts words.now) → ⊥ }
{
    let Some((first, _behind)) = words.split_first() else {
        return false;
    };
    *first == "sites"
}

/// Runs the command of these words over the stores that they name, and reports how it ended.
pub(crate) fn run_named_sites<W: Write + Drop>(
    rt: &HostRuntime,
    alloc: Global,
    words: &[&str],
    errors: &mut StdSink<W>,
) -> Result<ExitCode, AllocError>
    ensures ends { IfOk result (EndsAtStores ⟦<StoreDisk<'static> as Disk>⟧ ⟦<StdSink<Stdout> as Sink>⟧
        (argument_texts words.now) (sink_contents W.contents errors.old) (sink_contents W.contents errors.new)) }
    ensures silent { OnErr result (errors.new ≡ errors.old) }
{
    let stores = named_stores(alloc, words)?;
    let mut disks = disks_at(rt, alloc, stores)?;
    let mut output = StdSink::new(rt.stdout());
    Ok(sites_to_end(alloc, words, &mut disks, &mut output, errors))
}

// The stores that the words name. Words that ask for no report name none, and are refused before anything is read.
fn named_stores(alloc: Global, words: &[&str]) -> Result<Vec<PathText>, AllocError>
    ensures { IfOk result (λ stores. AreStoresOf (argument_texts words.now) stores.items) }
{
    match site_paths(alloc, words) {
        Ok(stores) => Ok(stores),
        Err(SiteWordsRefusal::Bad(_)) => Ok(Vec::new(alloc)),
        Err(SiteWordsRefusal::OutOfMemory) => Err(AllocError),
    }
}

// The files of stores at these paths, not yet opened.
fn disks_at(
    rt: &HostRuntime,
    alloc: Global,
    stores: Vec<PathText>,
) -> Result<Vec<StoreDisk<'_>>, AllocError>
    ensures { IfOk result (λ disks. AllZip IsUnusedDisk stores.items disks.items) }
{
    let mut disks = Vec::new(alloc);
    for path in stores {
        let store = SystemStore::at(rt, path)?;
        disks.push(StoreDisk::new(alloc, store)?)?;
    }
    Ok(disks)
}

// Runs the command over these disks, and ends as its status says: with its number, and its line on standard error.
fn sites_to_end<D: Disk, K: Sink, W: Write + Drop>(
    alloc: Global,
    words: &[&str],
    disks: &mut [D],
    output: &mut K,
    errors: &mut StdSink<W>,
) -> ExitCode
    requires { (settings : StoreSettingsValue) (phi : ℕ) (names : List (List ℕ)) → AskForSites (argument_texts words.now) settings phi names
        → length disks.old ≡ length names }
    ensures { (status : SiteStatusValue) × SitesEnd D.Disk K.Sink (argument_texts words.now) disks.old disks.new output.old output.new status
        × (exit_status result ≡ status_number status)
        × TellsEnding (sink_contents W.contents errors.old) (sink_contents W.contents errors.new) (status_number status) (site_line status) }
{
    let status = run_sites(alloc, words, disks, output);
    finish(alloc, &status, errors)
}
