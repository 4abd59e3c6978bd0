//! The words of `sites`: options, then the names of stores.

ghost use Rattle.std.specs.Prelude.{◌≡◌, ◌⊎◌, ℕ, List, Err, length, map, IfOk, IsOk, IsOkAnd};
ghost use Rattle.checkpoint.specs.declared.settings.StoreSettings.{StoreSettings as StoreSettingsValue};
ghost use Rattle.command_words.specs.{IsFaultOfOptions, IsNamedOption, argument_texts};
ghost use Rattle.command_words.specs.declared.words_kind.WordsKind.{WordsKind as ReportFault};
ghost use Rattle.command_words.specs.declared.words_kind.WordsRefusal.TheVariants as report;
ghost use Rattle.site_merge.specs.SiteLine.{CanReport, IsLine, IsSiteRefusal};
ghost use Rattle.site_merge.specs.SiteWords.{AskBehind, AskForSites, HasFaultBehind, HasSiteFault, IsOptionFault, NamesSites};
ghost use Rattle.site_merge.specs.SiteWords.{opt_of, site_options, stored_settings};
ghost use Rattle.site_merge.specs.declared.site_words.SiteWords.{SiteWords as SiteWordsValue};
ghost use Rattle.site_merge.specs.declared.site_words.SiteWordsRefusal.TheVariants.{Bad, OutOfMemory};

use crate::{SiteOpt, SiteWords, SiteWordsRefusal};
use checkpoint::StoreSettings;
use command_words::{
    Opt, Settings, WordsKind, WordsRefusal, options_before_names, report_settings,
};
use outside_io::PathText;
use std::alloc::{AllocError, Global};

static OPTIONS: [&str; 6] = ["weigh", "shards", "capacity", "phi", "deal", "bits"];

// The most stores of a report.
const MOST_SITES: usize = 8;

/// What the words of `sites` ask for.
#[derive(Drop)]
pub(crate) struct SiteLine<'a> {
    /// The settings that each of the stores must have.
    pub(crate) settings: StoreSettings,
    /// The least share of the sum, in parts per million, at which a prefix is heavy.
    pub(crate) phi: u32,
    /// The names of the stores.
    pub(crate) names: &'a [&'a str],
}

/// The paths of the stores that the words of `sites` name, in their order. The first word may be any; then come the options
/// `weigh`, `shards`, `capacity`, `phi`, `deal` and `bits`, each at most once and as for `report`, and after them 1 to 8
/// names. Other words are refused for their first fault: their form, the number of names, the values of the options in
/// this order, and the bound on `phi` times the capacity.
pub fn site_paths(alloc: Global, words: &[&str]) -> Result<Vec<PathText>, SiteWordsRefusal>
    ensures ok { IfOk result (λ paths. NamesSites (argument_texts words.now) paths.items) }
    ensures bad { (fault : SiteWordsValue) → result ≡ Err (Bad fault) → HasSiteFault (argument_texts words.now) fault }
    ensures complete { (settings : StoreSettingsValue) (phi : ℕ) (names : List (List ℕ)) → AskForSites (argument_texts words.now) settings phi names
        → IsOkAnd result (λ paths. paths.items ≡ names) ⊎ (result ≡ Err OutOfMemory) }
    ensures exact { (fault : SiteWordsValue) → HasSiteFault (argument_texts words.now) fault
        → (result ≡ Err (Bad fault)) ⊎ (result ≡ Err OutOfMemory) }
{
    let line = read_line(alloc, words)?;
    Ok(paths_of(alloc, line.names)?)
}

// The paths of these names.
fn paths_of(alloc: Global, names: &[&str]) -> Result<Vec<PathText>, AllocError>
    ensures { IfOk result (λ paths. paths.items ≡ argument_texts names.now) }
{
    let mut paths = Vec::new(alloc);
    for name in names {
        paths.push(PathText::of(alloc, name)?)?;
    }
    Ok(paths)
}

/// Reads the words of `sites`.
pub(crate) fn read_line<'a>(
    alloc: Global,
    words: &'a [&'a str],
) -> Result<SiteLine<'a>, SiteWordsRefusal>
    ensures ok { IfOk result (λ line. AskForSites (argument_texts words.entry.now) line.settings line.phi (argument_texts line.names.now)) }
    ensures fit { IfOk result (λ line. CanReport line.settings line.phi (length line.names.now)) }
    ensures bad { (fault : SiteWordsValue) → result ≡ Err (Bad fault) → HasSiteFault (argument_texts words.entry.now) fault }
    ensures complete { (settings : StoreSettingsValue) (phi : ℕ) (names : List (List ℕ))
        → AskForSites (argument_texts words.entry.now) settings phi names
        → IsOkAnd result (λ line. IsLine line settings phi names) ⊎ (result ≡ Err OutOfMemory) }
    ensures exact { (fault : SiteWordsValue) → HasSiteFault (argument_texts words.entry.now) fault
        → (result ≡ Err (Bad fault)) ⊎ (result ≡ Err OutOfMemory) }
{
    let Some((_first, behind)) = words.split_first() else {
        return Err(SiteWordsRefusal::Bad(SiteWords::Refused));
    };
    read_behind(alloc, behind)
}

// Reads the words behind the first.
fn read_behind<'a>(alloc: Global, behind: &'a [&'a str]) -> Result<SiteLine<'a>, SiteWordsRefusal>
    ensures ok { IfOk result (λ line. AskBehind (argument_texts behind.entry.now) line.settings line.phi (argument_texts line.names.now)) }
    ensures fit { IfOk result (λ line. CanReport line.settings line.phi (length line.names.now)) }
    ensures bad { (fault : SiteWordsValue) → result ≡ Err (Bad fault) → HasFaultBehind (argument_texts behind.entry.now) fault }
    ensures complete { (settings : StoreSettingsValue) (phi : ℕ) (names : List (List ℕ))
        → AskBehind (argument_texts behind.entry.now) settings phi names
        → IsOkAnd result (λ line. IsLine line settings phi names) ⊎ (result ≡ Err OutOfMemory) }
    ensures exact { (fault : SiteWordsValue) → HasFaultBehind (argument_texts behind.entry.now) fault
        → (result ≡ Err (Bad fault)) ⊎ (result ≡ Err OutOfMemory) }
{
    let Some(count) = options_before_names(option_names(), behind) else {
        return Err(SiteWordsRefusal::Bad(SiteWords::Refused));
    };
    if behind.len() - count > MOST_SITES {
        return Err(SiteWordsRefusal::Bad(SiteWords::TooMany));
    }
    match report_settings(alloc, &behind[..count]) {
        Ok(all) => Ok(SiteLine {
            settings: store_settings(&all),
            phi: all.phi,
            names: &behind[count..],
        }),
        Err(refusal) => Err(refusal_of(refusal)),
    }
}

// The names of the options.
fn option_names<'a>() -> &'a [&'a str]
    ensures { argument_texts result.now ≡ site_options }
{
    OPTIONS.as_slice()
}

// The settings of the stores, of all the settings of a report.
fn store_settings(all: &Settings) -> StoreSettings
    ensures { result ≡ stored_settings all.now }
{
    StoreSettings {
        shards: all.shards,
        capacity: all.capacity,
        weigh: all.weigh,
        deal: all.deal,
        grain: all.grain,
    }
}

// Why the words are refused where their options are refused behind `report`.
fn refusal_of(refusal: WordsRefusal) -> SiteWordsRefusal
    requires { (kind : ReportFault) → refusal ≡ report.Bad kind → IsFaultOfOptions site_options kind }
    ensures { IsSiteRefusal refusal result }
{
    match refusal {
        WordsRefusal::Bad(kind) => SiteWordsRefusal::Bad(fault_of(kind)),
        WordsRefusal::OutOfMemory => SiteWordsRefusal::OutOfMemory,
    }
}

// What is wrong with the words where this is wrong with their options.
fn fault_of(kind: WordsKind) -> SiteWords
    requires { IsFaultOfOptions site_options kind }
    ensures { IsOptionFault kind result }
{
    match kind {
        WordsKind::BadNumber(opt) => SiteWords::BadNumber(site_opt(opt)),
        WordsKind::OutOfLimits(opt) => SiteWords::OutOfLimits(site_opt(opt)),
        WordsKind::BadChoice(opt) => SiteWords::BadChoice(site_opt(opt)),
        WordsKind::Bound => SiteWords::Bound,
        _ => unreachable!(),
    }
}

// The option of `sites` that an option of a command line is.
fn site_opt(opt: Opt) -> SiteOpt
    requires { IsNamedOption site_options opt }
    ensures { opt_of result ≡ opt }
{
    match opt {
        Opt::Weigh => SiteOpt::Weigh,
        Opt::Shards => SiteOpt::Shards,
        Opt::Capacity => SiteOpt::Capacity,
        Opt::Phi => SiteOpt::Phi,
        Opt::Deal => SiteOpt::Deal,
        Opt::Bits => SiteOpt::Bits,
        _ => unreachable!(),
    }
}
