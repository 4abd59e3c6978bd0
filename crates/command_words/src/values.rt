//! The settings that the values of options give.

ghost use Rattle.std.specs.Prelude.{◌≡◌, ◌≤◌, ◌↔◌, IfOk, IfErr, IsTrue};
ghost use Rattle.command_words.specs.Scanning.{text_at};
ghost use Rattle.command_words.specs.Options.{kind_of, number, place_of};
ghost use Rattle.command_words.specs.Settings.{GrainFits, SetsDeal, SetsFront, SetsGrain, SetsNumber, SetsAll, grain_told};
ghost use Rattle.command_words.specs.Settings.{SetsStore, SetsWeigh, HaveWideShare};
ghost use Rattle.command_words.specs.Matches.{store_in, values_in};
ghost use Rattle.command_words.specs.Values.{AreGood, AreGoodBefore, HasValueFault};
ghost use Rattle.command_words.specs.Given.{IsBadChoice, IsBadNumber, SetsGiven, SetsRunning};
ghost use Rattle.command_words.specs.declared.words_kind.WordsKind.TheVariants.{BadChoice, Bound, OutOfLimits};
ghost use Rattle.command_words.specs.declared.opt.Opt.TheVariants.{Seed, Weigh as ByWeigh, Deal, Block, Bits, Front, Limit};

use crate::given::Given;
use crate::{Opt, Settings, WordsKind};
use clap::ArgMatches;
use deal_rules::DealKind;
use frame_records::Weigh;
use prefix_lattice::{Grain, number_of};

// An option or a positional that takes a number.
struct Numeric {
    opt: Opt,
    least: u32,
    greatest: u32,
    default: u32,
}

// The most frames that are made.
const MOST_FRAMES: u32 = 1_000_000;

// A positional, which is never missing where a command has it.
const FRAMES: Numeric = Numeric {
    opt: Opt::Frames,
    least: 1,
    greatest: MOST_FRAMES,
    default: 1,
};

const SHARDS: Numeric = Numeric {
    opt: Opt::Shards,
    least: 1,
    greatest: 16,
    default: 4,
};

// The greatest capacity of tables.
const MOST_CAPACITY: u32 = 4096;

const CAPACITY: Numeric = Numeric {
    opt: Opt::Capacity,
    least: 2,
    greatest: MOST_CAPACITY,
    default: 512,
};

const PHI: Numeric = Numeric {
    opt: Opt::Phi,
    least: 1,
    greatest: 1_000_000,
    default: 10_000,
};

const BLOCK: Numeric = Numeric {
    opt: Opt::Block,
    least: 1,
    greatest: 65_536,
    default: 1024,
};

const WORKERS: Numeric = Numeric {
    opt: Opt::Workers,
    least: 1,
    greatest: 16,
    default: 4,
};

const CALLERS: Numeric = Numeric {
    opt: Opt::Callers,
    least: 0,
    greatest: 8,
    default: 0,
};

const ROUNDS: Numeric = Numeric {
    opt: Opt::Rounds,
    least: 0,
    greatest: 32,
    default: 0,
};

// What threads do while records are folded.
#[derive(Drop)]
struct Running {
    block: u32,
    workers: u32,
    callers: u32,
    rounds: u32,
}

// The least product of `phi` and the capacity at which no table hides a heavy prefix.
const LEAST_WIDTH: u64 = 2_000_000;

/// The settings that the options give, or the fault of the first wrong value, be it an option's or a positional's.
pub(crate) fn settings_of(matches: &ArgMatches<'_>) -> Result<Settings, WordsKind>
    ensures ok { IfOk result (SetsAll (values_in matches.now) (store_in matches.now)) }
    ensures good { IfOk result (λ _. AreGood (values_in matches.now)) }
    ensures err { IfErr result (HasValueFault (values_in matches.now)) }
{
    Ok(given_of(matches)?.settings)
}

/// What options and positionals give, or the fault of the first wrong value.
pub(crate) fn given_of(matches: &ArgMatches<'_>) -> Result<Given, WordsKind>
    ensures ok { IfOk result (SetsGiven (values_in matches.now) (store_in matches.now)) }
    ensures err { IfErr result (HasValueFault (values_in matches.now)) }
{
    let seed = seed_of(text_of(matches, Opt::Seed))?;
    let frames = FRAMES.read(text_of(matches, Opt::Frames))?;
    let settings = options_of(matches)?;
    let limit = limit_of(text_of(matches, Opt::Limit))?;
    Ok(Given {
        seed,
        frames,
        settings,
        limit,
    })
}

/// The grain by which the lengths of a prefix are checked, before any value is: half bytes only for the value `4`.
pub(crate) fn told_grain(matches: &ArgMatches<'_>) -> Grain
    ensures { result ≡ grain_told (values_in matches.now Bits) }
{
    match text_of(matches, Opt::Bits) {
        Some("4") => Grain::Nibble,
        _ => Grain::Byte,
    }
}

// The settings that the options give, or the fault of the first wrong value. The values before them are good.
fn options_of(matches: &ArgMatches<'_>) -> Result<Settings, WordsKind>
    requires { AreGoodBefore (values_in matches.now) (place_of ByWeigh) }
    ensures ok { IfOk result (SetsAll (values_in matches.now) (store_in matches.now)) }
    ensures err { IfErr result (HasValueFault (values_in matches.now)) }
{
    let weigh = weigh_of(text_of(matches, Opt::Weigh))?;
    let shards = SHARDS.read(text_of(matches, Opt::Shards))?;
    let capacity = CAPACITY.read(text_of(matches, Opt::Capacity))?;
    let phi = PHI.read(text_of(matches, Opt::Phi))?;
    let deal = deal_of(text_of(matches, Opt::Deal))?;
    let running = running_of(matches)?;
    let grain = grain_of(text_of(matches, Opt::Bits))?;
    check_grain(grain, capacity)?;
    let front = front_of(text_of(matches, Opt::Front))?;
    Ok(Settings {
        shards,
        capacity,
        phi,
        block: running.block,
        workers: running.workers,
        callers: running.callers,
        rounds: running.rounds,
        weigh,
        deal,
        grain,
        front,
        store: names_store(matches),
    })
}

// What the options of threads give, or the fault of the first wrong value. The values of all options before them are good.
fn running_of(matches: &ArgMatches<'_>) -> Result<Running, WordsKind>
    requires { AreGoodBefore (values_in matches.now) (place_of Block) }
    ensures ok { IfOk result (SetsRunning (values_in matches.now)) }
    ensures good { IfOk result (λ _. AreGoodBefore (values_in matches.now) (place_of Bits)) }
    ensures err { IfErr result (HasValueFault (values_in matches.now)) }
{
    let block = BLOCK.read(text_of(matches, Opt::Block))?;
    let workers = WORKERS.read(text_of(matches, Opt::Workers))?;
    let callers = CALLERS.read(text_of(matches, Opt::Callers))?;
    let rounds = ROUNDS.read(text_of(matches, Opt::Rounds))?;
    Ok(Running {
        block,
        workers,
        callers,
        rounds,
    })
}

// Whether tables of this capacity can be kept by this grain: nothing, or the fault of the grain.
fn check_grain(grain: Grain, capacity: u32) -> Result<(), WordsKind>
    ensures ok { IfOk result (λ _. GrainFits grain capacity) }
    ensures err { IfErr result (λ kind. (kind ≡ OutOfLimits Bits) × (GrainFits grain capacity → ⊥)) }
{
    if capacity > grain.greatest_capacity() {
        return Err(WordsKind::OutOfLimits(Opt::Bits));
    }
    Ok(())
}

/// The settings themselves, if their tables are large enough for their share.
pub(crate) fn bounded(settings: Settings) -> Result<Settings, WordsKind>
    ensures ok { IfOk result (λ same. (same ≡ settings) × HaveWideShare settings) }
    ensures err { IfErr result (λ kind. (kind ≡ Bound) × (HaveWideShare settings → ⊥)) }
{
    if !is_wide(&settings) {
        return Err(WordsKind::Bound);
    }
    Ok(settings)
}

// Whether tables of this capacity are large enough for the share `phi`.
fn is_wide(settings: &Settings) -> bool
    ensures { IsTrue result ↔ HaveWideShare settings.now }
{
    u64::from(settings.phi) * u64::from(settings.capacity) >= LEAST_WIDTH
}

// Whether the arguments name a store.
fn names_store(matches: &ArgMatches<'_>) -> bool
    ensures { SetsStore (store_in matches.now) result }
{
    matches.get_str("store").is_some()
}

// The value of an option, if it is present.
fn text_of<'a>(matches: &ArgMatches<'a>, opt: Opt) -> Option<&'a str>
    ensures { text_at result ≡ values_in matches.now opt }
{
    matches.get_str(opt.name())
}

impl Numeric {
    // The number that the option sets: its value if it is present, else the default.
    fn read(&self, text: Option<&str>) -> Result<u32, WordsKind>
        requires { kind_of self.now.opt ≡ number self.now.least self.now.greatest self.now.default }
        ensures ok { IfOk result (SetsNumber self.now.opt (text_at text.entry)) }
        ensures err { IfErr result (IsBadNumber self.now.opt (text_at text.entry)) }
    {
        let Some(text) = text else {
            return Ok(self.default);
        };
        let Some(value) = number_of(text.as_bytes()) else {
            return Err(WordsKind::BadNumber(self.opt));
        };
        if value < u64::from(self.least) || u64::from(self.greatest) < value {
            return Err(WordsKind::OutOfLimits(self.opt));
        }
        Ok(value as u32)
    }
}

// The seed, which may be any number. It is never missing where a command has it.
fn seed_of(text: Option<&str>) -> Result<u64, WordsKind>
    ensures ok { IfOk result (SetsNumber Seed (text_at text.entry)) }
    ensures err { IfErr result (IsBadNumber Seed (text_at text.entry)) }
{
    let Some(text) = text else {
        return Ok(0);
    };
    match number_of(text.as_bytes()) {
        Some(seed) => Ok(seed),
        None => Err(WordsKind::BadNumber(Opt::Seed)),
    }
}

// The limit of a watch, which may be any number of 64 bits but 0. It is never missing where a command has it.
fn limit_of(text: Option<&str>) -> Result<u64, WordsKind>
    ensures ok { IfOk result (SetsNumber Limit (text_at text.entry)) }
    ensures some { IfOk result (λ limit. 1 ≤ limit) }
    ensures err { IfErr result (IsBadNumber Limit (text_at text.entry)) }
{
    let Some(text) = text else {
        return Ok(1);
    };
    match number_of(text.as_bytes()) {
        Some(0) => Err(WordsKind::OutOfLimits(Opt::Limit)),
        Some(limit) => Ok(limit),
        None => Err(WordsKind::BadNumber(Opt::Limit)),
    }
}

// The grain whose steps are of as many bits as the option sets.
fn grain_of(text: Option<&str>) -> Result<Grain, WordsKind>
    ensures ok { IfOk result (SetsGrain (text_at text.entry)) }
    ensures err { IfErr result (IsBadNumber Bits (text_at text.entry)) }
{
    let Some(text) = text else {
        return Ok(Grain::Byte);
    };
    match number_of(text.as_bytes()) {
        Some(8) => Ok(Grain::Byte),
        Some(4) => Ok(Grain::Nibble),
        Some(_) => Err(WordsKind::OutOfLimits(Opt::Bits)),
        None => Err(WordsKind::BadNumber(Opt::Bits)),
    }
}

fn weigh_of(text: Option<&str>) -> Result<Weigh, WordsKind>
    ensures ok { IfOk result (SetsWeigh (text_at text.entry)) }
    ensures err { IfErr result (λ kind. IsBadChoice ByWeigh (text_at text.entry) kind) }
{
    match text {
        None | Some("bytes") => Ok(Weigh::Bytes),
        Some("packets") => Ok(Weigh::Packets),
        Some(_) => Err(WordsKind::BadChoice(Opt::Weigh)),
    }
}

fn deal_of(text: Option<&str>) -> Result<DealKind, WordsKind>
    ensures ok { IfOk result (SetsDeal (text_at text.entry)) }
    ensures err { IfErr result (λ kind. IsBadChoice Deal (text_at text.entry) kind) }
{
    match text {
        None | Some("round") => Ok(DealKind::RoundRobin),
        Some("source") => Ok(DealKind::BySource),
        Some("free") => Ok(DealKind::Free),
        Some(_) => Err(WordsKind::BadChoice(Opt::Deal)),
    }
}

fn front_of(text: Option<&str>) -> Result<bool, WordsKind>
    ensures ok { IfOk result (SetsFront (text_at text.entry)) }
    ensures err { IfErr result (λ kind. IsBadChoice Front (text_at text.entry) kind) }
{
    match text {
        None | Some("no") => Ok(false),
        Some("yes") => Ok(true),
        Some(_) => Err(WordsKind::BadChoice(Opt::Front)),
    }
}
