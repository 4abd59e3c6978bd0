//! Reading the arguments of a command line.

ghost use Rattle.std.specs.Prelude.{◌≡◌, ◌⊎◌, List, All, Contains, Ok, Err, IfOk, IfErr, unwrap_or};
ghost use Rattle.clap.specs.Words.{found_of, first_value};
ghost use Rattle.prefix_lattice.specs.{SpellsPrefix};
ghost use Rattle.command_words.specs.Arguments.{Argument, ArgumentText, AreWellFormed};
ghost use Rattle.command_words.specs.Matches.{MatchWords};
ghost use Rattle.command_words.specs.Settings.{HaveWideShare};
ghost use Rattle.command_words.specs.Arguments.{argument_texts};
ghost use Rattle.command_words.specs.Command.{AskForCommand, IsLimitedCommand, whole_side};
ghost use Rattle.command_words.specs.Given.{IsBadPrefix};
ghost use Rattle.command_words.specs.Names.{AskForReport, HasReportFault, IsFaultOfOptions, options_alone, report_options};
ghost use Rattle.command_words.specs.WordsRefusal.{HasWordsFault};
ghost use Rattle.command_words.specs.declared.command.Command.{Command};
ghost use Rattle.command_words.specs.declared.command.Command.TheVariants.{Demo as DemoOf, Report as ReportOf};
ghost use Rattle.command_words.specs.declared.command_word.CommandWord.{CommandWord};
ghost use Rattle.command_words.specs.declared.command_word.CommandWord.TheVariants.{Weigh, Report, Format, Audit, Make};
ghost use Rattle.command_words.specs.declared.command_word.CommandWord.TheVariants.{Demo, Watch};
ghost use Rattle.command_words.specs.declared.words_kind.WordsKind.{WordsKind};
ghost use Rattle.command_words.specs.declared.words_kind.WordsKind.TheVariants.{Bound};
ghost use Rattle.command_words.specs.declared.settings.Settings.{Settings};
ghost use Rattle.command_words.specs.declared.words_kind.WordsRefusal.TheVariants.{Bad, OutOfMemory};

use crate::command_word::CommandWord;
use crate::given::Given;
use crate::parsing::parse;
use crate::scanning::are_well_formed;
use crate::values::{bounded, given_of, settings_of, told_grain};
use crate::{Command, Settings, WordsKind, WordsRefusal};
use clap::ArgMatches;
use prefix_lattice::{Grain, Prefix, prefix_texts_have_one_reading};
use std::alloc::Global;
use watch_rules::Rule;

/// A command line: the name of its command, the command that it asks for, and what `clap` found in it.
#[derive(Drop)]
pub(crate) struct CommandLine<'a> {
    pub(crate) word: CommandWord,
    pub(crate) command: Command,
    pub(crate) matches: ArgMatches<'a>,
}

/// The command that the arguments `words` ask for. They are the name of a command, followed by its positionals
/// and options in any order. An option is `--name` and its value, or `--name=value`. Missing options have their
/// defaults, except those that the command requires.
///
/// Arguments that ask for no command are refused for their first fault: the command, then the form of the
/// arguments, then the prefix, then the values in the order of `Opt`, each as a number before its limits, then
/// for `report`, `audit` and `demo` the bound on `phi` times the capacity. Half bytes that don't fit the capacity are
/// outside the limits of `Opt::Bits`. The lengths of the prefix of `watch` are those of half bytes if `--bits` has the
/// value `4`, else those of whole bytes.
pub fn read_words(alloc: Global, words: &[&str]) -> Result<Command, WordsRefusal>
    ensures ok { IfOk result (AskForCommand (argument_texts words.now)) }
    ensures limited { IfOk result IsLimitedCommand }
    ensures bad { (kind : WordsKind) → result ≡ Err (Bad kind) → HasWordsFault (argument_texts words.now) kind }
    ensures complete { (command : Command) → AskForCommand (argument_texts words.now) command → (result ≡ Ok command) ⊎ (result ≡ Err OutOfMemory) }
    ensures exact { (kind : WordsKind) → HasWordsFault (argument_texts words.now) kind → (result ≡ Err (Bad kind)) ⊎ (result ≡ Err OutOfMemory) }
{
    prefix_texts_have_one_reading();
    command_in(alloc, words)
}

// The command that the arguments ask for, or what is wrong with them.
fn command_in(alloc: Global, words: &[&str]) -> Result<Command, WordsRefusal>
    ensures ok { IfOk result (AskForCommand (argument_texts words.now)) }
    ensures bad { (kind : WordsKind) → result ≡ Err (Bad kind) → HasWordsFault (argument_texts words.now) kind }
{
    Ok(read_line(alloc, words)?.command)
}

/// Reads the arguments.
pub(crate) fn read_line<'a>(
    alloc: Global,
    words: &'a [&'a str],
) -> Result<CommandLine<'a>, WordsRefusal>
    ensures ok { IfOk result (λ line. AskForCommand (argument_texts words.entry.now) line.command) }
    ensures told { IfOk result (λ line. MatchWords (argument_texts words.entry.now) line.word line.matches) }
    ensures bad { (kind : WordsKind) → result ≡ Err (Bad kind) → HasWordsFault (argument_texts words.entry.now) kind }
{
    let Some((first, behind)) = words.split_first() else {
        return Err(WordsRefusal::Bad(WordsKind::NoCommand));
    };
    let Some(word) = CommandWord::of(first) else {
        return Err(WordsRefusal::Bad(WordsKind::UnknownCommand));
    };
    if !are_well_formed(&word.form(), behind) {
        return Err(WordsRefusal::Bad(WordsKind::Refused));
    }
    let matches = parse(alloc, word, behind)?;
    Ok(CommandLine {
        word,
        command: command_of(word, &matches)?,
        matches,
    })
}

// The command asked for by arguments that begin with the name of this command.
fn command_of(word: CommandWord, matches: &ArgMatches<'_>) -> Result<Command, WordsKind>
    requires { (words : List ArgumentText) × MatchWords words word matches.now }
    ensures ok { (words : List ArgumentText) → MatchWords words word matches.now → IfOk result (AskForCommand words) }
    ensures err { (words : List ArgumentText) → MatchWords words word matches.now → IfErr result (HasWordsFault words) }
{
    match word {
        CommandWord::Weigh => weigh_command(matches),
        CommandWord::Report => report_command(matches),
        CommandWord::Format => format_command(matches),
        CommandWord::Audit => audit_command(matches),
        CommandWord::Make => make_command(matches),
        CommandWord::Demo => demo_command(matches),
        CommandWord::Watch => watch_command(matches),
    }
}

// The command asked for by arguments that begin with `weigh`.
fn weigh_command(matches: &ArgMatches<'_>) -> Result<Command, WordsKind>
    requires { (words : List ArgumentText) × MatchWords words Weigh matches.now }
    ensures ok { (words : List ArgumentText) → MatchWords words Weigh matches.now → IfOk result (AskForCommand words) }
    ensures err { (words : List ArgumentText) → MatchWords words Weigh matches.now → IfErr result (HasWordsFault words) }
{
    let source = matches.get_str("SRC").unwrap();
    let dest = matches.get_str("DST").unwrap();
    let prefix = prefix_of(Grain::Byte, source, dest)?;
    let settings = settings_of(matches)?;
    Ok(Command::Weigh { prefix, settings })
}

// The command asked for by arguments that begin with `report`.
fn report_command(matches: &ArgMatches<'_>) -> Result<Command, WordsKind>
    ensures ok { (words : List ArgumentText) → MatchWords words Report matches.now → IfOk result (AskForCommand words) }
    ensures err { (words : List ArgumentText) → MatchWords words Report matches.now → IfErr result (HasWordsFault words) }
{
    Ok(Command::Report(report_settings_of(matches)?))
}

/// The settings that `report` has with these words after its name: options of it alone. They are refused as `read_words`
/// refuses the whole command line.
pub fn report_settings(alloc: Global, behind: &[&str]) -> Result<Settings, WordsRefusal>
    ensures ok { IfOk result (AskForReport (argument_texts behind.now)) }
    ensures limited { IfOk result (λ settings. IsLimitedCommand (ReportOf settings)) }
    ensures bad { (kind : WordsKind) → result ≡ Err (Bad kind) → HasReportFault (argument_texts behind.now) kind }
    ensures complete { (settings : Settings) → AskForReport (argument_texts behind.now) settings → (result ≡ Ok settings) ⊎ (result ≡ Err OutOfMemory) }
    ensures exact { (kind : WordsKind) → HasReportFault (argument_texts behind.now) kind → (result ≡ Err (Bad kind)) ⊎ (result ≡ Err OutOfMemory) }
    ensures named { (options : List ArgumentText) (arguments : List Argument) → All (Contains report_options) options
        → AreWellFormed (options_alone options) (argument_texts behind.now) arguments → (kind : WordsKind) → result ≡ Err (Bad kind)
        → IsFaultOfOptions options kind }
{
    prefix_texts_have_one_reading();
    settings_behind_report(alloc, behind)
}

// The settings that `report` has with these words after its name, or what is wrong with them.
fn settings_behind_report(alloc: Global, behind: &[&str]) -> Result<Settings, WordsRefusal>
    ensures ok { IfOk result (AskForReport (argument_texts behind.now)) }
    ensures bad { (kind : WordsKind) → result ≡ Err (Bad kind) → HasReportFault (argument_texts behind.now) kind }
{
    if !are_well_formed(&CommandWord::Report.form(), behind) {
        return Err(WordsRefusal::Bad(WordsKind::Refused));
    }
    let matches = parse(alloc, CommandWord::Report, behind)?;
    Ok(report_settings_of(&matches)?)
}

// The settings that arguments that begin with `report` give.
fn report_settings_of(matches: &ArgMatches<'_>) -> Result<Settings, WordsKind>
    ensures ok { (words : List ArgumentText) → MatchWords words Report matches.now → IfOk result (λ settings. AskForCommand words (ReportOf settings)) }
    ensures err { (words : List ArgumentText) → MatchWords words Report matches.now → IfErr result (HasWordsFault words) }
{
    bounded(settings_of(matches)?)
}

// The command asked for by arguments that begin with `format`. Its tables may be too small for the default share.
fn format_command(matches: &ArgMatches<'_>) -> Result<Command, WordsKind>
    ensures ok { (words : List ArgumentText) → MatchWords words Format matches.now → IfOk result (AskForCommand words) }
    ensures err { (words : List ArgumentText) → MatchWords words Format matches.now → IfErr result (HasWordsFault words) }
{
    Ok(Command::Format(settings_of(matches)?))
}

// The command asked for by arguments that begin with `audit`.
fn audit_command(matches: &ArgMatches<'_>) -> Result<Command, WordsKind>
    ensures ok { (words : List ArgumentText) → MatchWords words Audit matches.now → IfOk result (AskForCommand words) }
    ensures err { (words : List ArgumentText) → MatchWords words Audit matches.now → IfErr result (HasWordsFault words) }
{
    Ok(Command::Audit(bounded(settings_of(matches)?)?))
}

// The command asked for by arguments that begin with `make`.
fn make_command(matches: &ArgMatches<'_>) -> Result<Command, WordsKind>
    ensures ok { (words : List ArgumentText) → MatchWords words Make matches.now → IfOk result (AskForCommand words) }
    ensures err { (words : List ArgumentText) → MatchWords words Make matches.now → IfErr result (HasWordsFault words) }
{
    let given = given_of(matches)?;
    Ok(Command::Make {
        seed: given.seed,
        frames: given.frames,
    })
}

// The command asked for by arguments that begin with `demo`.
fn demo_command(matches: &ArgMatches<'_>) -> Result<Command, WordsKind>
    ensures ok { (words : List ArgumentText) → MatchWords words Demo matches.now → IfOk result (AskForCommand words) }
    ensures err { (words : List ArgumentText) → MatchWords words Demo matches.now → IfErr result (HasWordsFault words) }
{
    let given = given_of(matches)?;
    demo_of(given)
}

// The demo of what values give, if its tables are large enough for its share.
fn demo_of(given: Given) -> Result<Command, WordsKind>
    ensures ok { IfOk result (λ command. (command ≡ DemoOf given.seed given.frames given.settings) × HaveWideShare given.settings) }
    ensures err { IfErr result (λ kind. (kind ≡ Bound) × (HaveWideShare given.settings → ⊥)) }
{
    Ok(Command::Demo {
        seed: given.seed,
        frames: given.frames,
        settings: bounded(given.settings)?,
    })
}

// The command asked for by arguments that begin with `watch`.
fn watch_command(matches: &ArgMatches<'_>) -> Result<Command, WordsKind>
    requires { (words : List ArgumentText) × MatchWords words Watch matches.now }
    ensures ok { (words : List ArgumentText) → MatchWords words Watch matches.now → IfOk result (AskForCommand words) }
    ensures err { (words : List ArgumentText) → MatchWords words Watch matches.now → IfErr result (HasWordsFault words) }
{
    let source = side_of(matches, "src");
    let dest = side_of(matches, "dst");
    let prefix = prefix_of(told_grain(matches), source, dest)?;
    let given = given_of(matches)?;
    Ok(Command::Watch {
        rule: Rule {
            prefix,
            limit: given.limit,
        },
        grain: given.settings.grain,
    })
}

// One side of the prefix of a rule: the value of the option, or all addresses.
fn side_of<'a>(matches: &ArgMatches<'a>, name: &str) -> &'a str
    ensures { result.now ≡ unwrap_or (first_value (found_of matches.now) name.now) whole_side }
{
    matches.get_str(name).unwrap_or("0.0.0.0/0")
}

// The prefix that two texts spell.
fn prefix_of(grain: Grain, source: &str, dest: &str) -> Result<Prefix, WordsKind>
    ensures ok { IfOk result (SpellsPrefix grain source.now dest.now) }
    ensures err { IfErr result (IsBadPrefix grain source.now dest.now) }
{
    match Prefix::parse(grain, source.as_bytes(), dest.as_bytes()) {
        Ok(prefix) => Ok(prefix),
        Err(fault) => Err(WordsKind::BadPrefix(fault)),
    }
}
