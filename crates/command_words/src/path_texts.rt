//! The paths that a command line names.

ghost use Rattle.std.specs.Prelude.{◌≡◌, ◌⊎◌, IfOk, IsOk, Err, Contains, unwrap_or, []};
ghost use Rattle.clap.specs.Words.{found_of, first_value};
ghost use Rattle.command_words.specs.FormNames.{form_of};
ghost use Rattle.command_words.specs.PathTexts.{NamesPaths};
ghost use Rattle.command_words.specs.Arguments.{argument_texts};
ghost use Rattle.command_words.specs.Command.{AskForCommand};
ghost use Rattle.command_words.specs.WordsRefusal.{HasWordsFault};
ghost use Rattle.command_words.specs.declared.command.Command.{Command};
ghost use Rattle.command_words.specs.declared.words_kind.WordsKind.{WordsKind};
ghost use Rattle.command_words.specs.declared.words_kind.WordsRefusal.TheVariants.{Bad, OutOfMemory};

use crate::WordsRefusal;
use crate::reading::{CommandLine, read_line};
use outside_io::PathText;
use prefix_lattice::prefix_texts_have_one_reading;
use std::alloc::Global;

/// The paths that options name.
#[derive(Drop)]
pub struct PathTexts {
    /// The path of the capture: a file, or `-` for standard input, which is the default.
    pub capture: PathText,
    /// The path of the text of a session.
    pub report: PathText,
    /// The path of the store.
    pub store: PathText,
}

/// The paths that the arguments name. A path is empty if the command has no such option, or if the option is missing
/// and has no default. Arguments that ask for no command are refused as `read_words` refuses them.
pub fn paths(alloc: Global, words: &[&str]) -> Result<PathTexts, WordsRefusal>
    ensures ok { IfOk result (NamesPaths (argument_texts words.now)) }
    ensures asked { IfOk result (λ paths. (command : Command) × AskForCommand (argument_texts words.now) command) }
    ensures bad { (kind : WordsKind) → result ≡ Err (Bad kind) → HasWordsFault (argument_texts words.now) kind }
    ensures complete { (command : Command) → AskForCommand (argument_texts words.now) command → IsOk result ⊎ (result ≡ Err OutOfMemory) }
    ensures exact { (kind : WordsKind) → HasWordsFault (argument_texts words.now) kind → (result ≡ Err (Bad kind)) ⊎ (result ≡ Err OutOfMemory) }
{
    prefix_texts_have_one_reading();
    paths_in(alloc, words)
}

// The paths that the arguments name, or what is wrong with the arguments.
fn paths_in(alloc: Global, words: &[&str]) -> Result<PathTexts, WordsRefusal>
    ensures ok { IfOk result (NamesPaths (argument_texts words.now)) }
    ensures asked { IfOk result (λ _. (command : Command) × AskForCommand (argument_texts words.now) command) }
    ensures bad { (kind : WordsKind) → result ≡ Err (Bad kind) → HasWordsFault (argument_texts words.now) kind }
{
    let line = read_line(alloc, words)?;
    let capture = path_in(&line, "capture", "-");
    let report = path_in(&line, "report", "");
    let store = path_in(&line, "store", "");
    Ok(PathTexts {
        capture: PathText::of(alloc, capture)?,
        report: PathText::of(alloc, report)?,
        store: PathText::of(alloc, store)?,
    })
}

// The path that an option names: its value or the default, and no text if the command has no such option.
fn path_in<'a>(line: &CommandLine<'a>, name: &str, default: &'a str) -> &'a str
    ensures given { Contains (form_of line.now.word).options name.now
        → result.now ≡ unwrap_or (first_value (found_of line.now.matches) name.now) default.entry.now }
    ensures absent { (Contains (form_of line.now.word).options name.now → ⊥) → result.now ≡ [] }
{
    if !line.word.form().has_option(name) {
        return "";
    }
    line.matches.get_str(name).unwrap_or(default)
}
