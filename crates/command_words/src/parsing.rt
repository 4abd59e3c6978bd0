//! Reading well-formed arguments with `clap`.

ghost use Rattle.std.specs.Prelude.{◌≡◌, List, IfOk};
ghost use Rattle.clap.specs.Words.{app_of};
ghost use Rattle.command_words.specs.Arguments.{Argument, AreWellFormed};
ghost use Rattle.command_words.specs.FormNames.{form_of, word_of};
ghost use Rattle.command_words.specs.Matches.{AreMatchesOf};
ghost use Rattle.command_words.specs.Parsing.{parser_for, with_options, with_positionals};
ghost use Rattle.command_words.specs.Arguments.{argument_texts};

use crate::command_word::CommandWord;
use clap::error::ErrorKind;
use clap::{Arg, ArgMatches, Command};
use std::alloc::{AllocError, Global};

/// Reads the well-formed arguments after the command's name.
pub(crate) fn parse<'a>(
    alloc: Global,
    command: CommandWord,
    behind: &'a [&'a str],
) -> Result<ArgMatches<'a>, AllocError>
    requires { (arguments : List Argument) × AreWellFormed (form_of command) (argument_texts behind.now) arguments }
    ensures { IfOk result (λ matches. (arguments : List Argument) → AreWellFormed (form_of command) (argument_texts behind.entry.now) arguments
        → AreMatchesOf (form_of command) arguments matches) }
{
    match parser_of(alloc, command)?.try_get_matches_from(behind) {
        Ok(matches) => Ok(matches),
        Err(error) if error.kind() == ErrorKind::OutOfMemory => Err(AllocError),
        Err(_) => unreachable!(),
    }
}

// The parser of a command: it knows the command's positionals and options, and nothing else, not even `--help`.
fn parser_of<'a>(alloc: Global, command: CommandWord) -> Result<Command<'a>, AllocError>
    ensures { IfOk result (λ parser. app_of parser ≡ parser_for (word_of command) (form_of command)) }
{
    let parser = Command::new(alloc, command.word())
        .no_binary_name(true)
        .disable_help_flag(true);
    let form = command.form();
    let parser = take_positionals(alloc, parser, form.positionals)?;
    take_options(alloc, parser, form.options)
}

// The parser with positionals of these names added.
fn take_positionals<'a>(
    alloc: Global,
    mut parser: Command<'a>,
    names: &'a [&'a str],
) -> Result<Command<'a>, AllocError>
    ensures { IfOk result (λ after. app_of after ≡ with_positionals (app_of parser.entry) (argument_texts names.entry.now)) }
{
    for name in names {
        parser = parser.arg(Arg::new(alloc, name))?;
    }
    Ok(parser)
}

// The parser with options of these names added.
fn take_options<'a>(
    alloc: Global,
    mut parser: Command<'a>,
    names: &'a [&'a str],
) -> Result<Command<'a>, AllocError>
    ensures { IfOk result (λ after. app_of after ≡ with_options (app_of parser.entry) (argument_texts names.entry.now)) }
{
    for name in names {
        parser = parser.arg(Arg::new(alloc, name).long(name))?;
    }
    Ok(parser)
}
