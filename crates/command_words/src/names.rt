//! Options that are followed by names.

ghost use Rattle.std.specs.Prelude.{◌≡◌, ◌≤◌, ◌↔◌, List, length, take, drop, All, Some, IfSome, IsTrue};
ghost use Rattle.command_words.specs.Arguments.{Argument, ArgumentText, IsValue, argument_texts};
ghost use Rattle.command_words.specs.Names.{AreOptionsThenNames, BeginWithOptions, options_alone};
ghost use Rattle.command_words.specs.Scanning.{scanned_form};

use crate::form_names::FormNames;
use crate::scanning::{are_well_formed, front_of, is_value};

static NONE: [&str; 0] = [];

/// How many of the words are options of these names and their values, if one or more names follow them: the words are
/// options, each at most once, and then texts that can be values.
pub fn options_before_names(options: &[&str], words: &[&str]) -> Option<usize>
    ensures some { IfSome result (λ count. AreOptionsThenNames (argument_texts options.now) (argument_texts words.now)
        (argument_texts (take count words.now)) (argument_texts (drop count words.now))) }
    ensures exact { (front names : List ArgumentText) → AreOptionsThenNames (argument_texts options.now) (argument_texts words.now) front names
        → result ≡ Some (length front) }
{
    let count = leading_options(words);
    if count == words.len() {
        return None;
    }
    if !are_well_formed(&form_of_options(options), &words[..count]) {
        return None;
    }
    if !are_values(&words[count..]) {
        return None;
    }
    Some(count)
}

// What is taken where there are options of these names alone.
fn form_of_options<'a>(options: &'a [&'a str]) -> FormNames<'a>
    ensures { scanned_form result ≡ options_alone (argument_texts options.entry.now) }
{
    FormNames {
        positionals: NONE.as_slice(),
        options,
        required: NONE.as_slice(),
    }
}

// Of how many words the options are that the words begin with.
fn leading_options(words: &[&str]) -> usize
    ensures few { result ≤ length words.now }
    ensures all { (front names : List ArgumentText) (arguments : List Argument)
        → BeginWithOptions (argument_texts words.now) front names arguments → result ≡ length front }
{
    let mut from = 0;
    'fronts: while let Some(front) = front_of(&words[from..]) {
        let Some(_name) = front.option else {
            return from;
        };
        from += front.words;
    }
    from
}

// Whether each of the words can be a value.
fn are_values(words: &[&str]) -> bool
    ensures { IsTrue result ↔ All IsValue (argument_texts words.now) }
{
    for word in words {
        if !is_value(word) {
            return false;
        }
    }
    true
}
