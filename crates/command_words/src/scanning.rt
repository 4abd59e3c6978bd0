//! The scan that decides whether words are well formed.

ghost use Rattle.std.specs.Prelude.{◌≡◌, ◌↔◌, ◌<◌, ◌≤◌, List, drop, length, All, Contains, Some, IfSome, IfNone};
ghost use Rattle.std.specs.Prelude.{IsTrue};
ghost use Rattle.command_words.specs.Arguments.{Argument, AreWellFormed, BeginWith, IsValue};
ghost use Rattle.command_words.specs.Arguments.{SpellAll, ArgumentText, names_in};
ghost use Rattle.command_words.specs.Scanning.{scanned_form, text_at, scanned_name, FitsRest};
ghost use Rattle.command_words.specs.Arguments.{argument_texts};

use crate::form_names::FormNames;

/// Whether words are well formed: they are the positionals of the form, each once, and options of it, each at most
/// once and the required ones among them, in any order.
pub(crate) fn are_well_formed(form: &FormNames<'_>, behind: &[&str]) -> bool
    ensures { IsTrue result ↔ ((arguments : List Argument) × AreWellFormed (scanned_form form.now) (argument_texts behind.now) arguments) }
{
    fit(form, behind, form.positionals.len()) && are_present(form.required, behind)
}

// Whether options of all these names are present among the arguments that the words spell.
fn are_present(names: &[&str], words: &[&str]) -> bool
    ensures { (arguments : List Argument) → SpellAll (argument_texts words.now) arguments
        → IsTrue result ↔ All (λ name. Contains (names_in arguments) name) (argument_texts names.now) }
{
    for name in names {
        if !stands(words, name) {
            return false;
        }
    }
    true
}

// Whether the words spell exactly this many positionals, and options of the form, none of them twice. An
// argument that doesn't fit ends the scan, so it calls itself at most once for each positional and each option.
fn fit(form: &FormNames<'_>, words: &[&str], positionals: usize) -> bool
    ensures { IsTrue result ↔ ((arguments : List Argument) × FitsRest (scanned_form form.now) positionals (argument_texts words.now) arguments) }
{
    let Some(front) = front_of(words) else {
        return words.is_empty() && positionals == 0;
    };
    let others = &words[front.words..];
    let Some(name) = front.option else {
        return positionals > 0 && fit(form, others, positionals - 1);
    };
    if !form.has_option(name) {
        return false;
    }
    if stands(others, name) {
        return false;
    }
    fit(form, others, positionals)
}

// Whether an option of this name is present among the arguments that the words spell.
fn stands(words: &[&str], name: &str) -> bool
    ensures { (arguments : List Argument) → SpellAll (argument_texts words.now) arguments
        → IsTrue result ↔ Contains (names_in arguments) name.now }
{
    let mut from = 0;
    'fronts: while let Some(front) = front_of(&words[from..]) {
        if front.names(name) {
            return true;
        }
        from += front.words;
    }
    false
}

/// The argument at the front of words.
#[derive(Clone, Copy)]
pub(crate) struct Front<'a> {
    // How many words spell the argument.
    pub(crate) words: usize,
    // The name of its option, or `None` for a positional.
    pub(crate) option: Option<&'a str>,
}

impl Front<'_> {
    // Whether the argument is an option of this name.
    fn names(&self, name: &str) -> bool
        ensures { IsTrue result ↔ (text_at self.now.option ≡ Some name.now) }
    {
        match self.option {
            Some(option) => option == name,
            None => false,
        }
    }
}

/// The argument that the first words spell, if they spell one.
pub(crate) fn front_of<'a>(words: &[&'a str]) -> Option<Front<'a>>
    ensures fits { IfSome result (λ front. (0 < front.words) × (front.words ≤ length words.now)) }
    ensures some { IfSome result (λ front. (argument : Argument)
        × BeginWith (argument_texts words.now) argument (argument_texts (drop front.words words.now))
        × (text_at front.option ≡ scanned_name argument)) }
    ensures none { IfNone result ((argument : Argument) (others : List ArgumentText) → BeginWith (argument_texts words.now) argument others → ⊥) }
{
    let (word, others) = words.split_first()?;
    let Some(text) = word.strip_prefix("--") else {
        return is_value(word).then_some(Front {
            words: 1,
            option: None,
        });
    };
    if let Some((name, value)) = text.split_once('=') {
        return is_value(value).then_some(Front {
            words: 1,
            option: Some(name),
        });
    }
    let (value, _) = others.split_first()?;
    is_value(value).then_some(Front {
        words: 2,
        option: Some(text),
    })
}

/// Whether a text can be a positional or a value.
pub(crate) fn is_value(text: &str) -> bool
    ensures { IsTrue result ↔ IsValue text.now }
{
    !text.is_empty() && !text.starts_with('-')
}
