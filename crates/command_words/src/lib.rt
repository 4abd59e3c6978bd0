//! The arguments of a command line: the command that they ask for, or their first fault.
#![tactic(auto)]

mod command;
mod command_word;
mod form_names;
mod given;
mod laws;
mod names;
mod opt;
mod parsing;
mod path_texts;
mod reading;
mod scanning;
mod settings;
mod values;
mod words_kind;

pub use command::Command;
pub use laws::arguments_ask_for_one_command;
pub use names::options_before_names;
pub use opt::Opt;
pub use path_texts::{PathTexts, paths};
pub use reading::{read_words, report_settings};
pub use settings::Settings;
pub use words_kind::{WordsKind, WordsRefusal};
