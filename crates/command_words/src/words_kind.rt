//! What is wrong with the arguments of a command line.

ghost use Rattle.std.specs.Prelude.{◌≡◌};

use crate::Opt;
use prefix_lattice::PrefixFault;
use std::alloc::AllocError;
use thiserror::Error;

/// What is wrong with the arguments. The first fault is reported.
#[derive(Clone, Copy, Debug, PartialEq, Eq, Error)]
pub enum WordsKind {
    /// There are no arguments.
    #[error("no command")]
    NoCommand,
    /// The first argument is not the name of a command.
    #[error("unknown command")]
    UnknownCommand,
    /// The arguments after the command are not its positionals, each once, and options of its own, each at most once and
    /// the required ones among them.
    #[error("refused")]
    Refused,
    /// The texts of the prefix have this fault.
    #[error("prefix: {0}")]
    BadPrefix(PrefixFault),
    /// The value of the option or positional is not a number.
    #[error("{0}: no number")]
    BadNumber(Opt),
    /// The value of the option or positional is a number outside its limits. For `Opt::Bits` it may also be that tables
    /// of the capacity are not kept by half bytes.
    #[error("{0}: outside its limits")]
    OutOfLimits(Opt),
    /// The value of the option is none of its choices.
    #[error("{0}: no such choice")]
    BadChoice(Opt),
    /// The tables are too small for the share `phi`: `phi` times `capacity` is below 2,000,000.
    #[error("phi times capacity is below 2000000")]
    Bound,
}

/// Why arguments were not read.
#[derive(Clone, Copy, Debug, PartialEq, Eq, Error)]
pub enum WordsRefusal {
    /// The arguments have this fault.
    #[error("{0}")]
    Bad(WordsKind),
    /// Memory ran out.
    #[error("out of memory")]
    OutOfMemory,
}

impl From<WordsKind> for WordsRefusal {
    ghost use Rattle.command_words.specs.declared.words_kind.WordsRefusal.TheVariants.{Bad};

    ghost from_gives = { λ kind refusal. refusal ≡ Bad kind };

    fn from(kind: WordsKind) -> WordsRefusal {
        WordsRefusal::Bad(kind)
    }
}

impl From<AllocError> for WordsRefusal {
    ghost use Rattle.command_words.specs.declared.words_kind.WordsRefusal.TheVariants.{OutOfMemory};

    ghost from_gives = { λ _ refusal. refusal ≡ OutOfMemory };

    fn from(_error: AllocError) -> WordsRefusal {
        WordsRefusal::OutOfMemory
    }
}
