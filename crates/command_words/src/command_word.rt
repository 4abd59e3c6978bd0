//! The names of commands, and what each command takes.

ghost use Rattle.std.specs.Prelude.{◌≡◌, ◌≢◌, IfSome, IfNone};
ghost use Rattle.command_words.specs.FormNames.{word_of, form_of};
ghost use Rattle.command_words.specs.Scanning.{scanned_form};
ghost use Rattle.command_words.specs.declared.command_word.CommandWord.{CommandWord};

use crate::form_names::FormNames;

/// The name of a command, which is the first argument of a command line.
#[derive(Clone, Copy, Debug, PartialEq, Eq)]
pub enum CommandWord {
    Weigh,
    Report,
    Format,
    Audit,
    Make,
    Demo,
    Watch,
}

static NONE: [&str; 0] = [];

static WEIGH_POSITIONALS: [&str; 2] = ["SRC", "DST"];

static WEIGH_OPTIONS: [&str; 3] = ["capture", "weigh", "front"];

static REPORT_OPTIONS: [&str; 13] = [
    "capture", "weigh", "shards", "capacity", "phi", "deal", "block", "workers", "callers",
    "rounds", "bits", "front", "store",
];

static FORMAT_OPTIONS: [&str; 6] = ["weigh", "shards", "capacity", "deal", "bits", "store"];

static FORMAT_REQUIRED: [&str; 1] = ["store"];

static AUDIT_OPTIONS: [&str; 9] = [
    "capture", "weigh", "shards", "capacity", "phi", "deal", "bits", "front", "report",
];

static AUDIT_REQUIRED: [&str; 1] = ["report"];

static MADE_POSITIONALS: [&str; 2] = ["SEED", "FRAMES"];

static DEMO_OPTIONS: [&str; 7] = [
    "shards", "capacity", "phi", "deal", "block", "workers", "bits",
];

static WATCH_OPTIONS: [&str; 5] = ["report", "limit", "src", "dst", "bits"];

static WATCH_REQUIRED: [&str; 2] = ["report", "limit"];

impl CommandWord {
    /// The command of this name, if there is one.
    pub fn of(word: &str) -> Option<CommandWord>
        ensures some { IfSome result (λ command. word.now ≡ word_of command) }
        ensures none { IfNone result ((command : CommandWord) → word.now ≢ word_of command) }
    {
        match word {
            "weigh" => Some(CommandWord::Weigh),
            "report" => Some(CommandWord::Report),
            "format" => Some(CommandWord::Format),
            "audit" => Some(CommandWord::Audit),
            "make" => Some(CommandWord::Make),
            "demo" => Some(CommandWord::Demo),
            "watch" => Some(CommandWord::Watch),
            _ => None,
        }
    }

    /// The name as it is written on the command line.
    pub fn word<'a>(self) -> &'a str
        ensures { result.now ≡ word_of self }
    {
        match self {
            CommandWord::Weigh => "weigh",
            CommandWord::Report => "report",
            CommandWord::Format => "format",
            CommandWord::Audit => "audit",
            CommandWord::Make => "make",
            CommandWord::Demo => "demo",
            CommandWord::Watch => "watch",
        }
    }

    /// What the command takes.
    pub(crate) fn form<'a>(self) -> FormNames<'a>
        ensures { scanned_form result ≡ form_of self }
    {
        match self {
            CommandWord::Weigh => FormNames {
                positionals: WEIGH_POSITIONALS.as_slice(),
                options: WEIGH_OPTIONS.as_slice(),
                required: NONE.as_slice(),
            },
            CommandWord::Report => FormNames {
                positionals: NONE.as_slice(),
                options: REPORT_OPTIONS.as_slice(),
                required: NONE.as_slice(),
            },
            CommandWord::Format => FormNames {
                positionals: NONE.as_slice(),
                options: FORMAT_OPTIONS.as_slice(),
                required: FORMAT_REQUIRED.as_slice(),
            },
            CommandWord::Audit => FormNames {
                positionals: NONE.as_slice(),
                options: AUDIT_OPTIONS.as_slice(),
                required: AUDIT_REQUIRED.as_slice(),
            },
            CommandWord::Make => FormNames {
                positionals: MADE_POSITIONALS.as_slice(),
                options: NONE.as_slice(),
                required: NONE.as_slice(),
            },
            CommandWord::Demo => FormNames {
                positionals: MADE_POSITIONALS.as_slice(),
                options: DEMO_OPTIONS.as_slice(),
                required: NONE.as_slice(),
            },
            CommandWord::Watch => FormNames {
                positionals: NONE.as_slice(),
                options: WATCH_OPTIONS.as_slice(),
                required: WATCH_REQUIRED.as_slice(),
            },
        }
    }
}
