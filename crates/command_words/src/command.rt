//! What a command line asks for.

use crate::Settings;
use prefix_lattice::{Grain, Prefix};
use watch_rules::Rule;

/// A command with its settings, defaults filled in.
#[derive(Clone, Copy, Debug, PartialEq, Eq)]
pub enum Command {
    /// `weigh SRC DST`: the weight of one prefix.
    Weigh {
        prefix: Prefix,
        settings: Settings,
    },
    /// `report`: the prefixes that carry heavy load which no more specific reported prefix explains.
    Report(Settings),
    /// `format`: an empty store for reports with these settings.
    Format(Settings),
    /// `audit`: the verdict on each report of a session's text, against the plain records.
    Audit(Settings),
    /// `make SEED FRAMES`: the capture that a seed and a number of frames determine.
    Make {
        seed: u64,
        frames: u32,
    },
    /// `demo SEED FRAMES`: a report of made traffic, and the verdict on it.
    Demo {
        seed: u64,
        frames: u32,
        settings: Settings,
    },
    /// `watch`: an alarm for each prefix that the reports of a session's text show to be over the limit of a rule.
    Watch {
        rule: Rule,
        /// By how many bits the prefixes of the text may keep more of an address.
        grain: Grain,
    },
}
