//! A rule and a prefix of which a watch has alarmed.

use prefix_lattice::Prefix;

/// A pair of a rule and a prefix for which there was an alarm.
#[derive(Clone, Copy, Debug, PartialEq, Eq)]
pub struct Raised {
    /// The number of the rule, from 0.
    pub rule: u32,
    /// The prefix.
    pub prefix: Prefix,
}
