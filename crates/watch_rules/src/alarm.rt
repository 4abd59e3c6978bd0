//! One alarm.

use prefix_lattice::Prefix;

/// A prefix that is surely over the limit of a rule.
#[derive(Clone, Copy, Debug, PartialEq, Eq)]
pub struct Alarm {
    /// The number of the report that shows it, from 1.
    pub report: u64,
    /// The number of the rule, from 0.
    pub rule: u32,
    /// The prefix of the line that shows it.
    pub prefix: Prefix,
    /// The low of this line, in bytes or packets: the prefix has at least this weight.
    pub lo: u64,
    /// How bad it is, as a judge answered, from 0 to 7.
    pub severity: u32,
}
