//! One line of a report.

use prefix_lattice::Prefix;

/// A line of a report: a prefix, with the least and the greatest weight that it can have, in bytes or packets.
#[derive(Clone, Copy, Debug, PartialEq, Eq)]
pub struct Line {
    pub prefix: Prefix,
    pub lo: u64,
    pub hi: u64,
}
