//! How far down the lines that cover a record reach.

ghost use Rattle.std.specs.Prelude.{◌≡◌, ◌+◌, ◌<◌, ◌≤◌, List};
ghost use Rattle.prefix_lattice.specs.{PrefixValue, grain_lengths};
ghost use Rattle.exact_audit.specs.LineCodes.{AreLineCodes};
ghost use Rattle.exact_audit.specs.Depths.{AreDepths, IsDepth, explained_at, most_depths};

use crate::line_codes::LineCodes;
use prefix_lattice::{Grain, Node, Prefix, Record, keys_are_of_their_node};

// One more than the most lengths that a side of a prefix may have.
const MOST_DEPTHS: usize = 10;

/// For each number of source steps of a grain, how far down the lines that cover a record and keep at least that many
/// reach: one more than the most destination steps that one of them keeps, and 0 if there is none. These numbers decide
/// at each node whether a line strictly under the record's prefix there covers the record.
#[derive(Clone, Copy, PartialEq, Eq)]
pub(crate) struct Depths {
    by_steps: [u8; MOST_DEPTHS],
}

impl Depths {
    /// The depths of a record under lines of a grain. It costs at most one look-up for each node.
    pub(crate) fn of(lines: &LineCodes, grain: Grain, rec: &Record) -> Depths
        ensures { (prefixes : List PrefixValue) → AreLineCodes grain prefixes lines.now.codes.keys
            → AreDepths grain prefixes rec.now result }
    {
        let mut by_steps = [0; MOST_DEPTHS];
        let mut source = grain.lengths();
        let mut below = 0;
        while 0 < source {
            source -= 1;
            below = depth(lines, grain, rec, source, below);
            by_steps[source as usize] = below;
        }
        Depths { by_steps }
    }

    /// Whether a line strictly under the record's prefix with this many source and destination steps covers the record.
    pub(crate) fn explained(&self, source: u8, dest: u8) -> bool
        requires source { source + 1 < most_depths }
        requires dest { dest < most_depths }
        ensures { result ≡ explained_at self.now source dest }
    {
        let source = source as usize;
        dest < self.by_steps[source + 1] || dest + 1 < self.by_steps[source]
    }
}

// The depth for a number of source steps, given that for one more.
fn depth(lines: &LineCodes, grain: Grain, rec: &Record, source: u8, below: u8) -> u8
    requires source { source < grain_lengths grain }
    requires few { below ≤ grain_lengths grain }
    ensures few { result ≤ grain_lengths grain }
    ensures depth { (prefixes : List PrefixValue) → AreLineCodes grain prefixes lines.now.codes.keys
        → IsDepth grain prefixes rec.now (source + 1) below → IsDepth grain prefixes rec.now source result }
{
    keys_are_of_their_node();
    let mut dest = grain.lengths();
    while below < dest {
        dest -= 1;
        let node = Node::new(grain, source, dest).unwrap();
        if lines.has(&Prefix::of(rec, node)) {
            return dest + 1;
        }
    }
    below
}
