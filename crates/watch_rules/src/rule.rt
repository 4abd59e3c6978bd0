//! One rule of a watch.

ghost use Rattle.std.specs.Prelude.{◌≤◌};

use prefix_lattice::Prefix;

/// A rule: no prefix under this one should weigh as much as the limit, which is at least 1, in bytes or packets.
#[derive(Clone, Copy, Debug, PartialEq, Eq)]
pub struct Rule {
    pub prefix: Prefix,
    pub limit: u64,
    ghost some: { 1 ≤ limit },
}
