//! The settings of a store.

ghost use Rattle.std.specs.Prelude.{◌≡◌, ◌<◌, ◌^◌};
ghost use Rattle.checkpoint.specs.Header.{AreSettings};
ghost use Rattle.checkpoint.specs.Lengths.{span_of};

use deal_rules::DealKind;
use frame_records::Weigh;
use prefix_lattice::Grain;

/// What the header of a store names. Records that are weighed, dealt or kept otherwise belong to another store.
#[derive(Clone, Copy, Debug, PartialEq, Eq)]
pub struct StoreSettings {
    /// How many shards a saved cut has, 1 to 16.
    pub shards: u32,
    /// The most entries of each table, 2 to 4096, or to 1024 by half bytes.
    pub capacity: u32,
    /// How records are weighed.
    pub weigh: Weigh,
    /// How records are dealt.
    pub deal: DealKind,
    /// By how many bits prefixes are kept.
    pub grain: Grain,
}

/// The most bytes of a body under these settings, 1,556 to 39,326,576. It is also the distance of the two bodies of a
/// store.
pub fn span(settings: &StoreSettings) -> u64
    requires { AreSettings settings.now }
    ensures span { result ≡ span_of settings.now }
    ensures bounded { result < 2 ^ 32 }
{
    let table = 12 + 24 * u64::from(settings.capacity);
    48 + u64::from(settings.shards) * (8 + u64::from(settings.grain.nodes()) * table)
}
