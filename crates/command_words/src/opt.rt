//! The options and the positionals whose values are checked.

ghost use Rattle.std.specs.Prelude.{◌≡◌};
ghost use Rattle.command_words.specs.Options.{name_of};

use std::fmt::{Display, Error, Formatter, Write};

/// An option whose value is checked, or a positional that is a number. Values are checked in this order.
#[derive(Clone, Copy, Debug, PartialEq, Eq)]
pub enum Opt {
    /// The number that traffic is made from, 0 to 2^64 - 1.
    Seed,
    /// How many frames are made, 1 to 1,000,000.
    Frames,
    /// How traffic is weighed: `bytes` or `packets`.
    Weigh,
    /// How many shards there are, 1 to 16.
    Shards,
    /// How many prefixes each table can monitor, 2 to 4096.
    Capacity,
    /// The least share, in parts per million of the total, at which a prefix is heavy, 1 to 1,000,000.
    Phi,
    /// How records are dealt to shards: `round`, `source` or `free`.
    Deal,
    /// The most records that one fold counts, 1 to 65,536.
    Block,
    /// How many threads fold records, 1 to 16.
    Workers,
    /// How many threads report besides the calling one, 0 to 8.
    Callers,
    /// How many reports each of them makes while records are folded, 0 to 32.
    Rounds,
    /// By how many bits prefixes may keep more of an address, 8 or 4. With 4 the capacity is at most 1024.
    Bits,
    /// Whether a capture that ends inside a frame is taken up to that frame: `no` or `yes`.
    Front,
    /// The least weight at which a watch raises an alarm, 1 to 2^64 - 1.
    Limit,
}

impl Opt {
    /// The name of the option without its hyphens, or that of the positional.
    pub fn name(self) -> &'static str
        ensures { result.now ≡ name_of self }
    {
        match self {
            Opt::Seed => "SEED",
            Opt::Frames => "FRAMES",
            Opt::Weigh => "weigh",
            Opt::Shards => "shards",
            Opt::Capacity => "capacity",
            Opt::Phi => "phi",
            Opt::Deal => "deal",
            Opt::Block => "block",
            Opt::Workers => "workers",
            Opt::Callers => "callers",
            Opt::Rounds => "rounds",
            Opt::Bits => "bits",
            Opt::Front => "front",
            Opt::Limit => "limit",
        }
    }
}

impl Display for Opt {
    fn fmt<W: Write>(&self, formatter: &mut Formatter<W>) -> Result<(), Error> {
        formatter.write_str(self.name())
    }
}
