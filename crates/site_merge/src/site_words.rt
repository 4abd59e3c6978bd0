//! What is wrong with the words of `sites`.

ghost use Rattle.std.specs.Prelude.{◌≡◌};

use std::alloc::AllocError;
use thiserror::Error;

/// An option of `sites`, in the order in which their values are checked. What each takes is in `Opt` of `command_words`.
#[derive(Clone, Copy, Debug, PartialEq, Eq)]
pub enum SiteOpt {
    /// How traffic is weighed.
    Weigh,
    /// How many shards each store has.
    Shards,
    /// How many prefixes each table can monitor.
    Capacity,
    /// The least share of the sum at which a prefix is heavy.
    Phi,
    /// How records are dealt to shards.
    Deal,
    /// By how many bits prefixes may keep more of an address.
    Bits,
}

/// What is wrong with the words of `sites`. The first fault is reported.
#[derive(Clone, Copy, Debug, PartialEq, Eq, Error)]
pub enum SiteWords {
    /// The words after the first are not options of `sites`, each at most once, and then one or more names.
    #[error("refused")]
    Refused,
    /// There are more than 8 names.
    #[error("more than 8 stores")]
    TooMany,
    /// The value of the option is not a number.
    #[error("no number")]
    BadNumber(SiteOpt),
    /// The value of the option is a number outside its limits. For `SiteOpt::Bits` it may also be that tables of the
    /// capacity are not kept by half bytes.
    #[error("outside its limits")]
    OutOfLimits(SiteOpt),
    /// The value of the option is none of its choices.
    #[error("no such choice")]
    BadChoice(SiteOpt),
    /// The tables are too small for the share `phi`: `phi` times `capacity` is below 2,000,000.
    #[error("phi times capacity is below 2000000")]
    Bound,
}

/// Why words of `sites` were not read.
#[derive(Clone, Copy, Debug, PartialEq, Eq, Error)]
pub enum SiteWordsRefusal {
    /// The words have this fault.
    #[error("{0}")]
    Bad(SiteWords),
    /// Memory ran out.
    #[error("out of memory")]
    OutOfMemory,
}

impl From<AllocError> for SiteWordsRefusal {
    ghost use Rattle.site_merge.specs.declared.site_words.SiteWordsRefusal.TheVariants.{OutOfMemory};

    ghost from_gives = { λ _ refusal. refusal ≡ OutOfMemory };

    fn from(_error: AllocError) -> SiteWordsRefusal {
        SiteWordsRefusal::OutOfMemory
    }
}
