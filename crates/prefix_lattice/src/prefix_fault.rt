//! What is wrong with the text of a prefix.

use thiserror::Error;

/// One half of a prefix.
#[derive(Clone, Copy, Debug, PartialEq, Eq, Error)]
pub enum Side {
    #[error("source")]
    Source,
    #[error("destination")]
    Dest,
}

/// Why a text is not a prefix. Each half is an address, a slash and a length in bits.
#[derive(Clone, Copy, Debug, PartialEq, Eq, Error)]
pub enum PrefixFault {
    /// The text before the first slash, or all of it if there is no slash, is not four numbers from 0 to 255 without
    /// leading zeros, joined by dots.
    #[error("{0}: bad address")]
    BadAddress(Side),
    /// The address is good, and there is no slash, or the text after the first one is not a multiple of
    /// the grain's bits from 0 to 32.
    #[error("{0}: bad length")]
    BadLength(Side),
    /// Address and length are good, and a bit of the address past the length is set.
    #[error("{0}: bits past the length")]
    LooseBits(Side),
}
