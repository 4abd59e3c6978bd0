//! Why a frame has no record.

use thiserror::Error;

/// Why a frame has no record.
#[derive(Clone, Copy, Debug, PartialEq, Eq, Error)]
pub enum Skip {
    /// Its type, after up to two VLAN tags, is not IPv4.
    #[error("not IPv4")]
    NotIpv4,
    /// It ends inside its Ethernet header, a tag or its IPv4 header.
    #[error("short")]
    Short,
    /// The version in its IPv4 header is not 4, or the header length is below five 32-bit words.
    #[error("bad header")]
    BadHeader,
}
