//! Numbers and digests in the bytes of a body.

ghost use Rattle.std.specs.Prelude.{◌≡◌, ◌+◌, ◌≤◌, ◌++◌, length, OnOk};
ghost use Rattle.checkpoint.specs.Body.{digest_length};
ghost use Rattle.checkpoint.specs.Numbers.{number_bytes};

use byteorder::{BigEndian, ByteOrder};
use std::alloc::AllocError;

/// Appends a number in 8 bytes.
#[tactic(auto, unfolding(crate::specs::Numbers::number_bytes))]
pub(crate) fn push_number(out: &mut Vec<u8>, number: u64) -> Result<(), AllocError>
    ensures { OnOk result (out.new.items ≡ out.old.items ++ number_bytes 8 number) }
{
    let mut bytes = [0; 8];
    BigEndian::write_u64(&mut bytes, number);
    out.extend_from_slice(&bytes)
}

/// Appends a number in 4 bytes.
#[tactic(auto, unfolding(crate::specs::Numbers::number_bytes))]
pub(crate) fn push_count(out: &mut Vec<u8>, count: u32) -> Result<(), AllocError>
    ensures { OnOk result (out.new.items ≡ out.old.items ++ number_bytes 4 count) }
{
    let mut bytes = [0; 4];
    BigEndian::write_u32(&mut bytes, count);
    out.extend_from_slice(&bytes)
}

/// The number in the first 8 bytes, and the bytes after them.
pub(crate) fn first_number(bytes: &[u8]) -> (u64, &[u8])
    requires { 8 ≤ length bytes.now }
    ensures rest { length result.1.now + 8 ≡ length bytes.now }
    ensures spelled { bytes.now ≡ number_bytes 8 result.0 ++ result.1.now }
{
    let (front, rest) = bytes.split_at(8);
    (BigEndian::read_u64(front), rest)
}

/// The number in the first 4 bytes, and the bytes after them.
pub(crate) fn first_count(bytes: &[u8]) -> (u32, &[u8])
    requires { 4 ≤ length bytes.now }
    ensures rest { length result.1.now + 4 ≡ length bytes.now }
    ensures spelled { bytes.now ≡ number_bytes 4 result.0 ++ result.1.now }
{
    let (front, rest) = bytes.split_at(4);
    (BigEndian::read_u32(front), rest)
}

/// The digest in the first bytes, and the bytes after it.
pub(crate) fn first_digest(bytes: &[u8]) -> ([u8; 32], &[u8])
    requires { digest_length ≤ length bytes.now }
    ensures rest { length result.1.now + digest_length ≡ length bytes.now }
    ensures spelled { bytes.now ≡ result.0 ++ result.1.now }
{
    let (front, rest) = bytes.split_at(32);
    let mut digest = [0; 32];
    digest.copy_from_slice(front);
    (digest, rest)
}
