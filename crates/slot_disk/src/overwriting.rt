//! Writing a piece over bytes, past their end too.

ghost use Rattle.std.specs.Prelude.{◌≡◌, ◌≤◌, ◌+◌, ◌-◌, ◌++◌, length, vec_len, vec_capacity, OnOk, IsOk};
ghost use Rattle.slot_disk.specs.Recorded.{bytes_over, no_bytes, after_write};

use std::alloc::AllocError;

/// Writes the piece over the bytes from `start` on, which is at most their end.
pub(crate) fn put_over(bytes: &mut Vec<u8>, start: usize, piece: &[u8]) -> Result<(), AllocError>
    requires { start ≤ vec_len bytes.old }
    ensures over { OnOk result (bytes.new.items ≡ bytes_over start piece.now bytes.old.items) }
    ensures room { vec_capacity bytes.old ≤ vec_capacity bytes.new }
    ensures succeeds { start + length piece.now ≤ vec_capacity bytes.old → IsOk result }
{
    let inside = piece.len().min(bytes.len() - start);
    let (within, past) = piece.split_at(inside);
    bytes[start..start + inside].copy_from_slice(within);
    bytes.extend_from_slice(past)
}

/// Appends zero bytes up to a length.
pub(crate) fn fill_gap(bytes: &mut Vec<u8>, length: usize)
    requires { length ≤ vec_capacity bytes.old }
    ensures filled { bytes.new.items ≡ bytes.old.items ++ no_bytes (length - vec_len bytes.old) }
    ensures room { vec_capacity bytes.old ≤ vec_capacity bytes.new }
{
    for _filled in 0..length.saturating_sub(bytes.len()) {
        bytes.push(0).unwrap();
    }
}

/// Writes the piece at an offset. A gap between the end and the offset is filled with zero bytes.
pub(crate) fn write_over(bytes: &mut Vec<u8>, place: usize, piece: &[u8])
    requires { place + length piece.now ≤ vec_capacity bytes.old }
    ensures written { bytes.new.items ≡ after_write place piece.now bytes.old.items }
    ensures room { vec_capacity bytes.old ≤ vec_capacity bytes.new }
{
    fill_gap(bytes, place);
    put_over(bytes, place, piece).unwrap();
}
