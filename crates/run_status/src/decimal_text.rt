//! Decimal numbers in output text.

ghost use Rattle.std.specs.Prelude.{◌≡◌, ◌++◌, ◌⊎◌, decimal, OnOk, OnErr};

use itoa::Buffer;
use std::alloc::AllocError;

/// Appends the bytes `before` and a number in decimal.
pub fn push_number(text: &mut Vec<u8>, before: &[u8], number: u64) -> Result<(), AllocError>
    ensures appended { OnOk result (text.new.items ≡ text.old.items ++ before.now ++ decimal number) }
    ensures unchanged_or_begun { OnErr result ((text.new.items ≡ text.old.items) ⊎ (text.new.items ≡ text.old.items ++ before.now)) }
{
    let mut buffer = Buffer::new();
    text.extend_from_slice(before)?;
    text.extend_from_slice(buffer.format(number).as_bytes())
}
