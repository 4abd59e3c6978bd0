//! Decimal numbers in text, read and written.

ghost use Rattle.std.specs.Prelude.{◌≡◌, ◌≢◌, ◌+◌, ◌<◌, ◌≤◌, ◌^◌, ℕ, length, IfSome, IfNone, decimal};
ghost use Rattle.prefix_lattice.specs.PrefixText.{WritesPrefixPart};

use itoa::Buffer;
use std::str;

/// The number below 2^64 that a text spells in decimal without leading zeros, if it spells one.
pub fn number_of(text: &[u8]) -> Option<u64>
    ensures some { IfSome result (λ number. text.now ≡ decimal number) }
    ensures none { IfNone result ((number : ℕ) → number < 2 ^ 64 → text.now ≢ decimal number) }
{
    let Ok(digits) = str::from_utf8(text) else {
        return None;
    };
    let Ok(number) = digits.parse::<u64>() else {
        return None;
    };
    let mut buffer = Buffer::new();
    if buffer.format(number).as_bytes() == text {
        Some(number)
    } else {
        None
    }
}

/// Writes a number in decimal at an offset of a text that has room for it, and returns the offset after it. Other
/// bytes are unchanged.
pub fn write_number(text: &mut [u8], at: usize, number: u8) -> usize
    requires { at + length (decimal number) ≤ length text.old }
    ensures { WritesPrefixPart text.old text.new at result (decimal number) }
{
    let mut buffer = Buffer::new();
    let digits = buffer.format(number).as_bytes();
    let end = at + digits.len();
    text[at..end].copy_from_slice(digits);
    end
}
