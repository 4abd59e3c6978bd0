//! Writing one side of the text of a prefix.

ghost use Rattle.std.specs.Prelude.{◌≡◌, ◌+◌, ◌≤◌, ◌∷◌, length, decimal};
ghost use Rattle.prefix_lattice.specs.PrefixText.{WritesPrefixPart, address_text, longest_side_text};
ghost use Rattle.prefix_lattice.specs.PrefixText.{side_text};

use crate::decimal::write_number;
use crate::kept_bits::KeptBits;

/// Writes an address, a slash and a length in bits at an offset of a text, and returns the offset after them. The text
/// has room for the 18 bytes that they may need. Other bytes are unchanged.
pub fn write_side(text: &mut [u8], at: usize, side: &KeptBits) -> usize
    requires { at + longest_side_text ≤ length text.old }
    ensures written { WritesPrefixPart text.old text.new at result (side_text side.now) }
    ensures short { result ≤ at + longest_side_text }
{
    let end = write_address(text, at, side.address());
    write_behind(text, end, b'/', side.len())
}

fn write_address(text: &mut [u8], at: usize, address: u32) -> usize
    requires { at + length (address_text address) ≤ length text.old }
    ensures { WritesPrefixPart text.old text.new at result (address_text address) }
{
    let [a, b, c, d] = address.to_be_bytes();
    let end = write_number(text, at, a);
    let end = write_behind(text, end, b'.', b);
    let end = write_behind(text, end, b'.', c);
    write_behind(text, end, b'.', d)
}

// Writes a byte and a number after it.
fn write_behind(text: &mut [u8], at: usize, mark: u8, number: u8) -> usize
    requires { at + length (mark ∷ decimal number) ≤ length text.old }
    ensures { WritesPrefixPart text.old text.new at result (mark ∷ decimal number) }
{
    text[at] = mark;
    write_number(text, at + 1, number)
}
