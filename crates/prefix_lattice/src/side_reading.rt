//! Reading one side of the text of a prefix.

ghost use Rattle.std.specs.Prelude.{◌≡◌, ◌≢◌, ◌==◌, ◌<◌, ◌≤◌, ◌*◌, ◌^◌, ◌++◌, ◌∷◌, ℕ, length, position, decimal};
ghost use Rattle.std.specs.Prelude.{IfSome, IfNone, IfOk, IfErr};
ghost use Rattle.std.specs.List.{before_first};
ghost use Rattle.prefix_lattice.specs.PrefixText.{address_text, slash, TextSpellsSide, HasSideFault};
ghost use Rattle.prefix_lattice.specs.Grain.{IsGrainLength};

use crate::kept_bits::KeptBits;
use crate::{Grain, PrefixFault, Side, number_of};

/// Reads an address, a slash and a length in bits, which is of this grain.
pub fn parse_side(grain: Grain, text: &[u8], side: Side) -> Result<KeptBits, PrefixFault>
    ensures ok { IfOk result (TextSpellsSide grain text.now) }
    ensures fault { IfErr result (HasSideFault grain side text.now) }
{
    let Some(cut) = cut_at(text, b'/') else {
        return Err(without_length(grain, text, side));
    };
    let Some(address) = address_of_text(cut.before) else {
        return Err(PrefixFault::BadAddress(side));
    };
    let Some(bits) = length_of_text(grain, cut.after) else {
        return Err(PrefixFault::BadLength(side));
    };
    match KeptBits::exact(address, bits) {
        Some(kept) => Ok(kept),
        None => Err(PrefixFault::LooseBits(side)),
    }
}

// What is wrong with a text that has no slash.
fn without_length(grain: Grain, text: &[u8], side: Side) -> PrefixFault
    requires { before_first (λ byte. byte == slash) text.now ≡ text.now }
    ensures { HasSideFault grain side text.now result }
{
    match address_of_text(text) {
        Some(_) => PrefixFault::BadLength(side),
        None => PrefixFault::BadAddress(side),
    }
}

// The address that a text spells, if it spells one: four numbers from 0 to 255, joined by dots.
fn address_of_text(text: &[u8]) -> Option<u32>
    ensures some { IfSome result (λ address. (address < 2 ^ 32) × (text.now ≡ address_text address)) }
    ensures none { IfNone result ((address : ℕ) → address < 2 ^ 32 → text.now ≢ address_text address) }
{
    let Some(first) = cut_at(text, b'.') else {
        return None
    };
    let Some(second) = cut_at(first.after, b'.') else {
        return None
    };
    let Some(third) = cut_at(second.after, b'.') else {
        return None
    };
    let Some(a) = byte_of(first.before) else {
        return None
    };
    let Some(b) = byte_of(second.before) else {
        return None
    };
    let Some(c) = byte_of(third.before) else {
        return None
    };
    let Some(d) = byte_of(third.after) else {
        return None
    };
    Some(u32::from_be_bytes([a, b, c, d]))
}

fn byte_of(text: &[u8]) -> Option<u8>
    ensures some { IfSome result (λ byte. text.now ≡ decimal byte) }
    ensures none { IfNone result ((byte : ℕ) → byte < 256 → text.now ≢ decimal byte) }
{
    let Some(number) = number_of(text) else {
        return None
    };
    if number < 256 {
        Some(number as u8)
    } else {
        None
    }
}

// The length that a text spells, if it is a multiple of the grain's bits from 0 to 32.
fn length_of_text(grain: Grain, text: &[u8]) -> Option<u8>
    ensures some { IfSome result (λ bits. IsGrainLength grain bits × (text.now ≡ decimal bits)) }
    ensures none { IfNone result ((bits : ℕ) → IsGrainLength grain bits → text.now ≢ decimal bits) }
{
    let Some(number) = number_of(text) else {
        return None
    };
    if number > 32 {
        return None;
    }
    let bits = number as u8;
    if bits % grain.bits() != 0 {
        return None;
    }
    Some(bits)
}

/// A text split at the first occurrence of a byte.
#[derive(Clone, Copy)]
struct Cut<'a> {
    before: &'a [u8],
    after: &'a [u8],
}

// The text before the first such byte and the text after it, if there is such a byte.
fn cut_at(text: &[u8], at: u8) -> Option<Cut<'_>>
    ensures before { IfSome result (λ cut. cut.before.now ≡ before_first (λ byte. byte == at) text.now) }
    ensures joined { IfSome result (λ cut. text.now ≡ cut.before.now ++ at ∷ cut.after.now) }
    ensures none { IfNone result (before_first (λ byte. byte == at) text.now ≡ text.now) }
{
    match place_of(text, at) {
        Some(place) => {
            let (before, rest) = text.split_at(place);
            let (_, after) = rest.split_at(1);
            Some(Cut { before, after })
        }
        None => None,
    }
}

fn place_of(text: &[u8], at: u8) -> Option<usize>
    ensures { result ≡ position (λ byte. byte == at) text.now }
{
    text.iter().position(|byte| *byte == at)
}
