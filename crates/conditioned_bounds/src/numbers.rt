//! The numbers of lines that are kept under the number of each prefix.

ghost use Rattle.std.specs.Prelude.{◌≡◌, ◌≢◌, ◌==◌, ℕ, ◌++◌, ◌∷◌, [], All, AllPairs, false, OnOk, if◌then◌else◌};
ghost use Rattle.std.specs.List.{list_any};
ghost use Rattle.conditioned_bounds.specs.Numbers.{line_numbers_at, HasRoomFor};

use std::alloc::{AllocError, Global};
use std::collections::BTreeMap;

/// The numbers that are kept under a code.
pub(crate) fn numbers_at(kept: &BTreeMap<u128, Vec<u32>>, code: u128) -> &[u32]
    ensures { result.now ≡ line_numbers_at kept.now code }
{
    match kept.get(&code) {
        Some(numbers) => numbers.as_slice(),
        None => &[],
    }
}

/// Makes room for one more number under each of these codes. The numbers stay, whatever the result.
pub(crate) fn make_room(
    alloc: Global,
    kept: &mut BTreeMap<u128, Vec<u32>>,
    codes: &[u128],
) -> Result<(), AllocError>
    ensures same { (code : ℕ) → line_numbers_at kept.new code ≡ line_numbers_at kept.old code }
    ensures room { OnOk result (All (HasRoomFor kept.new) codes.now) }
{
    for code in codes {
        make_room_at(alloc, kept, *code)?;
    }
    Ok(())
}

// Makes room for one more number under a code. The numbers and what room there was stay, whatever the result.
fn make_room_at(
    alloc: Global,
    kept: &mut BTreeMap<u128, Vec<u32>>,
    code: u128,
) -> Result<(), AllocError>
    ensures same { (other : ℕ) → line_numbers_at kept.new other ≡ line_numbers_at kept.old other }
    ensures room { OnOk result (HasRoomFor kept.new code) }
    ensures kept { (other : ℕ) → HasRoomFor kept.old other → HasRoomFor kept.new other }
{
    if let Some(numbers) = kept.get_mut(&code) {
        numbers.reserve(1)?;
    } else {
        let numbers = Vec::with_capacity(alloc, 1)?;
        kept.insert(code, numbers)?;
    }
    Ok(())
}

/// Appends a number under each of these codes, which have room for it. It allocates no memory.
pub(crate) fn note(kept: &mut BTreeMap<u128, Vec<u32>>, codes: &[u128], number: u32)
    requires distinct { AllPairs (λ code other. code ≢ other) codes.now }
    requires room { All (HasRoomFor kept.old) codes.now }
    ensures { (code : ℕ) → line_numbers_at kept.new code
        ≡ (if list_any (λ other. other == code) codes.now then line_numbers_at kept.old code ++ number ∷ [] else line_numbers_at kept.old code) }
{
    for code in codes {
        note_at(kept, *code, number);
    }
}

// Appends a number under a code that has room for it.
fn note_at(kept: &mut BTreeMap<u128, Vec<u32>>, code: u128, number: u32)
    requires { HasRoomFor kept.old code }
    ensures noted { (other : ℕ) → line_numbers_at kept.new other
        ≡ (if code == other then line_numbers_at kept.old other ++ number ∷ [] else line_numbers_at kept.old other) }
    ensures kept { (other : ℕ) → (code == other) ≡ false → HasRoomFor kept.old other → HasRoomFor kept.new other }
{
    if let Some(numbers) = kept.get_mut(&code) {
        let _ = numbers.push(number);
    }
}
