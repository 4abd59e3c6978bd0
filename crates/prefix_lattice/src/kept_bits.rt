//! One half of a prefix: some leading bits of an address.

ghost use Rattle.std.specs.Prelude.{◌≡◌, ◌≢◌, ◌≤◌, ◌-◌, ◌*◌, ◌/◌, ◌%◌, ◌^◌, length, take, IfSome, IfNone};
ghost use Rattle.prefix_lattice.specs.Address.{address_bits, address_of, address_length};
ghost use Rattle.prefix_lattice.specs.Grain.{grain_bits, finest_grain, IsGrainLength};
ghost use Rattle.prefix_lattice.specs.KeptBits.{begins_with, AreLeadingBits};
ghost use Rattle.prefix_lattice.specs.Meets.{meet_side};

use std::marker::Model;

/// The leading bits of an address, 0 to 32 of them in steps of four. Contracts see them as a list.
#[derive(Clone, Copy, Debug, PartialEq, Eq)]
pub struct KeptBits {
    address: u32,
    bits: u8,
}

impl Model for KeptBits {
    ghost use Rattle.std.specs.Prelude.{◌≡◌, ◌<◌, ◌≤◌, ◌^◌, ℕ, List, take, length};
    ghost use Rattle.prefix_lattice.specs.Address.{address_bits, address_of};
    ghost use Rattle.prefix_lattice.specs.Grain.{finest_grain, IsGrainLength};

    ghost Value = { List ℕ };

    ghost view = { λ k. take k.bits (address_bits k.address) };

    // The bits that are not kept are zero.
    ghost invariant = { λ k. IsGrainLength finest_grain k.bits × (k.address < 2 ^ 32)
        × (address_of (take k.bits (address_bits k.address)) ≡ k.address) };

    ghost inverse = { λ front. record { address = address_of front; bits = length front } };
}

impl KeptBits {
    /// The first `bits` bits of this address.
    pub fn of(address: u32, bits: u8) -> KeptBits
        requires { IsGrainLength finest_grain bits }
        ensures { result ≡ take bits (address_bits address) }
    {
        KeptBits {
            address: masked(address, bits),
            bits,
        }
    }

    /// The first `bits` bits of this address, if all bits after them are zero.
    pub fn exact(address: u32, bits: u8) -> Option<KeptBits>
        requires { IsGrainLength finest_grain bits }
        ensures some { IfSome result (λ kept. (kept ≡ take bits (address_bits address)) × (address_of kept ≡ address)) }
        ensures none { IfNone result (address % 2 ^ (address_length - bits) ≢ 0) }
    {
        let kept = KeptBits::of(address, bits);
        if kept.address() == address {
            Some(kept)
        } else {
            None
        }
    }

    /// How many bits are kept.
    pub fn len(&self) -> u8
        ensures len { result ≡ length self.now }
        ensures leading { AreLeadingBits self.now }
        ensures steps { length self.now % grain_bits finest_grain ≡ 0 }
    {
        self.bits
    }

    /// The address that begins with these bits and has zeros after them.
    pub fn address(&self) -> u32
        ensures { result ≡ address_of self.now }
    {
        self.address
    }

    /// Whether an address begins with these bits.
    pub fn begin(&self, address: u32) -> bool
        ensures { result ≡ begins_with (address_bits address) self.now }
    {
        masked(address, self.bits) == self.address
    }

    /// Whether these bits begin with those of the other.
    pub fn under(&self, other: &KeptBits) -> bool
        ensures { result ≡ begins_with self.now other.now }
    {
        other.bits <= self.bits && masked(self.address, other.bits) == other.address
    }

    /// The longer of the two, if it begins with the bits of the other.
    pub fn longer(self, other: KeptBits) -> Option<KeptBits>
        ensures { result ≡ meet_side self other }
    {
        if self.under(&other) {
            Some(self)
        } else if other.under(&self) {
            Some(other)
        } else {
            None
        }
    }
}

// The address with all bits after the first `bits` bits set to zero.
fn masked(address: u32, bits: u8) -> u32
    requires { bits ≤ address_length }
    ensures { result ≡ address / 2 ^ (address_length - bits) * 2 ^ (address_length - bits) }
{
    address & mask_of(bits)
}

// The first `bits` bits of an address set, and all after them clear. There is no choice in it, so that a loop over records
// computes it once.
fn mask_of(bits: u8) -> u32
    requires { bits ≤ 32 }
    ensures { result ≡ 2 ^ 32 - 2 ^ (32 - bits) }
{
    let rest = 0xffff_ffff_u64 >> bits;
    !(rest as u32)
}
