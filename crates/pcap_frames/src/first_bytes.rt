//! The first bytes of what is split between pieces.

ghost use Rattle.std.specs.Prelude.{◌≡◌, ◌+◌, ◌^◌, ◌<◌, ◌≤◌, [], ◌++◌, length, min, take};

use std::marker::Model;

/// The first `N` of the bytes that arrived, and how many arrived.
#[derive(Drop)]
pub struct FirstBytes<const N: usize> {
    bytes: [u8; N],
    came: u64,
}

impl<const N: usize> Model for FirstBytes<N> {
    ghost use Rattle.std.specs.Prelude.{take};
    ghost use Rattle.pcap_frames.specs.Front.{FrontValue};

    ghost Value = { FrontValue };

    ghost view = { λ k. record { first = take k.came k.bytes; came = k.came } };
}

impl<const N: usize> FirstBytes<N> {
    /// No bytes.
    pub fn new() -> FirstBytes<N>
        ensures { result ≡ record { first = []; came = 0 } }
    {
        FirstBytes {
            bytes: [0; N],
            came: 0,
        }
    }

    /// How many bytes arrived.
    pub fn came(&self) -> u64
        ensures count { result ≡ self.now.came }
        ensures length { length self.now.first ≡ min N self.now.came }
    {
        self.came
    }

    /// The first `N` of the bytes that arrived.
    pub fn first(&self) -> &[u8]
        ensures bytes { result.now ≡ self.now.first }
        ensures length { length result.now ≡ min N self.now.came }
    {
        &self.bytes[..(self.came as usize).min(N)]
    }

    /// Adds more bytes.
    pub fn add(&mut self, more: &[u8])
        requires { self.old.came + length more.now < 2 ^ 64 }
        ensures first { self.new.first ≡ take N (self.old.first ++ more.now) }
        ensures came { self.new.came ≡ self.old.came + length more.now }
    {
        let from = (self.came as usize).min(N);
        copy_to_place(&mut self.bytes, from, more);
        self.came += more.len() as u64;
    }
}

/// Copies bytes to the offset `place`, as many as fit.
fn copy_to_place(bytes: &mut [u8], place: usize, more: &[u8])
    requires { place ≤ length bytes.old }
    ensures length { length bytes.new ≡ length bytes.old }
    ensures front { take (place + length more.now) bytes.new ≡ take (length bytes.old) (take place bytes.old ++ more.now) }
{
    let count = more.len().min(bytes.len() - place);
    let (front, _) = more.split_at(count);
    bytes[place..place + count].copy_from_slice(front);
}
