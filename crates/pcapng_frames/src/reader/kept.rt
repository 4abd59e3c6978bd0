//! The bytes of a block that is split between pieces.

ghost use Rattle.std.specs.Prelude.{◌≡◌, ◌+◌, ◌^◌, ◌<◌, ◌≤◌, ◌++◌, length, min, take, drop};
ghost use Rattle.pcapng_frames.specs.Kept.{kept_length, kept_and};

use pcap_frames::FirstBytes;
use std::marker::Model;

/// The first 70 of the bytes that arrived, the last four, and how many arrived. 70 bytes hold the fields of a packet
/// and the head of its frame.
#[derive(Drop)]
pub(crate) struct KeptBytes {
    front: FirstBytes<70>,
    last: [u8; 4],
}

impl Model for KeptBytes {
    ghost use Rattle.pcapng_frames.specs.Kept.{KeptValue};

    ghost Value = { KeptValue };

    ghost view = { λ k. record { first = k.front.first; last = k.last; came = k.front.came } };
}

impl KeptBytes {
    ghost use Rattle.std.specs.Prelude.{[]};
    ghost use Rattle.pcapng_frames.specs.Kept.{kept_of};

    /// No bytes.
    pub(crate) fn new() -> KeptBytes
        ensures { result ≡ kept_of [] }
    {
        KeptBytes {
            front: FirstBytes::new(),
            last: [0; 4],
        }
    }

    /// How many bytes arrived.
    pub(crate) fn came(&self) -> u64
        ensures count { result ≡ self.now.came }
        ensures length { length self.now.first ≡ min kept_length self.now.came }
    {
        self.front.came()
    }

    /// The first 70 of the bytes that arrived.
    pub(crate) fn first(&self) -> &[u8]
        ensures bytes { result.now ≡ self.now.first }
        ensures length { length result.now ≡ min kept_length self.now.came }
    {
        self.front.first()
    }

    /// The last four of the bytes that arrived, after zeros if there are fewer.
    pub(crate) fn last(&self) -> &[u8]
        ensures bytes { result.now ≡ self.now.last }
        ensures length { length result.now ≡ 4 }
    {
        &self.last
    }

    /// Adds more bytes.
    pub(crate) fn add(&mut self, more: &[u8])
        requires { self.old.came + length more.now < 2 ^ 64 }
        ensures first { self.new.first ≡ take kept_length (self.old.first ++ more.now) }
        ensures last { self.new.last ≡ drop (length more.now) (self.old.last ++ more.now) }
        ensures came { self.new.came ≡ self.old.came + length more.now }
    {
        self.front.add(more);
        shift_in(&mut self.last, more);
    }
}

/// Puts bytes behind the last four, and keeps the last four of them all.
fn shift_in(last: &mut [u8; 4], more: &[u8])
    ensures { last.new ≡ drop (length more.now) (last.old ++ more.now) }
{
    let count = more.len();
    if count >= 4 {
        let (_, end) = more.split_at(count - 4);
        last.copy_from_slice(end);
        return;
    }
    let mut joined = FirstBytes::<8>::new();
    joined.add(&last[..]);
    joined.add(more);
    last.copy_from_slice(&joined.first()[count..count + 4]);
}
