//! The byte order of a capture's numbers.

ghost use Rattle.std.specs.Prelude.{◌≡◌, ◌+◌, ◌≤◌, length};
ghost use Rattle.pcap_frames.specs.FileOrder.{number_in_order};

use byteorder::{BigEndian, ByteOrder, LittleEndian};

/// The byte order of all numbers in a file or a section, as its magic shows.
#[derive(Clone, Copy, PartialEq, Eq)]
pub enum FileOrder {
    /// The most significant byte comes first.
    Big,
    /// The least significant byte comes first.
    Little,
}

impl FileOrder {
    /// The number in the two bytes from this offset on.
    #[tactic(auto, unfolding(crate::specs::FileOrder::number_in_order))]
    pub fn u16_at(self, bytes: &[u8], place: usize) -> u16
        requires { place + 2 ≤ length bytes.now }
        ensures { result ≡ number_in_order self 2 place bytes.now }
    {
        match self {
            FileOrder::Big => BigEndian::read_u16(&bytes[place..]),
            FileOrder::Little => LittleEndian::read_u16(&bytes[place..]),
        }
    }

    /// The number in the four bytes from this offset on.
    #[tactic(auto, unfolding(crate::specs::FileOrder::number_in_order))]
    pub fn u32_at(self, bytes: &[u8], place: usize) -> u32
        requires { place + 4 ≤ length bytes.now }
        ensures { result ≡ number_in_order self 4 place bytes.now }
    {
        match self {
            FileOrder::Big => BigEndian::read_u32(&bytes[place..]),
            FileOrder::Little => LittleEndian::read_u32(&bytes[place..]),
        }
    }
}
