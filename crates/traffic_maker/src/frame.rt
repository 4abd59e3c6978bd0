//! The bytes of a frame.

ghost use Rattle.std.specs.Prelude.{ℕ, ◌≡◌, ◌+◌, ◌*◌};
ghost use Rattle.traffic_maker.specs.Draws.{state_after};
ghost use Rattle.traffic_maker.specs.Frame.{frame_bytes, made_frame};

use crate::address::address;
use crate::draws::Draws;
use byteorder::{BigEndian, ByteOrder, LittleEndian};

/// How many bytes a frame has in the file: its header of 16, and 34 captured bytes.
pub(crate) const FRAME_LENGTH: usize = 50;

/// The frame at this index. The next two numbers are drawn for it: for the source, then for the destination. The
/// numbers for the frames before it must be drawn.
pub(crate) fn next_frame(draws: &mut Draws, index: u32) -> [u8; 50]
    ensures made { (seed : ℕ) → draws.old.state ≡ state_after seed (2 * index) → result ≡ made_frame seed index }
    ensures drawn { (seed : ℕ) → draws.old.state ≡ state_after seed (2 * index)
        → draws.new.state ≡ state_after seed (2 * (index + 1)) }
{
    let source = address(10, draws.draw());
    let dest = address(20, draws.draw());
    frame(index, &source, &dest)
}

// The frame at this index between two addresses.
#[tactic(auto, unfolding(crate::specs::Frame::frame_bytes))]
fn frame(index: u32, source: &[u8; 4], dest: &[u8; 4]) -> [u8; 50]
    ensures { result ≡ frame_bytes index source.now dest.now }
{
    let length = 100 * (1 + index % 4);
    let mut time = [0; 4];
    LittleEndian::write_u32(&mut time, index);
    let mut wire = [0; 4];
    LittleEndian::write_u32(&mut wire, length);
    let mut total = [0; 2];
    BigEndian::write_u16(&mut total, length as u16 - 14);
    [
        time[0], time[1], time[2], time[3], 0, 0, 0, 0, // the time stamp
        34, 0, 0, 0, wire[0], wire[1], wire[2], wire[3], // the lengths: captured, on the wire
        2, 0, 0, 0, 0, 2, 2, 0, 0, 0, 0, 1, 8, 0, // Ethernet: destination, source, IPv4
        0x45, 0, total[0], total[1], 0, 0, 0, 0, // IPv4: header length, length, no fragments
        64, 17, 0, 0, // IPv4: hops left, UDP, no checksum
        source[0], source[1], source[2], source[3], // IPv4: source
        dest[0], dest[1], dest[2], dest[3], // IPv4: destination
    ]
}
