//! The frame of a whole packet.

ghost use Rattle.std.specs.Prelude.{◌≡◌, ◌+◌, ◌≤◌, length, min};
ghost use Rattle.pcap_frames.specs.{number_in_order, frame_head_length, most_captured, frame_content, IsFrame};
ghost use Rattle.pcapng_frames.specs.Block.{packet_data_place, packet_frame};

use crate::reader::kept::KeptBytes;
use pcap_frames::{FileOrder, Frame};

/// The front of a whole packet, as kept by the reader.
#[derive(Drop)]
pub(crate) struct HeldPacket {
    pub(crate) order: FileOrder,
    pub(crate) kept: KeptBytes,
    pub ghost header: { packet_data_place ≤ length kept.first },
    pub ghost limit: { number_in_order order 4 20 kept.first ≤ most_captured },
    pub ghost head: { packet_data_place + min frame_head_length (number_in_order order 4 20 kept.first) ≤ length kept.first },
}

impl HeldPacket {
    /// The frame.
    pub(crate) fn frame(&self) -> Frame<'_>
        ensures content { frame_content result ≡ packet_frame self.now.order self.now.kept.first }
        ensures is_frame { IsFrame (frame_content result) }
    {
        frame_at(self.order, self.kept.first())
    }
}

/// The frame of the packet whose fields and head are at the front of the bytes.
pub(crate) fn frame_at(order: FileOrder, bytes: &[u8]) -> Frame<'_>
    requires header { packet_data_place ≤ length bytes.now }
    requires limit { number_in_order order 4 20 bytes.now ≤ most_captured }
    requires head { packet_data_place + min frame_head_length (number_in_order order 4 20 bytes.now) ≤ length bytes.now }
    ensures content { frame_content result ≡ packet_frame order bytes.now }
    ensures is_frame { IsFrame (frame_content result) }
{
    let captured = order.u32_at(bytes, 20);
    let original = order.u32_at(bytes, 24);
    let (_, behind) = bytes.split_at(28);
    Frame::of_captured(behind, captured, original)
}
