//! A whole frame that arrived in more than one piece.

ghost use Rattle.std.specs.Prelude.{◌≡◌, ◌+◌, ◌≤◌, length, min};
ghost use Rattle.pcap_frames.specs.FileOrder.{number_in_order};
ghost use Rattle.pcap_frames.specs.Lengths.{packet_header_length, frame_head_length, most_captured};

use crate::file_order::FileOrder;
use crate::reader::framing::frame_at;
use crate::{FirstBytes, Frame};

/// The header and head of a whole frame, as kept by the reader.
#[derive(Drop)]
pub(crate) struct HeldFrame {
    pub(crate) order: FileOrder,
    pub(crate) kept: FirstBytes<58>,
    pub ghost header: { packet_header_length ≤ length kept.first },
    pub ghost limit: { number_in_order order 4 8 kept.first ≤ most_captured },
    pub ghost head: { packet_header_length + min frame_head_length (number_in_order order 4 8 kept.first) ≤ length kept.first },
}

impl HeldFrame {
    ghost use Rattle.pcap_frames.specs.Frame.{frame_content};
    ghost use Rattle.pcap_frames.specs.Frame.{frame_at, IsFrame};

    /// The frame.
    pub(crate) fn frame(&self) -> Frame<'_>
        ensures content { frame_content result ≡ frame_at self.now.order self.now.kept.first }
        ensures is_frame { IsFrame (frame_content result) }
    {
        frame_at(self.order, self.kept.first())
    }
}
