//! What a frame weighs.

ghost use Rattle.std.specs.Prelude.{◌≡◌};
ghost use Rattle.frame_records.specs.FrameRecord.{weight_of};
ghost use Rattle.pcap_frames.specs.{frame_content};

use pcap_frames::Frame;

/// How traffic is weighed.
#[derive(Clone, Copy, Debug, PartialEq, Eq)]
pub enum Weigh {
    /// By the greater of a frame's captured and original lengths, in bytes.
    Bytes,
    /// By the number of frames.
    Packets,
}

impl Weigh {
    /// The weight of a frame, in bytes or packets. A frame with captured bytes weighs at least 1.
    pub fn of(self, frame: &Frame<'_>) -> u32
        ensures { result ≡ weight_of self (frame_content frame.now) }
    {
        match self {
            Weigh::Bytes => frame.captured.max(frame.original),
            Weigh::Packets => 1,
        }
    }
}
