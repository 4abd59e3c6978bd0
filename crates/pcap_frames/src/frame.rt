//! One frame of a capture, as it is shown to a visitor.

ghost use Rattle.std.specs.Prelude.{◌≡◌, ◌≤◌, length, min};
ghost use Rattle.pcap_frames.specs.Lengths.{frame_head_length as head_size, most_captured};

/// A frame: what was captured of one packet, and how long the packet was on the wire.
#[derive(Clone, Copy)]
pub struct Frame<'a> {
    /// The first 42 captured bytes, or all of them if fewer were captured.
    pub head: &'a [u8],
    /// The number of captured bytes, at most 262,144.
    pub captured: u32,
    /// The length on the wire in bytes. It may be smaller or greater than `captured`.
    pub original: u32,
    pub ghost head_length: { length head.now ≡ min head_size captured },
    pub ghost captured_limit: { captured ≤ most_captured },
}

impl<'a> Frame<'a> {
    ghost use Rattle.std.specs.Prelude.{take};
    ghost use Rattle.pcap_frames.specs.Frame.{frame_content, IsFrame};

    /// The frame of this many captured bytes, of which these are the first 42 or more, or all.
    #[tactic(auto, using(crate::proofs::FrameHeadLemmas::frame_head_of_front))]
    pub fn of_captured(bytes: &'a [u8], captured: u32, original: u32) -> Frame<'a>
        requires limit { captured ≤ most_captured }
        requires head { min head_size captured ≤ length bytes.now }
        ensures content { frame_content result
            ≡ record { head = take head_size (take captured bytes.now); captured = captured; original = original } }
        ensures is_frame { IsFrame (frame_content result) }
    {
        let (head, _) = bytes.split_at((captured as usize).min(42));
        Frame {
            head,
            captured,
            original,
        }
    }
}
