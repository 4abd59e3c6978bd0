//! What the bytes at the front of a frame say.

ghost use Rattle.std.specs.Prelude.{◌≡◌, ◌+◌, ◌≤◌, length, min, IfSome};
ghost use Rattle.pcap_frames.specs.FileOrder.{number_in_order};
ghost use Rattle.pcap_frames.specs.Frame.{frame_content};
ghost use Rattle.pcap_frames.specs.Frame.{frame_at, bytes_needed, frame_fault, IsFrame};
ghost use Rattle.pcap_frames.specs.Reader.{SplitsFrame};
ghost use Rattle.pcap_frames.specs.Lengths.{packet_header_length, frame_head_length, most_captured};

use crate::file_order::FileOrder;
use crate::header::fault_at;
use crate::{CaptureFault, FaultKind, Frame};

/// The most frames of a capture.
pub(crate) const MOST_FRAMES: u32 = 16_777_216;
/// The most captured bytes of a frame. Other tools use this limit too, whatever snapshot length the file states.
pub(crate) const MOST_CAPTURED: u32 = 262_144;

/// The frame whose header and head are at the front of the bytes.
pub(crate) fn frame_at(order: FileOrder, bytes: &[u8]) -> Frame<'_>
    requires header { packet_header_length ≤ length bytes.now }
    requires limit { number_in_order order 4 8 bytes.now ≤ most_captured }
    requires head { packet_header_length + min frame_head_length (number_in_order order 4 8 bytes.now) ≤ length bytes.now }
    ensures content { frame_content result ≡ frame_at order bytes.now }
    ensures is_frame { IsFrame (frame_content result) }
{
    let captured = order.u32_at(bytes, 8);
    let original = order.u32_at(bytes, 12);
    Frame::of_captured(&bytes[16..], captured, original)
}

/// The frame at the front of the bytes and the rest after it, if the whole frame is there.
pub(crate) fn whole_at(order: FileOrder, bytes: &[u8]) -> Option<(Frame<'_>, &[u8])>
    ensures splits { IfSome result (λ found. SplitsFrame order bytes.now found.1.now (frame_content found.0)) }
    ensures is_frame { IfSome result (λ found. IsFrame (frame_content found.0)) }
{
    if bytes.len() < 16 {
        return None;
    }
    let captured = order.u32_at(bytes, 8);
    if captured > MOST_CAPTURED || bytes.len() - 16 < captured as usize {
        return None;
    }
    let (front, rest) = bytes.split_at(16 + captured as usize);
    Some((frame_at(order, front), rest))
}

/// The least number of bytes that the frame takes, as far as its header is known.
#[tactic(auto, unfolding(crate::specs::Frame::bytes_needed))]
pub(crate) fn needed(order: FileOrder, bytes: &[u8]) -> u64
    ensures { result ≡ bytes_needed order bytes.now }
{
    if bytes.len() < 16 {
        return 16;
    }
    16 + order.u32_at(bytes, 8) as u64
}

/// The first fault that the bytes after `count` frames show, however the file continues.
#[tactic(auto, unfolding(crate::specs::Frame::frame_fault))]
pub(crate) fn frame_fault(
    order: FileOrder,
    count: u32,
    place: u64,
    bytes: &[u8],
) -> Option<CaptureFault>
    ensures { result ≡ frame_fault order count place bytes.now }
{
    if bytes.is_empty() {
        return None;
    }
    if count == MOST_FRAMES {
        return Some(fault_at(FaultKind::TooManyFrames, place));
    }
    if bytes.len() < 16 {
        return None;
    }
    if order.u32_at(bytes, 8) > MOST_CAPTURED {
        return Some(fault_at(FaultKind::LongFrame, place));
    }
    None
}
