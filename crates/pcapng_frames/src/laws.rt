//! The laws of a capture, pcapng or of either format, and of its first fault.

ghost use Rattle.pcap_frames.specs.{IsDecided};
ghost use Rattle.pcapng_frames.specs.EitherFormat.{capture_format};
ghost use Rattle.pcapng_frames.specs.NgCapture.{pcapng};

use pcap_frames::captures_are_decided;

/// Each file is a pcapng capture of one list of frames or has one first fault, and never both. The bytes at the front of
/// a file complete one list of frames, which more bytes only extend, and a fault that they show is the file's first.
/// There are at most 16,777,216 frames, and a fault's offset is below 2^64.
pub fn ng_captures_are_decided()
    ensures { IsDecided pcapng }
{}

/// The same of captures of either format: a file of which the first four bytes are 0a 0d 0d 0a is read as pcapng, and any
/// other as classic.
pub fn any_captures_are_decided()
    ensures { IsDecided capture_format }
{
    ng_captures_are_decided();
    captures_are_decided();
}
