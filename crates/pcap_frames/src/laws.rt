//! The laws of a capture and of its first fault.

ghost use Rattle.pcap_frames.specs.CaptureFormat.{classic};
ghost use Rattle.pcap_frames.specs.Decided.{IsDecided};

/// Each file is a capture of one list of frames or has one first fault, and never both. The bytes at the front of a
/// file complete one list of frames, which more bytes only extend, and a fault that they show is the file's first.
/// There are at most 16,777,216 frames, and a fault's offset is below 2^64.
pub fn captures_are_decided()
    ensures { IsDecided classic }
{}
