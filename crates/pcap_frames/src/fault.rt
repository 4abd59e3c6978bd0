//! Why bytes are not a capture, and why a reader stopped.

ghost use Rattle.std.specs.Prelude.{◌≡◌};
ghost use Rattle.pcap_frames.specs.declared.fault.ReadRefusal.TheVariants.{ReadFault};
ghost use Rattle.pcap_frames.specs.Reading.{refusal_of};

use outside_io::Failed;
use thiserror::Error;

/// What is wrong with a capture.
#[derive(Clone, Copy, Debug, PartialEq, Eq, Error)]
pub enum FaultKind {
    /// The file ends inside the file header, which shows no other fault.
    #[error("short header")]
    ShortHeader,
    /// The first four bytes are none of the four spellings of the magic.
    #[error("not a capture")]
    NotCapture,
    /// The version is not 2.4, or not 1 in the section header of a pcapng capture.
    #[error("version")]
    Version,
    /// The link type is not 1, Ethernet.
    #[error("link")]
    Link,
    /// A frame has more than 262,144 captured bytes.
    #[error("long frame")]
    LongFrame,
    /// The file ends inside a frame.
    #[error("cut frame")]
    CutFrame,
    /// Bytes follow frame 16,777,216.
    #[error("too many frames")]
    TooManyFrames,
    /// The byte-order magic of a section header is spelled in neither byte order.
    #[error("byte order")]
    ByteOrder,
    /// The length of a block is below the least of its type, no multiple of four, or too small for its packet.
    #[error("block")]
    BadBlock,
    /// The last four bytes of a block are not its length.
    #[error("block tail")]
    BadTail,
    /// A packet names an interface that its section has not described.
    #[error("interface")]
    BadInterface,
    /// The file ends inside a block.
    #[error("cut block")]
    CutBlock,
    /// Bytes follow block 16,777,216.
    #[error("too many blocks")]
    TooManyBlocks,
}

/// The first fault of a capture.
#[derive(Clone, Copy, Debug, PartialEq, Eq, Error)]
#[error("{kind} at {place}")]
pub struct CaptureFault {
    /// What is wrong.
    pub kind: FaultKind,
    /// The offset in the file, in bytes from 0: of the wrong field, of the first byte of the frame or the block or of
    /// the byte after the last one, or, for a short header, the file's length.
    pub place: u64,
}

/// Why a reader takes no more bytes. The reader returns the same from then on.
#[derive(Clone, Copy, Debug, PartialEq, Eq, Error)]
pub enum FeedFault {
    /// The bytes so far show this fault, or the file ends with it.
    #[error(transparent)]
    Refused(CaptureFault),
    /// The reader or the visitor ran out of memory.
    #[error("out of memory")]
    OutOfMemory,
}

/// Why a capture was not read in full.
#[derive(Clone, Copy, Debug, PartialEq, Eq, Error)]
pub enum ReadRefusal {
    /// The bytes are not a capture.
    #[error(transparent)]
    Capture(CaptureFault),
    /// A call of the source failed.
    #[error("read fault")]
    ReadFault,
    /// The reader or the visitor ran out of memory.
    #[error("out of memory")]
    OutOfMemory,
}

impl From<Failed> for ReadRefusal {
    ghost from_gives = { λ _ refusal. refusal ≡ ReadFault };

    fn from(_: Failed) -> ReadRefusal {
        ReadRefusal::ReadFault
    }
}

impl From<FeedFault> for ReadRefusal {
    ghost from_gives = { λ fault refusal. refusal ≡ refusal_of fault };

    fn from(fault: FeedFault) -> ReadRefusal {
        match fault {
            FeedFault::Refused(fault) => ReadRefusal::Capture(fault),
            FeedFault::OutOfMemory => ReadRefusal::OutOfMemory,
        }
    }
}
