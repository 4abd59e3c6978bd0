//! The file header: the first 24 bytes of a capture.

ghost use Rattle.std.specs.Prelude.{◌≡◌, ◌≤◌, length};
ghost use Rattle.pcap_frames.specs.Header.{order_of_magic, header_fault};

use crate::file_order::FileOrder;
use crate::{CaptureFault, FaultKind};

const MICROSECONDS: u32 = 0xa1b2_c3d4;

const NANOSECONDS: u32 = 0xa1b2_3c4d;

/// The byte order in which the first four bytes are one of the two magics, if there is one.
#[tactic(auto, unfolding(crate::specs::Header::order_of_magic))]
pub(crate) fn magic_order(bytes: &[u8]) -> Option<FileOrder>
    requires { 4 ≤ length bytes.now }
    ensures { result ≡ order_of_magic bytes.now }
{
    let big = FileOrder::Big.u32_at(bytes, 0);
    if big == MICROSECONDS || big == NANOSECONDS {
        return Some(FileOrder::Big);
    }
    let little = FileOrder::Little.u32_at(bytes, 0);
    if little == MICROSECONDS || little == NANOSECONDS {
        return Some(FileOrder::Little);
    }
    None
}

/// The first fault that the bytes at the front of a file show, however the file continues.
#[tactic(auto, unfolding(crate::specs::Header::header_fault))]
pub(crate) fn header_fault(bytes: &[u8]) -> Option<CaptureFault>
    ensures { result ≡ header_fault bytes.now }
{
    if bytes.len() < 4 {
        return None;
    }
    let Some(order) = magic_order(bytes) else {
        return Some(fault_at(FaultKind::NotCapture, 0));
    };
    if bytes.len() < 8 {
        return None;
    }
    if order.u16_at(bytes, 4) != 2 {
        return Some(fault_at(FaultKind::Version, 4));
    }
    if order.u16_at(bytes, 6) != 4 {
        return Some(fault_at(FaultKind::Version, 4));
    }
    if bytes.len() < 24 {
        return None;
    }
    if order.u32_at(bytes, 20) != 1 {
        return Some(fault_at(FaultKind::Link, 20));
    }
    None
}

/// A fault of this kind at this offset.
pub(crate) fn fault_at(kind: FaultKind, place: u64) -> CaptureFault
    ensures { result ≡ record { kind = kind; place = place } }
{
    CaptureFault { kind, place }
}
