//! A visitor that keeps the records of the frames that it is shown.

ghost use Rattle.std.specs.Prelude.{◌≡◌, [], ◌∷◌, OnOk, OnErr};
ghost use Rattle.pcap_frames.specs.{frame_content, VisitorSees};
ghost use Rattle.frame_records.specs.RecordVisitor.{KeepsRecordsOf, visitor_weighing};

use crate::{Records, Weigh, record_of};
use pcap_frames::{Frame, FrameVisitor};
use prefix_lattice::RecordList;
use std::alloc::{AllocError, Global};

/// Keeps the records of frames, weighed by packets or by bytes, and counts the frames.
#[derive(Drop)]
pub(crate) struct RecordVisitor<const PACKETS: bool> {
    pub(crate) records: Records,
}

impl<const PACKETS: bool> RecordVisitor<PACKETS> {
    /// A visitor that has seen no frame.
    pub(crate) fn new(alloc: Global) -> Self
        ensures { KeepsRecordsOf (visitor_weighing PACKETS) [] result.records }
    {
        RecordVisitor {
            records: Records {
                list: RecordList::new(alloc),
                frames: 0,
                not_ipv4: 0,
                short: 0,
                bad_header: 0,
                cut: None,
            },
        }
    }

    fn weigh() -> Weigh
        ensures { result ≡ visitor_weighing PACKETS }
    {
        if PACKETS {
            Weigh::Packets
        } else {
            Weigh::Bytes
        }
    }
}

impl<const PACKETS: bool> FrameVisitor for RecordVisitor<PACKETS> {
    ghost represents = { λ v frames. KeepsRecordsOf (visitor_weighing PACKETS) frames v.records };

    fn frame(&mut self, frame: &Frame<'_>) -> Result<(), AllocError> {
        self.records.take(record_of(frame, Self::weigh()))
    }
}
