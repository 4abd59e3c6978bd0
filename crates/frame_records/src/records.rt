//! The records of a capture, and how many frames have none.

use crate::Skip;
use prefix_lattice::{Record, RecordList};
use std::alloc::AllocError;

/// The records of a capture in their order, the numbers of all frames and of those skipped, and where it was cut.
#[derive(Drop)]
pub struct Records {
    /// The records of the frames that were not skipped.
    pub list: RecordList,
    /// The number of all frames, including those skipped.
    pub frames: u64,
    /// How many were skipped as `Skip::NotIpv4`.
    pub not_ipv4: u64,
    /// How many were skipped as `Skip::Short`.
    pub short: u64,
    /// How many were skipped as `Skip::BadHeader`.
    pub bad_header: u64,
    /// The offset of the first byte of the frame or block inside which the capture was cut, and before which all frames
    /// are counted. `None` for a whole capture.
    pub cut: Option<u64>,
}

impl Records {
    ghost use Rattle.std.specs.Prelude.{◌≡◌, OnOk, OnErr};
    ghost use Rattle.frame_records.specs.RecordVisitor.{after_frame, with_skip};

    /// Takes the record of the next frame, or the reason why it has none. After an `Err` all is unchanged.
    pub(crate) fn take(&mut self, outcome: Result<Record, Skip>) -> Result<(), AllocError>
        ensures taken { OnOk result (self.new ≡ after_frame outcome self.old) }
        ensures err { OnErr result (self.new ≡ self.old) }
    {
        match outcome {
            Ok(rec) => self.list.push(rec)?,
            Err(skip) => self.count(skip),
        }
        self.frames = self.frames.saturating_add(1);
        Ok(())
    }

    fn count(&mut self, skip: Skip)
        ensures { self.new ≡ with_skip skip self.old }
    {
        match skip {
            Skip::NotIpv4 => self.not_ipv4 = self.not_ipv4.saturating_add(1),
            Skip::Short => self.short = self.short.saturating_add(1),
            Skip::BadHeader => self.bad_header = self.bad_header.saturating_add(1),
        }
    }
}
