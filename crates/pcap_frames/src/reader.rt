//! Reading a capture in pieces of any size. The modules below hold what is kept between two pieces.

mod framing;
mod held;
mod part;

ghost use Rattle.std.specs.Prelude.{◌≡◌, ◌<◌, [], ◌∷◌, length, IfSome, IfNone};
ghost use Rattle.pcap_frames.specs.CaptureFormat.{classic};
ghost use Rattle.pcap_frames.specs.Reader.{frames_held};
ghost use Rattle.pcap_frames.specs.FrameReader.{InHeader, Represents, frame_reader_stop, frame_reader_extent};

use crate::header::fault_at;
use crate::{CaptureReader, FaultKind, FeedFault, Frame, FrameVisitor, captures_are_decided};
use held::HeldFrame;
use part::{FramePart, Stage, Taken};
use std::alloc::AllocError;
use std::marker::Model;

/// Reads a capture in pieces of any size. Between two pieces it keeps at most a file header, or a frame
/// header with the first 42 captured bytes, and counts.
#[derive(Drop)]
pub struct FrameReader {
    stage: Stage,
    part: FramePart,
}

impl Model for FrameReader {
    ghost use Rattle.pcap_frames.specs.FrameReader.{ReaderState};
    ghost use Rattle.pcap_frames.specs.Part.{state_of_part, IsPartInStage};

    ghost Value = { ReaderState };

    ghost view = { λ r. state_of_part r.stage r.part };

    ghost invariant = { λ r. IsPartInStage r.stage r.part };
}

impl FrameReader {
    ghost use Rattle.pcap_frames.specs.Frame.{frame_content};
    ghost use Rattle.pcap_frames.specs.Frame.{IsFrame};
    ghost use Rattle.pcap_frames.specs.Feeding.{StepTakes};

    /// A reader that was fed no bytes.
    pub fn new() -> FrameReader
        ensures empty { result ≡ InHeader [] }
        ensures stands { Represents result [] [] }
    {
        FrameReader {
            stage: Stage::Header,
            part: FramePart::new(),
        }
    }

    /// The frame at the front of the piece and the bytes after it, if the reader is between two frames and the whole
    /// next frame is there.
    fn whole_frame<'a>(&mut self, piece: &'a [u8]) -> Option<(Frame<'a>, &'a [u8])>
        ensures takes { IfSome result (λ found. StepTakes Represents self.old self.new piece.now found.1.now (frame_content found.0 ∷ [])) }
        ensures is_frame { IfSome result (λ found. IsFrame (frame_content found.0)) }
        ensures none { IfNone result (self.new ≡ self.old) }
    {
        match self.stage {
            Stage::Frames => self.part.whole_frame(piece),
            _ => None,
        }
    }

    /// Takes the next bytes of a header or a frame. Gives the frame if they complete it, and the bytes after them.
    fn take<'a>(&mut self, piece: &'a [u8]) -> (Option<HeldFrame>, &'a [u8])
        requires { 0 < length piece.now }
        ensures { StepTakes Represents self.old self.new piece.now result.1.now (frames_held result.0) }
    {
        let Taken { stage, held, rest } = self.part.take(self.stage, piece);
        self.stage = stage;
        (held, rest)
    }
}

impl CaptureReader for FrameReader {
    ghost format = { classic };

    ghost represents = { Represents };

    ghost stop = { frame_reader_stop };

    ghost extent = { frame_reader_extent };

    fn laws() {
        captures_are_decided();
    }

    fn stopped(&self) -> Option<FeedFault> {
        match self.stage {
            Stage::AtFault(fault) => Some(FeedFault::Refused(fault)),
            Stage::LacksMemory => Some(FeedFault::OutOfMemory),
            _ => None,
        }
    }

    fn run_out(&mut self) {
        self.stage = Stage::LacksMemory;
    }

    fn show_front<'a, V: FrameVisitor>(
        &mut self,
        piece: &'a [u8],
        visitor: &mut V,
    ) -> Result<&'a [u8], AllocError> {
        if let Some((frame, rest)) = self.whole_frame(piece) {
            visitor.frame(&frame)?;
            return Ok(rest);
        }
        let (held, rest) = self.take(piece);
        if let Some(held) = held {
            visitor.frame(&held.frame())?;
        }
        Ok(rest)
    }

    /// Ends the file, and returns the number of frames.
    ///
    /// `ShortHeader` and `CutFrame` are returned here. A reader that has refused the file or run out of memory
    /// returns that again.
    fn finish(self) -> Result<u64, FeedFault> {
        match self.stage {
            Stage::Header => Err(FeedFault::Refused(fault_at(
                FaultKind::ShortHeader,
                self.part.kept.came(),
            ))),
            Stage::Frames if self.part.kept.came() == 0 => Ok(self.part.count as u64),
            Stage::Frames => Err(FeedFault::Refused(fault_at(
                FaultKind::CutFrame,
                self.part.place,
            ))),
            Stage::AtFault(fault) => Err(FeedFault::Refused(fault)),
            Stage::LacksMemory => Err(FeedFault::OutOfMemory),
        }
    }
}
