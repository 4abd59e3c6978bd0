//! Reading a pcapng capture in pieces of any size. The modules below hold what is kept between two pieces.

mod kept;
mod packet;
mod part;
pub(crate) mod section;

ghost use Rattle.std.specs.Prelude.{◌≡◌, ◌<◌, ◌↔◌, List, [], length, IfOk, IfSome, IfNone, OnErr};
ghost use Rattle.pcap_frames.specs.{FrameValue, AreFrames, StepTakes, VisitorSees};
ghost use Rattle.pcapng_frames.specs.NgCapture.{pcapng};
ghost use Rattle.pcapng_frames.specs.NgPart.{frames_held, frames_shown};
ghost use Rattle.pcapng_frames.specs.NgReader.{NgRepresents, ng_reader_stop, ng_reader_extent};

use crate::ng_captures_are_decided;
use packet::HeldPacket;
use part::{BlockPart, Stage, Whole};
use pcap_frames::{CaptureReader, FeedFault, FrameVisitor};
use std::alloc::{AllocError, Global};
use std::marker::Model;

/// Reads a pcapng capture in pieces of any size. Between two pieces it keeps the first 70 bytes of a block and its
/// last four, counts, and a byte for each interface of the section.
#[derive(Drop)]
pub struct NgReader {
    stage: Stage,
    part: BlockPart,
}

impl Model for NgReader {
    ghost use Rattle.pcapng_frames.specs.NgReader.{NgReaderState};
    ghost use Rattle.pcapng_frames.specs.NgPart.{state_of_part, IsPartInStage};

    ghost Value = { NgReaderState };

    ghost view = { λ r. state_of_part r.stage r.part };

    ghost invariant = { λ r. IsPartInStage r.stage r.part };
}

impl NgReader {
    /// A reader that was fed no bytes. It takes memory only for the interfaces of a section, a byte for each.
    pub fn new(alloc: Global) -> NgReader
        ensures { NgRepresents result [] [] }
    {
        NgReader {
            stage: Stage::Blocks,
            part: BlockPart::new(alloc),
        }
    }

    /// Takes the next bytes of a block. Gives its packet if they complete it, and the bytes after them.
    fn take<'a>(&mut self, piece: &'a [u8]) -> Result<(Option<HeldPacket>, &'a [u8]), AllocError>
        requires { 0 < length piece.now }
        ensures { IfOk result (λ taken. StepTakes NgRepresents self.old self.new piece.now taken.1.now (frames_held taken.0)) }
    {
        match self.part.take(self.stage, piece) {
            Ok(taken) => {
                self.stage = taken.left.stage;
                Ok((taken.left.held, taken.rest))
            }
            Err(error) => {
                self.stage = Stage::LacksMemory;
                Err(error)
            }
        }
    }

    /// Takes the enhanced packet at the front of the piece, if the reader is between two blocks and the whole packet is
    /// there without a fault.
    #[inline(always)]
    fn whole_packet<'a>(&mut self, piece: &'a [u8]) -> Option<Whole<'a>>
        ensures takes { IfSome result (λ whole. StepTakes NgRepresents self.old self.new piece.now whole.rest.now (frames_shown whole.frame)) }
        ensures are_frames { IfSome result (λ whole. AreFrames (frames_shown whole.frame)) }
        ensures none { IfNone result (self.new ≡ self.old) }
    {
        match self.stage {
            Stage::Blocks => self.part.whole_packet(piece),
            Stage::AtFault(_) | Stage::LacksMemory => None,
        }
    }

    /// Takes the next bytes of a block, and shows the visitor its packet if they complete it. Returns the bytes after them.
    ///
    /// This isn't inlined, so that the loop over whole packets doesn't clear the room of a kept one at each turn.
    #[inline(never)]
    fn show_next<'a, V: FrameVisitor>(
        &mut self,
        piece: &'a [u8],
        visitor: &mut V,
    ) -> Result<&'a [u8], AllocError>
        requires { 0 < length piece.now }
        ensures ok { IfOk result (λ rest. (given : List FrameValue) × StepTakes NgRepresents self.old self.new piece.now rest.now given
            × AreFrames given × VisitorSees V.represents visitor.old visitor.new given) }
        ensures err { OnErr result ((frames : List FrameValue) → (V.represents visitor.old frames ↔ V.represents visitor.new frames)) }
    {
        let (held, rest) = self.take(piece)?;
        if let Some(held) = held {
            visitor.frame(&held.frame())?;
        }
        Ok(rest)
    }
}

impl CaptureReader for NgReader {
    ghost format = { pcapng };

    ghost represents = { NgRepresents };

    ghost stop = { ng_reader_stop };

    ghost extent = { ng_reader_extent };

    fn laws() {
        ng_captures_are_decided();
    }

    fn stopped(&self) -> Option<FeedFault> {
        match self.stage {
            Stage::AtFault(fault) => Some(FeedFault::Refused(fault)),
            Stage::LacksMemory => Some(FeedFault::OutOfMemory),
            Stage::Blocks => None,
        }
    }

    fn run_out(&mut self) {
        self.stage = Stage::LacksMemory;
    }

    fn show_front<'a, V: FrameVisitor>(
        &mut self,
        piece: &'a [u8],
        visitor: &mut V,
    ) -> Result<&'a [u8], AllocError> {
        if let Some(whole) = self.whole_packet(piece) {
            if let Some(frame) = whole.frame {
                visitor.frame(&frame)?;
            }
            return Ok(whole.rest);
        }
        self.show_next(piece, visitor)
    }

    /// Ends the file, and returns the number of frames.
    ///
    /// `CutBlock` is returned here. A reader that has refused the file or run out of memory returns that again.
    fn finish(self) -> Result<u64, FeedFault> {
        match self.stage {
            Stage::Blocks => self.part.end(),
            Stage::AtFault(fault) => Err(FeedFault::Refused(fault)),
            Stage::LacksMemory => Err(FeedFault::OutOfMemory),
        }
    }
}
