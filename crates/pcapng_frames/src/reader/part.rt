//! Where a reader is in a file, and its steps from one block to the next.

ghost use Rattle.std.specs.Prelude.{◌≡◌, ℕ, ◌+◌, ◌^◌, ◌<◌, ◌≤◌, List, [], ◌++◌, length, IfOk, IfSome, IfNone};
ghost use Rattle.pcapng_frames.specs.declared.verdict.Verdict.TheVariants as verdicts;
ghost use Rattle.pcapng_frames.specs.Block.{IsPacketBlock, block_at};
ghost use Rattle.pcap_frames.specs.{FrameValue, AreFrames, header_fault_at, Advances, StepTakes, IsFinalResult};
ghost use Rattle.pcap_frames.specs.declared.fault.FaultKind.TheVariants.{CutBlock};
ghost use Rattle.pcap_frames.specs.declared.fault.FeedFault.TheVariants.{Refused};
ghost use Rattle.pcapng_frames.specs.NgCapture.{pcapng};
ghost use Rattle.pcapng_frames.specs.Kept.{KeptValue, kept_of, kept_and, kept_verdict};
ghost use Rattle.pcapng_frames.specs.NgReader as state;
ghost use Rattle.pcapng_frames.specs.NgPart.{section_place, place_of_part, state_of_part, IsPartInStage, IsPartWithin};
ghost use Rattle.pcapng_frames.specs.NgPart.{IsSectionWithin, block_needs, frames_held, frames_shown};
ghost use Rattle.pcapng_frames.specs.Verdict.{block_verdict};
ghost use Rattle.pcapng_frames.specs.Section.{before_blocks, after_block, frames_of_content};

use crate::block::{BlockKind, ENHANCED_PACKET};
use crate::reader::kept::KeptBytes;
use crate::reader::packet::{HeldPacket, frame_at};
use crate::reader::section::SectionState;
use crate::verdict::{Verdict, is_whole_packet, verdict_of};
use pcap_frames::{CaptureFault, FaultKind, FeedFault, FileOrder, Frame};
use std::alloc::{AllocError, Global};
use std::mem;

/// What comes next.
#[derive(Clone, Copy)]
pub(crate) enum Stage {
    /// A block, or the end.
    Blocks,
    /// Nothing: the file has this fault.
    AtFault(CaptureFault),
    /// Nothing: memory ran out.
    LacksMemory,
}

/// What the blocks so far leave, the number of their frames, and the bytes kept of the next block.
#[derive(Drop)]
pub(crate) struct BlockPart {
    pub(crate) section: SectionState,
    pub(crate) frames: u32,
    pub(crate) kept: KeptBytes,
}

/// The next stage, and the packet that a step completed.
#[derive(Drop)]
pub(crate) struct Left {
    pub(crate) stage: Stage,
    pub(crate) held: Option<HeldPacket>,
}

/// The result of a step: the next stage, the packet that the step completed, and the remaining bytes of the piece.
#[derive(Drop)]
pub(crate) struct Taken<'a> {
    pub(crate) left: Left,
    pub(crate) rest: &'a [u8],
}

/// A whole packet of a piece: its frame, if it gives one, and the bytes after it.
#[derive(Clone, Copy)]
pub(crate) struct Whole<'a> {
    pub(crate) frame: Option<Frame<'a>>,
    pub(crate) rest: &'a [u8],
}

impl BlockPart {
    /// The part before the file's first byte.
    pub(crate) fn new(alloc: Global) -> BlockPart
        ensures place { place_of_part result ≡ record { section = before_blocks; frames = 0; kept = kept_of [] } }
        ensures within { IsPartWithin result }
    {
        BlockPart {
            section: SectionState::new(alloc),
            frames: 0,
            kept: KeptBytes::new(),
        }
    }

    /// Takes the next bytes that this stage waits for. The only error is that memory runs out.
    pub(crate) fn take<'a>(
        &mut self,
        stage: Stage,
        piece: &'a [u8],
    ) -> Result<Taken<'a>, AllocError>
        requires has_bytes { 0 < length piece.now }
        requires sound { IsPartInStage stage self.old }
        ensures sound { IfOk result (λ taken. IsPartInStage taken.left.stage self.new) }
        ensures takes { IfOk result (λ taken. StepTakes state.NgRepresents (state_of_part stage self.old) (state_of_part taken.left.stage self.new) piece.now
            taken.rest.now (frames_held taken.left.held)) }
    {
        match stage {
            Stage::Blocks => self.take_block(piece),
            Stage::AtFault(_) | Stage::LacksMemory => Ok(pass_over(stage, piece)),
        }
    }

    /// Takes the enhanced packet at the front of the piece, if no byte of it arrived before and the whole block is there
    /// without a fault.
    #[inline(always)]
    pub(crate) fn whole_packet<'a>(&mut self, piece: &'a [u8]) -> Option<Whole<'a>>
        requires { IsPartWithin self.old }
        ensures sound { IsPartWithin self.new }
        ensures takes { IfSome result (λ whole. StepTakes state.NgRepresents (state.InBlocks (place_of_part self.old))
            (state.InBlocks (place_of_part self.new)) piece.now whole.rest.now (frames_shown whole.frame)) }
        ensures are_frames { IfSome result (λ whole. AreFrames (frames_shown whole.frame)) }
        ensures none { IfNone result (self.new ≡ self.old) }
    {
        if self.kept.came() != 0 {
            return None;
        }
        // The call is inlined with a constant order in each arm, so that no number of the packet needs a test of it.
        match self.section.order {
            FileOrder::Big => self.packet_in(FileOrder::Big, piece),
            FileOrder::Little => self.packet_in(FileOrder::Little, piece),
        }
    }

    /// Takes the enhanced packet at the front of the piece, in a section of this byte order.
    #[inline(always)]
    fn packet_in<'a>(&mut self, order: FileOrder, piece: &'a [u8]) -> Option<Whole<'a>>
        requires within { IsPartWithin self.old }
        requires none { self.old.kept.came ≡ 0 }
        requires order { self.old.section.order ≡ order }
        ensures sound { IsPartWithin self.new }
        ensures takes { IfSome result (λ whole. StepTakes state.NgRepresents (state.InBlocks (place_of_part self.old))
            (state.InBlocks (place_of_part self.new)) piece.now whole.rest.now (frames_shown whole.frame)) }
        ensures are_frames { IfSome result (λ whole. AreFrames (frames_shown whole.frame)) }
        ensures none { IfNone result (self.new ≡ self.old) }
    {
        let (block, rest) = split_packet(order, piece)?;
        if !is_whole_packet(&self.section, order, block) {
            return None;
        }
        let frame = self.pass_packet(order, block);
        Some(Whole { frame, rest })
    }

    /// Goes past a whole enhanced packet of the piece, and gives its frame if its interface is Ethernet.
    #[inline(always)]
    fn pass_packet<'a>(&mut self, order: FileOrder, block: &'a [u8]) -> Option<Frame<'a>>
        requires within { IsPartWithin self.old }
        requires none { self.old.kept.came ≡ 0 }
        requires order { self.old.section.order ≡ order }
        requires packet { IsPacketBlock order block.now }
        requires whole { block_verdict (section_place self.old.section) block.now ≡ verdicts.IsWhole }
        ensures within { IsPartWithin self.new }
        ensures place { place_of_part self.new ≡ record {
          section = after_block (section_place self.old.section) (block_at self.old.section.order block.now);
          frames = self.old.frames + length (frames_shown result);
          kept = self.old.kept;
        } }
        ensures gives { frames_shown result
            ≡ frames_of_content self.old.section.interfaces.items (block_at self.old.section.order block.now).content }
        ensures are_frames { AreFrames (frames_shown result) }
    {
        if !self.section.end_packet(order, block) {
            return None;
        }
        self.frames += 1;
        Some(frame_at(order, block))
    }

    /// How many bytes the block needs, as far as is known.
    fn needed(&self) -> u64
        requires { IsPartWithin self.now }
        ensures needs { result ≡ block_needs self.now.section.order self.now.kept.came self.now.kept.first }
        ensures more { self.now.kept.came < result }
        ensures bound { result < 2 ^ 32 }
    {
        let bytes = self.kept.first();
        if self.kept.came() < 12 {
            return 12;
        }
        let kind = BlockKind::of_type(self.section.order.u32_at(bytes, 0));
        kind.order(self.section.order, bytes).u32_at(bytes, 4) as u64
    }

    /// Takes the next bytes of a block, and gives its packet with the last of them.
    fn take_block<'a>(&mut self, piece: &'a [u8]) -> Result<Taken<'a>, AllocError>
        requires has_bytes { 0 < length piece.now }
        requires sound { IsPartWithin self.old }
        ensures sound { IfOk result (λ taken. IsPartInStage taken.left.stage self.new) }
        ensures takes { IfOk result (λ taken. StepTakes state.NgRepresents (state.InBlocks (place_of_part self.old)) (state_of_part taken.left.stage self.new)
            piece.now taken.rest.now (frames_held taken.left.held)) }
    {
        let left = self.needed() - self.kept.came();
        let count = (left as usize).min(piece.len());
        let (front, rest) = piece.split_at(count);
        self.kept.add(front);
        let left = self.leave_block()?;
        Ok(Taken { left, rest })
    }

    /// What the bytes of a block that arrived leave.
    fn leave_block(&mut self) -> Result<Left, AllocError>
        requires within { IsSectionWithin self.old.section }
        requires frames { self.old.frames ≤ self.old.section.count }
        ensures sound { IfOk result (λ left. IsPartInStage left.stage self.new) }
        ensures advances { IfOk result (λ left. (kept : KeptValue) (front : List ℕ) → self.old.kept ≡ kept_and kept front
            → kept.came + length front ≤ block_needs self.old.section.order kept.came kept.first
            → Advances state.NgRepresents (state.InBlocks (record (place_of_part self.old) { kept = kept })) (state_of_part left.stage self.new) front
            (frames_held left.held)) }
    {
        let verdict = verdict_of(
            &self.section,
            self.kept.came(),
            self.kept.first(),
            self.kept.last(),
        );
        match verdict {
            Verdict::Waits => Ok(Left {
                stage: Stage::Blocks,
                held: None,
            }),
            Verdict::IsWrong(kind) => {
                let place = self.section.place;
                Ok(Left {
                    stage: Stage::AtFault(CaptureFault { kind, place }),
                    held: None,
                })
            }
            Verdict::IsWhole => {
                let held = self.end_block()?;
                Ok(Left {
                    stage: Stage::Blocks,
                    held,
                })
            }
        }
    }

    /// Ends the file, and returns the number of frames, unless the file ends inside a block or before the first one.
    pub(crate) fn end(&self) -> Result<u64, FeedFault>
        ensures { (file : List ℕ) (frames : List FrameValue) → state.IsInBlock (place_of_part self.now) file frames
            → IsFinalResult pcapng file frames result }
    {
        if self.kept.came() > 0 {
            return Err(self.cut());
        }
        if self.section.count == 0 {
            return Err(self.cut());
        }
        Ok(self.frames as u64)
    }

    /// The fault of a file that ends here.
    fn cut(&self) -> FeedFault
        ensures { result ≡ Refused (header_fault_at CutBlock self.now.section.place) }
    {
        FeedFault::Refused(CaptureFault {
            kind: FaultKind::CutBlock,
            place: self.section.place,
        })
    }

    /// Goes past a whole block, and gives its packet if that is of an Ethernet interface.
    fn end_block(&mut self) -> Result<Option<HeldPacket>, AllocError>
        requires within { IsSectionWithin self.old.section }
        requires frames { self.old.frames ≤ self.old.section.count }
        requires whole { kept_verdict (section_place self.old.section) self.old.kept ≡ verdicts.IsWhole }
        ensures within { IfOk result (λ _. IsPartWithin self.new) }
        ensures place { IfOk result (λ held. place_of_part self.new ≡ record {
          section = after_block (section_place self.old.section) (block_at self.old.section.order self.old.kept.first);
          frames = self.old.frames + length (frames_held held);
          kept = kept_of [];
        }) }
        ensures gives { IfOk result (λ held. frames_held held
            ≡ frames_of_content self.old.section.interfaces.items (block_at self.old.section.order self.old.kept.first).content) }
    {
        let order = self.section.order;
        let gives = self.section.end_block(self.kept.first())?;
        let kept = mem::replace(&mut self.kept, KeptBytes::new());
        if !gives {
            return Ok(None);
        }
        self.frames += 1;
        Ok(Some(HeldPacket { order, kept }))
    }
}

/// The enhanced packet at the front of the piece, as long as its length says, and the bytes after it.
#[inline(always)]
fn split_packet(order: FileOrder, piece: &[u8]) -> Option<(&[u8], &[u8])>
    ensures joined { IfSome result (λ found. piece.now ≡ found.0.now ++ found.1.now) }
    ensures packet { IfSome result (λ found. IsPacketBlock order found.0.now) }
{
    if piece.len() < 32 {
        return None;
    }
    if order.u32_at(piece, 0) != ENHANCED_PACKET {
        return None;
    }
    let size = order.u32_at(piece, 4) as usize;
    if size < 32 {
        return None;
    }
    if piece.len() < size {
        return None;
    }
    Some(piece.split_at(size))
}

/// Takes all the bytes, in a stage that no bytes change.
fn pass_over(stage: Stage, piece: &[u8]) -> Taken<'_>
    ensures stage { result.left.stage ≡ stage }
    ensures nothing { frames_held result.left.held ≡ [] }
    ensures rest { result.rest.now ≡ [] }
{
    let (_, rest) = piece.split_at(piece.len());
    let left = Left { stage, held: None };
    Taken { left, rest }
}
