//! Where a reader is in a file, and its steps from one header or frame to the next.

ghost use Rattle.std.specs.Prelude.{◌≡◌, ℕ, ◌+◌, ◌*◌, ◌<◌, ◌≤◌, List, [], ◌∷◌, ◌++◌, length, take, IfSome, IfNone};
ghost use Rattle.pcap_frames.specs.Frame.{frame_content};
ghost use Rattle.pcap_frames.specs.Frame.{IsFrame, bytes_needed};
ghost use Rattle.pcap_frames.specs.Feeding.{Advances, StepTakes};
ghost use Rattle.pcap_frames.specs.Reader.{frames_held};
ghost use Rattle.pcap_frames.specs.FrameReader as state;
ghost use Rattle.pcap_frames.specs.Part.{state_of_part, IsPartInStage, IsPartWithin};
ghost use Rattle.pcap_frames.specs.Part.{place_of_part};
ghost use Rattle.pcap_frames.specs.Lengths.{header_length, packet_header_length, kept_length};
ghost use Rattle.pcap_frames.specs.Lengths.{most_captured};
ghost use Rattle.pcap_frames.specs.Frame.{frame_count_limit};

use crate::file_order::FileOrder;
use crate::header::{header_fault, magic_order};
use crate::reader::framing::{MOST_FRAMES, frame_fault, needed, whole_at};
use crate::reader::held::HeldFrame;
use crate::{CaptureFault, FirstBytes, Frame};
use std::mem;

/// What comes next.
#[derive(Clone, Copy)]
pub(crate) enum Stage {
    /// The file header.
    Header,
    /// A frame, or the end.
    Frames,
    /// Nothing: the file has this fault.
    AtFault(CaptureFault),
    /// Nothing: the visitor ran out of memory.
    LacksMemory,
}

/// The bytes kept of the file header, or of the frame after `count` frames, which begins at the offset `place`.
#[derive(Drop)]
pub(crate) struct FramePart {
    pub(crate) order: FileOrder,
    pub(crate) count: u32,
    pub(crate) place: u64,
    pub(crate) kept: FirstBytes<58>,
}

/// The result of a step: the next stage, the frame that the step completed, and the remaining bytes of the piece.
#[derive(Drop)]
pub(crate) struct Taken<'a> {
    pub(crate) stage: Stage,
    pub(crate) held: Option<HeldFrame>,
    pub(crate) rest: &'a [u8],
}

impl FramePart {
    /// The part before the file's first byte.
    pub(crate) fn new() -> FramePart
        ensures { result.kept ≡ record { first = []; came = 0 } }
    {
        FramePart {
            order: FileOrder::Big,
            count: 0,
            place: 24,
            kept: FirstBytes::new(),
        }
    }

    /// Takes the next bytes that this stage waits for.
    pub(crate) fn take<'a>(&mut self, stage: Stage, piece: &'a [u8]) -> Taken<'a>
        requires has_bytes { 0 < length piece.now }
        requires sound { IsPartInStage stage self.old }
        ensures sound { IsPartInStage result.stage self.new }
        ensures takes { StepTakes state.Represents (state_of_part stage self.old) (state_of_part result.stage self.new) piece.now
            result.rest.now (frames_held result.held) }
    {
        match stage {
            Stage::Header => self.take_header(piece),
            Stage::Frames => self.take_frame(piece),
            Stage::AtFault(_) | Stage::LacksMemory => pass_over(stage, piece),
        }
    }

    /// Takes the next bytes of the file header.
    fn take_header<'a>(&mut self, piece: &'a [u8]) -> Taken<'a>
        requires has_bytes { 0 < length piece.now }
        requires sound { self.old.kept.came < header_length }
        ensures sound { IsPartInStage result.stage self.new }
        ensures takes { StepTakes state.Represents (state.InHeader self.old.kept.first) (state_of_part result.stage self.new) piece.now result.rest.now [] }
        ensures no_frame { frames_held result.held ≡ [] }
    {
        let count = (24 - self.kept.came() as usize).min(piece.len());
        let (front, rest) = piece.split_at(count);
        self.kept.add(front);
        let stage = self.leave_header();
        Taken {
            stage,
            held: None,
            rest,
        }
    }

    /// The stage after the bytes of the file header that arrived.
    fn leave_header(&mut self) -> Stage
        requires { self.old.kept.came ≤ header_length }
        ensures sound { IsPartInStage result self.new }
        ensures advances { (kept front : List ℕ) → self.old.kept.first ≡ take kept_length (kept ++ front)
            → length kept + length front ≡ self.old.kept.came
            → Advances state.Represents (state.InHeader kept) (state_of_part result self.new) front [] }
    {
        let header = self.kept.first();
        if let Some(fault) = header_fault(header) {
            return Stage::AtFault(fault);
        }
        if header.len() < 24 {
            return Stage::Header;
        }
        let Some(order) = magic_order(header) else {
            unreachable!()
        };
        self.order = order;
        self.count = 0;
        self.place = 24;
        self.kept = FirstBytes::new();
        Stage::Frames
    }

    /// Takes the frame at the front of the piece, if the whole frame is there.
    pub(crate) fn whole_frame<'a>(&mut self, piece: &'a [u8]) -> Option<(Frame<'a>, &'a [u8])>
        requires { IsPartWithin self.old }
        ensures sound { IsPartWithin self.new }
        ensures takes { IfSome result (λ found. StepTakes state.Represents (state.InFrames (place_of_part self.old))
            (state.InFrames (place_of_part self.new))
            piece.now found.1.now (frame_content found.0 ∷ [])) }
        ensures is_frame { IfSome result (λ found. IsFrame (frame_content found.0)) }
        ensures none { IfNone result (self.new ≡ self.old) }
    {
        if self.kept.came() != 0 || self.count == MOST_FRAMES {
            return None;
        }
        let (frame, rest) = whole_at(self.order, piece)?;
        self.count += 1;
        self.place += (piece.len() - rest.len()) as u64;
        Some((frame, rest))
    }

    /// Takes the next bytes of a frame, and gives the whole frame with the last of them.
    fn take_frame<'a>(&mut self, piece: &'a [u8]) -> Taken<'a>
        requires has_bytes { 0 < length piece.now }
        requires sound { IsPartWithin self.old }
        ensures sound { IsPartInStage result.stage self.new }
        ensures takes { StepTakes state.Represents (state.InFrames (place_of_part self.old)) (state_of_part result.stage self.new)
            piece.now result.rest.now (frames_held result.held) }
    {
        let left = needed(self.order, self.kept.first()) - self.kept.came();
        let count = (left as usize).min(piece.len());
        let (front, rest) = piece.split_at(count);
        self.kept.add(front);
        let (stage, held) = self.leave_frame();
        Taken { stage, held, rest }
    }

    /// The stage after the bytes of a frame that arrived, and the frame once it is whole.
    fn leave_frame(&mut self) -> (Stage, Option<HeldFrame>)
        requires count { self.old.count ≤ frame_count_limit }
        requires place { self.old.place ≤ header_length + (packet_header_length + most_captured) * self.old.count }
        requires came { self.old.kept.came ≤ bytes_needed self.old.order self.old.kept.first }
        ensures sound { IsPartInStage result.0 self.new }
        ensures advances { (kept front : List ℕ) (came : ℕ) → self.old.kept.first ≡ take kept_length (kept ++ front)
            → self.old.kept.came ≡ came + length front
            → Advances state.Represents (state.InFrames (record (place_of_part self.old) { kept = kept; came = came }))
            (state_of_part result.0 self.new) front (frames_held result.1) }
    {
        let bytes = self.kept.first();
        if let Some(fault) = frame_fault(self.order, self.count, self.place, bytes) {
            return (Stage::AtFault(fault), None);
        }
        let size = needed(self.order, bytes);
        if self.kept.came() < size {
            return (Stage::Frames, None);
        }
        self.count += 1;
        self.place += size;
        let kept = mem::replace(&mut self.kept, FirstBytes::new());
        let held = HeldFrame {
            order: self.order,
            kept,
        };
        (Stage::Frames, Some(held))
    }
}

/// Takes all the bytes, in a stage that no bytes change.
fn pass_over(stage: Stage, piece: &[u8]) -> Taken<'_>
    ensures stage { result.stage ≡ stage }
    ensures nothing { frames_held result.held ≡ [] }
    ensures rest { result.rest.now ≡ [] }
{
    let (_, rest) = piece.split_at(piece.len());
    Taken {
        stage,
        held: None,
        rest,
    }
}
