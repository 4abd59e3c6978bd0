//! Frames that wait to be written together.

ghost use Rattle.std.specs.Prelude.{ℕ, ◌≡◌, ◌+◌, ◌*◌, ◌≤◌, [], ◌++◌, length};
ghost use Rattle.traffic_maker.specs.Making.{capture_frames, most_frames};
ghost use Rattle.traffic_maker.specs.Draws.{state_after};
ghost use Rattle.traffic_maker.specs.Frame.{frame_length};
ghost use Rattle.traffic_maker.specs.Piece.{frames_in_piece, bytes_in_piece};

use crate::draws::Draws;
use crate::frame::{FRAME_LENGTH, next_frame};
use std::marker::Model;

/// The most frames of a piece.
pub(crate) const MOST_FRAMES: u32 = 640;

/// A piece of a capture: at most 640 frames, one after the other. The bytes are part of the value, so it allocates no
/// memory.
#[derive(Drop)]
pub(crate) struct Piece {
    bytes: [u8; 32_000],
    length: usize,
}

impl Model for Piece {
    ghost use Rattle.std.specs.Prelude.{ℕ, List, ◌≤◌, take};
    ghost use Rattle.traffic_maker.specs.Piece.{bytes_in_piece};

    ghost Value = { List ℕ };

    ghost view = { λ piece. take piece.length piece.bytes };

    ghost invariant = { λ piece. piece.length ≤ bytes_in_piece };
}

impl Piece {
    /// A piece without frames.
    pub(crate) fn new() -> Piece
        ensures { result ≡ [] }
    {
        Piece {
            bytes: [0; 32_000],
            length: 0,
        }
    }

    /// The bytes of the piece.
    pub(crate) fn as_slice(&self) -> &[u8]
        ensures { result.now ≡ self.now }
    {
        &self.bytes[..self.length]
    }

    /// Replaces the contents by `count` frames, at most 640, from the index `first` on. The numbers for the frames before
    /// them must be drawn.
    pub(crate) fn fill(&mut self, draws: &mut Draws, first: u32, count: u32)
        requires { (count ≤ frames_in_piece) × (first + count ≤ most_frames) }
        ensures made { (seed : ℕ) → draws.old.state ≡ state_after seed (2 * first) → self.new ≡ capture_frames seed first count }
        ensures drawn { (seed : ℕ) → draws.old.state ≡ state_after seed (2 * first)
            → draws.new.state ≡ state_after seed (2 * (first + count)) }
    {
        self.length = 0;
        for index in first..first + count {
            self.push(&next_frame(draws, index));
        }
    }

    // Adds a frame.
    fn push(&mut self, frame: &[u8; 50])
        requires { length self.old + frame_length ≤ bytes_in_piece }
        ensures { self.new ≡ self.old ++ frame.now }
    {
        let end = self.length + FRAME_LENGTH;
        self.bytes[self.length..end].copy_from_slice(frame);
        self.length = end;
    }
}
