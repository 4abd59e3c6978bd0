//! What the calling thread does while workers feed.

ghost use Rattle.pass_tokens.specs.{IsPassOf, WordsValue, view};
ghost use Rattle.position_words.specs.declared.view.View.{View};
ghost use Rattle.gate_workers.specs.LaterView.{StaysReady};

use pass_tokens::{Board, Pass};
use std::alloc::Global;
use std::sync::Wait;

/// The rounds of the calling thread. The implementation states what they need and what they do.
pub trait Rounds {
    /// What the rounds need of the board and of the pass's view.
    ghost ready: { Self → WordsValue → View → Type 0 };

    /// What they need still holds of a later view of the same steps.
    ghost stays: { (rounds : Self) → StaysReady (ready rounds) };

    /// What they do: the rounds and the pass's view before, and both after.
    ghost does: { Self → View → Self → View → Type 0 };

    /// Makes all rounds with a pass of the board.
    fn go<R: Wait>(&mut self, rt: &R, alloc: Global, board: &Board, pass: &mut Pass)
        requires pass { IsPassOf board.now pass.old }
        requires ready { ready self.old board.now (view pass.old) }
        ensures does { does self.old (view pass.old) self.new (view pass.new) }
        ensures pass { IsPassOf board.now pass.new };
}
