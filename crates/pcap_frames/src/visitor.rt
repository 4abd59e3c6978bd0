//! The visitor that is shown the frames of a capture.

ghost use Rattle.std.specs.Prelude.{List, [], ◌∷◌, OnOk, OnErr};
ghost use Rattle.pcap_frames.specs.Frame.{FrameValue, frame_content};
ghost use Rattle.pcap_frames.specs.Visitor.{VisitorSees, RepresentSame};

use crate::Frame;
use std::alloc::AllocError;

/// Takes the frames of a capture one by one, in the order of the file.
pub trait FrameVisitor {
    /// The visitor's state represents these frames.
    ghost represents: { Self → List FrameValue → Type 0 };

    /// Takes the next frame. After an error, which means that memory ran out, the visitor represents the same frames
    /// as before.
    fn frame(&mut self, frame: &Frame<'_>) -> Result<(), AllocError>
        ensures seen { OnOk result (VisitorSees represents self.old self.new (frame_content frame.now ∷ [])) }
        ensures unchanged { OnErr result (RepresentSame represents self.old self.new) };
}
