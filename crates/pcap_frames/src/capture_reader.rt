//! The reader of one format of captures, fed in pieces of any size.

ghost use Rattle.std.specs.Prelude.{◌≡◌, ℕ, ◌<◌, List, ◌++◌, length, Option, Some, IfOk, OnOk, OnErr};
ghost use Rattle.pcap_frames.specs.declared.fault.FeedFault.{FeedFault};
ghost use Rattle.pcap_frames.specs.declared.fault.FeedFault.TheVariants.{OutOfMemory};
ghost use Rattle.pcap_frames.specs.Frame.{FrameValue};
ghost use Rattle.pcap_frames.specs.CaptureFormat.{Format};
ghost use Rattle.pcap_frames.specs.Decided.{IsDecided};
ghost use Rattle.pcap_frames.specs.Feeding.{HasStopped, IsResultAfter, IfHadMemory, FeedsReader, ShowsBeginning};
ghost use Rattle.pcap_frames.specs.Feeding.{IsResultOf, IsFinalResult, ReadsFormat, StepShowsFront};
ghost use Rattle.pcap_frames.specs.Visitor.{RepresentSame};

use crate::{FeedFault, FrameVisitor};
use std::alloc::AllocError;

/// Reads the captures of one format in pieces of any size. A format gives the steps of a reader, and `feed` takes them.
pub trait CaptureReader: Drop {
    /// The format.
    ghost format: { Format };

    /// The reader was fed these bytes at the front of a file, which contain these whole frames.
    ghost represents: { Self → List ℕ → List FrameValue → Type 0 };

    /// Why the reader takes no more bytes, if it has stopped.
    ghost stop: { Self → Option FeedFault };

    /// How many bytes the reader was fed, while it goes on.
    ghost extent: { Self → ℕ };

    /// The laws of the format and of its readers.
    fn laws()
        ensures decided { IsDecided format }
        ensures reads { ReadsFormat format represents stop extent };

    /// Why the reader takes no more bytes, if it has stopped.
    fn stopped(&self) -> Option<FeedFault>
        ensures { result ≡ stop self.now };

    /// Stops the reader, which ran out of memory.
    fn run_out(&mut self)
        ensures { stop self.new ≡ Some OutOfMemory };

    /// Takes a front of the piece, and shows the visitor the frame that it completes. Returns the bytes after it.
    ///
    /// After `AllocError` a front of the piece may be lost, so the reader is then to be stopped by `run_out`.
    fn show_front<'a, V: FrameVisitor>(
        &mut self,
        piece: &'a [u8],
        visitor: &mut V,
    ) -> Result<&'a [u8], AllocError>
        requires { 0 < length piece.now }
        ensures ok { IfOk result (λ rest.
            StepShowsFront represents V.represents visitor.old visitor.new self.old self.new piece.now rest.now) }
        ensures err { OnErr result (RepresentSame V.represents visitor.old visitor.new) };

    /// Ends the file, and returns the number of frames.
    ///
    /// A fault that only the end of a file makes is returned here. A reader that has refused the file or run out of
    /// memory returns that again.
    fn finish(self) -> Result<u64, FeedFault>
        ensures stopped { HasStopped (stop self) → IsResultAfter (stop self) result }
        ensures end { (file : List ℕ) (frames : List FrameValue) → represents self file frames
            → IsFinalResult format file frames result };

    /// Feeds the next piece of the file, and shows the visitor the frames that the bytes so far complete.
    ///
    /// `Refused` is returned as soon as the bytes so far show a fault, however the file continues, and then by each
    /// later call. `OutOfMemory` is returned where the reader or the visitor has no memory for what the piece contains,
    /// and then by each later call. A reader that has returned either takes no more bytes.
    final fn feed<V: FrameVisitor>(
        &mut self,
        piece: &[u8],
        visitor: &mut V,
    ) -> Result<(), FeedFault>
        // What the reader represents, and what the visitor saw.
        ensures fed { IfHadMemory result
            (FeedsReader represents V.represents visitor.old visitor.new self.old self.new piece.now)
            (ShowsBeginning format represents V.represents visitor.old visitor.new self.old piece.now) }

        // When each result is returned.
        ensures answer { IsResultAfter (stop self.new) result }
        ensures exact { (before : List ℕ) (frames : List FrameValue) → represents self.old before frames
            → IsResultOf format (before ++ piece.now) result }

        // After a fault, or after memory ran out, nothing changes.
        ensures stays { HasStopped (stop self.old) → (self.new ≡ self.old) × (visitor.new ≡ visitor.old) }
    {
        Self::laws();
        if let Some(fault) = self.stopped() {
            return Err(fault);
        }
        let Ok(()) = show_all(self, piece, visitor) else {
            self.run_out();
            return Err(FeedFault::OutOfMemory);
        };
        match self.stopped() {
            Some(fault) => Err(fault),
            None => Ok(()),
        }
    }
}

/// Shows the visitor the frames that the piece completes.
fn show_all<R: CaptureReader, V: FrameVisitor>(
    reader: &mut R,
    piece: &[u8],
    visitor: &mut V,
) -> Result<(), AllocError>
    ensures ok { OnOk result (FeedsReader R.represents V.represents visitor.old visitor.new reader.old reader.new piece.now) }
    ensures err { OnErr result (ShowsBeginning R.format R.represents V.represents visitor.old visitor.new reader.old piece.now) }
{
    R::laws();
    let mut rest = piece;
    while !rest.is_empty() {
        rest = reader.show_front(rest, visitor)?;
    }
    Ok(())
}
