//! Reading a capture from a source.

ghost use Rattle.std.specs.Prelude.{◌≡◌, ℕ, ◌≤◌, ◌<◌, List, [], ◌++◌, length, IfSome, IsErrOf};
ghost use Rattle.outside_io.specs.{FaultRose};
ghost use Rattle.pcap_frames.specs.CaptureFormat.{classic};
ghost use Rattle.pcap_frames.specs.Reading.{IsSeen, IsReadingOf};

use crate::{CaptureReader, FrameReader, FrameVisitor, ReadRefusal};
use outside_io::Source;

/// Reads a capture to the end of the source through the buffer, and shows the visitor its frames. Returns the number
/// of frames. The buffer has room for at least one byte, and may hold any bytes afterwards.
///
/// `Capture` is returned where the bytes are not a capture, with the first fault. The visitor saw the frames before
/// it. The source may have been read past the fault, and was read to its end if the end makes the fault, as for a cut
/// frame. `ReadFault` is returned exactly where a call of the source failed, and `OutOfMemory` may be returned at each
/// frame. After either, the source was read in part, and the visitor saw the frames of that part, or after
/// `OutOfMemory` the first of them.
pub fn read_frames<S: Source, V: FrameVisitor>(
    source: &mut S,
    visitor: &mut V,
    buffer: &mut [u8],
) -> Result<u64, ReadRefusal>
    requires { 0 < length buffer.old }

    // What the visitor saw: the frames of the capture, those before the fault, or some of them.
    ensures seen { IsSeen classic [] V.represents visitor.old visitor.new (S.left source.old) (S.left source.new) result }

    ensures room { length buffer.new ≡ length buffer.old }

    // When each result is returned.
    ensures exact { IfSome (S.left source.old) (λ file. IsReadingOf classic file result) }
    ensures later { S.faults source.old ≤ S.faults source.new }
    ensures fault { IsErrOf result ReadRefusal.ReadFault → FaultRose (S.faults source.old) (S.faults source.new) }
    ensures told { (IsErrOf result ReadRefusal.ReadFault → ⊥) → S.faults source.new ≡ S.faults source.old }
{
    read_with(FrameReader::new(), &[], source, visitor, buffer)
}

/// Reads on to the end of a source with a reader that was fed no bytes, which is first fed these bytes: they were read
/// before, and the file is these bytes and then the source. Returns and shows the visitor what `read_frames` does, by the
/// reader's format.
pub fn read_with<R: CaptureReader, S: Source, V: FrameVisitor>(
    mut reader: R,
    first: &[u8],
    source: &mut S,
    visitor: &mut V,
    buffer: &mut [u8],
) -> Result<u64, ReadRefusal>
    requires unfed { R.represents reader [] [] }
    requires room { 0 < length buffer.old }

    // What the visitor saw: the frames of the capture, those before the fault, or some of them.
    ensures seen { IsSeen R.format first.now V.represents visitor.old visitor.new (S.left source.old) (S.left source.new) result }

    ensures room { length buffer.new ≡ length buffer.old }

    // When each result is returned.
    ensures exact { IfSome (S.left source.old) (λ rest. IsReadingOf R.format (first.now ++ rest) result) }
    ensures later { S.faults source.old ≤ S.faults source.new }
    ensures fault { IsErrOf result ReadRefusal.ReadFault → FaultRose (S.faults source.old) (S.faults source.new) }
    ensures told { (IsErrOf result ReadRefusal.ReadFault → ⊥) → S.faults source.new ≡ S.faults source.old }
{
    R::laws();
    reader.feed(first, visitor)?;
    loop {
        let count = source.read(buffer)?;
        if count == 0 {
            break;
        }
        let (piece, _) = buffer.split_at(count);
        reader.feed(piece, visitor)?;
    }
    Ok(reader.finish()?)
}
