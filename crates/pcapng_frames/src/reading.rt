//! Reading a capture of either format from a source.

ghost use Rattle.std.specs.Prelude.{◌≡◌, ℕ, ◌≤◌, ◌<◌, List, [], ◌++◌, length, take, IfOk, OnErr, IfSome, IsErrOf};
ghost use Rattle.std.specs.Io.KnownBytes.{Consumes, IsAtEnd};
ghost use Rattle.outside_io.specs.{FaultRose, FailsByCount};
ghost use Rattle.pcap_frames.specs.{IsSeen, IsReadingOf};
ghost use Rattle.pcapng_frames.specs.EitherFormat.{begins_as_pcapng, capture_format};
ghost use Rattle.pcapng_frames.specs.FirstBytes.{ReadsFewer};

use crate::block::SECTION_HEADER;
use crate::{NgReader, any_captures_are_decided};
use outside_io::{Failed, Source};
use pcap_frames::{
    CaptureFault, FaultKind, FileOrder, FrameReader, FrameVisitor, ReadRefusal, read_with,
};
use std::alloc::Global;

/// Whether the first four bytes are those of a pcapng capture.
fn begins_as_pcapng(first: &[u8]) -> bool
    requires { 4 ≤ length first.now }
    ensures { result ≡ begins_as_pcapng first.now }
{
    FileOrder::Big.u32_at(first, 0) == SECTION_HEADER
}

/// Reads the next bytes of a source until `first` is full or the source ends. Returns how many there are.
fn read_first<S: Source>(source: &mut S, first: &mut [u8]) -> Result<usize, Failed>
    ensures room { length first.new ≡ length first.old }
    ensures fits { IfOk result (λ count. count ≤ length first.new) }
    ensures read { IfOk result (λ count. Consumes (S.left source.old) (S.left source.new) (take count first.new)) }
    ensures at_end { IfOk result (λ count. count < length first.new → IsAtEnd (S.left source.new)) }
    ensures part { OnErr result (ReadsFewer (length first.new) (S.left source.old) (S.left source.new)) }
    ensures cause { FailsByCount (S.faults source.old) (S.faults source.new) result }
{
    let mut came = 0;
    while came < first.len() {
        let count = source.read(&mut first[came..])?;
        if count == 0 {
            return Ok(came);
        }
        came += count;
    }
    Ok(came)
}

/// Reads a capture of either format to the end of the source through the buffer, and shows the visitor its frames: as
/// pcapng where the first four bytes are 0a 0d 0d 0a, and else as classic. Returns the number of frames, or what
/// `read_frames` returns. `OutOfMemory` may also come from the interfaces of a section, a byte for each.
///
/// A file of fewer than four bytes is refused as `ShortHeader`. The source is read to its end also if the file ends
/// inside a block.
pub fn read_any<S: Source, V: FrameVisitor>(
    alloc: Global,
    source: &mut S,
    visitor: &mut V,
    buffer: &mut [u8],
) -> Result<u64, ReadRefusal>
    requires { 0 < length buffer.old }

    // What the visitor saw: the frames of the capture, those before the fault, or some of them.
    ensures seen { IsSeen capture_format [] V.represents visitor.old visitor.new (S.left source.old) (S.left source.new) result }

    ensures room { length buffer.new ≡ length buffer.old }

    // When each result is returned.
    ensures exact { IfSome (S.left source.old) (λ file. IsReadingOf capture_format file result) }
    ensures later { S.faults source.old ≤ S.faults source.new }
    ensures fault { IsErrOf result ReadRefusal.ReadFault → FaultRose (S.faults source.old) (S.faults source.new) }
    ensures told { (IsErrOf result ReadRefusal.ReadFault → ⊥) → S.faults source.new ≡ S.faults source.old }
{
    any_captures_are_decided();
    let mut first = [0; 4];
    let came = read_first(source, &mut first)?;
    if came < 4 {
        return Err(ReadRefusal::Capture(CaptureFault {
            kind: FaultKind::ShortHeader,
            place: came as u64,
        }));
    }
    if begins_as_pcapng(&first) {
        read_with(NgReader::new(alloc), &first, source, visitor, buffer)
    } else {
        read_with(FrameReader::new(), &first, source, visitor, buffer)
    }
}
