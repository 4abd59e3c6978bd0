//! Reading the records of a capture.

ghost use Rattle.std.specs.Prelude.{◌≡◌, ◌≤◌, ◌<◌, true, Some, vec_len, length, IfOk, IfErr, OnOk, OnErr, IsErrOf};
ghost use Rattle.std.specs.Io.KnownBytes.{IsAtEnd};
ghost use Rattle.outside_io.specs.{ReadsFront};
ghost use Rattle.pcap_frames.specs.{IsEndFault};
ghost use Rattle.frame_records.specs.CaptureFile.{is_cut_off};
ghost use Rattle.frame_records.specs.Records.{HasRecords, HasRefused};
ghost use Rattle.frame_records.specs.RecordVisitor.{visitor_weighing};
ghost use Rattle.prefix_lattice.specs.{record_limit};

use crate::record_visitor::RecordVisitor;
use crate::{Records, Weigh};
use outside_io::Source;
use pcap_frames::{CaptureFault, FaultKind, ReadRefusal};
use pcapng_frames::read_any;
use std::alloc::{AllocError, Global};

/// Reads a capture, classic or pcapng, to its end through a buffer of 65,536 bytes. Returns the records of its frames in
/// their order, weighed as `weigh` says, with the numbers of all frames and of those skipped. The frames themselves are
/// not kept.
///
/// Under `front` a capture that is cut inside a frame or a block, and has no other fault before, is taken up to there: the
/// offset of the cut frame or block is `cut`. Without `front`, and for a whole capture, `cut` is `None`.
///
/// The refusals are those of reading the frames; `OutOfMemory` may also come from the buffer or a record. After a
/// refusal the source has been read in part, or to its end, and nothing is kept.
pub fn read_records<S: Source>(
    alloc: Global,
    source: &mut S,
    weigh: Weigh,
    front: bool,
) -> Result<Records, ReadRefusal>
    ensures records { IfOk result (HasRecords weigh front (S.left source.old)) }
    ensures few { IfOk result (λ records. length records.list ≤ record_limit) }
    ensures at_end { OnOk result (IsAtEnd (S.left source.new)) }
    ensures refused { IfErr result (HasRefused front (S.left source.old) (S.faults source.old) (S.faults source.new)) }
    ensures front { ReadsFront (S.left source.old) (S.left source.new) }
    ensures later { S.faults source.old ≤ S.faults source.new }
    ensures told { (IsErrOf result ReadRefusal.ReadFault → ⊥) → S.faults source.new ≡ S.faults source.old }
{
    let Ok(mut buffer) = read_buffer(alloc) else {
        return Err(ReadRefusal::OutOfMemory);
    };
    match weigh {
        Weigh::Bytes => read_weighed::<S, false>(alloc, source, &mut buffer, front),
        Weigh::Packets => read_weighed::<S, true>(alloc, source, &mut buffer, front),
    }
}

fn read_weighed<S: Source, const PACKETS: bool>(
    alloc: Global,
    source: &mut S,
    buffer: &mut [u8],
    front: bool,
) -> Result<Records, ReadRefusal>
    requires { 0 < length buffer.old }
    ensures records { IfOk result (HasRecords (visitor_weighing PACKETS) front (S.left source.old)) }
    ensures few { IfOk result (λ records. length records.list ≤ record_limit) }
    ensures at_end { OnOk result (IsAtEnd (S.left source.new)) }
    ensures refused { IfErr result (HasRefused front (S.left source.old) (S.faults source.old) (S.faults source.new)) }
    ensures front { ReadsFront (S.left source.old) (S.left source.new) }
    ensures later { S.faults source.old ≤ S.faults source.new }
    ensures told { (IsErrOf result ReadRefusal.ReadFault → ⊥) → S.faults source.new ≡ S.faults source.old }
{
    let mut visitor = RecordVisitor::<PACKETS>::new(alloc);
    match read_any(alloc, source, &mut visitor, buffer) {
        Ok(_) => Ok(visitor.records),
        Err(ReadRefusal::Capture(fault)) => up_to_cut(visitor.records, fault, front),
        Err(refusal) => Err(refusal),
    }
}

// The records before this fault, where it is a cut frame or block and the front of a cut capture is asked for.
fn up_to_cut(mut records: Records, fault: CaptureFault, front: bool) -> Result<Records, ReadRefusal>
    ensures taken { IfOk result (λ taken. taken ≡ record records { cut = Some fault.place }) }
    ensures asked { OnOk result (front ≡ true) }
    ensures cut { OnOk result (is_cut_off fault.kind ≡ true) }
    ensures ends { OnOk result (IsEndFault fault.kind) }
    ensures refused { IfErr result (λ refusal. refusal ≡ ReadRefusal.Capture fault) }
    ensures other { OnErr result (front ≡ true → is_cut_off fault.kind ≡ true → ⊥) }
{
    if !front {
        return Err(ReadRefusal::Capture(fault));
    }
    match fault.kind {
        FaultKind::CutFrame | FaultKind::CutBlock => {
            records.cut = Some(fault.place);
            Ok(records)
        }
        _ => Err(ReadRefusal::Capture(fault)),
    }
}

fn read_buffer(alloc: Global) -> Result<Vec<u8>, AllocError>
    ensures { IfOk result (λ buffer. 0 < vec_len buffer) }
{
    vec![in alloc; 0; 65_536]
}
