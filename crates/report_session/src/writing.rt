//! Writing a text to a sink.

ghost use Rattle.std.specs.Prelude.{◌≡◌, IfErr, OnErr, OnOk};
ghost use Rattle.std.specs.Io.KnownBytes.{Appends};
ghost use Rattle.outside_io.specs.{AppendsPart, FaultRose};
ghost use Rattle.run_status.specs.declared.status.Status.TheVariants.{WriteFault};

use outside_io::{Sink, write_all};
use run_status::Status;

/// Writes a text.
pub(crate) fn write<K: Sink>(sink: &mut K, text: &[u8]) -> Result<(), Status>
    ensures whole { OnOk result (Appends (K.taken sink.old) (K.taken sink.new) text.now) }
    ensures faults { OnOk result (K.faults sink.new ≡ K.faults sink.old) }
    ensures beginning { OnErr result (AppendsPart (K.taken sink.old) (K.taken sink.new) text.now) }
    ensures fault { IfErr result (λ status. (status ≡ WriteFault) × FaultRose (K.faults sink.old) (K.faults sink.new)) }
{
    match write_all(sink, text) {
        Ok(()) => Ok(()),
        Err(_) => Err(Status::WriteFault),
    }
}
