//! The making of a capture.

ghost use Rattle.std.specs.Prelude.{◌≡◌, ◌≤◌, ℕ, List, Option};
ghost use Rattle.pcap_frames.specs.declared.fault.CaptureFault.{CaptureFault};
ghost use Rattle.traffic_maker.specs.{made_capture, most_frames};
ghost use Rattle.hhh_engine.specs.Tasks.{made_task};
ghost use Rattle.hhh_engine.specs.Ending.{course, Ends, SourceFaults};
ghost use Rattle.run_status.specs.declared.status.Status.TheVariants.{BadCapture, ReadFault};

use crate::Status;
use outside_io::Sink;

/// Writes the capture that a seed and a number of frames determine.
pub(crate) fn make<K: Sink>(seed: u64, frames: u32, sink: &mut K) -> Status
    requires { (1 ≤ frames) × (frames ≤ most_frames) }
    ensures ends { (capture : Option (List ℕ)) (faults : SourceFaults)
        → Ends (made_task (λ text. text ≡ made_capture seed frames)) (course K.Sink capture faults faults sink.old sink.new) result }
    ensures no_capture { (fault : CaptureFault) → result ≡ BadCapture fault → ⊥ }
    ensures no_read_fault { result ≡ ReadFault → ⊥ }
{
    match traffic_maker::make(seed, frames, sink) {
        Ok(()) => Status::Done,
        Err(_) => Status::WriteFault,
    }
}
