//! The making of a store.

ghost use Rattle.std.specs.Prelude.{ℕ, ◌≡◌, List, Option};
ghost use Rattle.pcap_frames.specs.declared.fault.CaptureFault.{CaptureFault};
ghost use Rattle.command_words.specs.{AreLimited};
ghost use Rattle.hhh_engine.specs.Tasks.{format_task};
ghost use Rattle.hhh_engine.specs.Ending.{course, Ends, FormatEnds, SourceFaults};
ghost use Rattle.report_session.specs.{settings_of_store};
ghost use Rattle.run_status.specs.declared.status.Status.TheVariants.{BadCapture, ReadFault, DiskFault};

use crate::{Settings, Status};
use checkpoint::{formatted_stores_are_empty, header_of};
use outside_io::{Sink, write_all};
use report_session::store_settings;
use slot_disk::Disk;

/// Formats the store of these settings, and writes that it is formatted. What the disk held is lost. After `DiskFault`
/// nothing was written to the sink, at most the first 64 bytes of the disk have changed, and the store is formatted again
/// before it is used.
pub(crate) fn format<K: Sink, D: Disk>(settings: &Settings, sink: &mut K, disk: &mut D) -> Status
    requires { AreLimited settings.now }
    ensures ends { (capture : Option (List ℕ)) (faults : SourceFaults)
        → Ends (format_task D.Disk disk.old disk.new) (course K.Sink capture faults faults sink.old sink.new) result }
    ensures store { FormatEnds D.Disk (settings_of_store settings.now) sink.old sink.new disk.old disk.new result }
    ensures no_capture { (fault : CaptureFault) → result ≡ BadCapture fault → ⊥ }
    ensures no_read_fault { result ≡ ReadFault → ⊥ }
    ensures told { (result ≡ DiskFault → ⊥) → D.faults disk.new ≡ D.faults disk.old }
{
    formatted_stores_are_empty();
    let header = header_of(&store_settings(settings));
    if let Err(_) = slot_disk::format(disk, &header) {
        return Status::DiskFault;
    }
    match write_all(sink, b"formatted\n") {
        Ok(()) => Status::Done,
        Err(_) => Status::WriteFault,
    }
}
