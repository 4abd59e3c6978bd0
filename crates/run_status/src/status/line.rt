//! The line that reports how a command ended.

ghost use Rattle.std.specs.Prelude.{◌≡◌, ◌++◌, codes, decimal, IfOk, OnOk};
ghost use Rattle.run_status.specs.Status.{status_line, status_text, words_text, fault_text};
ghost use Rattle.run_status.specs.Status.{session_text};

use crate::Status;
use crate::decimal_text::push_number;
use command_words::WordsKind;
use pcap_frames::{CaptureFault, FaultKind};
use report_text::TextFault;
use std::alloc::{AllocError, Global};

/// The line for standard error: `hhh: `, how the command ended, and a line feed.
pub fn fault_line(alloc: Global, status: &Status) -> Result<Vec<u8>, AllocError>
    ensures { IfOk result (λ line. line.items ≡ status_line status.now) }
{
    let mut line = Vec::from_slice(alloc, b"hhh: ")?;
    push_status(&mut line, status)?;
    line.extend_from_slice(b"\n")?;
    Ok(line)
}

fn push_status(line: &mut Vec<u8>, status: &Status) -> Result<(), AllocError>
    ensures { OnOk result (line.new.items ≡ line.old.items ++ status_text status.now) }
{
    match status {
        Status::Done => line.extend_from_slice(b"done"),
        Status::BadWords(kind) => push_words(line, kind),
        Status::BadCapture(fault) => push_fault(line, fault),
        Status::ReadFault => line.extend_from_slice(b"read fault"),
        Status::WriteFault => line.extend_from_slice(b"write fault"),
        Status::DiskFault => line.extend_from_slice(b"disk fault"),
        Status::NotFormatted => line.extend_from_slice(b"store not formatted"),
        Status::Damaged(slot) => push_number(line, b"store damaged: slot ", u64::from(*slot)),
        Status::OtherSettings { .. } => line.extend_from_slice(b"store has other settings"),
        Status::OtherCapture { .. } => line.extend_from_slice(b"store is of another capture"),
        Status::AuditNo { .. } => line.extend_from_slice(b"audit: no"),
        Status::BadReport(fault) => push_text_fault(line, fault),
        Status::OutOfMemory => line.extend_from_slice(b"out of memory"),
    }
}

fn push_words(line: &mut Vec<u8>, kind: &WordsKind) -> Result<(), AllocError>
    ensures { OnOk result (line.new.items ≡ line.old.items ++ codes "bad words: " ++ words_text kind.now) }
{
    line.extend_from_slice(b"bad words: ")?;
    match kind {
        WordsKind::NoCommand => line.extend_from_slice(b"no command"),
        WordsKind::UnknownCommand => line.extend_from_slice(b"unknown command"),
        WordsKind::Refused => line.extend_from_slice(b"refused"),
        WordsKind::BadPrefix(_) => line.extend_from_slice(b"prefix"),
        WordsKind::BadNumber(_) => line.extend_from_slice(b"number"),
        WordsKind::OutOfLimits(_) => line.extend_from_slice(b"limits"),
        WordsKind::BadChoice(_) => line.extend_from_slice(b"choice"),
        WordsKind::Bound => line.extend_from_slice(b"bound"),
    }
}

fn push_fault(line: &mut Vec<u8>, fault: &CaptureFault) -> Result<(), AllocError>
    ensures { OnOk result (line.new.items ≡ line.old.items ++ codes "bad capture: " ++ fault_text fault.now.kind ++ codes " at "
        ++ decimal fault.now.place) }
{
    line.extend_from_slice(b"bad capture: ")?;
    line.extend_from_slice(kind_text(fault.kind))?;
    push_number(line, b" at ", fault.place)
}

fn push_text_fault(line: &mut Vec<u8>, fault: &TextFault) -> Result<(), AllocError>
    ensures { OnOk result (line.new.items ≡ line.old.items ++ codes "bad report: " ++ session_text fault.now) }
{
    line.extend_from_slice(b"bad report: ")?;
    match fault {
        TextFault::BadLine(number) => push_number(line, b"line ", *number),
        TextFault::MissingEnd(number) => push_number(line, b"no end at line ", *number),
        TextFault::TooLong => line.extend_from_slice(b"too long"),
    }
}

fn kind_text(kind: FaultKind) -> &'static [u8]
    ensures { result.now ≡ fault_text kind }
{
    match kind {
        FaultKind::ShortHeader => b"short header",
        FaultKind::NotCapture => b"not a capture",
        FaultKind::Version => b"version",
        FaultKind::Link => b"link",
        FaultKind::LongFrame => b"long frame",
        FaultKind::CutFrame => b"cut frame",
        FaultKind::TooManyFrames => b"too many frames",
        FaultKind::ByteOrder => b"byte order",
        FaultKind::BadBlock => b"block",
        FaultKind::BadTail => b"block tail",
        FaultKind::BadInterface => b"interface",
        FaultKind::CutBlock => b"cut block",
        FaultKind::TooManyBlocks => b"too many blocks",
    }
}
