//! How a command ended.

mod line;

ghost use Rattle.std.specs.Prelude.{◌≡◌};
ghost use Rattle.run_status.specs.Status.{status_of, status_of_opening, status_of_session, status_of_words};
ghost use Rattle.run_status.specs.Status.{status_number};

use checkpoint::StoreSettings;
use command_words::{WordsKind, WordsRefusal};
use exact_audit::Verdict;
pub use line::fault_line;
use pcap_frames::{CaptureFault, ReadRefusal};
use recovery::OpenFault;
use report_text::{SessionFault, TextFault};
use std::alloc::AllocError;

/// How a command ended.
#[derive(Clone, Copy, Debug, PartialEq, Eq)]
pub enum Status {
    /// The text of the command was written in full.
    Done,
    /// The arguments ask for no command. Nothing was read or written.
    BadWords(WordsKind),
    /// The file is not a capture, for this fault. Nothing was written.
    BadCapture(CaptureFault),
    /// The source failed. Nothing was written.
    ReadFault,
    /// The sink failed. Nothing was written, or the text was written in part.
    WriteFault,
    /// The disk of the store failed. Nothing was written, or the text was written in part.
    DiskFault,
    /// The store is shorter than 64 bytes, or its header spells no settings. Nothing was written.
    NotFormatted,
    /// The store's body in this slot is damaged, or can't be continued from. Nothing was written.
    Damaged(u8),
    /// The store has other settings. Nothing was written.
    OtherSettings {
        /// The settings of the store.
        stored: StoreSettings,
        /// The settings that were asked for.
        asked: StoreSettings,
    },
    /// The store is of another capture. Nothing was written.
    OtherCapture {
        /// The digest in the store.
        stored: [u8; 32],
        /// The digest of the capture's dealt records.
        asked: [u8; 32],
    },
    /// A report of the session is not sound. The line that says why was written in full.
    AuditNo {
        /// The number of the report in the session, from 1. The reports before it are sound.
        report: u64,
        /// The first test that it fails.
        verdict: Verdict,
    },
    /// The text to audit is not that of a session. Nothing was written.
    BadReport(TextFault),
    /// Memory ran out. Nothing was written, or the text was written in part.
    OutOfMemory,
}

impl Status {
    /// The exit status of the program: 0 for `Done`.
    pub fn number(&self) -> u8
        ensures { result ≡ status_number self.now }
    {
        match self {
            Status::Done => 0,
            Status::BadWords(_) => 2,
            Status::BadCapture(_) => 3,
            Status::ReadFault => 4,
            Status::WriteFault => 5,
            Status::DiskFault => 6,
            Status::NotFormatted => 7,
            Status::Damaged(_) => 8,
            Status::OtherSettings { .. } => 9,
            Status::OtherCapture { .. } => 10,
            Status::AuditNo { .. } => 11,
            Status::BadReport(_) => 12,
            Status::OutOfMemory => 13,
        }
    }
}

impl From<ReadRefusal> for Status {
    ghost from_gives = { λ refusal status. status ≡ status_of refusal };

    fn from(refusal: ReadRefusal) -> Status {
        match refusal {
            ReadRefusal::Capture(fault) => Status::BadCapture(fault),
            ReadRefusal::ReadFault => Status::ReadFault,
            ReadRefusal::OutOfMemory => Status::OutOfMemory,
        }
    }
}

impl From<WordsRefusal> for Status {
    ghost from_gives = { λ refusal status. status ≡ status_of_words refusal };

    fn from(refusal: WordsRefusal) -> Status {
        match refusal {
            WordsRefusal::Bad(kind) => Status::BadWords(kind),
            WordsRefusal::OutOfMemory => Status::OutOfMemory,
        }
    }
}

impl From<OpenFault> for Status {
    ghost from_gives = { λ fault status. status ≡ status_of_opening fault };

    fn from(fault: OpenFault) -> Status {
        match fault {
            OpenFault::DiskFault => Status::DiskFault,
            OpenFault::NotFormatted => Status::NotFormatted,
            OpenFault::OtherSettings { stored, asked } => Status::OtherSettings { stored, asked },
            OpenFault::Damaged(slot) => Status::Damaged(slot),
            OpenFault::OtherCapture { stored, asked } => Status::OtherCapture { stored, asked },
            OpenFault::OutOfMemory => Status::OutOfMemory,
        }
    }
}

impl From<SessionFault> for Status {
    ghost from_gives = { λ fault status. status ≡ status_of_session fault };

    fn from(fault: SessionFault) -> Status {
        match fault {
            SessionFault::Text(fault) => Status::BadReport(fault),
            SessionFault::OutOfMemory => Status::OutOfMemory,
        }
    }
}

impl From<AllocError> for Status {
    ghost use Rattle.run_status.specs.declared.status.Status.TheVariants.{OutOfMemory};

    ghost from_gives = { λ _ status. status ≡ OutOfMemory };

    fn from(_error: AllocError) -> Status {
        Status::OutOfMemory
    }
}
