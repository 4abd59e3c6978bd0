//! Why a text was not read as a session.

ghost use Rattle.std.specs.Prelude.{◌≡◌};
ghost use Rattle.report_text.specs.declared.session_fault.SessionFault.TheVariants.{OutOfMemory};

use std::alloc::AllocError;
use thiserror::Error;

/// What is wrong with the text of a session. A whole line is one with its line feed. Lines are counted from 1.
#[derive(Clone, Copy, Debug, PartialEq, Eq, Error)]
pub enum TextFault {
    /// The lines before this one begin a session. Either this line is whole, and no session begins with them and it, or
    /// they are all lines of a session, and at least one byte follows.
    #[error("line {0}")]
    BadLine(u64),
    /// No line is wrong, but the text ends before the last line of a session. This is the line after the whole ones.
    #[error("no end at line {0}")]
    MissingEnd(u64),
    /// The text has more than 268,435,456 bytes. This is tested first.
    #[error("too long")]
    TooLong,
}

/// Why a text was not read as a session.
#[derive(Clone, Copy, Debug, PartialEq, Eq, Error)]
pub enum SessionFault {
    /// It is not the text of a session.
    #[error("{0}")]
    Text(TextFault),
    /// Out of memory.
    #[error("out of memory")]
    OutOfMemory,
}

impl From<AllocError> for SessionFault {
    ghost from_gives = { λ _ refusal. refusal ≡ OutOfMemory };

    fn from(_: AllocError) -> SessionFault {
        SessionFault::OutOfMemory
    }
}
