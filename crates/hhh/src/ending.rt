//! How a command ended, as the caller of the program sees it: by a number and a line.

ghost use Rattle.std.specs.Prelude.{◌≡◌, ℕ, List, IfOk, OnOk, OnErr};
ghost use Rattle.std.specs.Io.KnownBytes.{Appends};
ghost use Rattle.std.specs.Process.{exit_status};
ghost use Rattle.outside_io.specs.{FaultRose};
ghost use Rattle.hhh.specs.Ending.{TellsEnding};
ghost use Rattle.system_io.specs.{sink_contents, sink_faults};

use hhh_engine::{Status, fault_line};
use site_merge::{SiteStatus, site_fault_line};
use std::alloc::{AllocError, Global};
use std::io::Write;
use std::process::ExitCode;
use system_io::StdSink;

/// How a command ended. The number 0 says that it did what it was asked for.
pub(crate) trait Ending {
    /// Its number.
    ghost number_of: { Self → ℕ };

    /// Its line for standard error.
    ghost line_of: { Self → List ℕ };

    /// The exit status of the program.
    fn number(&self) -> u8
        ensures { result ≡ number_of self.now };

    /// The line for standard error.
    fn line(&self, alloc: Global) -> Result<Vec<u8>, AllocError>
        ensures { IfOk result (λ line. line.items ≡ line_of self.now) };
}

impl Ending for Status {
    ghost use Rattle.hhh_engine.specs.{status_line, status_number};

    ghost number_of = { status_number };

    ghost line_of = { status_line };

    fn number(&self) -> u8 {
        Status::number(self)
    }

    fn line(&self, alloc: Global) -> Result<Vec<u8>, AllocError> {
        fault_line(alloc, self)
    }
}

impl Ending for SiteStatus {
    ghost use Rattle.site_merge.specs.{site_line, status_number};

    ghost number_of = { status_number };

    ghost line_of = { site_line };

    fn number(&self) -> u8 {
        SiteStatus::number(self)
    }

    fn line(&self, alloc: Global) -> Result<Vec<u8>, AllocError> {
        site_fault_line(alloc, self)
    }
}

/// Reports on standard error how a command ended, and returns the exit code of its number.
pub(crate) fn finish<E: Ending, W: Write + Drop>(
    alloc: Global,
    ending: &E,
    errors: &mut StdSink<W>,
) -> ExitCode
    ensures code { exit_status result ≡ E.number_of ending.now }
    ensures told { TellsEnding (sink_contents W.contents errors.old) (sink_contents W.contents errors.new)
        (E.number_of ending.now) (E.line_of ending.now) }
{
    let _ = tell(alloc, ending, errors);
    ExitCode::from(ending.number())
}

// Reports on standard error how a command ended, unless its number is 0. If memory runs out for the line, nothing is
// written.
fn tell<E: Ending, W: Write + Drop>(
    alloc: Global,
    ending: &E,
    errors: &mut StdSink<W>,
) -> Result<(), AllocError>
    ensures done { E.number_of ending.now ≡ 0 → errors.new ≡ errors.old }
    ensures told { TellsEnding (sink_contents W.contents errors.old) (sink_contents W.contents errors.new)
        (E.number_of ending.now) (E.line_of ending.now) }

    // The whole line, unless the stream failed.
    ensures whole { OnOk result ((E.number_of ending.now ≡ 0 → ⊥) → (FaultRose (sink_faults errors.old) (sink_faults errors.new) → ⊥)
        → Appends (sink_contents W.contents errors.old) (sink_contents W.contents errors.new) (E.line_of ending.now)) }
    ensures silent { OnErr result (errors.new ≡ errors.old) }
{
    if ending.number() == 0 {
        return Ok(());
    }
    let line = ending.line(alloc)?;
    let _ = errors.write_line(&line);
    Ok(())
}
