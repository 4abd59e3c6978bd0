//! A stream of the system as a sink.

ghost use Rattle.std.specs.Prelude.{◌≡◌, ◌<◌, ◌≤◌, ℕ, List, length, take, None, IfOk, OnOk, OnErr};
ghost use Rattle.std.specs.Io.KnownBytes.{Appends, WriteAppends};
ghost use Rattle.outside_io.specs.{AppendsFront, FailsByCount, IsBeginning, next_count};

use outside_io::{Failed, Sink};
use std::io::{ErrorKind, Write};

/// Writes to a stream of the system, and flushes it within each call. The bytes that the stream took are not known.
#[derive(Drop)]
pub struct StdSink<W> {
    writer: W,
    faults: u64,
}

impl<W: Write + Drop> StdSink<W> {
    /// A sink that appends to the contents of the stream.
    pub fn new(writer: W) -> Self
        ensures { (result.writer ≡ writer) × (result.faults ≡ 0) }
    {
        StdSink { writer, faults: 0 }
    }

    /// Writes a whole line. After `Failed` a beginning of it was appended to the stream, and no other byte.
    pub fn write_line(&mut self, line: &[u8]) -> Result<(), Failed>
        ensures whole { OnOk result (Appends (W.contents self.old.writer) (W.contents self.new.writer) line.now) }
        ensures beginning { OnErr result (AppendsFront (W.contents self.old.writer) (W.contents self.new.writer) line.now) }
        ensures cause { FailsByCount self.old.faults self.new.faults result }
    {
        let mut rest = line;
        while !rest.is_empty() {
            let count = self.write(rest)?;
            (_, rest) = rest.split_at(count);
        }
        Ok(())
    }
}

impl<W: Write + Drop> Sink for StdSink<W> {
    ghost taken = { λ _. None };

    ghost faults = { λ s. s.faults };

    fn write(&mut self, bytes: &[u8]) -> Result<usize, Failed>
        ensures fits { IfOk result (λ count. count ≤ length bytes.now) }
        ensures takes_some { IfOk result (λ count. 0 < length bytes.now → 0 < count) }
        ensures appended { WriteAppends None None result bytes.now }
        ensures cause { FailsByCount self.old.faults self.new.faults result }

        // Where the contents of the stream are known, these bytes are appended to them.
        ensures of_stream { IfOk result (λ count. Appends (W.contents self.old.writer) (W.contents self.new.writer) (take count bytes.now)) }

        // After a fault, a beginning of them may have been appended, taken but not flushed, and no other byte.
        ensures of_failed_stream { OnErr result ((front : List ℕ) × IsBeginning front bytes.now
            × Appends (W.contents self.old.writer) (W.contents self.new.writer) front) }
        ensures counted { OnErr result (self.new.faults ≡ next_count self.old.faults) }
    {
        let count = written(&mut self.writer, bytes);
        if count.is_err() {
            self.faults = self.faults.saturating_add(1);
        }
        count
    }
}

// The number of bytes that the writer took and flushed: at least one, unless there are none. After a fault it may have
// taken a beginning of them.
fn written<W: Write>(writer: &mut W, bytes: &[u8]) -> Result<usize, Failed>
    ensures fits { IfOk result (λ count. count ≤ length bytes.now) }
    ensures takes_some { IfOk result (λ count. 0 < length bytes.now → 0 < count) }
    ensures appended { IfOk result (λ count. Appends (W.contents writer.old) (W.contents writer.new) (take count bytes.now)) }
    ensures failed { OnErr result ((front : List ℕ) × IsBeginning front bytes.now
        × Appends (W.contents writer.old) (W.contents writer.new) front) }
{
    let count = taken(writer, bytes)?;
    match writer.flush() {
        Ok(()) => Ok(count),
        Err(_) => Err(Failed),
    }
}

// The number of bytes that the writer took. A call interrupted by a signal is made again.
fn taken<W: Write>(writer: &mut W, bytes: &[u8]) -> Result<usize, Failed>
    ensures fits { IfOk result (λ count. count ≤ length bytes.now) }
    ensures takes_some { IfOk result (λ count. 0 < length bytes.now → 0 < count) }
    ensures appended { WriteAppends (W.contents writer.old) (W.contents writer.new) result bytes.now }
{
    for _ in 0..u64::MAX {
        match writer.write(bytes) {
            Ok(0) if !bytes.is_empty() => break,
            Ok(count) => return Ok(count),
            Err(error) if error.kind() == ErrorKind::Interrupted => {}
            Err(_) => break,
        }
    }
    Err(Failed)
}
