//! A stream of the system as a source.

ghost use Rattle.std.specs.Prelude.{◌≡◌, ◌≤◌, ◌<◌, length, vec_len, drop, None, IfOk, OnErr};
ghost use Rattle.std.specs.Io.KnownBytes.{ReadConsumes};
ghost use Rattle.outside_io.specs.{FailsByCount, next_count};

use outside_io::{Failed, Source};
use std::alloc::{AllocError, Global};
use std::io::{ErrorKind, Read};

// How many bytes one system call asks for at most.
const ROOM: usize = 65_536;

/// Reads from a stream of the system. The remaining bytes of the stream are not known.
#[derive(Drop)]
pub struct StdSource<R> {
    reader: R,
    buffer: Vec<u8>,
    faults: u64,
    ghost has_room: { 0 < vec_len buffer },
}

impl<R: Read + Drop> StdSource<R> {
    /// A source of the remaining bytes of the stream.
    pub fn new(alloc: Global, reader: R) -> Result<Self, AllocError>
        ensures { IfOk result (λ source. (source.reader ≡ reader) × (source.faults ≡ 0)) }
    {
        Ok(StdSource {
            reader,
            buffer: vec![in alloc; 0; ROOM]?,
            faults: 0,
        })
    }
}

impl<R: Read + Drop> Source for StdSource<R> {
    ghost left = { λ _. None };

    ghost faults = { λ s. s.faults };

    fn read(&mut self, into: &mut [u8]) -> Result<usize, Failed>
        ensures fits { IfOk result (λ count. count ≤ length into.old) }
        ensures later_places { IfOk result (λ count. drop count into.new ≡ drop count into.old) }
        ensures first_bytes { ReadConsumes None None result into.new }
        ensures cause { FailsByCount self.old.faults self.new.faults result }

        // Where the remaining bytes of the stream are known, these are the next of them.
        ensures of_stream { ReadConsumes (R.remaining self.old.reader) (R.remaining self.new.reader) result into.new }
        ensures counted { OnErr result (self.new.faults ≡ next_count self.old.faults) }
    {
        let count = read_by(&mut self.reader, &mut self.buffer, into);
        if count.is_err() {
            self.faults = self.faults.saturating_add(1);
        }
        count
    }
}

// Reads once through a buffer, so that `into` is unchanged after the bytes read.
fn read_by<R: Read>(reader: &mut R, buffer: &mut [u8], into: &mut [u8]) -> Result<usize, Failed>
    requires { 0 < length buffer.old }
    ensures same_room { length buffer.new ≡ length buffer.old }
    ensures fits { IfOk result (λ count. count ≤ length into.old) }
    ensures later_places { IfOk result (λ count. drop count into.new ≡ drop count into.old) }
    ensures bytes { ReadConsumes (R.remaining reader.old) (R.remaining reader.new) result into.new }
{
    let room = into.len().min(buffer.len());
    let piece = &mut buffer[..room];
    let count = fill(reader, piece)?;
    into[..count].copy_from_slice(&piece[..count]);
    Ok(count)
}

// Reads once. A call interrupted by a signal is made again.
fn fill<R: Read>(reader: &mut R, into: &mut [u8]) -> Result<usize, Failed>
    ensures fits { IfOk result (λ count. count ≤ length into.old) }
    ensures bytes { ReadConsumes (R.remaining reader.old) (R.remaining reader.new) result into.new }
{
    for _ in 0..u64::MAX {
        match reader.read(into) {
            Ok(count) => return Ok(count),
            Err(error) if error.kind() == ErrorKind::Interrupted => {}
            Err(_) => break,
        }
    }
    Err(Failed)
}
