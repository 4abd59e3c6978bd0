//! Reading the text of a session from a source.

ghost use Rattle.std.specs.Prelude.{◌≡◌, ◌≤◌, ◌<◌, ◌+◌, ◌++◌, ℕ, List, length, vec_len, IfOk, IfErr, OnErr, IsErrOf};
ghost use Rattle.std.specs.Io.KnownBytes.{Consumes, IsAtEnd};
ghost use Rattle.outside_io.specs.{ReadsFront};
ghost use Rattle.report_text.specs.{longest_session};
ghost use Rattle.session_audit.specs.Answer.{HasNoBytes};

use outside_io::Source;
use run_status::Status;
use std::alloc::{AllocError, Global};

// One byte more than the longest text that is read as a session: it shows that a text is too long.
const MOST_BYTES: usize = 268_435_457;

/// Reads a text to its end, or one byte past the longest text of a session.
pub fn read_text<T: Source>(alloc: Global, source: &mut T) -> Result<Vec<u8>, Status>
    ensures consumed { IfOk result (λ text. Consumes (T.left source.old) (T.left source.new) text.items) }
    ensures limit { IfOk result (λ text. length text.items ≤ longest_session + 1) }
    ensures at_end { IfOk result (λ text. length text.items ≤ longest_session → IsAtEnd (T.left source.new)) }
    ensures front { ReadsFront (T.left source.old) (T.left source.new) }
    ensures refused { IfErr result (HasNoBytes (T.faults source.old) (T.faults source.new)) }
    ensures told { (IsErrOf result Status.ReadFault → ⊥) → T.faults source.new ≡ T.faults source.old }
{
    let mut buffer = read_buffer(alloc)?;
    let mut text = Vec::new(alloc);
    'pieces: while text.len() < MOST_BYTES {
        let room = buffer.len().min(MOST_BYTES - text.len());
        let count = append_piece(source, &mut text, &mut buffer[..room])?;
        if count == 0 {
            return Ok(text);
        }
    }
    Ok(text)
}

// Reads the next bytes through a buffer, and appends them to the text. Returns how many there are; if there is room for
// one, 0 means the end.
fn append_piece<T: Source>(
    source: &mut T,
    text: &mut Vec<u8>,
    buffer: &mut [u8],
) -> Result<usize, Status>
    ensures read { IfOk result (λ count. (piece : List ℕ) × (length piece ≡ count) × (text.new.items ≡ text.old.items ++ piece)
        × Consumes (T.left source.old) (T.left source.new) piece) }
    ensures front { OnErr result (ReadsFront (T.left source.old) (T.left source.new)) }
    ensures fits { IfOk result (λ count. count ≤ length buffer.old) }
    ensures at_end { IfOk result (λ count. count ≡ 0 → 0 < length buffer.old → IsAtEnd (T.left source.new)) }
    ensures refused { IfErr result (HasNoBytes (T.faults source.old) (T.faults source.new)) }
    ensures told { (IsErrOf result Status.ReadFault → ⊥) → T.faults source.new ≡ T.faults source.old }
{
    let Ok(count) = source.read(buffer) else {
        return Err(Status::ReadFault);
    };
    let (piece, _) = buffer.split_at(count);
    text.extend_from_slice(piece)?;
    Ok(count)
}

fn read_buffer(alloc: Global) -> Result<Vec<u8>, AllocError>
    ensures { IfOk result (λ buffer. 0 < vec_len buffer) }
{
    vec![in alloc; 0; 65_536]
}
