//! The fakes of a source and of a sink, whole writes and the text of a path.

use outside_io::{Failed, MemorySink, MemorySource, PathText, Sink, Source, write_all};
use std::alloc::{AllocError, Global};
use std::test::Fail;

const BYTES: [u8; 5] = [1, 2, 3, 4, 5];

// What a call of the source returns, and the contents of the buffer after it.
type Step = (Result<usize, Failed>, [u8; 3]);

const STEPS: [Step; 5] = [
    (Ok(2), [1, 2, 0]),
    (Err(Failed), [1, 2, 0]),
    (Ok(2), [3, 4, 0]),
    (Ok(1), [5, 4, 0]),
    (Ok(0), [5, 4, 0]),
];

#[test]
fn reads_in_steps_and_fails_where_told(rt: HostRuntime) -> Result<(), Fail> {
    let mut source = failing_source(rt.alloc())?;
    assert_eq!(rt; first_wrong_step(&mut source, &STEPS), None);
    Ok(())
}

fn failing_source(alloc: Global) -> Result<MemorySource, AllocError> {
    let bytes = BYTES.to_vec(alloc)?;
    Ok(MemorySource::new(bytes, [1].to_vec(alloc)?, 2))
}

fn first_wrong_step<S: Source>(source: &mut S, cases: &[Step]) -> Option<usize> {
    let mut buffer = [0; 3];
    for (place, step) in cases.iter().enumerate() {
        if !is_step(source, &mut buffer, step) {
            return Some(place);
        }
    }
    None
}

fn is_step<S: Source>(source: &mut S, buffer: &mut [u8; 3], (want, bytes): &Step) -> bool {
    source.read(buffer) == *want && *buffer == *bytes
}

#[test]
fn writes_all_or_a_beginning(rt: HostRuntime) -> Result<(), Fail> {
    assert!(rt; a_full_sink_has_a_beginning(rt.alloc())?);
    Ok(())
}

fn a_full_sink_has_a_beginning(alloc: Global) -> Result<bool, AllocError> {
    let mut sink = MemorySink::with_room(alloc, 7, Vec::new(alloc))?;
    Ok(
        write_all(&mut sink, &BYTES).is_ok()
            && write_all(&mut sink, &BYTES).is_err()
            && sink.taken() == [1, 2, 3, 4, 5, 1, 2].as_slice(),
    )
}

#[test]
fn texts(rt: HostRuntime) -> Result<(), Fail> {
    assert!(rt; are_told(rt.alloc())?);
    Ok(())
}

fn are_told(alloc: Global) -> Result<bool, Fail> {
    let path = PathText::of(alloc, "a/b")?;
    let fault = format!(in alloc; "{}", Failed)?;
    Ok(path.as_str() == "a/b" && fault.as_str() == "a call on the outside failed")
}
