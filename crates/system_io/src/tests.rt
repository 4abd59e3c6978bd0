ghost use Rattle.std.specs.Prelude.{◌≤◌, IfOk, None};

use super::file_disk::{read_on, write_on};
use super::{
    FileDisk, LateFile, NamedInput, StdSink, StdSource, StoreDisk, StoreFile, StoreOpener,
    SystemStore,
};
use outside_io::{Failed, PathText, Sink, Source};
use slot_disk::Disk;
use std::cell::Cell;
use std::fs;
use std::fs::File;
use std::io::{Error, ErrorKind, Read, Result as IoResult, Write};
use std::os::unix::fs::FileExt;
use std::test::Fail;

// A writer that takes all bytes, and can't be flushed.
#[derive(Drop)]
struct Stuck;

impl Write for Stuck {
    fn write(&mut self, bytes: &[u8]) -> IoResult<usize> {
        Ok(bytes.len())
    }

    fn flush(&mut self) -> IoResult<()> {
        Err(Error::from(ErrorKind::Other))
    }
}

#[test]
fn reads_a_stream_to_its_end(rt: HostRuntime) -> Result<(), Fail> {
    let mut source = StdSource::new(rt.alloc(), b"abcde".as_slice())?;
    assert!(rt; gives_five_letters(&mut source));
    Ok(())
}

fn gives_five_letters<S: Source>(source: &mut S) -> bool {
    let mut into = [0; 3];
    source.read(&mut into) == Ok(3)
        && into == *b"abc"
        && source.read(&mut into) == Ok(2)
        && into == *b"dec"
        && source.read(&mut into) == Ok(0)
}

// A file that begins with these words on every Linux system.
#[test]
fn reads_on_in_a_file(rt: HostRuntime) -> Result<(), Fail> {
    let alloc = rt.alloc();
    let version = LateFile::new(&rt, PathText::of(alloc, "/proc/version")?);
    let mut source = StdSource::new(alloc, NamedInput::File(version))?;
    assert!(rt; gives_two_words(&mut source));
    Ok(())
}

fn gives_two_words<S: Source>(source: &mut S) -> bool {
    let mut into = [0; 5];
    source.read(&mut into) == Ok(5)
        && into == *b"Linux"
        && source.read(&mut into) == Ok(5)
        && into == *b" vers"
}

// Two files that every Linux system has, and one that none has.
#[test]
fn opens_a_file_at_the_first_read(rt: HostRuntime) -> Result<(), Fail> {
    let alloc = rt.alloc();
    let zeros = LateFile::new(&rt, PathText::of(alloc, "/dev/zero")?);
    assert!(rt; gives_zeros(&mut StdSource::new(alloc, NamedInput::File(zeros))?));
    let empty = LateFile::new(&rt, PathText::of(alloc, "/dev/null")?);
    assert!(rt; gives_nothing(&mut StdSource::new(alloc, NamedInput::File(empty))?));
    Ok(())
}

#[test]
fn a_missing_file_fails_at_each_read(rt: HostRuntime) -> Result<(), Fail> {
    let alloc = rt.alloc();
    let missing = LateFile::new(&rt, PathText::of(alloc, "/no such file")?);
    assert!(rt; fails_twice(&mut StdSource::new(alloc, NamedInput::File(missing))?));
    Ok(())
}

#[test]
fn no_input_gives_nothing(rt: HostRuntime) -> Result<(), Fail> {
    let mut source = StdSource::new(rt.alloc(), NamedInput::Nothing)?;
    assert!(rt; gives_nothing(&mut source));
    Ok(())
}

fn gives_zeros<S: Source>(source: &mut S) -> bool {
    let mut into = [1; 3];
    source.read(&mut into) == Ok(3) && into == [0; 3] && source.read(&mut into) == Ok(3)
}

fn gives_nothing<S: Source>(source: &mut S) -> bool {
    source.read(&mut [1; 3]) == Ok(0)
}

fn fails_twice<S: Source>(source: &mut S) -> bool {
    source.read(&mut [1; 3]) == Err(Failed) && source.read(&mut [1; 3]) == Err(Failed)
}

#[test]
fn writes_to_a_stream_until_it_takes_nothing(rt: HostRuntime) {
    let mut room = [0; 4];
    assert!(rt; takes_four_bytes(&mut StdSink::new(room.as_mut_slice())));
    assert!(rt; StdSink::new(Stuck).write(b"abc") == Err(Failed));
}

fn takes_four_bytes<K: Sink>(sink: &mut K) -> bool {
    sink.write(b"abc") == Ok(3)
        && sink.write(b"") == Ok(0)
        && sink.write(b"de") == Ok(1)
        && sink.write(b"e") == Err(Failed)
}

// A stream whose first call fails. Each later call takes or gives as many bytes as the stream had calls.
#[derive(Drop)]
struct FailsOnce {
    calls: usize,
}

impl FailsOnce {
    fn count_call(&mut self, room: usize) -> IoResult<usize>
        ensures { IfOk result (λ count. count ≤ room) }
    {
        self.calls = self.calls.saturating_add(1);
        if self.calls == 1 {
            return Err(Error::from(ErrorKind::Other));
        }
        Ok(self.calls.min(room))
    }
}

impl Write for FailsOnce {
    fn write(&mut self, bytes: &[u8]) -> IoResult<usize> {
        self.count_call(bytes.len())
    }

    fn flush(&mut self) -> IoResult<()> {
        Ok(())
    }
}

impl Read for FailsOnce {
    fn read(&mut self, into: &mut [u8]) -> IoResult<usize> {
        self.count_call(into.len())
    }
}

// The call after the fault is the second one that the stream had.
#[test]
fn a_fault_of_a_stream_is_reported_after_one_call(rt: HostRuntime) -> Result<(), Fail> {
    assert!(rt; takes_two_bytes_later(&mut StdSink::new(FailsOnce { calls: 0 })));
    let mut source = StdSource::new(rt.alloc(), FailsOnce { calls: 0 })?;
    assert!(rt; gives_two_bytes_later(&mut source));
    Ok(())
}

fn takes_two_bytes_later<K: Sink>(sink: &mut K) -> bool {
    sink.write(b"abcde") == Err(Failed) && sink.write(b"abcde") == Ok(2)
}

fn gives_two_bytes_later<S: Source>(source: &mut S) -> bool {
    source.read(&mut [0; 5]) == Err(Failed) && source.read(&mut [0; 5]) == Ok(2)
}

// A file of four bytes that takes and gives one byte a call. Each second call is interrupted by a signal.
#[derive(Drop)]
struct ByteByByte {
    bytes: Cell<[u8; 4]>,
    interrupted: Cell<bool>,
}

impl ByteByByte {
    fn interrupts(&self) -> bool {
        self.interrupted.set(!self.interrupted.get());
        self.interrupted.get()
    }
}

impl FileExt for ByteByByte {
    fn read_at(&self, into: &mut [u8], place: u64) -> IoResult<usize> {
        if self.interrupts() {
            return Err(Error::from(ErrorKind::Interrupted));
        }
        let bytes = self.bytes.get();
        match (bytes.get(place as usize), into.first_mut()) {
            (Some(byte), Some(first)) => {
                *first = *byte;
                Ok(1)
            }
            _ => Ok(0),
        }
    }

    fn write_at(&self, from: &[u8], place: u64) -> IoResult<usize> {
        if self.interrupts() {
            return Err(Error::from(ErrorKind::Interrupted));
        }
        let mut bytes = self.bytes.get();
        match (bytes.get_mut(place as usize), from.first()) {
            (Some(byte), Some(first)) => {
                *byte = *first;
                self.bytes.set(bytes);
                Ok(1)
            }
            _ => Ok(0),
        }
    }
}

#[test]
fn reads_and_writes_on_after_short_and_interrupted_calls(rt: HostRuntime) -> Result<(), Fail> {
    let file = ByteByByte {
        bytes: Cell::new(*b"abcd"),
        interrupted: Cell::new(false),
    };
    assert!(rt; reads_on(&file)?);
    assert!(rt; writes_on(&file)?);
    Ok(())
}

fn reads_on(file: &ByteByByte) -> IoResult<bool> {
    let mut buffer = [0; 2];
    let mut into = [9; 3];
    let whole = read_on(file, &mut buffer, 0, &mut into)? == 3 && into == *b"abc";
    let rest = read_on(file, &mut buffer, 2, &mut into)? == 2 && into == *b"cdc";
    Ok(whole && rest)
}

fn writes_on(file: &ByteByByte) -> IoResult<bool> {
    let whole = write_on(file, 1, b"xyz")? == 3 && file.bytes.get() == *b"axyz";
    Ok(whole && write_on(file, 3, b"xy").is_err())
}

// A file that takes and gives one byte a call. Its second call fails.
#[derive(Drop)]
struct FailsSecond {
    calls: Cell<u64>,
}

impl FailsSecond {
    fn count_call(&self, room: usize) -> IoResult<usize>
        ensures { IfOk result (λ count. count ≤ room) }
    {
        let calls = self.calls.get().saturating_add(1);
        self.calls.set(calls);
        if calls == 2 {
            return Err(Error::from(ErrorKind::Other));
        }
        Ok(room.min(1))
    }
}

impl FileExt for FailsSecond {
    fn read_at(&self, into: &mut [u8], _place: u64) -> IoResult<usize> {
        self.count_call(into.len())
    }

    fn write_at(&self, from: &[u8], _place: u64) -> IoResult<usize> {
        self.count_call(from.len())
    }
}

#[test]
fn a_fault_of_a_file_is_reported_after_the_bytes_before_it(rt: HostRuntime) {
    let file = FailsSecond {
        calls: Cell::new(0),
    };
    assert!(rt; fails_in_two_calls(&file));
}

fn fails_in_two_calls(file: &FailsSecond) -> bool {
    let no_read = read_on(file, &mut [0; 4], 0, &mut [0; 3]).is_err() && file.calls.get() == 2;
    file.calls.set(0);
    no_read && write_on(file, 0, b"abc").is_err() && file.calls.get() == 2
}

fn disk_at<'a>(rt: &'a HostRuntime, path: &str) -> Result<StoreDisk<'a>, Fail> {
    let alloc = rt.alloc();
    let store = SystemStore::at(rt, PathText::of(alloc, path)?)?;
    Ok(StoreDisk::new(alloc, store)?)
}

#[test]
fn another_disk_reads_what_was_written(rt: HostRuntime) -> Result<(), Fail> {
    let name = "hhh_file_disk_test";
    let _ = fs::remove_file(&rt, name);
    assert!(rt; is_written(&mut disk_at(&rt, name)?));
    assert!(rt; reads_as_written(&mut disk_at(&rt, name)?));
    fs::remove_file(&rt, name)?;
    Ok(())
}

fn is_written<D: Disk>(disk: &mut D) -> bool {
    disk.len() == Ok(0)
        && disk.write_at(3, b"abcde") == Ok(())
        && disk.sync() == Ok(())
        && disk.write_at(4, b"x") == Ok(())
        && disk.sync() == Ok(())
        && disk.write_at(1 << 63, b"y") == Err(Failed)
}

fn reads_as_written<D: Disk>(disk: &mut D) -> bool {
    let mut into = [9; 8];
    disk.read_at(2, &mut into) == Ok(6)
        && into == *b"\0axcde\x09\x09"
        && disk.read_at(8, &mut into) == Ok(0)
        && disk.len() == Ok(8)
}

// A first sync fails where the file has no name by then, and so does each later one.
#[test]
fn a_failed_sync_is_lasting(rt: HostRuntime) -> Result<(), Fail> {
    let name = "hhh_file_disk_sync_test";
    let mut disk = disk_at(&rt, name)?;
    assert!(rt; disk.write_at(0, b"a") == Ok(()));
    fs::remove_file(&rt, name)?;
    assert!(rt; disk.sync() == Err(Failed));
    fs::write(&rt, name, b"a".as_slice())?;
    assert!(rt; disk.sync() == Err(Failed));
    fs::remove_file(&rt, name)?;
    Ok(())
}

#[test]
fn no_call_succeeds_without_a_regular_file(rt: HostRuntime) -> Result<(), Fail> {
    for path in ["no such directory/file", ".", "/dev/full", ""] {
        let mut disk = disk_at(&rt, path)?;
        assert!(rt; each_call_fails(&mut disk), "{path}");
    }
    Ok(())
}

fn each_call_fails<D: Disk>(disk: &mut D) -> bool {
    disk.len() == Err(Failed)
        && disk.read_at(0, &mut [0; 1]) == Err(Failed)
        && disk.write_at(0, b"a") == Err(Failed)
        && disk.sync() == Err(Failed)
}

// A file that is as long as the calls of its sync, and that takes what is written.
#[derive(Drop)]
struct CountsSyncs {
    syncs: u64,
}

impl FileExt for CountsSyncs {
    fn read_at(&self, _into: &mut [u8], _place: u64) -> IoResult<usize> {
        Ok(0)
    }

    fn write_at(&self, from: &[u8], _place: u64) -> IoResult<usize> {
        Ok(from.len())
    }
}

impl StoreFile for CountsSyncs {
    ghost syncs = { λ _. None };

    fn size(&self) -> IoResult<u64> {
        Ok(self.syncs)
    }

    fn sync(&mut self) -> IoResult<()> {
        self.syncs = self.syncs.saturating_add(1);
        Ok(())
    }
}

// Opens such a file, and counts how often a file was opened and a name was synced.
#[derive(Drop)]
struct CountsNames {
    opened: Cell<u64>,
    synced: Cell<u64>,
}

impl StoreOpener<CountsSyncs> for &CountsNames {
    ghost syncs = { λ _. None };

    fn open_file(&self) -> IoResult<CountsSyncs> {
        self.opened.set(self.opened.get().saturating_add(1));
        Ok(CountsSyncs { syncs: 0 })
    }

    fn sync_name(&self) -> IoResult<()> {
        self.synced.set(self.synced.get().saturating_add(1));
        Ok(())
    }
}

type CountedDisk<'a> = FileDisk<&'a CountsNames, CountsSyncs>;

#[test]
fn each_sync_syncs_the_file_and_the_first_one_its_name(rt: HostRuntime) -> Result<(), Fail> {
    let alloc = rt.alloc();
    let names = CountsNames {
        opened: Cell::new(0),
        synced: Cell::new(0),
    };
    let mut disk = CountedDisk::new(alloc, &names)?;
    assert!(rt; disk.write_at(0, b"a") == Ok(()));
    assert!(rt; disk.len() == Ok(0));
    for syncs in 1..4 {
        assert!(rt; syncs_to_length(&mut disk, syncs) && names.synced.get() == 1);
    }
    assert!(rt; names.opened.get() == 1);
    Ok(())
}

fn syncs_to_length<D: Disk>(disk: &mut D, length: u64) -> bool {
    disk.sync() == Ok(()) && disk.len() == Ok(length)
}

// Neither a device nor a directory of the kernel's can be synced, so `Ok` would show that the system was not asked.
#[test]
fn a_sync_of_the_system_is_asked_for(rt: HostRuntime) -> Result<(), Fail> {
    let mut device = File::open(&rt, "/dev/null")?;
    assert!(rt; device.sync().is_err());
    let version = PathText::of(rt.alloc(), "/proc/version")?;
    assert!(rt; SystemStore::at(&rt, version)?.sync_name().is_err());
    Ok(())
}
