//! A file as a disk.

ghost use Rattle.std.specs.Prelude.{◌≡◌, ◌<◌, ◌≤◌, ◌+◌, length, vec_len, drop, ⊤, false, true, is_err, None, IfOk};
ghost use Rattle.std.specs.Prelude.{ℕ, List, Option, OnOk, OnErr, Some, is_some};
ghost use Rattle.outside_io.specs.{FailsByCount};
ghost use Rattle.slot_disk.specs.{IfImageKnown, IfBothKnown, GivesRange, IsTornImage, IsWrittenImage};
ghost use Rattle.slot_disk.specs.{IsTornFrom, IsOnlyImage, MomentsGoOn, IsUnchangedAt};
ghost use Rattle.system_io.specs.StoreFile.{CountsSync, KeepsSyncs, StaysOpen, late_syncs};

use crate::store_file::{StoreFile, StoreOpener, SystemStore};
use outside_io::Failed;
use slot_disk::Disk;
use std::alloc::{AllocError, Global};
use std::fs::File;
use std::io::{Error, ErrorKind, Result as IoResult};
use std::os::unix::fs::FileExt;

// How many bytes one system call reads at most.
const ROOM: usize = 65_536;

/// The file of a store as a disk.
pub type StoreDisk<'a> = FileDisk<SystemStore<'a>, File>;

/// A file as a disk. Its bytes are not known.
///
/// The first call opens the file, and creates it empty where it is missing. If it can't be opened, the call fails, and
/// the next call tries again.
///
/// The first sync also syncs the file's name, so that a crash leaves it too. After a sync that failed each later sync
/// fails, since the system may have dropped what it could not write.
#[derive(Drop)]
pub struct FileDisk<O, F> {
    opener: O,
    opened: Option<F>,
    buffer: Vec<u8>,
    name_synced: bool,
    sync_failed: bool,
    faults: u64,
    ghost has_room: { 0 < vec_len buffer },
}

impl<O: StoreOpener<F> + Drop, F: StoreFile + Drop> FileDisk<O, F> {
    /// The file that the opener opens, not yet opened.
    pub fn new(alloc: Global, opener: O) -> Result<Self, AllocError>
        ensures { IfOk result (λ disk. (disk.opener ≡ opener) × (disk.opened ≡ None) × (disk.name_synced ≡ false)
            × (disk.sync_failed ≡ false) × (disk.faults ≡ 0)) }
    {
        Ok(FileDisk {
            opener,
            opened: None,
            buffer: vec![in alloc; 0; ROOM]?,
            name_synced: false,
            sync_failed: false,
            faults: 0,
        })
    }

    fn try_len(&mut self) -> IoResult<u64>
        ensures same_faults { self.new.faults ≡ self.old.faults }
        ensures same_syncs { self.new.sync_failed ≡ self.old.sync_failed }
        ensures same_name { self.new.name_synced ≡ self.old.name_synced }
        ensures same_file { StaysOpen self.old.opened self.new.opened }
    {
        let file = take_opened(&mut self.opened, &self.opener)?;
        let size = file.size();
        self.opened = Some(file);
        size
    }

    fn try_read(&mut self, place: u64, into: &mut [u8]) -> IoResult<usize>
        ensures fits { IfOk result (λ count. count ≤ length into.old) }
        ensures later_places { IfOk result (λ count. drop count into.new ≡ drop count into.old) }
        ensures same_faults { self.new.faults ≡ self.old.faults }
        ensures same_syncs { self.new.sync_failed ≡ self.old.sync_failed }
        ensures same_name { self.new.name_synced ≡ self.old.name_synced }
        ensures same_file { StaysOpen self.old.opened self.new.opened }
    {
        let file = take_opened(&mut self.opened, &self.opener)?;
        let count = read_on(&file, &mut self.buffer, place, into);
        self.opened = Some(file);
        count
    }

    fn try_write(&mut self, place: u64, bytes: &[u8]) -> IoResult<usize>
        ensures all { IfOk result (λ count. count ≡ length bytes.now) }
        ensures same_faults { self.new.faults ≡ self.old.faults }
        ensures same_syncs { self.new.sync_failed ≡ self.old.sync_failed }
        ensures same_name { self.new.name_synced ≡ self.old.name_synced }
        ensures same_file { StaysOpen self.old.opened self.new.opened }
    {
        let file = take_opened(&mut self.opened, &self.opener)?;
        let count = write_on(&file, place, bytes);
        self.opened = Some(file);
        count
    }

    fn try_sync(&mut self) -> IoResult<()>
        ensures same_faults { self.new.faults ≡ self.old.faults }
        ensures after_failed { self.old.sync_failed ≡ true → is_err result ≡ true }
        ensures failed { is_err result ≡ self.new.sync_failed }
        ensures named { OnOk result (self.new.name_synced ≡ true) }
        ensures synced { OnOk result (CountsSync (late_syncs O.syncs F.syncs self.old.opener self.old.opened)
            (late_syncs O.syncs F.syncs self.new.opener self.new.opened)) }
    {
        if self.sync_failed {
            return Err(Error::from(ErrorKind::Other));
        }
        self.sync_failed = true;
        sync_opened(&mut self.opened, &self.opener)?;
        if !self.name_synced {
            self.opener.sync_name()?;
            self.name_synced = true;
        }
        self.sync_failed = false;
        Ok(())
    }

    // Fails, and counts that.
    fn fail<T>(&mut self) -> Result<T, Failed>
        ensures failed { is_err result ≡ true }
        ensures cause { FailsByCount self.old.faults self.new.faults result }
        ensures same_syncs { self.new.sync_failed ≡ self.old.sync_failed }
        ensures same_name { self.new.name_synced ≡ self.old.name_synced }
        ensures same_file { self.new.opened ≡ self.old.opened }
    {
        self.faults = self.faults.saturating_add(1);
        Err(Failed)
    }
}

impl<O: StoreOpener<F> + Drop, F: StoreFile + Drop> Disk for FileDisk<O, F> {
    ghost reads = { λ _. None };

    ghost image_now = { λ _ _. ⊤ };

    ghost moment = { λ _. 0 };

    ghost image_since = { λ _ _ _. ⊤ };

    ghost faults = { λ s. s.faults };

    ghost reading_is_image = { λ _ _ _. tt };

    ghost now_is_since = { λ _ _ _ _ _. tt };

    ghost only_now = { λ _ _ _. tt };

    fn len(&mut self) -> Result<u64, Failed>
        ensures length { IfOk result (λ count. IfImageKnown None (λ bytes. count ≡ length bytes)) }
        ensures unchanged { IsUnchangedAt (λ _. None) (λ _ _. ⊤) self.old self.new }
        ensures images { (image : List ℕ) → ⊤ → ⊤ }
        ensures time { MomentsGoOn (λ _. 0) (λ _ _ _. ⊤) self.old self.new }
        ensures cause { FailsByCount self.old.faults self.new.faults result }

        // What is marked of syncs is kept: whether one failed, and whether the name was synced. An open file stays open.
        ensures same_syncs { self.new.sync_failed ≡ self.old.sync_failed }
        ensures same_name { self.new.name_synced ≡ self.old.name_synced }
        ensures same_file { StaysOpen self.old.opened self.new.opened }
    {
        match self.try_len() {
            Ok(count) => Ok(count),
            Err(_) => self.fail(),
        }
    }

    fn read_at(&mut self, place: u64, into: &mut [u8]) -> Result<usize, Failed>
        ensures fits { IfOk result (λ count. count ≤ length into.old) }
        ensures later_places { IfOk result (λ count. drop count into.new ≡ drop count into.old) }
        ensures given { IfOk result (λ count. IfImageKnown None (λ bytes. GivesRange place (length into.old) bytes into.new count)) }
        ensures unchanged { IsUnchangedAt (λ _. None) (λ _ _. ⊤) self.old self.new }
        ensures images { (image : List ℕ) → ⊤ → ⊤ }
        ensures time { MomentsGoOn (λ _. 0) (λ _ _ _. ⊤) self.old self.new }
        ensures cause { FailsByCount self.old.faults self.new.faults result }

        // What is marked of syncs is kept: whether one failed, and whether the name was synced. An open file stays open.
        ensures same_syncs { self.new.sync_failed ≡ self.old.sync_failed }
        ensures same_name { self.new.name_synced ≡ self.old.name_synced }
        ensures same_file { StaysOpen self.old.opened self.new.opened }
    {
        match self.try_read(place, into) {
            Ok(count) => Ok(count),
            Err(_) => self.fail(),
        }
    }

    fn write_at(&mut self, place: u64, bytes: &[u8]) -> Result<(), Failed>
        ensures known { let unknown : Option (List ℕ) = None in is_some unknown ≡ is_some unknown }
        ensures torn { IfBothKnown None None (IsTornImage place (length bytes.now)) }
        ensures written { OnOk result (IfBothKnown None None (IsWrittenImage place bytes.now)) }
        ensures images { (image : List ℕ) → ⊤ → IsTornFrom (λ _. ⊤) place (length bytes.now) image }
        ensures time { MomentsGoOn (λ _. 0) (λ _ _ _. ⊤) self.old self.new }
        ensures cause { FailsByCount self.old.faults self.new.faults result }

        // What is marked of syncs is kept: whether one failed, and whether the name was synced. An open file stays open.
        ensures same_syncs { self.new.sync_failed ≡ self.old.sync_failed }
        ensures same_name { self.new.name_synced ≡ self.old.name_synced }
        ensures same_file { StaysOpen self.old.opened self.new.opened }
    {
        match self.try_write(place, bytes) {
            Ok(_) => Ok(()),
            Err(_) => self.fail(),
        }
    }

    fn sync(&mut self) -> Result<(), Failed>
        ensures reads { let unknown : Option (List ℕ) = None in unknown ≡ unknown }
        ensures images { (image : List ℕ) → ⊤ → ⊤ }
        ensures safe { OnOk result (IfImageKnown None (λ bytes. IsOnlyImage bytes (λ _. ⊤))) }
        ensures time { MomentsGoOn (λ _. 0) (λ _ _ _. ⊤) self.old self.new }
        ensures cause { FailsByCount self.old.faults self.new.faults result }

        // After a sync that failed each sync fails. One that succeeds has synced the file's name.
        ensures after_failed { self.old.sync_failed ≡ true → is_err result ≡ true }
        ensures failed { is_err result ≡ self.new.sync_failed }
        ensures named { OnOk result (self.new.name_synced ≡ true) }

        // Where it is known how often the file was synced, it was synced once more.
        ensures synced { OnOk result (CountsSync (late_syncs O.syncs F.syncs self.old.opener self.old.opened)
            (late_syncs O.syncs F.syncs self.new.opener self.new.opened)) }
    {
        match self.try_sync() {
            Ok(()) => Ok(()),
            Err(_) => self.fail(),
        }
    }
}

// Syncs the file, which the first call opens.
fn sync_opened<O: StoreOpener<F>, F: StoreFile + Drop>(
    slot: &mut Option<F>,
    opener: &O,
) -> IoResult<()>
    ensures { OnOk result (CountsSync (late_syncs O.syncs F.syncs opener.now slot.old)
        (late_syncs O.syncs F.syncs opener.now slot.new)) }
{
    let mut file = take_opened(slot, opener)?;
    let synced = file.sync();
    *slot = Some(file);
    synced
}

// Takes out the file, which the first call opens. The caller puts it back.
fn take_opened<O: StoreOpener<F>, F: StoreFile>(slot: &mut Option<F>, opener: &O) -> IoResult<F>
    ensures same { IfOk result (λ file. StaysOpen slot.old (Some file)) }
    ensures unopened { OnErr result ((slot.old ≡ None) × (slot.new ≡ None)) }
    ensures kept { IfOk result (λ file. KeepsSyncs (late_syncs O.syncs F.syncs opener.now slot.old) (F.syncs file)) }
{
    match slot.take() {
        Some(file) => Ok(file),
        None => opener.open_file(),
    }
}

// Reads up to the file's end or the room. A call interrupted by a signal is made again.
pub(crate) fn read_on<F: FileExt>(
    file: &F,
    buffer: &mut [u8],
    place: u64,
    into: &mut [u8],
) -> IoResult<usize>
    requires { 0 < length buffer.old }
    ensures same_room { length buffer.new ≡ length buffer.old }
    ensures fits { IfOk result (λ count. count ≤ length into.old) }
    ensures later_places { IfOk result (λ count. drop count into.new ≡ drop count into.old) }
{
    let mut at = 0;
    for _ in 0..u64::MAX {
        if at == into.len() {
            return Ok(at);
        }
        match read_by(file, buffer, place_after(place, at)?, into, at) {
            Ok(0) => return Ok(at),
            Ok(count) => at += count,
            Err(error) if error.kind() == ErrorKind::Interrupted => {}
            Err(error) => return Err(error),
        }
    }
    Err(Error::from(ErrorKind::Other))
}

// Reads once through a buffer into `into` from the index `at` on. After the bytes read, `into` is unchanged.
fn read_by<F: FileExt>(
    file: &F,
    buffer: &mut [u8],
    place: u64,
    into: &mut [u8],
    at: usize,
) -> IoResult<usize>
    requires room { 0 < length buffer.old }
    requires within { at ≤ length into.old }
    ensures same_room { length buffer.new ≡ length buffer.old }
    ensures same_length { length into.new ≡ length into.old }
    ensures fits { IfOk result (λ count. at + count ≤ length into.old) }
    ensures later_places { IfOk result (λ count. drop (at + count) into.new ≡ drop (at + count) into.old) }
    ensures failed { OnErr result (into.new ≡ into.old) }
{
    let room = (into.len() - at).min(buffer.len());
    let piece = &mut buffer[..room];
    let count = file.read_at(piece, place)?;
    into[at..at + count].copy_from_slice(&piece[..count]);
    Ok(count)
}

// Writes all the bytes, and returns how many the file took. A call interrupted by a signal is made again.
pub(crate) fn write_on<F: FileExt>(file: &F, place: u64, bytes: &[u8]) -> IoResult<usize>
    ensures { IfOk result (λ count. count ≡ length bytes.now) }
{
    let mut at = 0;
    for _ in 0..u64::MAX {
        if at == bytes.len() {
            return Ok(at);
        }
        match file.write_at(&bytes[at..], place_after(place, at)?) {
            Ok(0) => return Err(Error::from(ErrorKind::WriteZero)),
            Ok(count) => at += count,
            Err(error) if error.kind() == ErrorKind::Interrupted => {}
            Err(error) => return Err(error),
        }
    }
    Err(Error::from(ErrorKind::Other))
}

// The offset that is this many bytes after another.
fn place_after(place: u64, count: usize) -> IoResult<u64>
    ensures { IfOk result (λ after. after ≡ place + count) }
{
    match place.checked_add(count as u64) {
        Some(after) => Ok(after),
        None => Err(Error::from(ErrorKind::InvalidInput)),
    }
}
