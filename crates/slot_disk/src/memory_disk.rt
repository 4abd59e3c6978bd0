//! A disk in memory that records its writes and syncs, and whose calls fail where a test chooses.

ghost use Rattle.std.specs.Prelude.{◌≡◌, ◌+◌, ◌<◌, ◌≤◌, ℕ, List, [], ◌||◌, ◌&&◌, not, nat_le, nat_lt, length, drop};
ghost use Rattle.std.specs.Prelude.{is_err, is_some, true, IfOk, OnOk, OnErr, Some};
ghost use Rattle.outside_io.specs.{FailsByCount};
ghost use Rattle.slot_disk.specs.Images.{IfImageKnown, IfBothKnown, GivesRange, IsTornImage, IsWrittenImage};
ghost use Rattle.slot_disk.specs.Images.{IsTornFrom, IsOnlyImage};
ghost use Rattle.slot_disk.specs.Moments.{MomentsGoOn, IsUnchangedAt};
ghost use Rattle.slot_disk.specs.Recorded.{Wrote, Began, Synced, reading_of, crash_image};
ghost use Rattle.slot_disk.specs.RecordedLaws.{is_image-reading, now_is_since, only_now};
ghost use Rattle.slot_disk.specs.MemoryDisk.{most_steps, fuse_blows_at, fuse_has_blown};
ghost use Rattle.slot_disk.specs.MemoryDisk.{call_fails, sync_fails, write_fits};
ghost use Rattle.slot_disk.specs.MemoryDisk.{write_fails};
ghost use Rattle.slot_disk.specs.MemoryDisk.{after_call, after_fault, with_step};
ghost use Rattle.slot_disk.specs.MemoryDisk.{after_failed, disk_reads};
ghost use Rattle.slot_disk.specs.MemoryDisk.{disk_now, disk_moment, disk_since};

use crate::Disk;
use crate::crashing::crashed;
use crate::overwriting::write_over;
use crate::step_entry::{StepEntry, StepKind, add_entry};
use outside_io::Failed;
use std::alloc::{AllocError, Global};
use std::marker::Model;

/// How many writes and syncs the record takes.
const MOST_STEPS: usize = 1024;

/// A disk in memory with room for a number of bytes. It records each write and each sync, so that the bytes that a
/// crash may have left at any moment are known.
///
/// Calls are numbered from 0. A call fails exactly where its number is one of those that fail, where it is at or past
/// the fuse, where it is a write past the room, or where it is a write or sync for which the record has no room. A
/// write at the fuse counts as begun where it fits the room and the record. Any other write that fails writes nothing.
/// The counts of calls and of faults stay at the greatest `u64`.
#[derive(Drop)]
pub struct MemoryDisk {
    room: usize,
    log: usize,
    first: Vec<u8>,
    bytes: Vec<u8>,
    entries: Vec<StepEntry>,
    written: Vec<u8>,
    fuse: Option<u64>,
    fails: Vec<u64>,
    calls: u64,
    faults: u64,
}

impl Model for MemoryDisk {
    ghost use Rattle.std.specs.Prelude.{◌≡◌, ◌≤◌, length, vec_len, vec_capacity};
    ghost use Rattle.slot_disk.specs.MemoryDisk.{DiskState, most_steps};
    ghost use Rattle.slot_disk.specs.Recorded.{reading_of, recorded_bytes};
    ghost use Rattle.slot_disk.specs.StepEntry.{newest_last, HasEntries};

    ghost Value = { DiskState };

    ghost view = { λ s. record {
      room = s.room;
      log = s.log;
      first = s.first.items;
      steps = newest_last s.entries.items s.written.items;
      fuse = s.fuse;
      fails = s.fails.items;
      calls = s.calls;
      faults = s.faults;
    } };

    ghost invariant = { λ s. (HasEntries s.room s.log s.first.items s.bytes.items s.entries.items s.written.items)
        × (s.room ≤ vec_capacity s.bytes) × (most_steps ≤ vec_capacity s.entries) × (s.log ≤ vec_capacity s.written) };
}

impl MemoryDisk {
    /// A disk of these bytes, all of them safe. It holds at most `room` bytes, and its record at most `log` written
    /// bytes. All memory is reserved here: after an `Err` there is no disk.
    pub fn with_room(
        alloc: Global,
        room: usize,
        log: usize,
        bytes: Vec<u8>,
        fuse: Option<u64>,
        fails: Vec<u64>,
    ) -> Result<MemoryDisk, AllocError>
        requires { length bytes.items ≤ room }
        ensures state { IfOk result (λ disk. disk ≡ record {
          room = room;
          log = log;
          first = bytes.items;
          steps = [];
          fuse = fuse;
          fails = fails.items;
          calls = 0;
          faults = 0;
        }) }

        // As a disk it tells its bytes: a read gives them, and a crash leaves nothing else.
        ensures known { IfOk result (λ disk. ⟦<MemoryDisk as Disk>⟧.reads disk ≡ Some bytes.items) }
        ensures safe { IfOk result (λ disk. IsOnlyImage bytes.items (⟦<MemoryDisk as Disk>⟧.image_now disk)) }
    {
        let mut contents = Vec::with_capacity(alloc, room)?;
        contents.extend_from_slice(&bytes)?;
        Ok(MemoryDisk {
            room,
            log,
            first: bytes,
            bytes: contents,
            entries: Vec::with_capacity(alloc, MOST_STEPS)?,
            written: Vec::with_capacity(alloc, log)?,
            fuse,
            fails,
            calls: 0,
            faults: 0,
        })
    }

    /// The bytes that one crash now would leave. Of what was written since the last sync that succeeded, choice 0 drops
    /// all, and 1 keeps all, the begun write too. Choice 2 fills the written ranges with bytes 0xFF, and any other
    /// choice keeps the first half of each range. A range begins at the old end where its write begins past it.
    pub fn crash(&self, alloc: Global, choice: u8) -> Result<Vec<u8>, AllocError>
        ensures exact { IfOk result (λ bytes. bytes.items ≡ crash_image choice self.now.first self.now.steps) }
        ensures possible { IfOk result (λ bytes. disk_now self.now bytes.items) }
    {
        let image = crashed(alloc, choice, &self.first, &self.entries, &self.written)?;
        Ok(image)
    }

    // Counts a call. It fails where its number is one of those that fail, where the fuse has blown, or where it doesn't
    // fit.
    fn count_call(&mut self, fits: bool) -> Result<(), Failed>
        ensures fails { is_err result ≡ (call_fails self.old || not fits) }
        ensures failed { OnErr result (self.new ≡ after_fault self.old) }
        ensures went { OnOk result (self.new ≡ after_call self.old) }
        ensures cause { FailsByCount self.old.faults self.new.faults result }
    {
        let fails = self.fails.contains(&self.calls) || has_blown(self.fuse, self.calls) || !fits;
        self.calls = self.calls.saturating_add(1);
        if fails {
            self.faults = self.faults.saturating_add(1);
            return Err(Failed);
        }
        Ok(())
    }

    // Whether a write of this many bytes at this offset fits the disk and its record.
    fn fits(&self, place: u64, count: usize) -> bool
        ensures { result ≡ write_fits self.now place count }
    {
        fits_room(self.room, place, count)
            && fits_record(self.entries.len(), self.written.len(), self.log, count)
    }

    // Writes the piece, and records that.
    fn write_whole(&mut self, place: usize, piece: &[u8])
        requires { write_fits self.old place (length piece.now) ≡ true }
        ensures { self.new ≡ with_step self.old (Wrote place piece.now) }
    {
        write_over(&mut self.bytes, place, piece);
        add_entry(
            &mut self.entries,
            &mut self.written,
            StepKind::Wrote,
            place,
            piece,
        );
    }

    // Records that a write of the piece was begun.
    fn begin_write(&mut self, place: usize, piece: &[u8])
        requires { write_fits self.old place (length piece.now) ≡ true }
        ensures { self.new ≡ with_step self.old (Began place piece.now) }
    {
        add_entry(
            &mut self.entries,
            &mut self.written,
            StepKind::Began,
            place,
            piece,
        );
    }

    // Writes the piece, or fails. Where the fuse blows and the piece fits, the write was begun.
    fn write_or_begin(&mut self, place: u64, piece: &[u8]) -> Result<(), Failed>
        ensures fails { is_err result ≡ write_fails self.old place (length piece.now) }
        ensures failed { OnErr result (self.new ≡ after_failed self.old place piece.now) }
        ensures went { OnOk result (self.new ≡ with_step (after_call self.old) (Wrote place piece.now)) }
        ensures images { (image : List ℕ) → disk_since self.new (disk_moment self.old) image
            → IsTornFrom (disk_now self.old) place (length piece.now) image }
        ensures cause { FailsByCount self.old.faults self.new.faults result }
    {
        let fits = self.fits(place, piece.len());
        let blows = self.blows();
        let counted = self.count_call(fits);
        if counted.is_ok() {
            self.write_whole(place as usize, piece);
            return Ok(());
        }
        if blows && fits {
            self.begin_write(place as usize, piece);
        }
        Err(Failed)
    }

    // Whether the fuse blows at the next call.
    fn blows(&self) -> bool
        ensures { result ≡ fuse_blows_at self.now.fuse self.now.calls }
    {
        match self.fuse {
            None => false,
            Some(fuse) => fuse == self.calls,
        }
    }

    // Records a sync.
    fn note_sync(&mut self)
        requires { length self.old.steps < most_steps }
        ensures { self.new ≡ with_step self.old Synced }
    {
        add_entry(
            &mut self.entries,
            &mut self.written,
            StepKind::Synced,
            0,
            &[],
        );
    }
}

// Whether `count` bytes at this offset are within the room.
fn fits_room(room: usize, place: u64, count: usize) -> bool
    ensures { result ≡ nat_le (place + count) room }
{
    let room = room as u64;
    if place > room {
        return false;
    }
    count as u64 <= room - place
}

// Whether a record of this many steps and bytes has room for one more step with `count` bytes.
fn fits_record(steps: usize, bytes: usize, log: usize, count: usize) -> bool
    requires { bytes ≤ log }
    ensures { result ≡ (nat_lt steps most_steps && nat_le (bytes + count) log) }
{
    if steps >= MOST_STEPS {
        return false;
    }
    count <= log - bytes
}

// Whether the fuse has blown at this call, or before it.
fn has_blown(fuse: Option<u64>, call: u64) -> bool
    ensures { result ≡ fuse_has_blown fuse call }
{
    match fuse {
        None => false,
        Some(fuse) => fuse <= call,
    }
}

impl Disk for MemoryDisk {
    ghost reads = { disk_reads };

    ghost image_now = { disk_now };

    ghost moment = { disk_moment };

    ghost image_since = { disk_since };

    ghost faults = { λ s. s.faults };

    ghost reading_is_image = { λ s bytes is. is_image-reading s.first s.steps bytes is };

    ghost now_is_since = { λ s t image le is. now_is_since s.first s.steps t image is };

    ghost only_now = { λ s image was. only_now s.first s.steps image was };

    fn len(&mut self) -> Result<u64, Failed>
        ensures length { IfOk result (λ count. IfImageKnown (disk_reads self.old) (λ bytes. count ≡ length bytes)) }
        ensures unchanged { IsUnchangedAt disk_reads disk_now self.old self.new }
        ensures images { (image : List ℕ) → disk_since self.new (disk_moment self.old) image → disk_now self.old image }
        ensures time { MomentsGoOn disk_moment disk_since self.old self.new }
        ensures cause { FailsByCount self.old.faults self.new.faults result }

        ensures fails { is_err result ≡ call_fails self.old }
        ensures failed { OnErr result (self.new ≡ after_fault self.old) }
        ensures counted { IfOk result (λ count. count ≡ length (reading_of self.old.first self.old.steps)) }
        ensures went { OnOk result (self.new ≡ after_call self.old) }
    {
        self.count_call(true)?;
        Ok(self.bytes.len() as u64)
    }

    fn read_at(&mut self, place: u64, into: &mut [u8]) -> Result<usize, Failed>
        ensures fits { IfOk result (λ count. count ≤ length into.old) }
        ensures later_places { IfOk result (λ count. drop count into.new ≡ drop count into.old) }
        ensures given { IfOk result (λ count. IfImageKnown (disk_reads self.old)
            (λ bytes. GivesRange place (length into.old) bytes into.new count)) }
        ensures unchanged { IsUnchangedAt disk_reads disk_now self.old self.new }
        ensures images { (image : List ℕ) → disk_since self.new (disk_moment self.old) image → disk_now self.old image }
        ensures time { MomentsGoOn disk_moment disk_since self.old self.new }
        ensures cause { FailsByCount self.old.faults self.new.faults result }

        ensures fails { is_err result ≡ call_fails self.old }
        ensures failed { OnErr result (self.new ≡ after_fault self.old) }
        ensures untouched { OnErr result (into.new ≡ into.old) }
        ensures gave { IfOk result (λ count. GivesRange place (length into.old) (reading_of self.old.first self.old.steps) into.new count) }
        ensures went { OnOk result (self.new ≡ after_call self.old) }
    {
        self.count_call(true)?;
        Ok(copy_from(&self.bytes, place, into))
    }

    fn write_at(&mut self, place: u64, bytes: &[u8]) -> Result<(), Failed>
        ensures known { is_some (disk_reads self.new) ≡ is_some (disk_reads self.old) }
        ensures torn { IfBothKnown (disk_reads self.old) (disk_reads self.new) (IsTornImage place (length bytes.now)) }
        ensures written { OnOk result (IfBothKnown (disk_reads self.old) (disk_reads self.new) (IsWrittenImage place bytes.now)) }
        ensures images { (image : List ℕ) → disk_since self.new (disk_moment self.old) image
            → IsTornFrom (disk_now self.old) place (length bytes.now) image }
        ensures time { MomentsGoOn disk_moment disk_since self.old self.new }
        ensures cause { FailsByCount self.old.faults self.new.faults result }

        ensures fails { is_err result ≡ write_fails self.old place (length bytes.now) }
        ensures failed { OnErr result (self.new ≡ after_failed self.old place bytes.now) }
        ensures went { OnOk result (self.new ≡ with_step (after_call self.old) (Wrote place bytes.now)) }
    {
        self.write_or_begin(place, bytes)
    }

    fn sync(&mut self) -> Result<(), Failed>
        ensures reads { disk_reads self.new ≡ disk_reads self.old }
        ensures images { (image : List ℕ) → disk_since self.new (disk_moment self.old) image → disk_now self.old image }
        ensures safe { OnOk result (IfImageKnown (disk_reads self.new) (λ bytes. IsOnlyImage bytes (disk_now self.new))) }
        ensures time { MomentsGoOn disk_moment disk_since self.old self.new }
        ensures cause { FailsByCount self.old.faults self.new.faults result }

        ensures fails { is_err result ≡ sync_fails self.old }
        ensures failed { OnErr result (self.new ≡ after_fault self.old) }
        ensures went { OnOk result (self.new ≡ with_step (after_call self.old) Synced) }
    {
        let fits = self.entries.len() < MOST_STEPS;
        self.count_call(fits)?;
        self.note_sync();
        Ok(())
    }
}

// Copies the bytes from an offset on into the front of `into`, up to their end or the room, and returns how many.
fn copy_from(bytes: &[u8], place: u64, into: &mut [u8]) -> usize
    ensures fits { result ≤ length into.old }
    ensures later_places { drop result into.new ≡ drop result into.old }
    ensures gives { GivesRange place (length into.old) bytes.now into.new result }
{
    let (_, rest) = bytes.split_at(bytes.len().min(place as usize));
    let count = rest.len().min(into.len());
    let (front, _) = rest.split_at(count);
    into[..count].copy_from_slice(front);
    count
}
