//! A store of two slots, as it is known: its gates and its header.

ghost use Rattle.std.specs.Prelude.{◌≡◌, ℕ, ◌+◌, ◌<◌, ◌≤◌, ◌^◌, List, None, Some, true, false, length, vec_len};
ghost use Rattle.std.specs.Prelude.{is_some, IfOk, OnOk, IsErrOf};
ghost use Rattle.outside_io.specs.{FailsByCount, FaultRose};
ghost use Rattle.slot_disk.specs.Images.{IfImageKnown, IfBothKnown};
ghost use Rattle.slot_disk.specs.Moments.{CrashLeaves, IsUnchangedAt};
ghost use Rattle.slot_disk.specs.Slots.{known_slot_open, after_opening, known_slots_of};
ghost use Rattle.slot_disk.specs.Slots.{MatchesKnown};
ghost use Rattle.slot_disk.specs.Putting.{FitsSlot, IsReadyForPut, IsPut, PutMayLeave};
ghost use Rattle.slot_disk.specs.StoreLayout.{front_bytes, place_of_body, slot_body, body_is_whole};
ghost use Rattle.slot_disk.specs.StoreLayout.{number_at, IsNumberRead};

use crate::putting::{close_gate, open_gate, write_body};
use crate::{BeginFault, BodyFault, Disk};
use byteorder::{BigEndian, ByteOrder};
use outside_io::Failed;
use std::alloc::{AllocError, Global};
use std::marker::Model;

/// What is known of a store: whether each gate is open, and the header.
#[derive(Debug, Drop)]
pub struct Slots {
    first_open: bool,
    second_open: bool,
    header: [u8; 62],
}

impl Model for Slots {
    ghost use Rattle.std.specs.Prelude.{◌≡◌, length};
    ghost use Rattle.slot_disk.specs.Slots.{KnownSlotsState};

    ghost Value = { KnownSlotsState };

    ghost view = { λ s. record { first_open = s.first_open; second_open = s.second_open; header = s.header } };
}

impl Slots {
    /// Begins a store: syncs, and reads its gates and its header.
    pub fn begin<D: Disk>(disk: &mut D) -> Result<Slots, BeginFault>
        ensures stands { IfOk result (λ slots. MatchesKnown (D.reads disk.new) (D.image_now disk.new) slots) }
        ensures too_short { IsErrOf result BeginFault.TooShort → IfImageKnown (D.reads disk.old) (λ bytes. length bytes < front_bytes) }
        ensures reads { D.reads disk.new ≡ D.reads disk.old }
        ensures any_moment { CrashLeaves D.moment D.image_since disk.old disk.new (D.image_now disk.old) }
        ensures later { D.faults disk.old ≤ D.faults disk.new }
        ensures fault { IsErrOf result BeginFault.DiskFault → FaultRose (D.faults disk.old) (D.faults disk.new) }
        ensures no_fault { (IsErrOf result BeginFault.DiskFault → ⊥) → D.faults disk.new ≡ D.faults disk.old }
    {
        disk.sync()?;
        let mut front = [0; 64];
        let count = disk.read_at(0, &mut front)?;
        if count < front.len() {
            return Err(BeginFault::TooShort);
        }
        Ok(read_front(&front))
    }

    /// Whether the gate of a slot, 0 or 1, is open: its byte is 1.
    pub fn gate(&self, slot: u8) -> bool
        requires { slot < 2 }
        ensures { result ≡ known_slot_open self.now slot }
    {
        if slot == 0 {
            self.first_open
        } else {
            self.second_open
        }
    }

    /// The header: the 62 bytes after the gates.
    pub fn header(&self) -> &[u8; 62]
        ensures { result.now ≡ self.now.header }
    {
        &self.header
    }

    /// Reads the body of a slot, 0 or 1, whether its gate is open or closed, as many bytes as its length says.
    pub fn read_body<D: Disk>(
        &self,
        alloc: Global,
        disk: &mut D,
        slot: u8,
        span: u64,
    ) -> Result<Vec<u8>, BodyFault>
        requires slot { slot < 2 }
        requires span { span < 2 ^ 32 }
        ensures body { IfOk result (λ body. IfImageKnown (D.reads disk.old) (λ bytes. slot_body span slot bytes ≡ Some body.items)) }
        ensures damaged { IsErrOf result BodyFault.Damaged → IfImageKnown (D.reads disk.old) (λ bytes. slot_body span slot bytes ≡ None) }
        ensures unchanged { IsUnchangedAt D.reads D.image_now disk.old disk.new }
        ensures any_moment { CrashLeaves D.moment D.image_since disk.old disk.new (D.image_now disk.old) }
        ensures later { D.faults disk.old ≤ D.faults disk.new }
        ensures fault { IsErrOf result BodyFault.DiskFault → FaultRose (D.faults disk.old) (D.faults disk.new) }
        ensures no_fault { (IsErrOf result BodyFault.DiskFault → ⊥) → D.faults disk.new ≡ D.faults disk.old }
    {
        let place = body_place(slot, span);
        let length = read_length(disk, place, span)?;
        let mut body = zero_bytes(alloc, length)?;
        let count = disk.read_at(place, &mut body)?;
        if count < body.len() {
            return Err(BodyFault::Damaged);
        }
        Ok(body)
    }

    /// Puts a body into a slot, 0 or 1: closes its gate, writes the body, opens the gate, and syncs after each. The body
    /// begins with its length in 8 bytes, high byte first, and has at most as many bytes as the span.
    ///
    /// The other slot is the newest one, open and whole, or no slot is open. So a crash at any moment of the put leaves
    /// the newest body as it was, or the new one. After `Failed` the store is begun again.
    pub fn put<D: Disk>(
        self,
        disk: &mut D,
        slot: u8,
        span: u64,
        body: &[u8],
    ) -> Result<Slots, Failed>
        requires slot { slot < 2 }
        requires span { span < 2 ^ 32 }
        requires body { FitsSlot span body.now }
        requires stands { MatchesKnown (D.reads disk.old) (D.image_now disk.old) self }
        requires ready { IfImageKnown (D.reads disk.old) (IsReadyForPut span slot) }
        ensures known { is_some (D.reads disk.new) ≡ is_some (D.reads disk.old) }
        ensures done { OnOk result (IfBothKnown (D.reads disk.old) (D.reads disk.new) (IsPut span slot body.now)) }
        ensures stands { IfOk result (λ slots. MatchesKnown (D.reads disk.new) (D.image_now disk.new) slots) }
        ensures opened { IfOk result (λ slots. slots ≡ after_opening self slot) }
        ensures any_moment { IfImageKnown (D.reads disk.old)
            (λ old. CrashLeaves D.moment D.image_since disk.old disk.new (PutMayLeave span slot body.now old)) }
        ensures cause { FailsByCount (D.faults disk.old) (D.faults disk.new) result }
    {
        let is_open = self.gate(slot);
        close_gate(disk, slot, is_open)?;
        write_body(disk, slot, span, body)?;
        open_gate(disk, slot)?;
        Ok(self.opened(slot))
    }

    // The same slots, after the gate of a slot was opened.
    fn opened(self, slot: u8) -> Slots
        requires { slot < 2 }
        ensures { result ≡ after_opening self slot }
    {
        if slot == 0 {
            Slots {
                first_open: true,
                ..self
            }
        } else {
            Slots {
                second_open: true,
                ..self
            }
        }
    }
}

// The gates and the header in the first bytes of a store.
fn read_front(front: &[u8; 64]) -> Slots
    ensures { result ≡ known_slots_of front.now }
{
    let mut header = [0; 62];
    header.copy_from_slice(&front[2..]);
    Slots {
        first_open: front[0] == 1,
        second_open: front[1] == 1,
        header,
    }
}

/// The offset of the body of a slot, 0 or 1.
pub(crate) fn body_place(slot: u8, span: u64) -> u64
    requires slot { slot < 2 }
    requires span { span < 2 ^ 32 }
    ensures { result ≡ place_of_body span slot }
{
    if slot == 0 { 64 } else { 64 + span }
}

// The length of the body at an offset, if it is from 8 to the span and doesn't run past the disk's end.
fn read_length<D: Disk>(disk: &mut D, place: u64, span: u64) -> Result<usize, BodyFault>
    requires place { place < 2 ^ 33 }
    requires span { span < 2 ^ 32 }
    ensures whole { IfOk result (λ length. IfImageKnown (D.reads disk.old)
        (λ bytes. (body_is_whole span place bytes ≡ true) × (length ≡ number_at place bytes))) }
    ensures damaged { IsErrOf result BodyFault.Damaged → IfImageKnown (D.reads disk.old) (λ bytes. body_is_whole span place bytes ≡ false) }
    ensures memory { IsErrOf result BodyFault.OutOfMemory → ⊥ }
    ensures unchanged { IsUnchangedAt D.reads D.image_now disk.old disk.new }
    ensures any_moment { CrashLeaves D.moment D.image_since disk.old disk.new (D.image_now disk.old) }
    ensures later { D.faults disk.old ≤ D.faults disk.new }
    ensures fault { IsErrOf result BodyFault.DiskFault → FaultRose (D.faults disk.old) (D.faults disk.new) }
    ensures no_fault { (IsErrOf result BodyFault.DiskFault → ⊥) → D.faults disk.new ≡ D.faults disk.old }
{
    let end = disk.len()?;
    let Some(length) = read_number(disk, place)? else {
        return Err(BodyFault::Damaged);
    };
    if length < 8 {
        return Err(BodyFault::Damaged);
    }
    if length > span {
        return Err(BodyFault::Damaged);
    }
    if place + length > end {
        return Err(BodyFault::Damaged);
    }
    Ok(length as usize)
}

// The number in the 8 bytes at an offset, unless the disk ends before or inside them.
fn read_number<D: Disk>(disk: &mut D, place: u64) -> Result<Option<u64>, Failed>
    ensures number { IfOk result (λ number. IfImageKnown (D.reads disk.old) (IsNumberRead place number)) }
    ensures unchanged { IsUnchangedAt D.reads D.image_now disk.old disk.new }
    ensures any_moment { CrashLeaves D.moment D.image_since disk.old disk.new (D.image_now disk.old) }
    ensures cause { FailsByCount (D.faults disk.old) (D.faults disk.new) result }
{
    let mut head = [0; 8];
    let count = disk.read_at(place, &mut head)?;
    if count < head.len() {
        return Ok(None);
    }
    Ok(Some(BigEndian::read_u64(&head)))
}

// `count` zero bytes.
fn zero_bytes(alloc: Global, count: usize) -> Result<Vec<u8>, AllocError>
    ensures { IfOk result (λ bytes. vec_len bytes ≡ count) }
{
    vec![in alloc; 0u8; count]
}
