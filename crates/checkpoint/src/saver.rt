//! Saves cuts into a store.

ghost use Rattle.std.specs.Prelude.{◌≡◌, ◌<◌, ◌≤◌, ℕ, List, Some, Err, replicate, is_some, IfOk, IsErrOf, OnOk};
ghost use Rattle.outside_io.specs.{FaultRose};
ghost use Rattle.hhh_report.specs.{AreNotPast};
ghost use Rattle.shard_state.specs.{HasCoreShape, cut_positions};
ghost use Rattle.slot_disk.specs.{IfImageKnown, CrashLeaves, other_slot_of};
ghost use Rattle.checkpoint.specs.Header.{settings_shape};
ghost use Rattle.checkpoint.specs.Header.{IsHeader, header_bytes};
ghost use Rattle.checkpoint.specs.Body.{greatest_sequence};
ghost use Rattle.checkpoint.specs.Store.{OpensOldOrNew, StoreOpensTo};
ghost use Rattle.checkpoint.specs.Saver.{SaverState, DiskMatches, IsNewestSave, saver_after, next_saved};
ghost use Rattle.checkpoint.specs.Saver.{saver_of};

use crate::{Newest, SaveFault, StoreHeader, encode, span};
use hhh_report::Positions;
use shard_state::Cut;
use slot_disk::{Disk, Slots};
use std::alloc::{AllocError, Global};
use std::marker::Model;

/// What is known of a sound store: its header, its gates, and the sequence and the positions of its newest slot. It
/// saves cuts into the slot that isn't the newest.
#[derive(Debug, Drop)]
pub struct Saver {
    header: StoreHeader,
    slots: Slots,
    digest: [u8; 32],
    newest_slot: u8,
    sequence: u64,
    positions: Positions,
}

impl Model for Saver {
    ghost use Rattle.std.specs.Prelude.{◌<◌};
    ghost use Rattle.checkpoint.specs.Header.{IsHeader};
    ghost use Rattle.checkpoint.specs.Saver.{SaverState};

    ghost Value = { SaverState };

    ghost view = { λ s. record {
      header = s.header;
      slots = s.slots;
      digest = s.digest;
      newest_slot = s.newest_slot;
      sequence = s.sequence;
      positions = s.positions;
    } };

    ghost invariant = { λ s. IsHeader s.header × (s.newest_slot < 2) };
}

impl Saver {
    /// A saver of the store whose gates and header these slots are, and what that header spells, with the digest that its saves write and the newest
    /// of its open slots, `None` where no gate is open. The only error is that memory runs out.
    pub fn new(
        alloc: Global,
        slots: Slots,
        header: StoreHeader,
        digest: [u8; 32],
        newest: &Option<Newest>,
    ) -> Result<Saver, AllocError>
        requires header { IsHeader header }
        requires spelled { slots.header ≡ header_bytes header }
        requires newest { IsNewestSave header.settings slots newest.now }
        ensures { IfOk result (λ saver. saver ≡ saver_of slots header digest newest.now) }
    {
        match newest {
            None => Ok(Saver {
                header,
                slots,
                digest,
                newest_slot: 1,
                sequence: 0,
                positions: zero_positions(alloc, header.settings.shards)?,
            }),
            Some(newest) => Ok(Saver {
                header,
                slots,
                digest,
                newest_slot: newest.slot,
                sequence: newest.saved.sequence,
                positions: newest.saved.cut.positions(alloc)?,
            }),
        }
    }

    /// Saves a cut of the store's shape, none of whose positions is before that of the last saved one, under the next
    /// sequence, which is at most 2^62. It goes to the slot that isn't the newest, so a crash at any moment leaves the
    /// store as it opened before, or with the new cut.
    ///
    /// The memory for the body is allocated before the first call of the disk: if that fails, the saver is handed back
    /// and the disk is unchanged. After `DiskFault` the store is opened again.
    pub fn save<D: Disk>(self, alloc: Global, disk: &mut D, cut: &Cut) -> Result<Saver, SaveFault>
        requires early { self.sequence < greatest_sequence }
        requires stands { DiskMatches (D.reads disk.old) (D.image_now disk.old) self }
        requires shape { HasCoreShape self.header.settings.shards (settings_shape self.header.settings) cut.now }
        requires no_earlier { AreNotPast self.positions (cut_positions cut.now) }
        ensures known { is_some (D.reads disk.new) ≡ is_some (D.reads disk.old) }
        ensures saved { IfOk result (λ saver. saver ≡ saver_after self cut.now) }
        ensures stands { IfOk result (λ saver. DiskMatches (D.reads disk.new) (D.image_now disk.new) saver) }
        ensures opens { OnOk result (IfImageKnown (D.reads disk.new) (λ _. (image : List ℕ) → D.image_now disk.new image
            → StoreOpensTo self.header image (Some (next_saved self cut.now)))) }
        ensures any_moment { IfImageKnown (D.reads disk.old)
            (λ old. CrashLeaves D.moment D.image_since disk.old disk.new (OpensOldOrNew self.header old (next_saved self cut.now))) }
        ensures handed_back { (saver : SaverState) → result ≡ Err (SaveFault.OutOfMemory saver) → saver ≡ self }
        ensures untouched { (saver : SaverState) → result ≡ Err (SaveFault.OutOfMemory saver) → disk.new ≡ disk.old }
        ensures later { D.faults disk.old ≤ D.faults disk.new }
        ensures fault { IsErrOf result SaveFault.DiskFault → FaultRose (D.faults disk.old) (D.faults disk.new) }
        ensures no_fault { (IsErrOf result SaveFault.DiskFault → ⊥) → D.faults disk.new ≡ D.faults disk.old }
    {
        let Ok(body) = encode(alloc, self.sequence + 1, &self.digest, cut) else {
            return Err(SaveFault::OutOfMemory(self));
        };
        let Ok(positions) = cut.positions(alloc) else {
            return Err(SaveFault::OutOfMemory(self));
        };
        let slot = other_slot(self.newest_slot);
        let slots = self
            .slots
            .put(disk, slot, span(&self.header.settings), &body)?;
        Ok(Saver {
            slots,
            newest_slot: slot,
            sequence: self.sequence + 1,
            positions,
            ..self
        })
    }

    /// The positions of the newest slot, each 0 where no gate is open.
    pub fn positions(&self) -> &Positions
        ensures { result.now ≡ self.now.positions }
    {
        &self.positions
    }

    /// The sequence of the newest slot, 0 where no gate is open.
    pub fn sequence(&self) -> u64
        ensures { result ≡ self.now.sequence }
    {
        self.sequence
    }

    /// The digest of the dealt records, which each save writes.
    pub fn digest(&self) -> &[u8; 32]
        ensures { result.now ≡ self.now.digest }
    {
        &self.digest
    }
}

// The other of two slots.
fn other_slot(slot: u8) -> u8
    requires { slot < 2 }
    ensures { result ≡ other_slot_of slot }
{
    1 - slot
}

// The position 0 for each shard.
fn zero_positions(alloc: Global, shards: u32) -> Result<Positions, AllocError>
    ensures { IfOk result (λ positions. positions ≡ replicate shards 0) }
{
    let mut positions = Positions::new(alloc);
    for _shard in 0..shards {
        positions.push(0)?;
    }
    Ok(positions)
}
