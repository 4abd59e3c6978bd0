//! Records in their order.

ghost use Rattle.std.specs.Prelude.{◌≡◌, ◌==◌, ◌<◌, ◌++◌, [], ◌∷◌, ◌≤◌, ◌^◌, length, All, IfOk, OnOk, OnErr, slice_get};
ghost use Rattle.std.specs.Prelude.{Some};

use crate::{Record, RecordQueue};
use std::alloc::{AllocError, Global};
use std::marker::Model;

/// A list of records, in the order in which they were pushed.
#[derive(Drop)]
pub struct RecordList {
    records: Vec<Record>,
}

impl Model for RecordList {
    ghost use Rattle.std.specs.Prelude.{◌<◌, ◌≤◌, ◌^◌, List, All};
    ghost use Rattle.prefix_lattice.specs.Record.{RecordValue};

    ghost Value = { List RecordValue };

    ghost view = { λ l. l.records.items };

    // Each record weighs at least 1 and less than 2^32.
    ghost invariant = { λ l. All (λ rec. 1 ≤ rec.weight) l.records.items × All (λ rec. rec.weight < 2 ^ 32) l.records.items };
}

impl RecordList {
    /// An empty list. It allocates no memory.
    pub fn new(alloc: Global) -> RecordList
        ensures { result ≡ [] }
    {
        RecordList {
            records: Vec::new(alloc),
        }
    }

    /// Appends a record. After an `Err` the list is as before.
    pub fn push(&mut self, rec: Record) -> Result<(), AllocError>
        ensures ok { OnOk result (self.new ≡ self.old ++ rec ∷ []) }
        ensures err { OnErr result (self.new ≡ self.old) }
    {
        Ok(self.records.push(rec)?)
    }

    /// How many records there are.
    pub fn len(&self) -> usize
        ensures { result ≡ length self.now }
    {
        self.records.len()
    }

    /// Whether there is no record.
    pub fn is_empty(&self) -> bool
        ensures { result ≡ (length self.now == 0) }
    {
        self.records.is_empty()
    }

    /// The record at an index below the length.
    pub fn at(&self, place: usize) -> &Record
        requires { place < length self.now }
        ensures { slice_get self.now place ≡ Some result.now }
    {
        &self.records[place]
    }

    /// The records in their order.
    pub fn as_slice(&self) -> &[Record]
        ensures value { result.now ≡ self.now }
        ensures weighed { All (λ rec. 1 ≤ rec.weight) self.now }
        ensures bounded { All (λ rec. rec.weight < 2 ^ 32) self.now }
    {
        self.records.as_slice()
    }

    /// An equal copy of the list.
    pub fn copy(&self, alloc: Global) -> Result<RecordList, AllocError>
        ensures { IfOk result (λ list. list ≡ self.now) }
    {
        Ok(RecordList {
            records: Vec::from_slice(alloc, &self.records)?,
        })
    }
    /// The records as a queue. It takes no memory.
    pub fn into_queue(self) -> RecordQueue
        ensures { result ≡ self }
    {
        RecordQueue::of(self.records)
    }
}
