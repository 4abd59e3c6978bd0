//! The plain table: one list of entries that is scanned from its head.

use crate::{Entry, Flat, Summary};
use std::alloc::{AllocError, Global};
use std::marker::Model;

/// A table that keeps its entries in one list, counts ascending. An add or a query scans the list once, and an entry
/// that moves up moves those that it passes down by one.
#[derive(Drop)]
pub struct PlainTable {
    flat: Flat,
}

impl Model for PlainTable {
    ghost use Rattle.space_saving.specs.Summary.{TableValue};

    ghost Value = { TableValue };

    ghost view = { λ t. t.flat };
}

impl Summary for PlainTable {
    ghost content = { λ t. t };

    fn with_capacity(alloc: Global, capacity: u32) -> Result<Self, AllocError> {
        Ok(PlainTable {
            flat: Flat::with_room(alloc, capacity)?,
        })
    }

    fn restore(alloc: Global, flat: &Flat) -> Result<Self, AllocError> {
        let mut copy = Flat::with_room(alloc, flat.capacity())?;
        flat.copy_into(&mut copy);
        Ok(PlainTable { flat: copy })
    }

    fn add(&mut self, key: u64, weight: u32) {
        self.flat.add(key, weight);
    }

    fn interval(&self, key: u64) -> (u64, u64) {
        self.flat.interval(key)
    }

    fn entry(&self, place: usize) -> Entry {
        self.flat.entry(place)
    }

    fn len(&self) -> usize {
        self.flat.len()
    }

    fn capacity(&self) -> u32 {
        self.flat.capacity()
    }

    fn total(&self) -> u64 {
        self.flat.total()
    }

    fn full(&self) -> bool {
        self.flat.len() == self.flat.capacity() as usize
    }

    fn copy_into(&self, into: &mut Flat) {
        self.flat.copy_into(into);
    }
}
