//! The newest slot of a store.

use crate::Saved;

/// The newest open slot of a store, and what its body spells.
#[derive(Drop)]
pub struct Newest {
    /// Its number, 0 or 1.
    pub slot: u8,
    /// Its sequence, its digest and its cut.
    pub saved: Saved,
}
