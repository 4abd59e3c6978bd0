//! What holds of readings and of openings, each law the contract of a function that does nothing.

ghost use Rattle.recovery.specs.Reading.{BelongingRead, HaveOneReading};
ghost use Rattle.recovery.specs.Reopening.{BelongingOpen, AreDecided};

use checkpoint::{headers_spell_one, stores_hold_one, stores_show_their_header};
use shard_state::snapshots_hold_weights;

/// The bytes of a store read as one thing, or are refused for one fault, and never both. So each answer of `read_store`
/// comes exactly if its condition holds, unless a call of the disk fails or memory runs out.
pub fn readings_are_decided()
    ensures { HaveOneReading }
{
    headers_spell_one();
    stores_hold_one();
}

/// A store that belongs to dealt records reads as what it holds, whichever version its header has and however late its
/// newest sequence is. So `read_store` refuses no such store, unless a call of the disk fails or memory runs out.
pub fn belonging_stores_are_read()
    ensures { BelongingRead }
{
    stores_show_their_header();
}

/// The bytes of a store open to one base over dealt records, or are refused for one fault, and never both. So each
/// answer of `reopen` comes exactly if its condition holds, unless a call of the disk fails or memory runs out.
pub fn openings_are_decided()
    ensures { AreDecided }
{
    headers_spell_one();
    stores_hold_one();
}

/// A store that belongs to dealt records opens to what it holds, unless its newest sequence is above 2^62 - 64. So
/// `reopen` refuses no such store, unless a call of the disk fails or memory runs out.
pub fn belonging_stores_are_opened()
    ensures { BelongingOpen }
{
    snapshots_hold_weights();
}
