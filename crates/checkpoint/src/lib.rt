//! Checkpoints: the header of a store, bodies that spell a cut, and a saver that puts them into the store.
#![tactic(auto)]

mod decoding;
mod digest;
mod encoding;
mod fault;
mod header;
mod laws;
mod lengths;
mod newest;
mod numbers;
mod saved;
mod saver;
mod settings;
mod version;

pub use decoding::decode;
pub use digest::digest_of;
pub use encoding::encode;
pub use fault::{DecodeFault, SaveFault};
pub use header::{StoreHeader, header_of, read_header};
pub use laws::{
    bodies_are_apart, bodies_fit_slots, bodies_spell_one, formatted_stores_are_empty,
    headers_spell_one, puts_open_old_or_new, puts_open_the_new, stores_are_ready, stores_hold_one,
    stores_open_to_one, stores_show_their_header,
};
pub use newest::Newest;
pub use saved::Saved;
pub use saver::Saver;
pub use settings::{StoreSettings, span};
pub use version::Version;
