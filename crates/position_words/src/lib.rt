//! Shards that threads share. Each shard has a word and a slot: the word is twice the shard's position, and one more
//! while a thread holds the shard; the slot has the shard's state while none does.
#![tactic(auto)]

mod laws;
mod rule;
mod view;
mod words;

pub use atomic_table::TableRule;
pub use laws::{even_words_hold_their_states, odd_words_are_held};
pub use rule::SlotRule;
pub use view::{Aim, Held, Trail, View};
pub use words::{Seat, Shared, Take, Words};
