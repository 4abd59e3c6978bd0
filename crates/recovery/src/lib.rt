//! Reads a store: its newest saved cut, or why there is none. Opens one: the newest saved cut of the dealt records.
#![tactic(auto)]

mod belonging;
mod bodies;
mod fault;
mod front;
mod laws;
mod newest;
mod opened;
mod reading;
mod reopening;
mod store_fault;

pub use fault::OpenFault;
pub use laws::{
    belonging_stores_are_opened, belonging_stores_are_read, openings_are_decided,
    readings_are_decided,
};
pub use opened::Opened;
pub use reading::read_store;
pub use reopening::reopen;
pub use store_fault::StoreFault;
