//! A store of two slots on a disk. A stop at any moment of a put leaves the newest body as it was, or the new one.
#![tactic(auto)]

mod crashing;
mod disk;
mod fault;
mod formatting;
mod laws;
mod memory_disk;
mod overwriting;
mod putting;
mod safe_write;
mod slots;
mod step_entry;

pub use disk::Disk;
pub use fault::{BeginFault, BodyFault};
pub use formatting::format;
pub use laws::puts_lose_nothing;
pub use memory_disk::MemoryDisk;
pub use slots::Slots;
