//! What an opened store gives.

use checkpoint::Saver;
use hhh_report::Positions;
use shard_state::Cut;

/// A store that was opened.
#[derive(Drop)]
pub struct Opened {
    /// The newest saved cut, `None` where no gate is open.
    pub base: Option<Cut>,
    /// Its positions, each 0 where no gate is open.
    pub positions: Positions,
    /// What saves into the store.
    pub saver: Saver,
}
