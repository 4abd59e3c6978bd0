//! What a run is handed besides its streams.

use deal_rules::Dealers;
use watch_rules::Judge;

/// The dealers of records, and the judge of alarms.
#[derive(Drop)]
pub struct Handed {
    pub dealers: Dealers,
    pub judge: Judge,
}
