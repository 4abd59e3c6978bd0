//! What options and positionals give.

ghost use Rattle.std.specs.Prelude.{◌≤◌};

use crate::Settings;

/// What options and positionals give, with defaults filled in. A command uses what its form has.
#[derive(Drop)]
pub(crate) struct Given {
    pub(crate) seed: u64,
    pub(crate) frames: u32,
    pub(crate) settings: Settings,
    pub(crate) limit: u64,
    ghost some_limit: { 1 ≤ limit },
}
