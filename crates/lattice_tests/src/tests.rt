mod bounds;
mod dealing;
mod lattice;
mod prefixes;
mod staircase;

use prefix_lattice::{Grain, Prefix};
use std::test::Fail;

/// The prefix with these texts of its source and of its destination. The finest grain has all lengths that a grain has.
pub(crate) fn prefix_of_texts(source: &str, dest: &str) -> Result<Prefix, Fail> {
    Ok(Prefix::parse(Grain::Nibble, source.as_bytes(), dest.as_bytes())?)
}
