//! Prefixes in output text.

ghost use Rattle.std.specs.Prelude.{◌≡◌, ◌++◌, OnOk, OnErr};
ghost use Rattle.prefix_lattice.specs.{prefix_text};

use prefix_lattice::Prefix;
use std::alloc::AllocError;

/// Appends the text of a prefix, as in the lines of a report. After an `Err` the text is as before.
pub fn push_prefix(text: &mut Vec<u8>, prefix: &Prefix) -> Result<(), AllocError>
    ensures appended { OnOk result (text.new.items ≡ text.old.items ++ prefix_text prefix.now) }
    ensures unchanged { OnErr result (text.new.items ≡ text.old.items) }
{
    let mut written = [0; 37];
    let len = prefix.write_text(&mut written);
    text.extend_from_slice(&written[..len])
}
