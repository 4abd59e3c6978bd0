//! Writing the text of a prefix.

ghost use Rattle.std.specs.Prelude.{◌≡◌, ◌≤◌, ◌++◌, length, drop};
ghost use Rattle.prefix_lattice.specs.PrefixText.{prefix_text, longest_prefix_text};

use crate::Prefix;
use crate::side_writing::write_side;

impl Prefix {
    /// Writes the prefix as `10.0.0.0/8 20.1.0.0/16`, and returns the number of bytes written. Other bytes are
    /// unchanged.
    pub fn write_text(&self, into: &mut [u8; 37]) -> usize
        ensures text { into.new ≡ prefix_text self.now ++ drop result into.old }
        ensures length { result ≡ length (prefix_text self.now) }
        ensures short { result ≤ longest_prefix_text }
    {
        let end = write_side(into, 0, &self.source);
        into[end] = b' ';
        write_side(into, end + 1, &self.dest)
    }
}
