//! An offset in a text, between lines.

ghost use Rattle.std.specs.Prelude.{◌≤◌, length};
ghost use Rattle.report_text.specs.Session.{longest_session};

mod steps;

/// An offset in a text, after a whole line or at the start.
#[derive(Drop)]
pub(crate) struct LineCursor<'a> {
    text: &'a [u8],
    at: usize,
    // How many lines are before it.
    lines: u64,
    ghost limit: { length text.now ≤ longest_session },
    ghost within: { at ≤ length text.now },
    ghost counted: { lines ≤ at },
}
