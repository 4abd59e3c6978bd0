//! The two kinds of lines of positions.

/// Whether positions are those at the start of a session or those of a saved cut.
#[derive(Clone, Copy, Debug, PartialEq, Eq)]
pub enum Mark {
    /// The positions at the start of a session.
    Opened,
    /// The cut with these positions was saved.
    Saved,
}
