//! The lines of a session.

use hhh_report::{Line, Positions};

/// How many frames were skipped, by the reason.
#[derive(Clone, Copy, PartialEq, Eq)]
pub(crate) struct Skips {
    pub(crate) not_ipv4: u64,
    pub(crate) short: u64,
    pub(crate) bad_header: u64,
}

/// A line of a session, read by itself.
#[derive(Drop)]
pub(crate) enum SessionLine {
    /// The positions at the start of the session.
    Opened(Positions),
    /// A report begins.
    Report,
    /// The positions of the report.
    At(Positions),
    /// The total weight before them.
    Total(u64),
    /// The threshold, at least 1.
    Threshold(u64),
    /// A line of the report.
    Line(Line),
    /// The report ends.
    Done,
    /// The cut with these positions was saved.
    Saved(Positions),
    /// How many frames were read.
    Frames(u64),
    /// How many of them were skipped.
    Skipped(Skips),
    /// The place of the frame inside which the capture ended.
    Cut(u64),
    /// The session ends.
    End,
}
