//! The interval of a key in one table.

/// A key that a table monitors, and the least and the greatest weight that it can have there.
#[derive(Clone, Copy, PartialEq, Eq)]
pub(crate) struct KeyInterval {
    /// The key that is monitored.
    pub(crate) key: u64,
    /// The least weight that can have been added for it.
    pub(crate) low: u64,
    /// The greatest weight that can have been added for it.
    pub(crate) high: u64,
}
