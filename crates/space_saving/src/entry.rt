//! One entry of a table.

/// What a table knows of one key.
#[derive(Clone, Copy, Debug, PartialEq, Eq)]
pub struct Entry {
    /// The key that is monitored.
    pub key: u64,
    /// At least the weight that was added for the key.
    pub count: u64,
    /// The most by which the count can exceed that weight.
    pub error: u64,
}
