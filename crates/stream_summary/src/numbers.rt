//! What names the items of an arena.

ghost use Rattle.std.specs.Prelude.{◌≡◌, ◌^◌, ◌<◌, ℕ};

/// What names an item of an arena, by its index there. Each kind of item has a type of its own, so the number of an
/// entry can't be used as that of a bucket.
pub(crate) trait Number: Copy {
    /// The index.
    ghost value_of: { Self → ℕ };

    /// The number of the item at this index.
    fn from_index(index: usize) -> Self
        requires { index < 2 ^ 16 }
        ensures { value_of result ≡ index };

    /// The index of the item.
    fn index(self) -> usize
        ensures { result ≡ value_of self };
}

/// The number of an entry.
#[derive(Clone, Copy, PartialEq, Eq)]
pub(crate) struct EntryNumber(u16);

impl Number for EntryNumber {
    ghost value_of = { λ number. number.0 };

    fn from_index(index: usize) -> EntryNumber {
        EntryNumber(index as u16)
    }

    fn index(self) -> usize {
        usize::from(self.0)
    }
}

/// The number of a bucket.
#[derive(Clone, Copy, PartialEq, Eq)]
pub(crate) struct BucketNumber(u16);

impl Number for BucketNumber {
    ghost value_of = { λ number. number.0 };

    fn from_index(index: usize) -> BucketNumber {
        BucketNumber(index as u16)
    }

    fn index(self) -> usize {
        usize::from(self.0)
    }
}
