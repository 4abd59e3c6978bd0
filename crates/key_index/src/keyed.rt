//! What an index is over.

ghost use Rattle.std.specs.Prelude.{◌≡◌, ◌<◌, ℕ, length, map, slice_index};

/// What has a key of 64 bits.
pub trait Keyed {
    /// The key.
    ghost key_of: { Self → ℕ };

    /// The key. A search asks it of each item that it passes.
    fn key(&self) -> u64
        ensures { result ≡ key_of self.now };
}

/// The key of the item at this place.
pub(crate) fn key_at<T: Keyed>(slots: &[T], place: usize) -> u64
    requires { place < length slots.now }
    ensures { result ≡ slice_index (map T.key_of slots.now) place }
{
    slots[place].key()
}
