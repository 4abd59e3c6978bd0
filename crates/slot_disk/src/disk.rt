//! A disk, and what a crash may leave of its bytes.

ghost use Rattle.std.specs.Prelude.{◌≡◌, ◌≤◌, ℕ, Option, Some, List, length, drop, is_some, IfOk, OnOk};
ghost use Rattle.outside_io.specs.{FailsByCount};
ghost use Rattle.slot_disk.specs.Images.{IfImageKnown, IfBothKnown, GivesRange, IsTornImage, IsWrittenImage};
ghost use Rattle.slot_disk.specs.Images.{IsTornFrom, IsOnlyImage};
ghost use Rattle.slot_disk.specs.Moments.{MomentsGoOn, IsUnchangedAt};

use outside_io::Failed;

/// A disk whose bytes are read and written at offsets. What a write changed is safe from a crash only after a sync:
/// until then each written range, and everything past the old end, may hold any bytes after a crash.
pub trait Disk {
    /// The bytes that a read gives, where they are known.
    ghost reads: { Self → Option (List ℕ) };

    /// The bytes that a crash now may leave: the images now.
    ghost image_now: { Self → List ℕ → Type 0 };

    /// The moment, as a number that never falls.
    ghost moment: { Self → ℕ };

    /// The bytes that a crash at some moment since the given one may have left, in a call or between two.
    ghost image_since: { Self → ℕ → List ℕ → Type 0 };

    /// How many calls have failed. The count stays at the greatest `u64`.
    ghost faults: { Self → ℕ };

    /// How many bytes there are.
    fn len(&mut self) -> Result<u64, Failed>
        ensures length { IfOk result (λ count. IfImageKnown (reads self.old) (λ bytes. count ≡ length bytes)) }
        ensures unchanged { IsUnchangedAt reads image_now self.old self.new }
        ensures images { (image : List ℕ) → image_since self.new (moment self.old) image → image_now self.old image }
        ensures time { MomentsGoOn moment image_since self.old self.new }
        ensures cause { FailsByCount (faults self.old) (faults self.new) result };

    /// Reads the bytes from an offset on into the front of `into`, up to the disk's end or the room, and returns how
    /// many there are. Bytes of `into` after them are unchanged. After `Failed` the contents of `into` are unspecified.
    fn read_at(&mut self, place: u64, into: &mut [u8]) -> Result<usize, Failed>
        ensures fits { IfOk result (λ count. count ≤ length into.old) }
        ensures later_places { IfOk result (λ count. drop count into.new ≡ drop count into.old) }
        ensures given { IfOk result (λ count. IfImageKnown (reads self.old) (λ bytes. GivesRange place (length into.old) bytes into.new count)) }
        ensures unchanged { IsUnchangedAt reads image_now self.old self.new }
        ensures images { (image : List ℕ) → image_since self.new (moment self.old) image → image_now self.old image }
        ensures time { MomentsGoOn moment image_since self.old self.new }
        ensures cause { FailsByCount (faults self.old) (faults self.new) result };

    /// Writes the bytes at an offset, which may be past the end. After `Failed` the written range, and everything past
    /// the old end, may hold any bytes.
    fn write_at(&mut self, place: u64, bytes: &[u8]) -> Result<(), Failed>
        ensures known { is_some (reads self.new) ≡ is_some (reads self.old) }
        ensures torn { IfBothKnown (reads self.old) (reads self.new) (IsTornImage place (length bytes.now)) }
        ensures written { OnOk result (IfBothKnown (reads self.old) (reads self.new) (IsWrittenImage place bytes.now)) }
        ensures images { (image : List ℕ) → image_since self.new (moment self.old) image → IsTornFrom (image_now self.old) place (length bytes.now) image }
        ensures time { MomentsGoOn moment image_since self.old self.new }
        ensures cause { FailsByCount (faults self.old) (faults self.new) result };

    /// Makes what was written safe: after `Ok` a crash leaves what a read gives.
    fn sync(&mut self) -> Result<(), Failed>
        ensures reads { reads self.new ≡ reads self.old }
        ensures images { (image : List ℕ) → image_since self.new (moment self.old) image → image_now self.old image }
        ensures safe { OnOk result (IfImageKnown (reads self.new) (λ bytes. IsOnlyImage bytes (image_now self.new))) }
        ensures time { MomentsGoOn moment image_since self.old self.new }
        ensures cause { FailsByCount (faults self.old) (faults self.new) result };

    /// The bytes that a read gives are one of the images now.
    ghost reading_is_image: { (disk : Self) (bytes : List ℕ) → reads disk ≡ Some bytes → image_now disk bytes };

    /// An image now is one since each moment that is not later.
    ghost now_is_since: { (disk : Self) (t : ℕ) (image : List ℕ) → t ≤ moment disk → image_now disk image → image_since disk t image };

    /// An image since this moment is one now.
    ghost only_now: { (disk : Self) (image : List ℕ) → image_since disk (moment disk) image → image_now disk image };
}
