//! Laws over the definitions of a store.

ghost use Rattle.slot_disk.specs.Putting.{LosesNothing};

/// What a put may leave of a store that is ready for it holds the newest body, the old one or the new one.
pub fn puts_lose_nothing()
    ensures { LosesNothing }
{}
