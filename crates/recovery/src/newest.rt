//! The newest of two slots.

ghost use Rattle.std.specs.Prelude.{◌≡◌, option_map, IfSome};
ghost use Rattle.checkpoint.specs.{newest_in, newest_slot_in, saved_in, saved_value};

use checkpoint::{Newest, Saved};

/// The newest of what the two slots hold: that with the greater sequence, the first where they are equal.
pub(crate) fn newest_of(first: Option<Saved>, second: Option<Saved>) -> Option<Newest>
    ensures newest { option_map saved_in result ≡ newest_in (option_map saved_value first) (option_map saved_value second) }
    ensures slot { IfSome result (λ found. found.slot ≡ newest_slot_in (option_map saved_value first) (option_map saved_value second)) }
{
    match (first, second) {
        (None, None) => None,
        (Some(saved), None) => Some(Newest { slot: 0, saved }),
        (None, Some(saved)) => Some(Newest { slot: 1, saved }),
        (Some(saved), Some(later)) => Some(newer(saved, later)),
    }
}

// The newer of two.
fn newer(first: Saved, second: Saved) -> Newest
    ensures newest { Some (saved_in result) ≡ newest_in (Some (saved_value first)) (Some (saved_value second)) }
    ensures slot { result.slot ≡ newest_slot_in (Some (saved_value first)) (Some (saved_value second)) }
{
    if first.sequence < second.sequence {
        Newest {
            slot: 1,
            saved: second,
        }
    } else {
        Newest {
            slot: 0,
            saved: first,
        }
    }
}
