//! The homes of a key: at each of eight turns a number that looks drawn at random.

ghost use Rattle.std.specs.Prelude.{◌≡◌, ◌*◌, ◌^◌, ◌<◌, ◌≤◌};
ghost use Rattle.key_index.specs.Homes.{mixed, mixed_after, scaled};

/// At most this many homes of a key are tried.
pub(crate) const TURNS: usize = 8;

/// How many homes there are for each key that the index has room for.
pub(crate) const HOMES_A_KEY: usize = 4;

/// An odd number whose bits look random: 2^64 by the golden ratio (Knuth, The Art of Computer Programming, volume 3, 6.4).
const MULTIPLIER: u64 = 0x9e37_79b9_7f4a_7c15;

/// What follows this number on the way from a key through its homes. Each turn mixes on from the turn before. To
/// multiply the key by a number of its own for each turn would be no defence: such products are linear in the key, so
/// that keys which share all their homes are found in seconds, by lattice reduction.
pub(crate) fn mix(number: u64) -> u64
    ensures { result ≡ mixed number }
{
    (number ^ number >> 32).wrapping_mul(MULTIPLIER)
}

/// What follows a number after this many turns.
pub(crate) fn mix_on(number: u64, turns: usize) -> u64
    ensures { result ≡ mixed_after turns number }
{
    let mut mixed = number;
    for _ in 0..turns {
        mixed = mix(mixed);
    }
    mixed
}

/// The home that a mixed key names: its high half, scaled to the number of homes.
pub(crate) fn home_of(number: u64, room: usize) -> usize
    requires few { room ≤ 8192 }
    requires some { 1 ≤ room }
    ensures home { result ≡ scaled room number }
    ensures within { result < 4 * room }
{
    ((number >> 32) * (HOMES_A_KEY * room) as u64 >> 32) as usize
}
