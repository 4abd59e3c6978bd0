//! The rule by which the program says how severe an alarm is.

ghost use Rattle.std.specs.Prelude.{◌≡◌, ◌≤◌};
ghost use Rattle.hhh.specs.Rules.{severity};

/// How many times the low of a line holds the limit, and 7 where it holds it more often.
pub fn by_multiple(lo: u64, _hi: u64, limit: u64) -> u32
    requires { 1 ≤ limit }
    ensures { result ≡ severity lo _hi limit }
{
    (lo / limit).min(7) as u32
}
