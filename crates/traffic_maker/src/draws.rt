//! The numbers drawn from a seed.

ghost use Rattle.std.specs.Prelude.{◌≡◌};
ghost use Rattle.traffic_maker.specs.Draws.{draw_from, next_state};

// Knuth's multiplier and increment for 64 bits, as in MMIX.
const MULTIPLIER: u64 = 6_364_136_223_846_793_005;

const INCREMENT: u64 = 1_442_695_040_888_963_407;

/// Numbers of 32 bits that a seed determines: the upper halves of the states of a linear congruential generator.
#[derive(Drop)]
pub(crate) struct Draws {
    state: u64,
}

impl Draws {
    /// No number is drawn yet.
    pub(crate) fn from_seed(seed: u64) -> Draws
        ensures { result.state ≡ seed }
    {
        Draws { state: seed }
    }

    /// The next number.
    #[tactic(auto, unfolding(crate::specs::Draws::next_state))]
    pub(crate) fn draw(&mut self) -> u32
        ensures state { self.new.state ≡ next_state self.old.state }
        ensures value { result ≡ draw_from self.new.state }
    {
        self.state = self.state.wrapping_mul(MULTIPLIER).wrapping_add(INCREMENT);
        (self.state >> 32) as u32
    }
}
