//! Draws from a seed.

ghost use Rattle.std.specs.Prelude.{◌≡◌, ◌/◌, ◌^◌};
ghost use Rattle.generated_inputs.specs.Draws.{next_state};

/// The factor and the summand of a draw.
const FACTOR: u64 = 6_364_136_223_846_793_005;

const SUMMAND: u64 = 1_442_695_040_888_963_407;

/// A state, of which each draw makes the next.
#[derive(Clone, Copy, Debug)]
pub(crate) struct Draws {
    pub(crate) state: u64,
}

impl Draws {
    /// Draws the next number, below 2^31.
    pub(crate) fn draw(&mut self) -> u32
        ensures next { self.new.state ≡ next_state self.old.state }
        ensures drawn { result ≡ self.new.state / 2 ^ 33 }
    {
        self.state = self.state.wrapping_mul(FACTOR).wrapping_add(SUMMAND);
        (self.state >> 33) as u32
    }
}
