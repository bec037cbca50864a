//! Numbers that look drawn by chance, the same in each run.

ghost use Rattle.std.specs.Prelude.{◌<◌};

/// A linear congruential generator with the multiplier and the increment of Knuth's MMIX.
#[derive(Clone, Copy)]
pub struct Draws {
    state: u64,
}

impl Draws {
    /// The generator at its start.
    pub fn new() -> Draws {
        Draws { state: 1 }
    }

    /// A drawn key.
    pub fn key(&mut self) -> u64 {
        self.state = self
            .state
            .wrapping_mul(6_364_136_223_846_793_005)
            .wrapping_add(1_442_695_040_888_963_407);
        self.state
    }

    /// A drawn place among `count` places. It is made of the upper half of the bits, which repeat least.
    pub fn place(&mut self, count: usize) -> usize
        requires { 0 < count }
        ensures { result < count }
    {
        (self.key() >> 32) as usize % count
    }
}
