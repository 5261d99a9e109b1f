// Numbers that look random and are the same in every run.

const FACTOR: u64 = 6_364_136_223_846_793_005;

const SUMMAND: u64 = 1_442_695_040_888_963_407;

/// A linear congruential generator.
#[derive(Drop)]
pub struct Draws {
    state: u64,
}

impl Draws {
    /// The generator that starts from a seed.
    pub fn new(seed: u64) -> Self {
        Draws { state: seed }
    }

    /// A number below a bound, from the high bits after one step; below 1 where the bound is 0.
    pub fn below(&mut self, bound: usize) -> usize {
        self.state = self.state.wrapping_mul(FACTOR).wrapping_add(SUMMAND);
        let high = (self.state >> 40) as usize;
        high.checked_rem(bound).unwrap_or(0)
    }
}
