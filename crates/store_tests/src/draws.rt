//! Numbers that look random, the same in each run.

/// A source of numbers.
#[derive(Clone, Copy)]
pub(crate) struct Draws {
    state: u64,
}

impl Draws {
    /// Its numbers follow from the seed.
    pub fn new(seed: u64) -> Self {
        Draws { state: seed }
    }

    /// The next number, of 31 bits: the high half of a congruential sequence.
    pub fn number(&mut self) -> u32 {
        self.state = self
            .state
            .wrapping_mul(6_364_136_223_846_793_005)
            .wrapping_add(1_442_695_040_888_963_407);
        (self.state >> 33) as u32
    }
}
