//! Pseudorandom numbers that are the same in each run.

/// A generator of pseudorandom numbers.
#[derive(Drop)]
pub(crate) struct Dice {
    state: usize,
}

impl Dice {
    pub(crate) fn new(seed: usize) -> Dice {
        Dice { state: seed }
    }

    /// Returns the next number below `sides`, or 0 if `sides` is 0.
    pub(crate) fn roll(&mut self, sides: usize) -> usize {
        self.state = self
            .state
            .wrapping_mul(6_364_136_223_846_793_005)
            .wrapping_add(1_442_695_040_888_963_407);
        (self.state >> 33).checked_rem(sides).unwrap_or(0)
    }

    /// Returns `true` in one of `sides` calls on average.
    pub(crate) fn is_one_in(&mut self, sides: usize) -> bool {
        self.roll(sides) == 0
    }
}
