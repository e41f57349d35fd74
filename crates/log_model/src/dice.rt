//! Numbers that look random.

/// A linear congruential rule modulo 2^64, of which the upper bits count.
#[derive(Clone, Copy, Debug)]
pub struct Dice {
    state: u64,
}

impl Dice {
    /// The rule from a seed on.
    pub fn new(seed: u64) -> Dice {
        Dice { state: seed }
    }

    /// The next number, below n. It is 0 where n is.
    pub fn below(&mut self, n: u32) -> u32 {
        self.state = self
            .state
            .wrapping_mul(6364136223846793005)
            .wrapping_add(1442695040888963407);
        let drawn = u32::try_from(self.state >> 33).unwrap_or(0);
        drawn.checked_rem(n).unwrap_or(0)
    }

    /// Whether one of n equal chances came true.
    pub fn one_in(&mut self, n: u32) -> bool {
        self.below(n) == 0
    }
}
