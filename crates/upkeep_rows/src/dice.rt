//! Numbers that are the same at each run, and look as if they were drawn.

/// A linear congruential generator.
#[derive(Clone, Copy)]
pub struct Dice {
    state: u64,
}

impl Dice {
    /// The generator of a seed.
    pub fn new(seed: u64) -> Dice {
        Dice { state: seed }
    }

    // The high bits of the next state: the low ones repeat soon.
    fn roll(&mut self) -> u64 {
        self.state = self
            .state
            .wrapping_mul(6_364_136_223_846_793_005)
            .wrapping_add(1_442_695_040_888_963_407);
        self.state >> 33
    }

    /// A number below that of the sides; 0 where there is none.
    pub fn below(&mut self, sides: u64) -> u64 {
        self.roll().checked_rem(sides).unwrap_or(0)
    }

    /// A place in a list of that length.
    pub fn place(&mut self, length: usize) -> usize {
        self.below(length as u64) as usize
    }

    /// Whether it is the one time in so many.
    pub fn is_once_in(&mut self, times: u64) -> bool {
        self.below(times) == 0
    }

    /// One of the words.
    pub fn word(&mut self, words: &[&'static str]) -> &'static str {
        let place = self.place(words.len());
        words.get(place).copied().unwrap_or("")
    }

    /// A whole number from -100 to 100.
    pub fn amount(&mut self) -> i64 {
        i64::try_from(self.below(201))
            .unwrap_or(0)
            .wrapping_sub(100)
    }
}
