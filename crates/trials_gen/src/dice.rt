//! Draws from a seeded generator.
use rand::{RngExt, SeedableRng};
use rand_core::Rng;
use rand_xoshiro::Xoshiro256PlusPlus;

/// A generator of draws: the same seed gives the same draws.
#[derive(Debug, Drop)]
pub struct Dice {
    rng: Xoshiro256PlusPlus,
}

impl Dice {
    /// The draws of a seed.
    pub fn new(seed: u64) -> Dice {
        Dice {
            rng: Xoshiro256PlusPlus::seed_from_u64(seed),
        }
    }

    /// Any word.
    pub fn word(&mut self) -> u64 {
        self.rng.next_u64()
    }

    /// Any byte.
    pub fn byte(&mut self) -> u8 {
        (self.word() & 0xff) as u8
    }

    /// A number below a limit; 0 where the limit is 0.
    pub fn below(&mut self, limit: u64) -> u64 {
        if limit == 0 {
            return 0;
        }
        self.rng.random_range(0..limit)
    }

    /// A number from a first to a last one, both among the draws.
    pub fn between(&mut self, first: u64, last: u64) -> u64 {
        let spread = last.saturating_sub(first).saturating_add(1);
        first.saturating_add(self.below(spread))
    }

    /// Yes, once in so many times.
    pub fn one_in(&mut self, times: u64) -> bool {
        self.below(times) == 0
    }

    /// One of some words; 0 where there is none.
    pub fn pick(&mut self, words: &[u64]) -> u64 {
        let i = self.below(words.len() as u64);
        words.get(i as usize).copied().unwrap_or(0)
    }
}
