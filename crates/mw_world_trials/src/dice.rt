//! Makes random choices.
//!
//! Used by: `jobs`, `run`, `tests`, `larger/tests`.
ghost use Rattle.std.specs.Prelude.{◌<◌, ◌≤◌};

use rand_core::{Rng, SeedableRng};
use rand_xoshiro::Xoshiro256PlusPlus;

/// A source of random choices. The same seed gives the same choices.
#[derive(Drop)]
pub struct Dice {
    rng: Xoshiro256PlusPlus,
}

impl Dice {
    /// Makes the choices of this seed.
    pub fn new(seed: u64) -> Dice {
        Dice {
            rng: Xoshiro256PlusPlus::seed_from_u64(seed),
        }
    }

    /// Gives a number below `sides`, which is at least 1.
    pub fn below(&mut self, sides: u64) -> u64
        requires { 1 ≤ sides }
        ensures { result < sides }
    {
        self.rng.next_u64() % sides
    }

    /// Gives a number below `sides`, which is at least 1.
    pub fn small(&mut self, sides: u8) -> u8
        requires { 1 ≤ sides }
        ensures { result < sides }
    {
        (self.rng.next_u64() % u64::from(sides)) as u8
    }

    /// Gives true once in so many times.
    pub fn once_in(&mut self, times: u64) -> bool
        requires { 1 ≤ times }
    {
        self.below(times) == 0
    }
}
