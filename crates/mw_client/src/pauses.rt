//! Waits between two tries of a call, each time twice as long, for a limited time in all.
//!
//! Used by: `client`, mwbench. No contract names its numbers.
use std::thread;
use std::time::{Clock, Duration, Instant};

/// The length of the first pause, in milliseconds.
const FIRST_PAUSE: u64 = 1;

/// The most that a pause lasts, in milliseconds.
const LONGEST_PAUSE: u64 = 100;

/// Pauses that grow, each twice as long as the one before, for a limited time in all.
#[derive(Drop)]
pub struct Pauses {
    begun: Option<Instant>,
    patience: Duration,
    next: u64,
}

impl Pauses {
    /// Makes pauses for so much time from now on.
    pub fn begin<K: Clock>(clock: &K, patience: Duration) -> Pauses {
        let begun = match Instant::now(clock) {
            Ok(now) => Some(now),
            Err(_) => None,
        };
        Pauses {
            begun,
            patience,
            next: FIRST_PAUSE,
        }
    }

    /// Waits for the next pause, and gives true. Gives false at once if the time has passed, or the clock
    /// can't be read.
    pub fn wait<K: Clock>(&mut self, clock: &K) -> bool {
        if !self.has_time(clock) {
            return false;
        }
        thread::sleep(clock, Duration::from_millis(self.next));
        self.next = self.next.saturating_mul(2).min(LONGEST_PAUSE);
        true
    }

    fn has_time<K: Clock>(&self, clock: &K) -> bool {
        let Some(begun) = self.begun else {
            return false;
        };
        match begun.elapsed(clock) {
            Ok(gone) => gone < self.patience,
            Err(_) => false,
        }
    }
}
