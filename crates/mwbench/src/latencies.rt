//! Counts how long the replies to a load took.
//!
//! Used by: `client`, `replies`, `report`. docs/BENCH tells how exact the counts are: change both together.
use std::alloc::{AllocError, Global};

/// How many counts there are.
const BUCKETS: usize = 1024;

/// How many counts an octave of times has.
const STEPS: u64 = 16;

/// The most octaves that are looked through.
const OCTAVES: u64 = 60;

/// How many replies took how long, in nanoseconds, each to within a sixteenth of its time.
#[derive(Drop)]
pub struct Latencies {
    counts: Vec<u64>,
    total: u64,
    sum: u64,
    slowest: u64,
}

impl Latencies {
    /// Makes the counts before any reply.
    ///
    /// # Errors
    ///
    /// Memory was refused.
    pub fn new(alloc: Global) -> Result<Latencies, AllocError> {
        Ok(Latencies {
            counts: vec![in alloc; 0; BUCKETS]?,
            total: 0,
            sum: 0,
            slowest: 0,
        })
    }

    /// Counts one reply that took so many nanoseconds.
    pub fn note(&mut self, nanos: u64) {
        self.add_at(bucket(nanos), 1);
        self.total = self.total.saturating_add(1);
        self.sum = self.sum.saturating_add(nanos);
        self.slowest = self.slowest.max(nanos);
    }

    /// Adds all that the other has counted.
    pub fn add(&mut self, other: &Latencies) {
        for (place, more) in other.counts.iter().enumerate() {
            self.add_at(place, *more);
        }
        self.total = self.total.saturating_add(other.total);
        self.sum = self.sum.saturating_add(other.sum);
        self.slowest = self.slowest.max(other.slowest);
    }

    /// Adds so many to the count at a place.
    fn add_at(&mut self, place: usize, more: u64) {
        if let Some(count) = self.counts.get_mut(place) {
            *count = count.saturating_add(more);
        }
    }

    /// Gives how many replies were counted, and seven times in microseconds, rounded down: the mean, those within which
    /// 50, 90, 95, 99 and 99.9 % of the replies came, and that of the slowest. The times are 0 if there was no reply.
    /// For the mean the sum of all times is counted up to `u64::MAX` nanoseconds, which is 584 years.
    pub fn figures(&self) -> [u64; 8] {
        [
            self.total,
            self.sum / self.total.max(1) / 1000,
            self.within(500) / 1000,
            self.within(900) / 1000,
            self.within(950) / 1000,
            self.within(990) / 1000,
            self.within(999) / 1000,
            self.slowest / 1000,
        ]
    }

    /// Gives within how many nanoseconds so many of a thousand replies came; 0 if there was no reply.
    fn within(&self, of_a_thousand: u64) -> u64 {
        let rank = u128::from(self.total) * u128::from(of_a_thousand);
        let mut seen: u64 = 0;
        for (place, count) in self.counts.iter().enumerate() {
            seen = seen.saturating_add(*count);
            if u128::from(seen) * 1000 >= rank {
                return edge(place as u64).min(self.slowest);
            }
        }
        self.slowest
    }
}

/// Gives which count is that of so many nanoseconds.
fn bucket(nanos: u64) -> usize {
    let mut steps = nanos;
    for octave in 0..OCTAVES {
        if steps < 2 * STEPS {
            return (octave * STEPS + steps) as usize;
        }
        steps /= 2;
    }
    BUCKETS - 1
}

/// Gives the most nanoseconds that are counted in this place.
fn edge(place: u64) -> u64 {
    if place < 2 * STEPS {
        return place;
    }
    let octave = (place / STEPS - 1).min(OCTAVES);
    let steps = place % STEPS + STEPS + 1;
    steps.saturating_mul(1 << octave) - 1
}
