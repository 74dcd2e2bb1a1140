//! Tells how long something took.
//!
//! Used by: `meters`, mw_server_pages, mw_opening, mw_server. It promises nothing of the clock.

use std::time::{Clock, Instant};

/// A time that began. It takes one reading of the clock to start it, and one to read it.
#[derive(Clone, Copy)]
pub struct Stopwatch(Option<Instant>);

impl Stopwatch {
    /// Starts it.
    pub fn start<K: Clock>(clock: &K) -> Stopwatch {
        Stopwatch(Instant::now(clock).ok())
    }

    /// Gives how long ago it was started, in nanoseconds, at most [`u64::MAX`]; 0 if the clock couldn't be read then or
    /// can't now.
    pub fn nanos<K: Clock>(&self, clock: &K) -> u64 {
        match (self.0, Instant::now(clock)) {
            (Some(started), Ok(now)) => {
                u64::try_from(now.duration_since(started).as_nanos()).unwrap_or(u64::MAX)
            }
            _ => 0,
        }
    }
}
