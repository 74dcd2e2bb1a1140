//! A clock that goes on only while somebody waits.
//!
//! Used by: `page_tests`, `patience_tests`.
use std::alloc::Global;
use std::cell::Cell;
use std::io;
use std::io::ErrorKind;
use std::time::{Clock, Duration};

/// What a clock shows when it is made, in seconds.
const HOUR: u64 = 3600;

/// A clock that goes on only while somebody waits, beside the system's memory. It counts the waits.
#[derive(Drop)]
pub struct HandClock {
    alloc: Global,
    now: Cell<Duration>,
    pub waits: Cell<usize>,
    /// Whether nobody can read it.
    is_broken: bool,
}

impl HandClock {
    /// Makes a clock that stands at an hour.
    pub fn new(alloc: Global, is_broken: bool) -> Self {
        HandClock {
            alloc,
            now: Cell::new(Duration::from_secs(HOUR)),
            waits: Cell::new(0),
            is_broken,
        }
    }

    /// Tells whether somebody has waited so long, and at most a pause longer. By a clock that nobody can read, nobody may
    /// have waited at all.
    pub fn has_waited(&self, patience: Duration, pause: Duration) -> bool {
        if self.is_broken {
            return self.waits.get() == 0;
        }
        let gone = self.now.get().saturating_sub(Duration::from_secs(HOUR));
        gone >= patience && gone <= patience.saturating_add(pause)
    }
}

impl Alloc for HandClock {
    type A = Global;

    fn alloc(&self) -> Global {
        self.alloc
    }
}

impl Clock for HandClock {
    fn monotonic(&self) -> io::Result<Duration> {
        if self.is_broken {
            return Err(io::Error::from(ErrorKind::Other));
        }
        Ok(self.now.get())
    }

    fn since_1970(&self) -> io::Result<Duration> {
        Err(io::Error::from(ErrorKind::Unsupported))
    }

    fn sleep(&self, duration: Duration) {
        self.now.set(self.now.get().saturating_add(duration));
        self.waits.set(self.waits.get().saturating_add(1));
    }
}
