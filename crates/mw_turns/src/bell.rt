//! A bell, by which one thread wakes another.
//!
//! Used by: mw_engine, mw_table_tests. No contract says that a sleep ends: mw_table_tests tries it.
use crate::queue::low_half;
use std::sync::Wait;
use std::sync::atomic::{AtomicU64, Ordering};
use std::time::Duration;

/// A bell. A thread that sleeps by it wakes when it is rung.
///
/// A thread first listens, then looks whether there is something to do, and only then sleeps. So a ring between the
/// look and the sleep prevents the sleep.
#[derive(Drop)]
pub struct Bell {
    /// How often it was rung.
    rings: AtomicU64,
}

/// How often a bell had been rung when a thread listened.
#[derive(Clone, Copy)]
pub struct Heard(u64);

impl Bell {
    /// Makes a bell that was never rung.
    pub fn new() -> Bell {
        Bell {
            rings: AtomicU64::new(0),
        }
    }

    /// Listens: tells how often the bell was rung so far, for [`Bell::sleep`].
    pub fn listen(&self) -> Heard {
        Heard(self.rings.load(Ordering::SeqCst))
    }

    /// Sleeps until the bell is rung, for so many microseconds at most. Doesn't sleep if it was rung since `heard`.
    /// Tells whether it was. The sleep may end early for no reason, so the caller looks again.
    pub fn sleep(&self, rt: &impl Wait, heard: Heard, micros: u64) -> bool {
        self.rings
            .park_timeout(rt, low_half(heard.0), Duration::from_micros(micros));
        self.rings.load(Ordering::SeqCst) != heard.0
    }

    /// Rings the bell.
    pub fn ring(&self) {
        self.rings.fetch_add(1, Ordering::SeqCst);
        self.rings.wake_all();
    }
}
