//! The lock.
//!
//! Used by: mw_engine; mw_table_tests. A change here changes how long a copy of a file waits, and no contract.
use crate::queue::{Queue, SleepEnd, Ticket};
use std::hint::spin_loop;
use std::sync::{Mutex, MutexGuard, Wait};

/// How often a thread that waits for the lock tries it before it queues. All tries take about as long as a short hold, some
/// microseconds.
const TRIES: u32 = 100;

/// How often it tells the processor to wait between two tries.
const PAUSES: u32 = 8;

/// How many wakes of the first are in vain before the lock is starving.
const VAIN_WAKES: u32 = 2;

/// A value that one thread at a time uses. Threads that queue for long get it in the order in which they came.
pub struct FairLock<T> {
    queue: Queue,
    value: Mutex<T>,
}

/// Holds the lock, until the guard is dropped.
pub struct FairGuard<'a, T> {
    /// The value. Who moves it out and drops it before the guard lets the next thread sleep up to a millisecond longer.
    pub value: MutexGuard<'a, T>,
    queue: &'a Queue,
}

impl<T> FairLock<T> {
    /// Makes a lock of a value. It is free.
    pub fn new(value: T) -> FairLock<T> {
        FairLock {
            queue: Queue::new(),
            value: Mutex::new(value),
        }
    }

    /// Ends the lock and gives the value.
    pub fn into_inner(self) -> T {
        let FairLock { queue: _, value } = self;
        value.into_inner()
    }

    /// Takes the lock, and waits while another thread holds it. It tries for some microseconds, and not at all while
    /// the lock is starving. Then it queues.
    pub fn lock(&self, rt: &impl Wait) -> FairGuard<'_, T> {
        match self.try_lock_for_a_while() {
            Some(guard) => guard,
            None => self.lock_in_turn(rt),
        }
    }

    /// Takes the lock if it is free and not starving.
    pub fn try_lock(&self) -> Option<FairGuard<'_, T>> {
        if self.queue.is_starving() {
            return None;
        }
        let value = self.value.try_lock()?;
        Some(self.guard(value))
    }

    /// Takes the lock if it gets free within some microseconds. Gives up at once if it is starving.
    pub fn try_lock_for_a_while(&self) -> Option<FairGuard<'_, T>> {
        for _ in 0..TRIES {
            if self.queue.is_starving() {
                return None;
            }
            if let Some(guard) = self.try_lock() {
                return Some(guard);
            }
            pause();
        }
        None
    }

    /// Queues, and takes the lock when all that queued before have had it.
    fn lock_in_turn(&self, rt: &impl Wait) -> FairGuard<'_, T> {
        let ticket = self.queue.wait_to_be_first(rt);
        let (value, waits_are_long) = self.lock_as_first(rt, ticket);
        self.queue.leave(ticket, waits_are_long);
        self.guard(value)
    }

    fn guard<'a>(&'a self, value: MutexGuard<'a, T>) -> FairGuard<'a, T> {
        FairGuard {
            value,
            queue: &self.queue,
        }
    }

    /// Takes the lock as the first of the queue. Also tells whether this took longer than the first has patience.
    fn lock_as_first(&self, rt: &impl Wait, ticket: Ticket) -> (MutexGuard<'_, T>, bool) {
        let mut vain_wakes = 0;
        let mut waits_are_long = false;
        for _ in rt.forever() {
            let seen = self.queue.want_wake(ticket);
            if let Some(value) = self.value.try_lock() {
                return (value, waits_are_long);
            }
            if waits_are_long || vain_wakes >= VAIN_WAKES {
                self.queue.starve();
            }
            match self.queue.sleep_as_first(rt, ticket, seen) {
                SleepEnd::Woken => vain_wakes = vain_wakes.saturating_add(1),
                SleepEnd::TimeUp => waits_are_long = true,
            }
        }
        unreachable!()
    }
}

/// What tests wait for.
impl<T> FairLock<T> {
    /// How many threads queue.
    pub fn queued(&self) -> u64 {
        self.queue.len()
    }

    /// Whether the first of the queue has waited for long.
    pub fn is_starving(&self) -> bool {
        self.queue.is_starving()
    }
}

impl<T> Drop for FairGuard<'_, T> {
    fn drop(self) {
        let FairGuard { value, queue } = self;
        drop(value);
        queue.wake_first();
    }
}

impl<T: Drop> Drop for FairLock<T> {
    fn drop(self) {
        drop(self.into_inner());
    }
}

/// Lets the processor rest for some ten nanoseconds.
fn pause() {
    for _ in 0..PAUSES {
        spin_loop();
    }
}
