//! The queue of the threads that wait for a lock, in the order in which they came.
//!
//! Used by: `fair_lock`, which says when each of these is called. `bell` uses `low_half`.
//!
//! # Why no thread sleeps for ever
//!
//! A thread reads its wake word, then looks whether it may go on, and then sleeps unless the word has changed. Whoever
//! lets it go on does so first, and changes the word after that. So a wake between the look and the sleep prevents the
//! sleep. Two facts let a thread go on:
//!
//! - *It is the first.* `leave` makes it the first, and then wakes it or asks the next release to do so. If `leave`
//!   saw no ticket, whoever takes the next one later finds that it is the first.
//! - *The lock is free.* The first asks for a wake before it tries the lock. So if the try is in vain, the release
//!   after it finds that the first wants a wake.
//!
//! Threads share a wake word if there are more of them than words. A wake then wakes all of these, and each looks
//! again. Apart from all this no sleep is longer than `LONGEST_SLEEP`, and a thread looks again after each.
use std::array;
use std::sync::Wait;
use std::sync::atomic::{AtomicBool, AtomicU64, Ordering};
use std::time::Duration;

/// How many wake words there are. Threads share one if more than this wait.
const WAKE_WORDS: usize = 64;

/// How many milliseconds the first of the queue sleeps before the lock is starving.
const PATIENCE: u64 = 1;

/// How many milliseconds any other thread of the queue sleeps before it looks again.
const LONGEST_SLEEP: u64 = 100;

/// The threads that wait: those with the tickets from `first` on, below `next`.
#[derive(Drop)]
pub(crate) struct Queue {
    /// The ticket of the next thread that comes.
    next: AtomicU64,
    /// The ticket of the first thread that waits; `next` if none does.
    first: AtomicU64,
    /// Whether the first has waited for long. Then no other thread takes the lock.
    is_starving: AtomicBool,
    /// Whether the next release must wake the first.
    wants_wake: AtomicBool,
    /// How often threads were woken, by their tickets modulo `WAKE_WORDS`. They sleep on these words.
    wakes: [AtomicU64; WAKE_WORDS],
}

/// A thread's place in the queue.
#[derive(Clone, Copy)]
pub(crate) struct Ticket(u64);

/// How a sleep ended.
#[derive(Clone, Copy, PartialEq, Eq)]
pub(crate) enum SleepEnd {
    /// The thread was woken.
    Woken,
    /// The time was up.
    TimeUp,
}

impl Queue {
    /// Makes an empty queue.
    pub(crate) fn new() -> Queue {
        Queue {
            next: AtomicU64::new(0),
            first: AtomicU64::new(0),
            is_starving: AtomicBool::new(false),
            wants_wake: AtomicBool::new(false),
            wakes: array::from_fn(|_| AtomicU64::new(0)),
        }
    }

    /// How many threads are in the queue.
    pub(crate) fn len(&self) -> u64 {
        let first = self.first.load(Ordering::SeqCst);
        self.next.load(Ordering::SeqCst).saturating_sub(first)
    }

    /// Whether only the first of the queue may take the lock.
    pub(crate) fn is_starving(&self) -> bool {
        self.is_starving.load(Ordering::SeqCst)
    }

    /// Keeps the lock for the first of the queue. Only the first calls this.
    pub(crate) fn starve(&self) {
        self.is_starving.store(true, Ordering::SeqCst);
    }

    /// Joins the queue at its end, and waits until all before have left it.
    pub(crate) fn wait_to_be_first(&self, rt: &impl Wait) -> Ticket {
        let ticket = Ticket(self.next.fetch_add(1, Ordering::SeqCst));
        let wakes = self.wakes_of(ticket);
        for _ in rt.forever() {
            let seen = wakes.load(Ordering::SeqCst);
            if self.first.load(Ordering::SeqCst) == ticket.0 {
                break;
            }
            wakes.park_timeout(rt, low_half(seen), Duration::from_millis(LONGEST_SLEEP));
        }
        ticket
    }

    /// Asks the next release to wake this thread, the first. Gives how often it was woken, for `sleep_as_first`. The
    /// thread tries the lock in between.
    pub(crate) fn want_wake(&self, ticket: Ticket) -> u64 {
        let seen = self.wakes_of(ticket).load(Ordering::SeqCst);
        self.wants_wake.store(true, Ordering::SeqCst);
        seen
    }

    /// Sleeps as the first until a release or `PATIENCE` is over.
    pub(crate) fn sleep_as_first(&self, rt: &impl Wait, ticket: Ticket, seen: u64) -> SleepEnd {
        let wakes = self.wakes_of(ticket);
        wakes.park_timeout(rt, low_half(seen), Duration::from_millis(PATIENCE));
        if wakes.load(Ordering::SeqCst) == seen {
            SleepEnd::TimeUp
        } else {
            SleepEnd::Woken
        }
    }

    /// Leaves the queue as its first, which has just taken the lock and holds it. If waits are long, it wakes the next
    /// of the queue at once, so that this one's patience begins. Else the next release wakes that one, which is then
    /// woken once and not twice.
    pub(crate) fn leave(&self, ticket: Ticket, waits_are_long: bool) {
        let next = Ticket(ticket.0.wrapping_add(1));
        self.wants_wake.store(false, Ordering::SeqCst);
        self.is_starving.store(false, Ordering::SeqCst);
        self.first.store(next.0, Ordering::SeqCst);
        if self.next.load(Ordering::SeqCst) == next.0 {
            return;
        }
        if waits_are_long {
            self.wake(next);
        } else {
            self.wants_wake.store(true, Ordering::SeqCst);
        }
    }

    /// Wakes the first if it wants it. Called after each release of the lock.
    pub(crate) fn wake_first(&self) {
        if self.wants_wake.load(Ordering::SeqCst) && self.wants_wake.swap(false, Ordering::SeqCst) {
            self.wake(Ticket(self.first.load(Ordering::SeqCst)));
        }
    }

    fn wake(&self, ticket: Ticket) {
        let wakes = self.wakes_of(ticket);
        wakes.fetch_add(1, Ordering::SeqCst);
        wakes.wake_all();
    }

    fn wakes_of(&self, ticket: Ticket) -> &AtomicU64 {
        &self.wakes[ticket.0 as usize % WAKE_WORDS]
    }
}

/// The half of a word that a sleep compares.
pub(crate) fn low_half(word: u64) -> u32 {
    (word & 0xffff_ffff) as u32
}
