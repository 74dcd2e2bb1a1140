//! Tests what no contract says: that each wait ends, for a lock or by a bell, and that long waits are in turn.
use mw_turns::{Bell, FairLock};
use std::alloc::{AllocError, Global};
use std::sync::Wait;
use std::sync::atomic::{AtomicU64, Ordering};
use std::test::Fail;
use std::thread::{self, Threads};
use std::time::{Clock, Duration};

/// More threads than there are words to sleep on, so that some share a word.
const CROWD: usize = 100;

/// The longest sleep by a bell, in microseconds.
const LONGEST_SLEEP: u64 = 100_000;

/// How often each of the crowd takes the lock.
const VISITS: u64 = 200;

/// Adds to a count, under the lock each time.
fn visit(rt: &impl Wait, count: &FairLock<u64>) {
    for _ in 0..VISITS {
        let mut guard = count.lock(rt);
        *guard.value = guard.value.saturating_add(1);
    }
}

/// Lets a crowd add to a count, and gives the count.
fn count_of_crowd<R: Threads + Wait + Sync>(rt: &R, alloc: Global) -> Result<u64, AllocError> {
    let count = FairLock::new(0);
    let shared = &count;
    thread::map_indices(rt, alloc, CROWD, &|_| visit(rt, shared))?;
    Ok(count.into_inner())
}

#[test]
fn every_wait_of_a_crowd_ends(rt: HostRuntime) -> Result<(), Fail> {
    assert_eq!(rt; count_of_crowd(&rt, rt.alloc())?, 20_000);
    Ok(())
}

/// How many times two threads hold the lock, both together.
const HOLDS: u64 = 40;

/// How many threads queue, one after another, beside the one that holds the lock.
const COMERS: u64 = 7;

/// In which order threads held a lock: how many take turns, whose turn is next, and whether each came in its turn.
#[derive(Drop)]
struct Order {
    threads: u64,
    next: u64,
    is_kept: bool,
}

impl Order {
    /// Notes a hold by this thread.
    fn note(&mut self, thread: u64) {
        self.is_kept = self.is_kept && thread == self.next;
        let next = thread.saturating_add(1);
        self.next = if next < self.threads { next } else { 0 };
    }
}

/// A lock, and how often it was held.
#[derive(Drop)]
struct Line {
    order: FairLock<Order>,
    holds: AtomicU64,
}

impl Line {
    fn new(threads: u64) -> Line {
        Line {
            order: FairLock::new(Order {
                threads,
                next: 0,
                is_kept: true,
            }),
            holds: AtomicU64::new(0),
        }
    }

    /// Waits until the lock was held so often, and so many threads queue.
    fn wait<R: Wait + Clock>(&self, rt: &R, holds: u64, queued: u64) {
        for _ in rt.forever() {
            if self.holds.load(Ordering::SeqCst) >= holds && self.order.queued() >= queued {
                return;
            }
            thread::sleep(rt, Duration::from_millis(1));
        }
    }

    /// Waits until the first of the queue has lost its patience.
    fn wait_for_starving<R: Wait + Clock>(&self, rt: &R) {
        for _ in rt.forever() {
            if self.order.is_starving() {
                return;
            }
            thread::sleep(rt, Duration::from_millis(1));
        }
    }

    /// Holds the lock as often as the other thread does, each time until that one has waited for long.
    fn hold_in_turn<R: Wait + Clock>(&self, rt: &R, holder: u64) {
        self.wait(rt, holder, 0);
        for _ in 0..HOLDS / 2 {
            let mut guard = self.order.lock(rt);
            if self.holds.fetch_add(1, Ordering::SeqCst).saturating_add(1) < HOLDS {
                self.wait_for_starving(rt);
            }
            guard.value.note(holder);
        }
    }

    /// Comes when all threads before have come, and holds the lock once. The first holds it until all have come.
    fn come<R: Wait + Clock>(&self, rt: &R, comer: u64) {
        if comer > 0 {
            self.wait(rt, 1, comer.saturating_sub(1));
        }
        let mut guard = self.order.lock(rt);
        self.holds.fetch_add(1, Ordering::SeqCst);
        if comer == 0 {
            self.wait(rt, 1, COMERS);
        }
        guard.value.note(comer);
    }

    /// Whether the lock was held so often, by each thread in its turn.
    fn was_in_turn(self, holds: u64) -> bool {
        let Line { order, holds: held } = self;
        order.into_inner().is_kept && held.into_inner() == holds
    }
}

/// With a plain lock nearly all holds are by the thread that held it before.
#[test]
fn long_holds_are_in_turn(rt: HostRuntime) -> Result<(), Fail> {
    let line = Line::new(2);
    let shared = &line;
    thread::map_indices(
        &rt,
        rt.alloc(),
        2,
        &|holder| { shared.hold_in_turn(&rt, holder as u64) },
    )?;
    assert!(rt; line.was_in_turn(HOLDS));
    Ok(())
}

#[test]
fn the_queue_is_in_order(rt: HostRuntime) -> Result<(), Fail> {
    let line = Line::new(8);
    let shared = &line;
    thread::map_indices(&rt, rt.alloc(), 8, &|comer| shared.come(&rt, comer as u64))?;
    assert!(rt; line.was_in_turn(8));
    Ok(())
}

/// How often each of two threads wakes the other. If most rings were lost, the test would take more than its time.
const WAKES: u64 = 2000;

/// Two threads that take turns, each with a bell.
#[derive(Drop)]
struct PingPong {
    turns: AtomicU64,
    bells: [Bell; 2],
}

impl PingPong {
    /// Waits until it is this player's turn.
    fn wait(&self, rt: &impl Wait, player: usize) {
        for _ in rt.forever() {
            let heard = self.bells[player % 2].listen();
            if self.turns.load(Ordering::SeqCst) % 2 == (player % 2) as u64 {
                return;
            }
            self.bells[player % 2].sleep(rt, heard, LONGEST_SLEEP);
        }
    }

    /// Ends this player's turn, and wakes the other one.
    fn pass_on(&self, player: usize) {
        self.turns.fetch_add(1, Ordering::SeqCst);
        self.bells[player.wrapping_add(1) % 2].ring();
    }

    /// Takes all turns of a player.
    fn play(&self, rt: &impl Wait, player: usize) {
        for _ in 0..WAKES {
            self.wait(rt, player);
            self.pass_on(player);
        }
    }
}

/// How many turns two threads take.
fn turns_of_two<R: Threads + Wait + Sync>(rt: &R, alloc: Global) -> Result<u64, AllocError> {
    let game = PingPong {
        turns: AtomicU64::new(0),
        bells: [Bell::new(), Bell::new()],
    };
    let shared = &game;
    thread::map_indices(rt, alloc, 2, &|player| shared.play(rt, player))?;
    Ok(game.turns.into_inner())
}

#[test]
fn two_threads_wake_each_other(rt: HostRuntime) -> Result<(), Fail> {
    assert_eq!(rt; turns_of_two(&rt, rt.alloc())?, 4000);
    Ok(())
}
