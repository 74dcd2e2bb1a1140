//! A latch, which stops a worker in the middle of its request until the test lets it go.
//!
//! Used by: most other modules.
ghost use Rattle.mw_memory_disk.specs.Memory.{memory_facts, memory_made};

use mw_disk::{Disk, DiskFault};
use mw_engine::{Hold, Point};
use mw_memory_disk::MemDisk;
use std::sync::atomic::{AtomicU64, Ordering};
use std::thread;

/// How many times a waiting worker looks again: for ten seconds or more, because the machine's host may
/// take a processor away for longer than the others' requests last.
const MOST_TURNS: u32 = 30_000_000;

/// Says where a worker comes to the latch.
#[derive(Clone, Copy)]
pub(crate) enum Place {
    /// Nowhere: nobody is stopped.
    Nowhere,
    /// Worker 0 is at a point of its request.
    At(Point),
    /// Any worker is at this point.
    Anyone(Point),
    /// Each worker but worker 1 is at this point for the first time. All of them are stopped, one after the other.
    AllButOne(Point),
    /// A worker is about to write to a disk.
    Write,
    /// A worker is about to sync a disk.
    Sync,
}

/// Says who is stopped.
#[derive(Clone, Copy)]
pub(crate) struct Stop {
    pub(crate) place: Place,
    /// How many come there before the first one that is stopped.
    pub(crate) before: u64,
    /// Whether workers 1 and 2 gather meanwhile with their seals, until a sync of worker 3 is under way. It lasts until
    /// both go on.
    pub(crate) gathers: bool,
}

/// Nobody is stopped.
pub(crate) const NOBODY: Stop = Stop {
    place: Place::Nowhere,
    before: 0,
    gathers: false,
};

/// The first sync is stopped, from the moment on at which the latch is set.
pub(crate) const FIRST_SYNC: Stop = Stop {
    place: Place::Sync,
    before: 0,
    gathers: false,
};

/// Stops the worker that comes to it as the one of a number, or so many from this one on, until all others have
/// left or the turns are used up. So a test fails, and ends, if workers wait for one that is stopped.
#[derive(Drop)]
pub(crate) struct Latch {
    pub(crate) stop: Stop,
    /// How many come before the first one that is stopped.
    before: AtomicU64,
    /// How many are stopped.
    stops: AtomicU64,
    /// How many have come.
    pub(crate) came: AtomicU64,
    /// 1 when all that are to be stopped were.
    pub(crate) has_stopped: AtomicU64,
    /// How many others haven't left.
    others: AtomicU64,
    /// 1 when the last of the others has left.
    is_open: AtomicU64,
    /// 1 when one that was stopped went on before that.
    has_expired: AtomicU64,
    /// How many have gathered.
    pub(crate) gathered: AtomicU64,
}

impl Latch {
    /// Makes a latch. It stops nobody until it is set.
    pub(crate) fn new(stop: Stop) -> Latch {
        Latch {
            stop,
            before: AtomicU64::new(u64::MAX),
            stops: AtomicU64::new(1),
            came: AtomicU64::new(0),
            has_stopped: AtomicU64::new(0),
            others: AtomicU64::new(0),
            is_open: AtomicU64::new(0),
            has_expired: AtomicU64::new(0),
            gathered: AtomicU64::new(0),
        }
    }

    /// Sets the latch for so many workers. It opens when all that are not stopped have left.
    pub(crate) fn set(&self, workers: u64) {
        let others = workers.saturating_sub(1);
        let (stops, others) = match self.stop.place {
            Place::AllButOne(_) => (others, 1),
            _ => (1, others),
        };
        self.stops.store(stops, Ordering::SeqCst);
        self.others.store(others, Ordering::SeqCst);
        self.came.store(0, Ordering::SeqCst);
        self.before.store(self.stop.before, Ordering::SeqCst);
    }

    /// Comes to the latch, if it is where the worker is.
    fn pass(&self, is_here: bool) {
        if !is_here {
            return;
        }
        let came = self.came.fetch_add(1, Ordering::SeqCst);
        let stops = self.stops.load(Ordering::SeqCst);
        match came.checked_sub(self.before.load(Ordering::SeqCst)) {
            Some(stopped) if stopped < stops => {
                if stopped == stops - 1 {
                    self.has_stopped.store(1, Ordering::SeqCst);
                }
            }
            _ => return,
        }
        if !comes_to(&self.is_open, 1) {
            self.has_expired.store(1, Ordering::SeqCst);
        }
    }

    /// Records that one of the others leaves. The last one opens the latch.
    pub(crate) fn leave(&self) {
        if self.others.fetch_sub(1, Ordering::SeqCst) == 1 {
            self.is_open.store(1, Ordering::SeqCst);
        }
    }

    /// Tells whether all that are to be stopped were, and went on only when all others had left.
    pub(crate) fn has_held(&self) -> bool {
        self.has_stopped.load(Ordering::SeqCst) == 1 && self.has_expired.load(Ordering::SeqCst) == 0
    }
}

/// Waits until a counter has come to this count. Gives false if the turns are used up before.
pub(crate) fn comes_to(counter: &AtomicU64, count: u64) -> bool {
    for _ in 0..MOST_TURNS {
        if counter.load(Ordering::SeqCst) >= count {
            return true;
        }
        thread::yield_now();
    }
    false
}

/// Has workers come to a latch at each point of their requests. If workers gather, they do so at the second latch.
#[derive(Clone, Copy)]
pub(crate) struct ByLatch<'l> {
    pub(crate) latch: &'l Latch,
    pub(crate) second: &'l Latch,
}

impl<'l> ByLatch<'l> {
    /// Gives the latch to which disks come.
    pub(crate) fn of_disks(self) -> &'l Latch {
        if self.latch.stop.gathers {
            self.second
        } else {
            self.latch
        }
    }
}

impl Hold for ByLatch<'_> {
    fn at(&self, worker: u8, point: Point) {
        let is_here = match self.latch.stop.place {
            Place::At(place) => place == point && worker == 0,
            Place::Anyone(place) => place == point,
            Place::AllButOne(place) => place == point && worker != 1,
            _ => false,
        };
        self.latch.pass(is_here);
        let gathers = self.latch.stop.gathers && (worker == 1 || worker == 2);
        if gathers && point == Point::BeforeSeal {
            self.second.gathered.fetch_add(1, Ordering::SeqCst);
            comes_to(&self.second.has_stopped, 1);
            self.second.leave();
        }
    }
}

/// A disk whose writes and syncs come to a latch before they are made.
#[derive(Drop)]
pub(crate) struct LatchedDisk<'l> {
    pub(crate) disk: MemDisk,
    pub(crate) latch: &'l Latch,
}

impl Disk for LatchedDisk<'_> {
    ghost facts = { λ latched. memory_facts latched.disk };

    ghost made = { λ call well old new. memory_made call well old.disk new.disk };

    fn read_at(&mut self, at: u64, out: &mut [u8]) -> Result<(), DiskFault> {
        self.disk.read_at(at, out)
    }

    fn write_at(&mut self, at: u64, bytes: &[u8]) -> Result<(), DiskFault> {
        self.latch
            .pass(matches!(self.latch.stop.place, Place::Write));
        self.disk.write_at(at, bytes)
    }

    fn sync(&mut self) -> Result<(), DiskFault> {
        self.latch
            .pass(matches!(self.latch.stop.place, Place::Sync));
        self.disk.sync()
    }

    fn len(&mut self) -> Result<u64, DiskFault> {
        self.disk.len()
    }

    fn faults(&self) -> u64 {
        self.disk.faults()
    }
}
