//! Hands connections over to workers in the order in which they came, and closes those that have waited for too long.
//!
//! `server.rt` runs an [`Usher`] on a thread, if connections may wait for so many seconds only. The acceptor puts them
//! into the [`ArrivalQueue`], and the workers take them from the [`WorkerQueue`]. [`WAITING`] may have another number
//! of 1 or more; docs/OPERATING and docs/PROTOCOL tell it, and mw_server counts descriptors by it. Nothing is proved
//! of the channels.
ghost use Rattle.std.specs.Prelude.{◌≡◌};
ghost use Rattle.std.specs.Duration.{as_nanos};
ghost use Rattle.std.specs.Iterator.{at_most};
ghost use Rattle.crossbeam_channel.specs.Iter.{iter_left};
ghost use Rattle.mw_workers.specs.QueueTimes.{moment, still_to_wait};

use crate::intake::Intake;
use crossbeam_channel::{Iter, Receiver, Sender};
use std::alloc::{AllocError, Global};
use std::sync::Wait;
use std::time::{Clock, Duration, Instant};

/// How many connections may wait for a worker, if they wait for so many seconds only. While so many wait, no
/// further one is taken.
pub const WAITING: usize = 1024;

/// A connection that waits, and when it came. None: the clock couldn't be read.
#[derive(Drop)]
pub(crate) struct Arrival<C> {
    connection: C,
    came: Option<Instant>,
}

/// Says that one worker more is free.
#[derive(Drop)]
pub(crate) struct Free;

/// Where the workers get their connections.
#[derive(Drop)]
pub(crate) struct WorkerQueue<C: Drop> {
    pub(crate) from: Receiver<C>,
    /// Where a worker says that it is free, if an usher wants to know.
    pub(crate) free: Option<Sender<Free>>,
}

impl<C: Drop> WorkerQueue<C> {
    /// Gives the connections of one worker.
    pub(crate) fn connections<'a, R: Wait>(&'a self, rt: &'a R) -> WorkerConnections<'a, C, R> {
        WorkerConnections {
            rt,
            queue: self,
            next: self.from.iter(rt),
        }
    }
}

/// The connections of one worker. Before each, it says that it is free.
#[derive(Drop)]
pub(crate) struct WorkerConnections<'a, C: Drop, R: Wait> {
    rt: &'a R,
    queue: &'a WorkerQueue<C>,
    next: Iter<'a, C, R>,
}

impl<C: Drop, R: Wait> Iterator for WorkerConnections<'_, C, R> {
    type Item = C;

    ghost remaining = { λ connections. at_most (iter_left connections.next) };

    fn next(&mut self) -> Option<C> {
        if let Some(free) = &self.queue.free {
            // If the usher has ended, those that it has handed over are still served.
            let _ = free.send(self.rt, Free);
        }
        self.next.next()
    }
}

/// Where the acceptor puts connections, which wait here for a worker.
#[derive(Drop)]
pub(crate) struct ArrivalQueue<'a, C: Drop, K> {
    pub(crate) arrived: Sender<Arrival<C>>,
    pub(crate) clock: &'a K,
}

impl<C: Drop, K: Clock> Intake<C> for ArrivalQueue<'_, C, K> {
    ghost puts = { λ _ _ _. Unit {0} };

    fn put<R: Wait>(&mut self, rt: &R, connection: C) {
        let came = Instant::now(self.clock).ok();
        // A connection that can't wait here is dropped, and so closed.
        let _ = self.arrived.send(rt, Arrival { connection, came });
    }
}

/// Hands connections over to workers.
#[derive(Drop)]
pub(crate) struct Usher<C: Drop> {
    arrivals: Receiver<Arrival<C>>,
    freed: Receiver<Free>,
    to: Sender<C>,
    /// How long a connection waits.
    wait: Duration,
}

/// The ends of the queues: where connections come, who hands them over, and where the workers get them.
#[derive(Drop)]
pub(crate) struct UsheredQueue<C: Drop> {
    pub(crate) arrived: Sender<Arrival<C>>,
    pub(crate) usher: Usher<C>,
    pub(crate) queue: WorkerQueue<C>,
}

impl<C: Drop> UsheredQueue<C> {
    /// Makes all of it for so many workers. A connection waits for so many seconds.
    ///
    /// # Errors
    ///
    /// Memory is out.
    pub(crate) fn new(alloc: Global, workers: usize, wait: u32) -> Result<Self, AllocError> {
        let (arrived, arrivals) = crossbeam_channel::bounded(alloc, WAITING)?;
        // A worker says once that it is free, and then gets one connection: neither ever waits for room.
        let (free, freed) = crossbeam_channel::bounded(alloc, workers)?;
        let (to, from) = crossbeam_channel::bounded(alloc, workers)?;
        Ok(UsheredQueue {
            arrived,
            usher: Usher {
                arrivals,
                freed,
                to,
                wait: Duration::from_secs(u64::from(wait)),
            },
            queue: WorkerQueue {
                from,
                free: Some(free),
            },
        })
    }
}

impl<C: Drop> Usher<C> {
    /// Hands each connection over to a worker that is free, the oldest first, until no more come. One for which
    /// no worker is free in its time is closed.
    pub(crate) fn run<R: Wait + Clock>(self, rt: &R) {
        for arrival in self.arrivals.iter(rt) {
            let Arrival { connection, came } = arrival;
            let left = still_to_wait(self.wait, came, Instant::now(rt).ok());
            // If no worker is free in this time, the connection is dropped, and so closed.
            if self.freed.recv_timeout(rt, left).is_ok() {
                let _ = self.to.send(rt, connection);
            }
        }
    }
}

/// Gives how long a connection that came then may still wait. If a time isn't known, it may wait anew.
fn still_to_wait(wait: Duration, came: Option<Instant>, now: Option<Instant>) -> Duration
    ensures { as_nanos result ≡ still_to_wait (as_nanos wait) (moment came) (moment now) }
{
    match (came, now) {
        (Some(came), Some(now)) => wait.saturating_sub(now.duration_since(came)),
        (None, _) | (Some(_), None) => wait,
    }
}
