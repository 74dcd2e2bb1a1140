//! Serves all clients: runs the acceptor, the queue of connections, and the workers, each on a thread.
//!
//! Used by: `desk`, mw_server. [`QUEUE`] may have another number of 1 or more; docs/OPERATING and docs/PROTOCOL tell
//! it. docs/PROMISES cites `serve_all`.
ghost use Rattle.std.specs.Prelude.{◌<◌, vec_len};
ghost use Rattle.mw_connections.specs.Promises.{KeepsPromise};
ghost use Rattle.mw_workers.specs.ListenerCalls.{EndsSo};

use crate::acceptor::accept_all;
use crate::intake::Intake;
use crate::usher::{ArrivalQueue, Usher, UsheredQueue, WorkerQueue};
use crate::worker::serve_each;
use crossbeam_channel::Sender;
use mw_connections::{Connection, Listener};
use mw_session::Service;
use std::alloc::{AllocError, Global};
use std::sync::Wait;
use std::thread;
use std::thread::{Scope, Threads};
use std::time::Clock;

/// How many connections may wait for a worker, if they wait for ever. While so many wait, no further one is taken.
pub const QUEUE: usize = 64;

/// Tells how serving ended.
#[derive(Clone, Copy, PartialEq, Eq)]
pub enum ServeEnd {
    /// As many connections were taken as were asked for, and all of them were served.
    Served,
    /// Memory was refused for the queue, or a worker couldn't be started. No connection was taken, and no
    /// worker is left.
    Memory,
}

/// Serves clients by one worker for each service, at least one. Gives the listener back.
///
/// With a number of connections it asks the listener exactly so many times; failed calls count too. It ends
/// when all connections that were taken are served. A connection that can't be queued is closed. Without a
/// number it serves on. A client may hold its worker for ever, so this may wait for ever. `keeps`: the services keep what was
/// promised of the listener's connections.
///
/// With a number of seconds to wait, a connection for which no worker is free in this time is closed, and
/// nothing is written to it. Those that wait are closed and served in the order in which they came.
pub fn serve_all<L: Listener + Drop, S: Service + Send + Drop, R: Threads + Wait + Clock + Sync>(
    rt: &R,
    alloc: Global,
    listener: L,
    services: Vec<S>,
    connections: Option<u32>,
    wait: Option<u32>,
) -> (ServeEnd, L)
    requires some { 0 < vec_len services }
    requires keeps { KeepsPromise S.answered L.Connection.promised }
    ensures { EndsSo L.accepts connections listener result.1 result.0 }
{
    match wait {
        Some(wait) => match UsheredQueue::new(alloc, services.len(), wait) {
            Ok(ushered) => serve_in_time(rt, alloc, listener, services, connections, ushered),
            Err(_) => (ServeEnd::Memory, listener),
        },
        None => match crossbeam_channel::bounded(alloc, QUEUE) {
            Ok((to, from)) => {
                let queue = WorkerQueue { from, free: None };
                serve_queue(rt, alloc, listener, services, connections, to, None, &queue)
            }
            Err(_) => (ServeEnd::Memory, listener),
        },
    }
}

/// Serves clients as [`serve_all`] does, if they may wait for so many seconds only.
fn serve_in_time<L: Listener + Drop, S: Service + Send + Drop, R: Threads + Wait + Clock + Sync>(
    rt: &R,
    alloc: Global,
    listener: L,
    services: Vec<S>,
    connections: Option<u32>,
    ushered: UsheredQueue<L::Connection>,
) -> (ServeEnd, L)
    requires keeps { KeepsPromise S.answered L.Connection.promised }
    ensures { EndsSo L.accepts connections listener result.1 result.0 }
{
    let UsheredQueue {
        arrived,
        usher,
        queue,
    } = ushered;
    let arrivals = ArrivalQueue { arrived, clock: rt };
    serve_queue(
        rt,
        alloc,
        listener,
        services,
        connections,
        arrivals,
        Some(usher),
        &queue,
    )
}

/// Starts the workers, and the usher if there is one, puts the connections where they wait for these, and ends when all of them
/// have ended.
fn serve_queue<
    L: Listener + Drop,
    S: Service + Send + Drop,
    W: Intake<L::Connection> + Drop,
    R: Threads + Wait + Clock + Sync,
>(
    rt: &R,
    alloc: Global,
    listener: L,
    services: Vec<S>,
    connections: Option<u32>,
    waiting: W,
    usher: Option<Usher<L::Connection>>,
    queue: &WorkerQueue<L::Connection>,
) -> (ServeEnd, L)
    requires keeps { KeepsPromise S.answered L.Connection.promised }
    ensures { EndsSo L.accepts connections listener result.1 result.0 }
{
    thread::scope(
        thread::scope_env(),
        rt,
        |scope| -> (ServeEnd, L)
            requires keeps { KeepsPromise S.answered L.Connection.promised }
            ensures { EndsSo L.accepts connections listener result.1 result.0 }
        {
            if begin_all(scope, rt, alloc, queue, services, usher).is_err() {
                return (ServeEnd::Memory, listener);
            }
            let (mut listener, mut waiting) = (listener, waiting);
            accept_all(rt, &mut listener, &mut waiting, connections);
            (ServeEnd::Served, listener)
        },
    )
}

/// Starts a worker for each service, and the usher if there is one.
///
/// # Errors
///
/// One of them couldn't be started. Those before it work until no more connections can come.
fn begin_all<
    's,
    E,
    C: Connection + Send + Drop + 's,
    S: Service + Send + Drop + 's,
    R: Wait + Clock + Sync + 's,
>(
    scope: &Scope<'s, E>,
    rt: &'s R,
    alloc: Global,
    queue: &'s WorkerQueue<C>,
    services: Vec<S>,
    usher: Option<Usher<C>>,
) -> Result<(), AllocError>
    requires keeps { KeepsPromise S.answered C.promised }
{
    for mut service in services {
        scope.spawn(
            move ||
                requires keeps { KeepsPromise S.answered C.promised }
            { serve_each(rt, alloc, queue.connections(rt), &mut service) },
        )?;
    }
    if let Some(usher) = usher {
        scope.spawn(move || usher.run(rt))?;
    }
    Ok(())
}

impl<C: Connection + Drop> Intake<C> for Sender<C> {
    ghost puts = { λ _ _ _. Unit {0} };

    fn put<R: Wait>(&mut self, rt: &R, connection: C) {
        // A connection that can't be queued is dropped, and so closed.
        let _ = self.send(rt, connection);
    }
}
