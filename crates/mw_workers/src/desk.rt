//! Serves the clients of a second address by a worker of their own, which no other client can take.
//!
//! mw_server calls [`serve_beside`] (`clients.rt`). [`TURN`] and [`DESK_QUEUE`] may have other numbers, the latter 1
//! or more; docs/OPERATING and docs/PROTOCOL tell both. Change the rest with `specs/ListenerCalls` and
//! `specs/ServedConnections`.
ghost use Rattle.std.specs.Prelude.{◌≡◌, ℕ, Bool, List, length, ◌<◌, vec_len};
ghost use Rattle.std.specs.Iterator.{Drains, IsFinite};
ghost use Rattle.mw_session.specs.ServiceCalls.{AreAnswered};
ghost use Rattle.mw_connections.specs.Promises.{KeepsPromise};
ghost use Rattle.mw_workers.specs.ListenerCalls.{ArePut, EndsSo};
ghost use Rattle.mw_workers.specs.ServedConnections.{AreServed, chosen};

use crate::acceptor::accept_one;
use crate::intake::Intake;
use crate::server::{ServeEnd, serve_all};
use crossbeam_channel::{Receiver, Sender};
use mw_connections::{Closer, Connection, Listener, Patient, RoomWatch};
use mw_session::{Others, Service};
use std::alloc::{AllocError, Global};
use std::sync::Wait;
use std::sync::atomic::{AtomicBool, Ordering};
use std::thread::{Scope, Threads};
use std::time::{Clock, Duration};
use std::{io, thread};

/// How many clients of a desk may wait in the server while another one is served there.
pub const DESK_QUEUE: usize = 8;

/// How long a client of a desk may end no line while another one waits there, in seconds.
pub const TURN: u64 = 10;

/// A listener with a worker of its own. Its clients don't wait for the other workers.
#[derive(Drop)]
pub struct Desk<'a, L, S, W> {
    /// The listener, which gives this desk's clients.
    pub listener: L,
    /// The service of its worker.
    pub service: S,
    /// Ends the listener's wait for a client.
    pub closer: Closer,
    /// Is told when the system has no room for its clients.
    pub watch: &'a W,
}

/// Passes on what it is told as long as the desk is open. A closed desk has no room for anybody.
#[derive(Drop)]
struct WhileOpen<'a, W> {
    open: &'a AtomicBool,
    watch: &'a W,
}

impl<W: RoomWatch> RoomWatch for WhileOpen<'_, W> {
    fn no_room(&self, fault: &io::Error) {
        if self.open.load(Ordering::SeqCst) {
            self.watch.no_room(fault);
        }
    }
}

/// Serves clients as [`serve_all`] does, and also those of the desk, one at a time and in order. While one is
/// served there, [`DESK_QUEUE`] more wait in the server. If the system has no room for a client of the desk, the desk
/// waits as [`Patient`] does.
///
/// A client of the desk that has ended no line for [`TURN`] seconds is sent away if another one waits.
///
/// When serving has ended the desk is closed. A client that it serves then is served to the end of its session;
/// those that wait are closed. A client may hold its worker for ever, so this may wait for ever. `keeps`, `desk`: the services keep
/// what was promised of the connections of both listeners.
pub fn serve_beside<
    L: Listener + Drop,
    M: Listener + Send + Drop,
    S: Service + Send + Drop,
    W: RoomWatch + Sync,
    R: Threads + Wait + Clock + Sync,
>(
    rt: &R,
    alloc: Global,
    desk: Desk<'_, M, S, W>,
    listener: L,
    services: Vec<S>,
    connections: Option<u32>,
    wait: Option<u32>,
) -> (ServeEnd, L)
    requires some { 0 < vec_len services }
    requires keeps { KeepsPromise S.answered L.Connection.promised }
    requires desk { KeepsPromise S.answered M.Connection.promised }
    ensures { EndsSo L.accepts connections listener result.1 result.0 }
{
    let Ok((to, from)) = crossbeam_channel::bounded(alloc, DESK_QUEUE) else {
        return (ServeEnd::Memory, listener);
    };
    let queue = DeskQueue {
        open: AtomicBool::new(true),
        from,
    };
    serve_both(
        rt,
        alloc,
        desk,
        &queue,
        to,
        listener,
        services,
        connections,
        wait,
    )
}

/// Serves clients and those of the desk, whose clients wait in this queue.
fn serve_both<
    'a,
    L: Listener + Drop,
    M: Listener + Send + Drop,
    S: Service + Send + Drop,
    W: RoomWatch + Sync,
    R: Threads + Wait + Clock + Sync,
>(
    rt: &R,
    alloc: Global,
    desk: Desk<'a, M, S, W>,
    queue: &'a DeskQueue<M::Connection>,
    to: Sender<M::Connection>,
    listener: L,
    services: Vec<S>,
    connections: Option<u32>,
    wait: Option<u32>,
) -> (ServeEnd, L)
    requires some { 0 < vec_len services }
    requires keeps { KeepsPromise S.answered L.Connection.promised }
    requires desk { KeepsPromise S.answered M.Connection.promised }
    ensures { EndsSo L.accepts connections listener result.1 result.0 }
{
    let Desk {
        listener: own,
        service,
        closer,
        watch,
    } = desk;
    let watch = WhileOpen {
        open: &queue.open,
        watch,
    };
    let watch = &watch;
    thread::scope(
        thread::scope_env(),
        rt,
        |scope| -> (ServeEnd, L)
            requires some { 0 < vec_len services }
            requires keeps { KeepsPromise S.answered L.Connection.promised }
            requires desk { KeepsPromise S.answered M.Connection.promised }
            ensures { EndsSo L.accepts connections listener result.1 result.0 }
        {
            let own = Patient::new(own, rt, watch);
            let clerk = Clerk { alloc, service };
            let ended = if begin_desk(scope, rt, own, to, queue, clerk).is_ok() {
                serve_all(rt, alloc, listener, services, connections, wait)
            } else {
                (ServeEnd::Memory, listener)
            };
            queue.close(rt, &closer);
            ended
        },
    )
}

/// The worker of a desk, with its service.
#[derive(Drop)]
struct Clerk<S> {
    alloc: Global,
    service: S,
}

/// The clients that wait at a desk while another one is served there.
#[derive(Drop)]
struct DeskQueue<C: Drop> {
    /// Whether the desk is open.
    open: AtomicBool,
    from: Receiver<C>,
}

impl<C: Drop> DeskQueue<C> {
    fn is_open(&self) -> bool {
        self.open.load(Ordering::SeqCst)
    }

    /// Closes the desk, ends its wait for a client, and closes those that wait.
    fn close<R: Wait>(&self, rt: &R, closer: &Closer) {
        self.open.store(false, Ordering::SeqCst);
        closer.close();
        self.close_waiting(rt);
    }

    /// Closes those that wait now.
    fn close_waiting<R: Wait>(&self, rt: &R) {
        for left in self.from.try_iter(rt) {
            drop(left);
        }
    }
}

impl<C: Drop> Others for DeskQueue<C> {
    fn turn(&self) -> Option<Duration> {
        Some(Duration::from_secs(TURN))
    }

    fn wait(&self) -> bool {
        self.is_open() && !self.from.is_empty()
    }
}

/// Starts the desk's worker and its acceptor.
///
/// # Errors
///
/// One of them couldn't be started. The other one, if it was started, ends when the desk is closed.
fn begin_desk<
    's,
    E,
    L: Listener + Send + Drop + 's,
    S: Service + Send + Drop + 's,
    R: Wait + Sync + 's,
>(
    scope: &Scope<'s, E>,
    rt: &'s R,
    listener: L,
    to: Sender<L::Connection>,
    queue: &'s DeskQueue<L::Connection>,
    clerk: Clerk<S>,
) -> Result<(), AllocError>
    requires keeps { KeepsPromise S.answered L.Connection.promised }
{
    let Clerk { alloc, mut service } = clerk;
    scope.spawn(
        move ||
            requires keeps { KeepsPromise S.answered L.Connection.promised }
        { serve_in_turn(rt, alloc, queue.from.iter(rt), &mut service, queue) },
    )?;
    scope.spawn(move || accept_for_desk(rt, listener, to, queue))?;
    Ok(())
}

/// Serves each connection by one session, in the order in which they come, until no more come. Those that come
/// when the desk is closed are closed.
fn serve_in_turn<C: Connection + Drop, I: Iterator<Item = C> + Drop, S: Service, R: Wait>(
    rt: &R,
    alloc: Global,
    connections: I,
    service: &mut S,
    queue: &DeskQueue<C>,
)
    requires can { I.can_next connections }
    requires ends { IsFinite (I.remaining connections) }
    requires keeps { KeepsPromise S.answered C.promised }
    ensures { (all : List C) × (turns : List Bool) × Drains I.next_gives connections all × (length turns ≡ length all)
        × AreServed C.left C.sent C.reads C.writes (AreAnswered S.answered) service.old (chosen turns all) service.new }
{
    for connection in connections {
        if queue.is_open() {
            let mut connection = connection;
            connection.serve(rt, alloc, service, queue);
            connection.leave(rt);
        }
    }
}

/// Takes connections, and lets them wait at the desk, as long as it is open. When it is closed, closes those
/// that wait.
fn accept_for_desk<L: Listener + Drop, R: Wait>(
    rt: &R,
    listener: L,
    to: Sender<L::Connection>,
    queue: &DeskQueue<L::Connection>,
) {
    let (mut listener, mut to) = (listener, to);
    accept_while(rt, &mut listener, &mut to, &queue.open);
    queue.close_waiting(rt);
}

/// Takes connections and puts each where it waits, as long as `open` is set. After `open` is cleared it asks
/// the listener once more at most.
fn accept_while<L: Listener, W: Intake<L::Connection>, R: Wait>(
    rt: &R,
    listener: &mut L,
    waiting: &mut W,
    open: &AtomicBool,
)
    ensures { (count : ℕ) × ArePut L.accepts W.puts listener.old waiting.old count listener.new waiting.new }
{
    for _ in rt.forever() {
        if !open.load(Ordering::SeqCst) {
            return;
        }
        accept_one(rt, listener, waiting);
    }
    unreachable!()
}
