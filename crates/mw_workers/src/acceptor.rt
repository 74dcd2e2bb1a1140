//! Takes connections from a listener, and puts each where it waits for a worker.
//!
//! `server.rt` calls [`accept_all`] and `desk.rt` [`accept_one`]. `specs/ListenerCalls` says what both promise:
//! change them together. docs/PROMISES cites `accept_all`.
ghost use Rattle.mw_workers.specs.ListenerCalls.{ArePut, EndsPut, IsPut};

use crate::intake::Intake;
use mw_connections::Listener;
use std::sync::Wait;
use std::thread;

/// Takes connections from the listener, and puts each where it waits for a worker.
///
/// With a number of connections it asks the listener exactly so many times; failed calls count too. Without
/// a number it doesn't return. Nobody may come, so this may wait for ever.
pub fn accept_all<L: Listener, W: Intake<L::Connection>, R: Wait>(
    rt: &R,
    listener: &mut L,
    waiting: &mut W,
    connections: Option<u32>,
)
    ensures { EndsPut L.accepts W.puts listener.old waiting.old connections listener.new waiting.new }
{
    match connections {
        Some(count) => accept_some(rt, listener, waiting, count),
        None => accept_for_ever(rt, listener, waiting),
    }
}

fn accept_some<L: Listener, W: Intake<L::Connection>, R: Wait>(
    rt: &R,
    listener: &mut L,
    waiting: &mut W,
    count: u32,
)
    ensures { ArePut L.accepts W.puts listener.old waiting.old count listener.new waiting.new }
{
    for _ in 0..count {
        accept_one(rt, listener, waiting);
    }
}

fn accept_for_ever<L: Listener, W: Intake<L::Connection>, R: Wait>(
    rt: &R,
    listener: &mut L,
    waiting: &mut W,
)
    ensures { ⊥ }
{
    for _ in rt.forever() {
        accept_one(rt, listener, waiting);
    }
    unreachable!()
}

/// Asks the listener once, and puts the connection, if it gives one, where it waits for a worker.
pub(crate) fn accept_one<L: Listener, W: Intake<L::Connection>, R: Wait>(
    rt: &R,
    listener: &mut L,
    waiting: &mut W,
)
    ensures { (answer : _) × L.accepts listener.old answer listener.new × IsPut W.puts waiting.old answer waiting.new }
{
    match listener.accept() {
        Ok(connection) => waiting.put(rt, connection),
        // If the system has no room for a connection, a worker may soon make some.
        Err(_) => thread::yield_now(),
    }
}
