//! Serves the clients that a listener gives, one after the other.
//!
//! mw_server runs it on a thread of its own. `specs/Clients` says what it promises: change both together. [`PAUSE`] may
//! have another number.
ghost use Rattle.std.specs.Prelude.{◌≡◌, map, string_bytes};
ghost use Rattle.mw_session.specs.StreamRecords.{no_reads, no_writes};
ghost use Rattle.mw_connections.specs.Promises.{PagesKeep};
ghost use Rattle.mw_server_pages.specs.Clients.{AreServed, IsServed, IsTurn};

use mw_connections::{Visitor, VisitorListener};
use mw_http::Pages;
use std::sync::Wait;
use std::sync::atomic::{AtomicBool, Ordering};
use std::thread;
use std::time::{Clock, Duration};

/// How long it waits after the listener gave no client, in milliseconds.
pub const PAUSE: u64 = 100;

/// Serves each client that the listener gives, by one [`mw_http::exchange`], as long as `open` is set. After `open` is cleared it asks
/// the listener once more at most, and serves no client more than the one that it gives then. A client is let read its
/// answer before its connection is closed. Clients may call the server by these names, as [`mw_http::hear`] says.
/// `keeps`: the pages keep what was promised of the listener's clients.
pub fn serve_pages<L: VisitorListener, P: Pages, R: Wait + Clock>(
    rt: &R,
    listener: &mut L,
    pages: &mut P,
    names: &[String],
    open: &AtomicBool,
)
    requires keeps { PagesKeep P.answered L.Visitor.promised }
    ensures { AreServed (map string_bytes names.now) L.accepts P.answered listener.old listener.new pages.old pages.new }
{
    for _ in rt.forever() {
        if !open.load(Ordering::SeqCst) {
            return;
        }
        serve_next(rt, listener, pages, names);
    }
    unreachable!()
}

/// Asks the listener once, and serves the client that it gives.
fn serve_next<L: VisitorListener, P: Pages, R: Wait + Clock>(
    rt: &R,
    listener: &mut L,
    pages: &mut P,
    names: &[String],
)
    requires keeps { PagesKeep P.answered L.Visitor.promised }
    ensures { (answer : _) × L.accepts listener.old answer listener.new × IsTurn (map string_bytes names.now) P.answered pages.old answer pages.new }
{
    match listener.accept() {
        Ok(visitor) => serve_client(rt, visitor, pages, names),
        // If the system has no room for a connection, a client that ends may soon make some.
        Err(_) => thread::sleep(rt, Duration::from_millis(PAUSE)),
    }
}

/// Serves one client, and closes its connection.
fn serve_client<V: Visitor + Drop, P: Pages, R: Wait>(
    rt: &R,
    visitor: V,
    pages: &mut P,
    names: &[String],
)
    requires keeps { PagesKeep P.answered V.promised }
    requires fresh { (V.reads visitor ≡ no_reads) × (V.writes visitor ≡ no_writes) }
    ensures { IsServed (map string_bytes names.now) P.answered pages.old pages.new }
{
    let mut visitor = visitor;
    visitor.exchange(rt, pages, names);
    visitor.leave(rt);
}
