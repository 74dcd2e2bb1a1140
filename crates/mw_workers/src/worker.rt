//! Serves one connection after the other, each by one session, until no more come.
//!
//! `server.rt` calls [`serve_each`] on a thread for each service. `specs/ServedConnections` says what it promises: change both
//! together. docs/PROMISES cites `serve_each`.
ghost use Rattle.std.specs.Prelude.{List};
ghost use Rattle.std.specs.Iterator.{Drains, IsFinite};
ghost use Rattle.mw_session.specs.ServiceCalls.{AreAnswered};
ghost use Rattle.mw_connections.specs.Promises.{KeepsPromise};
ghost use Rattle.mw_workers.specs.ServedConnections.{AreServed};

use mw_connections::Connection;
use mw_session::{NoOthers, Service};
use std::alloc::Global;
use std::sync::Wait;

/// Serves each connection by one session, in the order in which they come, until no more come. However a
/// session ends, its connection is closed, and the next is served. `keeps`: the service keeps what was promised of them.
pub fn serve_each<C: Connection + Drop, I: Iterator<Item = C> + Drop, S: Service, R: Wait>(
    rt: &R,
    alloc: Global,
    connections: I,
    service: &mut S,
)
    requires can { I.can_next connections }
    requires ends { IsFinite (I.remaining connections) }
    requires keeps { KeepsPromise S.answered C.promised }
    ensures { (all : List C) × Drains I.next_gives connections all
        × AreServed C.left C.sent C.reads C.writes (AreAnswered S.answered) service.old all service.new }
{
    for connection in connections {
        let mut connection = connection;
        connection.serve(rt, alloc, service, &NoOthers);
        connection.leave(rt);
    }
}
