//! A listener over another one, which counts its connections: those accepted, those served, and those closed, and
//! why. A connection that is dropped before a session serves it counts as closed.
//!
//! mw_server makes one over each of its listeners. Change it with `specs/Metered`. A new way in which a session
//! ends needs a [`CloseReason`].
ghost use Rattle.std.specs.Prelude.{◌≡◌};
ghost use Rattle.mw_connections.specs.Metered.{inside};
ghost use Rattle.mw_connections.specs.Metered as spec;

use crate::peer::{Connection, Listener};
use mw_metrics::{CloseReason, ServerCounters};
use mw_session::{Ended, Others, Service};
use std::alloc::Global;
use std::io;
use std::sync::Wait;

/// A listener that counts its connections. Each accept is one of the listener below.
#[derive(Drop)]
pub struct MeteredListener<'a, L> {
    listener: L,
    counters: &'a ServerCounters,
}

impl<'a, L> MeteredListener<'a, L> {
    /// Makes a listener over this one, whose connections these counters count.
    pub fn new(listener: L, counters: &'a ServerCounters) -> Self
        ensures { result.listener ≡ listener }
    {
        MeteredListener { listener, counters }
    }
}

impl<'a, L: Listener> Listener for MeteredListener<'a, L> {
    type Connection = MeteredConnection<'a, L::Connection>;

    ghost accepts = { λ old answer new. L.accepts old.listener (inside (λ metered. metered.connection) answer) new.listener };

    fn accept(&mut self) -> io::Result<MeteredConnection<'a, L::Connection>> {
        match self.listener.accept() {
            Ok(connection) => {
                self.counters.record_accepted();
                Ok(MeteredConnection {
                    connection,
                    counters: self.counters,
                    reason: CloseReason::Unserved,
                })
            }
            Err(fault) => Err(fault),
        }
    }
}

/// A connection that is counted. It is counted as closed when it is dropped, and so closed.
pub struct MeteredConnection<'a, C: Drop> {
    connection: C,
    counters: &'a ServerCounters,
    /// Why it would be closed now.
    reason: CloseReason,
}

impl<C: Drop> Drop for MeteredConnection<'_, C> {
    fn drop(self) {
        let MeteredConnection {
            connection,
            counters,
            reason,
        } = self;
        drop(connection);
        counters.record_closed(reason);
    }
}

impl<C: Connection + Drop> Connection for MeteredConnection<'_, C> {
    ghost left = { λ metered. C.left metered.connection };

    ghost sent = { λ metered. C.sent metered.connection };

    ghost reads = { λ metered. C.reads metered.connection };

    ghost writes = { λ metered. C.writes metered.connection };

    ghost promised = { C.promised };

    fn serve<S: Service, R: Wait, O: Others>(
        &mut self,
        rt: &R,
        alloc: Global,
        service: &mut S,
        others: &O,
    ) -> Ended {
        if let CloseReason::Unserved = self.reason {
            self.counters.record_served();
        }
        let ended = self.connection.serve(rt, alloc, service, others);
        self.reason = reason_of(ended);
        ended
    }

    fn leave<R: Wait>(&mut self, rt: &R) {
        self.connection.leave(rt);
    }
}

/// Gives why a connection is closed whose session ended so.
fn reason_of(ended: Ended) -> CloseReason
    ensures { result ≡ spec.reason_of ended }
{
    match ended {
        Ended::Quit => CloseReason::Quit,
        Ended::PeerEnd => CloseReason::PeerEnd,
        Ended::TooLong => CloseReason::TooLong,
        Ended::ReadFault => CloseReason::ReadFault,
        Ended::WriteFault(_) => CloseReason::WriteFault,
        Ended::Memory => CloseReason::Memory,
    }
}
