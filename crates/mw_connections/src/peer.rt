//! Defines the traits of listeners and of a client's connection.
//!
//! Used by: `metered`, `sockets.rt`, `patience.rt`, mw_workers, mw_server, tests. A new call needs a body in each
//! implementation.
ghost use Rattle.std.specs.Prelude.{ℕ, ◌≡◌, List, Option};
ghost use Rattle.std.specs.declared.result.Result.{Result as Outcome};
ghost use Rattle.std.specs.declared.io.Error.{Error as IoError};
ghost use Rattle.mw_session.specs.ServiceCalls.{AreAnswered};
ghost use Rattle.mw_session.specs.Talk.{Call};
ghost use Rattle.mw_session.specs.StreamRecords.{ReadRecord, WriteRecord};
ghost use Rattle.mw_connections.specs.Promises.{KeepsPromise};
ghost use Rattle.mw_connections.specs.Sessions.{IsSessionOf};

use mw_session::{Ended, Others, Service};
use std::alloc::Global;
use std::io;
use std::sync::Wait;

/// Gives connections.
pub trait Listener {
    type Connection: Connection + Send + Drop;

    // Says what one call of `accept` may answer in a state, and which state it leaves then.
    ghost accepts: { Self → Outcome Self.Connection IoError → Self → Type 0 };

    /// Takes the next connection. Nobody may come, so this may wait for ever.
    ///
    /// # Errors
    ///
    /// A client didn't get through, or the system had no room for its connection. The next call may give
    /// one.
    fn accept(&mut self) -> io::Result<Self::Connection>
        ensures { accepts self.old result self.new };
}

/// A client's connection, to be served once. Dropping it closes it.
pub trait Connection {
    // The bytes that the client sent and nobody has read yet, where they are known.
    ghost left: { Self → Option (List ℕ) };

    // The bytes that were sent to the client, where they are known.
    ghost sent: { Self → Option (List ℕ) };

    // What was read from the client, as it was recorded.
    ghost reads: { Self → ReadRecord };

    // What was written to the client, as it was recorded.
    ghost writes: { Self → WriteRecord };

    // What a session's calls, in order, were answered as: only a service that keeps to it may serve the client.
    ghost promised: { List Call → Type 0 };

    /// Serves the client by one session, [`mw_session::Session::run`]. Gives how the session ended. A client may
    /// say nothing, or not read what it is told, so this may wait for ever; but if it ends no line for a whole turn
    /// while others wait, its session may be ended. `keeps`: the service keeps what was promised of this connection.
    fn serve<S: Service, R: Wait, O: Others>(
        &mut self,
        rt: &R,
        alloc: Global,
        service: &mut S,
        others: &O,
    ) -> Ended
        requires keeps { KeepsPromise S.answered promised }
        ensures { IsSessionOf (left self.old) (left self.new) (sent self.old) (sent self.new)
            (reads self.old) (reads self.new) (writes self.old) (writes self.new)
            (AreAnswered S.answered service.old service.new) result };

    /// Lets a client whose session has ended read all that it was told, before its connection is closed. Nothing more
    /// is written.
    fn leave<R: Wait>(&mut self, rt: &R)
        ensures { writes self.new ≡ writes self.old };
}
