//! Defines the traits of visitors, clients that stay for one request, and of what gives them.
//!
//! Used by: `brief.rt`; mw_server_pages, which answers them. Of a visitor nobody has the stream, so only pages that
//! keep what was promised of it can answer it. A new call needs a body in each implementation.
ghost use Rattle.std.specs.Prelude.{◌≡◌, List, IfOk, map, string_bytes};
ghost use Rattle.std.specs.declared.result.Result.{Result as Outcome};
ghost use Rattle.std.specs.declared.io.Error.{Error as IoError};
ghost use Rattle.mw_session.specs.StreamRecords.{ReadRecord, WriteRecord, no_reads, no_writes};
ghost use Rattle.mw_http.specs.Calls.{AreAnswered, Call};
ghost use Rattle.mw_http.specs.Exchanges.{IsExchange};
ghost use Rattle.mw_connections.specs.Promises.{PagesKeep};

use mw_http::{Exchanged, Pages};
use std::io;
use std::sync::Wait;

/// Gives visitors.
pub trait VisitorListener {
    type Visitor: Visitor + Drop;

    // Says what one call of `accept` may answer in a state, and which state it leaves then.
    ghost accepts: { Self → Outcome Self.Visitor IoError → Self → Type 0 };

    /// Takes the next visitor. Nobody may come, so this may wait for ever.
    ///
    /// # Errors
    ///
    /// As [`crate::Listener::accept`].
    fn accept(&mut self) -> io::Result<Self::Visitor>
        ensures accepts { accepts self.old result self.new }
        ensures fresh { IfOk result (λ visitor. (Self.Visitor.reads visitor ≡ no_reads) × (Self.Visitor.writes visitor ≡ no_writes)) };
}

/// A client that stays for one request. Dropping it closes its connection.
pub trait Visitor {
    // What was read from the client, as it was recorded.
    ghost reads: { Self → ReadRecord };

    // What was written to the client, as it was recorded.
    ghost writes: { Self → WriteRecord };

    // What the calls of the pages, in order, were answered as: only pages that keep to it may answer the client.
    ghost promised: { List Call → Type 0 };

    /// Receives the client's request, and answers it by these pages: one [`mw_http::exchange`]. Clients may call the server
    /// by these names, as [`mw_http::hear`] says. `keeps`: the pages keep what was promised of this client.
    fn exchange<P: Pages, R: Wait>(&mut self, rt: &R, pages: &mut P, names: &[String]) -> Exchanged
        requires keeps { PagesKeep P.answered promised }
        ensures exchange { IsExchange (map string_bytes names.now) (reads self.old) (reads self.new) (writes self.old) (writes self.new)
            (AreAnswered P.answered pages.old pages.new) result };

    /// Lets a client read all that it was told, before its connection is closed. Nothing more is written.
    fn leave<R: Wait>(&mut self, rt: &R)
        ensures { writes self.new ≡ writes self.old };
}
