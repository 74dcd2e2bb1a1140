//! Defines the trait of a place where connections wait for a worker.
//!
//! `server.rt` and `usher.rt` implement [`Intake`], and `acceptor.rt` and `desk.rt` put connections there. A new call
//! needs a body in each.
use std::sync::Wait;

/// Takes connections, which wait here for a worker.
pub trait Intake<C> {
    // Says which state may follow this one after the connection was put here.
    ghost puts: { Self → C → Self → Type 0 };

    /// Puts the connection here. There may never be room, so this may wait for ever. A connection that
    /// can't wait here is closed.
    fn put<R: Wait>(&mut self, rt: &R, connection: C)
        ensures { puts self.old connection self.new };
}
