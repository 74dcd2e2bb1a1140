//! Serves many clients at once, by an acceptor, a queue of connections, and workers.
//!
//! [`serve_all`] takes connections from a [`mw_connections::Listener`] and puts each into a queue of [`QUEUE`]. Each
//! worker has a service of its own. It takes one connection at a time out of the queue, serves it by one session,
//! [`mw_session::Session::run`], and closes it. A client that is slow, says nothing, or doesn't read its answers
//! holds only its own worker.
//!
//! If a connection may wait for a worker for so many seconds only, it waits in a longer queue ([`WAITING`]). A
//! further thread hands the oldest over to a worker that is free, or closes it in time.
//!
//! [`serve_beside`] also serves the clients of another listener, by a worker of their own. They take turns: one that
//! ends no line for a whole [`TURN`] gives way to one that waits.
//!
//! - *What a contract says*: [`accept_all`], which the acceptor runs, and [`serve_each`], which each worker runs,
//!   leave out no connection and keep the order. Each is served by one session, only by a service that keeps the
//!   listener's promise.
//! - *Proved*: [`serve_all`] and [`serve_beside`] ask for as many connections as are wanted.
//! - *Tested only*: [`crossbeam_channel`]'s queue between them: that a connection comes out of it once (`crowd_tests`
//!   of mw_serving_tests). Also that all workers begin, waits and turns (`scripts/check-scenes`, `scripts/check-crowd`).
//!
//! Used by: mw_server. The proofs are about which connection is put where, and what its session read and wrote; of
//! threads they say nothing. Change it with docs/PROTOCOL and docs/OPERATING.
#![tactic(auto)]

mod acceptor;
mod desk;
mod intake;
mod server;
mod usher;
mod worker;

pub use acceptor::accept_all;
pub use desk::{DESK_QUEUE, Desk, TURN, serve_beside};
pub use intake::Intake;
pub use server::{QUEUE, ServeEnd, serve_all};
pub use usher::WAITING;
pub use worker::serve_each;
