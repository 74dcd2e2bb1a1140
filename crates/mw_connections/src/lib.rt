//! Connections of clients: what one is, what gives them, and both by TCP sockets and local sockets.
//!
//! A [`Listener`] gives connections. A [`Connection`] serves its client by one session, [`mw_session::Session::run`],
//! and then lets it read what it was told. [`listen_at`] makes a listener at a TCP address or by a local socket.
//!
//! With [`TimeLimits`], a session by a socket also ends if its client sends no byte, or takes none of a reply, for so
//! long, or if a line or a reply takes longer from its first byte to its last. Clients that send whole lines and take
//! whole replies cost no reading of a clock for this.
//!
//! With [`ClientListener::with_faults`] a session by a socket ends after so many lines with a fault, so that a program which
//! speaks another protocol isn't served on.
//!
//! With [`ClientListener::with_lease`] and [`BriefListener::with_lease`] a server without its [`Lease`] tells no word of its tenants:
//! the [`LeasedStream`] of a client asks it before each write of a text that needs one.
//!
//! A connection is closed so that the client can read all that it was told. After the session's end,
//! [`Connection::leave`] reads and drops what the client sends until the client closes its side, for a second at most.
//!
//! [`MeteredListener`] is a listener over another one, which counts its connections.
//!
//! [`Patient`] is a listener over another one. When the system has no room for a connection, it waits,
//! longer each time, and says so once.
//!
//! A [`VisitorListener`] gives a [`Visitor`], who stays for one HTTP request, and is answered by [`mw_http::exchange`].
//! [`listen_briefly`] makes one, for clients within [`BriefLimits`].
//!
//! Each of these clients is served as a [`Promise`] says that the type of the listener names. Nobody else has a client's
//! stream, so nobody can tell it anything else.
//!
//! Each reply is sent at once: a TCP connection is set not to hold back what is written to it. If the
//! system refuses that, the client is served all the same.
//!
//! - *What a contract says*: [`Connection::serve`] is one session, [`Visitor::exchange`] one exchange, only by a
//!   service or pages that keep the listener's promise.
//! - *Proved*: how long a wait may take by its limits, and what the streams for faults and leases tell of their
//!   calls.
//! - *Tested only*: sockets, and that waits end so (`scripts/check-scenes`, `scripts/check-sockets`,
//!   `scripts/check-limits`, `scripts/check-locks`).
//!
//! Used by: mw_workers, which serves connections; mw_server_pages, which answers visitors; mw_upkeep, which beats its leases;
//! mw_programs; mw_server, which listens for both. The proofs are about what a session read and wrote, and how long it may
//! wait; of sockets they say nothing. What a client or an operator sees of it is in docs/PROTOCOL and docs/OPERATING: change
//! them together.
#![tactic(auto)]

mod brief;
mod fault_limit;
mod lease;
mod leased_stream;
mod listening_socket;
mod local;
mod metered;
mod network;
mod patience;
mod peer;
mod promise;
mod sockets;
mod time_limits;
mod timed_stream;
mod visitors;

pub use brief::{BriefClient, BriefLimits, BriefListener, listen_briefly};
pub use lease::Lease;
pub use leased_stream::{AsksLease, ClientLease, LeasedStream};
pub use listening_socket::{Closer, ListeningSocket, OpensSockets};
pub use metered::{MeteredConnection, MeteredListener};
pub use network::Network;
pub use patience::{FIRST_PAUSE, LONGEST_PAUSE, Patient, RoomWatch};
pub use peer::{Connection, Listener};
pub use promise::{Anything, PagesPromise, Promise};
pub use sockets::{Client, ClientListener, listen_at, port_of};
pub use time_limits::TimeLimits;
pub use visitors::{Visitor, VisitorListener};
