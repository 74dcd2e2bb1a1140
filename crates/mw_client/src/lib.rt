//! A client of the server, for programs in Rattle: what each call sends, and what each reply means.
//!
//! [`Client`] is a session for one tenant, and [`Administrator`] one for the administrator, who may ask for the
//! report: each over any reader and writer. [`connect`] and [`connect_administrator`] make them by a socket.
//!
//! Below both, [`exchange`] sends one request and reads its reply. [`request_text`] gives the line of a request,
//! which the server's reader reads as that request ([`what_is_sent_is_read`]). [`read_reply`] tells which reply a
//! line is.
//!
//! - *What a contract says*: a call tells what its reply means, or that it was lost. A YES confirmed the words of
//!   [`Client::read`].
//! - *Proved*: the server reads a request's line as that request, and [`read_reply`] accepts just the protocol's
//!   replies.
//! - *Tested only*: that a reply which came is not told as lost, patience, and sockets (mw_serving_tests).
//!
//! Used by: mw_client_c, mwbench, mw_serving_tests. docs/CLIENTS describes it for users: change both together.
#![tactic(auto)]

mod administrator;
mod client;
mod conversation;
mod laws;
mod meanings;
mod pauses;
mod replies;
mod report;
mod requests;
mod wire;

pub use administrator::Administrator;
pub use client::Client;
pub use conversation::{exchange, next_reply};
pub use laws::what_is_sent_is_read;
pub use meanings::{Failure, Outcome, outcome_told, value_told};
pub use pauses::Pauses;
pub use replies::read_reply;
pub use report::next_report;
pub use requests::{LineText, MAX_SENT, request_text};
pub use wire::{SocketAdministrator, SocketClient, connect, connect_administrator};
