//! A server but its engine: the addresses at which it listens, and the threads that serve clients, show its pages, beat its
//! lease, and look at its tenants' files.
//!
//! [`serve_clients`] opens the addresses, and serves whoever comes by the services that it is given. A [`MeteredService`] is a
//! service over another one, which times its requests and counts them.
//!
//! - *What a contract says*: [`serve_clients`] is for services and pages that keep what the network promises its clients.
//!   [`workers_of`] is as many workers as a command line asks for.
//! - *Proved*: how many descriptors a server needs (`specs/Descriptors`).
//! - *Tested only*: sockets, threads, what is printed and noted (`scripts/check-stories`, `scripts/check-limits`,
//!   `scripts/check-sockets`).
//!
//! Used by: mw_programs. docs/OPERATING tells what an operator sees of it: change them together.
#![tactic(auto)]

mod addresses;
mod clients;
mod descriptors;
mod metered;
mod pages;
mod worker_count;

pub use clients::{Server, serve_clients};
pub use descriptors::{has_room, has_stack_for};
pub use metered::MeteredService;
pub use pages::{counted, counted_in};
pub use worker_count::{capacity, workers_of};
