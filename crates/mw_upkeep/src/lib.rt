//! What a server does beside serving: it beats its lease, looks at its tenants' files, ends if it has to, and tells what
//! went wrong.
//!
//! A [`HeldLease`] is the lease of a server that has one. [`TenantNotes`] notes what happens to tenants' files, and
//! [`RoomNotes`] want of room. [`look_on`] looks once in each period. [`ServerEnd`] ends a server while its threads run. A
//! [`ServeFault`] is why nothing more is served.
//!
//! - *What a contract says*: [`refuse`] gives 0 only for what a command line asks to be told. A thread that serves apart has
//!   the words of the program ([`ServedApart`]).
//! - *Tested only*: leases, threads, what is printed and noted (`scripts/check-stories`, `scripts/check-locks`,
//!   `scripts/check-prometheus`), and the pace of notes on room (`room_tests` of mw_opening_tests).
//!
//! Used by: mw_server, mw_programs; mw_opening_tests, for its notes on room. docs/OPERATING tells what an operator sees of it:
//! change them together.
#![tactic(auto)]

mod beats;
mod console;
mod ending;
mod fault_notes;
mod lease_file;
mod looks;
mod room_notes;
mod serve_fault;
mod wrong_lines;

pub use beats::{HeldLease, LeaseLook};
pub use console::{Address, Console};
pub use ending::{FILE_LOST, ServedApart, ServerEnd, ends_on_failure};
pub use fault_notes::TenantNotes;
pub use lease_file::OpensLeases;
pub use looks::{FileLook, PERIOD, Stop, look_on};
pub use room_notes::RoomNotes;
pub use serve_fault::ServeFault;
pub use wrong_lines::refuse;
