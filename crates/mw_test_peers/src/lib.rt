//! What tests of other crates share. Peers of sessions: a reader and a writer that fail when they are told to, sweeps over
//! each place of failure, and a service in memory. They are here, on few libraries, because a function takes longer to
//! prove over many.
//!
//! Used by: mw_serving_tests, mw_engine_tests.
#![tactic(auto)]

mod peers;
mod shelf;
mod sweeps;

pub use peers::{Failure, Page, Sender};
pub use shelf::{Clerk, Shelf};
pub use sweeps::{INPUT, OUTPUT, replied};
