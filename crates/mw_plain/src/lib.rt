//! The plain store: a store without threads, with which tests compare the engine. Every tenant's words are over its
//! own file, and one call is made at a time.
//!
//! Two calls serve a change. `start` counts a slot of the tenant's quota for it, and prepares it in the tenant's
//! file. `finish` compares the words, and then writes them or gives the change up. `ask` does both, and `run` asks
//! for one job after the other. Each call is proved to answer as the tenant's store alone does, and to leave the same
//! words, slots and fault, whatever the devices do. It leaves every other tenant as it was.
//!
//! - *What a contract says*: how each call answers, as the tenant's store alone does, and what a crash in it leaves
//!   (`answers`).
//! - *Proved*: a call's marks are legal ([`marks_of_a_call`]), and a start may go on from what a crash leaves
//!   ([`a_restart_goes_on`]).
//! - *Tested only*: that the engine answers in the same way (`answers_and_fails_as_the_plain_store` of
//!   mw_engine_tests). No contract joins the two.
//!
//! [`Lone`] is one tenant's store alone in code: it takes mark by mark what `specs/Store` of mw_lone says, and hands
//! out its replies. With it mw_world_trials judges runs of the world.
//!
//! Used by: mw_words_tests, mw_engine_tests, mw_world_trials: tests alone. A new kind of job or mark begins in
//! `specs/Cases`, a new mark in `lone.rt` too.
#![tactic(auto)]

mod asked;
mod changes;
mod laws;
mod loaded_file;
mod lone;
mod plain;
mod restarts;
mod tenant;
mod tickets;

pub use laws::marks_of_a_call;
pub use lone::{Lone, LoneFault};
pub use plain::Plain;
pub use restarts::a_restart_goes_on;
pub use tickets::{Start, Task, Ticket};
