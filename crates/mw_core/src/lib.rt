//! The lock-free core: requests that threads drive on shared words, one step at a time.
//!
//! A thread has a pass, and the machine of the request that the pass carries. [`Core::begin`] makes the request's
//! first step. Each [`Core::advance`] makes one atomic step of it, until the request has its reply, or a call on the
//! tenant's file is next. [`Core::file`] makes that call, on the tenant's [`Book`] and with its [`FilePass`], which
//! the caller keeps together under a lock. [`Core::try_look`] makes one round of a read: up to its reply, or back to
//! its first point, and then it says why ([`WhyAgain`]).
//!
//! `specs/Steps` says what `begin`, `step` and `advance` do, `specs/FileCalls` what `file` does, `specs/ReadRounds`
//! and `specs/Reasons` what `try_look` does, and `specs/Books` when a book and a file token agree.
//!
//! - *What a contract says*: each step is the one that the request's program names, and extends a run of the world.
//!   [`Core::file`] makes the due call on the book.
//! - *Proved*: a book and a file token that agree do so after each call (`laws.rt`).
//! - *Tested only*: that threads' requests get replies (mw_engine_tests), and ask for no memory
//!   (`scripts/check-memory`).
//!
//! Used by: mw_engine, mw_table_tests; mw_programs and mw_law_threads, in contracts.
//!
//! [`Book`]: mw_book::Book
#![tactic(auto)]

mod calls;
mod file_calls;
mod laws;
mod read_rounds;

pub use calls::{Advance, Core};
pub use file_calls::waiting_change;
pub use laws::{books_follow_file_tokens, new_books_agree};
pub use mw_book::Waiting;
pub use mw_table::{FileOpening, FilePass, Note, Pass, Shared};
pub use read_rounds::WhyAgain;
