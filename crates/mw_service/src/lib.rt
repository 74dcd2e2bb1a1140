//! Answers what sessions ask of the engine: by a worker that has a pass of its own, or with a pass that is borrowed for
//! each request.
//!
//! A pass is the capability to make one worker's steps, so there are as many requests under way as there are passes. A
//! [`Worker`] keeps its pass as long as it serves. A [`Borrower`] has none: for each request of its session it borrows
//! one from a pool, so that many sessions share few passes. It keeps a note of what its session has seen, and the pass
//! that it borrows learns from the note before the request. So a value, a YES and a NO are right at a place in the
//! tenant's history that is no earlier than what the session has seen, whichever passes it borrows.
//!
//! A [`PassPool`] counts its passes that are in use, and the requests that waited for one.
//!
//! Each reply of a [`Borrower`] comes with the token of its request, from the source that goes with the pass. No two
//! borrowers have one token ([`TokenTable`]), so no two are told the reply to one request. A borrower serves one session at a time.
//!
//! `specs/Served` says what a worker answers, `specs/Borrowed` what a borrower answers, `specs/OwnReplies` that each reply is to a
//! request of its borrower's own, and `specs/SessionOrder` that its replies come in order.
//!
//! - *What a contract says*: each reply is right in its tenant's history, or has its evidence (`answered`).
//!   [`Worker::run`] says it of a session.
//! - *Proved*: a session's replies are in order, whichever passes it borrows ([`replies_are_in_order`]).
//! - *Tested only*: tickets of passes, that reads use the passes for reads and changes the others, notes on failed
//!   files (`scripts/check-crowd`), counts and times.
//!
//! Used by: mw_programs; mw_law_threads has laws about it. `wrong-bodies` edits some bodies.
#![tactic(auto)]

mod borrower;
mod idle_pass;
mod laws;
mod locked_passes;
mod pass_pool;
mod read_pool;
mod request_tokens;
mod served;
mod token_rule;
mod token_views;
mod worker;

pub use borrower::Borrower;
pub use idle_pass::IdlePass;
pub use laws::replies_are_in_order;
pub use pass_pool::PassPool;
pub use read_pool::ReadPool;
pub use request_tokens::{NewTokenTable, TokenBrand, TokenTable};
pub use worker::Worker;
