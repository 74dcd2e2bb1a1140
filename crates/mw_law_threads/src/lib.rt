//! Laws of running threads: what the rule of the shared words (mw_rule), the engine and the service give a client. Each group has
//! a folder of `specs` and of `proofs`:
//!
//! - `Moments`: each reply but WORN was true at a moment between the arrival of its request and the reply itself. So the
//!   moments keep the order of real time: if a request comes after another's reply, its moment is later.
//! - `Whole`: each change in a tenant's file is just what one request of that tenant asked for: no part of it, and no more. A
//!   request that was answered VAL, NO or BUSY makes no change.
//! - `History`: the replies of all passes are right in one history, at every moment of the shared words, whether the passes
//!   ever meet or not; and each was right at a moment of its own call. That the rule holds at every moment is the contract
//!   of the kit's atomic_table, in which the words are.
//! - `Durable`: a change that was answered YES is in every file that a crash may leave, and any other is there wholly or not
//!   at all.
//! - `Sessions`: sessions that borrow a pass for each request. The token of each is its own.
//! - `NextRuns`: one store alone takes what a server did before a start, the start, and what the next server did, and so on for
//!   any number of servers, and of their tables.
//!
//! Of `Durable` these laws hold on an honest disk:
//!
//! - [`calls_keep_changes`]: the calls that the same pass makes on the tenant's file after the reply. A crash during such a
//!   call, or after it and before the next, leaves a file with the change if the reply was YES. Else the change is in it
//!   wholly or not at all.
//! - [`every_moment_leaves_whole_changes`]: at each moment at which the shared words are under their rule, also during a call
//!   on that file, whoever makes it. The changes are those of the one run of the world that ties the shared words to the
//!   model. It is the run in which `History` finds all replies.
//! - [`locks_leave_whole_changes`]: the lock of a file tells it too, of each crash since the start.
//! - [`starts_find_changes`]: a start that opens what such a crash left finds these changes. `specs/Durable/Starts` defines that.
//! - [`engines_start_with_changes`]: an engine that is made of what was opened so starts with these changes.
//!
//! Of sessions, with `--clients` or without, `specs/AfterReplies` says what holds after each reply. mwserve promises it (its
//! `specs/Promised`), and `proofs/AfterReplyLaws` proves it. One that borrows its passes has a note, which tells the run that the pass
//! knew. Whichever passes any session borrows later, the change of a YES stays in the tenant's file.
//!
//! Not said:
//!
//! - The premises of the second law of `Durable`, and of `AfterReply (kept, wholly)`, hold of an engine. One is that the pass that was answered, and the thread that
//!   has the file, are of one table under its rule. Between two calls another is that the lock keeps the book with the file
//!   pass. The contracts of `atomic_table` and the invariant of `GuardedFile` are the reasons for them. No clause of
//!   [`Engine::serve`] names them.
//! - That a call's device calls are over when its event comes. The body of `Core::file` of mw_core makes them before.
//! - The change that a call seals fits the words before it. This is said of the change in doubt between calls (`Whole`), and
//!   of each sealed change.
//!
//! Used by: mwserve, for its promise. Its laws are theorems about mw_rule, mw_engine and mw_service, which nothing uses.
//!
//! [`Engine::serve`]: mw_engine::Engine::serve
#![tactic(auto)]

mod durable_laws;
mod history_laws;
mod moment_laws;
mod next_run_laws;
mod whole_laws;

pub use durable_laws::{
    calls_keep_changes, engines_start_with_changes, every_moment_leaves_whole_changes,
    locks_leave_whole_changes, starts_find_changes,
};
pub use history_laws::every_moment_has_one_history;
pub use moment_laws::replies_have_moments;
pub use next_run_laws::{
    crashes_leave_next_runs, servers_in_turn_are_of_one_store, stores_go_on,
    tables_in_turn_are_of_one_store,
};
pub use whole_laws::{changes_are_whole, refused_requests_make_no_change};
