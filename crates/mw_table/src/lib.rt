//! The shared words of running threads: a table of atomic words. Each thread makes the steps of its requests on it,
//! one word at a time.
//!
//! Between any two steps, some run of the world leads to the words in the table, and what the threads know is true
//! after that run (`mw_rule`). A thread steps with a [`Pass`], the capability to make one worker's steps.
//!
//! [`Shared::new`] makes a table and its passes at a start, [`Shared::of_run`] after a run from a new world. `begin`
//! makes a request's first step, with which it comes. Each further step is one call: `step` makes whichever step is
//! next, `load` and the calls of `steps_by_kind.rt` one kind each, if it is the next one (`IsNextStep` of `mw_rule`).
//! The pass learns what the step found (`LearnsStep`), and `event` says which events extend a run of the world. If a
//! step brings the reply, the reply is handed out with it, and `Pass::rest` makes the pass idle again.
//!
//! When a request comes to a call on its tenant's file, its pass takes the file's [`FilePass`] by `take`;
//! [`Shared::new`] gives one for each tenant. `find_status` loads the status of the change, from which the call
//! starts or doesn't (`starts_from` of `mw_world`). When the caller has made its device calls, `end_call` or `fault`
//! ends the call. `give_back` gives the file back, with what is known of it then.
//!
//! Some calls are no step of a request, and add no event. `figure` loads a word. `meet` lets two passes see what
//! either has seen. `note` makes a [`Note`] of what a pass has seen, from which another pass may `learn`. No call
//! waits, and none but `new` and `of_run` allocates memory.
//!
//! Read first: `specs/Passes` and `specs/NewPasses` say what a pass is; `specs/Basis`, `specs/TableAtStart` and
//! `specs/Runs` what a table begins with; `specs/NewFilePasses` and `specs/FileCalls` what a file pass is, and what a
//! call on the file requires.
//!
//! - *What a contract says*: what the pass learns by a step (`took`), and which events extend a run by it (`event`).
//! - *Proved*: by the type of [`Shared`], the table is under the rule of mw_rule at each moment, with all that passes
//!   know.
//! - *Tested only*: that a step asks for no memory (`scripts/check-memory`). mw_table_tests play races of two
//!   threads.
//!
//! Used by: mw_core, mw_table_tests; mw_law_threads, in contracts. A new kind of step comes with its case in mw_look
//! (`specs/Steps`) and mw_rule.
#![tactic(auto)]

mod after_run;
mod at_start;
mod file_call_steps;
mod file_calls;
mod file_pass;
mod first_steps;
mod meet;
mod new_table;
mod next_step;
mod note;
mod notes;
mod origin;
mod passes;
mod places;
mod run_before;
mod shared;
mod steps;
mod steps_by_kind;

pub use file_pass::FilePass;
pub use note::Note;
pub use origin::{FileOpening, Origin, TenantSoFar, WorkerSoFar};
pub use places::{has_place, place_at};
pub use run_before::RunBefore;
pub use shared::{Pass, Shared};
