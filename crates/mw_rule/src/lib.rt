//! The rule that ties the shared words of running threads to the world, a model of a whole server. Between any two
//! steps, some run of the world leads to the bits in the table, and what each thread knows is true after that run.
//! `mw_table` makes the steps.
//!
//! Read in this order:
//!
//! - `specs/Layout`: the index of each shared word. `specs/Ways`: what each kind of step makes of a word's bits.
//! - `specs/Rule`: the rule, and what one thread's knowledge means. `specs/KnownRuns`: the table's run as a thread
//!   knows it. `specs/RunBehind`: the run behind what a thread knows, with its requests. `specs/Evidence`: what the
//!   replies BUSY, FAULT and WORN rest on.
//! - `specs/Steps`: what a step requires of the thread that makes it, and what the thread learns. `specs/FileCalls`:
//!   the same for a call on a file. `specs/WholeCalls`: the same for a whole request.
//! - `specs/Calls`: which step on one shared word is a file call's event, and what stays until then. Also the file
//!   token, the ghost capability to call one file, which one thread has at a time.
//! - `specs/Splits`: how threads split and merge what they know.
//! - `specs/Laws`, `specs/RunEvents`, `specs/WordActions` and `specs/StoreAlone`: what is proved of all these.
//!
//! Used by: mw_table, mw_service, mw_law_threads, mw_table_tests. A change of `specs/Rule` or `specs/Steps` changes
//! the contracts of mw_table. A new fetch needs a case in `specs/Ways` and `way_of` (`src/ways.rt`).
#![tactic(auto)]

mod call_laws;
mod file_token;
mod indexes;
mod laws;
mod rule;
mod views;
mod ways;

pub use call_laws::{
    calls_are_made_by_file_token, calls_can_start, calls_change_no_more, calls_end,
    calls_end_by_file_token, calls_have_words, file_tokens_follow_files, file_tokens_tell_files,
    file_tokens_tell_tenants, others_leave_files, requests_go_on_from_calls, statuses_wait,
};
pub use file_token::{FileToken, PlaceKept};
pub use indexes::{LINE, SLOT_WIDE, SLOTS_FROM, index_of};
pub use laws::{
    calls_are_noted, file_calls_are_events, file_calls_keep_the_rule,
    finished_are_of_the_store_alone, knowledge_stays_right, moves_are_of_the_run,
    places_stand_apart, steps_keep_the_rule, tables_start_under_the_rule, the_run_goes_on,
    what_is_known_is_parted,
};
pub use rule::{Begins, Deals, GivesFile, Learns, Meets, Merges, Notes, TakesFiles, WorldRule};
pub use views::{
    Finding, Finished, FoundStatus, HeldFile, KnownRun, KnownStart, PlainLoad, Sealed, View,
    WorkerEvent, WorkerToken,
};
pub use ways::{Way, way_of};
