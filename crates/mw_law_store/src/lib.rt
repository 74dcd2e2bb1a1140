//! The proof that a store alone (mw_lone, the sequential specification of one tenant) simulates each tenant's part of
//! a world. In every run each event but a start makes at most one relaxed step of the store. If there are numbers
//! left it is a legal step.
//!
//! `specs/Late` has what each mark (one atomic step in a tenant's serial history) does to a store alone, and that a
//! mark may be put in late, at a place reserved for it. Such a position of the history stays empty until it is known
//! whether its step took place. A new mark needs a case in `specs/Late/MarkEffects` and `specs/Late/LateMarks`, and
//! in the proofs; CONTRIBUTING lists the rest under *A mark*.
//!
//! Used by: mw_rule, mw_simulator, mw_law_threads.
#![tactic(auto)]

mod file_laws;
mod late_laws;
mod laws;

pub use file_laws::{
    calls_can_be_made, calls_keep_files, comes_keep_files, events_keep_files, every_run_holds,
    hands_keep_files, outside_leaves_room, ready_events_happen, runs_are_enabled, runs_have_files,
    starts_find_words, starts_have_files, turns_keep_files,
};
pub use late_laws::{
    a_late_mark_comes_out, late_marks_are_legal, lines_are_run, marks_do, places_stay_reserved,
    replies_commute, runs_number,
};
pub use laws::{
    attempts_are_numbers, changes_fit, every_run_is_durably_linearizable,
    labels_keep_history_match, late_marks_leave_replies, marks_are_own, quotas_are_told,
    reads_turn_back_for_three_reasons, replies_are_linearized, replies_have_places,
    requests_have_begun, runs_are_not_worn, runs_are_simulated, runs_have_world_facts,
    sealed_changes_go_on, sealed_come_in_order, seals_are_held, words_are_of_marks,
};
