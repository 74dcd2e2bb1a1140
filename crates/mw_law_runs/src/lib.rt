//! Proves a property of the world (a model of a whole server) that every event keeps: the world is *sound*
//! (`specs/RunInvariant`). It says nothing of files, or of marks, the events of a tenant's history.
//!
//! It rests on three groups of laws, each in a folder of `specs` and of `proofs`:
//!
//! - `Requests`: what holds of every run of one request, whatever its steps find: its tenant, its pins and its slots,
//!   the order of its steps, and the order of the words that it holds.
//! - `Moves`: the elementary changes of which every step on the shared words is made, each with its precondition, and
//!   what every such move keeps.
//! - `Counts`: how many pins each slot has, and how many slots each tenant's door counts. A door is a tenant's counter of
//!   slots in use. A gate is a slot's word, with a flag that it is taken, a count of its pins and a sequence number.
//!
//! `specs/Obligations` says who releases the words of a change. A slot is a change's descriptor, a pin a reference to
//! it. A word that is held for a refused change has a releaser: a request that works on the change. While a change
//! isn't done with, its worker's request is there, or its pin was left behind.
//!
//! Used by: mw_law_store, mw_rule, mw_law_threads. A new point of a request's program needs a case in
//! `specs/Knowledge/Points`.
#![tactic(auto)]

mod count_laws;
mod knowledge_laws;
mod laws;
mod move_laws;
mod request_laws;

pub use count_laws::{
    events_keep_counts, exchanges_are_exact, pool_has_room, runs_keep_counts, starts_count_right,
    who_frees_is_alone,
};
pub use knowledge_laws::{
    calls_inform, facts_stay, live_slots_go_on, live_slots_stay, moves_have_guards,
    others_keep_own, reads_inform, updates_inform,
};
pub use laws::{
    callers_status_stays, calls_keep_releasers, calls_keep_sound, comes_keep_sound,
    counts_have_rest, events_keep_sound, hands_keep_sound, last_pins_are_free,
    pinned_gates_keep_their_numbers, places_are_there, requests_release_their_words,
    runs_are_bit_exact, runs_are_sound, short_runs_have_numbers, starts_are_sound,
    steps_keep_releasers, turns_keep_sound,
};
pub use move_laws::{
    events_tell_points, exchanges_are_typed, memory_is_shared, moves_keep_memory,
    moves_keep_values, others_may_rely, starts_have_memory, steps_are_moves, steps_keep_memory,
};
pub use request_laws::{
    file_calls_are_of_pinned_slots, gates_are_moved_by_the_rules, last_pins_are_freed, plants_rise,
    replies_give_back, requests_stay_with_their_tenant, steps_come_in_turn,
};
