//! The world: a server with its tenants, workers and files, as one value that events change one at a time. All that
//! may happen to a server is a list of events, so what holds of every list of events holds of the server.
//! `mw_simulator` is a program that plays worlds.
//!
//! Read `specs/Definition` first. `State`, `Cells` and `Extent` define the state, `Events` the events, and `World`
//! what each event does, and whole runs. It uses `Turns` and `Changes` (a step on a shared word), `Calls` (a call on
//! a file), `Restarts`, and `StepLabels` and `LabelEffects` (what a step means for the marks and the history).
//! `specs/Files` defines a tenant's file, whatever disk it is on: its words and places, the calls on it, and what a
//! start finds of it.
//!
//! Then read `specs/Claim`. `Headline` is what must hold of every run. `Invariant` and `Obligations` are the
//! invariant. `BitExactness` is what running threads need of every run. `Examples` has runs that are computed.
//!
//! Used by: many crates from mw_book on. The theorem is about these definitions (docs/THEOREM.md): a change of
//! them is a change of what is proved.
#![tactic(auto)]

mod config;
mod events;
mod laws;
mod old_files;
mod outcomes;
mod statuses;
mod step_labels;

pub use config::{Config, Tenant};
pub use events::{Event, Interrupted, Stop};
pub use laws::{
    equal_marks_have_equal_replies, new_worlds_start, places_are_apart, runs_come_out, runs_extend,
    starts_keep_the_invariant,
};
pub use old_files::{OLD_ENTRIES, OLD_PLACES};
pub use outcomes::Outcome;
pub use statuses::{starts_from, status_after};
pub use step_labels::{Phase, StepLabel};
