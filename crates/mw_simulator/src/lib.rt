//! A simulator. It plays a world in memory, an event at a time, and does what the definition of a world (`mw_world`)
//! says. You can play it by hand with `mwreplay`.
//!
//! Read `specs/Representation` (which world a world in memory represents) and `specs/Events` (what each public call
//! promises) first. `specs/Invariant` and `specs/ServiceAlone` say what holds after every run, `specs/UnchangedParts`
//! what a refused event leaves unchanged, and `specs/Images` what a crash leaves of a tenant's disk.
//!
//! The other files of `specs` are about parts: `StepParts` a step, `CallEnds` and `Crashes` a call on a file,
//! `Starts`, `Quotas` and `Stops` a start. mw_world_memory has the parts of a world in memory.
//!
//! - *What a contract says*: [`World::step`] makes an event happen as defined, or changes nothing. The theorem holds
//!   of what was played (`serves`).
//! - *Proved*: a crash leaves the words of the tenant's store alone, with the change in doubt or without
//!   ([`every_image_is_of_store`]).
//! - *Tested only*: that a start goes by the image of the cut call's own bytes (`torn-gate` of scripts/text_parts).
//!
//! Used by: mw_world_trials, mw_table_tests, mwreplay.
#![tactic(auto)]

mod faults;
mod laws;
mod world;

pub use faults::{MOST_REQUESTS, WorldFault};
pub use laws::{every_image_is_of_store, file_calls_lead_to_one_disk, starts_find_one_thing};
pub use mw_world_memory::{TenantState, WorkerState};
pub use world::World;
