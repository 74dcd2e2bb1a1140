//! The parts of a world in memory: the shared words in bits, each slot's request, the tenants' marks, the workers,
//! and the tenants' files. The calls here each make one change of these; `mw_simulator` says which event makes which.
//!
//! Read `specs/Bits` and `specs/BitsMatch` (which shared words a list of bits represents) and `specs/StepsInBits`
//! (what a step does to them) first. `specs/BitPlaces` and `specs/Openings` say which words there are, and what they
//! are at a start. `specs/Claims`, `specs/Lines` and `specs/Workers` say what is kept beside them,
//! `specs/TenantBooks` what holds of the tenants' files.
#![tactic(auto)]

mod cells;
mod claims;
mod lines;
mod step_labels;
mod tenants;
mod workers;

pub use cells::Cells;
pub use claims::ClaimLog;
pub use lines::Lines;
pub use step_labels::label_of;
pub use tenants::TenantState;
pub use workers::WorkerState;
