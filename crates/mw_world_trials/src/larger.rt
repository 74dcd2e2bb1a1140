//! Plays random runs of larger worlds. After every event, all that must hold of a world is checked, as far as the
//! readers of a world show it. This file only lists its modules.

mod clauses;
pub(crate) mod past;
mod pins;
mod planted_faults;
pub(crate) mod seen;
mod tests;
