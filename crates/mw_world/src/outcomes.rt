//! How the device takes a call on a file: no device call fails, or the one with this number.
//!
//! Used by: events, mw_world_file, mw_simulator, mw_schedule, mwreplay, mw_world_trials. A new kind needs a case in
//! `specs/Definition/Calls`, and in `src/calls.rt` and `specs/CallEffects` of mw_world_file.

/// How the device takes a call on a file.
#[derive(Clone, Copy, PartialEq, Eq)]
pub enum Outcome {
    /// No device call fails.
    Good,
    /// The device call with this number fails. Numbers count from 1 in the call on the file.
    Fail(u64),
}
