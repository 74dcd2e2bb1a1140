//! Writes a server's notes for whoever runs it.
//!
//! [`Notes`] writes each note on a line of its own, and waits for nobody if its writer doesn't. [`PromptErrors`] is such a writer: a
//! program's standard error.
//!
//! Nothing is proved of either. docs/OPERATING tells the forms and the limits, and scripts/check-limits tries one.
//!
//! Used by: mw_opening, mw_upkeep, mw_server, mw_programs.
#![tactic(auto)]

mod notes;
mod standard_error;

pub use notes::{NoteForm, Notes, note_cause, note_place, note_why};
pub use standard_error::PromptErrors;
