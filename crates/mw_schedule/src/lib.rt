//! Reads schedules. A schedule is a text that describes a world, and then says line by line which worker takes
//! which step. It plays the same each time.
//!
//! Used by: mwreplay.
#![tactic(auto)]

mod commands;
mod config;
mod fields;
mod first_words;
mod forms;
mod lines;
mod olds;
mod reader;
mod rest;
mod restarts;
mod schedule;
mod steps;

pub use forms::{LineForm, LineRule, broken_rule};
pub use reader::read_schedule;
pub use schedule::{Command, Schedule, ScheduleFault, ScheduleLine};
pub use steps::StepKind;
