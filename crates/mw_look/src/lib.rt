//! The program of a read as a state machine, and the types of all requests' steps on shared words.
//!
//! A request is a machine: it asks for its next step, a worker makes that step on the shared words, and tells the
//! machine what it found.
//!
//! Read `specs/Places` and `specs/Observations` (the value at a place, its bits, and what a machine is told of them),
//! `specs/Steps` (what a machine asks for) and `specs/Program` (a read). `specs/PlacePatterns` claims facts about
//! places, `specs/Runs` about the runs of a read.
//!
//! Used by: many crates from mw_actor on, which has a read in each request. A change of `specs/Program` changes the
//! algorithm of a read, and its laws.
#![tactic(auto)]

mod laws;
mod look;
mod observations;
mod points;
mod steps;

pub use laws::{
    places_have_patterns, reads_are_under_pin, reads_change_only_pins, reads_stay_at_their_word,
    replies_are_of_the_word, replies_give_back,
};
pub use look::Look;
pub use observations::{Got, Observation, Told};
pub use points::{After, Point, Trail};
pub use steps::{Call, Kind, Op, Shape};
