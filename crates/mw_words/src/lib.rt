//! Defines the types that every layer of the server uses: limits, entries, jobs, replies, and the shared words of 64
//! bits.
//!
//! Every layer uses these types. Their bounds and bits are in `specs/`: `Change` (jobs), `Name`, and `Patterns` (the
//! shared words).
#![tactic(auto)]

mod doors;
mod gates;
mod jobs;
mod limits;
mod names;
mod places;
mod replies;
mod rows;
mod statuses;
mod words;

pub use doors::Door;
pub use gates::Gate;
pub use jobs::{Entries, Entry, Job, copy_of, is_change, rises};
pub use limits::{
    MAX_CONNECTIONS, MAX_ENTRIES, MAX_LINE, MAX_NAME, MAX_PATH, MAX_PINS, MAX_PLACES, MAX_POOL,
    MAX_QUOTA, MAX_TENANTS, MAX_TENANTS_FILE, MAX_VALUE, MAX_WORDS, MAX_WORKERS, WORN_NUMBER,
};
pub use names::{Name, copy_of_name, is_name};
pub use places::At;
pub use replies::Reply;
pub use rows::Row;
pub use statuses::Status;
pub use words::Word;
