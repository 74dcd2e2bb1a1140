//! A tenant's open file as running threads keep it: the file itself, on any disk, and the place of each slot's
//! change.
//!
//! Whoever holds the tenant's lock makes the calls. Each call tells whether the device failed. After the first
//! failure only a cancel does anything, until the file is opened again.
//!
//! A book represents files as the world's definitions know them (`File` of `mw_world`): the words, the places
//! with their changes, the place of each slot, whether the file has failed, and the change in doubt. If a book
//! represents a file before a call, it represents after the call the file that the world has then. A call that the
//! world can make on the file may be made on the book.
//!
//! What is said of bytes, of the number of device calls, and of which one failed holds on a disk that keeps the model
//! of [`mw_disk::Disk`]. What is said of answers and of faults holds on every disk.
//!
//! - *What a contract says*: what [`Book::call`] answers, which file the book represents then, what a crash in it
//!   leaves (`specs/CallOutcome`). A copy has just the file's words.
//! - *Proved*: what a crash between calls leaves, and a lone change's device calls (`laws.rt`).
//! - *In no contract here*: that a crash in a call leaves as many places; those of mw_file say it.
//!
//! Used by: mw_engine, which keeps a book for each tenant; mw_core, which makes the calls, and to which these
//! contracts are promised; mw_turns, which asks for written records; mw_law_threads, in contracts.
#![tactic(auto)]

mod answers;
mod book;
mod laws;
mod place_table;
mod waiting;

pub use answers::Filed;
pub use book::Book;
pub use laws::{
    a_change_alone_makes_the_listed_calls, calls_that_can_be_made, crash_between_calls,
    files_that_are_alike,
};
pub use place_table::PlaceTable;
pub use waiting::{MOST_AHEAD, Waiting};
