//! A disk in memory, and a tenant's file on it: what tests and the simulator have in place of a real one.
//!
//! Calls of a [`MemDisk`] fail when its script says so, and a crash leaves the bytes that the caller chooses. `memory_file.rt` has
//! such calls for a file.
//!
//! - *What a contract says*: what each call leaves, and which images a crash may leave.
//! - *Proved*: a [`MemDisk`] is honest. The same calls lead to one disk, the same torn bytes to one image.
//!
//! Used by: mw_world_file, mw_simulator, tests. The server doesn't stand on it. The disk model is mw_disk's.
#![tactic(auto)]

mod edits;
mod event;
mod history;
mod laws;
mod memory;
mod memory_file;
mod spans;

pub use laws::{calls_determine_the_disk, torn_bytes_determine_the_image};
pub use memory::MemDisk;
pub use memory_file::{copy, crash, fail_next, refused, stop_next};
