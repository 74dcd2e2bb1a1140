//! A tenant's file in memory, for the simulator: on a disk in memory, with the words that it represents, its places
//! and the change in doubt beside it: a *book* here, a [`SimulatedFile`].
//!
//! A call on a book makes a new book and leaves the old one. The caller says which device call fails, if one does.
//! `restart` makes the book after all stopped, also in the middle of a call, and started again.
//!
//! What a tenant's file is in a world, whatever disk it is on, `specs/Files` of mw_world defines.
//!
//! Used by: mw_world_memory, mw_simulator, mw_table_tests.
#![tactic(auto)]

mod calls;
mod changes;
mod cut;
mod device;
mod faults;
mod laws;
mod new_books;
mod opened;
mod opening;
mod places;
mod restarts;
mod simulated_file;
mod start_values;
mod stops;
mod unopened;

pub use cut::Cut;
pub use faults::BookFault;
pub use laws::{calls_lead_to_one_disk, restarts_have_one_end, stops_leave_one_image};
pub use simulated_file::SimulatedFile;
