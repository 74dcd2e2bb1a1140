//! A tenant's file of words. Each change becomes durable in it, wholly or not at all.
//!
//! A change goes through one place of the file:
//!
//! - `prepare` writes the change's record into the lowest free place, `prepare_at` into a given one.
//!   `prepare_all` prepares several changes by one sync.
//! - `seal` sets the place's commit byte. From then on the change is in the file.
//! - `settle` writes the change's values into the home words, then clears the commit byte. `settle_all` does
//!   this for all sealed changes at once, which share its two syncs.
//! - `seal_with` and `settle_all` also prepare changes ahead: they write the records of these before their sync.
//! - `cancel` gives up a prepared change.
//! - `open` reads a file and finishes the changes that were sealed and not settled.
//! - `copy_bytes` gives the bytes of an open file, as a backup of it. It changes nothing.
//!
//! In the field's terms: the places are a redo log, and a home word is the data in place. `seal` commits, `settle` is
//! a checkpoint, and `open` recovers by redoing what was committed.
//!
//! A new file has its first layout only. Its first opening adds a second layout, with the file's words and twice as
//! many places, and sets the switch byte. From then on no call writes to the first.
//!
//! A crash may come at any moment of a call, of an opening, or of the opening after it. If the device keeps the model
//! of [`mw_disk::Disk`], the crash leaves the words with every sealed change. A change that was being sealed is there
//! wholly or not at all.
//!
//! - *What a contract says*: how each call ends, its device calls in order, the states of the places then, and what a
//!   crash at any moment of it leaves (`safe`; of `open`, `opens`).
//! - *Proved*: what a crash leaves, in a call or an opening, is undamaged (`laws.rt`).
//! - *Tested only*: that an opening with enough memory goes well (`opening_tests` of mw_file_tests).
//!
//! Used by: many crates from mw_config on. A change of a contract changes what these promise.
#![tactic(auto)]

mod laws;
mod migration;
mod new_changes;
mod opening;
mod place_states;
mod roll;
mod tenant_file;

pub use laws::{
    crash_in_an_opening, crash_of_a_file, one_sealed_place_settles_alone, places_are_counted,
    the_device_fails_where_it_is_told,
};
pub use new_changes::NewChange;
pub use opening::OpenFault;
pub use place_states::{PlaceState, Stage, Writes};
pub use tenant_file::{CopyFault, FileFault, Place, TenantFile};
