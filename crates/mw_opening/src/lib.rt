//! Opens what a server needs before it serves: the tenants file, and each tenant's own file under a lock.
//!
//! [`read_tenants_file`] reads the tenants. [`open_files`] opens their files, each on a disk that [`LockedFiles`]
//! opens. [`sync_folders`] syncs their folders. Such a file is a [`WatchedFile`], which times its calls and counts them,
//! and keeps in a [`FileState`] what is known of it.
//! [`OpensPaths::open_plain`] opens a file only if it is plain. [`leads_elsewhere`] tells whether others have replaced a file.
//!
//! - *What a contract says*: [`open_files`] gives what an opening gave of each file, synced before and fit for its line.
//!   A tenant has none only for a cause. [`read_tenants_file`] gives the tenants of the text at its path.
//! - *Proved*: each disk is over what the runtime opened at the line's path, and the text is what the runtime read. A
//!   [`WatchedFile`] makes no call below but its own, and before a write a question of the length.
//! - *Tested only*: what the system has there, refusals, locks, folders, notes (`scripts/check-stories`, `scripts/check-locks`,
//!   `scripts/check-refusals`, `scripts/check-new-file`).
//!
//! Used by: mw_upkeep, mw_programs, mw_opening_tests. docs/OPERATING lists the notes and says which files a server opens: change them
//! together.
#![tactic(auto)]

mod file_fault;
mod file_state;
mod folders;
mod last_error;
mod opening;
mod plain_file;
mod replaced;
mod tenant_disks;
mod watched_file;

pub use file_fault::FileFault;
pub use file_state::{FRONT, FileState, FileStates, SeenFile};
pub use folders::{SyncsFolders, sync_folders};
pub use last_error::LastError;
pub use opening::{TenantsFault, open_files, read_tenants_file};
pub use plain_file::{ReadFault, read_plain};
pub use replaced::{SeesPaths, leads_elsewhere};
pub use tenant_disks::{LockedFiles, Opened, OpensDisks, OpensPaths, TenantDisk};
pub use watched_file::WatchedFile;
