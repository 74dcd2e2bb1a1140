//! The disk on which a tenant's file is kept: the model of what a read gives and what a crash may leave.
//!
//! [`Disk`] is the trait, and `device.rt` the disk model. [`FileDisk`] is a disk over a real file, for the server; mw_memory_disk
//! has one in memory, for tests.
//!
//! - *What a contract says*: of an honest disk, what reads give and a crash may leave; of any, how often it failed. A
//!   [`FileDisk`] makes each of its calls on its [`DiskFile`], and no other; a sync or question again if it failed.
//! - *Tested only*: which bytes [`FileDisk`] gives, and what a system's [`DiskFile`] does (`disk_tests` of mw_file_tests). A
//!   real disk is assumed to keep the model.
//!
//! Used by: many crates from mw_file on, which makes all calls. A change of the disk model changes what the server
//! assumes (README, docs/PROMISES, docs/OPERATING).
#![tactic(auto)]

mod device;
mod disk_file;
mod file;

pub use device::{Disk, DiskFault};
pub use disk_file::DiskFile;
pub use file::FileDisk;
