//! A tenant's file on its disk in memory, open or shut.
//!
//! Used by: `simulated_file`, and the modules that make or change a book. `specs/Devices` says which file it is: change it
//! with a case.

use mw_file::TenantFile;
use mw_memory_disk::MemDisk;

/// A tenant's file on a disk in memory.
#[derive(Drop)]
pub(crate) enum Device {
    /// It was opened.
    Open(TenantFile<MemDisk>),
    /// Its opening failed, or no start has opened it yet. This is the disk.
    Shut(MemDisk),
}
