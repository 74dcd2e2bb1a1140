//! Copies a tenant's file on a disk in memory, has its device calls fail, and tells what a crash leaves of it.
//!
//! Used by: mw_world_file, mw_file_tests. Its contracts may change with them.
ghost use Rattle.std.specs.Prelude.{◌≡◌, ℕ, List, Some, length, IfOk, OnOk, OnErr};
ghost use Rattle.mw_disk.specs.Facts.{MayLeave};
ghost use Rattle.mw_record.specs.Records.{Pairs};
ghost use Rattle.mw_file.specs.File.{disk_of, IsCopy};
ghost use Rattle.mw_file.specs.RecoveryInvariant.{ContentsStay, RecoversTo};
ghost use Rattle.mw_memory_disk.specs.Crash.{Tears, unsynced};
ghost use Rattle.mw_memory_disk.specs.Memory.{memory_facts, with_name, with_fault, with_stop, sooner};

use crate::memory::MemDisk;
use mw_file::TenantFile;
use std::alloc::{AllocError, Global};

/// Copies the file, with its disk. The only error is that memory is out.
pub fn copy(file: &TenantFile<MemDisk>, alloc: Global) -> Result<TenantFile<MemDisk>, AllocError>
    ensures same { IfOk result (λ copy. IsCopy file.now copy) }
    ensures keeps { IfOk result (λ copy. (contents : List ℕ) (doubt : Pairs) → RecoversTo memory_facts file.now contents doubt
        → RecoversTo memory_facts copy contents doubt) }
{
    let disk = file.disk().copy()?;
    file.on_disk(alloc, disk)
}

/// Makes the `k`-th device call from now fail too, as [`MemDisk::fail_next`] does. If memory is out it returns
/// an error and leaves the file as it was.
pub fn fail_next(file: &mut TenantFile<MemDisk>, k: u64) -> Result<(), AllocError>
    ensures ok { OnOk result (file.new ≡ record file.old { disk = record (disk_of file.old) { script = with_name (disk_of file.old) k } }) }
    ensures plan { OnOk result ((j : ℕ) → (memory_facts (disk_of file.new)).plan j ≡ with_fault (disk_of file.old) k j) }
    ensures err { OnErr result (file.new ≡ file.old) }
    // A crash leaves the words from before the call. A change in doubt stays in doubt.
    ensures safe { ContentsStay memory_facts file.old file.new }
{
    let mut disk = MemDisk::spare(file.disk());
    file.swap_disk(&mut disk);
    let noted = disk.fail_next(k);
    file.swap_disk(&mut disk);
    noted
}

/// Makes every device call after the next `k` fail and change nothing. An earlier stop stays.
pub fn stop_next(file: &mut TenantFile<MemDisk>, k: u64)
    ensures stop { file.new ≡ record file.old { disk = record (disk_of file.old) { stop = Some (sooner (disk_of file.old).stop k) } } }
    ensures plan { (j : ℕ) → (memory_facts (disk_of file.new)).plan j ≡ with_stop (disk_of file.old) k j }
    // A crash leaves the words from before the call. A change in doubt stays in doubt.
    ensures safe { ContentsStay memory_facts file.old file.new }
{
    let mut disk = MemDisk::spare(file.disk());
    file.swap_disk(&mut disk);
    disk.stop_next(k);
    file.swap_disk(&mut disk);
}

/// Returns how many device calls were refused memory. The count stays at `2^64 - 1` once it is reached.
pub fn refused(file: &TenantFile<MemDisk>) -> u64
    ensures { result ≡ (disk_of file.now).refused }
{
    file.disk().refused()
}

/// Returns what a crash now leaves of the file. The bytes of all ranges written since the last sync are taken
/// from `torn`, as in [`MemDisk::crash`]. The only error is that memory is out.
pub fn crash(file: &TenantFile<MemDisk>, torn: &[u8]) -> Result<Vec<u8>, AllocError>
    ensures torn { IfOk result (λ bytes. Tears (unsynced (disk_of file.now).log) torn.now (length torn.now)
        (memory_facts (disk_of file.now)).reads bytes.items) }
    // These bytes are among those that a crash now may leave.
    ensures image { IfOk result (λ bytes. MayLeave (memory_facts (disk_of file.now)) bytes.items) }
{
    file.disk().crash(torn)
}
