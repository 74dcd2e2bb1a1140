//! Opens the disks of the tenants' files: what [`open_files`](crate::open_files) needs of whoever opens them, and the
//! system's files, each under a lock.
//!
//! Used by: `opening`; mw_programs makes the [`LockedFiles`]. [`OpensPaths`] says what is known of
//! the files that a server opens.
ghost use Rattle.std.specs.Prelude.{◌<◌, ℕ, List, length, take, IfErr, IfOk};
ghost use Rattle.std.specs.declared.fs.File.{File as SystemFile};
ghost use Rattle.mw_words.specs.declared.limits.TheConstants.{MAX_TENANTS};
ghost use Rattle.mw_opening.specs.declared.file_fault.FileFault.{FileFault as Fault};

use crate::file_fault::FileFault;
use crate::file_state::{FileStates, SeenFile};
use crate::last_error::LastError;
use crate::plain_file::{ReadFault, open_plain, read_plain};
use crate::watched_file::WatchedFile;
use mw_disk::{Disk, FileDisk};
use mw_file::TenantFile;
use mw_metrics::{Meters, TenantCounters};
use mw_words::MAX_TENANTS;
use std::fs::{File, OpenOptions, TryLockError};
use std::io::{self, Read};
use std::os::fd::AsRawFd;
use std::rt::Files;
use std::time::Clock;

/// Opens the disks of the tenants' files.
pub trait OpensDisks {
    /// A disk over a file.
    type Device: Disk + Drop;

    // The disk is over the file at this path, which is given by its bytes. A new one says here what it knows of its disks.
    ghost is_over: { List ℕ → Self.Device → Type 0 };

    // The file at this path was not opened, for this fault. A new one says here what it knows of that. Code for each of
    // them has it only from a call of `open`.
    ghost is_refused: { List ℕ → Fault → Type 0 };

    /// Opens the file at this path for the tenant of this number, and gives a disk over it.
    ///
    /// # Errors
    ///
    /// As [`FileFault`] tells.
    fn open(&self, tenant: usize, path: &str) -> Result<Self::Device, FileFault>
        requires { tenant < MAX_TENANTS }
        ensures over { IfOk result (λ disk. is_over path.now disk) }
        ensures refused { IfErr result (λ fault. is_refused path.now fault) };

    /// Gives what keeps the last error of the file of the tenant of this number.
    fn last_error(&self, tenant: usize) -> &LastError
        requires { tenant < MAX_TENANTS };
}

/// Opens the file at a path, under a lock, and opens or reads a plain one. A server's code is for any runtime that does, so it has what a
/// ghost member says only from a call. The other bounds of a runtime give it files of which nothing is known.
pub trait OpensPaths {
    /// A plain file that was opened for reading.
    type Plain: Read + Drop;

    // This is the file at this path, which is given by its bytes.
    ghost is_at: { List ℕ → SystemFile → Type 0 };

    // The file at this path was not opened, for this fault.
    ghost is_refused: { List ℕ → Fault → Type 0 };

    // This is the plain file at this path, and nothing of it was read yet.
    ghost is_plain: { List ℕ → Self.Plain → Type 0 };

    // A reading of the file at this path gave this text, from the file's first byte to its end.
    ghost is_text: { List ℕ → List ℕ → Type 0 };

    /// Opens the file at this path for reading and writing, locks it, and has the system drop its copies of it. The lock is
    /// held until the file is closed. The states are those of the tenants' files, and this is the number of the file's
    /// tenant.
    ///
    /// # Errors
    ///
    /// [`FileFault::CannotOpen`] if the file can't be opened. [`FileFault::InUse`] if another opening has the lock.
    /// [`FileFault::CannotLock`] if its file system has no locks. [`FileFault::Disk`] if the system refuses to drop its copies.
    fn open_locked(&self, path: &str, states: &FileStates, tenant: usize) -> Result<File, FileFault>
        requires { tenant < MAX_TENANTS }
        ensures at { IfOk result (λ file. is_at path.now file) }
        ensures refused { IfErr result (λ fault. is_refused path.now fault) };

    /// Opens the plain file at this path for reading.
    ///
    /// # Errors
    ///
    /// There is no file, it may not be read, or it isn't plain.
    fn open_plain(&self, path: &str) -> Result<Self::Plain, ReadFault>
        ensures plain { IfOk result (λ file. is_plain path.now file) };

    /// Reads the plain file at this path to its end, or until the room is full. Gives how many bytes it has read. If the room has more
    /// bytes, these are the whole text.
    ///
    /// # Errors
    ///
    /// The file can't be opened or isn't plain, or a read failed.
    fn read_plain(&self, path: &str, room: &mut [u8]) -> Result<usize, ReadFault>
        ensures text { IfOk result (λ count. count < length room.new → is_text path.now (take count room.new)) };
}

impl OpensPaths for HostRuntime {
    type Plain = File;

    // No contract of the library says of which path a file is, what a reading of it gives, or why it isn't opened.
    ghost is_at = { λ _ _. Unit {0} };

    ghost is_refused = { λ _ _. Unit {0} };

    ghost is_plain = { λ _ _. Unit {0} };

    ghost is_text = { λ _ _. Unit {0} };

    fn open_locked(
        &self,
        path: &str,
        states: &FileStates,
        tenant: usize,
    ) -> Result<File, FileFault> {
        open_locked(self, path, states, tenant)
    }

    fn open_plain(&self, path: &str) -> Result<File, ReadFault> {
        open_plain(self, path)
    }

    fn read_plain(&self, path: &str, room: &mut [u8]) -> Result<usize, ReadFault> {
        read_plain(self, path, room)
    }
}

/// The disk of a tenant's file: it keeps the last error, which file it is, and how long its calls took. `R` is the clock.
pub type TenantDisk<'a, R> = FileDisk<WatchedFile<'a, File, R>>;

/// A tenant's file, and the words that it had when it was opened.
pub type Opened<'a, R> = (TenantFile<TenantDisk<'a, R>>, Vec<u64>);

/// Opens files of the system, each under a lock. What is known of each is kept in the states. The meters, if there are any,
/// count the calls of each file.
#[derive(Drop)]
pub struct LockedFiles<'a, R> {
    rt: &'a R,
    states: &'a FileStates,
    meters: Option<&'a Meters>,
}

impl<'a, R> LockedFiles<'a, R> {
    /// Makes what opens the files.
    pub fn new(rt: &'a R, states: &'a FileStates, meters: Option<&'a Meters>) -> Self {
        LockedFiles { rt, states, meters }
    }

    /// Gives what counts the calls of the file of the tenant of this number, if they are counted.
    fn counters_of(&self, tenant: usize) -> Option<&'a TenantCounters>
        requires { tenant < MAX_TENANTS }
    {
        match self.meters {
            Some(meters) => Some(meters.tenant(tenant)),
            None => None,
        }
    }
}

impl<'a, R: OpensPaths + Clock> OpensDisks for LockedFiles<'a, R> {
    type Device = TenantDisk<'a, R>;

    ghost is_over = { λ path disk. R.is_at path disk.file.file };

    ghost is_refused = { R.is_refused };

    fn open(&self, tenant: usize, path: &str) -> Result<TenantDisk<'a, R>, FileFault> {
        match self.rt.open_locked(path, self.states, tenant) {
            Ok(file) => {
                let (state, counters) = (self.states.of(tenant), self.counters_of(tenant));
                Ok(FileDisk::new(WatchedFile::new(file, state, self.rt, counters)))
            }
            Err(fault) => Err(fault),
        }
    }

    fn last_error(&self, tenant: usize) -> &LastError {
        self.states.of(tenant).last_error()
    }
}

/// Opens a file as [`OpensPaths::open_locked`] says.
fn open_locked<R: Files<File = File>>(
    rt: &R,
    path: &str,
    states: &FileStates,
    tenant: usize,
) -> Result<File, FileFault>
    requires { tenant < MAX_TENANTS }
{
    let mut options = OpenOptions::new();
    options.read(true).write(true);
    let file = match options.open(rt, path) {
        Ok(file) => file,
        Err(error) => return Err(FileFault::CannotOpen(error)),
    };
    match file.try_lock() {
        Ok(()) => dropped_copies(file),
        Err(TryLockError::WouldBlock) => Err(FileFault::InUse(line_with(&file, states, tenant))),
        Err(TryLockError::Error(error)) => Err(FileFault::CannotLock(error)),
    }
}

/// Gives the number of the line, before that of this tenant, whose file this is. Lines count from 1. If the system doesn't tell,
/// it gives none.
fn line_with(file: &File, states: &FileStates, tenant: usize) -> Option<usize>
    requires { tenant < MAX_TENANTS }
{
    let Ok(told) = file.metadata() else {
        return None;
    };
    let seen = SeenFile::of(&told);
    for earlier in 0..tenant {
        if states.of(earlier).seen().is_same_file(&seen) {
            return Some(earlier + 1);
        }
    }
    None
}

/// Has the system drop its copies of a file's pages, but of those that it must still write, and gives the file back.
/// After a sync that failed, a copy may have bytes that the disk doesn't, and a read gives these until it is dropped.
///
/// # Errors
///
/// [`FileFault::Disk`] if the system refuses.
fn dropped_copies(file: File) -> Result<File, FileFault> {
    match libc::posix_fadvise(file.as_raw_fd(), 0, 0, libc::POSIX_FADV_DONTNEED) {
        0 => Ok(file),
        code => Err(FileFault::Disk(Some(io::Error::from_raw_os_error(code)))),
    }
}
