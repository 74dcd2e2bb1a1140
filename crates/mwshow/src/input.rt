//! Reads the file that `mwshow` must show, or tells why it is not shown.
//!
//! Used by: `lines`, `program`. The exit statuses are in `specs/Statuses` too, and the texts in docs/OPERATING;
//! scripts/check-texts, check-refusals and check-locks expect them: change them together.
ghost use Rattle.std.specs.Prelude.{◌≡◌, ◌≤◌};
ghost use Rattle.mwshow.specs.Statuses.{status_of};

use mw_main::{FileFault, open_plain};
use mw_record::MAX_FILE;
use std::alloc::{AllocError, Global};
use std::fs::{File, TryLockError};
use std::io::{self, Read};
use std::rt::Files;
use thiserror::Error;

/// Tells why a file was not shown.
#[derive(Debug, Drop, Error)]
pub enum ShowFault {
    /// The file doesn't exist, may not be read, or a call of the system on it failed, which is told on a second line.
    #[error("mwshow: cannot read\nmwshow: {0}")]
    CannotRead(io::Error),
    /// It is a folder, a pipe, a device or a socket.
    #[error("mwshow: not a plain file")]
    NotPlain,
    /// Another opening of the file holds its lock: a server, or `mwinit`.
    #[error("mwshow: in use")]
    InUse,
    /// Memory was refused.
    #[error("mwshow: memory")]
    Memory,
    /// The output takes no more. No text is written for this.
    #[error("")]
    Output,
}

impl ShowFault {
    /// Gives the exit status of the fault.
    pub fn status(&self) -> u8
        ensures status { result ≡ status_of self.now }
        ensures not_shown { 1 ≤ result }
    {
        match self {
            ShowFault::CannotRead(_)
            | ShowFault::NotPlain
            | ShowFault::InUse
            | ShowFault::Memory
            | ShowFault::Output => 1,
        }
    }
}

impl From<AllocError> for ShowFault {
    fn from(_: AllocError) -> Self {
        ShowFault::Memory
    }
}

impl From<io::Error> for ShowFault {
    fn from(_: io::Error) -> Self {
        ShowFault::Output
    }
}

/// Reads the bytes of the file at a path, as many as are ever looked at. It opens only a plain file, and
/// reads it under a shared lock, so that no server writes to it meanwhile. It releases the lock before it
/// returns.
///
/// # Errors
///
/// [`ShowFault::CannotRead`], [`ShowFault::NotPlain`], [`ShowFault::InUse`] and [`ShowFault::Memory`].
pub fn read_file<R: Files<File = File> + AllocGlobal>(
    rt: &R,
    path: &str,
) -> Result<Vec<u8>, ShowFault> {
    match open_plain(rt, path) {
        Ok(file) => read_locked(rt.alloc(), file),
        Err(FileFault::NotPlain) => Err(ShowFault::NotPlain),
        Err(FileFault::System(error)) => Err(ShowFault::CannotRead(error)),
    }
}

/// Locks the file, reads the bytes that are looked at, and closes it.
fn read_locked(alloc: Global, file: File) -> Result<Vec<u8>, ShowFault> {
    match file.try_lock_shared() {
        Ok(()) => read_front(alloc, file),
        Err(TryLockError::WouldBlock) => Err(ShowFault::InUse),
        Err(TryLockError::Error(error)) => Err(ShowFault::CannotRead(error)),
    }
}

/// Reads the bytes that are looked at, and closes the file.
fn read_front(alloc: Global, file: File) -> Result<Vec<u8>, ShowFault> {
    let mut bytes = Vec::new(alloc);
    match file.take(MAX_FILE as u64).read_to_end(&mut bytes) {
        Ok(_) => Ok(bytes),
        Err(fault) if fault.kind() == io::ErrorKind::OutOfMemory => Err(ShowFault::Memory),
        Err(fault) => Err(ShowFault::CannotRead(fault)),
    }
}
