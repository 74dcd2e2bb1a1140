//! The last error that the system told of a tenant's file, for a note.
//!
//! Used by: `opening`, `file_state`, which has one of each file; `file_fault`, `tenant_disks`. Many threads may share
//! it.
ghost use Rattle.std.specs.Prelude.{◌≡◌};

use std::io::{self, ErrorKind};
use std::sync::atomic::{AtomicI32, Ordering};

/// The last error that the system told of a file: its number, or 0 if it told none.
#[derive(Drop)]
pub struct LastError(AtomicI32);

impl LastError {
    /// Makes one for a file of which the system told no error.
    pub fn new() -> Self {
        LastError(AtomicI32::new(0))
    }

    /// Gives the last error, if there was one.
    pub fn error(&self) -> Option<io::Error> {
        match self.0.load(Ordering::SeqCst) {
            0 => None,
            code => Some(io::Error::from_raw_os_error(code)),
        }
    }

    /// Keeps the error of an outcome, if the system told it, and gives the outcome back. An interrupted call is made again, so its
    /// error isn't kept.
    pub(crate) fn keep<T: Drop>(&self, outcome: io::Result<T>) -> io::Result<T>
        ensures { result ≡ outcome }
    {
        if let Err(error) = &outcome {
            match error.raw_os_error() {
                Some(code) if error.kind() != ErrorKind::Interrupted => {
                    self.0.store(code, Ordering::SeqCst);
                }
                _ => {}
            }
        }
        outcome
    }
}
