//! Opens the file that a command line names, if it is a plain one.
//!
//! Used by: mwshow, mwreplay. It has no contracts.
use std::fs::{self, File};
use std::io;
use std::rt::Files;

/// Tells why a file was not opened.
#[derive(Drop)]
pub enum FileFault {
    /// A call of the system failed with this error.
    System(io::Error),
    /// The path is a folder, a pipe, a device or a socket.
    NotPlain,
}

impl From<io::Error> for FileFault {
    fn from(error: io::Error) -> Self {
        FileFault::System(error)
    }
}

/// Opens the plain file at a path for reading. It opens nothing else, because opening a pipe would wait for
/// its writer, and a device may have no end.
///
/// # Errors
///
/// There is no file, it may not be read, or it isn't plain.
pub fn open_plain<R: Files<File = File>>(rt: &R, path: &str) -> Result<File, FileFault> {
    if !fs::metadata(rt, path)?.is_file() {
        return Err(FileFault::NotPlain);
    }
    Ok(File::open(rt, path)?)
}
