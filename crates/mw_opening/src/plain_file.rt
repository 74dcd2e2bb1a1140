//! Opens the tenants file or the script, if it is a plain file, and reads the first.
//!
//! Used by: `opening`, `tenant_disks`. scripts/check-stories and scripts/check-refusals expect its text. Of a file
//! of the system no contract says what a reading gives; that of `fill` is for any reader.
ghost use Rattle.std.specs.Io.KnownBytes.{Consumes, IsAtEnd};
ghost use Rattle.std.specs.Prelude.{◌≡◌, ◌<◌, ◌≤◌, length, take, IfOk};

use std::fs::{self, File};
use std::io::{self, ErrorKind, Read};
use std::rt::Files;
use thiserror::Error;

/// Tells why a file was not opened or not read.
#[derive(Debug, Drop, Error)]
pub enum ReadFault {
    /// A call of the system failed with this error.
    #[error("{0}")]
    System(io::Error),
    /// The path is a folder, a pipe, a device or a socket.
    #[error("not a plain file")]
    NotPlain,
}

impl From<io::Error> for ReadFault {
    fn from(error: io::Error) -> Self {
        ReadFault::System(error)
    }
}

/// Opens the plain file at a path for reading. It opens nothing else, because opening a pipe would wait for
/// its writer.
///
/// # Errors
///
/// There is no file, it may not be read, or it isn't plain.
pub fn open_plain<R: Files<File = File>>(rt: &R, path: &str) -> Result<File, ReadFault> {
    if !fs::metadata(rt, path)?.is_file() {
        return Err(ReadFault::NotPlain);
    }
    Ok(File::open(rt, path)?)
}

/// Reads the plain file at a path to its end, or until the room is full. Gives how many bytes it has read.
///
/// # Errors
///
/// As [`open_plain`], or a read failed.
pub fn read_plain<R: Files<File = File>>(
    rt: &R,
    path: &str,
    room: &mut [u8],
) -> Result<usize, ReadFault> {
    let mut file = open_plain(rt, path)?;
    Ok(fill(&mut file, room)?)
}

/// Reads to the end, or until the room is full. Gives how many bytes it has read.
///
/// - `read`: these bytes are what the file gave, in order, and it gave no more.
/// - `end`: if the room has more bytes, the file is at its end.
///
/// # Errors
///
/// A read failed, or was interrupted again and again.
fn fill<F: Read>(file: &mut F, room: &mut [u8]) -> io::Result<usize>
    ensures room { length room.new ≡ length room.old }
    ensures count { IfOk result (λ count. count ≤ length room.new) }
    ensures read { IfOk result (λ count. Consumes (F.remaining file.old) (F.remaining file.new) (take count room.new)) }
    ensures end { IfOk result (λ count. count < length room.new → IsAtEnd (F.remaining file.new)) }
{
    let mut count = 0;
    for _ in 0..u64::MAX {
        if count >= room.len() {
            return Ok(count);
        }
        match file.read(&mut room[count..]) {
            Ok(0) => return Ok(count),
            Ok(more) => count += more,
            Err(fault) => {
                if fault.kind() != ErrorKind::Interrupted {
                    return Err(fault);
                }
            }
        }
    }
    Err(io::Error::from(ErrorKind::Interrupted))
}
