//! Opens `/dev/null` on each standard stream that is closed, so that no file gets its number.
//!
//! Used by: `program`, before anything else of a program. docs/OPERATING tells users of it: change both together.

use std::fs::{File, OpenOptions};
use std::io;
use std::os::fd::AsRawFd;
use std::rt::Files;

/// The highest descriptor of a standard stream: that of standard error.
const LAST_STREAM: i32 = 2;

/// Opens `/dev/null` on each free descriptor of a standard stream. Otherwise the next file that is opened
/// would take that number, and what is meant for the stream would be written over the file. It must be
/// called before anything else is opened, and its result must be kept until the program ends.
///
/// # Errors
///
/// `/dev/null` can't be opened. Then no descriptor is held.
pub fn hold_streams<R: Files<File = File>>(rt: &R) -> io::Result<[Option<File>; 3]> {
    let mut options = OpenOptions::new();
    options.read(true).write(true);
    let mut held = [None, None, None];
    for place in &mut held {
        let file = options.open(rt, "/dev/null")?;
        // The system gives the lowest free number.
        if file.as_raw_fd() > LAST_STREAM {
            break;
        }
        *place = Some(file);
    }
    Ok(held)
}
