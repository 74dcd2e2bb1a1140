//! The standard error of a program, which keeps nobody waiting.
//!
//! Used by: mw_programs, which passes it on to `mwserve` for its notes. Nothing is proved of it. docs/OPERATING tells its limit (`MOST`).

use libc::net::{POLLOUT, poll};
use libc::types::pollfd;
use std::io::{self, ErrorKind, Write};

/// The number of the standard error's descriptor.
const ERRORS: i32 = 2;

/// The most bytes of one write. A pipe that has any room takes so many at once.
const MOST: usize = 4096;

/// A writer to the standard error, given as such, which fails where that would wait: if nobody reads the pipe that it is.
#[derive(Drop)]
pub struct PromptErrors<W> {
    errors: W,
}

impl<W: Write> PromptErrors<W> {
    /// Makes a writer to the standard error, which is this one.
    pub fn new(errors: W) -> Self {
        PromptErrors { errors }
    }
}

impl<W: Write> Write for PromptErrors<W> {
    fn write(&mut self, buf: &[u8]) -> io::Result<usize> {
        if !has_room() {
            return Err(io::Error::from(ErrorKind::WouldBlock));
        }
        self.errors.write(&buf[..buf.len().min(MOST)])
    }

    fn flush(&mut self) -> io::Result<()> {
        self.errors.flush()
    }
}

/// Tells whether a write to the standard error ends at once, well or not.
fn has_room() -> bool {
    let mut wanted = [pollfd {
        fd: ERRORS,
        events: POLLOUT,
        revents: 0,
    }];
    poll(&mut wanted, 0) != 0
}
