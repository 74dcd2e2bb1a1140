//! Looks whether a tenant's path still leads to the file that was opened, as long as it must be and with the same front.
//!
//! Used by: mw_upkeep, which writes the notes; mw_programs. Change it with `specs/Replaced` and docs/OPERATING.
ghost use Rattle.std.specs.Prelude.{◌≡◌, ◌↔◌, false};
ghost use Rattle.mw_opening.specs.Replaced.{LeadsTo};

use crate::file_state::{FRONT, FileState, SeenFile};
use std::fs;
use std::io::{self, ErrorKind, Read};
use std::rt::Files;

/// Sees which file is at a path. Each runtime that has files does. A thread can use it that was started by code over any
/// runtime; [`Files`] itself it can't, because of the types that come with that.
pub trait SeesPaths {
    /// Asks the system which file is at this path.
    ///
    /// # Errors
    ///
    /// There is none, or the system doesn't say.
    fn seen_at(&self, path: &str) -> io::Result<SeenFile>;

    /// Reads the front of the file at this path. Gives how many bytes it read.
    ///
    /// # Errors
    ///
    /// There is none, or the system doesn't open it or fails to read.
    fn front_at(&self, path: &str, front: &mut [u8; FRONT]) -> io::Result<usize>;
}

impl<R: Files> SeesPaths for R {
    fn seen_at(&self, path: &str) -> io::Result<SeenFile> {
        Ok(SeenFile::of(&fs::metadata(self, path)?))
    }

    fn front_at(&self, path: &str, front: &mut [u8; FRONT]) -> io::Result<usize> {
        let mut file = fs::open(self, path)?;
        file.read(front)
    }
}

/// Tells whether the path of a file that was opened leads elsewhere now, or others have cut or overwritten the file. If the
/// system doesn't say what is at the path, that is not known, and the answer is no.
pub fn leads_elsewhere<R: SeesPaths>(rt: &R, path: &str, opened: &FileState) -> bool {
    if opened.was_replaced() {
        return true;
    }
    match rt.seen_at(path) {
        Ok(now) => { is_replaced(&opened.seen(), Some(now)) || is_overwritten(rt, path, opened) }
        Err(error) => match error.kind() {
            ErrorKind::NotFound | ErrorKind::NotADirectory => is_replaced(&opened.seen(), None),
            _ => false,
        },
    }
}

/// Tells whether the file at a path begins with other bytes than the one that was opened. If they can't be read, the answer
/// is no.
fn is_overwritten<R: SeesPaths>(rt: &R, path: &str, opened: &FileState) -> bool {
    let mut front = [0; FRONT];
    match rt.front_at(path, &mut front) {
        Ok(count) => opened.differs(&front[..count.min(FRONT)]),
        Err(_) => false,
    }
}

/// Tells whether the file at a path is no longer the one that was opened, or is shorter. None: nothing is there.
fn is_replaced(opened: &SeenFile, now: Option<SeenFile>) -> bool
    ensures { (result ≡ false) ↔ LeadsTo opened.now now }
{
    match now {
        Some(now) => {
            now.device != opened.device || now.inode != opened.inode || now.size < opened.size
        }
        None => true,
    }
}
