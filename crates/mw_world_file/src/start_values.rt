//! Tells how many words and places a simulated file has, whether it failed, and what it gives the shared words at a
//! start.
//!
//! Used by: mw_simulator, mw_table_tests. Change it with `specs/Books` and `specs/StartValues`.
ghost use Rattle.std.specs.Prelude.{◌≡◌, length, IfOk};
ghost use Rattle.mw_world_file.specs.Books.{places_of_file};
ghost use Rattle.mw_world_file.specs.StartValues.{IsGiven};

use crate::simulated_file::SimulatedFile;
use std::alloc::{AllocError, Global};

impl SimulatedFile {
    /// Returns how many words the file has.
    pub fn words(&self) -> usize
        ensures { result ≡ length self.now.contents.items }
    {
        self.contents.len()
    }

    /// Returns how many places the file has, in its second layout. A file that no start has opened yet returns
    /// as many as it gets when a start opens it.
    pub fn file_places(&self) -> u16
        ensures { result ≡ places_of_file self.now }
    {
        self.file_places
    }

    /// Whether the file's opening, or a device call after it, has failed. It is also true of an old file that
    /// no start has opened yet. A failed file isn't touched again until the next start.
    pub fn has_failed(&self) -> bool
        ensures { result ≡ self.now.has_failed }
    {
        self.has_failed
    }

    /// Returns the words that the file represents. `None`: the file has failed. The only error is that memory
    /// is out.
    pub fn opening(&self, alloc: Global) -> Result<Option<Vec<u64>>, AllocError>
        ensures { IfOk result (IsGiven self.now) }
    {
        if self.has_failed {
            return Ok(None);
        }
        Ok(Some(self.contents.to_vec(alloc)?))
    }
}
