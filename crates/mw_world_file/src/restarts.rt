//! Stops a simulated file, also in the middle of a call, and opens it again.
//!
//! mw_simulator calls `SimulatedFile::restart` for each tenant when all starts again. Change it with
//! `specs/Restarts`, `specs/Books` and `specs/Recovery`.
ghost use Rattle.std.specs.Prelude.{◌≡◌, ◌≤◌, length, IfOk};
ghost use Rattle.mw_world.specs.Files.Restarts.{takes};

use crate::changes::with_change;
use crate::cut::{Cut, Left};
use crate::faults::BookFault;
use crate::simulated_file::SimulatedFile;
use mw_words::Entry;
use std::alloc::{AllocError, Global};

/// Whether the change in doubt is found: it has entries, and the words are those from before with it put over
/// them. The only error is that memory is out.
fn is_taken(
    alloc: Global,
    before: &[u64],
    doubt: &[Entry],
    words: &[u64],
) -> Result<bool, AllocError>
    ensures { IfOk result (λ taken. taken ≡ takes before.now doubt.now words.now) }
{
    if doubt.is_empty() {
        return Ok(false);
    }
    let changed = with_change(alloc, before, doubt)?;
    Ok(words == changed.as_slice())
}

impl SimulatedFile {
    ghost use Rattle.mw_world_file.specs.Books.{places_of_file};
    ghost use Rattle.mw_world_file.specs.Recovery.{Restarts, PreparesChange};

    /// Stops all and opens the file again. Returns a new book, of the file after the start, and whether the
    /// change that was in doubt is in the file. `cut` is the call that was under way. `torn` are the bytes at
    /// places that were written and not synced. `fails_at` is the device call of the opening that fails.
    /// `quota` is the tenant's quota after the start, at most the file's places. This book stays unchanged.
    ///
    /// # Errors
    ///
    /// [`BookFault::NotEnabled`]: the call makes fewer device calls than `cut` says, or the opening makes none
    /// with the number `fails_at`. [`BookFault::Memory`]: memory is out.
    pub fn restart(
        &self,
        alloc: Global,
        cut: Option<Cut>,
        torn: &[u8],
        fails_at: Option<u64>,
        quota: u8,
    ) -> Result<(SimulatedFile, bool), BookFault>
        requires formed { PreparesChange (length self.now.contents.items) cut }
        requires room { quota ≤ places_of_file self.now }
        ensures { Restarts self.now cut torn.now fails_at quota result }
    {
        let left = self.stop(alloc, cut, torn)?;
        let Left { image, doubt } = left;
        let book = SimulatedFile::open(alloc, image, usize::from(quota), fails_at)?;
        let taken = is_taken(alloc, &self.contents, &doubt, &book.contents)?;
        Ok((book, taken))
    }
}
