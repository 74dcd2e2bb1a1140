//! The states in which an open file keeps its record places in memory: free, prepared or sealed, with the values to
//! write.
//!
//! `opening.rt` makes them, `tenant_file.rt` and `new_changes.rt` change them, `roll.rt` reads them. Used also by mw_book
//! (`place_table.rt`, `waiting.rt`), and by definitions of mw_plain, mw_world, mw_world_file and mw_engine. A new [`Stage`]
//! needs a case in `specs/PlaceStates`, `specs/DeviceCalls`, `specs/RollForward`, `specs/Stores` and `specs/Taken`, and in
//! `specs/Permits`, `specs/SettledAhead` and `place_table.rt` of mw_book.
ghost use Rattle.std.specs.Prelude.{◌≡◌, IfOk};
ghost use Rattle.mw_record.specs.Layout.{pairs_of};

use arrayvec::ArrayVec;
use mw_words::{Entries, MAX_ENTRIES};
use std::alloc::{AllocError, Global};

/// How far the change in a place is.
#[derive(Clone, Copy, PartialEq, Eq)]
pub enum Stage {
    /// The place has no change.
    Free,
    /// The change's record is written and its commit byte is clear. After a seal in which the device failed,
    /// the commit byte may be set.
    Prepared,
    /// The change's commit byte is set: the change is in the file.
    Sealed,
}

/// What a change writes: addresses in rising order, each with its new value.
pub type Writes = ArrayVec<(u16, u64), MAX_ENTRIES>;

/// The state of one place of a file.
#[derive(Drop)]
pub struct PlaceState {
    /// How far the change in the place is.
    pub stage: Stage,
    /// What the change writes. It has no meaning if the place is free.
    pub writes: Writes,
}

/// Returns what these entries write.
pub(crate) fn writes_to(entries: &Entries) -> Writes
    ensures { result.items ≡ pairs_of entries.now.items }
{
    let mut writes = Writes::new();
    for i in 0..entries.len() {
        let entry = entries[i];
        writes.push((entry.addr, entry.new));
    }
    writes
}

/// Copies the states. The only error is that memory is out.
pub(crate) fn copies(alloc: Global, states: &[PlaceState]) -> Result<Vec<PlaceState>, AllocError>
    ensures { IfOk result (λ copies. copies.items ≡ states.now) }
{
    let mut copies = Vec::with_capacity(alloc, states.len())?;
    for state in states {
        copies.push(state.copy())?;
    }
    Ok(copies)
}

impl PlaceState {
    fn copy(&self) -> PlaceState
        ensures { result ≡ self.now }
    {
        let mut writes = Writes::new();
        for write in self.writes.as_slice() {
            writes.push(*write);
        }
        PlaceState {
            stage: self.stage,
            writes,
        }
    }
}
