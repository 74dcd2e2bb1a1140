//! The calls that a disk in memory has seen, as its contracts read them. At run time it takes no memory.
//!
//! Only `memory.rt` has one. Change it with `specs/Memory`.
ghost use Rattle.std.specs.Prelude.{◌≡◌, ℕ, List, [], ◌∷◌, ◌++◌};
ghost use Rattle.std.specs.Borrow.{ftrue};
ghost use Rattle.mw_memory_disk.specs.declared.event.Event.{Event as Remembered};

use crate::event::{Call, Event};
use std::marker::Model;

/// The bytes that a disk had at first, and its calls since that left a trace, the oldest first.
#[derive(Drop)]
pub(crate) struct History {
    pub(crate) ghost first: { List ℕ },
    pub(crate) ghost log: { List Remembered },
}

impl Model for History {
    ghost also_owns = { λ _. ftrue };
}

// It owns nothing.
unsafe impl Send for History {}

unsafe impl Sync for History {}

impl History {
    /// The history of a disk with these bytes, before its first call.
    pub(crate) fn new(_first: &[u8]) -> History
        ensures { result ≡ record { first = _first.now; log = [] } }
    {
        History {}
    }

    /// Copies the history.
    pub(crate) fn copy(&self) -> History
        ensures { result ≡ self.now }
    {
        History {}
    }

    /// Returns the history after this call.
    fn with(&self, _event: &Event) -> History
        ensures { result ≡ record { first = self.now.first; log = self.now.log ++ _event.now ∷ [] } }
    {
        History {}
    }

    /// Returns the history after this call, if so many calls before it failed without a trace.
    pub(crate) fn after(&self, missed: u64, call: Call) -> History
        ensures { result ≡ record {
          first = self.now.first;
          log = self.now.log ++ record { missed = missed; call = call } ∷ [];
        } }
    {
        self.with(&Event { missed, call })
    }
}
