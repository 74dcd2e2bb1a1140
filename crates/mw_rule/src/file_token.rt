//! The file token: the ghost capability to make calls on a tenant's file, for proofs alone.
//!
//! mw_rule keeps a thread's tokens in its view (`src/views.rt`). `specs/Calls/FileTokens` says what its fields tell
//! of the file: change it with a field.

use mw_words::Entry;
use std::collections::LinkedList;

/// A place of a tenant's file, with the change in it.
pub enum PlaceKept {
    /// There is no change.
    Empty,
    /// A change that is prepared: written down and not sealed.
    Prepared(LinkedList<Entry>),
    /// A change that is sealed.
    Sealed(LinkedList<Entry>),
}

/// The capability to make calls on a tenant's file, and what the file is. One thread has it at a time.
pub struct FileToken {
    /// The tenant.
    pub tenant: u8,
    /// The words that were opened, with every sealed change put over them.
    pub contents: LinkedList<u64>,
    /// The places for changes, as many as the tenant's quota.
    pub places: LinkedList<PlaceKept>,
    /// For each slot of the whole pool, the place of the slot's change.
    pub place_of: LinkedList<u16>,
    /// Whether a device call has failed, or the opening has.
    pub has_failed: bool,
    /// The change in doubt: the device failed while it was sealed, so the next start may find it or not. Empty:
    /// nothing is in doubt.
    pub doubt: LinkedList<Entry>,
}
