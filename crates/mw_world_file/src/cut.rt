//! A call on a simulated file that was interrupted, and what the stop leaves of the file.
//!
//! Used by: mw_simulator, which makes a [`Cut`]; `restarts`, `stops`. `specs/StoppedFiles` and `specs/Recovery` say
//! what is left: change them with a field.

use mw_look::Call;
use mw_words::Entries;

/// A call on a tenant's file that was interrupted before its end.
#[derive(Drop)]
pub struct Cut {
    /// The call.
    pub call: Call,
    /// The slot of the change that it is for.
    pub slot: u8,
    /// The entries of that change.
    pub entries: Entries,
    /// How many of the call's device calls were made.
    pub made: u64,
}

/// What a stop leaves of a tenant's file.
#[derive(Drop)]
pub(crate) struct Left {
    /// The bytes of its disk.
    pub(crate) image: Vec<u8>,
    /// The change that they may have or not. It has no entries if none is in doubt.
    pub(crate) doubt: Entries,
}
