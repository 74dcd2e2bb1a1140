//! How a call on a tenant's file ended: it was made, a device call failed in it, or the file had failed before.
//!
//! mw_core tells the request by it how the call went. A new way to end needs a case in `specs/Answers`, `specs/Ends`,
//! `specs/Crashes` and `specs/RecordsAhead`, and in mw_core (`file_calls.rt`, `specs/Books`).

/// How a call on a tenant's file ended.
#[derive(Clone, Copy, Debug, PartialEq, Eq)]
pub enum Filed {
    /// The call was made: all its device calls went well.
    Made,
    /// One of its device calls failed, and it was the last one. From now on the file has failed.
    Broken,
    /// The file had failed before. The call did nothing.
    Untouched,
}
