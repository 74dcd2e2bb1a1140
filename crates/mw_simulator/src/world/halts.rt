//! What was under way on a tenant's file when all stopped: the call, and the request whose change it was sealing.
//!
//! `stopped_calls.rt` makes it, and `restarts.rt` uses it. `specs/Stops` says what it means: change it with a
//! field.

use mw_world_file::Cut;

/// What was under way on a tenant's file when all stopped.
#[derive(Drop)]
pub(crate) struct StoppedCall {
    /// The call on the file, if it had made a device call.
    pub(crate) cut: Option<Cut>,
    /// The request whose change the call was sealing, if it had made a device call.
    pub(crate) sealing: Option<u64>,
}
