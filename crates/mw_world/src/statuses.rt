//! Gives the status from which each call on a file starts, and the status that it leaves.
//!
//! Used by: mw_table, mw_core, mw_simulator. `specs/Definition/Calls` says the same for proofs: change both
//! together.
ghost use Rattle.std.specs.Prelude.{◌≡◌};
ghost use Rattle.mw_words.specs.Patterns.{IsStatusInRange};
ghost use Rattle.mw_world.specs.Definition.Calls as calls;

use mw_look::Call;
use mw_words::Status;

/// Tells whether a call starts from this status of its change. From any other status the call does nothing.
pub fn starts_from(call: Call, status: Status) -> bool
    ensures { result ≡ calls.starts_from call status }
{
    matches!(
        (call, status),
        (Call::Prepare, Status::Draft)
            | (Call::Seal, Status::YesDirty)
            | (Call::Settle, Status::Yes)
            | (Call::Cancel, Status::No { .. })
    )
}

/// Returns the status after a call that went well, given the status from which it started.
pub fn status_after(call: Call, status: Status) -> Status
    ensures is { result ≡ calls.status_after call status }
    ensures in_range { IsStatusInRange status → IsStatusInRange result }
{
    match (call, status) {
        (Call::Prepare, _) => Status::Open,
        (Call::Seal, _) => Status::Yes,
        (Call::Settle, _) => Status::DoneYes,
        (Call::Cancel, Status::No { entry, value }) => Status::DoneNo { entry, value },
        (Call::Cancel, _) => status,
    }
}
