//! The reasons for which the simulator refuses an event.
//!
//! mwreplay and mw_world_trials make their own faults of it (`PlayFault`, `Fault`). A new kind needs a case there
//! and in `specs/Events`.

use mw_world_file::BookFault;

/// The limit of request numbers: a world in memory gives a tenant's requests numbers below it, as `mw_lone`
/// does.
pub const MOST_REQUESTS: u64 = u64::MAX;

/// Why an event is refused. A refused event leaves the world unchanged, except that its lists may keep more
/// room for further marks and claims.
#[derive(Clone, Copy, Debug, PartialEq, Eq)]
pub enum WorldFault {
    /// The event can't happen in this state of the world.
    NotEnabled,
    /// The event can happen, but it is a request whose number would be [`MOST_REQUESTS`]. A world in memory
    /// gives no such number.
    LastNumber,
    /// Memory is out.
    Memory,
}

impl From<BookFault> for WorldFault {
    ghost use Rattle.std.specs.Prelude.{◌≡◌};
    ghost use Rattle.mw_simulator.specs.Faults.{fault_of};

    ghost from_gives = { λ fault e. e ≡ fault_of fault };

    fn from(fault: BookFault) -> Self {
        match fault {
            BookFault::NotEnabled => WorldFault::NotEnabled,
            BookFault::Memory => WorldFault::Memory,
        }
    }
}
