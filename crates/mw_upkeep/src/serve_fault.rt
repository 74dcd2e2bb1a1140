//! Why a server serves nothing more.
//!
//! Used by: `beats`; mw_server; mw_programs, which gives the exit status. Change it with docs/OPERATING.
ghost use Rattle.std.specs.Prelude.{◌≤◌};

use log::{Log, error};
use std::alloc::AllocError;

/// Tells why nothing more is served. Notes have told it, but of memory.
#[derive(Clone, Copy)]
pub enum ServeFault {
    /// The tenants file is refused.
    Refused,
    /// A tenant's file didn't open or the limit of descriptors is too low, and `--strict` was given; the script can't be read;
    /// nobody can listen at an address, or tell `ready`; or the session ended by a fault, of which no note is written.
    Failed,
    /// Memory was refused before the first session.
    Memory,
}

impl ServeFault {
    /// Writes a note if memory was refused. Gives the exit status of this fault.
    pub fn tell<L: Log>(self, notes: &L) -> u8
        ensures { 1 ≤ result }
    {
        match self {
            ServeFault::Refused => 2,
            ServeFault::Failed => 1,
            ServeFault::Memory => {
                error!(notes; "mwserve: memory");
                1
            }
        }
    }
}

impl From<AllocError> for ServeFault {
    fn from(_: AllocError) -> Self {
        ServeFault::Memory
    }
}
