//! Says why a random run, or a schedule that is written out, failed.
//!
//! Used by: `judge`, `run`, `stale_helper_tests`, `tests`, `larger/tests`.

use mw_plain::LoneFault;
use mw_simulator::WorldFault;
use std::alloc::AllocError;

/// Says why a run ended before its last event, or what a world and a store alone disagree about.
#[derive(Clone, Copy)]
pub(crate) enum Fault {
    /// Memory is out.
    Memory,
    /// A worker's next step was refused.
    Stuck,
    /// The store refuses a mark.
    Mark,
    /// A reply differs.
    Reply,
    /// More replies were handed out, or fewer.
    Replies,
    /// A word has another value after a start.
    Word,
    /// A quota differs, in the store or in what is seen of the world.
    Quota,
    /// Quotas that don't fit were taken, or they changed something.
    Taken,
    /// A group of checks, by its name, doesn't hold after this event.
    Broken(&'static str, u64),
}

impl Fault {
    /// Gives a text for what went wrong, and after which event, if that is known.
    pub(crate) fn told(self) -> (&'static str, u64) {
        match self {
            Fault::Memory => ("Memory", 0),
            Fault::Stuck => ("stuck", 0),
            Fault::Mark => ("mark", 0),
            Fault::Reply => ("reply", 0),
            Fault::Replies => ("replies", 0),
            Fault::Word => ("word", 0),
            Fault::Quota => ("quota", 0),
            Fault::Taken => ("taken", 0),
            Fault::Broken(group, event) => (group, event),
        }
    }
}

impl From<AllocError> for Fault {
    fn from(_: AllocError) -> Fault {
        Fault::Memory
    }
}

impl From<LoneFault> for Fault {
    fn from(fault: LoneFault) -> Fault {
        match fault {
            LoneFault::Illegal => Fault::Mark,
            LoneFault::Memory => Fault::Memory,
        }
    }
}

impl From<WorldFault> for Fault {
    fn from(fault: WorldFault) -> Fault {
        match fault {
            WorldFault::NotEnabled | WorldFault::LastNumber => Fault::Stuck,
            WorldFault::Memory => Fault::Memory,
        }
    }
}
