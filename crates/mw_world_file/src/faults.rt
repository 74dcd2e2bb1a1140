//! The reasons for which a call on a simulated file, or a start of it, is refused.
//!
//! mw_simulator makes its own fault of it, in `src/faults.rt`: a new kind needs a case there.

use std::alloc::AllocError;

/// Why a call on a file, or a start of it, is refused. The book stays unchanged.
#[derive(Clone, Copy, Debug, PartialEq, Eq)]
pub enum BookFault {
    /// It can't happen in this state of the file.
    NotEnabled,
    /// Memory is out.
    Memory,
}

impl From<AllocError> for BookFault {
    ghost use Rattle.std.specs.Prelude.{◌≡◌};
    ghost use Rattle.mw_world_file.specs.declared.faults.BookFault.TheVariants.{Memory};

    ghost from_gives = { λ _ e. e ≡ Memory };

    fn from(_: AllocError) -> Self {
        BookFault::Memory
    }
}
