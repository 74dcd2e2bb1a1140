//! The calls of a disk in memory as contracts remember them, and how the next call will end.
//!
//! Used by: `memory.rt`, `history.rt`. A [`Call`] and an [`Event`] are for contracts alone. A new `Call` needs a case
//! in `specs/Memory` and `specs/Crash`, a new `Turn` one in `specs/Memory`.
ghost use Rattle.std.specs.Prelude.{◌≡◌, ℕ, List};
ghost use Rattle.std.specs.Borrow.{ftrue};

use std::marker::Model;

/// The bytes of a write. Only contracts read them: a block takes no memory.
#[derive(Drop)]
pub(crate) struct Block {
    ghost bytes: { List ℕ },
}

impl Model for Block {
    ghost Value = { List ℕ };

    ghost view = { λ b. b.bytes };

    ghost also_owns = { λ _. ftrue };
}

impl Block {
    pub(crate) fn of(_bytes: &[u8]) -> Block
        ensures { result ≡ _bytes.now }
    {
        Block {}
    }
}

/// A call of a disk in memory that left a trace.
#[derive(Drop)]
pub(crate) enum Call {
    /// A read, a look at the length, or a sync that failed. It says whether the call went well.
    Quiet(bool),
    /// A write that went well, with its offset and bytes.
    Wrote(u64, Block),
    /// A write that failed, with its offset and number of bytes.
    Tore(u64, u64),
    /// A sync that went well.
    Synced,
}

/// A call that left a trace, and how many calls failed without a trace since the one before it.
#[derive(Drop)]
pub(crate) struct Event {
    pub(crate) missed: u64,
    pub(crate) call: Call,
}

/// How a call will end.
#[derive(Clone, Copy, PartialEq, Eq)]
pub(crate) enum Turn {
    /// It goes well, if there is memory for it.
    Goes,
    /// It fails. The range of a write counts as written.
    Fails,
    /// The disk has stopped: the call fails and changes nothing.
    Stopped,
}

impl Turn {
    ghost use Rattle.mw_memory_disk.specs.Memory.{only_if};

    /// Returns the turn of a call that can go well only if this holds.
    pub(crate) fn only_if(self, fits: bool) -> Turn
        ensures { result ≡ only_if fits self }
    {
        match self {
            Turn::Goes if !fits => Turn::Fails,
            turn => turn,
        }
    }
}
