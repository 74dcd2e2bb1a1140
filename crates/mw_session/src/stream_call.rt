//! How one read or write of a peer's stream ended, as the stream's record remembers it.
//!
//! `recorded_stream.rt` tells it to `transcript.rt`. Only contracts look at it. A new one needs a case in
//! `specs/StreamRecords`.
ghost use Rattle.std.specs.Prelude.{◌≡◌, ℕ, List};
ghost use Rattle.std.specs.Borrow.{ftrue};

use std::marker::Model;

/// The bytes of a read or a write. Only contracts read them: a block takes no memory.
#[derive(Drop)]
pub(crate) struct Block {
    ghost bytes: { List ℕ },
}

impl Model for Block {
    ghost Value = { List ℕ };

    ghost view = { λ b. b.bytes };

    ghost also_owns = { λ _. ftrue };
}

impl Block {
    pub(crate) fn of(_bytes: &[u8]) -> Block
        ensures { result ≡ _bytes.now }
    {
        Block {}
    }
}

/// How one call of a stream ended.
#[derive(Drop)]
pub(crate) enum StreamCall {
    /// A read gave these bytes.
    Read(Block),
    /// A read found the stream at its end.
    AtEnd,
    /// A read failed.
    ReadFault,
    /// A write took these bytes.
    Written(Block),
    /// A write failed, or took no byte.
    WriteFault,
}
