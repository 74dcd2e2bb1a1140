//! What was read from a stream and written to it, as contracts read it. At run time it takes no memory.
//!
//! Only `recorded_stream.rt` has one. It may change with `specs/StreamRecords`, which says what a call adds.
ghost use Rattle.std.specs.Prelude.{◌≡◌};
ghost use Rattle.std.specs.Borrow.{ftrue};
ghost use Rattle.mw_session.specs.StreamRecords.{ReadRecord, WriteRecord, no_reads, no_writes, reads_with, writes_with};

use crate::stream_call::StreamCall;
use std::marker::Model;

/// All bytes that were read from a stream and written to it, and how often a call ended otherwise.
#[derive(Drop)]
pub struct Transcript {
    ghost reads: { ReadRecord },
    ghost writes: { WriteRecord },
}

impl Model for Transcript {
    ghost also_owns = { λ _. ftrue };
}

// It owns nothing.
unsafe impl Send for Transcript {}

unsafe impl Sync for Transcript {}

impl Transcript {
    /// The transcript of a stream before its first call.
    pub(crate) fn new() -> Transcript
        ensures { result ≡ record { reads = no_reads; writes = no_writes } }
    {
        Transcript {}
    }

    /// Returns the transcript after this call.
    pub(crate) fn with(&self, _call: &StreamCall) -> Transcript
        ensures { result ≡ record {
          reads = reads_with _call.now self.now.reads;
          writes = writes_with _call.now self.now.writes;
        } }
    {
        Transcript {}
    }
}
