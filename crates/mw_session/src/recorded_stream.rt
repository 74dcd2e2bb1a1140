//! Owns a peer's stream, and records what is read from it and written to it.
//!
//! Used by: `session`, `writer`, mw_http, mw_connections, mw_service, mw_programs. Nothing else reads or writes the
//! stream: its fields are private, and a record begins here, empty. So what a contract says of the record, it says of
//! the calls made here. [`RecordedStream::read`] and [`RecordedStream::write`] make one call of the stream each, and
//! give and record its outcome.
ghost use Rattle.std.specs.Prelude.{◌≡◌, ◌<◌, length, IfOk};
ghost use Rattle.std.specs.Io.{ReadsAtMost, WritesAtMost};
ghost use Rattle.std.specs.Io.KnownBytes.{IsAtEnd};
ghost use Rattle.mw_session.specs.StreamRecords.{no_reads, no_writes, reads_after, writes_after};
ghost use Rattle.mw_session.specs.KnownStreams.{IsTied, inner_of, reads_of, writes_of};
ghost use Rattle.mw_session.specs.PeerCalls.{Reads, Writes, EndsWriting};

use crate::stream::{Others, PeerStream};
use crate::stream_call::{Block, StreamCall};
use crate::transcript::Transcript;
use std::io;
use std::sync::Wait;

/// A peer's stream with a record of all that was read from it and written to it. The record takes no memory.
#[derive(Drop)]
pub struct RecordedStream<T> {
    inner: T,
    transcript: Transcript,
}

impl<T: PeerStream> RecordedStream<T> {
    /// Takes a stream, of which nothing is recorded yet.
    pub fn new(stream: T) -> RecordedStream<T>
        ensures inner { inner_of result ≡ stream }
        ensures reads { reads_of result ≡ no_reads }
        ensures writes { writes_of result ≡ no_writes }
    {
        RecordedStream {
            inner: stream,
            transcript: Transcript::new(),
        }
    }

    /// Reads once, as [`PeerStream::read`] does, into a piece with room. It is recorded what was read, that the stream
    /// is at its end, or that the read failed.
    ///
    /// # Errors
    ///
    /// As [`PeerStream::read`].
    pub fn read<R: Wait, O: Others>(
        &mut self,
        rt: &R,
        others: &O,
        piece: &mut [u8],
    ) -> io::Result<usize>
        requires room { 0 < length piece.old }
        ensures bound { ReadsAtMost result piece.new }
        ensures reads { reads_of self.new ≡ reads_after (reads_of self.old) result piece.new }
        ensures writes { writes_of self.new ≡ writes_of self.old }
        ensures tied { IsTied T.remaining T.contents self.old self.new }
        ensures called { T.called (inner_of self.old) (Reads piece.new result) (inner_of self.new) }
        ensures at_end { IfOk result (λ count. count ≡ 0 → IsAtEnd (T.remaining (inner_of self.new))) }
    {
        match self.inner.read(rt, others, piece) {
            Ok(0) => {
                self.transcript = self.transcript.with(&StreamCall::AtEnd);
                Ok(0)
            }
            Ok(count) => {
                let bytes = Block::of(&piece[..count]);
                self.transcript = self.transcript.with(&StreamCall::Read(bytes));
                Ok(count)
            }
            Err(fault) => {
                self.transcript = self.transcript.with(&StreamCall::ReadFault);
                Err(fault)
            }
        }
    }

    /// Writes once, as [`PeerStream::write`] does, a text that isn't empty. It is recorded what was written, or that the
    /// write failed or took no byte.
    ///
    /// # Errors
    ///
    /// As [`PeerStream::write`].
    pub fn write<R: Wait, O: Others>(
        &mut self,
        rt: &R,
        others: &O,
        text: &[u8],
    ) -> io::Result<usize>
        requires some { 0 < length text.now }
        ensures bound { WritesAtMost result text.now }
        ensures reads { reads_of self.new ≡ reads_of self.old }
        ensures writes { writes_of self.new ≡ writes_after (writes_of self.old) result text.now }
        ensures tied { IsTied T.remaining T.contents self.old self.new }
        ensures called { T.called (inner_of self.old) (Writes text.now result) (inner_of self.new) }
    {
        match self.inner.write(rt, others, text) {
            Ok(0) => {
                self.transcript = self.transcript.with(&StreamCall::WriteFault);
                Ok(0)
            }
            Ok(count) => {
                let bytes = Block::of(&text[..count]);
                self.transcript = self.transcript.with(&StreamCall::Written(bytes));
                Ok(count)
            }
            Err(fault) => {
                self.transcript = self.transcript.with(&StreamCall::WriteFault);
                Err(fault)
            }
        }
    }

    /// Tells the peer that it is told no more, as [`PeerStream::end_writing`] does. Nothing is recorded.
    ///
    /// # Errors
    ///
    /// As [`PeerStream::end_writing`].
    pub fn end_writing(&mut self) -> io::Result<()>
        ensures reads { reads_of self.new ≡ reads_of self.old }
        ensures writes { writes_of self.new ≡ writes_of self.old }
        ensures tied { IsTied T.remaining T.contents self.old self.new }
        ensures called { T.called (inner_of self.old) (EndsWriting result) (inner_of self.new) }
    {
        self.inner.end_writing()
    }
}
