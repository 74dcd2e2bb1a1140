//! The trait of a peer's stream, which a session reads and writes, and of what a wait for the peer is told of others
//! who wait.
//!
//! Used by: `recorded_stream`, mw_http, mw_connections, mw_server_pages, mw_workers, mw_service, mw_programs.
//! [`Duplex`] makes one of a reader and a writer; mw_connections has that of a socket. A new call needs a body in each.
ghost use Rattle.std.specs.Prelude.{ℕ, List, Option};
ghost use Rattle.std.specs.Io.{ReadsAtMost, WritesAtMost};
ghost use Rattle.std.specs.Io.KnownBytes.{Keeps, ReadConsumes, WriteAppends};
ghost use Rattle.mw_session.specs.PeerCalls.{PeerCall, Reads, Writes, EndsWriting, IsCallOfDuplex};

use std::io;
use std::io::{Read, Write};
use std::sync::Wait;
use std::time::Duration;

/// Tells a session whether other clients wait for its worker.
pub trait Others {
    /// Gives for how long the client may end no line while others wait. None: nobody waits for this worker
    /// alone.
    fn turn(&self) -> Option<Duration>;

    /// Tells whether others wait now.
    fn wait(&self) -> bool;
}

/// Nobody waits for this worker alone: whoever waits is served by the first worker that is free.
#[derive(Drop)]
pub struct NoOthers;

impl Others for NoOthers {
    fn turn(&self) -> Option<Duration> {
        None
    }

    fn wait(&self) -> bool {
        false
    }
}

/// A stream to a peer: gives what the peer sends, and takes what it is told.
pub trait PeerStream {
    // The bytes that reads will give from here on, where they are known.
    ghost remaining: { Self → Option (List ℕ) };

    // The bytes that writes have taken, where they are known.
    ghost contents: { Self → Option (List ℕ) };

    // A call with its outcome leads from one state of the stream to another: what the stream tells of its calls. By default
    // it tells nothing more than the clauses below.
    ghost called: { Self → PeerCall → Self → Type 0 } = { λ _ _ _. Unit {0} };

    /// Reads bytes into the piece, and gives their number: 0 if no more come, or the piece has no room. It may wait for
    /// ever; it may also end its wait if others wait.
    ///
    /// # Errors
    ///
    /// The stream failed, or the peer was silent for too long. Nothing was read.
    fn read<R: Wait, O: Others>(
        &mut self,
        rt: &R,
        others: &O,
        piece: &mut [u8],
    ) -> io::Result<usize>
        ensures bound { ReadsAtMost result piece.new }
        ensures bytes { ReadConsumes (remaining self.old) (remaining self.new) result piece.new }
        ensures contents { Keeps (contents self.old) (contents self.new) }
        ensures called { called self.old (Reads piece.new result) self.new };

    /// Writes a first part of the text, and gives the number of its bytes. It may wait as a read does.
    ///
    /// # Errors
    ///
    /// The stream failed, or the peer took nothing for too long. Nothing was written.
    fn write<R: Wait, O: Others>(&mut self, rt: &R, others: &O, text: &[u8]) -> io::Result<usize>
        ensures bound { WritesAtMost result text.now }
        ensures bytes { WriteAppends (contents self.old) (contents self.new) result text.now }
        ensures remaining { Keeps (remaining self.old) (remaining self.new) }
        ensures called { called self.old (Writes text.now result) self.new };

    /// Tells the peer that it is told no more. Reads that follow wait for what the peer still sends, not for long.
    ///
    /// # Errors
    ///
    /// The system refuses.
    fn end_writing(&mut self) -> io::Result<()>
        ensures contents { Keeps (contents self.old) (contents self.new) }
        ensures remaining { Keeps (remaining self.old) (remaining self.new) }
        ensures called { called self.old (EndsWriting result) self.new };
}

/// A stream of a reader and a writer. It waits as they do, whoever else waits. The end of the writing goes well, and nobody is
/// told of it. The library's traits tell of no read or write why it failed, so no contract says that these calls fail exactly
/// if the reader or the writer fails.
#[derive(Drop)]
pub struct Duplex<I, O> {
    pub reader: I,
    pub writer: O,
}

impl<I: Read, O: Write> PeerStream for Duplex<I, O> {
    ghost remaining = { λ d. I.remaining d.reader };

    ghost contents = { λ d. O.contents d.writer };

    ghost called = { IsCallOfDuplex };

    #[tactic(auto, using(crate::proofs::Agreements::keeps_same))]
    fn read<R: Wait, P: Others>(
        &mut self,
        _rt: &R,
        _others: &P,
        piece: &mut [u8],
    ) -> io::Result<usize> {
        self.reader.read(piece)
    }

    #[tactic(auto, using(crate::proofs::Agreements::keeps_same))]
    fn write<R: Wait, P: Others>(
        &mut self,
        _rt: &R,
        _others: &P,
        text: &[u8],
    ) -> io::Result<usize> {
        self.writer.write(text)
    }

    #[tactic(auto, using(crate::proofs::Agreements::keeps_same))]
    fn end_writing(&mut self) -> io::Result<()> {
        Ok(())
    }
}
