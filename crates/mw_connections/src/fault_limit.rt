//! A stream over another one: no further line is read from it after so many replies that tell a line's fault.
//!
//! `sockets.rt` puts one over the stream of each client, against programs that speak another protocol. Change it with
//! `specs/FaultLimits`. [`BLOCK`] may have another number.
ghost use Rattle.std.specs.Prelude.{◌≡◌, ◌+◌, ◌≤◌, length, None, IfOk, take};
ghost use Rattle.std.specs.Io.{ReadsAtMost};
ghost use Rattle.mw_connections.specs.FaultLimits.{HasOneEnd, IsCallOfLimited, one_less, text_len};

use arrayvec::ArrayVec;
use mw_session::{Others, PeerStream};
use std::io::{self, ErrorKind};
use std::sync::Wait;

/// How many bytes are asked of the stream below at a time.
const BLOCK: usize = 512;

/// The byte that ends a line.
const LINE_FEED: u8 = b'\n';

/// What a reply begins with that tells a line's fault. No other reply begins so, and no rest of a reply.
const FAULT: &[u8] = b"ERR";

/// A stream over another one. If the faults are limited, each read gives at most one line feed, as its last byte, so that a
/// session answers one line at a time. After so many replies that tell a fault each read fails.
///
/// After the end of the writing nothing is limited: what the client still sends is only dropped.
#[derive(Drop)]
pub(crate) struct FaultLimit<T> {
    stream: T,
    /// How many more faults may be told. None: any number.
    left: Option<u32>,
    /// What was read from the stream below at last.
    block: ArrayVec<u8, BLOCK>,
    /// How much of the block was given.
    given: usize,
}

impl<T> FaultLimit<T> {
    /// Makes a stream over this one, in which so many faults may be told. None: any number.
    pub(crate) fn new(stream: T, faults: Option<u32>) -> Self
        ensures left { result.left ≡ faults }
        ensures stream { result.stream ≡ stream }
    {
        FaultLimit {
            stream,
            left: faults,
            block: ArrayVec::new(),
            given: 0,
        }
    }
}

impl<T: PeerStream> FaultLimit<T> {
    /// Reads up to the end of a line, and no further.
    ///
    /// # Errors
    ///
    /// As the stream below. Nothing was read.
    fn read_line<R: Wait, O: Others>(
        &mut self,
        rt: &R,
        others: &O,
        piece: &mut [u8],
    ) -> io::Result<usize>
        ensures bound { ReadsAtMost result piece.new }
        ensures line { IfOk result (λ count. HasOneEnd (take count piece.new)) }
        ensures left { self.new.left ≡ self.old.left }
    {
        if self.given >= self.block.len() {
            if let Err(fault) = self.fill(rt, others) {
                return Err(fault);
            }
        }
        let given = self.given;
        let count = match self.block.as_slice().get(given..) {
            Some(rest) => copy_line(rest, piece),
            None => 0,
        };
        self.given = given.saturating_add(count);
        Ok(count)
    }

    /// Reads the next block from the stream below.
    ///
    /// # Errors
    ///
    /// As that stream. The block is empty then.
    fn fill<R: Wait, O: Others>(&mut self, rt: &R, others: &O) -> io::Result<()>
        ensures left { self.new.left ≡ self.old.left }
    {
        self.block.clear();
        self.given = 0;
        let mut bytes = [0; BLOCK];
        match self.stream.read(rt, others, &mut bytes) {
            Ok(count) => {
                self.block.try_extend_from_slice(&bytes[..count]).unwrap();
                Ok(())
            }
            Err(fault) => Err(fault),
        }
    }
}

/// Copies the first line with its line feed, or as much of it as is there and has room in the piece. Gives how many bytes.
fn copy_line(bytes: &[u8], piece: &mut [u8]) -> usize
    ensures bound { result ≤ length piece.new }
    ensures line { HasOneEnd (take result piece.new) }
    ensures room { length piece.new ≡ length piece.old }
{
    let count = line_len(bytes).min(piece.len());
    piece[..count].copy_from_slice(&bytes[..count]);
    count
}

/// Gives how many bytes the first line has with its line feed, or all bytes if there is none.
fn line_len(bytes: &[u8]) -> usize
    ensures within { result ≤ length bytes.now }
    ensures line { result ≤ text_len bytes.now + 1 }
{
    text_len(bytes).saturating_add(1).min(bytes.len())
}

/// Gives how many bytes are before the first line feed; all of them if there is none.
fn text_len(bytes: &[u8]) -> usize
    ensures { result ≡ text_len bytes.now }
{
    bytes.iter().take_while(|byte| **byte != LINE_FEED).count()
}

/// Gives how many faults may be told after one more.
fn one_less(left: Option<u32>) -> Option<u32>
    ensures { result ≡ one_less left }
{
    match left {
        Some(left) => Some(left.saturating_sub(1)),
        None => None,
    }
}

impl<T: PeerStream> PeerStream for FaultLimit<T> {
    ghost remaining = { λ _. None };

    ghost contents = { λ _. None };

    ghost called = { λ old call new. IsCallOfLimited old.left call new.left };

    fn read<R: Wait, O: Others>(
        &mut self,
        rt: &R,
        others: &O,
        piece: &mut [u8],
    ) -> io::Result<usize> {
        match self.left {
            None => self.stream.read(rt, others, piece),
            Some(0) => Err(io::Error::from(ErrorKind::InvalidData)),
            Some(_) => self.read_line(rt, others, piece),
        }
    }

    fn write<R: Wait, O: Others>(&mut self, rt: &R, others: &O, text: &[u8]) -> io::Result<usize> {
        if text.starts_with(FAULT) {
            self.left = one_less(self.left);
        }
        self.stream.write(rt, others, text)
    }

    fn end_writing(&mut self) -> io::Result<()> {
        self.left = None;
        self.stream.end_writing()
    }
}
