//! A reader and a writer that fail when they are told to, for tests of sessions.
//!
//! Used by: mw_engine_tests, mw_serving_tests. It may change with these crates.
ghost use Rattle.std.specs.Prelude.{Some};

use arrayvec::ArrayVec;
use std::io;
use std::io::{ErrorKind, Read, Write};

/// Says what a peer does after its last byte.
#[derive(Clone, Copy)]
pub enum Failure {
    /// It answers an error.
    Error,
    /// It gives or takes nothing.
    Nothing,
}

impl Failure {
    /// Tells whether the peer answers an error.
    pub fn is_error(self) -> bool {
        matches!(self, Failure::Error)
    }
}

/// A reader of these bytes, so many a call, at least one. After them it fails.
#[derive(Drop)]
pub struct Sender<'a> {
    /// What it hasn't given yet.
    pub rest: &'a [u8],
    piece: usize,
    /// The error that it answers after the last byte. None: it gives nothing then.
    fault: Option<ErrorKind>,
}

impl<'a> Sender<'a> {
    /// Makes a reader of these bytes, so many a call, that fails so after them.
    pub fn new(bytes: &'a [u8], piece: usize, failure: Failure) -> Self {
        let fault = failure.is_error().then_some(ErrorKind::Interrupted);
        Sender::with_fault(bytes, piece, fault)
    }

    /// Makes a reader of these bytes, so many a call, that answers this error after them, if there is one.
    pub fn with_fault(bytes: &'a [u8], piece: usize, fault: Option<ErrorKind>) -> Self {
        Sender {
            rest: bytes,
            piece,
            fault,
        }
    }
}

impl<'a> Read for Sender<'a> {
    ghost remaining = { λ s. Some s.rest.now };

    fn read(&mut self, buf: &mut [u8]) -> io::Result<usize> {
        if let (true, Some(fault)) = (self.rest.is_empty(), self.fault) {
            return Err(io::Error::from(fault));
        }
        let count = self.piece.max(1).min(buf.len());
        self.rest.read(&mut buf[..count])
    }
}

/// A writer that takes so many bytes a call, and so many in all. At the next byte it fails.
#[derive(Drop)]
pub struct Page {
    /// What it took.
    pub text: ArrayVec<u8, 256>,
    piece: usize,
    room: usize,
    failure: Failure,
    /// How many times it was written to, with the calls that failed.
    pub calls: usize,
}

impl Page {
    /// Makes a writer that takes so many bytes a call and has room for so many, and then fails so.
    pub fn new(piece: usize, room: usize, failure: Failure) -> Self {
        Page {
            text: ArrayVec::new(),
            piece,
            room,
            failure,
            calls: 0,
        }
    }
}

impl Write for Page {
    fn write(&mut self, buf: &[u8]) -> io::Result<usize> {
        self.calls = self.calls.saturating_add(1);
        let room = self.room.saturating_sub(self.text.len());
        let count = self.piece.min(buf.len()).min(room);
        if count == 0 && self.failure.is_error() {
            return Err(io::Error::from(ErrorKind::Interrupted));
        }
        match self.text.try_extend_from_slice(&buf[..count]) {
            Ok(()) => Ok(count),
            Err(_) => Err(io::Error::from(ErrorKind::WriteZero)),
        }
    }

    fn flush(&mut self) -> io::Result<()> {
        Ok(())
    }
}
