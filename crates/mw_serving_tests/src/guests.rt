//! Clients in memory: each has a script of what it says and what it must be told.
//!
//! Used by: `crowd_tests`, `session_tests`.
ghost use Rattle.std.specs.Prelude.{◌≡◌, None, Some};
ghost use Rattle.mw_session.specs.KnownStreams.{inner_of, reads_of, writes_of};

use mw_connections::{Connection, Listener};
use mw_session::{Duplex, Ended, Others, PeerStream, RecordedStream, Service, Session};
use mw_test_peers::{Failure, Sender};
use std::alloc::Global;
use std::io;
use std::io::{ErrorKind, Write};
use std::sync::{Mutex, Wait};

/// More bytes than are said or told.
pub const ALL: usize = usize::MAX;

/// What a client says, what it must be told, and how its session must end.
#[derive(Clone, Copy)]
pub struct Script<'a> {
    pub says: &'a [u8],
    /// How many bytes it says at a time, and what it does after the last one.
    pub piece: usize,
    pub then: Failure,
    /// What it is told. It takes no more than this.
    pub told: &'a [u8],
    /// How many bytes it takes at a time, and what it does in place of taking one more.
    pub bite: usize,
    pub full: Failure,
    pub ends: Ended,
}

impl<'a> Script<'a> {
    /// Makes a client that says this at once and takes that at once. It goes away if it is told more.
    pub fn new(says: &'a [u8], told: &'a [u8], ends: Ended) -> Self {
        Script {
            says,
            piece: ALL,
            then: Failure::Nothing,
            told,
            bite: ALL,
            full: Failure::Error,
            ends,
        }
    }
}

/// What a client was told, as far as its script says it, and how its last session ended.
#[derive(Clone, Copy)]
pub struct Heard {
    /// How many bytes it took. All of them were as its script says.
    taken: usize,
    /// How many times it was written to, with the calls that failed.
    pub calls: usize,
    ended: Option<Ended>,
    sessions: usize,
}

impl Heard {
    /// Nothing was told yet.
    pub fn new() -> Self {
        Heard {
            taken: 0,
            calls: 0,
            ended: None,
            sessions: 0,
        }
    }

    /// Tells whether all of this text was told, and no more, in one session, and that ended so.
    pub fn is(&self, told: &[u8], ends: Ended) -> bool {
        self.taken == told.len() && self.ended == Some(ends) && self.sessions == 1
    }

    /// Tells whether nothing was told, and no session was held.
    pub fn is_nothing(&self) -> bool {
        self.taken == 0 && self.ended.is_none() && self.sessions == 0
    }

    fn note_write(&mut self, taken: usize) {
        self.taken = self.taken.saturating_add(taken);
        self.calls = self.calls.saturating_add(1);
    }

    fn note_end(&mut self, ended: Ended) {
        self.ended = Some(ended);
        self.sessions = self.sessions.saturating_add(1);
    }
}

/// A writer that takes just this text, so many bytes a call. It fails at another byte, and so after the last one.
#[derive(Drop)]
struct Ear<'a> {
    rest: &'a [u8],
    bite: usize,
    full: Failure,
}

impl<'a> Write for Ear<'a> {
    fn write(&mut self, buf: &[u8]) -> io::Result<usize> {
        let count = self.bite.min(self.rest.len()).min(buf.len());
        if count == 0 && self.full.is_error() {
            return Err(io::Error::from(ErrorKind::Interrupted));
        }
        let (taken, rest) = self.rest.split_at(count);
        if !buf.starts_with(taken) {
            return Err(io::Error::from(ErrorKind::InvalidData));
        }
        self.rest = rest;
        Ok(count)
    }

    fn flush(&mut self) -> io::Result<()> {
        Ok(())
    }
}

/// What a client says and takes. What it takes is heard.
#[derive(Drop)]
struct Talk<'a> {
    pair: Duplex<Sender<'a>, Ear<'a>>,
    heard: &'a Mutex<Heard>,
}

impl<'a> PeerStream for Talk<'a> {
    ghost remaining = { λ t. Some t.pair.reader.rest.now };

    ghost contents = { λ _. None };

    fn read<R: Wait, O: Others>(
        &mut self,
        rt: &R,
        others: &O,
        piece: &mut [u8],
    ) -> io::Result<usize> {
        self.pair.read(rt, others, piece)
    }

    fn write<R: Wait, O: Others>(&mut self, rt: &R, others: &O, text: &[u8]) -> io::Result<usize> {
        let answer = self.pair.write(rt, others, text);
        let taken = match &answer {
            Ok(taken) => *taken,
            Err(_) => 0,
        };
        self.heard.lock(rt).note_write(taken);
        answer
    }

    fn end_writing(&mut self) -> io::Result<()> {
        Ok(())
    }
}

/// One client.
#[derive(Drop)]
pub struct Guest<'a> {
    stream: RecordedStream<Talk<'a>>,
    heard: &'a Mutex<Heard>,
}

impl<'a> Guest<'a> {
    /// Makes a client with this script. What happens is heard there.
    pub fn new(script: &Script<'a>, heard: &'a Mutex<Heard>) -> Self {
        let pair = Duplex {
            reader: Sender::new(script.says, script.piece, script.then),
            writer: Ear {
                rest: script.told,
                bite: script.bite,
                full: script.full,
            },
        };
        Guest {
            stream: RecordedStream::new(Talk { pair, heard }),
            heard,
        }
    }
}

impl<'a> Connection for Guest<'a> {
    ghost left = { λ c. Some (inner_of c.stream).pair.reader.rest.now };

    ghost sent = { λ _. None };

    ghost reads = { λ c. reads_of c.stream };

    ghost writes = { λ c. writes_of c.stream };

    ghost promised = { λ _. Unit {0} };

    fn serve<S: Service, R: Wait, O: Others>(
        &mut self,
        rt: &R,
        alloc: Global,
        service: &mut S,
        others: &O,
    ) -> Ended {
        let ended = Session::run(alloc, rt, others, &mut self.stream, service);
        self.heard.lock(rt).note_end(ended);
        ended
    }

    fn leave<R: Wait>(&mut self, _rt: &R) {}
}

/// What a call for the next client answers.
#[derive(Clone, Copy)]
pub enum Answer<'a> {
    /// A client comes with a script of these parts ([`Script::new`]).
    Client {
        says: &'a [u8],
        told: &'a [u8],
        ends: Ended,
    },
    /// The call fails.
    Fault(ErrorKind),
}

/// Clients that come one after the other.
#[derive(Drop)]
pub struct Crowd<'a> {
    pub answers: &'a [Answer<'a>],
    pub heard: &'a [Mutex<Heard>],
    /// How many connections were asked for.
    pub asked: usize,
}

impl<'a> Listener for Crowd<'a> {
    type Connection = Guest<'a>;

    ghost accepts = { λ _ _ _. Unit {0} };

    fn accept(&mut self) -> io::Result<Guest<'a>> {
        let now = self.asked;
        self.asked = now.saturating_add(1);
        let (Some(answer), Some(heard)) = (self.answers.get(now), self.heard.get(now)) else {
            return Err(io::Error::from(ErrorKind::NotFound));
        };
        match answer {
            Answer::Client { says, told, ends } => {
                Ok(Guest::new(&Script::new(says, told, *ends), heard))
            }
            Answer::Fault(kind) => Err(io::Error::from(*kind)),
        }
    }
}
