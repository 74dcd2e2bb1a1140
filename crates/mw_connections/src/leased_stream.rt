//! A stream over another one, which asks a lease before it writes what a server without its lease may not tell.
//!
//! `sockets.rt` and `brief.rt` put one over the stream of each client. `specs/Leases` says what it promises: change both
//! together.
ghost use Rattle.std.specs.Prelude.{◌≡◌, is_some, Bool};
ghost use Rattle.mw_connections.specs.Leases.{IsCallOfLeased, Tells, needs_none};

use crate::lease::Lease;
use mw_session::{Others, PeerStream};
use std::io::{self, ErrorKind};
use std::sync::Wait;
use std::time::{Clock, Instant};

/// What the replies begin with that need no lease. No other reply begins so.
const NEEDS_NONE: [&[u8]; 4] = [b"YES", b"BUSY", b"FAULT", b"WORN"];

/// Tells whether the server may tell what its tenants have.
pub trait AsksLease {
    // A question with its answer leads from one state to another.
    ghost asked: { Self → Bool → Self → Type 0 };

    /// Tells whether the lease is good now.
    fn is_good<R: Wait>(&mut self, rt: &R) -> bool
        ensures { asked self.old result self.new };
}

/// A lease, if there is one, and the clock by which it is judged. Without a lease all may be told, and no clock is read.
#[derive(Drop)]
pub struct ClientLease<'a, K> {
    pub(crate) lease: Option<&'a Lease>,
    pub(crate) clock: &'a K,
}

impl<K: Clock> AsksLease for ClientLease<'_, K> {
    ghost asked = { λ old good new. (new ≡ old) × Tells (is_some old.lease) good };

    fn is_good<R: Wait>(&mut self, rt: &R) -> bool {
        let Some(lease) = self.lease else {
            return true;
        };
        match Instant::now(self.clock) {
            Ok(now) => lease.is_good_at(rt, now),
            Err(_) => false,
        }
    }
}

/// A stream over another one. It writes a text that needs a lease only after the lease told that it is good, and else fails.
#[derive(Drop)]
pub struct LeasedStream<T, L> {
    stream: T,
    lease: L,
}

impl<T, L> LeasedStream<T, L> {
    /// Makes a stream over this one, which asks this lease.
    pub(crate) fn new(stream: T, lease: L) -> Self
        ensures stream { result.stream ≡ stream }
        ensures lease { result.lease ≡ lease }
    {
        LeasedStream { stream, lease }
    }
}

/// Tells whether a text needs no lease.
fn needs_none(text: &[u8]) -> bool
    ensures { result ≡ needs_none text.now }
{
    let [yes, busy, fault, worn] = NEEDS_NONE;
    text.starts_with(yes)
        || text.starts_with(busy)
        || text.starts_with(fault)
        || text.starts_with(worn)
}

impl<T: PeerStream, L: AsksLease> PeerStream for LeasedStream<T, L> {
    ghost remaining = { λ leased. T.remaining leased.stream };

    ghost contents = { λ leased. T.contents leased.stream };

    ghost called = { λ old call new. IsCallOfLeased L.asked T.called old.lease old.stream call new.lease new.stream };

    fn read<R: Wait, O: Others>(
        &mut self,
        rt: &R,
        others: &O,
        piece: &mut [u8],
    ) -> io::Result<usize> {
        self.stream.read(rt, others, piece)
    }

    fn write<R: Wait, O: Others>(&mut self, rt: &R, others: &O, text: &[u8]) -> io::Result<usize> {
        if needs_none(text) {
            return self.stream.write(rt, others, text);
        }
        if self.lease.is_good(rt) {
            self.stream.write(rt, others, text)
        } else {
            Err(io::Error::from(ErrorKind::PermissionDenied))
        }
    }

    fn end_writing(&mut self) -> io::Result<()> {
        self.stream.end_writing()
    }
}
