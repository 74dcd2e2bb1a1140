//! The listener for clients that stay for one request and its answer, and such a client.
//!
//! mw_server listens for them, and mw_server_pages answers them. Two limits of time run from the moment when the
//! client comes, one for all reads and one for all writes; `timed_stream.rt` keeps them. Nothing is proved of
//! sockets; what was read and written is recorded.
ghost use Rattle.mw_session.specs.KnownStreams.{reads_of, writes_of};

use crate::lease::Lease;
use crate::leased_stream::{ClientLease, LeasedStream};
use crate::listening_socket::{Closer, ListeningSocket, OpensSockets};
use crate::network::Network;
use crate::promise::PagesPromise;
use crate::sockets::say_goodbye;
use crate::timed_stream::{Span, TimedStream};
use crate::visitors::{Visitor, VisitorListener};
use mw_http::{Exchanged, Pages, exchange};
use mw_session::RecordedStream;
use std::io;
use std::marker::PhantomData;
use std::sync::Wait;
use std::time::{Clock, Duration, Instant};

/// How long a client may take, in seconds of at least 1.
#[derive(Clone, Copy)]
pub struct BriefLimits {
    /// From when it comes until its request has been read.
    pub request: u32,
    /// From when it comes until its answer has been written.
    pub whole: u32,
}

/// A listener for clients that stay for one request, over TCP or by a local socket.
#[derive(Drop)]
pub struct BriefListener<'a, K, Q> {
    door: ListeningSocket,
    clock: &'a K,
    limits: BriefLimits,
    /// The lease that each answer needs, if it needs one.
    lease: Option<&'a Lease>,
    /// What its clients are promised.
    promise: PhantomData<Q>,
}

/// A client that stays for one request. Nobody else has its stream.
#[derive(Drop)]
pub struct BriefClient<'a, K, Q> {
    stream: RecordedStream<LeasedStream<TimedStream<'a, K>, ClientLease<'a, K>>>,
    promise: PhantomData<Q>,
}

/// Listens at an address, as [`crate::listen_at`] does, for clients that stay for one request.
///
/// # Errors
///
/// As [`crate::listen_at`].
pub fn listen_briefly<'a, R: OpensSockets, Q>(
    network: &Network<'a, R, Q>,
    address: &str,
    mode: u32,
    limits: BriefLimits,
) -> io::Result<BriefListener<'a, R, Q>> {
    let door = network.rt.open_socket(address, mode)?;
    Ok(BriefListener {
        door,
        clock: network.rt,
        limits,
        lease: None,
        promise: PhantomData,
    })
}

impl<'a, K, Q> BriefListener<'a, K, Q> {
    /// Has each answer to the clients that it gives from now on need this lease, as [`LeasedStream`] tells. None: it needs none.
    pub fn with_lease(mut self, lease: Option<&'a Lease>) -> Self {
        self.lease = lease;
        self
    }

    /// Gives what ends the wait for these clients.
    ///
    /// # Errors
    ///
    /// The system has no room for it.
    pub fn closer(&self) -> io::Result<Closer> {
        self.door.closer()
    }

    /// Tells whether clients of other machines may come: it listens over TCP, and not at a loopback address.
    ///
    /// # Errors
    ///
    /// The system doesn't tell.
    pub fn is_open(&self) -> io::Result<bool> {
        self.door.is_open()
    }

    /// Gives the port at which clients over TCP find the listener, and None for a local socket.
    ///
    /// # Errors
    ///
    /// The system doesn't tell.
    pub fn port(&self) -> io::Result<Option<u16>> {
        self.door.port()
    }
}

impl<'a, K: Clock + Sync, Q: PagesPromise> VisitorListener for BriefListener<'a, K, Q> {
    type Visitor = BriefClient<'a, K, Q>;

    ghost accepts = { λ _ _ _. Unit {0} };

    fn accept(&mut self) -> io::Result<BriefClient<'a, K, Q>> {
        let stream = self.door.next()?;
        let begun = Instant::now(self.clock)?;
        let (request, whole) = (self.limits.request, self.limits.whole);
        let stream = TimedStream::brief(
            stream,
            self.clock,
            span_of(begun, request),
            span_of(begun, whole),
        );
        let lease = ClientLease {
            lease: self.lease,
            clock: self.clock,
        };
        Ok(BriefClient {
            stream: RecordedStream::new(LeasedStream::new(stream, lease)),
            promise: PhantomData,
        })
    }
}

impl<'a, K: Clock, Q: PagesPromise> Visitor for BriefClient<'a, K, Q> {
    ghost reads = { λ client. reads_of client.stream };

    ghost writes = { λ client. writes_of client.stream };

    ghost promised = { Q.shown };

    fn exchange<P: Pages, R: Wait>(
        &mut self,
        rt: &R,
        pages: &mut P,
        names: &[String],
    ) -> Exchanged {
        exchange(rt, &mut self.stream, pages, names)
    }

    fn leave<R: Wait>(&mut self, rt: &R) {
        say_goodbye(rt, &mut self.stream);
    }
}

/// Makes a time of so many seconds from this moment on.
fn span_of(begun: Instant, seconds: u32) -> Span {
    Span {
        begun,
        long: Duration::from_secs(u64::from(seconds)),
    }
}
