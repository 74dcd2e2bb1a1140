//! Implements listeners and connections by TCP sockets and local sockets.
//!
//! Used by: mw_server, which calls [`listen_at`]; `brief.rt`, which ends its connections by [`say_goodbye`].
//! No contract says what a socket carries; what was read and written is recorded. The limits at the top may have
//! other numbers; docs/OPERATING and docs/PROTOCOL tell them.
ghost use Rattle.std.specs.Prelude.{◌≡◌, None};
ghost use Rattle.mw_session.specs.KnownStreams.{reads_of, writes_of};

use crate::fault_limit::FaultLimit;
use crate::lease::Lease;
use crate::leased_stream::{ClientLease, LeasedStream};
use crate::listening_socket::{Closer, ListeningSocket, OpensSockets};
use crate::network::Network;
use crate::peer::{Connection, Listener};
use crate::promise::Promise;
use crate::time_limits::{TimeLimits, WaitLimits};
use crate::timed_stream::TimedStream;
use mw_metrics::ServerCounters;
use mw_session::{Ended, NoOthers, Others, PeerStream, RecordedStream, Service, Session};
use std::alloc::Global;
use std::io::{self, ErrorKind};
use std::marker::PhantomData;
use std::net::TcpStream;
use std::sync::Wait;
use std::time::Clock;

/// How many times a client whose session has ended is read at most before its connection is closed.
const LINGER_READS: u32 = 1024;

/// How many bytes one read of such a client takes at most. So at most 1 MiB is read.
const LINGER_PIECE: usize = 1024;

/// A listener for clients over TCP, or by a local socket.
#[derive(Drop)]
pub struct ClientListener<'a, K, Q> {
    door: ListeningSocket,
    clock: &'a K,
    limits: WaitLimits,
    /// After how many lines with a fault a session ends. None: after no such line.
    faults: Option<u32>,
    /// What counts the bytes of its clients, if they are counted.
    counters: Option<&'a ServerCounters>,
    /// The lease that its clients' replies need, if they need one.
    lease: Option<&'a Lease>,
    /// What its clients are promised.
    promise: PhantomData<Q>,
}

/// A client's connection, over TCP or by a local socket.
#[derive(Drop)]
pub struct Client<'a, K, Q> {
    stream: RecordedStream<LeasedStream<FaultLimit<TimedStream<'a, K>>, ClientLease<'a, K>>>,
    promise: PhantomData<Q>,
}

/// Listens at an address for clients who are served as `Q` promises. At `127.0.0.1:7000` it listens over TCP; at port 0 the system picks a free port.
/// At `unix:/run/mondlexi/socket` it makes a local socket of this file mode: who may write to that file may
/// connect. It takes over a socket file at which nobody listens, and no other file.
///
/// A session ends without a reply if one of the limits is over. Neither may be 0 seconds.
///
/// # Errors
///
/// The text is no address, or nobody can listen there, because somebody else does or the system refuses.
pub fn listen_at<'a, R: OpensSockets, Q>(
    network: &Network<'a, R, Q>,
    address: &str,
    mode: u32,
    limits: TimeLimits,
) -> io::Result<ClientListener<'a, R, Q>> {
    let door = network.rt.open_socket(address, mode)?;
    Ok(ClientListener {
        door,
        clock: network.rt,
        limits: limits.of_a_session(),
        faults: None,
        counters: None,
        lease: None,
        promise: PhantomData,
    })
}

/// Gives the port at which clients over TCP find the listener, and None for a local socket.
///
/// # Errors
///
/// The system doesn't tell.
pub fn port_of<K, Q>(clients: &ClientListener<'_, K, Q>) -> io::Result<Option<u16>> {
    clients.door.port()
}

impl<'a, K, Q> ClientListener<'a, K, Q> {
    /// Has the session of each client that it gives from now on end after so many lines that are answered by `ERR`: what the
    /// client sent after the last of them isn't looked at. None: it doesn't end for this.
    pub fn with_faults(mut self, faults: Option<u32>) -> Self {
        self.faults = faults;
        self
    }

    /// Has these counters count the bytes of all clients that it gives from now on.
    pub fn counted_by(mut self, counters: &'a ServerCounters) -> Self {
        self.counters = Some(counters);
        self
    }

    /// Has the replies to all clients that it gives from now on need this lease, as [`LeasedStream`] tells. None: they need none.
    pub fn with_lease(mut self, lease: Option<&'a Lease>) -> Self {
        self.lease = lease;
        self
    }

    /// Tells whether clients of other machines may come: it listens over TCP, and not at a loopback address.
    ///
    /// # Errors
    ///
    /// The system doesn't tell.
    pub fn is_open(&self) -> io::Result<bool> {
        self.door.is_open()
    }

    /// Gives what ends the wait for these clients.
    ///
    /// # Errors
    ///
    /// The system has no room for it.
    pub fn closer(&self) -> io::Result<Closer> {
        self.door.closer()
    }
}

impl<'a, K: Clock + Sync, Q: Promise> Listener for ClientListener<'a, K, Q> {
    type Connection = Client<'a, K, Q>;

    ghost accepts = { λ _ _ _. Unit {0} };

    fn accept(&mut self) -> io::Result<Client<'a, K, Q>> {
        let stream = self.door.next()?;
        // A connection without its limits could hold its worker for ever, so it is closed and not served.
        if limit_waits(&stream, &self.limits).is_err() {
            return Err(io::Error::from(ErrorKind::ConnectionAborted));
        }
        let stream = TimedStream::new(stream, self.clock, self.limits, self.counters);
        let lease = ClientLease {
            lease: self.lease,
            clock: self.clock,
        };
        let stream = LeasedStream::new(FaultLimit::new(stream, self.faults), lease);
        Ok(Client {
            stream: RecordedStream::new(stream),
            promise: PhantomData,
        })
    }
}

/// Limits how long a read or a write waits for the client, if there are limits.
///
/// # Errors
///
/// The system refuses.
fn limit_waits(stream: &TcpStream, limits: &WaitLimits) -> io::Result<()> {
    if limits.silence.is_some() {
        stream.set_read_timeout(limits.silence)?;
    }
    let write_wait = limits.write_wait();
    if write_wait.is_some() {
        stream.set_write_timeout(write_wait)?;
    }
    Ok(())
}

impl<'a, K: Clock, Q: Promise> Connection for Client<'a, K, Q> {
    ghost left = { λ _. None };

    ghost sent = { λ _. None };

    ghost reads = { λ c. reads_of c.stream };

    ghost writes = { λ c. writes_of c.stream };

    ghost promised = { Q.kept };

    fn serve<S: Service, R: Wait, O: Others>(
        &mut self,
        rt: &R,
        alloc: Global,
        service: &mut S,
        others: &O,
    ) -> Ended {
        Session::run(alloc, rt, others, &mut self.stream, service)
    }

    fn leave<R: Wait>(&mut self, rt: &R) {
        say_goodbye(rt, &mut self.stream);
    }
}

/// Lets a client whose session or exchange has ended read all that it was told, before its connection is closed. The
/// system resets a connection that is closed with unread bytes, and then the client loses what it hasn't
/// read.
///
/// Nothing more is written. What the client still sends is read and dropped, until the client closes its
/// side, was read [`LINGER_READS`] times, or is read no longer (`end_writing` of its stream), or a call fails.
pub(crate) fn say_goodbye<T: PeerStream, R: Wait>(rt: &R, stream: &mut RecordedStream<T>)
    ensures { writes_of stream.new ≡ writes_of stream.old }
{
    // If the system refuses this, the connection is closed all the same.
    if stream.end_writing().is_err() {
        return;
    }
    let mut piece = [0; LINGER_PIECE];
    for _ in 0..LINGER_READS {
        if stream.read(rt, &NoOthers, &mut piece).unwrap_or(0) == 0 {
            return;
        }
    }
}
