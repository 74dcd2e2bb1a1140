//! A socket at which clients come: of TCP, or a local one.
//!
//! Used by: `brief`, `sockets.rt`, `local.rt`; mw_workers and mw_server, for [`Closer`]; mw_programs. It has no contracts.
//! [`BACKLOG`] may have another number; docs/PROTOCOL and docs/OPERATING tell it, and scripts/check-sockets has it.
use crate::local::listen_local;
use std::fs::File;
use std::io::{self, ErrorKind};
use std::net::{Net, Shutdown, TcpListener, TcpStream};
use std::os::fd::{AsRawFd, OwnedFd};
use std::os::unix::net::UnixListener;
use std::rt::Files;

/// How many clients may wait in the system before the listener takes them. Linux takes the lesser of this
/// and `/proc/sys/net/core/somaxconn`, and lets one more wait.
const BACKLOG: i32 = 4096;

/// The first characters of the address of a local socket. Its path follows.
const LOCAL: &str = "unix:";

/// Makes a bound socket listen. If it listens already, it only lets [`BACKLOG`] clients wait.
///
/// # Errors
///
/// The system refuses. The socket is closed.
pub(crate) fn listening<S: AsRawFd + Drop>(socket: S) -> io::Result<S> {
    if libc::net::listen(socket.as_raw_fd(), BACKLOG) == 0 {
        Ok(socket)
    } else {
        Err(io::Error::from(ErrorKind::Other))
    }
}

/// Ends the wait for clients, from another thread.
#[derive(Drop)]
pub struct Closer(TcpStream);

impl Closer {
    /// Makes the system give no more clients: an accept that waits, and each later one, fails at once.
    pub fn close(&self) {
        let _ = self.0.shutdown(Shutdown::Both);
    }
}

/// A listening socket of either kind.
#[derive(Drop)]
pub enum ListeningSocket {
    Tcp(TcpListener),
    Local(UnixListener),
}

/// Opens sockets at which clients come. Each runtime that has sockets and files does.
pub trait OpensSockets {
    /// Listens at this address. At `127.0.0.1:7000` it listens over TCP; at port 0 the system picks a free port. At
    /// `unix:/run/mondlexi/socket` it makes a local socket of this file mode.
    ///
    /// # Errors
    ///
    /// The text is no address, or nobody can listen there.
    fn open_socket(&self, address: &str, mode: u32) -> io::Result<ListeningSocket>;
}

impl<R: Files<File = File> + Net<Listener = TcpListener, Stream = TcpStream>> OpensSockets for R {
    fn open_socket(&self, address: &str, mode: u32) -> io::Result<ListeningSocket> {
        match address.strip_prefix(LOCAL) {
            Some(path) => Ok(ListeningSocket::Local(listen_local(self, path, mode)?)),
            None => Ok(ListeningSocket::Tcp(listening(TcpListener::bind(self, address)?)?)),
        }
    }
}

impl ListeningSocket {
    /// Takes the next connection. One by a local socket has the type of a TCP connection too, because the
    /// system reads, writes, times and closes both by the same calls.
    ///
    /// # Errors
    ///
    /// The system gives no connection.
    pub(crate) fn next(&self) -> io::Result<TcpStream> {
        match self {
            ListeningSocket::Tcp(listener) => {
                let (stream, _) = listener.accept()?;
                // If the system refuses this, the client is served all the same, but its replies may come
                // late.
                let _ = stream.set_nodelay(true);
                Ok(stream)
            }
            ListeningSocket::Local(listener) => {
                let (stream, _) = listener.accept()?;
                Ok(TcpStream::from(OwnedFd::from(stream)))
            }
        }
    }

    /// Gives the port of a TCP listener, and None for a local socket.
    ///
    /// # Errors
    ///
    /// The system doesn't tell.
    pub(crate) fn port(&self) -> io::Result<Option<u16>> {
        match self {
            ListeningSocket::Tcp(listener) => Ok(Some(listener.local_addr()?.port())),
            ListeningSocket::Local(_) => Ok(None),
        }
    }

    /// Tells whether clients of other machines may come: it listens over TCP, and not at a loopback address.
    ///
    /// # Errors
    ///
    /// The system doesn't tell.
    pub(crate) fn is_open(&self) -> io::Result<bool> {
        match self {
            ListeningSocket::Tcp(listener) => Ok(!listener.local_addr()?.ip().is_loopback()),
            ListeningSocket::Local(_) => Ok(false),
        }
    }

    /// Gives what ends the wait for clients: a second handle to the socket, by which it can be shut down.
    ///
    /// # Errors
    ///
    /// The system has no room for it.
    pub(crate) fn closer(&self) -> io::Result<Closer> {
        let socket = match self {
            ListeningSocket::Tcp(listener) => OwnedFd::from(listener.try_clone()?),
            ListeningSocket::Local(listener) => OwnedFd::from(listener.try_clone()?),
        };
        Ok(Closer(TcpStream::from(socket)))
    }
}
