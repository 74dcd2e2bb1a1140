//! Connects to a server over TCP, or by a local socket.
//!
//! Used by: mwbench, tests. No contract is about sockets. docs/CLIENTS describes [`connect`]: change both together.
use crate::administrator::Administrator;
use crate::client::Client;
use crate::meanings::Failure;
use mw_words::Name;
use std::alloc::Global;
use std::io::{self, BufReader};
use std::net::{Net, TcpStream};
use std::os::fd::OwnedFd;
use std::os::unix::net::UnixStream;
use std::time::Duration;

/// The first characters of the address of a local socket. Its path follows.
const LOCAL: &str = "unix:";

/// A client by a socket.
pub type SocketClient = Client<BufReader<TcpStream>, TcpStream>;

/// Connects to the server at an address, such as `127.0.0.1:7000` or `unix:/run/mondlexi/socket`, and
/// begins a session for the tenant of this name. It waits for each reply as long as `patience`, which isn't
/// 0.
///
/// # Errors
///
/// As [`Client::begin`], and [`Failure::Lost`] also if nobody serves there, or memory was refused.
pub fn connect<R: Net<Stream = TcpStream>>(
    rt: &R,
    alloc: Global,
    address: &str,
    name: &Name,
    patience: Duration,
) -> Result<SocketClient, Failure> {
    match dial(rt, alloc, address, patience) {
        Ok((reader, writer)) => Client::begin(reader, writer, name),
        Err(_) => Err(Failure::Lost),
    }
}

/// An administrator's client by a socket.
pub type SocketAdministrator = Administrator<BufReader<TcpStream>, TcpStream>;

/// Connects to the server at an address, of the form that [`connect`] takes, and begins a session for the
/// administrator. The server's option `--admin` gives an address at which the administrator waits for no
/// other client.
///
/// # Errors
///
/// As [`Administrator::begin`], and [`Failure::Lost`] also if nobody serves there, or memory was refused.
pub fn connect_administrator<R: Net<Stream = TcpStream>>(
    rt: &R,
    alloc: Global,
    address: &str,
    patience: Duration,
) -> Result<SocketAdministrator, Failure> {
    match dial(rt, alloc, address, patience) {
        Ok((reader, writer)) => Administrator::begin(reader, writer),
        Err(_) => Err(Failure::Lost),
    }
}

/// Connects to the server at an address. Gives the reader of its replies and the writer of lines to it.
///
/// # Errors
///
/// The text is no address, nobody serves there, the system refuses, or memory was refused.
fn dial<R: Net<Stream = TcpStream>>(
    rt: &R,
    alloc: Global,
    address: &str,
    patience: Duration,
) -> io::Result<(BufReader<TcpStream>, TcpStream)> {
    let stream = match address.strip_prefix(LOCAL) {
        Some(path) => TcpStream::from(OwnedFd::from(UnixStream::connect(rt, path)?)),
        None => {
            let stream = TcpStream::connect(rt, address)?;
            stream.set_nodelay(true)?;
            stream
        }
    };
    stream.set_read_timeout(Some(patience))?;
    stream.set_write_timeout(Some(patience))?;
    let reader = BufReader::new(alloc, stream.try_clone()?)?;
    Ok((reader, stream))
}
