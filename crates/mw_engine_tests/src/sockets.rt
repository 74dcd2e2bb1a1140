//! Serves clients over sockets: one while another one's request is held.
//!
//! Used by: `plays`.
ghost use Rattle.std.specs.Prelude.{◌<◌, List, vec_len};
ghost use Rattle.mw_session.specs.Talk.{Call};

use crate::latch::{Latch, comes_to};
use mw_connections::{Anything, ClientListener, Listener, Network, TimeLimits, listen_at, port_of};
use mw_session::Service;
use mw_workers::{ServeEnd, serve_all};
use std::alloc::Global;
use std::fs::File;
use std::io::{self, Read, Write};
use std::net::{Net, TcpListener, TcpStream};
use std::rt::Files;
use std::sync::Wait;
use std::thread;
use std::thread::Threads;
use std::time::{Clock, Duration};

/// How many workers serve, and how many connections.
const WORKERS: usize = 2;

const CONNECTIONS: u32 = 2;

/// How long a client waits for an answer, in seconds.
const PATIENCE: u64 = 10;

/// What the first client says, whose request is held, and the second one.
const HELD: &[u8] = b"TENANT t\nCAS 0:0:1 1:0:1\nQUIT\n";

const BESIDE: &[u8] = b"TENANT t\nCAS 0:1:2\nQUIT\n";

/// What both are told.
const TOLD: [u8; 13] = *b"OK 2\nYES\nBYE\n";

/// Connects a client to the server at a port, and sends this.
fn client<R: Net<Listener = TcpListener, Stream = TcpStream>>(
    rt: &R,
    port: u16,
    says: &[u8],
) -> io::Result<TcpStream> {
    let mut stream = TcpStream::connect(rt, ("127.0.0.1", port))?;
    stream.set_read_timeout(Some(Duration::from_secs(PATIENCE)))?;
    stream.write_all(says)?;
    Ok(stream)
}

/// Tells whether a client is told what both must be told.
fn is_told(mut client: TcpStream) -> bool {
    let mut told = [0; TOLD.len()];
    client.read_exact(&mut told).is_ok() && told == TOLD
}

/// Tells whether both clients are told what they must be told: the second one while the first is held.
fn are_told<R: Net<Listener = TcpListener, Stream = TcpStream>>(
    rt: &R,
    port: u16,
    latch: &Latch,
) -> io::Result<bool> {
    let held = client(rt, port, HELD)?;
    let has_stopped = comes_to(&latch.has_stopped, 1);
    let beside = is_told(client(rt, port, BESIDE)?);
    latch.leave();
    Ok(has_stopped && beside && is_told(held) && latch.has_held())
}

/// The same. Then two more clients come and go, so that a server that still waits for some gets them.
fn come_and_go<R: Net<Listener = TcpListener, Stream = TcpStream>>(
    rt: &R,
    port: u16,
    latch: &Latch,
) -> bool {
    let told = are_told(rt, port, latch).unwrap_or(false);
    for _ in 0..CONNECTIONS {
        // If the server has ended, nobody listens.
        let _ = client(rt, port, b"");
    }
    told
}

/// Listens for clients, and gives the port too.
fn listen<'a, R>(
    network: &Network<'a, R, Anything>,
) -> io::Result<(ClientListener<'a, R, Anything>, u16)>
where
    R: Files<File = File> + Net<Listener = TcpListener, Stream = TcpStream>,
{
    let limits = TimeLimits {
        silence: None,
        line: None,
    };
    let listener = listen_at(network, "127.0.0.1:0", 0, limits)?;
    let port = port_of(&listener)?.unwrap_or(0);
    Ok((listener, port))
}

/// Tells whether two of these workers serve both clients so.
pub(crate) fn are_served<S, R>(rt: &R, alloc: Global, workers: Vec<S>, latch: &Latch) -> bool
where
    S: Service + Send + Drop,
    R: Files<File = File>
        + Net<Listener = TcpListener, Stream = TcpStream>
        + Threads
        + Wait
        + Clock
        + Sync,
{
    let mut workers = workers;
    workers.truncate(WORKERS);
    latch.set(2);
    let network: Network<'_, R, Anything> = Network::new(rt);
    match listen(&network) {
        Ok(found) => {
            let (listener, port) = found;
            !workers.is_empty() && serve_clients(rt, alloc, listener, port, workers, latch)
        }
        Err(_) => false,
    }
}

/// Tells whether these workers serve both clients so, who come to this listener, at this port.
fn serve_clients<S, R, L>(
    rt: &R,
    alloc: Global,
    listener: L,
    port: u16,
    workers: Vec<S>,
    latch: &Latch,
) -> bool
where
    S: Service + Send + Drop,
    R: Files<File = File>
        + Net<Listener = TcpListener, Stream = TcpStream>
        + Threads
        + Wait
        + Clock
        + Sync,
    L: Listener + Drop + Send,
    requires some { 0 < vec_len workers }
    requires anything { (calls : List Call) → L.Connection.promised calls }
{
    let (told, is_served) = thread::join(
        rt,
        || come_and_go(rt, port, latch),
        ||
            requires some { 0 < vec_len workers }
            requires anything { (calls : List Call) → L.Connection.promised calls }
        {
            let (end, _) = serve_all(rt, alloc, listener, workers, Some(CONNECTIONS), None);
            end == ServeEnd::Served
        },
    );
    told && is_served
}
