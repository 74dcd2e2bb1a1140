//! Tests who may connect to a local socket before and after its mode is set.
use crate::checks::holds;
use crate::folders::new_folder;
use crate::mode_runtime::ModeRuntime;
use mw_connections::{Anything, Network, TimeLimits, listen_at};
use std::fs::{self, File};
use std::net::{Net, TcpListener, TcpStream};
use std::os::unix::fs::PermissionsExt;
use std::os::unix::net::UnixStream;
use std::process::Abort;
use std::rt::Files;

/// The file mode of the socket: its owner and group may connect.
const OWNER_AND_GROUP: u32 = 0o660;

/// No limit of time.
const NO_LIMITS: TimeLimits = TimeLimits {
    silence: None,
    line: None,
};

/// What a test says if its folder can't be made or removed.
const FOLDER: &str = "a folder";

/// Tells whether a socket's owner and group may connect to it at this path, and its owner can.
fn is_open<R>(rt: &R, path: &str) -> bool
where
    R: Files<File = File> + Net<Listener = TcpListener, Stream = TcpStream>,
{
    let is_mode = match fs::metadata(rt, path) {
        Ok(found) => found.permissions().mode() % 0o1000 == OWNER_AND_GROUP,
        Err(_) => false,
    };
    let opened = UnixStream::connect(rt, path).is_ok();
    is_mode && opened
}

/// Tells whether a socket at this address can be made over the watched runtime, and is open at this path over the other one
/// while somebody listens.
fn is_open_then<R>(rt: &R, watched: &ModeRuntime<'_, R>, address: &str, path: &str) -> bool
where
    R: Files<File = File> + Net<Listener = TcpListener, Stream = TcpStream>,
{
    let network: Network<'_, _, Anything> = Network::new(watched);
    match listen_at(&network, address, OWNER_AND_GROUP, NO_LIMITS) {
        Ok(_clients) => is_open(rt, path),
        Err(_) => false,
    }
}

/// Tells whether nobody could connect to the socket at this path, which has this address, before its mode was set, and its
/// owner and group can then.
fn is_closed_at_first<R>(rt: &R, address: &str, path: &str) -> bool
where
    R: Files<File = File> + Net<Listener = TcpListener, Stream = TcpStream>,
{
    let watched = ModeRuntime::new(rt);
    let opened = is_open_then(rt, &watched, address, path);
    opened && watched.modes_set() == 1 && watched.connected_before() == 0
}

/// Checks a socket in this folder.
fn check_socket_in<R>(rt: &R, folder: &str)
where
    R: Files<File = File> + Net<Listener = TcpListener, Stream = TcpStream> + Abort + AllocGlobal,
{
    let address = format!(in rt.alloc(); "unix:{folder}/s").expect(rt, FOLDER);
    let path = address.as_str().strip_prefix("unix:").unwrap_or("");
    let is_closed = is_closed_at_first(rt, address.as_str(), path);
    holds(rt, "a socket", 0, is_closed);
}

#[test]
fn nobody_connects_before_the_mode_is_set(rt: HostRuntime) {
    let folder = new_folder(&rt, "mode").expect(&rt, FOLDER);
    check_socket_in(&rt, folder.as_str());
    fs::remove_dir_all(&rt, folder.as_str()).expect(&rt, FOLDER);
}
