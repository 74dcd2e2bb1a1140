//! Makes local sockets for clients on the same machine, and replaces a socket file that an ended server left.
//!
//! Used by: `listening_socket`. Change it with docs/OPERATING.
use crate::listening_socket::listening;
use std::fs::{self, File, Permissions};
use std::io::{self, ErrorKind};
use std::net::Net;
use std::os::fd::AsFd;
use std::os::unix::fs::{FileTypeExt, PermissionsExt};
use std::os::unix::net::{SocketAddr, UnixListener, UnixStream};
use std::path::Path;
use std::rt::Files;

/// Listens at this path, by a new socket file of this mode. Who may write to the file may connect.
///
/// If a socket file exists and nobody listens at it, as after a killed server, it is removed. The folder is
/// locked meanwhile, so that of two servers that start at a time only one does this. The call waits for
/// whoever else has locked the folder.
///
/// # Errors
///
/// The path is empty or too long for a socket, somebody listens there, another file is there, which stays
/// as it is, or the system refuses. A socket file that was made stays, and nobody listens at it.
pub(crate) fn listen_local<R: Files<File = File> + Net>(
    rt: &R,
    path: &str,
    mode: u32,
) -> io::Result<UnixListener> {
    if path.is_empty() {
        return Err(io::Error::from(ErrorKind::InvalidInput));
    }
    let address = SocketAddr::from_pathname(path)?;
    let folder = File::open(rt, folder_of(path))?;
    folder.lock()?;
    make_way(rt, path)?;
    let socket = rt.unix_socket()?;
    rt.bind_unix(socket.as_fd(), &address)?;
    // Nobody can connect before it listens, so nobody comes whom the mode keeps out.
    fs::set_permissions(rt, path, Permissions::from_mode(mode))?;
    Ok(UnixListener::from(listening(socket)?))
}

/// Gives the folder of a path.
fn folder_of(path: &str) -> &str {
    match Path::new(path).parent() {
        Some(folder) if !folder.as_str().is_empty() => folder.as_str(),
        _ => ".",
    }
}

/// Removes the socket file at a path, if there is one and nobody listens at it.
///
/// # Errors
///
/// Somebody listens there, another file is there, or the system refuses. Nothing is removed.
fn make_way<R: Files + Net>(rt: &R, path: &str) -> io::Result<()> {
    let found = match fs::symlink_metadata(rt, path) {
        Ok(found) => found,
        Err(fault) if fault.kind() == ErrorKind::NotFound => return Ok(()),
        Err(fault) => return Err(fault),
    };
    if !found.file_type().is_socket() {
        return Err(io::Error::from(ErrorKind::AlreadyExists));
    }
    match UnixStream::connect(rt, path) {
        Ok(_) => Err(io::Error::from(ErrorKind::AddrInUse)),
        Err(fault) if fault.kind() == ErrorKind::ConnectionRefused => fs::remove_file(rt, path),
        Err(fault) => Err(fault),
    }
}
