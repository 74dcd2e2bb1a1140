//! A runtime for tests, under which somebody tries to connect to a local socket when its mode is set.
//!
//! Used by: `mode_tests`.
use std::alloc::Allocator;
use std::fs::{File, Metadata, OpenOptions, Permissions};
use std::io::{self, PipeReader, PipeWriter};
use std::net::{Net, SocketAddr, TcpListener, TcpStream};
use std::os::fd::{BorrowedFd, OwnedFd};
use std::os::unix::net;
use std::os::unix::net::UnixStream;
use std::path::PathBuf;
use std::rt::Files;
use std::sync::atomic::{AtomicU32, Ordering};

/// A runtime that does what another one does, but just before it sets the mode of a file, somebody tries to connect to the
/// local socket at that path. It has none of the calls on a network that no program makes.
#[derive(Drop)]
pub(crate) struct ModeRuntime<'a, R> {
    rt: &'a R,
    modes: AtomicU32,
    early: AtomicU32,
}

impl<'a, R> ModeRuntime<'a, R> {
    /// Makes a runtime over this one.
    pub(crate) fn new(rt: &'a R) -> Self {
        ModeRuntime {
            rt,
            modes: AtomicU32::new(0),
            early: AtomicU32::new(0),
        }
    }

    /// Gives how often a mode was set.
    pub(crate) fn modes_set(&self) -> u32 {
        self.modes.load(Ordering::SeqCst)
    }

    /// Gives how often somebody could connect just before a mode was set.
    pub(crate) fn connected_before(&self) -> u32 {
        self.early.load(Ordering::SeqCst)
    }
}

impl<R: Files<File = File> + Net> Files for ModeRuntime<'_, R> {
    type File = File;

    type Dir = R::Dir;

    fn open_file(&self, how: &OpenOptions, path: &str) -> io::Result<File> {
        self.rt.open_file(how, path)
    }

    fn open_dir(&self, path: &str) -> io::Result<R::Dir> {
        self.rt.open_dir(path)
    }

    fn metadata(&self, path: &str) -> io::Result<Metadata> {
        self.rt.metadata(path)
    }

    fn symlink_metadata(&self, path: &str) -> io::Result<Metadata> {
        self.rt.symlink_metadata(path)
    }

    fn copy(&self, from: &str, to: &str) -> io::Result<u64> {
        self.rt.copy(from, to)
    }

    fn rename(&self, from: &str, to: &str) -> io::Result<()> {
        self.rt.rename(from, to)
    }

    fn remove_file(&self, path: &str) -> io::Result<()> {
        self.rt.remove_file(path)
    }

    fn create_dir(&self, path: &str) -> io::Result<()> {
        self.rt.create_dir(path)
    }

    fn remove_dir(&self, path: &str) -> io::Result<()> {
        self.rt.remove_dir(path)
    }

    fn remove_dir_all<B: Allocator>(&self, alloc: B, path: &str) -> io::Result<()> {
        self.rt.remove_dir_all(alloc, path)
    }

    fn canonicalize<B: Allocator>(&self, alloc: B, path: &str) -> io::Result<PathBuf<B>> {
        self.rt.canonicalize(alloc, path)
    }

    fn read_link<B: Allocator>(&self, alloc: B, path: &str) -> io::Result<PathBuf<B>> {
        self.rt.read_link(alloc, path)
    }

    fn hard_link(&self, original: &str, link: &str) -> io::Result<()> {
        self.rt.hard_link(original, link)
    }

    fn symlink(&self, original: &str, link: &str) -> io::Result<()> {
        self.rt.symlink(original, link)
    }

    fn pipe(&self) -> io::Result<(PipeReader, PipeWriter)> {
        self.rt.pipe()
    }

    fn chown(&self, path: &str, uid: Option<u32>, gid: Option<u32>) -> io::Result<()> {
        self.rt.chown(path, uid, gid)
    }

    fn lchown(&self, path: &str, uid: Option<u32>, gid: Option<u32>) -> io::Result<()> {
        self.rt.lchown(path, uid, gid)
    }

    fn create_dir_with_mode(&self, path: &str, mode: u32) -> io::Result<()> {
        self.rt.create_dir_with_mode(path, mode)
    }

    fn set_permissions(&self, path: &str, mode: Permissions) -> io::Result<()> {
        if UnixStream::connect(self.rt, path).is_ok() {
            self.early.fetch_add(1, Ordering::SeqCst);
        }
        self.modes.fetch_add(1, Ordering::SeqCst);
        self.rt.set_permissions(path, mode)
    }

    fn bind_unix(&self, socket: BorrowedFd<'_>, addr: &net::SocketAddr) -> io::Result<()> {
        self.rt.bind_unix(socket, addr)
    }
}

impl<R: Net<Listener = TcpListener, Stream = TcpStream>> Net for ModeRuntime<'_, R> {
    type Stream = TcpStream;

    type Listener = TcpListener;

    fn bind(&self, addr: SocketAddr) -> io::Result<TcpListener> {
        self.rt.bind(addr)
    }

    fn connect(&self, addr: SocketAddr) -> io::Result<TcpStream> {
        self.rt.connect(addr)
    }

    fn lookup_host(&self, host: &str, port: u16, found: &mut [SocketAddr]) -> io::Result<usize> {
        self.rt.lookup_host(host, port, found)
    }

    fn connect_unix(&self, addr: &net::SocketAddr) -> io::Result<UnixStream> {
        self.rt.connect_unix(addr)
    }

    fn unix_socket(&self) -> io::Result<OwnedFd> {
        self.rt.unix_socket()
    }
}
