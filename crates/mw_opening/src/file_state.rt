//! What is known of a tenant's file: which file of the system it is, how long it must be and how it must begin. Also
//! whether others have replaced, cut or overwritten it, whether it was given up, and its last error.
//!
//! Used by: `watched_file`, `tenant_disks`, `replaced`; mw_upkeep, which keeps that a file was replaced; mw_programs;
//! mw_opening_tests. Many threads may share it; the calls on one file come one after the other.
ghost use Rattle.std.specs.Prelude.{◌≡◌, ◌<◌, IfErr, is_ok, not};
ghost use Rattle.std.specs.Fs.{metadata_len};
ghost use Rattle.std.specs.IoError.{error_kind};
ghost use Rattle.mw_disk.specs.FileCalls.{Failed, went_by};
ghost use Rattle.mw_words.specs.declared.limits.TheConstants.{MAX_TENANTS};

use crate::last_error::LastError;
use mw_record::HEAD_SIZE;
use mw_words::MAX_TENANTS;
use std::fs::Metadata;
use std::io;
use std::os::unix::fs::MetadataExt;
use std::sync::atomic::{AtomicBool, AtomicU64, Ordering};

/// The number of the system's error for a file that was replaced, cut or overwritten: a stale file handle.
const REPLACED: i32 = 116;

/// How many bytes at the front of a file are compared: the head of its first layout, and that of a second one right after
/// it. A server writes there only when it opens a file.
pub const FRONT: usize = 2 * HEAD_SIZE;

/// Which file of the system a file is, and how long it is.
#[derive(Clone, Copy, Drop)]
pub struct SeenFile {
    /// The device that has the file.
    pub device: u64,
    /// The number that the file has on its device.
    pub inode: u64,
    /// The file's size, in bytes.
    pub size: u64,
}

impl SeenFile {
    /// Gives what the system told of a file.
    pub fn of(told: &Metadata) -> Self
        ensures { result.size ≡ metadata_len told.now }
    {
        SeenFile {
            device: told.dev(),
            inode: told.ino(),
            size: told.len(),
        }
    }

    /// Tells whether both are one file, whatever its size was.
    pub(crate) fn is_same_file(&self, other: &SeenFile) -> bool {
        self.device == other.device && self.inode == other.inode
    }
}

/// The first bytes of a file, as the server last read or wrote them: of each 0 if it did neither, else the byte and 1.
#[derive(Drop)]
struct Front([AtomicU64; FRONT]);

impl Front {
    fn new() -> Self {
        Front([(); FRONT].map(|_| AtomicU64::new(0)))
    }

    /// Gives what is kept from this offset on.
    fn from(&self, offset: u64) -> &[AtomicU64] {
        let all = &self.0[..];
        &all[offset.min(FRONT as u64) as usize..]
    }

    /// Keeps these bytes, as far as they are at the front.
    fn keep(&self, offset: u64, bytes: &[u8]) {
        for (kept, byte) in self.from(offset).iter().zip(bytes) {
            kept.store(u64::from(*byte) + 1, Ordering::SeqCst);
        }
    }

    /// Asks whether one of these bytes is at the front, and not the one that is kept.
    fn differs(&self, offset: u64, bytes: &[u8]) -> bool {
        for (kept, byte) in self.from(offset).iter().zip(bytes) {
            let wanted = kept.load(Ordering::SeqCst);
            if wanted != 0 && wanted != u64::from(*byte) + 1 {
                return true;
            }
        }
        false
    }
}

/// Which file a tenant's file is, how long it must be and how it must begin, whether it is known that others have replaced,
/// cut or overwritten it, whether it was given up, and the last error of a call on it.
#[derive(Drop)]
pub struct FileState {
    device: AtomicU64,
    inode: AtomicU64,
    /// The size that the file must have, in bytes: the greatest that the system told of it, or more if it was written to
    /// past that.
    size: AtomicU64,
    front: Front,
    was_replaced: AtomicBool,
    is_given_up: AtomicBool,
    /// Whether it is given up once it is known that others have replaced, cut or overwritten it.
    is_strict: bool,
    /// Whether the system was asked how long it is before a write since the last sync.
    was_asked: AtomicBool,
    last: LastError,
}

impl FileState {
    /// Makes the state of a file of which nothing is known. If it is strict, the file is given up once it is known that others
    /// have replaced, cut or overwritten it.
    pub fn new(is_strict: bool) -> Self {
        FileState {
            device: AtomicU64::new(0),
            inode: AtomicU64::new(0),
            size: AtomicU64::new(0),
            front: Front::new(),
            was_replaced: AtomicBool::new(false),
            is_given_up: AtomicBool::new(false),
            is_strict,
            was_asked: AtomicBool::new(false),
            last: LastError::new(),
        }
    }

    /// Gives what keeps the last error of a call on the file.
    pub fn last_error(&self) -> &LastError {
        &self.last
    }

    /// Gives which file it is, and how long it must be. It is right once the system was asked of the file, as each
    /// opening does.
    pub fn seen(&self) -> SeenFile {
        SeenFile {
            device: self.device.load(Ordering::SeqCst),
            inode: self.inode.load(Ordering::SeqCst),
            size: self.size.load(Ordering::SeqCst),
        }
    }

    /// Asks whether a file that begins with these bytes is another one, or was overwritten.
    pub fn differs(&self, front: &[u8]) -> bool {
        self.front.differs(0, front)
    }

    /// Asks whether it is known that others have replaced, cut or overwritten the file. It stays known, whatever the file is
    /// later.
    pub fn was_replaced(&self) -> bool {
        self.was_replaced.load(Ordering::SeqCst)
    }

    /// Keeps that others have replaced, cut or overwritten the file. No copy of it is made any more. If the state is strict, the
    /// file is given up.
    pub fn keep_replaced(&self) {
        self.was_replaced.store(true, Ordering::SeqCst);
        if self.is_strict {
            self.give_up();
        }
    }

    /// Gives the file up, because others have replaced, cut or overwritten it: each later call on it fails.
    pub fn give_up(&self) {
        self.is_given_up.store(true, Ordering::SeqCst);
    }

    /// Asks whether a call may be made on the file.
    ///
    /// # Errors
    ///
    /// The file was given up.
    pub(crate) fn may_be_called(&self) -> io::Result<()>
        ensures { IfErr result (λ error. went_by (error_kind error) ≡ Failed) }
    {
        self.last
            .keep(none_if(self.is_given_up.load(Ordering::SeqCst)))
    }

    /// Keeps what the system told of the file. The size that it must have only grows by it.
    ///
    /// # Errors
    ///
    /// The file is shorter than it must be, or it is known that others have replaced, cut or overwritten it.
    pub(crate) fn keep_seen(&self, seen: SeenFile) -> io::Result<()>
        ensures { IfErr result (λ error. went_by (error_kind error) ≡ Failed) }
    {
        self.device.store(seen.device, Ordering::SeqCst);
        self.inode.store(seen.inode, Ordering::SeqCst);
        if seen.size < self.size.fetch_max(seen.size, Ordering::SeqCst) {
            self.keep_replaced();
        }
        self.last.keep(none_if(self.was_replaced()))
    }

    /// Asks whether the system must be asked how long the file is before more is written to it: if the state is strict, before the
    /// first write after each sync. Else a write past the end of a file that was cut would hide that.
    pub(crate) fn must_be_asked(&self) -> bool {
        self.is_strict && !self.was_asked.load(Ordering::SeqCst)
    }

    /// Keeps that the system was asked, before a write, how long the file is.
    pub(crate) fn keep_asked(&self) {
        self.was_asked.store(true, Ordering::SeqCst);
    }

    /// Keeps that the file was synced, or a sync failed.
    pub(crate) fn keep_synced(&self) {
        self.was_asked.store(false, Ordering::SeqCst);
    }

    /// Keeps that these bytes were read at this offset.
    ///
    /// # Errors
    ///
    /// They are at the front, and not those that the server last read or wrote there: others have overwritten them.
    pub(crate) fn keep_read(&self, offset: u64, bytes: &[u8]) -> io::Result<()>
        ensures { IfErr result (λ error. went_by (error_kind error) ≡ Failed) }
    {
        let is_overwritten = self.front.differs(offset, bytes);
        if is_overwritten {
            self.keep_replaced();
        } else {
            self.front.keep(offset, bytes);
        }
        self.last.keep(none_if(is_overwritten))
    }

    /// Keeps that these bytes were written at this offset.
    pub(crate) fn keep_written(&self, offset: u64, bytes: &[u8]) {
        self.front.keep(offset, bytes);
        let end = offset.saturating_add(bytes.len() as u64);
        self.size.fetch_max(end, Ordering::SeqCst);
    }
}

/// Fails, as of a file that was replaced, if this holds.
fn none_if(is_replaced: bool) -> io::Result<()>
    ensures ok { is_ok result ≡ not is_replaced }
    ensures failed { IfErr result (λ error. went_by (error_kind error) ≡ Failed) }
{
    if is_replaced {
        return Err(io::Error::from_raw_os_error(REPLACED));
    }
    Ok(())
}

/// The state of each tenant's file.
#[derive(Drop)]
pub struct FileStates([FileState; MAX_TENANTS]);

impl FileStates {
    /// Makes the states of files of which nothing is known, all of them strict or none.
    pub fn new(are_strict: bool) -> Self {
        FileStates([(); MAX_TENANTS].map(|_| FileState::new(are_strict)))
    }

    /// Gives the state of the file of the tenant of this number.
    pub fn of(&self, tenant: usize) -> &FileState
        requires { tenant < MAX_TENANTS }
    {
        &self.0[tenant]
    }

    /// Gives the states of all files, in the order of their tenants.
    pub fn all(&self) -> &[FileState; MAX_TENANTS] {
        &self.0
    }
}
