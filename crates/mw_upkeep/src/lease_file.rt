//! The file of a server's lease: opened under a lock, and beaten by writes that are synced.
//!
//! Used by: `beats`; mw_programs, for [`OpensLeases`]. docs/OPERATING tells the notes and the file's text: change them together.
//! scripts/check-refusals and check-locks expect notes. It has no contracts.
use arrayvec::ArrayVec;
use std::fmt::{self, Display, Formatter};
use std::fs::{File, OpenOptions, TryLockError};
use std::io::{self, ErrorKind, Write};
use std::os::unix::fs::FileExt;
use std::rt::Files;

/// What the file begins with.
const FRONT: &[u8] = b"mondlexi lease ";

/// The most bytes of the file's text: its front, a number, and a line feed.
const MAX_TEXT: usize = 64;

/// Tells why there is no lease.
#[derive(Drop)]
pub enum LeaseFault {
    /// The file can't be opened.
    CannotOpen(io::Error),
    /// It is no plain file.
    NotPlain,
    /// It can't be locked.
    CannotLock(io::Error),
    /// Another opening of the file holds its lock.
    InUse,
    /// It has another text than that of a lease.
    Other,
    /// A read failed, or a beat.
    Call(io::Error),
}

impl Display for LeaseFault {
    fn fmt<W: fmt::Write>(&self, f: &mut Formatter<W>) -> fmt::Result {
        match self {
            LeaseFault::CannotOpen(error) => write!(f, "cannot open: {error}"),
            LeaseFault::NotPlain => f.write_str("not a plain file"),
            LeaseFault::CannotLock(error) => write!(f, "cannot lock: {error}"),
            LeaseFault::InUse => f.write_str("another program has it locked"),
            LeaseFault::Other => f.write_str("it isn't the file of a lease"),
            LeaseFault::Call(error) => write!(f, "{error}"),
        }
    }
}

/// Opens files of leases. Each runtime that has files does.
pub trait OpensLeases {
    /// Opens the file at this path, and locks it. A file that isn't there is made.
    ///
    /// # Errors
    ///
    /// As [`LeaseFault`] tells. Nothing was written to the file.
    fn open_lease(&self, path: &str) -> Result<LeaseFile, LeaseFault>;
}

impl<R: Files<File = File>> OpensLeases for R {
    fn open_lease(&self, path: &str) -> Result<LeaseFile, LeaseFault> {
        LeaseFile::open(self, path)
    }
}

/// The file of a lease, under a lock that is held until it is closed.
#[derive(Drop)]
pub struct LeaseFile(File);

impl LeaseFile {
    /// Opens the file at this path as [`OpensLeases::open_lease`] says.
    fn open<R: Files<File = File>>(rt: &R, path: &str) -> Result<Self, LeaseFault> {
        let mut options = OpenOptions::new();
        options.read(true).write(true).create(true);
        let file = match options.open(rt, path) {
            Ok(file) => file,
            Err(error) => return Err(LeaseFault::CannotOpen(error)),
        };
        match file.metadata() {
            Ok(told) if told.is_file() => {}
            Ok(_) => return Err(LeaseFault::NotPlain),
            Err(error) => return Err(LeaseFault::CannotOpen(error)),
        }
        match file.try_lock() {
            Ok(()) => checked(file),
            Err(TryLockError::WouldBlock) => Err(LeaseFault::InUse),
            Err(TryLockError::Error(error)) => Err(LeaseFault::CannotLock(error)),
        }
    }

    /// Writes the beat of this number over the one before, and syncs it.
    ///
    /// # Errors
    ///
    /// A call on the file failed, or took only a part.
    pub(crate) fn beat(&self, number: u64) -> io::Result<()> {
        let mut text = ArrayVec::<u8, MAX_TEXT>::new();
        text.write_all(FRONT)?;
        writeln!(text, "{number}")?;
        if self.0.write_at(&text, 0)? < text.len() {
            return Err(io::Error::from(ErrorKind::WriteZero));
        }
        self.0.sync_data()
    }
}

/// Gives a file back that has the text of a lease, or none yet.
///
/// # Errors
///
/// It has another text, or a read failed.
fn checked(file: File) -> Result<LeaseFile, LeaseFault> {
    let mut text = [0; MAX_TEXT];
    match file.read_at(&mut text, 0) {
        Ok(count) if is_of_lease(&text[..count.min(MAX_TEXT)]) => Ok(LeaseFile(file)),
        Ok(_) => Err(LeaseFault::Other),
        Err(error) => Err(LeaseFault::Call(error)),
    }
}

/// Tells whether a file that begins so is that of a lease: it has its text, or after a crash no byte or zeros alone.
fn is_of_lease(text: &[u8]) -> bool {
    text.starts_with(FRONT) || text.iter().all(|byte| *byte == 0)
}
