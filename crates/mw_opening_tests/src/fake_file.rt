//! A file in memory that writes down each call on it, and fails at the calls that a test names.
//!
//! Used by: `file_tests`. It may change with it.
use std::cell::Cell;
use std::fs::{Metadata, OpenFile};
use std::io;
use std::os::unix::fs::FileExt;

/// The most bytes that the file may have.
const ROOM: usize = 1024;

/// The most calls that are written down.
const CALLS: usize = 16;

/// The number of the system's error for a call that was interrupted.
pub(crate) const INTERRUPTED: i32 = 4;

/// The number of the system's error for a device that failed.
pub(crate) const DEVICE: i32 = 5;

/// One call on a file.
#[derive(Clone, Copy, PartialEq, Eq)]
pub(crate) enum Call {
    /// Asks for the length, or what else the system tells of the file.
    Metadata,
    /// Sets the length.
    SetLen(u64),
    /// Syncs the bytes and all that the system tells of the file.
    SyncAll,
    /// Syncs the bytes and the length.
    SyncData,
    /// Reads so many bytes from an offset on.
    ReadAt(u64, usize),
    /// Writes so many bytes from an offset on.
    WriteAt(u64, usize),
}

/// A file in memory.
#[derive(Drop)]
pub(crate) struct FakeFile {
    bytes: Cell<[u8; ROOM]>,
    len: Cell<usize>,
    calls: Cell<[Call; CALLS]>,
    count: Cell<usize>,
    /// The number of the call that fails, from 0 on, and its error.
    failing: (usize, i32),
}

impl FakeFile {
    /// Makes a file of these bytes, at most 1,024. The call of this number, from 0 on, fails with this error of the system,
    /// unless that is 0.
    pub(crate) fn new(bytes: &[u8], failing: (usize, i32)) -> Self {
        let len = bytes.len().min(ROOM);
        let mut room = [0; ROOM];
        room[..len].copy_from_slice(&bytes[..len]);
        FakeFile {
            bytes: Cell::new(room),
            len: Cell::new(len),
            calls: Cell::new([Call::Metadata; CALLS]),
            count: Cell::new(0),
            failing,
        }
    }

    /// Tells whether just these calls were made so far, in this order.
    pub(crate) fn has_made(&self, calls: &[Call]) -> bool {
        self.calls.get().get(..self.count.get()) == Some(calls)
    }

    fn begin(&self, call: Call) -> io::Result<()> {
        let number = self.count.get();
        let mut calls = self.calls.get();
        if number < CALLS {
            calls[number] = call;
        }
        self.calls.set(calls);
        self.count.set(number.saturating_add(1));
        match self.failing {
            (failing, error) if failing == number && error != 0 => {
                Err(io::Error::from_raw_os_error(error))
            }
            _ => Ok(()),
        }
    }
}

impl FileExt for &FakeFile {
    fn read_at(&self, buf: &mut [u8], offset: u64) -> io::Result<usize> {
        self.begin(Call::ReadAt(offset, buf.len()))?;
        let len = self.len.get().min(ROOM);
        let start = offset.min(len as u64) as usize;
        let count = buf.len().min(len - start);
        let bytes = self.bytes.get();
        buf[..count].copy_from_slice(&bytes[start..start + count]);
        Ok(count)
    }

    fn write_at(&self, buf: &[u8], offset: u64) -> io::Result<usize> {
        self.begin(Call::WriteAt(offset, buf.len()))?;
        let start = offset.min(ROOM as u64) as usize;
        let count = buf.len().min(ROOM - start);
        let mut bytes = self.bytes.get();
        bytes[start..start + count].copy_from_slice(&buf[..count]);
        self.bytes.set(bytes);
        self.len.set(self.len.get().max(start + count));
        Ok(count)
    }
}

impl OpenFile for &FakeFile {
    fn metadata(&self) -> io::Result<Metadata> {
        self.begin(Call::Metadata)?;
        Ok(Metadata::of_file(self.len.get() as u64))
    }

    fn set_len(&self, size: u64) -> io::Result<()> {
        self.begin(Call::SetLen(size))?;
        self.len.set(size.min(ROOM as u64) as usize);
        Ok(())
    }

    fn sync_all(&self) -> io::Result<()> {
        self.begin(Call::SyncAll)
    }

    fn sync_data(&self) -> io::Result<()> {
        self.begin(Call::SyncData)
    }
}
