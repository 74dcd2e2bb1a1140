//! The trait of the file below a [`FileDisk`](crate::FileDisk). A file says by its own `made` what is known of a call.
//!
//! Used by: `file.rt`; mw_opening, whose watched file is one over another. A file of the system says nothing.
ghost use Rattle.std.specs.Prelude.{length};
ghost use Rattle.mw_disk.specs.DeviceCalls.{DeviceCall, ReadAt, WriteAt, Sync, Length};
ghost use Rattle.mw_disk.specs.FileCalls.{Went, went_of};

use std::fs::{Metadata, OpenFile};
use std::io;
use std::os::unix::fs::FileExt;

/// A file of which whole ranges are read and written, and which is synced and asked for its length.
pub trait DiskFile {
    /// This call was made. It went so, and led from one state of the file to another. Code that is for every
    /// file knows this only of calls that it has made.
    ghost made: { DeviceCall → Went → Self → Self → Type 0 };

    /// Fills the whole slice with the bytes from `at` on. It goes on if a read stops short, or is interrupted.
    fn read_all(&mut self, out: &mut [u8], at: u64) -> io::Result<()>
        ensures made { made (ReadAt at (length out.old)) (went_of result) self.old self.new };

    /// Writes all these bytes from `at` on. It goes on if a write stops short, or is interrupted.
    fn write_all(&mut self, bytes: &[u8], at: u64) -> io::Result<()>
        ensures made { made (WriteAt at bytes.now) (went_of result) self.old self.new };

    /// Makes what was written durable. It may be interrupted.
    fn sync_once(&mut self) -> io::Result<()>
        ensures made { made Sync (went_of result) self.old self.new };

    /// Gives what the system tells of the file, with its length. It may be interrupted.
    fn told(&mut self) -> io::Result<Metadata>
        ensures made { made Length (went_of result) self.old self.new };
}

impl<F: FileExt + OpenFile> DiskFile for F {
    // No contract of the library tells a call.
    ghost made = { λ _ _ _ _. Unit {0} };

    fn read_all(&mut self, out: &mut [u8], at: u64) -> io::Result<()> {
        self.read_exact_at(out, at)
    }

    fn write_all(&mut self, bytes: &[u8], at: u64) -> io::Result<()> {
        self.write_all_at(bytes, at)
    }

    fn sync_once(&mut self) -> io::Result<()> {
        self.sync_data()
    }

    fn told(&mut self) -> io::Result<Metadata> {
        self.metadata()
    }
}
