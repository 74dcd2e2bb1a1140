//! Implements the disk of a served tenant: a file of the system, read, written and synced.
//!
//! Used by: mw_opening, which opens each tenant's file as one; mw_opening_tests. Contracts promise nothing of its bytes
//! (`specs/Unknown`), but which calls it makes on the file (`specs/FileCalls`). It must keep the contracts of `device.rt`.
ghost use Rattle.std.specs.Prelude.{◌≡◌, ◌+◌, ◌<◌, ◌≤◌, ◌^◌, true, false, length, min, is_ok, IsErr, MatchResult, if◌then◌else◌};
ghost use Rattle.mw_disk.specs.DeviceCalls.{ReadAt, WriteAt, Sync, Length};
ghost use Rattle.mw_disk.specs.Facts.{most_counted};
ghost use Rattle.mw_disk.specs.FileCalls.{Interrupted, IsMadeFor, IsMadeOnFile, went_of};
ghost use Rattle.mw_disk.specs.Unknown.{unknown};

use crate::device::{Disk, DiskFault};
use crate::disk_file::DiskFile;
use std::fs::Metadata;
use std::io;
use std::io::ErrorKind;

/// A disk over a file, such as a `std::fs::File`. No contract knows its bytes. Its calls take no memory.
///
/// It makes a sync or a question of the length again if it was interrupted. A range that ends past `2^63 - 1`, the greatest
/// size of a file, is a fault. It makes only the call that it is asked for, and tells how it went ([`Disk`]'s clause `made`,
/// by `specs/FileCalls`).
#[derive(Drop)]
pub struct FileDisk<F> {
    file: F,
    faults: u64,
}

impl<F> FileDisk<F> {
    /// Makes a disk over a file that is open for reading and writing.
    pub fn new(file: F) -> Self
        ensures { result ≡ record { file = file; faults = 0 } }
    {
        FileDisk { file, faults: 0 }
    }

    /// Gives the file back.
    pub fn into_file(self) -> F
        ensures { result ≡ self.file }
    {
        let FileDisk { file, faults: _ } = self;
        file
    }

    // Counts a call that failed.
    fn ended<T: Drop>(&mut self, outcome: io::Result<T>) -> Result<T, DiskFault>
        ensures value { MatchResult outcome (λ value. result ≡ Ok value) (λ _. IsErr result) }
        ensures same { is_ok result ≡ is_ok outcome }
        ensures file { self.new.file ≡ self.old.file }
        ensures faults { self.new ≡ (if is_ok outcome then self.old else record self.old { faults = min (self.old.faults + 1) most_counted }) }
    {
        match outcome {
            Ok(value) => Ok(value),
            Err(_) => {
                self.faults = self.faults.saturating_add(1);
                Err(DiskFault)
            }
        }
    }
}

impl<F: DiskFile> Disk for FileDisk<F> {
    ghost facts = { λ d. unknown d.faults };

    ghost made = { λ call well old new. IsMadeFor F.made call well old.file new.file };

    fn read_at(&mut self, at: u64, out: &mut [u8]) -> Result<(), DiskFault> {
        let read = read(&mut self.file, at, out);
        self.ended(read)
    }

    fn write_at(&mut self, at: u64, bytes: &[u8]) -> Result<(), DiskFault> {
        let written = write(&mut self.file, at, bytes);
        self.ended(written)
    }

    fn sync(&mut self) -> Result<(), DiskFault> {
        let synced = sync(&mut self.file);
        self.ended(synced)
    }

    fn len(&mut self) -> Result<u64, DiskFault> {
        let told = ask(&mut self.file);
        match self.ended(told) {
            Ok(told) => Ok(told.len()),
            Err(fault) => Err(fault),
        }
    }

    fn faults(&self) -> u64 {
        self.faults
    }
}

// Tells whether a file may have a range of so many bytes at this offset.
fn is_in_file(at: u64, len: usize) -> bool
    ensures within { result ≡ true → at + len < 2 ^ 63 }
    ensures past { result ≡ false → 2 ^ 63 ≤ at + len }
{
    match at.checked_add(len as u64) {
        Some(end) => end <= i64::MAX as u64,
        None => false,
    }
}

// Fills the slice with the bytes from `at` on.
fn read<F: DiskFile>(file: &mut F, at: u64, out: &mut [u8]) -> io::Result<()>
    ensures made { IsMadeOnFile F.made (ReadAt at (length out.old)) (went_of result) file.old file.new }
{
    if !is_in_file(at, out.len()) {
        return Err(io::Error::from(ErrorKind::InvalidInput));
    }
    file.read_all(out, at)
}

// Writes the bytes from `at` on.
fn write<F: DiskFile>(file: &mut F, at: u64, bytes: &[u8]) -> io::Result<()>
    ensures made { IsMadeOnFile F.made (WriteAt at bytes.now) (went_of result) file.old file.new }
{
    if !is_in_file(at, bytes.len()) {
        return Err(io::Error::from(ErrorKind::InvalidInput));
    }
    file.write_all(bytes, at)
}

// Makes what was written durable, and tries again if that is interrupted.
fn sync<F: DiskFile>(file: &mut F) -> io::Result<()>
    ensures made { IsMadeOnFile F.made Sync (went_of result) file.old file.new }
{
    for _ in 0..u64::MAX {
        let synced = file.sync_once();
        if !is_interrupted(&synced) {
            return synced;
        }
    }
    file.sync_once()
}

// Asks what the system tells of the file, and tries again if that is interrupted.
fn ask<F: DiskFile>(file: &mut F) -> io::Result<Metadata>
    ensures made { IsMadeOnFile F.made Length (went_of result) file.old file.new }
{
    for _ in 0..u64::MAX {
        let told = file.told();
        if !is_interrupted(&told) {
            return told;
        }
    }
    file.told()
}

// Tells whether a call was interrupted, so that it must be made again.
fn is_interrupted<T>(outcome: &io::Result<T>) -> bool
    ensures { result ≡ true → went_of outcome.now ≡ Interrupted }
{
    match outcome {
        Ok(_) => false,
        Err(error) => error.kind() == ErrorKind::Interrupted,
    }
}
