//! A tenant's file as a server has it: it times its calls and counts them, and keeps in a [`FileState`] what is known
//! of the file.
//!
//! Used by: `tenant_disks`, mw_opening_tests. Each call must give what the file's call gave, or an error if the file was
//! given up, or others have cut or overwritten it.
ghost use Rattle.std.specs.Prelude.{◌≡◌};
ghost use Rattle.mw_disk.specs.DeviceCalls.{WriteAt, Length};
ghost use Rattle.mw_disk.specs.FileCalls.{went_of};
ghost use Rattle.mw_opening.specs.WatchedCalls.{IsOnce, IsShown, IsWatched};

use crate::file_state::{FileState, SeenFile};
use mw_disk::DiskFile;
use mw_metrics::{DeviceCall, Stopwatch, TenantCounters};
use std::fs::Metadata;
use std::io::{self, ErrorKind};
use std::time::Clock;

/// A file of whose calls a state keeps the last error, which file it is, how long it must be, and how it must begin. Each call
/// makes this call of the file below, once at most, and gives what that gave, or fails (`specs/WatchedCalls`).
///
/// If the file was given up, the call fails, and none is made below. A call that asks for the length fails too if the file is
/// shorter than it must be, or others have replaced, cut or overwritten it. So does a read at the front that gives other bytes
/// than the server last read or wrote there. If the state is strict, the first write after a sync asks for the length before.
///
/// If there are counters, reads, writes and syncs are timed and counted. Else no clock is read.
#[derive(Drop)]
pub struct WatchedFile<'a, F, K> {
    file: F,
    state: &'a FileState,
    clock: &'a K,
    counters: Option<&'a TenantCounters>,
}

impl<'a, F, K: Clock> WatchedFile<'a, F, K> {
    /// Makes a file that keeps in `state` what is told of it, and whose calls these counters count, by this clock.
    pub fn new(
        file: F,
        state: &'a FileState,
        clock: &'a K,
        counters: Option<&'a TenantCounters>,
    ) -> Self
        ensures { result.file ≡ file }
    {
        WatchedFile {
            file,
            state,
            clock,
            counters,
        }
    }

    /// Starts to time a call, if it will be counted.
    fn start(&self) -> Option<Stopwatch> {
        match self.counters {
            Some(_) => Some(Stopwatch::start(self.clock)),
            None => None,
        }
    }

    /// Counts a call that was started then, and keeps its error if it failed. A call that was interrupted has not failed: it
    /// is made again.
    fn ended<T: Drop>(
        &self,
        call: DeviceCall,
        started: Option<Stopwatch>,
        outcome: io::Result<T>,
    ) -> io::Result<T>
        ensures { result ≡ outcome }
    {
        if let (Some(counters), Some(started)) = (self.counters, started) {
            let nanos = started.nanos(self.clock);
            counters.record_call(call, nanos, has_failed(&outcome));
        }
        self.state.last_error().keep(outcome)
    }
}

impl<F: DiskFile, K: Clock> WatchedFile<'_, F, K> {
    /// Asks the file below for what the system tells of it, and keeps that.
    fn ask(&mut self) -> io::Result<Metadata>
        ensures { IsOnce F.made Length (went_of result) self.old.file self.new.file }
    {
        let told = self.file.told();
        keep_told(self.state, told)
    }

    /// Writes these bytes to the file below, and keeps that.
    fn write_once(&mut self, bytes: &[u8], at: u64) -> io::Result<()>
        ensures { F.made (WriteAt at bytes.now) (went_of result) self.old.file self.new.file }
    {
        let started = self.start();
        let written = self.file.write_all(bytes, at);
        if written.is_ok() {
            self.state.keep_written(at, bytes);
        }
        self.ended(DeviceCall::Write, started, written)
    }
}

/// Tells whether a call failed, and was not only interrupted.
fn has_failed<T>(outcome: &io::Result<T>) -> bool {
    match outcome {
        Ok(_) => false,
        Err(error) => error.kind() != ErrorKind::Interrupted,
    }
}

/// Keeps what the system told of the file, or its error.
fn keep_told(state: &FileState, told: io::Result<Metadata>) -> io::Result<Metadata>
    ensures { IsShown (went_of told) (went_of result) }
{
    match state.last_error().keep(told) {
        Ok(told) => match state.keep_seen(SeenFile::of(&told)) {
            Ok(()) => Ok(told),
            Err(error) => Err(error),
        },
        Err(error) => Err(error),
    }
}

/// Keeps the bytes that a read gave, if it went well.
fn keep_read(state: &FileState, at: u64, bytes: &[u8], read: io::Result<()>) -> io::Result<()>
    ensures { IsShown (went_of read) (went_of result) }
{
    match read {
        Ok(()) => state.keep_read(at, bytes),
        Err(error) => Err(error),
    }
}

impl<F: DiskFile, K: Clock> DiskFile for WatchedFile<'_, F, K> {
    ghost made = { λ call told old new. IsWatched F.made call told old.file new.file };

    fn read_all(&mut self, out: &mut [u8], at: u64) -> io::Result<()> {
        if let Err(error) = self.state.may_be_called() {
            return Err(error);
        }
        let started = self.start();
        let read = self.file.read_all(out, at);
        let read = self.ended(DeviceCall::Read, started, read);
        keep_read(self.state, at, out, read)
    }

    fn write_all(&mut self, bytes: &[u8], at: u64) -> io::Result<()> {
        if let Err(error) = self.state.may_be_called() {
            return Err(error);
        }
        if self.state.must_be_asked() {
            if let Err(error) = self.ask() {
                return Err(error);
            }
            self.state.keep_asked();
            return self.write_once(bytes, at);
        }
        self.write_once(bytes, at)
    }

    fn sync_once(&mut self) -> io::Result<()> {
        if let Err(error) = self.state.may_be_called() {
            return Err(error);
        }
        let started = self.start();
        let synced = self.file.sync_once();
        self.state.keep_synced();
        self.ended(DeviceCall::Sync, started, synced)
    }

    fn told(&mut self) -> io::Result<Metadata> {
        if let Err(error) = self.state.may_be_called() {
            return Err(error);
        }
        self.ask()
    }
}
