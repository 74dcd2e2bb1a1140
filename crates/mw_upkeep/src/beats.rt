//! Beats a server's lease, and writes a note when it is lost, and when it is good again.
//!
//! mw_programs takes the lease, and mw_server has it beaten by a thread of its own, and looked at once a second.
//! docs/OPERATING tells the notes, and what a server without its lease still tells: change them together.
//! scripts/check-locks reads the notes.

use crate::lease_file::{LeaseFault, LeaseFile, OpensLeases};
use crate::looks::{FileLook, Stop};
use crate::serve_fault::ServeFault;
use log::{Log, error, warn};
use mw_config::LeaseTerms;
use mw_connections::Lease;
use mw_metrics::Meters;
use mw_notes::{note_place, note_why};
use std::io;
use std::sync::Wait;
use std::sync::atomic::{AtomicBool, AtomicU64, Ordering};
use std::time::{Clock, Duration, Instant};

/// How many milliseconds it waits from one beat to the next, for each second that a beat is good.
const PAUSE: u64 = 125;

/// So many nanoseconds are a millisecond.
const NANOS_OF_MILLI: u64 = 1_000_000;

/// A lease that a server has taken.
#[derive(Drop)]
pub struct HeldLease<'a> {
    terms: &'a LeaseTerms,
    file: LeaseFile,
    lease: Lease,
    meters: &'a Meters,
    /// How many beats there were.
    beats: AtomicU64,
    /// Whether it was good when it was looked at last.
    was_good: AtomicBool,
}

impl<'a> HeldLease<'a> {
    /// Takes the lease of these terms, if there are some, and beats it once. Writes a note if it can't be had.
    pub fn take<R: OpensLeases + Wait + Clock, L: Log>(
        rt: &R,
        terms: Option<&'a LeaseTerms>,
        meters: &'a Meters,
        notes: &L,
    ) -> Result<Option<Self>, ServeFault> {
        let Some(terms) = terms else {
            return Ok(None);
        };
        match HeldLease::begun(rt, terms, meters) {
            Ok(held) => Ok(Some(held)),
            Err(fault) => Err(cannot_take(notes, terms.path.as_str(), &fault)),
        }
    }

    /// Opens the file of these terms, and beats it once.
    fn begun<R: OpensLeases + Wait + Clock>(
        rt: &R,
        terms: &'a LeaseTerms,
        meters: &'a Meters,
    ) -> Result<Self, LeaseFault> {
        let held = HeldLease {
            terms,
            file: rt.open_lease(terms.path.as_str())?,
            lease: Lease::new(terms.seconds),
            meters,
            beats: AtomicU64::new(0),
            was_good: AtomicBool::new(true),
        };
        match held.beat(rt) {
            Ok(()) => Ok(held),
            Err(error) => Err(LeaseFault::Call(error)),
        }
    }

    /// Gives what sessions ask.
    pub fn lease(&self) -> &Lease {
        &self.lease
    }

    /// Beats once. The beat counts from before its write, and only if it was synced.
    fn beat<R: Wait + Clock>(&self, rt: &R) -> io::Result<()> {
        let (began, uptime) = (Instant::now(rt)?, self.meters.uptime(rt));
        let beaten = self.file.beat(self.beats.fetch_add(1, Ordering::SeqCst));
        self.lease.keep_beat(rt, began, beaten.is_ok());
        if beaten.is_ok() {
            self.meters.record_beat(uptime);
        }
        beaten
    }

    /// Beats again and again until it is asked to end. This may wait for ever.
    pub fn beat_on<R: Wait + Clock>(&self, rt: &R, stop: &Stop) {
        let pause = Duration::from_millis(u64::from(self.terms.seconds).saturating_mul(PAUSE));
        for _ in rt.forever() {
            if stop.comes_within(rt, pause) {
                return;
            }
            // What a failed beat means is told by the lease's age.
            let _ = self.beat(rt);
        }
        unreachable!()
    }

    /// Writes a note if the lease was lost since the last look, or is good again.
    fn look<R: Wait + Clock, L: Log>(&self, rt: &R, notes: &L) {
        let is_good = match Instant::now(rt) {
            Ok(now) => self.lease.is_good_at(rt, now),
            Err(_) => false,
        };
        if self.was_good.swap(is_good, Ordering::SeqCst) != is_good {
            self.tell(rt, notes, is_good);
        }
    }

    /// Writes that the lease is good again, or else that it is lost.
    fn tell<R: Wait + Clock, L: Log>(&self, rt: &R, notes: &L, is_good: bool) {
        let age = self.meters.lease_age(rt).unwrap_or(0) / NANOS_OF_MILLI;
        if is_good {
            warn!(notes; "mwserve: the lease is good again, {age} ms after the start of its last beat");
        } else {
            error!(notes; "mwserve: the lease is lost, {age} ms after the start of its last beat");
        }
        note_place(notes, self.terms.path.as_str());
    }
}

/// Writes that the lease in the file at this path can't be had, and why.
fn cannot_take<L: Log>(notes: &L, path: &str, fault: &LeaseFault) -> ServeFault {
    error!(notes; "mwserve: cannot take the lease");
    note_why(notes, path, "", fault);
    ServeFault::Failed
}

/// Looks at the lease, if there is one, and then at the files of all tenants.
#[derive(Drop)]
pub struct LeaseLook<'a, R, L, T> {
    pub rt: &'a R,
    pub notes: &'a L,
    pub held: Option<&'a HeldLease<'a>>,
    pub files: &'a T,
}

impl<R: Wait + Clock, L: Log, T: FileLook> FileLook for LeaseLook<'_, R, L, T> {
    fn look(&self) {
        if let Some(held) = self.held {
            held.look(self.rt, self.notes);
        }
        self.files.look();
    }
}
