//! A lease: what a server may tell of its tenants by a file that it alone has locked, and beats.
//!
//! mw_upkeep beats it, for mw_server. `leased_stream.rt` asks it before a reply. `specs/Leases` says when it is good: change both together.
ghost use Rattle.std.specs.Prelude.{◌≡◌, true, None};
ghost use Rattle.std.specs.Duration.{as_nanos};
ghost use Rattle.mw_connections.specs.Leases.{Tells, after_beat, is_good};

use std::sync::{Mutex, Wait};
use std::time::{Clock, Duration, Instant};

/// The beats of a lease.
#[derive(Clone, Copy, Drop)]
pub(crate) struct Beats {
    /// How long the lease is good from the start of a beat on.
    limit: Duration,
    /// When the last beat began. None: there was none, or it failed.
    began: Option<Instant>,
}

impl Beats {
    /// Gives the beats of a lease that is good for so long after each, before the first beat.
    pub(crate) fn new(limit: Duration) -> Self
        ensures limit { result.limit ≡ limit }
        ensures began { result.began ≡ None }
    {
        Beats { limit, began: None }
    }

    /// Gives the beats after one that began then, and went well or not.
    pub(crate) fn after(self, began: Instant, is_well: bool) -> Self
        ensures { result ≡ after_beat self began is_well }
    {
        Beats {
            limit: self.limit,
            began: if is_well { Some(began) } else { None },
        }
    }

    /// Tells whether the lease is good at this moment.
    pub(crate) fn are_good_at(self, now: Instant) -> bool
        ensures { result ≡ is_good self now }
    {
        match self.began {
            Some(began) => now.duration_since(began).as_nanos() < self.limit.as_nanos(),
            None => false,
        }
    }
}

/// A lease that threads share: one beats, and the others ask.
#[derive(Drop)]
pub struct Lease {
    beats: Mutex<Beats>,
}

impl Lease {
    /// Makes a lease that is good for so many seconds from the start of a beat on. There was no beat yet.
    pub fn new(seconds: u32) -> Self {
        let limit = Duration::from_secs(u64::from(seconds));
        Lease {
            beats: Mutex::new(Beats::new(limit)),
        }
    }

    /// Keeps that a beat has ended, which began then, and went well or not.
    pub fn keep_beat<R: Wait>(&self, rt: &R, began: Instant, is_well: bool) {
        let mut beats = self.beats.lock(rt);
        *beats = (*beats).after(began, is_well);
    }

    /// Tells whether the lease is good at this moment.
    pub fn is_good_at<R: Wait>(&self, rt: &R, now: Instant) -> bool
        ensures { Tells true result }
    {
        let beats = *self.beats.lock(rt);
        beats.are_good_at(now)
    }
}
