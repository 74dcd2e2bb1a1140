//! All counters of one server.
//!
//! Used by: mw_programs, which makes them; mw_server, mw_server_pages, mw_opening, mw_upkeep. `specs/Counted` says what the
//! text is of: change both together.
ghost use Rattle.std.specs.Prelude.{◌≡◌, ◌<◌, ◌≤◌, length, map, IfOk};
ghost use Rattle.mw_metrics.specs.declared.samples.TheConstants.{MAX_LABEL_VALUE};
ghost use Rattle.mw_metrics.specs.declared.text.TheConstants.{MAX_METRICS};
ghost use Rattle.mw_words.specs.declared.limits.TheConstants.{MAX_TENANTS};
ghost use Rattle.mw_metrics.specs.Counted.{IsTextOf, figures_of};

use crate::counted::{kind_of, reply_kind};
use crate::counters::{ServerCounters, TenantCounters};
use crate::exposition::metrics_text;
use crate::figures::{FilePlace, TenantCounts, TenantMetrics};
use crate::samples::MAX_LABEL_VALUE;
use crate::stopwatch::Stopwatch;
use crate::text::MAX_METRICS;
use arrayvec::ArrayVec;
use mw_report::{Figures, TenantFigures};
use mw_words::{Job, MAX_TENANTS, Reply};
use std::alloc::{AllocError, Global};
use std::sync::atomic::{AtomicU64, Ordering};
use std::time::Clock;

/// All counters of one server, and when it started. Threads share it by `&`.
#[derive(Drop)]
pub struct Meters {
    tenants: [TenantCounters; MAX_TENANTS],
    server: ServerCounters,
    started: Stopwatch,
    /// When the last beat of the lease that went well began, in nanoseconds since the start, and 1. 0: there is no lease.
    beaten: AtomicU64,
}

impl Meters {
    /// Makes counters that have counted nothing, of a server that starts now.
    pub fn new<K: Clock>(clock: &K) -> Meters {
        Meters {
            tenants: Default::default(),
            server: ServerCounters::new(),
            started: Stopwatch::start(clock),
            beaten: AtomicU64::new(0),
        }
    }

    /// Gives the counters of the tenant of this number.
    pub fn tenant(&self, tenant: usize) -> &TenantCounters
        requires { tenant < MAX_TENANTS }
    {
        &self.tenants[tenant]
    }

    /// Gives the counters of the whole server.
    pub fn server(&self) -> &ServerCounters {
        &self.server
    }

    /// Counts a request of the tenant of this number that took so many nanoseconds. It counts none of a tenant that a
    /// server can't have.
    pub fn record_request(&self, tenant: u8, job: &Job, reply: &Reply, nanos: u64) {
        if let Some(counters) = self.tenants.get(usize::from(tenant)) {
            counters.record_request(kind_of(job), reply_kind(reply), nanos);
        }
    }

    /// Gives the time since the start, in nanoseconds.
    pub fn uptime<K: Clock>(&self, clock: &K) -> u64 {
        self.started.nanos(clock)
    }

    /// Keeps that a beat of the lease went well, which began so many nanoseconds after the start.
    pub fn record_beat(&self, began: u64) {
        self.beaten
            .store(began.saturating_add(1), Ordering::Relaxed);
    }

    /// Gives how long ago the last beat of the lease that went well began, in nanoseconds, if there is a lease.
    pub fn lease_age<K: Clock>(&self, clock: &K) -> Option<u64> {
        match self.beaten.load(Ordering::Relaxed) {
            0 => None,
            beaten => Some(self.uptime(clock).saturating_sub(beaten - 1)),
        }
    }

    /// Gives the text of all figures in the text format of Prometheus: the version of the server, of at most
    /// [`MAX_LABEL_VALUE`] bytes, what was counted, and these figures of the moment. It has at most [`MAX_METRICS`]
    /// bytes.
    ///
    /// # Errors
    ///
    /// Memory is out.
    pub fn text<K: Clock>(
        &self,
        clock: &K,
        alloc: Global,
        version: &[u8],
        figures: Figures,
    ) -> Result<Vec<u8>, AllocError>
        requires { length version.now ≤ MAX_LABEL_VALUE }
        ensures text { IfOk result (λ text. IsTextOf version.now figures text.items) }
        ensures short { IfOk result (λ text. length text.items ≤ MAX_METRICS) }
    {
        let Figures { tenants, pool_free } = figures;
        let (uptime, lease) = (self.uptime(clock), self.lease_age(clock));
        let server = self.server.figures(uptime, lease, u64::from(pool_free));
        let tenants = self.counted(alloc, tenants)?;
        metrics_text(alloc, version, &server, &tenants)
    }

    /// Puts what was counted for each tenant, and whether its file is in its place, beside its figures.
    ///
    /// # Errors
    ///
    /// Memory is out.
    pub fn counted(
        &self,
        alloc: Global,
        figures: ArrayVec<TenantFigures, MAX_TENANTS>,
    ) -> Result<Vec<TenantMetrics>, AllocError>
        ensures { IfOk result (λ all. map figures_of all.items ≡ figures.items) }
    {
        let mut all = Vec::with_capacity(alloc, figures.len())?;
        for figures in figures {
            let place = self.place_of(all.len());
            let counts = self.counts_of(all.len());
            let one = TenantMetrics {
                figures,
                place,
                counts,
            };
            if all.push(one).is_err() {
                return Err(AllocError);
            }
        }
        Ok(all)
    }

    /// Gives whether the file of the tenant of this number is in its place: it is, if a server can't have the tenant.
    pub fn place_of(&self, tenant: usize) -> FilePlace {
        match self.tenants.get(tenant) {
            Some(counters) => counters.place(),
            None => FilePlace::InPlace,
        }
    }

    /// Gives what was counted for the tenant of this number: nothing, if a server can't have it.
    fn counts_of(&self, tenant: usize) -> TenantCounts {
        match self.tenants.get(tenant) {
            Some(counters) => counters.counts(),
            None => TenantCounters::default().counts(),
        }
    }
}
