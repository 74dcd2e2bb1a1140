//! Implements the pages of a server.
//!
//! mw_programs makes them. `specs/Shown` says what is shown: change both together, with docs/HTTP.
ghost use Rattle.std.specs.Prelude.{◌≡◌, ◌≤◌, length, IfOk};
ghost use Rattle.mw_server_pages.specs.declared.limits.TheConstants.{MAX_LIMITS};
ghost use Rattle.mw_words.specs.declared.limits.TheConstants.{MAX_TENANTS};
ghost use Rattle.mw_http.specs.Targets.{place_of};
ghost use Rattle.mw_http.specs.Calls.{Call};
ghost use Rattle.mw_report.specs.Table.{AreWithinLimits};
ghost use Rattle.mw_server_pages.specs.Shown.{Gives, IsConstant, IsHealth, IsHealthOf, IsMetrics, IsStatus};

use crate::bodies::{bare, page_of};
use crate::date::date_now;
use crate::file_copies::FileCopies;
use crate::file_pages::{file, words};
use crate::health::{are_well, health_text};
use crate::limits::{Limit, MAX_LIMITS};
use crate::look::{SCRIPT, STYLE};
use crate::near::Capacity;
use crate::recents::Recent;
use crate::samples::Samples;
use crate::status::status_page;
use crate::text::MAX_VERSION;
use arrayvec::ArrayVec;
use mw_http::{ContentType, Date, Page, Pages, Route, Status};
use mw_metrics::{Meters, Stopwatch, TenantMetrics};
use mw_report::Figures;
use mw_session::Service;
use std::alloc::{AllocError, Global};
use std::time::Clock;

/// The version of a server.
pub type Version = ArrayVec<u8, MAX_VERSION>;

/// How many nanoseconds a second has.
const SECOND: u64 = 1_000_000_000;

/// What a server shows: the figures that a service gives at the moment, what its meters have counted, and copies of its
/// tenants' files.
#[derive(Drop)]
pub struct ServerPages<'a, S, F, R> {
    service: S,
    files: F,
    meters: &'a Meters,
    rt: &'a R,
    version: Version,
    capacity: Capacity,
    started: Stopwatch,
    samples: Samples,
}

impl<'a, S: Drop, F: Drop, R: AllocGlobal + Clock> ServerPages<'a, S, F, R> {
    /// Makes the pages of a server of this version that starts now, and can do so much at once.
    ///
    /// # Errors
    ///
    /// The memory for samples of what is counted is out.
    pub fn new(
        service: S,
        files: F,
        meters: &'a Meters,
        rt: &'a R,
        version: Version,
        capacity: Capacity,
    ) -> Result<Self, AllocError>
        ensures service { IfOk result (λ pages. pages.service ≡ service) }
        ensures files { IfOk result (λ pages. pages.files ≡ files) }
    {
        let samples = Samples::new(rt.alloc())?;
        Ok(ServerPages {
            service,
            files,
            meters,
            rt,
            version,
            capacity,
            started: Stopwatch::start(rt),
            samples,
        })
    }
}

impl<S: Service, F: FileCopies, R: AllocGlobal + Clock> Pages for ServerPages<'_, S, F, R> {
    ghost answered = { λ old call new. Gives S.answered F.copied old.version.items old.service old.files call new.service new.files };

    fn page(&mut self, route: &Route) -> Page {
        let seconds = self.started.nanos(self.rt) / SECOND;
        match route {
            Route::File(name) => file(self.rt.alloc(), self.files.copy(name)),
            Route::Words(name) => words(self.rt.alloc(), self.files.copy(name)),
            Route::Style => constant(self.rt.alloc(), ContentType::Style, STYLE),
            Route::Script => constant(self.rt.alloc(), ContentType::Script, SCRIPT),
            Route::Health => {
                let figures = self.service.figures();
                self.samples.look(seconds, &figures, self.meters);
                health(self.rt.alloc(), self.meters, figures)
            }
            Route::Metrics => {
                let figures = self.service.figures();
                self.samples.look(seconds, &figures, self.meters);
                metrics(self.meters, self.rt, &self.version, figures)
            }
            Route::Page => {
                let figures = self.service.figures();
                self.samples.look(seconds, &figures, self.meters);
                let recents = self.samples.recents(seconds, &figures);
                let limits = self
                    .samples
                    .most_uses(seconds)
                    .limits(&figures, self.capacity);
                let (alloc, version) = (self.rt.alloc(), &self.version);
                let lease = seconds_of(self.meters.lease_age(self.rt));
                status(
                    alloc,
                    self.meters,
                    version,
                    seconds,
                    lease,
                    figures,
                    &limits,
                    &recents,
                )
            }
        }
    }

    fn date(&mut self) -> Date {
        date_now(self.rt)
    }
}

/// Gives a text that is always the same, or an error without a body if there was no memory for it.
fn constant(alloc: Global, kind: ContentType, text: &str) -> Page
    ensures { IsConstant kind text.now result }
{
    page_of(alloc, Status::Ok, kind, copied(alloc, text.as_bytes()))
}

/// Tells whether all tenants are up and their files in their places, and which are not.
fn health(alloc: Global, meters: &Meters, figures: Figures) -> Page
    requires { AreWithinLimits figures.tenants.items figures.pool_free }
    ensures { IsHealth figures result }
{
    match meters.counted(alloc, figures.tenants) {
        Ok(tenants) => health_of(alloc, &tenants),
        Err(_) => bare(alloc, Status::InternalError),
    }
}

/// Tells whether all these tenants are well, and which are not.
fn health_of(alloc: Global, tenants: &[TenantMetrics]) -> Page
    requires { length tenants.now ≤ MAX_TENANTS }
    ensures { IsHealthOf tenants.now result }
{
    let status = if are_well(tenants) {
        Status::Ok
    } else {
        Status::Unavailable
    };
    let text = health_text(tenants);
    page_of(alloc, status, ContentType::Text, copied(alloc, &text))
}

/// Copies a text.
///
/// # Errors
///
/// Memory is out.
fn copied(alloc: Global, text: &[u8]) -> Result<Vec<u8>, AllocError>
    ensures { IfOk result (λ copy. copy.items ≡ text.now) }
{
    let mut copy = Vec::new(alloc);
    copy.extend_from_slice(text)?;
    Ok(copy)
}

/// Gives the figures for Prometheus.
fn metrics<R: AllocGlobal + Clock>(
    meters: &Meters,
    rt: &R,
    version: &Version,
    figures: Figures,
) -> Page
    ensures { IsMetrics version.now.items figures result }
{
    let text = meters.text(rt, rt.alloc(), version, figures);
    page_of(rt.alloc(), Status::Ok, ContentType::Metrics, text)
}

/// Gives whole seconds for nanoseconds, if there are some.
fn seconds_of(nanos: Option<u64>) -> Option<u64> {
    match nanos {
        Some(nanos) => Some(nanos / SECOND),
        None => None,
    }
}

/// Gives the status page.
fn status(
    alloc: Global,
    meters: &Meters,
    version: &Version,
    seconds: u64,
    lease: Option<u64>,
    figures: Figures,
    limits: &[Limit],
    recents: &[Recent],
) -> Page
    requires limits { AreWithinLimits figures.tenants.items figures.pool_free }
    requires few_limits { length limits.now ≤ MAX_LIMITS }
    requires few_recents { length recents.now ≤ MAX_TENANTS }
    ensures { IsStatus version.now.items figures result }
{
    let Figures { tenants, pool_free } = figures;
    let Ok(tenants) = meters.counted(alloc, tenants) else {
        return bare(alloc, Status::InternalError);
    };
    let text = status_page(
        alloc, version, seconds, lease, &tenants, limits, recents, pool_free,
    );
    page_of(alloc, Status::Ok, ContentType::Html, text)
}
