//! The figures of a server: those that are counted, and those of the moment.
//!
//! Used by: `counters`, `server_lines`, `tenant_lines`, `meters`, `exposition`, mw_server_pages, mw_opening_tests. Change
//! it with `specs/Figures`.
ghost use Rattle.std.specs.Prelude.{◌≡◌};
ghost use Rattle.mw_metrics.specs.Figures as spec;

use crate::histogram::HistogramFigures;
use mw_report::TenantFigures;

/// How many requests of one kind had each reply.
#[derive(Drop)]
pub struct ReplyCounts {
    pub val: u64,
    pub yes: u64,
    pub no: u64,
    pub busy: u64,
    pub fault: u64,
    pub worn: u64,
    pub err: u64,
}

/// The figures of one kind of request.
#[derive(Drop)]
pub struct RequestFigures {
    /// How many were answered.
    pub replies: ReplyCounts,
    /// How long they took, from the line to the reply.
    pub time: HistogramFigures,
}

/// The figures of one call of a device.
#[derive(Drop)]
pub struct CallFigures {
    /// How many failed.
    pub failures: u64,
    /// How long each took.
    pub time: HistogramFigures,
}

/// What was counted for one tenant.
#[derive(Drop)]
pub struct TenantCounts {
    pub get: RequestFigures,
    pub cas: RequestFigures,
    pub other: RequestFigures,
    pub read: CallFigures,
    pub write: CallFigures,
    pub sync: CallFigures,
}

/// Whether a tenant's file is the one that was opened, as far as its server has seen.
#[derive(Clone, Copy)]
pub enum FilePlace {
    /// It is at its path, and as it must be.
    InPlace,
    /// It was replaced, cut or overwritten. Changes are made in the file that was opened.
    Replaced,
    /// It was replaced, cut or overwritten, and was given up. No change is made any more.
    GivenUp,
}

impl FilePlace {
    /// Tells whether changes are made in the file.
    pub fn takes_changes(self) -> bool
        ensures { result ≡ spec.takes_changes self }
    {
        match self {
            FilePlace::InPlace | FilePlace::Replaced => true,
            FilePlace::GivenUp => false,
        }
    }

    /// Tells whether the file was replaced, cut or overwritten.
    pub fn is_lost(self) -> bool
        ensures { result ≡ spec.is_lost self }
    {
        match self {
            FilePlace::InPlace => false,
            FilePlace::Replaced | FilePlace::GivenUp => true,
        }
    }
}

/// The figures of one tenant.
#[derive(Drop)]
pub struct TenantMetrics {
    /// Those of the moment.
    pub figures: TenantFigures,
    /// Whether its file is the one that was opened.
    pub place: FilePlace,
    /// Those that were counted since the start.
    pub counts: TenantCounts,
}

impl TenantMetrics {
    /// Tells whether the tenant is up: its file takes changes. If not, each change is answered FAULT.
    pub fn is_up(&self) -> bool
        ensures { result ≡ spec.is_up self.now }
    {
        self.figures.up && self.place.takes_changes()
    }
}

/// How many connections were closed, by the reason.
#[derive(Drop)]
pub struct ClosedCounts {
    pub quit: u64,
    pub peer_end: u64,
    pub too_long: u64,
    pub read_fault: u64,
    pub write_fault: u64,
    pub memory: u64,
    pub unserved: u64,
}

/// The figures of the whole server.
#[derive(Drop)]
pub struct ServerMetrics {
    /// The time since the start, in nanoseconds.
    pub uptime_nanos: u64,
    /// The time since the last beat of the lease that went well began, in nanoseconds. None: there is no lease.
    pub lease_nanos: Option<u64>,
    /// How many slots of the pool are free.
    pub pool_free: u64,
    /// How many connections a session serves.
    pub served: u64,
    /// How many connections wait for a session.
    pub waiting: u64,
    /// How many connections were accepted.
    pub accepted: u64,
    /// How many were closed.
    pub closed: ClosedCounts,
    /// How many passes of the engine are in use.
    pub passes_in_use: u64,
    /// How many requests waited for a pass.
    pub pass_waits: u64,
    /// How many bytes clients sent.
    pub received: u64,
    /// How many bytes clients were sent.
    pub sent: u64,
}
