//! Tells how much of each limit of a server was used, and which limits are near.
//!
//! `samples` keeps it, `server_pages` asks for it, and mw_server gives the [`Capacity`]. No contract says how much
//! is used or which are near: mw_serving_tests tests it, and docs/HTTP tells it.

use crate::limits::{Limit, LimitKind, MAX_LIMITS};
use arrayvec::ArrayVec;
use mw_metrics::Meters;
use mw_report::Figures;
use mw_words::{MAX_TENANTS, Name};

/// The limits of a server.
pub(crate) type Limits = ArrayVec<Limit, MAX_LIMITS>;

/// How much a server can do at once.
#[derive(Clone, Copy)]
pub struct Capacity {
    /// How many workers there are for changes; 0 if it isn't counted how many have a request.
    pub workers: u64,
    /// How many connections are served at once.
    pub sessions: u64,
}

/// A limit is near if three quarters of it are used.
const QUARTERS: u64 = 3;

/// How many quarters are all.
const ALL: u64 = 4;

/// How much of each limit is used, or was at most.
#[derive(Clone, Copy)]
pub(crate) struct Uses {
    /// The workers for changes.
    workers: u64,
    sessions: u64,
    /// The changes of each tenant that are under way.
    changes: [u8; MAX_TENANTS],
}

impl Uses {
    /// Nothing is used.
    pub(crate) fn none() -> Self {
        Uses {
            workers: 0,
            sessions: 0,
            changes: [0; MAX_TENANTS],
        }
    }

    /// Gives how much is used by these figures, and by what is counted now.
    pub(crate) fn now(figures: &Figures, meters: &Meters) -> Self {
        let counted = meters.server().figures(0, None, 0);
        let mut changes = [0; MAX_TENANTS];
        for (used, tenant) in changes.iter_mut().zip(&figures.tenants) {
            *used = tenant.used;
        }
        Uses {
            workers: counted.passes_in_use,
            sessions: counted.served,
            changes,
        }
    }

    /// Keeps the higher of both for each limit.
    pub(crate) fn raise(&mut self, other: &Uses) {
        self.workers = self.workers.max(other.workers);
        self.sessions = self.sessions.max(other.sessions);
        for (most, used) in self.changes.iter_mut().zip(&other.changes) {
            *most = (*most).max(*used);
        }
    }

    /// Gives the limits of a server with these tenants and so much that it can do, and that so much of each was used.
    pub(crate) fn limits(&self, figures: &Figures, capacity: Capacity) -> Limits {
        let mut limits = ArrayVec::new();
        let (workers, sessions) = (capacity.workers, capacity.sessions);
        add(&mut limits, LimitKind::Workers, b"", self.workers, workers);
        add(
            &mut limits,
            LimitKind::Sessions,
            b"",
            self.sessions,
            sessions,
        );
        for (used, tenant) in self.changes.iter().zip(&figures.tenants) {
            let (name, used) = (&tenant.name, u64::from(*used));
            let (quota, places) = (u64::from(tenant.quota), u64::from(tenant.places));
            add(&mut limits, LimitKind::Quota, name, used, quota);
            add(&mut limits, LimitKind::Places, name, used, places);
        }
        limits
    }
}

/// Adds a limit. One of which there is nothing is none.
fn add(limits: &mut Limits, kind: LimitKind, tenant: &[u8], used: u64, most: u64) {
    // There is room for all.
    if most == 0 || limits.is_full() {
        return;
    }
    limits.push(Limit {
        kind,
        tenant: Name::try_from(tenant).unwrap_or_default(),
        used,
        most,
        near: used.saturating_mul(ALL) >= most.saturating_mul(QUARTERS),
    });
}
