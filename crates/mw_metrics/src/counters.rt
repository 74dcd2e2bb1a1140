//! Counters that the threads of a server share. A record is one or a few additions: no lock, no memory, no wait.
//!
//! Used by: `meters`, mw_connections, mw_opening, mw_service, mw_server, mw_programs, mw_opening_tests. Each figure is what it was
//! when it was read. Figures that are read together may be of different moments.

ghost use Rattle.std.specs.Prelude.{◌≡◌};

use crate::figures::{
    CallFigures, ClosedCounts, FilePlace, ReplyCounts, RequestFigures, ServerMetrics, TenantCounts,
};
use crate::histogram::{BUCKETS, HistogramFigures, bucket_of};
use crate::kinds::{CloseReason, DeviceCall, ReplyKind, RequestKind};
use std::sync::atomic::{AtomicU64, Ordering};

/// What is kept of a file that was replaced, and is served.
const REPLACED: u64 = 1;

/// What is kept of a file that was replaced, and given up.
const GIVEN_UP: u64 = 2;

/// A number that threads add to. It stops at no bound: after `u64::MAX` comes 0.
#[derive(Default, Drop)]
struct Counter {
    word: AtomicU64,
}

impl Counter {
    fn add(&self, amount: u64) {
        self.word.fetch_add(amount, Ordering::Relaxed);
    }

    fn subtract(&self, amount: u64) {
        self.word.fetch_sub(amount, Ordering::Relaxed);
    }

    fn set(&self, value: u64) {
        self.word.store(value, Ordering::Relaxed);
    }

    fn get(&self) -> u64 {
        self.word.load(Ordering::Relaxed)
    }
}

/// Gives what each counter has counted.
fn values<const N: usize>(counters: &[Counter; N]) -> [u64; N] {
    let mut values = [0; N];
    for index in 0..N {
        values[index] = counters[index].get();
    }
    values
}

/// Counts durations in the buckets of a histogram.
#[derive(Default, Drop)]
struct Histogram {
    counts: [Counter; BUCKETS],
    sum_nanos: Counter,
}

impl Histogram {
    fn record(&self, nanos: u64) {
        self.counts[bucket_of(nanos)].add(1);
        self.sum_nanos.add(nanos);
    }

    fn figures(&self) -> HistogramFigures {
        HistogramFigures {
            counts: values(&self.counts),
            sum_nanos: self.sum_nanos.get(),
        }
    }
}

/// Counts the requests of one kind.
#[derive(Default, Drop)]
struct RequestCounters {
    replies: [Counter; 7],
    time: Histogram,
}

impl RequestCounters {
    fn figures(&self) -> RequestFigures {
        let [val, yes, no, busy, fault, worn, err] = values(&self.replies);
        RequestFigures {
            replies: ReplyCounts {
                val,
                yes,
                no,
                busy,
                fault,
                worn,
                err,
            },
            time: self.time.figures(),
        }
    }
}

/// Counts one call of a device.
#[derive(Default, Drop)]
struct CallCounters {
    failures: Counter,
    time: Histogram,
}

impl CallCounters {
    fn figures(&self) -> CallFigures {
        CallFigures {
            failures: self.failures.get(),
            time: self.time.figures(),
        }
    }
}

/// Counts what is done for one tenant. Threads share it by `&`.
#[derive(Default, Drop)]
pub struct TenantCounters {
    get: RequestCounters,
    cas: RequestCounters,
    other: RequestCounters,
    read: CallCounters,
    write: CallCounters,
    sync: CallCounters,
    /// 0 while the tenant's file is in its place, else [`REPLACED`] or [`GIVEN_UP`].
    place: Counter,
}

impl TenantCounters {
    /// Makes counters that have counted nothing.
    pub fn new() -> TenantCounters {
        TenantCounters::default()
    }

    /// Counts a request that was answered so, in so many nanoseconds from its line to its reply.
    pub fn record_request(&self, kind: RequestKind, reply: ReplyKind, nanos: u64) {
        let counters = match kind {
            RequestKind::Get => &self.get,
            RequestKind::Cas => &self.cas,
            RequestKind::Other => &self.other,
        };
        counters.replies[reply as usize].add(1);
        counters.time.record(nanos);
    }

    /// Counts a call of the device that holds the tenant's file, which took so many nanoseconds.
    pub fn record_call(&self, call: DeviceCall, nanos: u64, failed: bool) {
        let counters = match call {
            DeviceCall::Read => &self.read,
            DeviceCall::Write => &self.write,
            DeviceCall::Sync => &self.sync,
        };
        counters.time.record(nanos);
        if failed {
            counters.failures.add(1);
        }
    }

    /// Keeps that the tenant's file was replaced, cut or overwritten, and whether it was given up for that.
    pub fn record_replaced(&self, is_given_up: bool) {
        self.place
            .set(if is_given_up { GIVEN_UP } else { REPLACED });
    }

    /// Gives whether the tenant's file is the one that was opened, as far as was recorded.
    pub fn place(&self) -> FilePlace {
        match self.place.get() {
            REPLACED => FilePlace::Replaced,
            GIVEN_UP => FilePlace::GivenUp,
            _ => FilePlace::InPlace,
        }
    }

    /// Gives what was counted.
    pub fn counts(&self) -> TenantCounts {
        TenantCounts {
            get: self.get.figures(),
            cas: self.cas.figures(),
            other: self.other.figures(),
            read: self.read.figures(),
            write: self.write.figures(),
            sync: self.sync.figures(),
        }
    }
}

/// Counts what is done for all tenants. Threads share it by `&`.
#[derive(Default, Drop)]
pub struct ServerCounters {
    served: Counter,
    waiting: Counter,
    accepted: Counter,
    closed: [Counter; 7],
    passes_in_use: Counter,
    pass_waits: Counter,
    received: Counter,
    sent: Counter,
}

impl ServerCounters {
    /// Makes counters that have counted nothing.
    pub fn new() -> ServerCounters {
        ServerCounters::default()
    }

    /// Counts a connection that was accepted, and waits for a session from now on.
    pub fn record_accepted(&self) {
        self.accepted.add(1);
        self.waiting.add(1);
    }

    /// Counts a connection that a session serves from now on, and that waits no more.
    pub fn record_served(&self) {
        self.waiting.subtract(1);
        self.served.add(1);
    }

    /// Counts a connection that was closed. Its session has ended, or it waited until then.
    pub fn record_closed(&self, reason: CloseReason) {
        self.closed[reason as usize].add(1);
        match reason {
            CloseReason::Unserved => self.waiting.subtract(1),
            _ => self.served.subtract(1),
        }
    }

    /// Counts a pass that is in use from now on. The request has waited for it, or not.
    pub fn record_pass_taken(&self, waited: bool) {
        self.passes_in_use.add(1);
        if waited {
            self.pass_waits.add(1);
        }
    }

    /// Counts a pass that is in use no more.
    pub fn record_pass_left(&self) {
        self.passes_in_use.subtract(1);
    }

    /// Counts bytes that a client sent.
    pub fn record_received(&self, bytes: u64) {
        self.received.add(bytes);
    }

    /// Counts bytes that a client was sent.
    pub fn record_sent(&self, bytes: u64) {
        self.sent.add(bytes);
    }

    /// Gives the figures of the server, with these of the moment: the times since its start and since the beat of
    /// its lease, in nanoseconds, and how many slots of the pool are free.
    pub fn figures(
        &self,
        uptime_nanos: u64,
        lease_nanos: Option<u64>,
        pool_free: u64,
    ) -> ServerMetrics
        ensures uptime { result.uptime_nanos ≡ uptime_nanos }
        ensures lease { result.lease_nanos ≡ lease_nanos }
        ensures pool { result.pool_free ≡ pool_free }
    {
        let [
            quit,
            peer_end,
            too_long,
            read_fault,
            write_fault,
            memory,
            unserved,
        ] = values(&self.closed);
        ServerMetrics {
            uptime_nanos,
            lease_nanos,
            pool_free,
            served: self.served.get(),
            waiting: self.waiting.get(),
            accepted: self.accepted.get(),
            closed: ClosedCounts {
                quit,
                peer_end,
                too_long,
                read_fault,
                write_fault,
                memory,
                unserved,
            },
            passes_in_use: self.passes_in_use.get(),
            pass_waits: self.pass_waits.get(),
            received: self.received.get(),
            sent: self.sent.get(),
        }
    }
}
