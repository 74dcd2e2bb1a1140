//! Counts what a server does, and writes the figures in the text format of Prometheus.
//!
//! mw_programs makes one [`Meters`] before it opens a file, and lends it to all that counts. mw_server_pages shows
//! the figures, and mw_opening_tests tests some. mw_opening counts the calls of the devices, mw_service the passes,
//! mw_connections the connections and their bytes, mw_server the requests, mw_upkeep beats. A [`Stopwatch`] tells how long
//! something took.
//!
//! Threads record what happens by calls on a `&` of [`TenantCounters`] and [`ServerCounters`]: one or a few additions
//! each, with no lock, no memory, no wait. [`metrics_text`] writes what they have counted, with the figures of the
//! moment.
//!
//! `specs/Exposition` defines the format, `specs/Names` the names, `specs/Figures` the text, and `specs/Counted`
//! under which kind a request and a reply are counted. That each record is counted where it belongs is tested.
#![tactic(auto)]

mod counted;
mod counters;
mod exposition;
mod families;
mod figures;
mod histogram;
mod histogram_lines;
mod kinds;
mod meters;
mod samples;
mod server_lines;
mod stopwatch;
mod tenant_lines;
mod text;

pub use counted::{kind_of, reply_kind};
pub use counters::{ServerCounters, TenantCounters};
pub use exposition::metrics_text;
pub use figures::{
    CallFigures, ClosedCounts, FilePlace, ReplyCounts, RequestFigures, ServerMetrics, TenantCounts,
    TenantMetrics,
};
pub use histogram::{BOUNDED, BOUNDS, BUCKETS, HistogramFigures, bucket_of};
pub use kinds::{
    CLOSE_REASONS, CloseReason, DEVICE_CALLS, DeviceCall, REPLY_KINDS, REQUEST_KINDS, ReplyKind,
    RequestKind,
};
pub use meters::Meters;
pub use samples::MAX_LABEL_VALUE;
pub use stopwatch::Stopwatch;
pub use text::MAX_METRICS;
