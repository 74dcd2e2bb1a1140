//! Tests counters and the text of all figures.
use crate::checks::{MEMORY, holds};
use mw_metrics::{
    CloseReason, DeviceCall, ReplyKind, RequestKind, ServerCounters, TenantCounters, TenantMetrics,
    bucket_of, metrics_text,
};
use mw_report::TenantFigures;
use mw_words::Name;
use std::alloc::{AllocError, Global};

/// Lines that a scraper reads after `record_all`.
static LINES: [&str; 24] = [
    "# HELP mondlexi_build_info The version of the server. The value is always 1.",
    "# TYPE mondlexi_build_info gauge",
    "mondlexi_build_info{version=\"1.\\\"2\\\\\"} 1",
    "mondlexi_uptime_seconds 61.000000005",
    "mondlexi_lease_age_seconds 1.500000000",
    "mondlexi_pool_free_slots 30",
    "mondlexi_connections_total 2",
    "mondlexi_connections_served 1",
    "mondlexi_connections_waiting 0",
    "mondlexi_connections_closed_total{reason=\"quit\"} 1",
    "mondlexi_received_bytes_total 7",
    "mondlexi_sent_bytes_total 9",
    "mondlexi_words{tenant=\"t\"} 1000",
    "mondlexi_up{tenant=\"t\"} 1",
    "mondlexi_file_replaced{tenant=\"t\"} 1",
    "mondlexi_requests_total{tenant=\"t\",kind=\"GET\",reply=\"VAL\"} 2",
    "mondlexi_requests_total{tenant=\"t\",kind=\"CAS\",reply=\"BUSY\"} 1",
    "mondlexi_device_failures_total{tenant=\"t\",call=\"sync\"} 1",
    "mondlexi_request_seconds_bucket{tenant=\"t\",kind=\"GET\",le=\"0.000001000\"} 1",
    "mondlexi_request_seconds_bucket{tenant=\"t\",kind=\"GET\",le=\"0.000005000\"} 2",
    "mondlexi_request_seconds_bucket{tenant=\"t\",kind=\"CAS\",le=\"5.000000000\"} 0",
    "mondlexi_request_seconds_bucket{tenant=\"t\",kind=\"CAS\",le=\"+Inf\"} 1",
    "mondlexi_request_seconds_sum{tenant=\"t\",kind=\"GET\"} 0.000002001",
    "mondlexi_device_seconds_count{tenant=\"t\",call=\"sync\"} 1",
];

/// Tells whether a text has this line, with a line feed at its end.
fn has_line(text: &[u8], line: &[u8]) -> bool {
    let mut is_begun = true;
    for (at, byte) in text.iter().enumerate() {
        let rest = text.get(at..).unwrap_or(b"");
        if is_begun && rest.starts_with(line) && rest.get(line.len()) == Some(&b'\n') {
            return true;
        }
        is_begun = *byte == b'\n';
    }
    false
}

fn record_all(tenant: &TenantCounters, server: &ServerCounters) {
    tenant.record_request(RequestKind::Get, ReplyKind::Val, 1_000);
    tenant.record_request(RequestKind::Get, ReplyKind::Val, 1_001);
    tenant.record_request(RequestKind::Cas, ReplyKind::Busy, 6_000_000_000);
    tenant.record_call(DeviceCall::Sync, 300_000, true);
    tenant.record_call(DeviceCall::Write, 300_000, false);
    tenant.record_replaced(true);
    tenant.record_replaced(false);
    server.record_accepted();
    server.record_accepted();
    server.record_served();
    server.record_served();
    server.record_closed(CloseReason::Quit);
    server.record_pass_taken(true);
    server.record_pass_left();
    server.record_received(7);
    server.record_sent(9);
}

fn figures() -> TenantFigures {
    let mut name = Name::new();
    name.push(b't');
    TenantFigures {
        name,
        words: 1000,
        quota: 4,
        places: 4,
        used: 1,
        up: true,
    }
}

/// Gives the text of what `record_all` records.
fn text_of_all(alloc: Global) -> Result<Vec<u8>, AllocError> {
    let tenant = TenantCounters::new();
    let server = ServerCounters::new();
    record_all(&tenant, &server);
    let tenants = [TenantMetrics {
        figures: figures(),
        place: tenant.place(),
        counts: tenant.counts(),
    }];
    let figures = server.figures(61_000_000_005, Some(1_500_000_000), 30);
    metrics_text(alloc, b"1.\"2\\", &figures, &tenants)
}

#[test]
fn figures_are_written(rt: HostRuntime) {
    let text = text_of_all(rt.alloc()).expect(&rt, MEMORY);
    for line in &LINES {
        holds(&rt, line, 0, has_line(&text, line.as_bytes()));
    }
}

/// Durations, in nanoseconds, and the numbers of their buckets.
static BUCKETS: [(u64, usize); 5] = [
    (0, 0),
    (1_000, 0),
    (1_001, 1),
    (5_000_000_000, 11),
    (5_000_000_001, 12),
];

#[test]
fn durations_have_buckets(rt: HostRuntime) {
    for (nanos, bucket) in &BUCKETS {
        holds(&rt, "a bucket", *bucket, bucket_of(*nanos) == *bucket);
    }
}
