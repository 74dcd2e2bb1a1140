//! Writes the families of metrics that have a sample of each tenant.
//!
//! Used by: `exposition`. Change it with `specs/TenantLines` and `specs/Figures`. A new family or sample needs more
//! room: `MAX_TENANT_FAMILIES` here, and `MAX_METRICS` in `text`.
ghost use Rattle.std.specs.Prelude.{◌≡◌, ◌+◌, ◌*◌, ◌≤◌, [], ◌∷◌, ◌++◌, length, codes, flat_map};
ghost use Rattle.mw_words.specs.declared.limits.TheConstants.{MAX_TENANTS};
ghost use Rattle.mw_metrics.specs.Figures as spec;
ghost use Rattle.mw_metrics.specs.TenantLines.{lines_of, most_of};

use crate::families::{Family, TENANT_GAUGES, TenantGauge};
use crate::figures::{CallFigures, ReplyCounts, RequestFigures, TenantCounts, TenantMetrics};
use crate::histogram_lines::{MAX_HISTOGRAM, put_histogram};
use crate::kinds::{DEVICE_CALLS, DeviceCall, REPLY_KINDS, REQUEST_KINDS, ReplyKind, RequestKind};
use crate::samples::{MAX_SAMPLE, one_label, one_more_label, put_number, tenant_labels};
use crate::server_lines::{MAX_HEADER, put_header};
use crate::text::{MAX_METRICS, Text};
use mw_words::MAX_TENANTS;

/// The most bytes of the families that have a sample of each tenant: 10 headers and 120 samples of each tenant.
pub(crate) const MAX_TENANT_FAMILIES: usize = 409_320;

/// The most bytes of a tenant's requests by their kind and reply.
const MAX_REQUESTS: usize = 21 * MAX_SAMPLE;

/// The most bytes of three histograms.
const MAX_TIMES: usize = 3 * MAX_HISTOGRAM;

/// Puts the families that have a sample of each tenant.
#[tactic(auto, unfolding(crate::specs::Figures::of_tenants))]
pub(crate) fn put_tenants(text: &mut Text, tenants: &[TenantMetrics])
    requires few { length tenants.now ≤ MAX_TENANTS }
    requires room { length text.old.bytes.items + MAX_TENANT_FAMILIES ≤ MAX_METRICS }
    ensures families { text.new.bytes.items ≡ text.old.bytes.items ++ spec.of_tenants tenants.now }
    ensures room { length text.new.bytes.items ≤ length text.old.bytes.items + MAX_TENANT_FAMILIES }
{
    put_gauges(text, tenants);
    put_family(text, Family::Requests, tenants);
    put_family(text, Family::DeviceFailures, tenants);
    put_family(text, Family::RequestTime, tenants);
    put_family(text, Family::DeviceTime, tenants);
}

/// Puts each figure of each tenant at the moment.
#[tactic(auto, unfolding(crate::specs::Figures::gauge_families, crate::specs::Figures::gauge_family, crate::specs::Figures::tenant_family))]
fn put_gauges(text: &mut Text, tenants: &[TenantMetrics])
    requires few { length tenants.now ≤ MAX_TENANTS }
    requires room { length text.old.bytes.items + 6 * (MAX_HEADER + MAX_TENANTS * MAX_SAMPLE) ≤ MAX_METRICS }
    ensures families { text.new.bytes.items ≡ text.old.bytes.items ++ spec.gauge_families tenants.now }
    ensures room { length text.new.bytes.items ≤ length text.old.bytes.items + 6 * (MAX_HEADER + MAX_TENANTS * MAX_SAMPLE) }
{
    for gauge in TENANT_GAUGES {
        put_family(text, Family::Tenant(gauge), tenants);
    }
}

/// Puts a family that has some lines for each tenant.
#[tactic(auto, unfolding(crate::specs::Figures::tenant_family))]
fn put_family(text: &mut Text, family: Family, tenants: &[TenantMetrics])
    requires few { length tenants.now ≤ MAX_TENANTS }
    requires room { length text.old.bytes.items + (MAX_HEADER + MAX_TENANTS * most_of family) ≤ MAX_METRICS }
    ensures lines { text.new.bytes.items ≡ text.old.bytes.items ++ spec.tenant_family family (lines_of family) tenants.now }
    ensures room { length text.new.bytes.items ≤ length text.old.bytes.items + (MAX_HEADER + MAX_TENANTS * most_of family) }
{
    put_header(text, family);
    for tenant in tenants {
        put_tenant(text, family, tenant);
    }
}

/// Puts the lines of a family for one tenant.
fn put_tenant(text: &mut Text, family: Family, tenant: &TenantMetrics)
    requires room { length text.old.bytes.items + most_of family ≤ MAX_METRICS }
    ensures lines { text.new.bytes.items ≡ text.old.bytes.items ++ lines_of family tenant.now }
    ensures room { length text.new.bytes.items ≤ length text.old.bytes.items + most_of family }
{
    match family {
        Family::Tenant(gauge) => {
            let labels = one_label(b"tenant", &tenant.figures.name);
            put_number(text, family, &labels, gauge_of(tenant, gauge));
        }
        Family::Requests => put_requests(text, tenant),
        Family::DeviceFailures => put_failures(text, tenant),
        Family::RequestTime => put_request_times(text, tenant),
        Family::DeviceTime => put_call_times(text, tenant),
        Family::Build | Family::Uptime | Family::Lease | Family::Server(_) | Family::Closed => {}
    }
}

fn gauge_of(tenant: &TenantMetrics, gauge: TenantGauge) -> u64
    ensures { result ≡ spec.gauge_of tenant.now gauge }
{
    let figures = &tenant.figures;
    match gauge {
        TenantGauge::Words => u64::from(figures.words),
        TenantGauge::Quota => u64::from(figures.quota),
        TenantGauge::RecordPlaces => u64::from(figures.places),
        TenantGauge::ChangesUnderWay => u64::from(figures.used),
        TenantGauge::Up => u64::from(tenant.is_up()),
        TenantGauge::FileReplaced => u64::from(tenant.place.is_lost()),
    }
}

/// Puts how many requests were answered, by their kind and their reply.
#[tactic(auto, unfolding(crate::specs::Figures::request_lines))]
fn put_requests(text: &mut Text, tenant: &TenantMetrics)
    requires room { length text.old.bytes.items + MAX_REQUESTS ≤ MAX_METRICS }
    ensures lines { text.new.bytes.items ≡ text.old.bytes.items ++ spec.request_lines tenant.now }
    ensures room { length text.new.bytes.items ≤ length text.old.bytes.items + MAX_REQUESTS }
{
    for kind in REQUEST_KINDS {
        put_kind(text, tenant, kind);
    }
}

#[tactic(auto, unfolding(crate::specs::Figures::kind_lines))]
fn put_kind(text: &mut Text, tenant: &TenantMetrics, kind: RequestKind)
    requires room { length text.old.bytes.items + 7 * MAX_SAMPLE ≤ MAX_METRICS }
    ensures lines { text.new.bytes.items ≡ text.old.bytes.items ++ spec.kind_lines tenant.now kind }
    ensures room { length text.new.bytes.items ≤ length text.old.bytes.items + 7 * MAX_SAMPLE }
{
    for reply in REPLY_KINDS {
        put_reply_line(text, tenant, kind, reply);
    }
}

fn put_reply_line(text: &mut Text, tenant: &TenantMetrics, kind: RequestKind, reply: ReplyKind)
    requires room { length text.old.bytes.items + MAX_SAMPLE ≤ MAX_METRICS }
    ensures line { text.new.bytes.items ≡ text.old.bytes.items ++ spec.reply_line tenant.now kind reply }
    ensures room { length text.new.bytes.items ≤ length text.old.bytes.items + MAX_SAMPLE }
{
    let labels = tenant_labels(&tenant.figures.name, b"kind", kind.text());
    let labels = one_more_label(&labels, b"reply", reply.text());
    let count = replies_of(&requests_of(&tenant.counts, kind).replies, reply);
    put_number(text, Family::Requests, &labels, count);
}

fn requests_of(counts: &TenantCounts, kind: RequestKind) -> &RequestFigures
    ensures { result.now ≡ spec.requests_of counts.now kind }
{
    match kind {
        RequestKind::Get => &counts.get,
        RequestKind::Cas => &counts.cas,
        RequestKind::Other => &counts.other,
    }
}

fn replies_of(counts: &ReplyCounts, reply: ReplyKind) -> u64
    ensures { result ≡ spec.replies_of counts.now reply }
{
    match reply {
        ReplyKind::Val => counts.val,
        ReplyKind::Yes => counts.yes,
        ReplyKind::No => counts.no,
        ReplyKind::Busy => counts.busy,
        ReplyKind::Fault => counts.fault,
        ReplyKind::Worn => counts.worn,
        ReplyKind::Err => counts.err,
    }
}

fn calls_of(counts: &TenantCounts, call: DeviceCall) -> &CallFigures
    ensures { result.now ≡ spec.calls_of counts.now call }
{
    match call {
        DeviceCall::Read => &counts.read,
        DeviceCall::Write => &counts.write,
        DeviceCall::Sync => &counts.sync,
    }
}

/// Puts how many calls of the device failed.
#[tactic(auto, unfolding(crate::specs::Figures::failure_lines))]
fn put_failures(text: &mut Text, tenant: &TenantMetrics)
    requires room { length text.old.bytes.items + 3 * MAX_SAMPLE ≤ MAX_METRICS }
    ensures lines { text.new.bytes.items ≡ text.old.bytes.items ++ spec.failure_lines tenant.now }
    ensures room { length text.new.bytes.items ≤ length text.old.bytes.items + 3 * MAX_SAMPLE }
{
    for call in DEVICE_CALLS {
        put_failure_line(text, tenant, call);
    }
}

fn put_failure_line(text: &mut Text, tenant: &TenantMetrics, call: DeviceCall)
    requires room { length text.old.bytes.items + MAX_SAMPLE ≤ MAX_METRICS }
    ensures line { text.new.bytes.items ≡ text.old.bytes.items ++ spec.failure_line tenant.now call }
    ensures room { length text.new.bytes.items ≤ length text.old.bytes.items + MAX_SAMPLE }
{
    let labels = tenant_labels(&tenant.figures.name, b"call", call.text());
    let failures = calls_of(&tenant.counts, call).failures;
    put_number(text, Family::DeviceFailures, &labels, failures);
}

/// Puts how long requests took.
#[tactic(auto, unfolding(crate::specs::Figures::request_times))]
fn put_request_times(text: &mut Text, tenant: &TenantMetrics)
    requires room { length text.old.bytes.items + MAX_TIMES ≤ MAX_METRICS }
    ensures lines { text.new.bytes.items ≡ text.old.bytes.items ++ spec.request_times tenant.now }
    ensures room { length text.new.bytes.items ≤ length text.old.bytes.items + MAX_TIMES }
{
    for kind in REQUEST_KINDS {
        let name = &tenant.figures.name;
        let time = &requests_of(&tenant.counts, kind).time;
        put_histogram(text, Family::RequestTime, name, b"kind", kind.text(), time);
    }
}

/// Puts how long the calls of the device took.
#[tactic(auto, unfolding(crate::specs::Figures::call_times))]
fn put_call_times(text: &mut Text, tenant: &TenantMetrics)
    requires room { length text.old.bytes.items + MAX_TIMES ≤ MAX_METRICS }
    ensures lines { text.new.bytes.items ≡ text.old.bytes.items ++ spec.call_times tenant.now }
    ensures room { length text.new.bytes.items ≤ length text.old.bytes.items + MAX_TIMES }
{
    for call in DEVICE_CALLS {
        let name = &tenant.figures.name;
        let time = &calls_of(&tenant.counts, call).time;
        put_histogram(text, Family::DeviceTime, name, b"call", call.text(), time);
    }
}
