//! Writes the status page.
//!
//! Used by: `server_pages`. Change it with `specs/StatusPage` and docs/HTTP. The style and the script in `look.rt`
//! name its classes and ids; mw_serving_tests and scripts/http_parts expect some of its texts.
ghost use Rattle.std.specs.Prelude.{◌≡◌, ◌+◌, ◌*◌, ◌≤◌, ◌++◌, length, Some, IfOk};
ghost use Rattle.mw_words.specs.declared.limits.TheConstants.{MAX_TENANTS};
ghost use Rattle.mw_server_pages.specs.declared.text.TheConstants.{MAX_PAGE, MAX_VERSION};
ghost use Rattle.mw_server_pages.specs.declared.limits.TheConstants.{MAX_LIMITS};
ghost use Rattle.mw_server_pages.specs.declared.tenant_rows.TheConstants.{MAX_ROW, MAX_UNWELL_NAME};
ghost use Rattle.mw_server_pages.specs.StatusPage as spec;

use crate::health::are_well;
use crate::limits::{Limit, MAX_LIMITS, put_limits};
use crate::recents::{Recent, put_recents};
use crate::spans::put_span;
use crate::tenant_rows::{MAX_ROW, MAX_UNWELL_NAME, put_rows, put_unwell_names};
use crate::text::{MAX_PAGE, MAX_VERSION, Text};
use mw_metrics::TenantMetrics;
use mw_words::MAX_TENANTS;
use std::alloc::{AllocError, Global};

/// Gives the status page of a server of this version that is up for so many seconds, and whose lease, if it has one, has a beat of so
/// many seconds ago.
///
/// It has a row for each of these tenants, the free slots of the pool, a row for each of these limits, and one for each of these
/// curves. There are at most [`MAX_TENANTS`] tenants, and as many curves. The version has at most [`MAX_VERSION`] bytes. Memory
/// is asked for once, [`MAX_PAGE`] bytes.
///
/// # Errors
///
/// This memory is out.
#[tactic(auto, unfolding(crate::specs::StatusPage::page))]
pub fn status_page(
    alloc: Global,
    version: &[u8],
    seconds: u64,
    lease: Option<u64>,
    tenants: &[TenantMetrics],
    limits: &[Limit],
    recents: &[Recent],
    pool_free: u16,
) -> Result<Vec<u8>, AllocError>
    requires version { length version.now ≤ MAX_VERSION }
    requires few { length tenants.now ≤ MAX_TENANTS }
    requires few_limits { length limits.now ≤ MAX_LIMITS }
    requires few_recents { length recents.now ≤ MAX_TENANTS }
    ensures page { IfOk result (λ page. page.items ≡ spec.page version.now seconds lease tenants.now limits.now recents.now pool_free) }
{
    let mut text = Text::new(alloc)?;
    put_front(&mut text);
    put_about(&mut text, version, seconds);
    put_lease(&mut text, lease);
    put_summary(&mut text, tenants);
    put_limits(&mut text, limits);
    put_recents(&mut text, recents);
    put_table(&mut text, tenants);
    put_end(&mut text, pool_free);
    Ok(text.bytes)
}

#[tactic(auto, unfolding(crate::specs::StatusPage::front))]
fn put_front(text: &mut Text)
    requires { length text.old.bytes.items + 600 ≤ MAX_PAGE }
    ensures front { text.new.bytes.items ≡ text.old.bytes.items ++ spec.front }
    ensures room { length text.new.bytes.items ≤ length text.old.bytes.items + 600 }
{
    text.put(
        b"<!DOCTYPE html>\n<html lang=\"en\">\n<head>\n<meta charset=\"utf-8\">\n<meta name=\"viewport\" content=\"width=device-width\">\n<meta http-equiv=\"Content-Security-Policy\" content=\"default-src 'self'\">\n<noscript><meta http-equiv=\"refresh\" content=\"10\"></noscript>\n<title>Mondlexi</title>\n<link rel=\"stylesheet\" href=\"status.css\">\n<script src=\"status.js\" defer></script>\n</head>\n<body>\n<h1>Mondlexi</h1>\n<div id=\"state\">\n",
    );
}

#[tactic(auto, unfolding(crate::specs::StatusPage::about))]
fn put_about(text: &mut Text, version: &[u8], seconds: u64)
    requires version { length version.now ≤ MAX_VERSION }
    requires room { length text.old.bytes.items + 240 ≤ MAX_PAGE }
    ensures about { text.new.bytes.items ≡ text.old.bytes.items ++ spec.about version.now seconds }
    ensures room { length text.new.bytes.items ≤ length text.old.bytes.items + 240 }
{
    text.put(b"<p>Version ");
    text.put_escaped(version);
    text.put(b", up for ");
    put_span(text, seconds);
    text.put(b".</p>\n");
}

#[tactic(auto, unfolding(crate::specs::StatusPage::lease_line))]
fn put_lease(text: &mut Text, seconds: Option<u64>)
    requires { length text.old.bytes.items + 80 ≤ MAX_PAGE }
    ensures lease { text.new.bytes.items ≡ text.old.bytes.items ++ spec.lease_line seconds }
    ensures room { length text.new.bytes.items ≤ length text.old.bytes.items + 80 }
{
    if let Some(seconds) = seconds {
        put_lease_age(text, seconds);
    }
}

#[tactic(auto, unfolding(crate::specs::StatusPage::lease_line))]
fn put_lease_age(text: &mut Text, seconds: u64)
    requires { length text.old.bytes.items + 80 ≤ MAX_PAGE }
    ensures lease { text.new.bytes.items ≡ text.old.bytes.items ++ spec.lease_line (Some seconds) }
    ensures room { length text.new.bytes.items ≤ length text.old.bytes.items + 80 }
{
    text.put(b"<p>Seconds since the last beat of the lease began: ");
    text.put_number(seconds);
    text.put(b".</p>\n");
}

#[tactic(auto, unfolding(crate::specs::StatusPage::summary, crate::specs::StatusPage::unwell))]
fn put_summary(text: &mut Text, tenants: &[TenantMetrics])
    requires few { length tenants.now ≤ MAX_TENANTS }
    requires room { length text.old.bytes.items + (50 + MAX_TENANTS * MAX_UNWELL_NAME) ≤ MAX_PAGE }
    ensures summary { text.new.bytes.items ≡ text.old.bytes.items ++ spec.summary tenants.now }
    ensures room { length text.new.bytes.items ≤ length text.old.bytes.items + (50 + MAX_TENANTS * MAX_UNWELL_NAME) }
{
    if are_well(tenants) {
        text.put(b"<p class=\"up\">All tenants are up.</p>\n");
    } else {
        text.put(b"<p class=\"down\">Not well:");
        put_unwell_names(text, tenants);
        text.put(b".</p>\n");
    }
}

#[tactic(auto, unfolding(crate::specs::StatusPage::table))]
fn put_table(text: &mut Text, tenants: &[TenantMetrics])
    requires few { length tenants.now ≤ MAX_TENANTS }
    requires room { length text.old.bytes.items + (200 + MAX_TENANTS * MAX_ROW) ≤ MAX_PAGE }
    ensures table { text.new.bytes.items ≡ text.old.bytes.items ++ spec.table tenants.now }
    ensures room { length text.new.bytes.items ≤ length text.old.bytes.items + (200 + MAX_TENANTS * MAX_ROW) }
{
    text.put(
        b"<h2>Tenants</h2>\n<table class=\"tenants\">\n<tr><th>Tenant</th><th>State</th><th>Words</th><th>Changes under way</th><th>Record places</th></tr>\n",
    );
    put_rows(text, tenants);
    text.put(b"</table>\n");
}

#[tactic(auto, unfolding(crate::specs::StatusPage::end))]
fn put_end(text: &mut Text, pool_free: u16)
    requires { length text.old.bytes.items + 250 ≤ MAX_PAGE }
    ensures end { text.new.bytes.items ≡ text.old.bytes.items ++ spec.end pool_free }
{
    text.put(b"<p>Free slots of the pool: ");
    text.put_number(u64::from(pool_free));
    text.put(
        b".</p>\n</div>\n<p><a href=\"metrics\">Figures for Prometheus</a>, <a href=\"healthz\">health</a></p>\n</body>\n</html>\n",
    );
}
