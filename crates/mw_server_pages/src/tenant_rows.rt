//! Writes what the status page has of each tenant.
//!
//! Used by: `status`. Change it with `specs/StatusPage`. `look.rt` names its classes; mw_serving_tests and
//! scripts/http_parts expect some of its texts.
ghost use Rattle.std.specs.Prelude.{◌≡◌, ◌+◌, ◌*◌, ◌≤◌, ◌++◌, length, flat_map};
ghost use Rattle.mw_words.specs.declared.limits.TheConstants.{MAX_TENANTS};
ghost use Rattle.mw_server_pages.specs.declared.text.TheConstants.{MAX_PAGE};
ghost use Rattle.mw_server_pages.specs.StatusPage as spec;

use crate::health::{is_well, state};
use crate::text::{MAX_PAGE, Text};
use mw_metrics::TenantMetrics;
use mw_words::MAX_TENANTS;

/// The most bytes of a tenant's cells.
const MAX_CELLS: usize = 228;

/// The most bytes of a tenant's row.
pub(crate) const MAX_ROW: usize = 268;

/// The most bytes of a name and a state, after a space.
pub(crate) const MAX_UNWELL_NAME: usize = 108;

/// Puts the row of each tenant.
pub(crate) fn put_rows(text: &mut Text, tenants: &[TenantMetrics])
    requires few { length tenants.now ≤ MAX_TENANTS }
    requires room { length text.old.bytes.items + MAX_TENANTS * MAX_ROW ≤ MAX_PAGE }
    ensures rows { text.new.bytes.items ≡ text.old.bytes.items ++ flat_map spec.row tenants.now }
    ensures room { length text.new.bytes.items ≤ length text.old.bytes.items + MAX_TENANTS * MAX_ROW }
{
    for tenant in tenants {
        put_row(text, tenant);
    }
}

#[tactic(auto, unfolding(crate::specs::StatusPage::row))]
fn put_row(text: &mut Text, tenant: &TenantMetrics)
    requires { length text.old.bytes.items + MAX_ROW ≤ MAX_PAGE }
    ensures row { text.new.bytes.items ≡ text.old.bytes.items ++ spec.row tenant.now }
    ensures room { length text.new.bytes.items ≤ length text.old.bytes.items + MAX_ROW }
{
    text.put(b"<tr class=\"");
    text.put(state_of(tenant));
    text.put(b"\"><td>");
    put_cells(text, tenant);
    text.put(b"</td></tr>\n");
}

/// Tells whether a tenant is up, or why it is not well. This word also gives its row its colour.
fn state_of(tenant: &TenantMetrics) -> &'static [u8]
    ensures word { result.now ≡ spec.state_of tenant.now }
    ensures short { length result.now ≤ 8 }
{
    if is_well(tenant) {
        b"up"
    } else {
        state(tenant)
    }
}

#[tactic(auto, unfolding(crate::specs::StatusPage::cells))]
fn put_cells(text: &mut Text, tenant: &TenantMetrics)
    requires { length text.old.bytes.items + MAX_CELLS ≤ MAX_PAGE }
    ensures cells { text.new.bytes.items ≡ text.old.bytes.items ++ spec.cells tenant.now }
    ensures room { length text.new.bytes.items ≤ length text.old.bytes.items + MAX_CELLS }
{
    let figures = &tenant.figures;
    text.put_escaped(&figures.name);
    text.put(b"</td><td>");
    text.put(state_of(tenant));
    text.put(b"</td><td>");
    text.put_number(u64::from(figures.words));
    text.put(b"</td><td>");
    text.put_number(u64::from(figures.used));
    text.put(b" of ");
    text.put_number(u64::from(figures.quota));
    text.put(b"</td><td>");
    text.put_number(u64::from(figures.places));
}

/// Puts the name and the state of each tenant that is not well.
pub(crate) fn put_unwell_names(text: &mut Text, tenants: &[TenantMetrics])
    requires few { length tenants.now ≤ MAX_TENANTS }
    requires room { length text.old.bytes.items + MAX_TENANTS * MAX_UNWELL_NAME ≤ MAX_PAGE }
    ensures names { text.new.bytes.items ≡ text.old.bytes.items ++ flat_map spec.unwell_name tenants.now }
    ensures room { length text.new.bytes.items ≤ length text.old.bytes.items + MAX_TENANTS * MAX_UNWELL_NAME }
{
    for tenant in tenants {
        put_unwell_name(text, tenant);
    }
}

#[tactic(auto, unfolding(crate::specs::StatusPage::unwell_name))]
fn put_unwell_name(text: &mut Text, tenant: &TenantMetrics)
    requires { length text.old.bytes.items + MAX_UNWELL_NAME ≤ MAX_PAGE }
    ensures name { text.new.bytes.items ≡ text.old.bytes.items ++ spec.unwell_name tenant.now }
    ensures room { length text.new.bytes.items ≤ length text.old.bytes.items + MAX_UNWELL_NAME }
{
    if !is_well(tenant) {
        text.put(b" ");
        text.put_escaped(&tenant.figures.name);
        text.put(b" (");
        text.put(state(tenant));
        text.put(b")");
    }
}
