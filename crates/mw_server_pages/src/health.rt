//! Says whether all tenants are up and their files in their places, and which are not.
//!
//! Used by: `status`, `tenant_rows`, `server_pages`. Change it with `specs/Health` and docs/HTTP.
//! contrib/mondlexi-health prints its lines; mw_serving_tests and scripts/http_parts expect them.
ghost use Rattle.std.specs.Prelude.{◌≡◌, ◌+◌, ◌≤◌, ◌++◌, length};
ghost use Rattle.std.specs.List.{list_all};
ghost use Rattle.mw_words.specs.declared.limits.TheConstants.{MAX_TENANTS};
ghost use Rattle.mw_server_pages.specs.Health as spec;

use arrayvec::ArrayVec;
use mw_metrics::TenantMetrics;
use mw_words::MAX_TENANTS;

/// The most bytes of the text.
pub const MAX_HEALTH: usize = 416;

/// The most bytes of one tenant's line.
const MAX_UNWELL_LINE: usize = 26;

/// Tells whether a tenant is up, and its file is the one that was opened.
pub(crate) fn is_well(tenant: &TenantMetrics) -> bool
    ensures { result ≡ spec.is_well tenant.now }
{
    tenant.is_up() && !tenant.place.is_lost()
}

/// Tells whether all these tenants are up, and their files are those that were opened.
pub fn are_well(tenants: &[TenantMetrics]) -> bool
    ensures { result ≡ list_all spec.is_well tenants.now }
{
    for tenant in tenants {
        if !is_well(tenant) {
            return false;
        }
    }
    true
}

/// Gives a line `down NAME` for each of these tenants that is down, and `replaced NAME` for each other one whose file was
/// replaced, cut or overwritten, in their order; or `ok` if there is none. It takes no memory.
#[tactic(auto, unfolding(crate::specs::Health::health))]
pub fn health_text(tenants: &[TenantMetrics]) -> ArrayVec<u8, MAX_HEALTH>
    requires { length tenants.now ≤ MAX_TENANTS }
    ensures { result.items ≡ spec.health tenants.now }
{
    let mut text = ArrayVec::new();
    if are_well(tenants) {
        put(&mut text, b"ok\n");
    } else {
        put_unwell(&mut text, tenants);
    }
    text
}

fn put_unwell(text: &mut ArrayVec<u8, MAX_HEALTH>, tenants: &[TenantMetrics])
    requires few { length tenants.now ≤ MAX_TENANTS }
    requires empty { length text.old.items ≡ 0 }
    ensures { text.new.items ≡ text.old.items ++ spec.unwell_lines tenants.now }
{
    for tenant in tenants {
        put_line(text, tenant);
    }
}

fn put_line(text: &mut ArrayVec<u8, MAX_HEALTH>, tenant: &TenantMetrics)
    requires { length text.old.items + MAX_UNWELL_LINE ≤ MAX_HEALTH }
    ensures line { text.new.items ≡ text.old.items ++ spec.unwell_line tenant.now }
    ensures room { length text.new.items ≤ length text.old.items + MAX_UNWELL_LINE }
{
    if !is_well(tenant) {
        put(text, state(tenant));
        put(text, b" ");
        put(text, &tenant.figures.name);
        put(text, b"\n");
    }
}

/// Gives the word for a tenant that is not well.
pub(crate) fn state(tenant: &TenantMetrics) -> &'static [u8]
    ensures word { result.now ≡ spec.state tenant.now }
    ensures short { length result.now ≤ 8 }
{
    if tenant.is_up() { b"replaced" } else { b"down" }
}

fn put(text: &mut ArrayVec<u8, MAX_HEALTH>, bytes: &[u8])
    requires { length text.old.items + length bytes.now ≤ MAX_HEALTH }
    ensures bytes { text.new.items ≡ text.old.items ++ bytes.now }
    ensures room { length text.new.items ≡ length text.old.items + length bytes.now }
{
    text.try_extend_from_slice(bytes).unwrap();
}
