//! What a request's method and target ask for.
//!
//! Used by: `pages`, `hearing`, mw_server_pages. Change it with `specs/Targets` and docs/HTTP. Pages link to the
//! targets (mw_server_pages), and contrib/mondlexi-backup and scripts ask for them.
ghost use Rattle.std.specs.Prelude.{◌≡◌, ◌≤◌, length, IsTrue};
ghost use Rattle.std.specs.Option.{option_map};
ghost use Rattle.mw_http.specs.Targets as spec;

use crate::texts::{is_text, len_before};
use http1::text::eq_ignore_case;
use mw_words::{Name, is_name};

/// What a client may ask for.
#[derive(Drop)]
pub enum Route {
    /// The status page.
    Page,
    /// The figures.
    Metrics,
    /// Whether the server is well.
    Health,
    /// A copy of the file of the tenant with this name.
    File(Name),
    /// The words of the tenant with this name.
    Words(Name),
    /// How the status page looks.
    Style,
    /// The script of the status page.
    Script,
}

/// Gives what is at a target, if anything is.
#[tactic(auto, unfolding(crate::specs::Targets::place_at))]
pub(crate) fn route_at(target: &[u8]) -> Option<Route>
    ensures { option_map spec.place_of result ≡ spec.place_at target.now }
{
    match path_of(target) {
        None => None,
        Some(path) => route_of(path),
    }
}

/// Tells whether a target is a path, or an address of http.
pub(crate) fn is_target(target: &[u8]) -> bool
    ensures { result ≡ spec.is_target target.now }
{
    path_of(target).is_some()
}

fn route_of(path: &[u8]) -> Option<Route>
    ensures { option_map spec.place_of result ≡ spec.place_of_path path.now }
{
    if path.is_empty() || is_text(path, b"/") {
        return Some(Route::Page);
    }
    if is_text(path, b"/metrics") {
        return Some(Route::Metrics);
    }
    if is_text(path, b"/healthz") {
        return Some(Route::Health);
    }
    if is_text(path, b"/status.css") {
        return Some(Route::Style);
    }
    if is_text(path, b"/status.js") {
        return Some(Route::Script);
    }
    route_of_tenant(path)
}

/// Gives what is at the path of a tenant's file or words.
fn route_of_tenant(path: &[u8]) -> Option<Route>
    ensures { option_map spec.place_of result ≡ spec.tenant_at path.now }
{
    if path.ends_with(b"/words") {
        return match tenant_of(path, 6) {
            Some(tenant) => Some(Route::Words(tenant)),
            None => None,
        };
    }
    if path.ends_with(b"/file") {
        return match tenant_of(path, 5) {
            Some(tenant) => Some(Route::File(tenant)),
            None => None,
        };
    }
    None
}

/// Gives the name between `/tenants/` and the last bytes of a path, so many and at most six, if it is one.
fn tenant_of(path: &[u8], last: usize) -> Option<Name>
    requires { last ≤ 6 }
    ensures { option_map (λ name. name.items) result ≡ spec.name_in path.now last }
{
    if path.len() < 9 + last || !path.starts_with(b"/tenants/") {
        return None;
    }
    let name = &path[9..path.len() - last];
    match Name::try_from(name) {
        Ok(tenant) if is_name(name) => Some(tenant),
        _ => None,
    }
}

/// Gives a target's path, without its query.
#[tactic(auto, unfolding(crate::specs::Targets::path_of))]
fn path_of(target: &[u8]) -> Option<&[u8]>
    ensures { option_map (λ p. p.now) result ≡ spec.path_of target.now }
{
    if target.starts_with(b"/") {
        return Some(before_query(target));
    }
    if !has_scheme(target) {
        return None;
    }
    let rest = &target[7..];
    let authority = authority_len(rest);
    if authority == 0 {
        return None;
    }
    Some(before_query(&rest[authority..]))
}

fn has_scheme(target: &[u8]) -> bool
    ensures scheme { result ≡ spec.has_scheme target.now }
    ensures long { IsTrue result → 7 ≤ length target.now }
{
    target.len() >= 7 && eq_ignore_case(&target[..7], b"http://")
}

#[tactic(auto, unfolding(crate::specs::Targets::before_query))]
fn before_query(target: &[u8]) -> &[u8]
    ensures { result.now ≡ spec.before_query target.now }
{
    &target[..len_before(target, b'?')]
}

/// Gives how long the authority of an address is: up to the path, the query or the end.
fn authority_len(rest: &[u8]) -> usize
    ensures authority { result ≡ spec.authority_len rest.now }
    ensures within { result ≤ length rest.now }
{
    len_before(before_query(rest), b'/')
}
