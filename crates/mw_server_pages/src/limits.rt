//! Writes how much of each limit was used of late (`near.rt`), and which are near.
//!
//! Used by: `status`. Change it with `specs/Limits`. `look.rt` names its classes; mw_serving_tests and scripts/http_parts
//! expect some of its texts.
ghost use Rattle.std.specs.Prelude.{◌≡◌, ◌+◌, ◌*◌, ◌≤◌, ◌++◌, length, flat_map};
ghost use Rattle.std.specs.List.{list_all};
ghost use Rattle.mw_server_pages.specs.declared.text.TheConstants.{MAX_PAGE};
ghost use Rattle.mw_server_pages.specs.Limits as spec;

use crate::text::{MAX_PAGE, Text};
use mw_words::Name;

/// The most limits of a server: a quota and the record places of each tenant, the workers and the sessions.
pub const MAX_LIMITS: usize = 34;

/// The most bytes of what was used of a limit.
const MAX_USED: usize = 150;

/// The most bytes of a limit.
const MAX_LIMIT: usize = 330;

/// What is limited.
#[derive(Clone, Copy, Default)]
pub enum LimitKind {
    /// The changes of a tenant that are under way.
    #[default]
    Quota,
    /// The record places of a tenant's file.
    Places,
    /// The workers for changes.
    Workers,
    /// The connections that are served at once.
    Sessions,
}

impl LimitKind {
    /// Tells what is limited; the tenant comes after it, if it is one's.
    fn name(self) -> &'static [u8]
        ensures name { result.now ≡ spec.kind self }
        ensures short { length result.now ≤ 19 }
    {
        match self {
            LimitKind::Quota => b"quota of ",
            LimitKind::Places => b"record places of ",
            LimitKind::Workers => b"workers for changes",
            LimitKind::Sessions => b"sessions",
        }
    }

    /// Tells what raises it.
    fn remedy(self) -> &'static [u8]
        ensures remedy { result.now ≡ spec.remedy self }
        ensures short { length result.now ≤ 32 }
    {
        match self {
            LimitKind::Quota => b"its number in the tenants file",
            LimitKind::Places => b"a larger file, by mwinit --from",
            LimitKind::Workers => b"--workers",
            LimitKind::Sessions => b"--clients, or end some by --idle",
        }
    }
}

/// A limit, and how much of it was used of late.
#[derive(Default, Drop)]
pub struct Limit {
    pub kind: LimitKind,
    /// The tenant whose limit it is, if it is one's.
    pub tenant: Name,
    /// The most that was used.
    pub used: u64,
    /// How much there is.
    pub most: u64,
    /// Whether it is near.
    pub near: bool,
}

/// Puts the limits.
#[tactic(auto, unfolding(crate::specs::Limits::limits, crate::specs::Limits::heading))]
pub(crate) fn put_limits(text: &mut Text, limits: &[Limit])
    requires few { length limits.now ≤ MAX_LIMITS }
    requires room { length text.old.bytes.items + (300 + MAX_LIMITS * MAX_LIMIT) ≤ MAX_PAGE }
    ensures limits { text.new.bytes.items ≡ text.old.bytes.items ++ spec.limits limits.now }
    ensures room { length text.new.bytes.items ≤ length text.old.bytes.items + (300 + MAX_LIMITS * MAX_LIMIT) }
{
    put_verdict(text, limits);
    text.put(
        b"</div>\n<div id=\"minute\"></div>\n<div id=\"rest\">\n<h2>Limits, and the most that was used in the last quarter of an hour</h2>\n<table class=\"limits\">\n<tr><th>Limit</th><th>Used</th><th></th><th>What raises it</th></tr>\n",
    );
    put_each(text, limits);
    text.put(b"</table>\n");
}

/// Puts whether a limit is near.
fn put_verdict(text: &mut Text, limits: &[Limit])
    requires { length text.old.bytes.items + 50 ≤ MAX_PAGE }
    ensures verdict { text.new.bytes.items ≡ text.old.bytes.items ++ spec.verdict limits.now }
    ensures room { length text.new.bytes.items ≤ length text.old.bytes.items + 50 }
{
    text.put(if are_far(limits) {
        b"<p>No limit is near.</p>\n"
    } else {
        b"<p class=\"near\">A limit is near.</p>\n"
    });
}

/// Tells whether none of these limits is near.
fn are_far(limits: &[Limit]) -> bool
    ensures { result ≡ list_all spec.is_far limits.now }
{
    for limit in limits {
        if limit.near {
            return false;
        }
    }
    true
}

fn put_each(text: &mut Text, limits: &[Limit])
    requires few { length limits.now ≤ MAX_LIMITS }
    requires room { length text.old.bytes.items + MAX_LIMITS * MAX_LIMIT ≤ MAX_PAGE }
    ensures limits { text.new.bytes.items ≡ text.old.bytes.items ++ flat_map spec.limit limits.now }
    ensures room { length text.new.bytes.items ≤ length text.old.bytes.items + MAX_LIMITS * MAX_LIMIT }
{
    for limit in limits {
        put_limit(text, limit);
    }
}

#[tactic(auto, unfolding(crate::specs::Limits::limit))]
fn put_limit(text: &mut Text, limit: &Limit)
    requires { length text.old.bytes.items + MAX_LIMIT ≤ MAX_PAGE }
    ensures limit { text.new.bytes.items ≡ text.old.bytes.items ++ spec.limit limit.now }
    ensures room { length text.new.bytes.items ≤ length text.old.bytes.items + MAX_LIMIT }
{
    text.put(b"<tr class=\"");
    text.put(nearness(limit.near));
    text.put(b"\"><td>");
    text.put(limit.kind.name());
    text.put_escaped(&limit.tenant);
    put_used(text, limit);
    text.put(limit.kind.remedy());
    text.put(b"</td></tr>\n");
}

/// Tells whether a limit is near, as a word.
fn nearness(near: bool) -> &'static [u8]
    ensures word { result.now ≡ spec.nearness near }
    ensures short { length result.now ≤ 4 }
{
    if near { b"near" } else { b"far" }
}

#[tactic(auto, unfolding(crate::specs::Limits::used))]
fn put_used(text: &mut Text, limit: &Limit)
    requires { length text.old.bytes.items + MAX_USED ≤ MAX_PAGE }
    ensures used { text.new.bytes.items ≡ text.old.bytes.items ++ spec.used limit.now }
    ensures room { length text.new.bytes.items ≤ length text.old.bytes.items + MAX_USED }
{
    text.put(b"</td><td>");
    text.put_number(limit.used);
    text.put(b" of ");
    text.put_number(limit.most);
    text.put(b"</td><td><meter max=\"");
    text.put_number(limit.most);
    text.put(b"\" value=\"");
    text.put_number(limit.used);
    text.put(b"\"></meter></td><td>");
}
