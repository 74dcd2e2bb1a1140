//! Writes what the status page has of the time before: a row with curves for each tenant.
//!
//! Used by: `samples`, `status`. Change it with `specs/Recents`. `look.rt` names its classes; mw_serving_tests and
//! scripts/http_parts expect some of its texts.
ghost use Rattle.std.specs.Prelude.{◌≡◌, ◌+◌, ◌*◌, ◌≤◌, ◌++◌, length, flat_map};
ghost use Rattle.mw_words.specs.declared.limits.TheConstants.{MAX_TENANTS};
ghost use Rattle.mw_server_pages.specs.declared.text.TheConstants.{MAX_PAGE};
ghost use Rattle.mw_server_pages.specs.Recents as spec;

use crate::spans::put_span;
use crate::text::{MAX_PAGE, Text};
use arrayvec::ArrayVec;
use mw_words::{MAX_TENANTS, Name};

/// The most points of a curve.
pub const MAX_POINTS: usize = 64;

/// How wide the field of a curve is.
pub const CURVE_WIDTH: u8 = 180;

/// How high the field of a curve is.
pub const CURVE_HEIGHT: u8 = 30;

/// The most bytes of a point.
const MAX_POINT: usize = 8;

/// The most bytes of a cell with a curve.
const MAX_CURVE: usize = 700;

/// The most bytes of a tenant's row.
pub(crate) const MAX_RECENT: usize = 2_450;

/// A point of a curve: how far to the right it is, and how far down.
#[derive(Clone, Copy, Default)]
pub struct Point {
    pub right: u8,
    pub down: u8,
}

/// How a figure went of late.
#[derive(Default, Drop)]
pub struct Curve {
    /// The figure now.
    pub last: u64,
    /// The highest that it was.
    pub most: u64,
    /// What it was at each moment, from left to right, in a field of [`CURVE_WIDTH`] and [`CURVE_HEIGHT`].
    pub points: ArrayVec<Point, MAX_POINTS>,
}

/// How a tenant did of late.
#[derive(Default, Drop)]
pub struct Recent {
    pub name: Name,
    /// For how many seconds it is known to be down. None: it is up.
    pub down: Option<u64>,
    /// How many changes were made in a second.
    pub changes: Curve,
    /// How many microseconds a change took.
    pub change: Curve,
    /// How many microseconds a sync took.
    pub sync: Curve,
}

/// Puts the table of the time before.
#[tactic(auto, unfolding(crate::specs::Recents::recents))]
pub(crate) fn put_recents(text: &mut Text, recents: &[Recent])
    requires few { length recents.now ≤ MAX_TENANTS }
    requires room { length text.old.bytes.items + (320 + MAX_TENANTS * MAX_RECENT) ≤ MAX_PAGE }
    ensures recents { text.new.bytes.items ≡ text.old.bytes.items ++ spec.recents recents.now }
    ensures room { length text.new.bytes.items ≤ length text.old.bytes.items + (320 + MAX_TENANTS * MAX_RECENT) }
{
    text.put(
        b"<h2>The last quarter of an hour</h2>\n<p>Each curve goes from 15 minutes ago to now, and from 0 to its most.</p>\n<table class=\"recent\">\n<tr><th>Tenant</th><th>State</th><th>Changes a second</th><th>A change, in &micro;s</th><th>A sync, in &micro;s</th></tr>\n",
    );
    put_rows(text, recents);
    text.put(b"</table>\n");
}

fn put_rows(text: &mut Text, recents: &[Recent])
    requires few { length recents.now ≤ MAX_TENANTS }
    requires room { length text.old.bytes.items + MAX_TENANTS * MAX_RECENT ≤ MAX_PAGE }
    ensures rows { text.new.bytes.items ≡ text.old.bytes.items ++ flat_map spec.recent recents.now }
    ensures room { length text.new.bytes.items ≤ length text.old.bytes.items + MAX_TENANTS * MAX_RECENT }
{
    for recent in recents {
        put_recent(text, recent);
    }
}

#[tactic(auto, unfolding(crate::specs::Recents::recent))]
fn put_recent(text: &mut Text, recent: &Recent)
    requires { length text.old.bytes.items + MAX_RECENT ≤ MAX_PAGE }
    ensures row { text.new.bytes.items ≡ text.old.bytes.items ++ spec.recent recent.now }
    ensures room { length text.new.bytes.items ≤ length text.old.bytes.items + MAX_RECENT }
{
    put_named(text, recent);
    put_cell(text, &recent.changes);
    put_cell(text, &recent.change);
    put_cell(text, &recent.sync);
    text.put(b"</tr>\n");
}

#[tactic(auto, unfolding(crate::specs::Recents::named))]
fn put_named(text: &mut Text, recent: &Recent)
    requires { length text.old.bytes.items + 300 ≤ MAX_PAGE }
    ensures named { text.new.bytes.items ≡ text.old.bytes.items ++ spec.named recent.now }
    ensures room { length text.new.bytes.items ≤ length text.old.bytes.items + 300 }
{
    text.put(b"<tr><td>");
    text.put_escaped(&recent.name);
    text.put(b"</td><td>");
    put_state(text, recent.down);
    text.put(b"</td>");
}

#[tactic(auto, unfolding(crate::specs::Recents::down_for))]
fn put_state(text: &mut Text, down: Option<u64>)
    requires { length text.old.bytes.items + 120 ≤ MAX_PAGE }
    ensures state { text.new.bytes.items ≡ text.old.bytes.items ++ spec.state down }
    ensures room { length text.new.bytes.items ≤ length text.old.bytes.items + 120 }
{
    match down {
        None => text.put(b"up"),
        Some(seconds) => {
            text.put(b"down for ");
            put_span(text, seconds);
        }
    }
}

#[tactic(auto, unfolding(crate::specs::Recents::cell))]
fn put_cell(text: &mut Text, curve: &Curve)
    requires { length text.old.bytes.items + MAX_CURVE ≤ MAX_PAGE }
    ensures cell { text.new.bytes.items ≡ text.old.bytes.items ++ spec.cell curve.now }
    ensures room { length text.new.bytes.items ≤ length text.old.bytes.items + MAX_CURVE }
{
    text.put(b"<td>");
    text.put_number(curve.last);
    text.put(b" (most ");
    text.put_number(curve.most);
    text.put(
        b") <svg viewBox=\"0 0 180 30\" aria-hidden=\"true\"><path d=\"M0 0V30H180\"/><polyline points=\"",
    );
    put_points(text, &curve.points);
    text.put(b"\"/></svg></td>");
}

fn put_points(text: &mut Text, points: &[Point])
    requires few { length points.now ≤ MAX_POINTS }
    requires room { length text.old.bytes.items + MAX_POINTS * MAX_POINT ≤ MAX_PAGE }
    ensures points { text.new.bytes.items ≡ text.old.bytes.items ++ flat_map spec.point points.now }
    ensures room { length text.new.bytes.items ≤ length text.old.bytes.items + MAX_POINTS * MAX_POINT }
{
    for point in points {
        put_point(text, *point);
    }
}

#[tactic(auto, unfolding(crate::specs::Recents::point))]
fn put_point(text: &mut Text, point: Point)
    requires { length text.old.bytes.items + MAX_POINT ≤ MAX_PAGE }
    ensures point { text.new.bytes.items ≡ text.old.bytes.items ++ spec.point point }
    ensures room { length text.new.bytes.items ≤ length text.old.bytes.items + MAX_POINT }
{
    text.put_small(point.right);
    text.put(b",");
    text.put_small(point.down);
    text.put(b" ");
}
