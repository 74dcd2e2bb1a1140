//! Tests what a server shows, but for what a request to one brings about: scripts/http_parts has that.
use crate::checks::{MEMORY, holds};
use crate::hand_clock::HandClock;
use crate::http_peers::OneFile;
use mw_http::{ContentType, Page, Pages, Route, Status};
use mw_metrics::{CloseReason, FilePlace, Meters, ServerCounters, TenantCounters, TenantMetrics};
use mw_report::TenantFigures;
use mw_server_pages::{
    Capacity, Curve, Limit, LimitKind, NoCopy, Point, Recent, ServerPages, Version, health_text,
    status_page,
};
use mw_test_peers::Shelf;
use mw_words::{Entries, Job, Name, Reply};
use std::process::Abort;
use std::thread;
use std::time::Duration;

/// Tells whether this part is somewhere in the text.
fn is_in(part: &[u8], text: &[u8]) -> bool {
    for at in 0..text.len() {
        if text[at..].starts_with(part) {
            return true;
        }
    }
    part.is_empty()
}

/// What the server can do at once.
const CAPACITY: Capacity = Capacity {
    workers: 4,
    sessions: 4,
};

/// The server's version.
const VERSION: &[u8] = b"1.2";

/// The pages of a server with one tenant, `t`, which is up.
type OnePages<'a> = ServerPages<'a, Shelf, OneFile, HandClock>;

/// Makes the pages of such a server, for whose tenant this file is given, or not. None: memory is out.
fn pages_of<'a>(
    clock: &'a HandClock,
    meters: &'a Meters,
    file: Result<&'static [u8], NoCopy>,
) -> Option<OnePages<'a>> {
    let files = OneFile {
        alloc: clock.alloc(),
        file,
    };
    let version = Version::try_from(VERSION).unwrap_or_default();
    ServerPages::new(Shelf::new(2), files, meters, clock, version, CAPACITY).ok()
}

/// What no request to a server brings about: a file of the tenant `t` without bytes, and no memory for a copy; with the
/// status and the type of the answer, which has no body.
static COPIES: [(Result<&[u8], NoCopy>, Status, ContentType); 2] = [
    (Ok(b""), Status::Ok, ContentType::Bytes),
    (
        Err(NoCopy::Memory),
        Status::InternalError,
        ContentType::Text,
    ),
];

/// Gives the page of the file of the tenant `t`. None: memory is out.
fn page_of_file(clock: &HandClock, file: Result<&'static [u8], NoCopy>) -> Option<Page> {
    let meters = Meters::new(clock);
    let mut pages = pages_of(clock, &meters, file)?;
    let name = Name::try_from(b"t".as_slice()).unwrap_or_default();
    Some(pages.page(&Route::File(name)))
}

/// Tells whether a page has this status and type, and no body.
fn is_bare(page: &Page, status: Status, kind: ContentType) -> bool {
    page.status == status && page.kind == kind && page.body.is_empty()
}

#[test]
fn no_bytes_and_no_memory_are_answered(rt: HostRuntime) {
    let clock = HandClock::new(rt.alloc(), false);
    for (number, (file, status, kind)) in COPIES.iter().enumerate() {
        let page = page_of_file(&clock, *file).expect(&rt, MEMORY);
        holds(&rt, "a row", number, is_bare(&page, *status, *kind));
    }
}

/// The figures of a tenant of this name that is down, and whose other figures are 0.
fn tenant(name: &[u8]) -> TenantMetrics {
    TenantMetrics {
        figures: TenantFigures {
            name: Name::try_from(name).unwrap_or_default(),
            ..TenantFigures::default()
        },
        place: FilePlace::InPlace,
        counts: TenantCounters::new().counts(),
    }
}

/// Parts of the page of a tenant whose name has characters that are escaped.
static ESCAPED: [&str; 5] = [
    "<p>Version &lt;, up for 1 d 1 h 1 min 1 s.</p>\n",
    "<p>Seconds since the last beat of the lease began: 3.</p>\n",
    "<p class=\"down\">Not well: &lt;a&amp;&quot;&gt; (down).</p>\n",
    "<tr class=\"down\"><td>&lt;a&amp;&quot;&gt;</td><td>down</td><td>0</td><td>0 of 0</td><td>0</td></tr>",
    "<p>Free slots of the pool: 7.</p>\n",
];

/// All of these parts are in a page.
fn are_in<R: Abort>(rt: &R, parts: &[&str], page: &[u8]) {
    for part in parts {
        holds(rt, part, 0, is_in(part.as_bytes(), page));
    }
}

#[test]
fn names_are_escaped(rt: HostRuntime) {
    let tenants = [tenant(b"<a&\">")];
    let page = status_page(rt.alloc(), b"<", 90061, Some(3), &tenants, &[], &[], 7).expect(
        &rt, MEMORY,
    );
    are_in(&rt, &ESCAPED, &page);
}

/// Gives a curve of two points, from below to the top.
fn rising() -> Curve {
    let mut curve = Curve {
        last: 3,
        most: 12,
        ..Curve::default()
    };
    let (first, last) = (
        Point { right: 0, down: 30 },
        Point {
            right: 180,
            down: 0,
        },
    );
    let _ = curve.points.try_push(first);
    let _ = curve.points.try_push(last);
    curve
}

/// A tenant that is down, and whose curve of changes rises.
fn recent() -> Recent {
    Recent {
        name: Name::try_from(b"a".as_slice()).unwrap_or_default(),
        down: Some(61),
        change: rising(),
        ..Recent::default()
    }
}

/// A tenant near its quota, and a server far from the most sessions.
fn limits() -> [Limit; 2] {
    [
        Limit {
            kind: LimitKind::Quota,
            tenant: Name::try_from(b"a".as_slice()).unwrap_or_default(),
            used: 3,
            most: 4,
            near: true,
        },
        Limit {
            kind: LimitKind::Sessions,
            used: 1,
            most: 5,
            ..Limit::default()
        },
    ]
}

/// Parts of the page that shows these.
static DRAWN: [&str; 5] = [
    "<p class=\"near\">A limit is near.</p>\n</div>\n<div id=\"minute\"></div>\n",
    "<tr class=\"near\"><td>quota of a</td><td>3 of 4</td><td><meter max=\"4\" value=\"3\"></meter></td><td>its number in the tenants file</td></tr>\n",
    "<tr class=\"far\"><td>sessions</td><td>1 of 5</td><td><meter max=\"5\" value=\"1\"></meter></td><td>--clients, or end some by --idle</td></tr>\n</table>\n",
    "<tr><td>a</td><td>down for 0 d 0 h 1 min 1 s</td><td>0 (most 0) <svg",
    "<td>3 (most 12) <svg viewBox=\"0 0 180 30\" aria-hidden=\"true\"><path d=\"M0 0V30H180\"/><polyline points=\"0,30 180,0 \"/></svg></td><td>",
];

/// On a page without tenants; and all tenants are well if there is none.
#[test]
fn limits_and_curves_are_drawn(rt: HostRuntime) {
    let is_well = health_text(&[]).as_slice() == b"ok\n".as_slice();
    holds(&rt, "no tenant", 0, is_well);
    let (limits, recents) = (limits(), [recent()]);
    let page = status_page(rt.alloc(), b"1", 0, None, &[], &limits, &recents, 0).expect(
        &rt, MEMORY,
    );
    are_in(&rt, &DRAWN, &page);
}

/// What the status page says of limits that are all far.
const FAR: &str = "<p>No limit is near.</p>\n";

/// What it says of sessions that are near the most.
const NEAR: &str = "<tr class=\"near\"><td>sessions</td><td>3 of 4</td>";

/// Thirty changes of two milliseconds each, what the curves show of them after 15 and after 30 seconds.
static CURVES: [&[u8]; 2] = [
    b"<td>2 (most 2) <svg viewBox=\"0 0 180 30\" aria-hidden=\"true\"><path d=\"M0 0V30H180\"/><polyline points=\"180,0 \"/></svg></td>",
    b"<td>0 (most 2) <svg viewBox=\"0 0 180 30\" aria-hidden=\"true\"><path d=\"M0 0V30H180\"/><polyline points=\"177,0 180,30 \"/></svg></td><td>0 (most 2000) <svg",
];

/// Records thirty changes.
fn record_changes(meters: &Meters) {
    let job = Job::Cas(Entries::new());
    for _ in 0..30 {
        meters.record_request(0, &job, &Reply::Yes, 2_000_000);
    }
}

/// Tells whether this part is in the status page after so many seconds more.
fn shows(pages: &mut OnePages<'_>, clock: &HandClock, seconds: u64, part: &[u8]) -> bool {
    thread::sleep(clock, Duration::from_secs(seconds));
    is_in(part, &pages.page(&Route::Page).body)
}

/// Thirty changes in 15 seconds, and then none.
#[test]
fn curves_show_what_was_counted(rt: HostRuntime) {
    let clock = HandClock::new(rt.alloc(), false);
    let meters = Meters::new(&clock);
    let mut pages = pages_of(&clock, &meters, Ok(b"")).expect(&rt, MEMORY);
    record_changes(&meters);
    for (number, wanted) in CURVES.iter().enumerate() {
        let is_right = shows(&mut pages, &clock, 15, wanted);
        holds(&rt, "a curve", number, is_right);
    }
}

/// What happens to sessions: how many begin, how many end, how many seconds go by, and what the page says then.
static TURNS: [(u64, u64, u64, &str); 6] = [
    (2, 0, 0, FAR),
    (1, 0, 0, NEAR),
    (0, 3, 0, NEAR),
    (0, 0, 15, NEAR),
    (0, 0, 900, NEAR),
    (0, 0, 1, FAR),
];

/// Lets so many sessions begin, and so many end.
fn turn(server: &ServerCounters, begin: u64, end: u64) {
    for _ in 0..begin {
        server.record_served();
    }
    for _ in 0..end {
        server.record_closed(CloseReason::Quit);
    }
}

/// Two of four sessions serve, and then three. They end, which the page shows once they are longer ago than it tells.
#[test]
fn a_limit_is_near_from_three_quarters_on(rt: HostRuntime) {
    let clock = HandClock::new(rt.alloc(), false);
    let meters = Meters::new(&clock);
    let mut pages = pages_of(&clock, &meters, Ok(b"")).expect(&rt, MEMORY);
    for (begin, end, seconds, part) in &TURNS {
        turn(meters.server(), *begin, *end);
        let is_right = shows(&mut pages, &clock, *seconds, part.as_bytes());
        holds(&rt, part, 0, is_right);
    }
}
