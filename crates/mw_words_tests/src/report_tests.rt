//! Tests the text of reports.
ghost use Rattle.mw_report.specs.Table.{IsWithinLimits};

use crate::checks::holds;
use mw_report::*;
use mw_words::{MAX_PLACES, MAX_POOL, MAX_QUOTA, MAX_WORDS, Name};

/// A tenant's figures: its name, words, quota, places and slots in use, and whether its file takes changes.
type Tenant = (&'static str, u16, u8, u8, u8, bool);

/// Makes figures. None is above the limit of a report.
fn figures(tenant: &Tenant) -> TenantFigures
    ensures { IsWithinLimits result }
{
    let (name, words, quota, places, used, up) = *tenant;
    TenantFigures {
        name: Name::try_from(name.as_bytes()).unwrap_or_default(),
        words: words.min(MAX_WORDS),
        quota: quota.min(MAX_QUOTA),
        places: places.min(MAX_PLACES as u8),
        used: used.min(MAX_QUOTA),
        up,
    }
}

/// Tenants, one or two, how many slots are free, and the report of these.
static ROWS: [(&[Tenant], u16, &str); 4] = [
    (
        &[("t", 2, 1, 2, 0, true)],
        256,
        "t                   2  1  2  0 up\nfree 256\n",
    ),
    (
        &[("abcdefghijklmno-", 4096, 64, 64, 63, false)],
        0,
        "abcdefghijklmno- 4096 64 64 63 down\nfree 0\n",
    ),
    (
        &[("t", 2, 1, 0, 0, false)],
        255,
        "t                   2  1  0  0 down\nfree 255\n",
    ),
    (
        &[("t", 2, 1, 2, 0, true), ("u", 4096, 32, 64, 0, true)],
        33,
        "t                   2  1  2  0 up\nu                4096 32 64  0 up\nfree 33\n",
    ),
];

/// Tells whether this is the report of these tenants.
#[tactic(auto, using(crate::proofs::Within::within))]
fn is_told(tenants: &[Tenant], free: u16, wanted: &str) -> bool {
    let free = free.min(MAX_POOL);
    let text = match tenants {
        [only] => report_text(&[figures(only)], free),
        [first, second] => report_text(&[figures(first), figures(second)], free),
        _ => return false,
    };
    text.as_slice() == wanted.as_bytes()
}

#[test]
fn reports(rt: HostRuntime) {
    for (tenants, free, wanted) in &ROWS {
        holds(&rt, wanted, tenants.len(), is_told(tenants, *free, wanted));
    }
}
