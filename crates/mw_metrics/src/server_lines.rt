//! Writes the header of a family of metrics, and the families of the whole server.
//!
//! Used by: `exposition`, `tenant_lines`. Change it with `specs/Figures`. A new family needs more room: `MAX_SERVER`
//! here, and `MAX_METRICS` in `text`.
ghost use Rattle.std.specs.Prelude.{◌≡◌, ◌+◌, ◌*◌, ◌≤◌, [], ◌∷◌, ◌++◌, length};
ghost use Rattle.mw_metrics.specs.Figures as spec;

use crate::families::{Description, Family, SERVER_FIGURES, ServerFigure};
use crate::figures::{ClosedCounts, ServerMetrics};
use crate::kinds::{CLOSE_REASONS, CloseReason};
use crate::samples::{
    MAX_LABEL_VALUE, MAX_SAMPLE, one_label, put_number, put_plain_sample, seconds,
};
use crate::text::{MAX_METRICS, Text};
use itoa::Buffer;

/// The most bytes of a family's header.
pub(crate) const MAX_HEADER: usize = 228;

/// The most bytes of the families of the whole server: 12 headers and 18 samples.
pub(crate) const MAX_SERVER: usize = 6552;

/// Puts the two lines before a family's samples.
#[tactic(auto, unfolding(crate::specs::Figures::header))]
pub(crate) fn put_header(text: &mut Text, family: Family)
    requires room { length text.old.bytes.items + MAX_HEADER ≤ MAX_METRICS }
    ensures header { text.new.bytes.items ≡ text.old.bytes.items ++ spec.header family }
    ensures room { length text.new.bytes.items ≤ length text.old.bytes.items + MAX_HEADER }
{
    let Description {
        name,
        help,
        type_text,
    } = family.description();
    text.put(b"# HELP ");
    text.put(name);
    text.put(b" ");
    text.put(help);
    text.put(b"\n# TYPE ");
    text.put(name);
    text.put(b" ");
    text.put(type_text);
    text.put(b"\n");
}

/// Puts the families of the whole server.
#[tactic(auto, unfolding(crate::specs::Figures::of_server, crate::specs::Figures::build_family))]
pub(crate) fn put_server(text: &mut Text, version: &[u8], server: &ServerMetrics)
    requires version { length version.now ≤ MAX_LABEL_VALUE }
    requires room { length text.old.bytes.items + MAX_SERVER ≤ MAX_METRICS }
    ensures families { text.new.bytes.items ≡ text.old.bytes.items ++ spec.of_server version.now server.now }
    ensures room { length text.new.bytes.items ≤ length text.old.bytes.items + MAX_SERVER }
{
    put_header(text, Family::Build);
    put_number(text, Family::Build, &one_label(b"version", version), 1);
    put_uptime(text, server.uptime_nanos);
    put_lease(text, server.lease_nanos);
    put_figures(text, server);
    put_closed(text, &server.closed);
}

/// Puts the time since the start.
#[tactic(auto, unfolding(crate::specs::Figures::uptime_family))]
fn put_uptime(text: &mut Text, nanos: u64)
    requires room { length text.old.bytes.items + (MAX_HEADER + MAX_SAMPLE) ≤ MAX_METRICS }
    ensures family { text.new.bytes.items ≡ text.old.bytes.items ++ spec.uptime_family nanos }
    ensures room { length text.new.bytes.items ≤ length text.old.bytes.items + (MAX_HEADER + MAX_SAMPLE) }
{
    put_header(text, Family::Uptime);
    let uptime = seconds(nanos);
    put_plain_sample(text, Family::Uptime.description().name, &uptime);
}

/// Puts the age of the lease, if there is one.
#[tactic(auto, unfolding(crate::specs::Figures::lease_family))]
fn put_lease(text: &mut Text, nanos: Option<u64>)
    requires room { length text.old.bytes.items + (MAX_HEADER + MAX_SAMPLE) ≤ MAX_METRICS }
    ensures family { text.new.bytes.items ≡ text.old.bytes.items ++ spec.lease_family nanos }
    ensures room { length text.new.bytes.items ≤ length text.old.bytes.items + (MAX_HEADER + MAX_SAMPLE) }
{
    if let Some(nanos) = nanos {
        put_header(text, Family::Lease);
        let age = seconds(nanos);
        put_plain_sample(text, Family::Lease.description().name, &age);
    }
}

/// Puts each figure of the server that has no label.
#[tactic(auto, unfolding(crate::specs::Figures::figure_families))]
fn put_figures(text: &mut Text, server: &ServerMetrics)
    requires room { length text.old.bytes.items + 8 * (MAX_HEADER + MAX_SAMPLE) ≤ MAX_METRICS }
    ensures families { text.new.bytes.items ≡ text.old.bytes.items ++ spec.figure_families server.now }
    ensures room { length text.new.bytes.items ≤ length text.old.bytes.items + 8 * (MAX_HEADER + MAX_SAMPLE) }
{
    for figure in SERVER_FIGURES {
        put_figure(text, server, figure);
    }
}

/// Puts one figure of the server that has no label.
#[tactic(auto, using(crate::proofs::Widths::widths))]
fn put_figure(text: &mut Text, server: &ServerMetrics, figure: ServerFigure)
    requires room { length text.old.bytes.items + (MAX_HEADER + MAX_SAMPLE) ≤ MAX_METRICS }
    ensures family { text.new.bytes.items ≡ text.old.bytes.items ++ spec.figure_family server.now figure }
    ensures room { length text.new.bytes.items ≤ length text.old.bytes.items + (MAX_HEADER + MAX_SAMPLE) }
{
    let family = Family::Server(figure);
    put_header(text, family);
    let mut buffer = Buffer::new();
    let number = buffer.format(figure_of(server, figure)).as_bytes();
    put_plain_sample(text, family.description().name, number);
}

fn figure_of(server: &ServerMetrics, figure: ServerFigure) -> u64
    ensures { result ≡ spec.figure_of server.now figure }
{
    match figure {
        ServerFigure::PoolFree => server.pool_free,
        ServerFigure::Served => server.served,
        ServerFigure::Waiting => server.waiting,
        ServerFigure::Accepted => server.accepted,
        ServerFigure::PassesInUse => server.passes_in_use,
        ServerFigure::PassWaits => server.pass_waits,
        ServerFigure::Received => server.received,
        ServerFigure::Sent => server.sent,
    }
}

/// Puts how many connections were closed, for each reason.
#[tactic(auto, unfolding(crate::specs::Figures::closed_family))]
fn put_closed(text: &mut Text, closed: &ClosedCounts)
    requires room { length text.old.bytes.items + (MAX_HEADER + 7 * MAX_SAMPLE) ≤ MAX_METRICS }
    ensures family { text.new.bytes.items ≡ text.old.bytes.items ++ spec.closed_family closed.now }
    ensures room { length text.new.bytes.items ≤ length text.old.bytes.items + (MAX_HEADER + 7 * MAX_SAMPLE) }
{
    put_header(text, Family::Closed);
    for reason in CLOSE_REASONS {
        put_closed_line(text, closed, reason);
    }
}

fn put_closed_line(text: &mut Text, closed: &ClosedCounts, reason: CloseReason)
    requires room { length text.old.bytes.items + MAX_SAMPLE ≤ MAX_METRICS }
    ensures line { text.new.bytes.items ≡ text.old.bytes.items ++ spec.closed_line closed.now reason }
    ensures room { length text.new.bytes.items ≤ length text.old.bytes.items + MAX_SAMPLE }
{
    let labels = one_label(b"reason", reason.text());
    put_number(text, Family::Closed, &labels, closed_for(closed, reason));
}

fn closed_for(closed: &ClosedCounts, reason: CloseReason) -> u64
    ensures { result ≡ spec.closed_for closed.now reason }
{
    match reason {
        CloseReason::Quit => closed.quit,
        CloseReason::PeerEnd => closed.peer_end,
        CloseReason::TooLong => closed.too_long,
        CloseReason::ReadFault => closed.read_fault,
        CloseReason::WriteFault => closed.write_fault,
        CloseReason::Memory => closed.memory,
        CloseReason::Unserved => closed.unserved,
    }
}
