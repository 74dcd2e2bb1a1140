//! Writes what a load found: how many replies of each kind came, and how long they took.
//!
//! Used by: `crowd`, `run`. docs/BENCH tells what is written: change both together.
use crate::crowd::Tally;
use crate::latencies::Latencies;
use crate::replies::Replies;
use std::io::{self, Write};

/// What is written of one kind of reply, after its name, with the figures that `Latencies` gives.
const KIND: &str =
    " #: mean # us, p50 # us, p90 # us, p95 # us, p99 # us, p99.9 # us, slowest # us\n";

/// What is written of all replies together.
const ALL: &str = "changes a second #\nreads a second #\nrefusals #\n\
    p50 # us\np90 # us\np99 # us\np99.9 # us\nslowest # us\n";

/// How the JSON object begins.
const RATES_MEMBERS: &str = "{\"changes_a_second\": #, \"reads_a_second\": #, \"refusals\": #";

/// The value of the object's member for one kind of reply.
const KIND_OBJECT: &str = "\": {\"count\": #, \"mean_us\": #, \"p50_us\": #, \"p90_us\": #, \
    \"p95_us\": #, \"p99_us\": #, \"p99_9_us\": #, \"slowest_us\": #}";

/// The names of the four kinds of reply in a line: `YES`, `NO`, `BUSY`, and the reply with words.
static NAMES: [&str; 4] = ["YES", "NO", "BUSY", "VAL"];

/// How their members of the object begin.
static MEMBERS: [&str; 4] = [", \"yes", ", \"no", ", \"busy", ", \"val"];

/// Writes a text with these figures in the places of its `#`, in their order.
///
/// # Errors
///
/// `out` failed, perhaps in the midst of the text.
pub fn write_filled<O: Write>(text: &str, figures: &[u64], out: &mut O) -> io::Result<()> {
    let mut rest = text;
    for figure in figures {
        let (before, after) = rest.split_once('#').unwrap_or((rest, ""));
        write!(out, "{before}{figure}")?;
        rest = after;
    }
    out.write_all(rest.as_bytes())
}

/// Writes a name, and after it this text with the figures of one kind of reply.
fn write_kind<O: Write>(
    name: &str,
    text: &str,
    latencies: &Latencies,
    out: &mut O,
) -> io::Result<()> {
    out.write_all(name.as_bytes())?;
    write_filled(text, &latencies.figures(), out)
}

/// Writes the names of the four kinds of reply, and after each this text with the figures of the kind.
fn write_kinds<O: Write>(
    names: &[&str; 4],
    text: &str,
    replies: &Replies,
    out: &mut O,
) -> io::Result<()> {
    write_kind(names[0], text, &replies.yes, out)?;
    write_kind(names[1], text, &replies.no, out)?;
    write_kind(names[2], text, &replies.busy, out)?;
    write_kind(names[3], text, &replies.reads, out)
}

/// Gives what was done in so many seconds: changes a second that were made, words a second that were read, and changes
/// in the whole time that were answered `NO` or `BUSY`. Each sum is at most `u64::MAX`.
fn rates_of(tally: &Tally, seconds: u64) -> [u64; 3] {
    let (mut made, mut read, mut refused): (u64, u64, u64) = (0, 0, 0);
    for one in &tally.done {
        made = made.saturating_add(one.counts.made);
        read = read.saturating_add(one.counts.read);
        refused = refused.saturating_add(one.counts.refused);
    }
    [made / seconds.max(1), read / seconds.max(1), refused]
}

/// Writes what was done in so many seconds, in lines: one for each kind of reply, then eight of all together.
///
/// # Errors
///
/// `out` failed, perhaps in the midst of a line.
pub fn report<O: Write>(tally: &Tally, seconds: u64, out: &mut O) -> io::Result<()> {
    let replies = &tally.replies;
    write_kinds(&NAMES, KIND, replies, out)?;
    let [changes, reads, refusals] = rates_of(tally, seconds);
    let [_, _, p50, p90, _, p99, p99_9, slowest] = replies.all.figures();
    let figures = [changes, reads, refusals, p50, p90, p99, p99_9, slowest];
    write_filled(ALL, &figures, out)
}

/// Writes the same as one JSON object (RFC 8259), in one line. Each number is whole; times are in microseconds.
///
/// # Errors
///
/// `out` failed, perhaps in the midst of the line.
pub fn report_json<O: Write>(tally: &Tally, seconds: u64, out: &mut O) -> io::Result<()> {
    write_filled(RATES_MEMBERS, &rates_of(tally, seconds), out)?;
    let replies = &tally.replies;
    write_kinds(&MEMBERS, KIND_OBJECT, replies, out)?;
    write_kind(", \"all", KIND_OBJECT, &replies.all, out)?;
    out.write_all(b"}\n")
}
