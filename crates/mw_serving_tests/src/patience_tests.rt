//! Tests how long a client asks again, by a clock that goes on only while somebody waits. Change
//! `LONGEST_PAUSE` with that of `pauses.rt` of mw_client.
use crate::checks::{MEMORY, holds};
use crate::client_tests::{BEGINS, TextClient, client, entries};
use crate::hand_clock::HandClock;
use mw_client::Failure;
use std::alloc::{AllocError, Global};
use std::process::Abort;
use std::time::Duration;

/// How many times the server says that it is busy, or has another value.
const TIMES: usize = 64;

/// By how much a client may pass its patience: its longest pause, in milliseconds.
const LONGEST_PAUSE: u64 = 100;

/// A name, and whether the client reads two words, or else changes one; what the server says first, and what it says again and
/// again then; how many lines the client sends before it pauses; its patience, in milliseconds, and whether nobody can read the
/// clock.
type Row = (
    (&'static str, bool),
    (&'static str, &'static str),
    usize,
    (u64, bool),
);

static ROWS: [Row; 7] = [
    (
        ("a change, and no patience", false),
        ("", "BUSY\n"),
        2,
        (0, false),
    ),
    (
        ("a change in a millisecond", false),
        ("", "BUSY\n"),
        2,
        (1, false),
    ),
    (
        ("a change in 50 milliseconds", false),
        ("", "BUSY\n"),
        2,
        (50, false),
    ),
    (
        ("a change in a second", false),
        ("", "BUSY\n"),
        2,
        (1000, false),
    ),
    (
        ("a read of words that are busy", true),
        ("VAL 5\nVAL 6\n", "BUSY\n"),
        4,
        (1000, false),
    ),
    (
        ("a read of words that change", true),
        ("VAL 5\nVAL 6\n", "NO 1 7\nNO 1 6\n"),
        4,
        (1000, false),
    ),
    (
        ("a change without a clock", false),
        ("", "BUSY\n"),
        2,
        (5000, true),
    ),
];

/// Gives how many lines this is.
fn lines(text: &[u8]) -> usize {
    let mut count: usize = 0;
    for byte in text {
        if *byte == b'\n' {
            count = count.saturating_add(1);
        }
    }
    count
}

/// Gives what the server says that greets, and then says this many times.
fn said_again(alloc: Global, greets: &str, again: &str) -> Result<String, AllocError> {
    let times = again.repeat(alloc, TIMES)?;
    format!(in alloc; "OK 2\n{greets}{times}")
}

/// Tells whether a client gives up a call just when its patience has ended, and tells that the server was busy; at once, if
/// nobody can read the clock. After each pause it has asked once more, and it can go on.
fn gives_up(clock: &HandClock, client: &mut TextClient<'_>, row: &Row) -> bool {
    let ((_, reads), _, first, (patience, _)) = row;
    let patience = Duration::from_millis(*patience);
    let busy = if *reads {
        matches!(client.read(clock, &[0, 1], patience), Err(Failure::Busy))
    } else {
        client.cas(clock, &entries(), patience) == Err(Failure::Busy)
    };
    let asked = lines(&client.writer) == clock.waits.get().saturating_add(*first);
    let waited = clock.has_waited(patience, Duration::from_millis(LONGEST_PAUSE));
    busy && asked && client.connected && waited
}

/// A client makes the call of this row.
fn makes<R: Abort + AllocGlobal>(rt: &R, row: &Row) {
    let ((name, _), (greets, again), _, (patience, is_broken)) = row;
    let clock = HandClock::new(rt.alloc(), *is_broken);
    let said = said_again(rt.alloc(), greets, again).expect(rt, MEMORY);
    let mut client = client(rt.alloc(), said.as_bytes()).expect(rt, BEGINS);
    let is_right = gives_up(&clock, &mut client, row);
    holds(rt, name, *patience as usize, is_right);
}

#[test]
fn patience_ends(rt: HostRuntime) {
    for row in &ROWS {
        makes(&rt, row);
    }
}
