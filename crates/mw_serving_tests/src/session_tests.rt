//! Tests sessions: what a client says and is told, also cut into pieces, with long lines, and with a peer that
//! fails.
use crate::checks::{MEMORY, holds};
use crate::guests::{ALL, Guest, Heard, Script};
use crate::notebook::Notebook;
use mw_connections::Connection;
use mw_session::{Ended, NoOthers, Service};
use mw_test_peers::{Clerk, Failure, INPUT, OUTPUT, Shelf, replied};
use std::alloc::{AllocError, Global};
use std::sync::{Mutex, Wait};

/// Runs a session of this service with a client of this script. Gives how often the client was written to, if it was
/// told what it must be and the session ended so.
fn run<S: Service, R: Wait + AllocGlobal>(
    rt: &R,
    service: &mut S,
    script: &Script<'_>,
) -> Option<usize> {
    let heard = Mutex::new(Heard::new());
    serve_guest(rt, service, script, script.says, script.told, &heard);
    let heard = *heard.lock(rt);
    heard.is(script.told, script.ends).then_some(heard.calls)
}

/// Runs a session with a client that says this and takes that, else as this script has it. What happens is heard there.
fn serve_guest<'a, S: Service, R: Wait + AllocGlobal>(
    rt: &R,
    service: &mut S,
    script: &Script<'_>,
    says: &'a [u8],
    told: &'a [u8],
    heard: &'a Mutex<Heard>,
) {
    let own = Script {
        says,
        told,
        piece: script.piece,
        then: script.then,
        bite: script.bite,
        full: script.full,
        ends: script.ends,
    };
    let mut guest = Guest::new(&own, heard);
    guest.serve(rt, rt.alloc(), service, &NoOthers);
}

/// Tells whether a session with this client, over these words, goes as its script says.
fn goes<R: Wait + AllocGlobal>(rt: &R, shelf: &Mutex<Shelf>, script: &Script<'_>) -> bool {
    run(rt, &mut Clerk { rt, shelf }, script).is_some()
}

/// Gives how a session ends that is told this, if its peer doesn't fail.
fn end_of(told: &[u8]) -> Ended {
    if told.ends_with(b"BYE\n") {
        Ended::Quit
    } else if told.ends_with(b"ERR 1\n") {
        Ended::TooLong
    } else {
        Ended::PeerEnd
    }
}

/// Tells whether a peer that says this to a tenant of so many words, so many bytes at a time, is told just that.
fn is_told<R: Wait + AllocGlobal>(
    rt: &R,
    words: u16,
    says: &[u8],
    piece: usize,
    told: &[u8],
) -> bool {
    let script = Script {
        piece,
        ..Script::new(says, told, end_of(told))
    };
    goes(rt, &Mutex::new(Shelf::new(words)), &script)
}

/// How many words the tenant has, what the peer says, and what it is told.
static SESSIONS: [(u16, &str, &str); 11] = [
    (2, "", ""),
    (2, "\n", "ERR 2\n"),
    (2, "TENANT t", ""),
    (
        2,
        "TENANT t\nCAS 0:0:281474976710655\nGET 0\nCAS 0:281474976710655:281474976710656\n",
        "OK 2\nYES\nVAL 281474976710655\nERR 9\n",
    ),
    (
        2,
        "GET 0\nGET 5000\nTENANT x\nTENANT t\nTENANT x\nREPORT\nGET 2\nGET 01\nGET 0\r\nQUIT\nGET 0\n",
        "ERR 3\nERR 6\nERR 5\nOK 2\nERR 4\nERR 10\nERR 6\nERR 2\nERR 2\nBYE\n",
    ),
    (
        2,
        "TENANT t\nCAS\nCAS 0:0:1 \nCAS 0:0:1 0:0:1 0:0:1 0:0:1 0:0:1 0:0:1 0:0:1 0:0:1 0:0:1 0:0:1\n",
        "OK 2\nERR 2\nERR 2\nERR 7\n",
    ),
    (
        2,
        "TENANT t\nCAS 0:0:1 0:0:1 0:0:1 0:0:1 0:0:1 0:0:1 0:0:1 0:0:1 0:0:1 0:0:1 0:0:1 0:0:1 0:0:1 0:0:1 0:0:1 0:0:1 0:0:1\n",
        "OK 2\nERR 8\n",
    ),
    (
        2,
        "ADMIN\nGET 0\nREPORT\nADMIN\n",
        "OK ADMIN\nERR 10\nt                   2  1  2  0 up\nfree 256\nERR 4\n",
    ),
    (
        2,
        "TENANT t\nCAS 0:0:1 1:0:2\nCAS 1:0:3 2:0:1\nGET 1\n",
        "OK 2\nYES\nERR 6\nVAL 2\n",
    ),
    (2, "REPORT\nQUIT", "ERR 3\n"),
    (
        4,
        "TENANT t\nCAS 3:0:1 3:1:2\nCAS 3:0:1 2:0:1\nCAS 0:9:1 1:9:1\n",
        "OK 4\nERR 7\nERR 7\nNO 0 0\n",
    ),
];

#[test]
fn sessions_however_cut(rt: HostRuntime) {
    for (words, says, told) in &SESSIONS {
        let (text, told) = (says.as_bytes(), told.as_bytes());
        let right = is_told(&rt, *words, text, ALL, told) && is_told(&rt, *words, text, 1, told);
        holds(&rt, says, 0, right);
    }
}

/// A text: a front, what comes so many times after it, and what is behind that.
type Text = (&'static str, (&'static str, usize), &'static str);

/// How many lines a long session has. Their replies have over 100,000 bytes.
const MANY: usize = 20_000;

/// How many bytes each of its lines has.
const LINE: usize = 6;

/// A peer that says a long line or many lines, so many bytes at a time, and what it is told.
static LONG_TEXTS: [(&str, Text, [usize; 2], Text); 5] = [
    (
        "the longest line",
        ("", ("A", 640), "\nQUIT\n"),
        [ALL, 1],
        ("ERR 2\nBYE\n", ("", 0), ""),
    ),
    (
        "a line that is too long",
        ("", ("A", 641), "\n"),
        [ALL, 1],
        ("ERR 1\n", ("", 0), ""),
    ),
    (
        "a line that is far too long",
        ("TENANT t\n", ("A", 700), ""),
        [ALL, 1],
        ("OK 2\nERR 1\n", ("", 0), ""),
    ),
    (
        "a line after one that is far too long",
        ("TENANT t\n", ("A", 700), "\nGET 0\n"),
        [ALL, 1],
        ("OK 2\nERR 1\n", ("", 0), ""),
    ),
    (
        "many lines, one at a time",
        ("", ("GET 0\n", MANY), ""),
        [LINE, LINE],
        ("", ("ERR 3\n", MANY), ""),
    ),
];

/// Makes a text.
fn text_of(alloc: Global, text: &Text) -> Result<String, AllocError> {
    let (front, (repeated, times), behind) = text;
    let many = repeated.repeat(alloc, *times)?;
    format!(in alloc; "{front}{}{behind}", many.as_str())
}

#[test]
fn long_texts(rt: HostRuntime) {
    for (name, says, pieces, told) in &LONG_TEXTS {
        let says = text_of(rt.alloc(), says).expect(&rt, MEMORY);
        let told = text_of(rt.alloc(), told).expect(&rt, MEMORY);
        let [first, second] = *pieces;
        let (says, told) = (says.as_bytes(), told.as_bytes());
        let right = is_told(&rt, 2, says, first, told) && is_told(&rt, 2, says, second, told);
        holds(&rt, name, says.len(), right);
    }
}

/// What a peer says, what it is told, how many bytes it takes at a time of that, and how its session ends. A peer that is
/// told less than all goes away then.
type Held = (&'static [u8], &'static [u8], usize, Ended);

/// Sessions over the same words, one after the other.
static SHARED: [[Held; 2]; 2] = [
    [
        (
            b"TENANT t\nCAS 0:0:1 1:0:2\n",
            b"OK 2\nYES\n",
            ALL,
            Ended::PeerEnd,
        ),
        (b"TENANT t\nGET 1\n", b"OK 2\nVAL 2\n", ALL, Ended::PeerEnd),
    ],
    [
        (INPUT, b"OK 2\n", 1, Ended::WriteFault(5)),
        (b"TENANT t\nGET 0\n", b"OK 2\nVAL 1\n", ALL, Ended::PeerEnd),
    ],
];

/// Tells whether a session over these words goes as it says.
fn is_held<R: Wait + AllocGlobal>(rt: &R, shelf: &Mutex<Shelf>, session: Held) -> bool {
    let (says, told, bite, ends) = session;
    let script = Script {
        bite,
        ..Script::new(says, told, ends)
    };
    goes(rt, shelf, &script)
}

#[test]
fn sessions_see_the_changes_of_earlier_ones(rt: HostRuntime) {
    for (row, [first, second]) in SHARED.iter().enumerate() {
        let shelf = Mutex::new(Shelf::new(2));
        let are_held = is_held(&rt, &shelf, *first) && is_held(&rt, &shelf, *second);
        holds(&rt, "a row", row, are_held);
    }
}

/// Tells whether a session breaks off if its peer takes so many bytes, one at a time, and then fails so. It must tell
/// the peer no more, ask it no more, and end by that failure. The change is made when the reply before it was taken.
fn breaks_off<R: Wait + AllocGlobal>(rt: &R, taken: u8, failure: Failure) -> bool {
    let shelf = Mutex::new(Shelf::new(2));
    let script = Script {
        bite: 1,
        full: failure,
        ..Script::new(
            INPUT,
            OUTPUT.get(..usize::from(taken)).unwrap_or(OUTPUT),
            Ended::WriteFault(u64::from(taken)),
        )
    };
    let calls = run(rt, &mut Clerk { rt, shelf: &shelf }, &script);
    calls == Some(usize::from(taken) + 1) && shelf.lock(rt).word(0) == u64::from(taken >= 5)
}

#[test]
fn writer_sweep(rt: HostRuntime) {
    for taken in 0..13 {
        let by_error = breaks_off(&rt, taken, Failure::Error);
        let by_nothing = breaks_off(&rt, taken, Failure::Nothing);
        let broke_off = by_error && by_nothing;
        holds(&rt, "bytes taken", usize::from(taken), broke_off);
    }
}

/// Tells whether a peer that says so many bytes of the whole, one at a time, and then does this, is told
/// the replies to the lines among them.
fn part_is_told<R: Wait + AllocGlobal>(rt: &R, count: usize, failure: Failure) -> bool {
    let (says, told) = (INPUT.get(..count), OUTPUT.get(..replied(count)));
    let (Some(says), Some(told)) = (says, told) else {
        return false;
    };
    let ends = match failure {
        Failure::Error => Ended::ReadFault,
        Failure::Nothing => Ended::PeerEnd,
    };
    let script = Script {
        piece: 1,
        then: failure,
        ..Script::new(says, told, ends)
    };
    goes(rt, &Mutex::new(Shelf::new(2)), &script)
}

#[test]
fn reader_sweep(rt: HostRuntime) {
    for count in 0..24 {
        let by_error = part_is_told(&rt, count, Failure::Error);
        let by_nothing = part_is_told(&rt, count, Failure::Nothing);
        holds(&rt, "bytes said", count, by_error && by_nothing);
    }
}

#[test]
fn jobs_that_are_asked_for(rt: HostRuntime) {
    let mut notebook = Notebook::new(rt.alloc());
    let script = Script::new(
        b"GET 0\nTENANT t\nGET 1\nGET 2\nGET 0\nQUIT\nGET 0\n",
        b"ERR 3\nOK 2\nBUSY\nERR 6\nBUSY\nBYE\n",
        Ended::Quit,
    );
    let was_told = run(&rt, &mut notebook, &script).is_some();
    let was_asked = notebook.was_asked_for(&[1, 0]);
    holds(&rt, "jobs", 2, was_told && was_asked);
}
