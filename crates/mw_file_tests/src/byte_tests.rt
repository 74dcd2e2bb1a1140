//! Tests every byte that the calls on a file, an opening and a migration write. It is laid out by hand, by the tables
//! of docs/FILES.md.
//!
//! All files here have 300 words, and their bytes are at these offsets:
//!
//! | offset | what begins there |
//! |---|---|
//! | 0 | the first layout: its head |
//! | 32 | its home words: that of address 258 at 2096, that of 299 at 2424 |
//! | 2432 | its only place, of 136 bytes |
//! | 2568, `08 0a` | the second layout: its head |
//! | 2600 | its home words: that of address 258 at 4664, that of 299 at 4992 |
//! | 5000 | its place 0, of 264 bytes |
//! | 5264 | its place 1 |
//! | 5528 | bytes that nobody looks at, up to 5568 |
use crate::calls::{Ahead, Step, Writes, tell};
use crate::files::{byte_at, disk_with, opened, opening, set_byte};
use crate::same::{MEMORY, same};
use mw_disk::Disk;
use mw_memory_disk::{MemDisk, stop_next};
use std::process::Abort;

/// Bytes of a file, with the offset at which they begin.
type Part = (usize, &'static [u8]);

/// A call on the device.
#[derive(Clone, Copy)]
enum Called {
    /// The length was asked for, or bytes were read.
    Asked,
    /// The write of this number among [`WRITES`] was made.
    Wrote(usize),
    Synced,
}

/// What nobody looks at in a file before it is written.
const JUNK: u8 = 0x77;

/// What a crash leaves in each byte that was written and not synced.
const TORN: u8 = 0xee;

/// Puts these bytes at an offset.
fn put(bytes: &mut Vec<u8>, at: usize, part: &[u8]) {
    let mut end = at;
    for byte in part {
        set_byte(bytes, end, *byte);
        end = end.saturating_add(1);
    }
}

/// Puts each part at its offset.
fn put_all(bytes: &mut Vec<u8>, parts: &[Part]) {
    for part in parts {
        put(bytes, part.0, part.1);
    }
}

/// Puts so many of one byte at an offset. Bytes that are short of their end become longer.
fn fill<R: Abort + AllocGlobal>(rt: &R, bytes: &mut Vec<u8>, at: usize, count: usize, byte: u8) {
    let end = at.saturating_add(count);
    if bytes.len() < end {
        bytes.resize(end, 0).expect(rt, MEMORY);
    }
    for index in at..end {
        set_byte(bytes, index, byte);
    }
}

/// The bytes that a file must have.
#[derive(Drop)]
struct Bytes {
    /// What a read gives.
    read: Vec<u8>,
    /// What a crash leaves that puts [`TORN`] into each byte that was written and not synced.
    torn: Vec<u8>,
}

/// Makes a call on these bytes.
fn make<R: Abort + AllocGlobal>(rt: &R, bytes: &mut Bytes, call: Called) {
    match call {
        Called::Asked => {}
        Called::Wrote(number) => {
            let (at, count, parts) = WRITES.get(number).expect(rt, "a write");
            fill(rt, &mut bytes.read, *at, *count, 0);
            put_all(&mut bytes.read, parts);
            fill(rt, &mut bytes.torn, *at, *count, TORN);
        }
        Called::Synced => bytes.torn = bytes.read.to_vec(rt.alloc()).expect(rt, MEMORY),
    }
}

/// Gives the first offset at which these bytes differ, or one has ended.
fn difference(found: &[u8], wanted: &[u8]) -> Option<usize> {
    let shared = found.len().min(wanted.len());
    for at in 0..shared {
        if byte_at(found, at) != byte_at(wanted, at) {
            return Some(at);
        }
    }
    if found.len() == wanted.len() {
        None
    } else {
        Some(shared)
    }
}

/// A file, what is done with it, and the calls that this makes on the device.
struct Row {
    name: &'static str,
    /// The number of the file among [`STARTS`].
    start: usize,
    /// The calls on the opened file. If there are none, the device calls are those of its opening.
    steps: &'static [Step],
    calls: &'static [Called],
}

/// A file of so many bytes.
struct Start {
    count: usize,
    /// Ranges of junk: offsets and lengths.
    junk: &'static [(usize, usize)],
    /// What it has elsewhere. What neither is has zeros.
    parts: &'static [Part],
    /// More parts, put over the others.
    over: &'static [Part],
}

/// Makes a file's bytes.
fn laid<R: Abort + AllocGlobal>(rt: &R, start: usize) -> Vec<u8> {
    let start = STARTS.get(start).expect(rt, "a file");
    let mut bytes = Vec::new(rt.alloc());
    fill(rt, &mut bytes, 0, start.count, 0);
    for range in start.junk {
        fill(rt, &mut bytes, range.0, range.1, JUNK);
    }
    put_all(&mut bytes, start.parts);
    put_all(&mut bytes, start.over);
    bytes
}

/// Gives the disk with the file of these bytes with which a row's calls are made, if it stops after so many device
/// calls.
fn played<R: Abort + AllocGlobal>(rt: &R, start: &[u8], steps: &[Step], calls: u64) -> MemDisk {
    let mut disk = disk_with(rt, start);
    if steps.is_empty() {
        disk.stop_next(calls);
        return opening(rt.alloc(), disk).1;
    }
    let mut file = opened(rt, disk);
    stop_next(&mut file, calls);
    for step in steps {
        let _ = tell(rt, &mut file, *step);
    }
    file.into_disk()
}

/// A disk has these bytes after so many calls.
fn has_bytes<R: Abort + AllocGlobal>(rt: &R, row: &str, calls: u64, disk: &MemDisk, bytes: &Bytes) {
    let read = disk.crash(&[]).expect(rt, MEMORY);
    same(rt, row, calls, &difference(&read, &bytes.read), &None);
    let torn = disk.crash(&[TORN; 6000]).expect(rt, MEMORY);
    same(rt, row, calls, &difference(&torn, &bytes.torn), &None);
}

/// What is done with a row's file makes the row's calls on the device and no others.
fn makes_calls<R: Abort + AllocGlobal>(rt: &R, row: &Row) {
    let start = laid(rt, row.start);
    let mut wanted = Bytes {
        read: start.to_vec(rt.alloc()).expect(rt, MEMORY),
        torn: start.to_vec(rt.alloc()).expect(rt, MEMORY),
    };
    let mut made: u64 = 0;
    for call in row.calls {
        let disk = played(rt, &start, row.steps, made);
        same(rt, row.name, made, &disk.faults(), &1);
        make(rt, &mut wanted, *call);
        made = made.saturating_add(1);
        let disk = played(rt, &start, row.steps, made);
        has_bytes(rt, row.name, made, &disk, &wanted);
    }
    let disk = played(rt, &start, row.steps, made);
    same(rt, row.name, made, &disk.faults(), &0);
}

/// Sixteen writes: the value 65 to address 1, and so on up to the value 80 to address 16.
const SIXTEEN: [(u16, u64); 16] = [
    (1, 65),
    (2, 66),
    (3, 67),
    (4, 68),
    (5, 69),
    (6, 70),
    (7, 71),
    (8, 72),
    (9, 73),
    (10, 74),
    (11, 75),
    (12, 76),
    (13, 77),
    (14, 78),
    (15, 79),
    (16, 80),
];

/// The change of words 0 and 258, that of words 1 and 299, and two of word 299.
const TWO_WORDS: Writes = &[(0, 0x0605_0403_0201), (258, 0x1615_1413_1211)];

const OTHER_WORDS: Writes = &[(1, 65), (299, 9)];

const LAST_WORD: Writes = &[(299, 9)];

const LAST_WORD_IS_7: Writes = &[(299, 7)];

/// The change of word 299, to be prepared in place 0 or 1.
const LAST_IN_0: Ahead = &[(0, LAST_WORD)];

const LAST_IN_1: Ahead = &[(1, LAST_WORD)];

/// Where a file with its second layout has junk: in the rest of the first layout, in the rest of the second
/// head, in both places, and behind them.
const SECOND_JUNK: [(usize, usize); 4] = [(8, 7), (24, 2544), (2582, 18), (5000, 568)];

/// What it has elsewhere. The commit bytes are junk, and so clear.
const SECOND: [Part; 5] = [
    (0, b"MWCASF1\n"),
    (15, b"\xa5"),
    (16, b"\x08\x0a\0\0\0\0\0\0"),
    (2568, b"MWCASF2\n\x2c\x01\0\0\x02\0"),
    (4992, b"\x07\0\0\0\0\0\0\0"),
];

/// The record of a change of sixteen words, without its commit byte. It leaves no byte of its place over.
const FULL: &[u8] = b"\x10\0\0\0\0\0\0\
\x01\0\0\0\0\0\0\0\x41\0\0\0\0\0\0\0\
\x02\0\0\0\0\0\0\0\x42\0\0\0\0\0\0\0\
\x03\0\0\0\0\0\0\0\x43\0\0\0\0\0\0\0\
\x04\0\0\0\0\0\0\0\x44\0\0\0\0\0\0\0\
\x05\0\0\0\0\0\0\0\x45\0\0\0\0\0\0\0\
\x06\0\0\0\0\0\0\0\x46\0\0\0\0\0\0\0\
\x07\0\0\0\0\0\0\0\x47\0\0\0\0\0\0\0\
\x08\0\0\0\0\0\0\0\x48\0\0\0\0\0\0\0\
\x09\0\0\0\0\0\0\0\x49\0\0\0\0\0\0\0\
\x0a\0\0\0\0\0\0\0\x4a\0\0\0\0\0\0\0\
\x0b\0\0\0\0\0\0\0\x4b\0\0\0\0\0\0\0\
\x0c\0\0\0\0\0\0\0\x4c\0\0\0\0\0\0\0\
\x0d\0\0\0\0\0\0\0\x4d\0\0\0\0\0\0\0\
\x0e\0\0\0\0\0\0\0\x4e\0\0\0\0\0\0\0\
\x0f\0\0\0\0\0\0\0\x4f\0\0\0\0\0\0\0\
\x10\0\0\0\0\0\0\0\x50\0\0\0\0\0\0\0";

/// Writes: from which offset on, and how many bytes. They have these parts, and zeros before, between and after them.
static WRITES: [(usize, usize, &[Part]); 17] = [
    (
        5001,
        263,
        &[
            (5001, b"\x02"),
            (5008, b"\0\0\0\0\0\0\0\0\x01\x02\x03\x04\x05\x06\0\0"),
            (5024, b"\x02\x01\0\0\0\0\0\0\x11\x12\x13\x14\x15\x16\0\0"),
        ],
    ),
    (
        5265,
        263,
        &[
            (5265, b"\x02"),
            (5272, b"\x01\0\0\0\0\0\0\0\x41\0\0\0\0\0\0\0"),
            (5288, b"\x2b\x01\0\0\0\0\0\0\x09\0\0\0\0\0\0\0"),
        ],
    ),
    (5265, 263, &[(5265, FULL)]),
    (
        5001,
        263,
        &[
            (5001, b"\x01"),
            (5008, b"\x2b\x01\0\0\0\0\0\0\x07\0\0\0\0\0\0\0"),
        ],
    ),
    (
        5001,
        263,
        &[
            (5001, b"\x01"),
            (5008, b"\x2b\x01\0\0\0\0\0\0\x09\0\0\0\0\0\0\0"),
        ],
    ),
    (
        5265,
        263,
        &[
            (5265, b"\x01"),
            (5272, b"\x2b\x01\0\0\0\0\0\0\x09\0\0\0\0\0\0\0"),
        ],
    ),
    (2600, 8, &[(2600, b"\x01\x02\x03\x04\x05\x06\0\0")]),
    (4664, 8, &[(4664, b"\x11\x12\x13\x14\x15\x16\0\0")]),
    (2608, 8, &[(2608, b"\x41\0\0\0\0\0\0\0")]),
    (4992, 8, &[(4992, b"\x09\0\0\0\0\0\0\0")]),
    (5000, 1, &[(5000, b"\xa5")]),
    (5000, 1, &[(5000, b"\0")]),
    (5264, 1, &[(5264, b"\xa5")]),
    (5264, 1, &[(5264, b"\0")]),
    (
        2568,
        2960,
        &[
            (2568, b"MWCASF2\n\x2c\x01\0\0\x02\0"),
            (2600, b"\x01\x02\x03\x04\x05\x06\0\0"),
            (4664, b"\x11\x12\x13\x14\x15\x16\0\0"),
            (4992, b"\x07\0\0\0\0\0\0\0"),
        ],
    ),
    (16, 8, &[(16, b"\x08\x0a\0\0\0\0\0\0")]),
    (15, 1, &[(15, b"\xa5")]),
];

/// The writes of records: of the change of words 0 and 258, in place 0; of that of words 1 and 299, in place 1; of that of
/// sixteen words, in place 1; and of the changes of word 299 to 7, in place 0, and to 9, in place 0 and in place 1.
const TWO_ENTRIES: Called = Called::Wrote(0);

const OTHER_ENTRIES: Called = Called::Wrote(1);

const SIXTEEN_ENTRIES: Called = Called::Wrote(2);

const LAST_IS_7: Called = Called::Wrote(3);

const LAST_0: Called = Called::Wrote(4);

const LAST_1: Called = Called::Wrote(5);

/// Those of home words: of the change of words 0 and 258, and of that of words 1 and 299.
const HOME_0: Called = Called::Wrote(6);

const HOME_258: Called = Called::Wrote(7);

const HOME_1: Called = Called::Wrote(8);

const HOME_299: Called = Called::Wrote(9);

/// The commit byte of place 0 is set, and cleared; and that of place 1.
const SET_0: Called = Called::Wrote(10);

const CLEAR_0: Called = Called::Wrote(11);

const SET_1: Called = Called::Wrote(12);

const CLEAR_1: Called = Called::Wrote(13);

/// Those of a migration: the second layout, its offset, and the switch byte.
const LAYOUT: Called = Called::Wrote(14);

const OFFSET: Called = Called::Wrote(15);

const SWITCH: Called = Called::Wrote(16);

/// A change is prepared by two calls, sealed by two and settled by five.
const CHANGE: [Called; 9] = [
    TWO_ENTRIES,
    Called::Synced,
    SET_0,
    Called::Synced,
    HOME_0,
    HOME_258,
    Called::Synced,
    CLEAR_0,
    Called::Synced,
];

/// A cancel makes no call. The next record is written over the one that was canceled.
const CANCEL: [Called; 6] = [
    TWO_ENTRIES,
    Called::Synced,
    SIXTEEN_ENTRIES,
    Called::Synced,
    LAST_IS_7,
    Called::Synced,
];

/// Both records share a sync; each seal has its own; the home words share one, and so do the commit bytes that are
/// cleared. All go in the order of the places.
const SHARE: [Called; 15] = [
    TWO_ENTRIES,
    OTHER_ENTRIES,
    Called::Synced,
    SET_1,
    Called::Synced,
    SET_0,
    Called::Synced,
    HOME_0,
    HOME_258,
    HOME_1,
    HOME_299,
    Called::Synced,
    CLEAR_0,
    CLEAR_1,
    Called::Synced,
];

/// The record of word 299 is written before the commit byte of the seal that prepares it, and before the home word of
/// the settle that prepares it.
const AHEAD: [Called; 17] = [
    TWO_ENTRIES,
    Called::Synced,
    LAST_1,
    SET_0,
    Called::Synced,
    HOME_0,
    HOME_258,
    Called::Synced,
    CLEAR_0,
    Called::Synced,
    SET_1,
    Called::Synced,
    LAST_0,
    HOME_299,
    Called::Synced,
    CLEAR_1,
    Called::Synced,
];

/// Two open records, with junk where a reader doesn't look, and a home word that a crash left half written.
const OPEN_RECORDS: [Part; 6] = [
    (2600, b"\xff\xff\xff\xff\xff\xff\xff\xff"),
    (5000, b"\xa5\x02"),
    (5008, b"\0\0\0\0\0\0\0\0\x01\x02\x03\x04\x05\x06\0\0"),
    (5024, b"\x02\x01\0\0\0\0\0\0\x11\x12\x13\x14\x15\x16\0\0"),
    (5264, b"\xa5\x01"),
    (5272, b"\x2b\x01\0\0\0\0\0\0\x09\0\0\0\0\0\0\0"),
];

/// An opening writes the home words of all open records, and then clears their commit bytes.
const OPENING: [Called; 9] = [
    Called::Asked,
    Called::Asked,
    HOME_0,
    HOME_258,
    HOME_299,
    Called::Synced,
    CLEAR_0,
    CLEAR_1,
    Called::Synced,
];

/// Where a file in its first layout has junk: in the rest of its head, its switch byte among it, in its
/// place, and behind it.
const FIRST_JUNK: [(usize, usize); 3] = [(14, 18), (2432, 136), (2568, 3000)];

/// The same in a file that ends there.
const SHORT_JUNK: [(usize, usize); 2] = [(14, 18), (2432, 136)];

/// What it has elsewhere: an open record of word 258, whose home word is half written.
const FIRST: [Part; 6] = [
    (0, b"MWCASF1\n\x2c\x01\0\0\x01\0"),
    (32, b"\x01\x02\x03\x04\x05\x06\0\0"),
    (2096, b"\xff\xff\xff\xff\xff\xff\xff\xff"),
    (2424, b"\x07\0\0\0\0\0\0\0"),
    (2432, b"\xa5\x01"),
    (2440, b"\x02\x01\0\0\0\0\0\0\x11\x12\x13\x14\x15\x16\0\0"),
];

/// A migration writes the second layout, its offset, and the switch byte.
const MIGRATION: [Called; 7] = [
    Called::Asked,
    Called::Asked,
    LAYOUT,
    OFFSET,
    Called::Synced,
    SWITCH,
    Called::Synced,
];

/// Files: in the second layout, and the same with open records; in the first layout, with bytes after it and without.
static STARTS: [Start; 4] = [
    Start {
        count: 5568,
        junk: &SECOND_JUNK,
        parts: &SECOND,
        over: &[],
    },
    Start {
        count: 5568,
        junk: &SECOND_JUNK,
        parts: &SECOND,
        over: &OPEN_RECORDS,
    },
    Start {
        count: 5568,
        junk: &FIRST_JUNK,
        parts: &FIRST,
        over: &[],
    },
    Start {
        count: 2568,
        junk: &SHORT_JUNK,
        parts: &FIRST,
        over: &[],
    },
];

const SECOND_START: usize = 0;

const OPEN_START: usize = 1;

const FIRST_START: usize = 2;

const SHORT_START: usize = 3;

/// Changes in the opened file, and openings.
static ROWS: [Row; 7] = [
    Row {
        name: "a change",
        start: SECOND_START,
        steps: &[Step::Prepare(TWO_WORDS), Step::Seal(0), Step::Settle(0)],
        calls: &CHANGE,
    },
    Row {
        name: "a cancel",
        start: SECOND_START,
        steps: &[
            Step::Prepare(TWO_WORDS),
            Step::Prepare(&SIXTEEN),
            Step::Cancel(0),
            Step::Prepare(LAST_WORD_IS_7),
        ],
        calls: &CANCEL,
    },
    Row {
        name: "changes that share syncs",
        start: SECOND_START,
        steps: &[
            Step::PrepareAll(&[(0, TWO_WORDS), (1, OTHER_WORDS)]),
            Step::Seal(1),
            Step::Seal(0),
            Step::SettleAll(&[]),
        ],
        calls: &SHARE,
    },
    Row {
        name: "changes that are prepared ahead",
        start: SECOND_START,
        steps: &[
            Step::Prepare(TWO_WORDS),
            Step::SealWith(0, LAST_IN_1),
            Step::SettleAll(&[]),
            Step::Seal(1),
            Step::SettleAll(LAST_IN_0),
        ],
        calls: &AHEAD,
    },
    Row {
        name: "an opening that finishes open records",
        start: OPEN_START,
        steps: &[],
        calls: &OPENING,
    },
    Row {
        name: "a migration over other bytes",
        start: FIRST_START,
        steps: &[],
        calls: &MIGRATION,
    },
    Row {
        name: "a migration at the file's end",
        start: SHORT_START,
        steps: &[],
        calls: &MIGRATION,
    },
];

#[test]
fn bytes_of_calls(rt: HostRuntime) {
    for row in &ROWS {
        makes_calls(&rt, row);
    }
}
