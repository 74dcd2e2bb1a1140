//! Tests how lines are read, and how replies are written.
use crate::checks::holds;
use crate::words_tests::entries_of;
use mw_line::*;
use mw_words::{Job, MAX_LINE, Name, Reply};
use std::process::Abort;

/// What a line asks for.
#[derive(Clone, Copy)]
enum Asked {
    Tenant(&'static [u8]),
    Admin,
    Report,
    Quit,
    Get(u16),
    /// A change of words that have the value 0, with these addresses and new values.
    Cas(&'static [(u16, u64)]),
}

/// Makes a request. Gives None if it has too many entries or too long a name.
fn request_of(asked: Asked) -> Option<Request> {
    match asked {
        Asked::Tenant(name) => Some(Request::Tenant(Name::try_from(name).ok()?)),
        Asked::Admin => Some(Request::Admin),
        Asked::Report => Some(Request::Report),
        Asked::Quit => Some(Request::Quit),
        Asked::Get(addr) => Some(Request::Job(Job::Get(addr))),
        Asked::Cas(parts) => Some(Request::Job(Job::Cas(entries_of(parts)?))),
    }
}

/// A change of sixteen words.
const SIXTEEN: [(u16, u64); 16] = [
    (0, 1),
    (1, 1),
    (2, 1),
    (3, 1),
    (4, 1),
    (5, 1),
    (6, 1),
    (7, 1),
    (8, 1),
    (9, 1),
    (10, 1),
    (11, 1),
    (12, 1),
    (13, 1),
    (14, 1),
    (15, 1),
];

/// Lines, and what they ask for.
static READ: [(&str, Asked); 12] = [
    ("TENANT t", Asked::Tenant(b"t")),
    (
        "TENANT abc-0123456789-z",
        Asked::Tenant(b"abc-0123456789-z"),
    ),
    ("ADMIN", Asked::Admin),
    ("REPORT", Asked::Report),
    ("QUIT", Asked::Quit),
    ("GET 0", Asked::Get(0)),
    ("GET 10", Asked::Get(10)),
    ("GET 4095", Asked::Get(4095)),
    ("CAS 0:0:1", Asked::Cas(&[(0, 1)])),
    ("CAS 3:0:1 4:0:2", Asked::Cas(&[(3, 1), (4, 2)])),
    (
        "CAS 4095:0:281474976710655",
        Asked::Cas(&[(4095, 281474976710655)]),
    ),
    (
        "CAS 0:0:1 1:0:1 2:0:1 3:0:1 4:0:1 5:0:1 6:0:1 7:0:1 8:0:1 9:0:1 10:0:1 11:0:1 12:0:1 13:0:1 14:0:1 15:0:1",
        Asked::Cas(&SIXTEEN),
    ),
];

/// Tells whether a line asks for this.
fn is_read(line: &[u8], asked: Asked) -> bool {
    match (read_line(line), request_of(asked)) {
        (Ok(request), Some(wanted)) => request == wanted,
        _ => false,
    }
}

#[test]
fn lines_are_read(rt: HostRuntime) {
    for (line, asked) in &READ {
        holds(&rt, line, 0, is_read(line.as_bytes(), *asked));
    }
}

/// Lines that are no command.
const NO_COMMANDS: &str = "\
GET

GET\x20
GET 01
GET 00
GET  1
GET 1\x20
GET -1
GET +1
GET 0\r
get 1
CAS
CAS\x20
CAS 0:0:1\x20
CAS  0:0:1
CAS 0:0:1  1:0:1
CAS 0:0
CAS 0:0:1:2
TENANT 1st
TENANT\x20
TENANT abc-0123456789-yz
ADMIN\x20
CAS 0:0:1 0:0:1 0:0:1 0:0:1 0:0:1 0:0:1 0:0:1 0:0:1 0:0:1 0:0:1 0:0:1 0:0:1 0:0:1 0:0:1 0:0:1 0:0:1 0:0:01";

/// The numbers of faults, and lines that have them, one a line.
static FAULTS: [(u8, &str); 5] = [
    (2, NO_COMMANDS),
    (
        6,
        "\
GET 4096
GET 5000
GET 65536
GET 18446744073709551616
CAS 3:0:1 3:0:1 5000:0:1",
    ),
    (
        7,
        "\
CAS 3:0:1 3:1:2
CAS 4:0:1 3:1:2
CAS 0:0:1 0:0:1 0:0:1 0:0:1 0:0:1 0:0:1 0:0:1 0:0:1 0:0:1",
    ),
    (
        9,
        "\
CAS 0:0:281474976710656
CAS 0:18446744073709551616:0
CAS 5000:0:281474976710656",
    ),
    (
        8,
        "CAS 0:0:1 0:0:1 0:0:1 0:0:1 0:0:1 0:0:1 0:0:1 0:0:1 0:0:1 0:0:1 0:0:1 0:0:1 0:0:1 0:0:1 0:0:1 0:0:1 0:0:1",
    ),
];

/// Gives the number of a line's fault, 0 if it has none.
fn fault_of(line: &[u8]) -> u8 {
    match read_line(line) {
        Ok(_) => 0,
        Err(fault) => ErrCode::from(fault).number(),
    }
}

/// Each of these lines has the fault with this number.
fn have_fault<R: Abort>(rt: &R, number: u8, lines: &str) {
    for line in lines.split('\n') {
        holds(rt, line, 0, fault_of(line.as_bytes()) == number);
    }
}

/// Gives the faults of lines of the greatest length: letters, a long address, and the same with a letter at its end.
fn faults_at_the_end() -> [u8; 3] {
    let letters = fault_of(&[b'A'; MAX_LINE]);
    let mut line = [b'7'; MAX_LINE];
    line[..4].copy_from_slice(b"GET ");
    let address = fault_of(&line);
    line[MAX_LINE - 1] = b'x';
    [letters, address, fault_of(&line)]
}

#[test]
fn lines_are_refused(rt: HostRuntime) {
    for (number, lines) in &FAULTS {
        have_fault(&rt, *number, lines);
    }
    holds(
        &rt,
        "long lines",
        MAX_LINE,
        faults_at_the_end() == [2, 6, 2],
    );
}

/// What is said, and its text.
static SAYINGS: [(Say, &str); 13] = [
    (Say::Ok(1), "OK 1\n"),
    (Say::Ok(4096), "OK 4096\n"),
    (Say::OkAdmin, "OK ADMIN\n"),
    (Say::Store(Reply::Val(0)), "VAL 0\n"),
    (Say::Store(Reply::Yes), "YES\n"),
    (Say::Store(Reply::No(3, 7)), "NO 3 7\n"),
    (
        Say::Store(Reply::No(u16::MAX, u64::MAX)),
        "NO 65535 18446744073709551615\n",
    ),
    (Say::Store(Reply::Busy), "BUSY\n"),
    (Say::Store(Reply::Fault), "FAULT\n"),
    (Say::Store(Reply::Worn), "WORN\n"),
    (Say::Bye, "BYE\n"),
    (Say::Err(ErrCode::LineTooLong), "ERR 1\n"),
    (Say::Err(ErrCode::WrongSession), "ERR 10\n"),
];

#[test]
fn replies_are_written(rt: HostRuntime) {
    for (say, text) in &SAYINGS {
        holds(&rt, text, 0, say.text().as_slice() == text.as_bytes());
    }
}

/// Faults of lines, and their numbers.
static LINE_FAULTS: [(LineFault, u8); 5] = [
    (LineFault::NotACommand, 2),
    (LineFault::AddressRange, 6),
    (LineFault::AddressOrder, 7),
    (LineFault::TooManyEntries, 8),
    (LineFault::ValueRange, 9),
];

/// Gives the numbers of the faults that are no fault of a line alone.
fn other_numbers() -> [u8; 3] {
    [
        ErrCode::NotBound.number(),
        ErrCode::AlreadyBound.number(),
        ErrCode::NoSuchTenant.number(),
    ]
}

#[test]
fn faults_have_numbers(rt: HostRuntime) {
    for (fault, number) in &LINE_FAULTS {
        let found = ErrCode::from(*fault).number();
        holds(&rt, "a fault", usize::from(*number), found == *number);
    }
    holds(&rt, "other faults", 3, other_numbers() == [3, 4, 5]);
}
