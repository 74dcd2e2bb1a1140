//! Gives the marks of the example runs, which `ComeOut` states, one by one to the store alone, which hands
//! out the same replies.

use crate::checks::{MEMORY, holds};
use mw_line::{Request, read_line};
use mw_lone::Mark;
use mw_plain::Lone;
use mw_words::Reply;
use std::process::Abort;

/// A mark of a run. A job is a text, and beside the mark of a reply is the reply that the store must hand out.
#[derive(Clone, Copy)]
enum Row {
    Ask(u64, &'static str),
    Admit(u64),
    Look(u64),
    Miss(u64, u8),
    Seal(u64),
    SealFail(u64),
    GiveUp(u64),
    Retire(u64),
    Reply(u64, Reply),
    /// A start with this quota, in which the file opens and the change in doubt is found.
    RestartFound(u8),
    /// A start with this quota, in which the file opens. The change of this request was under way and is lost.
    RestartLost(u8, u64),
}

static LATE_FINISHER: [Row; 18] = [
    Row::Ask(0, "CAS 0:0:1 1:0:1"),
    Row::Admit(0),
    Row::Ask(1, "CAS 0:0:9"),
    Row::Admit(1),
    Row::Ask(2, "CAS 1:1:0"),
    Row::Admit(2),
    Row::Seal(0),
    Row::Seal(2),
    Row::Retire(2),
    Row::Reply(2, Reply::Yes),
    Row::Reply(0, Reply::Yes),
    Row::Retire(0),
    Row::Miss(1, 0),
    Row::Retire(1),
    Row::Reply(1, Reply::No(0, 1)),
    Row::Ask(3, "GET 1"),
    Row::Look(3),
    Row::Reply(3, Reply::Val(0)),
];

static STALE_REFUSAL: [Row; 10] = [
    Row::Ask(0, "CAS 0:5:6"),
    Row::Admit(0),
    Row::Miss(0, 0),
    Row::Ask(1, "CAS 0:0:5"),
    Row::Admit(1),
    Row::Seal(1),
    Row::Retire(1),
    Row::Reply(1, Reply::Yes),
    Row::Retire(0),
    Row::Reply(0, Reply::No(0, 0)),
];

static FAILED_SEAL: [Row; 11] = [
    Row::Ask(0, "CAS 0:0:1"),
    Row::Admit(0),
    Row::SealFail(0),
    Row::Reply(0, Reply::Fault),
    Row::Ask(1, "GET 0"),
    Row::GiveUp(1),
    Row::Reply(1, Reply::Fault),
    Row::RestartFound(1),
    Row::Ask(2, "GET 0"),
    Row::Look(2),
    Row::Reply(2, Reply::Val(1)),
];

static TORN_GATE: [Row; 9] = [
    Row::Ask(0, "CAS 0:0:1 1:0:2"),
    Row::Admit(0),
    Row::RestartLost(1, 0),
    Row::Ask(1, "GET 0"),
    Row::Look(1),
    Row::Reply(1, Reply::Val(0)),
    Row::Ask(2, "GET 1"),
    Row::Look(2),
    Row::Reply(2, Reply::Val(0)),
];

/// Gives the mark of a row, or `None` if its text is no job.
fn mark_of(row: Row) -> Option<Mark> {
    Some(match row {
        Row::Ask(request, text) => match read_line(text.as_bytes()) {
            Ok(Request::Job(job)) => Mark::Ask(request, job),
            _ => return None,
        },
        Row::Admit(request) => Mark::Admit(request),
        Row::Look(request) => Mark::Look(request),
        Row::Miss(request, entry) => Mark::Miss(request, entry),
        Row::Seal(request) => Mark::Seal(request),
        Row::SealFail(request) => Mark::SealFail(request),
        Row::GiveUp(request) => Mark::GiveUp(request),
        Row::Retire(request) => Mark::Retire(request),
        Row::Reply(request, _) => Mark::Reply(request),
        Row::RestartFound(quota) => Mark::Restart {
            interrupted: None,
            take: true,
            opened: true,
            quota,
        },
        Row::RestartLost(quota, request) => Mark::Restart {
            interrupted: Some(request),
            take: false,
            opened: true,
            quota,
        },
    })
}

/// Tells whether a store takes the mark of a row, and hands out the reply beside it, or none.
fn is_taken(lone: &mut Lone, row: Row) -> bool {
    let wanted = match row {
        Row::Reply(_, reply) => Some(reply),
        _ => None,
    };
    match mark_of(row) {
        Some(mark) => lone.mark(mark) == Ok(wanted),
        None => false,
    }
}

/// A new store with these words and this quota takes the marks of an example run, and hands out the replies beside them, or none.
fn plays<R: Abort + AllocGlobal>(rt: &R, name: &str, words: &[u64], quota: u8, rows: &[Row]) {
    let mut lone = Lone::new(rt.alloc(), words, quota, false).expect(rt, MEMORY);
    for (index, row) in rows.iter().enumerate() {
        holds(rt, name, index as u64, is_taken(&mut lone, *row));
    }
}

#[test]
fn marks_of_examples(rt: HostRuntime) {
    plays(&rt, "late finisher", &[0, 0], 3, &LATE_FINISHER);
    plays(&rt, "stale refusal", &[0], 2, &STALE_REFUSAL);
    plays(&rt, "failed seal", &[0], 1, &FAILED_SEAL);
    plays(&rt, "torn gate", &[0, 0], 1, &TORN_GATE);
}
