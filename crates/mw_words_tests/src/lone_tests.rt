//! Tests the store alone (the reference model): which marks it takes, and which reply it hands out at each.
//!
//! A line is a mark, and after ` > ` what the store answers, unless that is `Ok(None)`. It is a text, because a function
//! takes longer to prove with each row of a table:
//!
//! - `ask NUMBER get ADDRESS` and `ask NUMBER cas ADDRESS:EXPECTED:NEW ..` are requests that come.
//! - `restart QUOTA found` is a start that gives this quota and finds the change in doubt, `restart QUOTA lost` one that finds
//!   none. The number of the change that was being made durable may follow.
//! - `miss NUMBER ENTRY` and the others have the names of [`Mark`].
use crate::checks::{MEMORY, same};
use mw_lone::Mark;
use mw_plain::{Lone, LoneFault};
use mw_words::{Entries, Entry, Job};
use std::process::Abort;

/// Reads an entry of a change.
fn entry_of(text: &str) -> Entry {
    let (addr, values) = text.split_once(':').unwrap_or((text, ""));
    let (expected, new) = values.split_once(':').unwrap_or((values, ""));
    Entry {
        addr: addr.parse().unwrap_or(u16::MAX),
        expected: expected.parse().unwrap_or(u64::MAX),
        new: new.parse().unwrap_or(u64::MAX),
    }
}

/// Reads what a request asks for.
fn job_of(text: &str) -> Job {
    let (verb, rest) = text.split_once(' ').unwrap_or((text, ""));
    if verb == "get" {
        return Job::Get(rest.parse().unwrap_or(u16::MAX));
    }
    let mut entries = Entries::new();
    for entry in rest.split(' ') {
        let _ = entries.try_push(entry_of(entry));
    }
    Job::Cas(entries)
}

/// Reads a start: its quota, and what is behind that.
fn restart_of(quota: &str, rest: &str) -> Mark {
    let (found, interrupted) = rest.split_once(' ').unwrap_or((rest, ""));
    Mark::Restart {
        interrupted: interrupted.parse().ok(),
        take: found == "found",
        opened: true,
        quota: quota.parse().unwrap_or(u8::MAX),
    }
}

/// Reads a mark.
fn mark_of(text: &str) -> Mark {
    let (verb, rest) = text.split_once(' ').unwrap_or((text, ""));
    let (number, rest) = rest.split_once(' ').unwrap_or((rest, ""));
    let n = number.parse().unwrap_or(u64::MAX);
    match verb {
        "ask" => Mark::Ask(n, job_of(rest)),
        "admit" => Mark::Admit(n),
        "busy" => Mark::Busy(n),
        "look" => Mark::Look(n),
        "miss" => Mark::Miss(n, rest.parse().unwrap_or(u8::MAX)),
        "seal" => Mark::Seal(n),
        "seal-fail" => Mark::SealFail(n),
        "file-fail" => Mark::FileFail,
        "give-up" => Mark::GiveUp(n),
        "retire" => Mark::Retire(n),
        "reply" => Mark::Reply(n),
        _ => restart_of(number, rest),
    }
}

/// Hands these marks, one a line, to a store of the words 10 and 20, with a quota of 1, which answers so.
fn tells<R: Abort + AllocGlobal>(rt: &R, lines: &str) {
    let mut lone = Lone::new(rt.alloc(), &[10, 20], 1, false).expect(rt, MEMORY);
    for line in lines.split('\n') {
        let (mark, wanted) = line.split_once(" > ").unwrap_or((line, "Ok(None)"));
        let answer = lone.mark(mark_of(mark));
        let told = format!(in rt.alloc(); "{answer:?}").expect(rt, MEMORY);
        same(rt, line, 0, &told.as_str(), &wanted);
    }
}

/// Requests, of which one is refused by the quota and one by a word; a change whose seal fails, and what is asked then;
/// and starts that find the change in doubt, none, and one that was cut off.
const REPLIES: &str = "\
ask 0 get 1
ask 1 cas 0:10:11 1:20:21
ask 2 cas 0:10:12
look 0
reply 0 > Ok(Some(Val(20)))
admit 1
busy 2
reply 2 > Ok(Some(Busy))
seal 1
retire 1
reply 1 > Ok(Some(Yes))
ask 3 cas 0:11:0 1:20:0
admit 3
miss 3 1
reply 3 > Ok(Some(No(1, 21)))
retire 3
ask 4 cas 0:11:13
admit 4
seal-fail 4
reply 4 > Ok(Some(Fault))
ask 5 get 0
look 5
reply 5 > Ok(Some(Val(11)))
ask 6 cas 0:11:14
give-up 6
reply 6 > Ok(Some(Fault))
restart 1 found
ask 7 get 0
look 7
reply 7 > Ok(Some(Val(13)))
file-fail
ask 8 cas 0:13:15
give-up 8
reply 8 > Ok(Some(Fault))
restart 1 lost
ask 9 cas 1:21:22
admit 9
restart 1 found 9
ask 10 get 1
look 10
reply 10 > Ok(Some(Val(22)))";

#[test]
fn replies_as_the_marks_say(rt: HostRuntime) {
    tells(&rt, REPLIES);
}

/// Marks that are illegal after request 0 is admitted and no other one came. Then its seal is legal.
const REFUSED: &str = "\
ask 0 cas 0:10:11
admit 0
ask 0 get 0 > Err(Illegal)
ask 2 get 0 > Err(Illegal)
ask 1 get 2 > Err(Illegal)
ask 1 cas 0:10:281474976710656 > Err(Illegal)
admit 0 > Err(Illegal)
admit 1 > Err(Illegal)
busy 0 > Err(Illegal)
look 0 > Err(Illegal)
miss 0 0 > Err(Illegal)
miss 0 1 > Err(Illegal)
give-up 0 > Err(Illegal)
retire 0 > Err(Illegal)
reply 0 > Err(Illegal)
restart 1 found > Err(Illegal)
restart 1 lost 1 > Err(Illegal)
restart 0 lost > Err(Illegal)
restart 65 lost > Err(Illegal)
restart 255 lost > Err(Illegal)
seal 0";

#[test]
fn refuses_what_cannot_happen(rt: HostRuntime) {
    tells(&rt, REFUSED);
}

/// Starts that give the greatest quota, and then 2: two changes are admitted, and the one after them is refused by the
/// quota. Then a start that gives the quota of 1, by which a second change is refused.
const QUOTAS: &str = "\
restart 64 lost
restart 2 lost
ask 0 cas 0:10:11
admit 0
ask 1 cas 1:20:21
busy 1 > Err(Illegal)
admit 1
ask 2 cas 0:10:12
busy 2
reply 2 > Ok(Some(Busy))
restart 1 lost
ask 3 cas 0:10:13
admit 3
ask 4 cas 1:20:22
busy 4
reply 4 > Ok(Some(Busy))
admit 4 > Err(Illegal)";

#[test]
fn a_start_tells_the_quota(rt: HostRuntime) {
    tells(&rt, QUOTAS);
}
