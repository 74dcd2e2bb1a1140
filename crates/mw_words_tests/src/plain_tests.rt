//! Tests the plain store of two tenants, which serves one job at a time: quotas, order, failing device calls,
//! starts.
ghost use Rattle.std.specs.Prelude.{◌≡◌, ◌<◌, ◌≤◌, IfOk, IsTrue};
ghost use Rattle.mw_words.specs.Change.{is_well_formed};
ghost use Rattle.mw_plain.specs.Lines.{FitsLine};
ghost use Rattle.mw_plain.specs.Parts.{tenants, words_at};

use crate::checks::{MEMORY, same};
use mw_config::TenantLine;
use mw_file::TenantFile;
use mw_memory_disk::MemDisk;
use mw_plain::*;
use mw_record::{header, size};
use mw_words::{Entries, Entry, Job, Name, Reply};
use std::alloc::{AllocError, Global};
use std::process::Abort;

/// Makes a line of a tenant with this name of one letter, two words and this quota.
fn line(name: u8, quota: u8) -> TenantLine
    ensures words { result.words ≡ 2 }
    ensures quota { result.quota ≡ quota }
{
    let mut line = TenantLine::default();
    let _ = line.name.try_push(name);
    line.words = 2;
    line.quota = quota;
    line
}

/// Makes a disk of these bytes.
fn disk_with<R: Abort + AllocGlobal>(rt: &R, bytes: Vec<u8>) -> MemDisk {
    MemDisk::new(rt.alloc(), bytes, Vec::new(rt.alloc())).expect(rt, MEMORY)
}

/// Makes a disk with a new file of two words, both 0, and one place.
fn new_disk<R: Abort + AllocGlobal>(rt: &R) -> MemDisk {
    let mut bytes = Vec::from_slice(rt.alloc(), &header(2, 1)).expect(rt, MEMORY);
    bytes.resize(size(2, 1) as usize, 0).expect(rt, MEMORY);
    disk_with(rt, bytes)
}

/// Gives the file on a disk, and its words, if it opens and fits the line.
fn file_of(
    alloc: Global,
    line: &TenantLine,
    disk: MemDisk,
) -> Option<(TenantFile<MemDisk>, Vec<u64>)>
    ensures { FitsLine line.now result }
{
    match TenantFile::open(alloc, disk) {
        Ok(opened) => {
            let (file, words) = opened;
            if words.len() == line.words as usize && u16::from(line.quota) <= file.places() {
                Some((file, words))
            } else {
                None
            }
        }
        Err(_) => None,
    }
}

/// Makes the store of two tenants over these disks: t with this quota, and u with a quota of one.
fn store_of(
    alloc: Global,
    quota: u8,
    first: MemDisk,
    second: MemDisk,
) -> Result<Plain<MemDisk>, AllocError>
    requires { quota ≤ 3 }
    ensures count { IfOk result (λ plain. tenants plain ≡ 2) }
    ensures first { IfOk result (λ plain. words_at plain 0 ≡ 2) }
    ensures second { IfOk result (λ plain. words_at plain 1 ≡ 2) }
{
    let lines = [line(b't', quota), line(b'u', 1)];
    let mut files = Vec::with_capacity(alloc, 2)?;
    files.push(file_of(alloc, &lines[0], first))?;
    files.push(file_of(alloc, &lines[1], second))?;
    Plain::new(alloc, &lines, files, u16::from(quota) + 1)
}

/// Makes the store of two tenants, t and u, over new disks, each with a quota of one.
fn new_store<R: Abort + AllocGlobal>(rt: &R) -> Plain<MemDisk>
    ensures count { tenants result ≡ 2 }
    ensures first { words_at result 0 ≡ 2 }
    ensures second { words_at result 1 ≡ 2 }
{
    store_of(rt.alloc(), 1, new_disk(rt), new_disk(rt)).expect(rt, MEMORY)
}

/// Makes the change of one word from 0 to 1.
fn change(addr: u16) -> Job
    requires { addr < 2 }
    ensures { IsTrue (is_well_formed 2 result) }
{
    let mut entries = Entries::new();
    entries.push(Entry {
        addr,
        expected: 0,
        new: 1,
    });
    Job::Cas(entries)
}

/// Gives the reply to a job, if the tenant is there and may ask for it.
fn ask(store: &mut Plain<MemDisk>, tenant: u8, job: &Job) -> Option<Reply> {
    if tenant as usize >= store.len() || !job.is_well_formed(store.words_of(tenant) as usize) {
        return None;
    }
    Some(store.ask(tenant, job))
}

/// Gives the words of t, and of u.
fn words(store: &mut Plain<MemDisk>) -> [Option<Reply>; 4] {
    [
        ask(store, 0, &Job::Get(0)),
        ask(store, 0, &Job::Get(1)),
        ask(store, 1, &Job::Get(0)),
        ask(store, 1, &Job::Get(1)),
    ]
}

fn val(value: u64) -> Option<Reply> {
    Some(Reply::Val(value))
}

/// Gives the reply of a start that is the end of its job, and gives up the ticket of any other.
fn reply_of(start: Start) -> Option<Reply> {
    match start {
        Start::Done(reply) => Some(reply),
        Start::Open(ticket) => {
            ticket.abandon();
            None
        }
    }
}

/// Gives the replies to two tenants' changes. Those of t wait for each other.
fn two_at_a_time(store: &mut Plain<MemDisk>) -> [Option<Reply>; 5]
    requires count { tenants store.old ≡ 2 }
    requires first { words_at store.old 0 ≡ 2 }
    requires second { words_at store.old 1 ≡ 2 }
{
    let one = match store.start(0, &change(0)) {
        Start::Open(ticket) => ticket,
        Start::Done(_) => return [None; 5],
    };
    let busy = reply_of(store.start(0, &change(1)));
    let other = match store.start(1, &change(0)) {
        Start::Open(ticket) => ticket,
        Start::Done(_) => {
            one.abandon();
            return [None; 5];
        }
    };
    let made = store.finish(one);
    let next = match store.start(0, &change(1)) {
        Start::Open(ticket) => ticket,
        Start::Done(_) => {
            other.abandon();
            return [None; 5];
        }
    };
    let next = store.finish(next);
    let other = store.finish(other);
    [busy, Some(made), Some(next), Some(other), None]
}

#[test]
fn tickets(rt: HostRuntime) {
    let mut store = new_store(&rt);
    let replies = two_at_a_time(&mut store);
    let found = (replies, words(&mut store));
    let yes = Some(Reply::Yes);
    let replies = [Some(Reply::Busy), yes, yes, yes, None];
    let words = [val(1), val(1), val(1), val(0)];
    same(&rt, "tickets", 0, &found, &(replies, words));
    let free = u64::from(store.figures().pool_free);
    same(&rt, "free slots", 0, &free, &2);
}

/// Gives what the store finds by a name: the tenant's number, and how many words it has.
fn found(store: &Plain<MemDisk>, name: &[u8]) -> Option<(u8, u16)> {
    store.find(&Name::try_from(name).unwrap_or_default())
}

#[test]
fn tenants_by_name(rt: HostRuntime) {
    let store = new_store(&rt);
    let told = [
        found(&store, b"t"),
        found(&store, b"u"),
        found(&store, b"tu"),
    ];
    same(&rt, "names", 0, &told, &[Some((0, 2)), Some((1, 2)), None]);
}

/// Gives the replies to two changes of the same word by t, and to a read by u.
fn replies_in_order<R: Abort + AllocGlobal>(rt: &R) -> Vec<Reply> {
    let mut store = new_store(rt);
    let tasks = [
        Task {
            tenant: 0,
            job: change(0),
        },
        Task {
            tenant: 0,
            job: change(0),
        },
        Task {
            tenant: 1,
            job: Job::Get(0),
        },
    ];
    store.run(rt.alloc(), &tasks).expect(rt, MEMORY)
}

#[test]
fn tasks_in_order(rt: HostRuntime) {
    let replies = replies_in_order(&rt);
    let wanted = [Reply::Yes, Reply::No(0, 1), Reply::Val(0)];
    same(&rt, "tasks", 0, &replies.as_slice(), &wanted.as_slice());
}

/// How many device calls the opening of a new file makes: its length, a read, and five that give it its
/// second layout.
const OPENING_CALLS: u64 = 7;

/// Gives what a crash leaves of the first of these disks, if there is one.
fn left_of_first<R: Abort + AllocGlobal>(rt: &R, disks: &[Option<MemDisk>]) -> Vec<u8> {
    match disks.first() {
        Some(Some(disk)) => disk.crash(&[]).expect(rt, MEMORY),
        _ => Vec::new(rt.alloc()),
    }
}

/// Gives the reply to t's change if its device fails so many calls after the opening, and what a crash then
/// leaves of its disk.
fn crash_in_trouble<R: Abort + AllocGlobal>(rt: &R, calls: u8) -> (Option<Reply>, Vec<u8>) {
    let mut failing = new_disk(rt);
    failing
        .fail_next(OPENING_CALLS + u64::from(calls) + 1)
        .expect(rt, MEMORY);
    let mut first = store_of(rt.alloc(), 1, failing, new_disk(rt)).expect(rt, MEMORY);
    let reply = ask(&mut first, 0, &change(1));
    let disks = first.into_disks();
    (reply, left_of_first(rt, &disks))
}

/// Gives the words of t, whose disk has these bytes, and of u, whose disk is new.
fn words_of_opened<R: Abort + AllocGlobal>(rt: &R, bytes: Vec<u8>) -> [Option<Reply>; 4] {
    let left = disk_with(rt, bytes);
    let mut second = store_of(rt.alloc(), 1, left, new_disk(rt)).expect(rt, MEMORY);
    words(&mut second)
}

/// Gives what is wanted if t's device fails so many calls after the opening: the reply to t's change, and
/// the words of t and of u after the next opening.
fn wanted_after(calls: u8) -> (Option<Reply>, [Option<Reply>; 4]) {
    match calls {
        0..=2 => (Some(Reply::Fault), [val(0), val(0), val(0), val(0)]),
        3 => (Some(Reply::Fault), [val(0), val(1), val(0), val(0)]),
        _ => (Some(Reply::Yes), [val(0), val(1), val(0), val(0)]),
    }
}

#[test]
fn each_device_call_fails(rt: HostRuntime) {
    for calls in 0..10 {
        let (reply, bytes) = crash_in_trouble(&rt, calls);
        let found = (reply, words_of_opened(&rt, bytes));
        let at = u64::from(calls);
        same(&rt, "a device call fails", at, &found, &wanted_after(calls));
    }
}

/// Gives what a crash leaves of t's disk after a change of its word 1, with a quota of one.
fn left_after_a_change<R: Abort + AllocGlobal>(rt: &R) -> Vec<u8> {
    let mut store = new_store(rt);
    let _ = ask(&mut store, 0, &change(1));
    let disks = store.into_disks();
    left_of_first(rt, &disks)
}

/// Gives the reply to a change of a word of t, if the change ends when it starts.
fn begun(store: &mut Plain<MemDisk>, job: &Job) -> Option<Reply> {
    if store.len() == 0 || !job.is_well_formed(store.words_of(0) as usize) {
        return None;
    }
    reply_of(store.start(0, job))
}

/// Gives the quota of the first tenant and the places of its file, as they are reported.
fn told_of_first(store: &Plain<MemDisk>) -> (u8, u8) {
    match store.figures().tenants.first() {
        Some(figures) => (figures.quota, figures.places),
        None => (0, 0),
    }
}

/// What is found if t is started again with this quota: its word 1, the replies to three changes of which
/// none is finished, and what is reported of its quota and places.
type Started = (Option<Reply>, [Option<Reply>; 3], (u8, u8));

fn started_with<R: Abort + AllocGlobal>(rt: &R, quota: u8) -> Started
    requires { quota ≤ 3 }
{
    let left = disk_with(rt, left_after_a_change(rt));
    let mut store = store_of(rt.alloc(), quota, left, new_disk(rt)).expect(rt, MEMORY);
    let word = ask(&mut store, 0, &Job::Get(1));
    let replies = [
        begun(&mut store, &change(0)),
        begun(&mut store, &change(0)),
        begun(&mut store, &change(0)),
    ];
    (word, replies, told_of_first(&store))
}

/// A file that was made with one place has two after it was opened. A start may give a quota of one or two,
/// and with three it is not served.
#[test]
fn a_start_tells_the_quota(rt: HostRuntime) {
    let busy = Some(Reply::Busy);
    let fault = Some(Reply::Fault);
    let one = (val(1), [None, busy, busy], (1, 2));
    same(&rt, "a quota", 1, &started_with(&rt, 1), &one);
    let two = (val(1), [None, None, busy], (2, 2));
    same(&rt, "a quota", 2, &started_with(&rt, 2), &two);
    let three = (fault, [fault; 3], (3, 0));
    same(&rt, "a quota", 3, &started_with(&rt, 3), &three);
}
