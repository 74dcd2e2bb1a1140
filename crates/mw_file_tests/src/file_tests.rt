//! Tests the calls on a tenant's file: a crash in each, a copy of its disk, and memory that is refused.
//!
//! Used by: `opening_tests`, `power_tests`.
use crate::calls::{Step, Told, tell};
use crate::files::{
    OFTEN, TORN, Trouble, WRITTEN, bring_trouble, disk_with, faults, leaves, left, new_bytes,
    new_file, opened, opens_with, over_and_over,
};
use crate::same::{MEMORY, hold, holds, same};
use crate::turn_tests::WAITING;
use mw_disk::{Disk, DiskFault};
use mw_file::{FileFault, Place, TenantFile};
use mw_memory_disk::{MemDisk, copy, crash, refused};
use std::process::Abort;

/// Makes a file of two words whose disk has trouble so many calls after its opening.
pub(crate) fn troubled_file<R: Abort + AllocGlobal>(
    rt: &R,
    calls: u8,
    trouble: Trouble,
) -> TenantFile<MemDisk> {
    let mut file = new_file(rt, 2, 1);
    bring_trouble(rt, &mut file, calls, trouble);
    file
}

/// What a file answers to prepare, seal and settle of a change in its first place. Each is asked if it may
/// be.
pub(crate) type Answers = [Told; 3];

/// The change of both words of a file, from 0 to 1 and 2.
const BOTH: Step = Step::Prepare(&[(0, 1), (1, 2)]);

/// Gives a file's answers.
pub(crate) fn answers<R: Abort + AllocGlobal>(rt: &R, file: &mut TenantFile<MemDisk>) -> Answers {
    let prepared = tell(rt, file, BOTH);
    let sealed = tell(rt, file, Step::Seal(0));
    [prepared, sealed, tell(rt, file, Step::Settle(0))]
}

/// A prepare that is done in the first place, and a seal or settle that is done.
const FIRST: Told = Some(Ok(Some(Place(0))));

const DONE: Told = Some(Ok(None));

/// A call in which the device fails, and one of a file that has failed.
const DISK: Told = Some(Err(FileFault::Disk));

const FAILED: Told = Some(Err(FileFault::Failed));

/// Gives the answers of a file whose device has trouble after so many calls, and the answers after those.
pub(crate) fn answers_to(calls: u8) -> (Answers, Answers) {
    match calls {
        0..=1 => ([DISK, None, None], [FAILED, None, None]),
        2..=3 => ([FIRST, DISK, None], [FAILED, FAILED, None]),
        4..=8 => ([FIRST, DONE, DISK], [FAILED, None, FAILED]),
        _ => ([FIRST, DONE, DONE], [DISK, None, None]),
    }
}

/// Gives the words that a crash with these torn bytes leaves, if the device had trouble after so many
/// calls. They are new if it leaves the commit byte set.
fn words_after(calls: u8, trouble: Trouble, torn: &[u8]) -> [u64; 2] {
    let is_sealed = match (calls, trouble) {
        (0..=1, _) | (2, Trouble::Stop | Trouble::StopTwice) => false,
        (2, Trouble::Once) => torn.first() == Some(&0xa5),
        (3, _) => torn.is_empty() || torn.first() == Some(&0xa5),
        _ => true,
    };
    if is_sealed { [1, 2] } else { [0, 0] }
}

/// Crashes of this file leave the right words with each of these torn bytes, so often.
fn leaves_words<R: Abort + AllocGlobal>(
    rt: &R,
    file: &TenantFile<MemDisk>,
    calls: u8,
    trouble: Trouble,
    torn: (&[&[u8]], u16),
) {
    let (rows, times) = torn;
    for torn in rows {
        let words = words_after(calls, trouble, torn);
        let bytes = over_and_over(rt, torn, times);
        let image = crash(file, &bytes).expect(rt, MEMORY);
        let is_right = opens_with(rt, &image, &[&words]);
        holds(rt, "torn bytes", u64::from(calls), is_right);
    }
}

/// Torn bytes that are shorter than most writes.
static SHORT: [&[u8]; 3] = [&[], &[0x00], &[0xa5]];

/// A file whose device has trouble after so many calls answers as it must, twice. After each, crashes leave
/// the right words.
fn crash_in_a_call<R: Abort + AllocGlobal>(rt: &R, row: &str, calls: u8, trouble: Trouble) {
    let mut file = troubled_file(rt, calls, trouble);
    let (first, again) = answers_to(calls);
    let at = u64::from(calls);
    let failed = if calls < 9 { 1 } else { 0 };
    same(rt, row, at, &answers(rt, &mut file), &first);
    same(rt, row, at, &faults(&file), &failed);
    leaves_words(rt, &file, calls, trouble, (&SHORT, 1));
    same(rt, row, at, &answers(rt, &mut file), &again);
    same(rt, row, at, &faults(&file), &1);
    leaves_words(rt, &file, calls, trouble, (&TORN, OFTEN));
}

#[test]
fn a_crash_in_each_call(rt: HostRuntime) {
    for calls in 0..=9 {
        crash_in_a_call(&rt, "one call fails", calls, Trouble::Once);
        crash_in_a_call(&rt, "the device stops", calls, Trouble::Stop);
        crash_in_a_call(&rt, "the earlier stop counts", calls, Trouble::StopTwice);
    }
}

/// The words that a crash may leave after so many calls of a change and of its seal: the words before the seal, those
/// after it, or either while its sync is made.
static MAY_LEAVE: [(u8, &[&[u64]]); 6] = [
    (0, &[&[0, 0]]),
    (1, &[&[0, 0]]),
    (2, &[&[0, 0]]),
    (3, &[&[0, 0]]),
    (4, &[&[0, 0], &[1, 0]]),
    (5, &[&[1, 0]]),
];

/// The change of word 0, and its seal, which prepares another change.
const FIRST_WORD: Step = Step::Prepare(&[(0, 1)]);

const SEAL_WITH: Step = Step::SealWith(0, WAITING);

/// If the device stops after so many calls of a change and of its seal, which prepares another one, crashes leave these
/// words, whatever is torn.
fn crash_in_a_seal<R: Abort + AllocGlobal>(rt: &R, calls: u8, may: &[&[u64]]) {
    let mut file = troubled_file(rt, calls, Trouble::Stop);
    let _ = tell(rt, &mut file, FIRST_WORD);
    let _ = tell(rt, &mut file, SEAL_WITH);
    leaves(rt, "a seal", u64::from(calls), &file, may);
}

#[test]
fn a_crash_in_a_seal_leaves_nothing_of_a_change_that_waits(rt: HostRuntime) {
    for (calls, may) in &MAY_LEAVE {
        crash_in_a_seal(&rt, *calls, may);
    }
}

/// Tells whether a copy of a file answers as it must, has its own words then, and left the file's bytes as they were.
fn copy_is_apart<R: Abort + AllocGlobal>(rt: &R) -> [bool; 3] {
    let file = new_file(rt, 2, 1);
    let before = left(rt, &file, WRITTEN);
    let mut copy = copy(&file, rt.alloc()).expect(rt, MEMORY);
    let is_answered = answers(rt, &mut copy) == answers_to(9).0;
    let has_words = opens_with(rt, &left(rt, &copy, WRITTEN), &[&[1, 2]]);
    [is_answered, has_words, left(rt, &file, WRITTEN) == before]
}

#[test]
fn a_copy_goes_its_own_way(rt: HostRuntime) {
    hold(&rt, "a copy", &copy_is_apart(&rt));
}

/// Tells whether a write for which there is not enough memory fails, is counted as refused, and leaves a file that
/// answers as it must; and whether no call of a new file is counted so.
fn is_refused_alone<R: Abort + AllocGlobal>(rt: &R) -> [bool; 4] {
    let mut disk = disk_with(rt, &new_bytes(rt, 2, 1));
    let written = disk.write_at(1 << 63, &[1]);
    let mut file = opened(rt, disk);
    let is_counted = refused(&file) == 1;
    [
        written == Err(DiskFault),
        is_counted,
        answers(rt, &mut file) == answers_to(9).0,
        refused(&new_file(rt, 2, 1)) == 0,
    ]
}

#[test]
fn a_call_that_is_refused_memory_fails(rt: HostRuntime) {
    hold(&rt, "a refusal", &is_refused_alone(&rt));
}
