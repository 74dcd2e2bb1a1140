//! Tests calls on a file one after the other: which place a change gets, changes that are prepared ahead, and copies of
//! a file that is in use, also on a device that fails.
//!
//! Used by: `opening_tests`, `file_tests`.
use crate::calls::{Step, Told, tell};
use crate::files::{ONES, disk_with, left, new_file, opening, opens_with};
use crate::same::{MEMORY, holds, same};
use mw_file::{CopyFault, FileFault, Place, TenantFile};
use mw_memory_disk::{MemDisk, fail_next};
use std::process::Abort;

/// What is done with a file, and what is found.
#[derive(Clone, Copy)]
enum Turn {
    /// A call is answered so.
    Call(Step, Told),
    /// The device call of this number from now on fails.
    Fail(u64),
    /// A copy of the file in use opens with these words, or is refused.
    Copy(Result<&'static [u64], CopyFault>),
    /// A crash that leaves ones in what was not synced leaves a file that opens with these words.
    Crash(&'static [u64]),
}

/// A new file, and what is done with it.
struct Row {
    name: &'static str,
    start: Start,
    turns: &'static [Turn],
}

/// A new file in its first layout. Its opening gives it twice as many places.
#[derive(Clone, Copy)]
enum Start {
    TwoWords,
    ThreeWords,
    ThreeWordsTwoPlaces,
}

/// Makes a new file.
fn file_of<R: Abort + AllocGlobal>(rt: &R, start: Start) -> TenantFile<MemDisk> {
    match start {
        Start::TwoWords => new_file(rt, 2, 1),
        Start::ThreeWords => new_file(rt, 3, 1),
        Start::ThreeWordsTwoPlaces => new_file(rt, 3, 2),
    }
}

/// Copies a file in use, and tells whether the copy opens with these words.
fn copied<R: Abort + AllocGlobal>(
    rt: &R,
    file: &mut TenantFile<MemDisk>,
    words: &[u64],
) -> Result<bool, CopyFault> {
    match file.copy_bytes(rt.alloc()) {
        Ok(bytes) => Ok(opens_with(rt, &bytes, &[words])),
        Err(fault) => Err(fault),
    }
}

/// A copy of a file in use opens with these words, or is refused so.
fn copies<R: Abort + AllocGlobal>(
    rt: &R,
    row: &str,
    at: u64,
    file: &mut TenantFile<MemDisk>,
    wanted: Result<&'static [u64], CopyFault>,
) {
    match wanted {
        Ok(words) => same(rt, row, at, &copied(rt, file, words), &Ok(true)),
        Err(fault) => same(rt, row, at, &copied(rt, file, &[]), &Err(fault)),
    }
}

/// Does this with a file, and finds what is wanted.
fn take<R: Abort + AllocGlobal>(
    rt: &R,
    row: &str,
    at: u64,
    file: &mut TenantFile<MemDisk>,
    turn: Turn,
) {
    match turn {
        Turn::Call(step, told) => same(rt, row, at, &tell(rt, file, step), &told),
        Turn::Fail(number) => fail_next(file, number).expect(rt, MEMORY),
        Turn::Copy(wanted) => copies(rt, row, at, file, wanted),
        Turn::Crash(words) => {
            let is_right = opens_with(rt, &left(rt, file, ONES), &[words]);
            holds(rt, row, at, is_right);
        }
    }
}

/// Plays a row, and gives the file then.
fn play<R: Abort + AllocGlobal>(rt: &R, row: &Row) -> TenantFile<MemDisk> {
    let mut file = file_of(rt, row.start);
    for (at, turn) in row.turns.iter().enumerate() {
        take(rt, row.name, at as u64, &mut file, *turn);
    }
    file
}

/// What a call is answered: that it is done; or that it is done in place 0, 1 or 2.
const DONE: Told = Some(Ok(None));

const IN_0: Told = Some(Ok(Some(Place(0))));

const IN_1: Told = Some(Ok(Some(Place(1))));

const IN_2: Told = Some(Ok(Some(Place(2))));

/// The change of word 0 is prepared, in place 0 if that is free.
const FIRST: Step = Step::Prepare(&[(0, 1)]);

/// The change of word 0 is prepared in place 0.
const IS_FIRST: Turn = Turn::Call(FIRST, IN_0);

/// The change of words 1 and 2 is prepared in place 1.
const IS_SECOND: Turn = Turn::Call(Step::Prepare(&[(1, 2), (2, 3)]), IN_1);

/// The change in place 1 is sealed.
const IS_SEALED: Turn = Turn::Call(Step::Seal(1), DONE);

/// The change in place 0 is canceled, and that in place 1.
const CANCEL_0: Turn = Turn::Call(Step::Cancel(0), DONE);

const CANCEL_1: Turn = Turn::Call(Step::Cancel(1), DONE);

/// Two changes in a new file.
static TWO_RECORDS: Row = Row {
    name: "two records",
    start: Start::ThreeWordsTwoPlaces,
    turns: &[IS_FIRST, IS_SECOND, IS_SEALED],
};

/// Makes a file of three words with four places. The change of word 0 is prepared in its first place, and that
/// of the others is sealed in its second.
pub(crate) fn with_two_records<R: Abort + AllocGlobal>(rt: &R) -> TenantFile<MemDisk> {
    play(rt, &TWO_RECORDS)
}

/// The change of word 1, to be prepared in place 1 while another change is under way in place 0.
pub(crate) const WAITING: &[(u16, &[(u16, u64)])] = &[(1, &[(1, 2)])];

/// The change in place 0 is sealed, and settled, without one that waits.
const SEAL_0: Turn = Turn::Call(Step::Seal(0), DONE);

const SETTLE_0: Turn = Turn::Call(Step::Settle(0), DONE);

/// The change in place 1 is settled.
const SETTLE_1: Turn = Turn::Call(Step::Settle(1), DONE);

/// After a device call of a copy failed, the file is in use as before.
const COPY_FAILS: Turn = Turn::Copy(Err(CopyFault::Disk));

/// What is done with new files: changes are canceled, and the lowest free place is taken again; each call of a change prepares
/// one that waits, which is sealed then like any other; a file is copied whose change of word 0 is prepared, and whose change
/// of words 1 and 2 is sealed.
static ROWS: [Row; 11] = [
    Row {
        name: "both places are taken",
        start: Start::ThreeWords,
        turns: &[
            IS_FIRST,
            IS_SECOND,
            IS_SEALED,
            Turn::Call(FIRST, None),
            CANCEL_0,
            IS_FIRST,
        ],
    },
    Row {
        name: "two places more are free",
        start: Start::ThreeWordsTwoPlaces,
        turns: &[
            IS_FIRST,
            IS_SECOND,
            IS_SEALED,
            Turn::Call(FIRST, IN_2),
            CANCEL_0,
            IS_FIRST,
        ],
    },
    Row {
        name: "the lower place is left first",
        start: Start::ThreeWords,
        turns: &[
            IS_FIRST,
            Turn::Call(Step::Prepare(&[(1, 2)]), IN_1),
            CANCEL_0,
            CANCEL_1,
            Turn::Call(Step::Prepare(&[(2, 3)]), IN_0),
        ],
    },
    Row {
        name: "the upper place is left first",
        start: Start::ThreeWords,
        turns: &[
            IS_FIRST,
            Turn::Call(Step::Prepare(&[(1, 2)]), IN_1),
            CANCEL_1,
            CANCEL_0,
            Turn::Call(Step::Prepare(&[(2, 3)]), IN_0),
        ],
    },
    Row {
        name: "prepared by a prepare",
        start: Start::TwoWords,
        turns: &[
            IS_FIRST,
            Turn::Call(Step::PrepareAll(WAITING), DONE),
            SEAL_0,
            SETTLE_0,
            Turn::Crash(&[1, 0]),
            IS_SEALED,
            Turn::Crash(&[1, 2]),
        ],
    },
    Row {
        name: "prepared by a seal",
        start: Start::TwoWords,
        turns: &[
            IS_FIRST,
            Turn::Call(Step::SealWith(0, WAITING), DONE),
            SETTLE_0,
            Turn::Crash(&[1, 0]),
            IS_SEALED,
            Turn::Crash(&[1, 2]),
        ],
    },
    Row {
        name: "prepared by a settle",
        start: Start::TwoWords,
        turns: &[
            IS_FIRST,
            SEAL_0,
            Turn::Call(Step::SettleAll(WAITING), DONE),
            Turn::Crash(&[1, 0]),
            IS_SEALED,
            Turn::Crash(&[1, 2]),
        ],
    },
    Row {
        name: "the words of the copy's moment",
        start: Start::ThreeWords,
        turns: &[
            IS_FIRST,
            IS_SECOND,
            IS_SEALED,
            Turn::Copy(Ok(&[0, 2, 3])),
            SETTLE_1,
            SEAL_0,
            Turn::Copy(Ok(&[1, 2, 3])),
        ],
    },
    Row {
        name: "the length is not told",
        start: Start::ThreeWords,
        turns: &[
            IS_FIRST,
            IS_SECOND,
            IS_SEALED,
            Turn::Fail(1),
            COPY_FAILS,
            CANCEL_0,
            SETTLE_1,
            Turn::Copy(Ok(&[0, 2, 3])),
        ],
    },
    Row {
        name: "the read fails",
        start: Start::ThreeWords,
        turns: &[
            IS_FIRST,
            IS_SECOND,
            IS_SEALED,
            Turn::Fail(2),
            COPY_FAILS,
            CANCEL_0,
            SETTLE_1,
            Turn::Copy(Ok(&[0, 2, 3])),
        ],
    },
    Row {
        name: "the file has failed",
        start: Start::ThreeWords,
        turns: &[
            IS_FIRST,
            IS_SECOND,
            IS_SEALED,
            Turn::Fail(1),
            Turn::Call(Step::Settle(1), Some(Err(FileFault::Disk))),
            Turn::Copy(Err(CopyFault::Failed)),
        ],
    },
];

#[test]
fn turns_of_a_file(rt: HostRuntime) {
    for row in &ROWS {
        play(&rt, row);
    }
}
