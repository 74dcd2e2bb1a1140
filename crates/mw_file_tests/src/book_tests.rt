//! Tests the book of a tenant's file, few places of which are used, on a device that fails.
use crate::calls::change;
use crate::files::{disk_with, new_bytes};
use crate::same::{MEMORY, same};
use mw_book::{Book, Filed, Waiting};
use mw_file::TenantFile;
use mw_look::Call;
use mw_memory_disk::MemDisk;
use mw_words::is_change;
use std::alloc::Global;
use std::process::Abort;

/// Prepares in a new file of two words and six places, a call of whose device fails.
struct Row {
    name: &'static str,
    /// The number of the device call that fails. The first seven calls are those of the opening.
    fails: u64,
    /// How many places are used.
    places: u16,
    /// Slots whose changes of word 1 wait during the first prepare, and the value that each gives the word.
    waiting: &'static [(u8, u64)],
    /// Slots that prepare the change of word 1 to 5, and how each of these prepares ends, `None` if no place is free.
    prepares: &'static [(u8, Option<Filed>)],
}

const MADE: Option<Filed> = Some(Filed::Made);

const BROKEN: Option<Filed> = Some(Filed::Broken);

const UNTOUCHED: Option<Filed> = Some(Filed::Untouched);

static ROWS: [Row; 6] = [
    Row {
        name: "the place is used up",
        fails: 14,
        places: 1,
        waiting: &[],
        prepares: &[(3, MADE), (3, None)],
    },
    Row {
        name: "the device fails",
        fails: 9,
        places: 1,
        waiting: &[],
        prepares: &[(3, BROKEN), (3, UNTOUCHED)],
    },
    Row {
        name: "a change that waited is prepared by no device call of its own",
        fails: 11,
        places: 3,
        waiting: &[(4, 5)],
        prepares: &[(3, MADE), (4, MADE), (5, BROKEN)],
    },
    Row {
        name: "another change than the one that waited has device calls",
        fails: 11,
        places: 3,
        waiting: &[(4, 6)],
        prepares: &[(3, MADE), (4, BROKEN), (5, UNTOUCHED)],
    },
    Row {
        name: "a record moves if its place is needed and another is free",
        fails: 14,
        places: 4,
        waiting: &[(4, 5), (5, 5)],
        prepares: &[(3, MADE), (4, MADE), (6, MADE), (5, MADE)],
    },
    Row {
        name: "the device fails when its place is needed",
        fails: 13,
        places: 4,
        waiting: &[(4, 5), (5, 5)],
        prepares: &[(3, MADE), (4, MADE), (6, BROKEN), (5, UNTOUCHED)],
    },
];

/// Makes the changes that wait.
fn waiting_of<R: Abort + AllocGlobal>(rt: &R, row: &Row) -> Vec<Waiting> {
    let mut waiting = Vec::new(rt.alloc());
    for (slot, value) in row.waiting {
        let one = Waiting {
            slot: *slot,
            entries: change(&[(1, *value)]),
        };
        waiting.push(one).expect(rt, MEMORY);
    }
    waiting
}

/// Makes the disk of a row's file.
fn disk_of<R: Abort + AllocGlobal>(rt: &R, row: &Row) -> MemDisk {
    let mut disk = disk_with(rt, &new_bytes(rt, 2, 3));
    disk.fail_next(row.fails).expect(rt, MEMORY);
    disk
}

/// Makes the book of the file on a disk, with so many places. Gives `None` if the file doesn't open, or has fewer.
fn book_of(alloc: Global, disk: MemDisk, places: u16) -> Option<Book<MemDisk>> {
    match TenantFile::open(alloc, disk) {
        Ok(opened) => {
            let (file, _) = opened;
            if file.places() >= places {
                Some(Book::new(file, places))
            } else {
                None
            }
        }
        Err(_) => None,
    }
}

/// Tells how a prepare of a change of word 1 for a slot ends, or gives `None` if no place is free.
fn prepare(book: &mut Book<MemDisk>, slot: u8, waiting: &[Waiting]) -> Option<Filed> {
    let entries = change(&[(1, 5)]);
    if !book.has_failed() && !(book.has_place() && is_change(&entries, book.words() as usize)) {
        return None;
    }
    Some(book.call(Call::Prepare, slot, &entries, waiting))
}

/// A row's prepares in its book end as it says.
fn end_in<R: Abort>(rt: &R, row: &Row, book: &mut Book<MemDisk>, waiting: &mut Vec<Waiting>) {
    for (slot, wanted) in row.prepares {
        let found = prepare(book, *slot, waiting);
        same(rt, row.name, u64::from(*slot), &found, wanted);
        waiting.clear();
    }
}

/// A row's prepares end as it says.
fn end_so<R: Abort + AllocGlobal>(rt: &R, row: &Row) {
    let disk = disk_of(rt, row);
    let mut book = book_of(rt.alloc(), disk, row.places).expect(rt, row.name);
    end_in(rt, row, &mut book, &mut waiting_of(rt, row));
}

#[test]
fn prepares_of_a_book(rt: HostRuntime) {
    for row in &ROWS {
        end_so(&rt, row);
    }
}
