//! Tests the opening of a file: what it finds, and what crashes of it leave. An opening gives a file in its first layout
//! the second one.
//!
//! Used by: `power_tests`, `damage_tests`.
use crate::file_tests::{answers, answers_to, troubled_file};
use crate::files::{
    SET_FIRST, TORN, Trouble, WRITTEN, byte_at, disk_leaves, disk_with, left, left_on, new_bytes,
    opened, opening, set_bytes, troubled,
};
use crate::same::{MEMORY, holds, same};
use crate::turn_tests::with_two_records;
use mw_disk::Disk;
use mw_file::OpenFault;
use mw_memory_disk::MemDisk;
use std::process::Abort;

/// A file that is opened.
#[derive(Clone, Copy)]
struct File {
    name: &'static str,
    bytes: Bytes,
    /// How many device calls the opening makes.
    calls: u8,
    words: &'static [u64],
    /// How many places the opened file has.
    places: u64,
    /// Whether a crash during the opening of what a crash in a first opening left is looked at too.
    crashes_twice: bool,
}

/// The bytes of a file.
#[derive(Clone, Copy)]
enum Bytes {
    /// A new file of two words and two places, whose first word is 5.
    New,
    /// A file whose change of both words is sealed.
    Sealed,
    /// A file in its first layout, whose record is open.
    Old,
    /// A file whose first record is prepared, and whose second one is sealed.
    TwoRecords,
    /// A file of three words with two open records, in its first layout and in its second one.
    First,
    Second,
}

static FILES: [File; 6] = [
    File {
        name: "a new file",
        bytes: Bytes::New,
        calls: 7,
        words: &[5, 0],
        places: 4,
        crashes_twice: false,
    },
    File {
        name: "a sealed file",
        bytes: Bytes::Sealed,
        calls: 7,
        words: &[1, 2],
        places: 2,
        crashes_twice: true,
    },
    File {
        name: "an old file",
        bytes: Bytes::Old,
        calls: 7,
        words: &[5, 0],
        places: 2,
        crashes_twice: true,
    },
    File {
        name: "two records",
        bytes: Bytes::TwoRecords,
        calls: 7,
        words: &[0, 2, 3],
        places: 4,
        crashes_twice: false,
    },
    File {
        name: "two open records of the first layout",
        bytes: Bytes::First,
        calls: 7,
        words: &[1, 2, 3],
        places: 4,
        crashes_twice: false,
    },
    File {
        name: "two open records of the second layout",
        bytes: Bytes::Second,
        calls: 9,
        words: &[1, 2, 3],
        places: 4,
        crashes_twice: false,
    },
];

/// Gives what a crash leaves of a file whose change is sealed: the device stops before settle's first call.
fn sealed_bytes<R: Abort + AllocGlobal>(rt: &R) -> Vec<u8> {
    let mut file = troubled_file(rt, 4, Trouble::Stop);
    let told = answers(rt, &mut file);
    same(rt, "a sealed file", 4, &told, &answers_to(4).0);
    left(rt, &file, WRITTEN)
}

/// Makes a file in its first layout, of two words and one place. Its record is open and sets word 0 to 5.
pub(crate) fn old_bytes<R: Abort + AllocGlobal>(rt: &R) -> Vec<u8> {
    let mut bytes = new_bytes(rt, 2, 1);
    set_bytes(&mut bytes, &[(48, 0xa5), (49, 1), (64, 5)]);
    bytes
}

/// The commit bytes and counts of a file's two records: the first prepared, the second sealed. The second
/// layout begins at 328, its places at 384 and 648.
static TWO_RECORDS: [(usize, u8); 4] = [(384, 0), (385, 1), (648, 0xa5), (649, 2)];

/// Makes a file of three words whose first record is prepared, and whose second one is sealed.
fn two_records<R: Abort + AllocGlobal>(rt: &R) -> Vec<u8> {
    let left = left(rt, &with_two_records(rt), WRITTEN);
    same(rt, "the length", 0, &(left.len() as u64), &1440);
    for (at, byte) in &TWO_RECORDS {
        let is_right = byte_at(&left, *at) == *byte;
        holds(rt, "two records", *at as u64, is_right);
    }
    left
}

/// Makes a new file of three words and two places, without its second layout.
fn first_of_three<R: Abort + AllocGlobal>(rt: &R) -> Vec<u8> {
    let bytes = new_bytes(rt, 3, 2);
    same(rt, "a new file's length", 0, &(bytes.len() as u64), &328);
    bytes
}

/// Two open records of a file of three words and two places in its first layout, in its places at 56 and
/// 192. One sets word 0 to 1, the other sets words 1 and 2 to 2 and 3.
static FIRST_RECORDS: [(usize, u8); 9] = [
    (56, 0xa5),
    (57, 1),
    (72, 1),
    (192, 0xa5),
    (193, 2),
    (200, 1),
    (208, 2),
    (216, 2),
    (224, 3),
];

/// The same records in the places at 384 and 648 of the second layout, and the switch byte with the offset
/// 328 of that layout.
static SECOND_RECORDS: [(usize, u8); 12] = [
    (15, 0xa5),
    (16, 0x48),
    (17, 0x01),
    (384, 0xa5),
    (385, 1),
    (400, 1),
    (648, 0xa5),
    (649, 2),
    (656, 1),
    (664, 2),
    (672, 2),
    (680, 3),
];

/// Adds a second layout with this head to a file, which then has so many bytes, and changes some of them.
fn add_second<R: Abort + AllocGlobal>(
    rt: &R,
    bytes: &mut Vec<u8>,
    head: &[u8],
    len: usize,
    changes: &[(usize, u8)],
) {
    bytes.extend_from_slice(head).expect(rt, MEMORY);
    bytes.resize(len, 0).expect(rt, MEMORY);
    set_bytes(bytes, changes);
}

/// What [`old_bytes`] gets with its second layout: words 5 and 0, and two places, both closed.
static MIGRATED: [(usize, u8); 3] = [(15, 0xa5), (16, 0xb8), (216, 5)];

/// Makes the old file with its second layout after the first.
pub(crate) fn migrated<R: Abort + AllocGlobal>(rt: &R) -> Vec<u8> {
    let mut bytes = old_bytes(rt);
    add_second(rt, &mut bytes, b"MWCASF2\n\x02\0\0\0\x02\0", 760, &MIGRATED);
    bytes
}

/// Makes the bytes of a file.
fn bytes_of<R: Abort + AllocGlobal>(rt: &R, bytes: Bytes) -> Vec<u8> {
    match bytes {
        Bytes::New => {
            let mut bytes = new_bytes(rt, 2, 2);
            set_bytes(&mut bytes, &[(32, 5)]);
            bytes
        }
        Bytes::Sealed => sealed_bytes(rt),
        Bytes::Old => old_bytes(rt),
        Bytes::TwoRecords => two_records(rt),
        Bytes::First => {
            let mut bytes = first_of_three(rt);
            set_bytes(&mut bytes, &FIRST_RECORDS);
            bytes
        }
        Bytes::Second => {
            let mut bytes = first_of_three(rt);
            let head = b"MWCASF2\n\x03\0\0\0\x04\0";
            add_second(rt, &mut bytes, head, 1440, &SECOND_RECORDS);
            bytes
        }
    }
}

/// Crashes of a disk leave a file that opens with these words, whatever is torn.
fn keeps_words<R: Abort + AllocGlobal>(rt: &R, file: &File, calls: u8, disk: &MemDisk) {
    disk_leaves(rt, file.name, u64::from(calls), disk, &TORN, file.words);
}

/// Tells how an opening ends that makes so many calls at most: with the file's words or not, or with a fault. Tells
/// how many calls fail, too.
fn wanted(file: &File, calls: u8) -> (Result<bool, OpenFault>, u64) {
    if calls < file.calls {
        (Err(OpenFault::Disk), 1)
    } else {
        (Ok(true), 0)
    }
}

/// Opens a file with trouble after so many calls. It ends as it must, and crashes leave the file's words. Gives
/// the disk then.
fn open_with_trouble<R: Abort + AllocGlobal>(
    rt: &R,
    file: &File,
    image: &[u8],
    calls: u8,
    trouble: Trouble,
) -> MemDisk {
    let (ended, disk) = opening(rt.alloc(), troubled(rt, image, calls, trouble));
    let ended = match ended {
        Ok(words) => Ok(words.as_slice() == file.words),
        Err(fault) => Err(fault),
    };
    let found = (ended, disk.faults());
    same(
        rt,
        file.name,
        u64::from(calls),
        &found,
        &wanted(file, calls),
    );
    keeps_words(rt, file, calls, &disk);
    disk
}

/// What any crash during an opening of what a crash left of a file leaves, opens and has the file's words.
fn keeps_words_again<R: Abort + AllocGlobal>(rt: &R, file: &File, image: &[u8]) {
    for calls in 0..=7 {
        for trouble in [Trouble::Once, Trouble::Stop] {
            let (_, disk) = opening(rt.alloc(), troubled(rt, image, calls, trouble));
            keeps_words(rt, file, calls, &disk);
        }
    }
}

/// A file is opened with trouble after so many device calls, and crashes leave its words.
fn keeps_words_after<R: Abort + AllocGlobal>(rt: &R, file: &File, image: &[u8], calls: u8) {
    open_with_trouble(rt, file, image, calls, Trouble::Once);
    let disk = open_with_trouble(rt, file, image, calls, Trouble::Stop);
    if file.crashes_twice {
        keeps_words_again(rt, file, &left_on(rt, &disk, SET_FIRST));
    }
}

/// The same after each device call in turn.
fn keeps_words_in_each<R: Abort + AllocGlobal>(rt: &R, file: &File, image: &[u8]) {
    for calls in 0..=file.calls {
        keeps_words_after(rt, file, image, calls);
    }
}

/// An opened file has so many places, and one of them is free.
fn has_places<R: Abort + AllocGlobal>(rt: &R, file: &File, image: &[u8]) {
    let opened = opened(rt, disk_with(rt, image));
    same(rt, file.name, 0, &u64::from(opened.places()), &file.places);
    holds(rt, file.name, 0, opened.has_place());
}

#[test]
fn openings_keep_the_words(rt: HostRuntime) {
    for file in &FILES {
        let image = bytes_of(&rt, file.bytes);
        has_places(&rt, file, &image);
        keeps_words_in_each(&rt, file, &image);
    }
}

#[test]
fn migration(rt: HostRuntime) {
    let (ended, disk) = opening(rt.alloc(), disk_with(&rt, &old_bytes(&rt)));
    holds(&rt, "the file opens", 0, ended.is_ok());
    let is_right = left_on(&rt, &disk, WRITTEN) == migrated(&rt);
    holds(&rt, "the bytes", 0, is_right);
}
