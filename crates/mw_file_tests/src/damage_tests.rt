//! Tests how a file's bytes are read: the damage that is told of a file with changed bytes, and the records of
//! others.
use crate::files::{WRITTEN, disk_with, left_on, new_bytes, opening, set_byte};
use crate::opening_tests::migrated;
use crate::same::{MEMORY, holds, same};
use mw_disk::Disk;
use mw_file::OpenFault;
use mw_record::{
    COMMITTED, Damage, Image, MAX_FILE, MAX_FIRST, MAX_SECOND, SECOND_AT, SWITCH_AT, body, decode,
    header, header2, home_at, place_at, size, size2, write_second,
};
use mw_words::{Entries, Entry};
use std::process::Abort;

/// The file whose bytes are changed.
#[derive(Clone, Copy)]
enum Start {
    /// A new file in the first layout, with two words and one place: 184 bytes.
    Small,
    /// A new file in the first layout, with two words and two places: 320 bytes.
    TwoPlaces,
    /// A file with the words 5 and 0, whose second layout begins at 184 and has two places: 760 bytes.
    Switched,
    /// The same, with an open record in the first layout, which nobody looks at.
    Migrated,
}

/// Makes a file with the words 5 and 0, whose second layout begins at 184 and has two record places.
fn switched_file() -> [u8; 760] {
    let mut file = [0; 760];
    file[..32].copy_from_slice(&header(2, 1));
    file[SWITCH_AT] = COMMITTED;
    file[SECOND_AT] = 184;
    write_second(&mut file[184..], &[5, 0], 2);
    file
}

/// Makes the file whose bytes are changed.
fn bytes_of<R: Abort + AllocGlobal>(rt: &R, start: Start) -> Vec<u8> {
    match start {
        Start::Small => new_bytes(rt, 2, 1),
        Start::TwoPlaces => new_bytes(rt, 2, 2),
        Start::Switched => switched_file().to_vec(rt.alloc()).expect(rt, MEMORY),
        Start::Migrated => migrated(rt),
    }
}

/// The damaged files of each kind, one a line: a name, the changed bytes, how many bytes are kept, and the number of the damage, 0
/// if it has none.
static DAMAGED: [(Start, &str); 4] = [
    (Start::Small, SMALL),
    (Start::TwoPlaces, TWO_PLACES),
    (Start::Switched, SWITCHED),
    (Start::Migrated, MIGRATED),
];

/// Damaged files that were new, in the first layout.
const SMALL: &str = "\
another magic > 0=88 > 184 > 1
a magic that begins with 0 > 0=0 > 184 > 1
no words > 8=0 > 184 > 2
one word too many for the bytes > 8=3 > 184 > 6
too many words > 9=17 > 184 > 2
no places > 12=0 > 184 > 2
too many places > 12=33 > 184 > 2
a byte before the switch byte > 14=88 > 184 > 0
a switch byte with no offset > 15=165 > 184 > 7
another switch byte > 15=127 > 184 > 0
the lower byte above a value > 38=1 > 184 > 3
the upper byte above a value > 39=1 > 184 > 3
an open record of no entry > 48=165 > 184 > 4
another commit byte > 48=127 > 184 > 0
a closed record of nine entries > 49=9 > 184 > 0
an open record of nine entries > 48=165 49=9 > 184 > 4
the same magic > 0=77 > 184 > 0
one byte short > 0=77 > 183 > 6
one byte short of a head > 0=77 > 31 > 6
another magic, short of a head > 0=88 > 31 > 6";

/// The same with two records, each of address 0 and value 1: both are open, or the second one is closed.
const TWO_PLACES: &str = "\
two open records of one word > 48=165 49=1 64=1 184=165 185=1 200=1 > 320 > 5
an open and a closed record > 48=165 49=1 64=1 184=127 185=1 200=1 > 320 > 0";

/// Damaged files in their second layout.
const SWITCHED: &str = "\
bytes of the first head > 14=88 24=88 > 760 > 0
sizes of the first layout > 8=0 12=0 > 760 > 0
a first layout of no words > 15=127 8=0 > 760 > 2
the first magic > 0=88 16=0 > 760 > 1
the first magic, short > 0=88 16=0 > 31 > 6
an offset in the head > 16=31 184=0 > 760 > 7
the greatest offset > 16=32 17=145 > 760 > 6
an offset too great > 16=33 17=145 > 760 > 7
a far offset > 23=1 184=0 > 760 > 7
a head one byte short > 184=0 192=0 > 215 > 6
another magic in a head alone > 184=0 192=0 > 216 > 7
another second magic > 184=0 192=0 > 760 > 7
no words > 192=0 233=17 > 760 > 2
too many words > 193=17 233=17 > 760 > 2
too many places > 196=65 233=17 > 760 > 2
more places than bytes > 196=64 233=17 > 760 > 6
one byte short > 232=165 233=17 > 759 > 6
an open record of 17 entries > 232=165 233=17 > 760 > 4
a closed record of 17 entries > 232=127 233=17 > 760 > 0
a value too great > 222=1 233=17 > 760 > 3
a value of the first layout > 199=165 38=1 > 760 > 0";

/// The same, of a migrated file.
const MIGRATED: &str = "\
migrated, another magic > 184=0 > 760 > 7
migrated, one byte short >  > 759 > 6
migrated, 17 entries > 232=165 233=17 > 760 > 4";

/// Changes bytes as a text says: `AT=VALUE`, with spaces between.
fn change(bytes: &mut Vec<u8>, changes: &str) {
    for change in changes.split_whitespace() {
        let (at, value) = change.split_once('=').unwrap_or((change, ""));
        let at = at.parse().unwrap_or(usize::MAX);
        set_byte(bytes, at, value.parse().unwrap_or(0));
    }
}

/// Gives the number of the damage that is told of these bytes, 0 if they have none.
fn told(bytes: &[u8]) -> u8 {
    match decode(bytes) {
        Ok(_) => 0,
        Err(damage) => damage.number(),
    }
}

/// Gives the number of the damage with which an opening ended, 0 if it went well.
fn number_of(ended: &Result<Vec<u64>, OpenFault>) -> u8 {
    match ended {
        Ok(_) => 0,
        Err(OpenFault::Damage(damage)) => damage.number(),
        Err(_) => u8::MAX,
    }
}

/// Gives the number of the damage with which an opening of these bytes ends, 0 if it goes well. A damaged file is left
/// as it was, and no call on it fails.
fn told_by_opening<R: Abort + AllocGlobal>(rt: &R, row: &str, bytes: &Vec<u8>) -> u8 {
    let (ended, disk) = opening(rt.alloc(), disk_with(rt, bytes));
    let number = number_of(&ended);
    let is_left = number == 0 || left_on(rt, &disk, WRITTEN) == *bytes;
    holds(rt, row, 1, is_left && disk.faults() == 0);
    number
}

/// Splits a line's text from what is after its next ` > `.
fn part_of(line: &str) -> (&str, &str) {
    line.split_once(" > ").unwrap_or((line, ""))
}

/// The damage that a line says is told of its file.
fn is_told<R: Abort + AllocGlobal>(rt: &R, start: Start, line: &str) {
    let (name, rest) = part_of(line);
    let (changes, rest) = part_of(rest);
    let (kept, number) = part_of(rest);
    let kept = kept.parse().unwrap_or(usize::MAX);
    let number = number.parse().unwrap_or(u8::MAX);
    let mut bytes = bytes_of(rt, start);
    change(&mut bytes, changes);
    bytes.truncate(kept);
    holds(rt, name, kept as u64, bytes.len() == kept);
    let found = [told(&bytes), told_by_opening(rt, name, &bytes)];
    same(rt, name, 2, &found, &[number, number]);
}

/// The same for each of these lines.
fn are_told<R: Abort + AllocGlobal>(rt: &R, start: Start, lines: &str) {
    for line in lines.split('\n') {
        is_told(rt, start, line);
    }
}

#[test]
fn damages_are_told(rt: HostRuntime) {
    for (start, lines) in &DAMAGED {
        are_told(&rt, *start, lines);
    }
    let numbers = [Damage::Record.number(), Damage::Overlap.number()];
    same(
        &rt,
        "a damaged record, and records that overlap",
        0,
        &numbers,
        &[4, 5],
    );
}

/// Makes a file in the first layout with the home words 5 and 0, and one open record, which makes the
/// second word 7.
fn first_with_a_record() -> [u8; 320] {
    let mut file = [0; 320];
    file[..32].copy_from_slice(&header(2, 2));
    file[32] = 5;
    file[48] = COMMITTED;
    file[49] = 1;
    file[56] = 1;
    file[64] = 7;
    file
}

/// Makes the switched file with one open record, which makes the second word 7.
fn switched_with_a_record() -> [u8; 760] {
    let mut entries = Entries::new();
    entries.push(Entry {
        addr: 1,
        expected: 0,
        new: 7,
    });
    let mut file = switched_file();
    file[232] = COMMITTED;
    file[233..496].copy_from_slice(&body(&entries));
    file
}

/// Reads an image of two words: its words, its two counts of pairs, and its first pair, if it has one.
fn read_image(image: &Image<'_>) -> Option<([u64; 2], [u8; 2], (u16, u64))> {
    if image.words() != 2 || image.places() != 2 || image.count(0) == 0 {
        return None;
    }
    let words = [image.word(0), image.word(1)];
    let counts = [image.count(0), image.count(1)];
    Some((words, counts, image.pair(0, 0)))
}

/// A file whose second word is 7 by an open record is read, and its layout begins at this offset.
fn is_read<R: Abort>(rt: &R, file: &[u8], at: u64) {
    match decode(file) {
        Ok(image) => {
            let wanted = Some(([5, 7], [1, 0], (1, 7)));
            same(rt, "a layout", at, &read_image(&image), &wanted);
            same(rt, "the offset of a layout", at, &image.at(), &at);
        }
        Err(damage) => same(rt, "a damage", at, &damage.number(), &0),
    }
}

#[test]
fn a_file_is_read(rt: HostRuntime) {
    is_read(&rt, &first_with_a_record(), 0);
    is_read(&rt, &switched_with_a_record(), 184);
}

/// Gives offsets and sizes: of a home word, of the first and the second place, of a first and a second layout, of the largest
/// of both, and of the largest file.
fn sizes() -> [u64; 8] {
    [
        home_at(184, 1),
        place_at(184, 2, 0),
        place_at(184, 2, 1),
        size(2, 2),
        size2(2, 2),
        size(4096, 32),
        size2(4096, 64),
        size(4096, 32) + size2(4096, 64),
    ]
}

/// What these must be.
const SIZES: [u64; 8] = [
    224,
    232,
    496,
    320,
    576,
    MAX_FIRST as u64,
    MAX_SECOND as u64,
    MAX_FILE as u64,
];

#[test]
fn parts_lie_one_behind_the_other(rt: HostRuntime) {
    same(&rt, "offsets and sizes", 0, &sizes(), &SIZES);
    let heads = [header(2, 1), header2(2, 2)];
    let wanted = [
        *b"MWCASF1\n\x02\0\0\0\x01\0\0\0\0\0\0\0\0\0\0\0\0\0\0\0\0\0\0\0",
        *b"MWCASF2\n\x02\0\0\0\x02\0\0\0\0\0\0\0\0\0\0\0\0\0\0\0\0\0\0\0",
    ];
    same(&rt, "heads", 0, &heads, &wanted);
}
