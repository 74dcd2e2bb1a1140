//! Makes files on disks in memory that have trouble, and looks at what crashes leave of them.
//!
//! Used by: the tests of files.
ghost use Rattle.std.specs.Prelude.{◌≤◌};
ghost use Rattle.mw_words.specs.declared.limits.TheConstants.{MAX_WORDS};
ghost use Rattle.mw_record.specs.declared.layout.TheConstants.{FIRST_PLACES};

use crate::same::{MEMORY, holds};
use mw_disk::Disk;
use mw_file::{OpenFault, TenantFile};
use mw_memory_disk::{MemDisk, crash, fail_next, stop_next};
use mw_record::{header, size};
use std::alloc::Global;
use std::process::Abort;

/// A crash leaves what was written, also if it was not synced.
pub(crate) const WRITTEN: &[u8] = &[];

/// A crash leaves zeros in what was not synced.
pub(crate) const ZEROS: &[u8] = &[0x00, 0x00, 0x00, 0x00];

/// A crash leaves ones in what was not synced.
pub(crate) const ONES: &[u8] = &[0xff, 0xff, 0xff, 0xff];

/// A mixture that begins with a set commit byte.
pub(crate) const SET_FIRST: &[u8] = &[0xa5, 0xff, 0x5a, 0x00];

/// Bytes that a crash leaves, again and again, in what was not synced: these four, and a mixture that begins
/// with a clear commit byte.
pub(crate) static TORN: [&[u8]; 5] = [WRITTEN, ZEROS, ONES, &[0x00, 0xa5, 0xff, 0x5a], SET_FIRST];

/// Makes the bytes of a new file, with all words 0. Its opening gives it twice as many places.
pub(crate) fn new_bytes<R: Abort + AllocGlobal>(rt: &R, words: u16, places: u16) -> Vec<u8>
    requires some_word { 1 ≤ words }
    requires words_fit { words ≤ MAX_WORDS }
    requires some_place { 1 ≤ places }
    requires places_fit { places ≤ FIRST_PLACES }
{
    let start = header(words, places);
    let mut bytes = Vec::from_slice(rt.alloc(), &start).expect(rt, MEMORY);
    bytes
        .resize(size(words, places) as usize, 0)
        .expect(rt, MEMORY);
    bytes
}

/// Changes the byte at an offset, if there is one.
pub(crate) fn set_byte(bytes: &mut Vec<u8>, at: usize, byte: u8) {
    if at < bytes.len() {
        bytes[at] = byte;
    }
}

/// Changes some of these bytes.
pub(crate) fn set_bytes(bytes: &mut Vec<u8>, changes: &[(usize, u8)]) {
    for change in changes {
        set_byte(bytes, change.0, change.1);
    }
}

/// Gives the byte at an offset, 0 past the end.
pub(crate) fn byte_at(bytes: &[u8], at: usize) -> u8 {
    match bytes.get(at) {
        Some(byte) => *byte,
        None => 0,
    }
}

/// Makes a disk of these bytes.
pub(crate) fn disk_with<R: Abort + AllocGlobal>(rt: &R, bytes: &[u8]) -> MemDisk {
    let bytes = bytes.to_vec(rt.alloc()).expect(rt, MEMORY);
    MemDisk::new(rt.alloc(), bytes, Vec::new(rt.alloc())).expect(rt, MEMORY)
}

/// Says how a device fails after so many successful calls.
#[derive(Clone, Copy)]
pub(crate) enum Trouble {
    /// Only the next call fails.
    Once,
    /// Every further call fails, and changes nothing.
    Stop,
    /// The same, and a later stop is told, which doesn't count.
    StopTwice,
}

/// Makes a disk of these bytes that has trouble after so many calls.
pub(crate) fn troubled<R: Abort + AllocGlobal>(
    rt: &R,
    bytes: &[u8],
    calls: u8,
    trouble: Trouble,
) -> MemDisk {
    let mut disk = disk_with(rt, bytes);
    match trouble {
        Trouble::Once => disk.fail_next(u64::from(calls) + 1).expect(rt, MEMORY),
        Trouble::Stop => disk.stop_next(u64::from(calls)),
        Trouble::StopTwice => {
            disk.stop_next(u64::from(calls));
            disk.stop_next(u64::from(calls) + 2);
        }
    }
    disk
}

/// Makes the device of a file have trouble after so many calls.
pub(crate) fn bring_trouble<R: Abort>(
    rt: &R,
    file: &mut TenantFile<MemDisk>,
    calls: u8,
    trouble: Trouble,
) {
    match trouble {
        Trouble::Once => fail_next(file, u64::from(calls) + 1).expect(rt, MEMORY),
        Trouble::Stop => stop_next(file, u64::from(calls)),
        Trouble::StopTwice => {
            stop_next(file, u64::from(calls));
            stop_next(file, u64::from(calls) + 2);
        }
    }
}

/// Gives the file on a disk, which opens.
pub(crate) fn opened<R: Abort + AllocGlobal>(rt: &R, disk: MemDisk) -> TenantFile<MemDisk> {
    match TenantFile::open(rt.alloc(), disk) {
        Ok(opened) => {
            let (file, _) = opened;
            Some(file)
        }
        Err(_) => None,
    }
    .expect(rt, "the file opens")
}

/// Makes a new file.
pub(crate) fn new_file<R: Abort + AllocGlobal>(
    rt: &R,
    words: u16,
    places: u16,
) -> TenantFile<MemDisk>
    requires some_word { 1 ≤ words }
    requires words_fit { words ≤ MAX_WORDS }
    requires some_place { 1 ≤ places }
    requires places_fit { places ≤ FIRST_PLACES }
{
    opened(rt, disk_with(rt, &new_bytes(rt, words, places)))
}

/// Tells how an opening ends, and gives the disk then.
pub(crate) fn opening(alloc: Global, disk: MemDisk) -> (Result<Vec<u64>, OpenFault>, MemDisk) {
    match TenantFile::open(alloc, disk) {
        Ok(opened) => {
            let (file, words) = opened;
            (Ok(words), file.into_disk())
        }
        Err(failed) => {
            let (fault, disk) = failed;
            (Err(fault), disk)
        }
    }
}

/// Tells whether these words are one of these lists.
fn is_one_of(words: &[u64], may: &[&[u64]]) -> bool {
    for wanted in may {
        if words == *wanted {
            return true;
        }
    }
    false
}

/// Tells whether a file with these bytes opens with one of these lists of words.
pub(crate) fn opens_with<R: Abort + AllocGlobal>(rt: &R, image: &[u8], may: &[&[u64]]) -> bool {
    let (ended, _) = opening(rt.alloc(), disk_with(rt, image));
    match ended {
        Ok(words) => is_one_of(&words, may),
        Err(_) => false,
    }
}

/// How often torn bytes are repeated, to more than any one write has.
pub(crate) const OFTEN: u16 = 300;

/// Repeats these torn bytes so often.
pub(crate) fn over_and_over<R: Abort + AllocGlobal>(rt: &R, torn: &[u8], times: u16) -> Vec<u8> {
    let mut bytes = Vec::new(rt.alloc());
    for _ in 0..times {
        bytes.extend_from_slice(torn).expect(rt, MEMORY);
    }
    bytes
}

/// Gives what a crash leaves of a disk, with these torn bytes again and again.
pub(crate) fn left_on<R: Abort + AllocGlobal>(rt: &R, disk: &MemDisk, torn: &[u8]) -> Vec<u8> {
    disk.crash(&over_and_over(rt, torn, OFTEN))
        .expect(rt, MEMORY)
}

/// Gives what a crash leaves of a file, with these torn bytes again and again.
pub(crate) fn left<R: Abort + AllocGlobal>(
    rt: &R,
    file: &TenantFile<MemDisk>,
    torn: &[u8],
) -> Vec<u8> {
    crash(file, &over_and_over(rt, torn, OFTEN)).expect(rt, MEMORY)
}

/// Crashes of a file leave one of these lists of words, whatever is torn.
pub(crate) fn leaves<R: Abort + AllocGlobal>(
    rt: &R,
    row: &str,
    at: u64,
    file: &TenantFile<MemDisk>,
    may: &[&[u64]],
) {
    for torn in &TORN {
        holds(rt, row, at, opens_with(rt, &left(rt, file, torn), may));
    }
}

/// Crashes of a disk with any of these torn bytes leave these words.
pub(crate) fn disk_leaves<R: Abort + AllocGlobal>(
    rt: &R,
    row: &str,
    at: u64,
    disk: &MemDisk,
    torn: &[&[u8]],
    words: &[u64],
) {
    for torn in torn {
        let is_right = opens_with(rt, &left_on(rt, disk, torn), &[words]);
        holds(rt, row, at, is_right);
    }
}

/// Gives how many device calls of a file have failed.
pub(crate) fn faults(file: &TenantFile<MemDisk>) -> u64 {
    file.disk().faults()
}
