//! Tests power failures: a file keeps any part of a write that wasn't synced, torn at any byte.
//!
//! Used by: `shared_tests`.
use crate::file_tests::{answers, troubled_file};
use crate::files::{
    ONES, Trouble, WRITTEN, ZEROS, byte_at, left, left_on, opening, opens_with, set_byte, troubled,
};
use crate::opening_tests::old_bytes;
use crate::same::{MEMORY, holds, same};
use std::process::Abort;

/// Files with these bytes open with one of these lists of words.
fn open_with<R: Abort + AllocGlobal>(
    rt: &R,
    row: &str,
    cut: usize,
    images: [&[u8]; 3],
    may: &[&[u64]],
) {
    for image in images {
        holds(rt, row, cut as u64, opens_with(rt, image, may));
    }
}

/// Files torn at each byte that differs open with one of these lists of words. Of the bytes taken, one has
/// those before the cut, one has those from there on, and one has only that byte. Gives how many files these
/// were.
pub(crate) fn torn_anywhere<R: Abort + AllocGlobal>(
    rt: &R,
    row: &str,
    kept: &[u8],
    taken: &[u8],
    may: &[&[u64]],
) -> u64 {
    let mut first = kept.to_vec(rt.alloc()).expect(rt, MEMORY);
    let mut last = taken.to_vec(rt.alloc()).expect(rt, MEMORY);
    let mut one = kept.to_vec(rt.alloc()).expect(rt, MEMORY);
    let mut images: u64 = 0;
    for cut in 0..kept.len().min(taken.len()) {
        let (before, after) = (byte_at(kept, cut), byte_at(taken, cut));
        if before != after {
            set_byte(&mut one, cut, after);
            open_with(rt, row, cut, [&first, &last, &one], may);
            set_byte(&mut one, cut, before);
            set_byte(&mut first, cut, after);
            set_byte(&mut last, cut, before);
            images = images.saturating_add(3);
        }
    }
    images
}

/// What is done with a file when the power fails.
#[derive(Clone, Copy)]
enum Play {
    /// A change is made. Its nine calls are the record and a sync, the commit byte and a sync, two words and a sync,
    /// the commit byte and a sync.
    Change,
    /// An old file is opened. Its seven calls are two that read, the second layout, its offset and a sync, the
    /// switch byte and a sync.
    Migration,
}

/// Gives what a crash with these torn bytes leaves of a file whose device stopped after so many calls.
fn left_of<R: Abort + AllocGlobal>(rt: &R, play: Play, calls: u8, torn: &[u8]) -> Vec<u8> {
    match play {
        Play::Change => {
            let mut file = troubled_file(rt, calls, Trouble::Stop);
            let _ = answers(rt, &mut file);
            left(rt, &file, torn)
        }
        Play::Migration => {
            let disk = troubled(rt, &old_bytes(rt), calls, Trouble::Stop);
            let (_, disk) = opening(rt.alloc(), disk);
            left_on(rt, &disk, torn)
        }
    }
}

/// The calls after which something is not synced: in what they are made, how many were made, what there may be in
/// place of what they wrote (after how many calls, and with which torn bytes), and what words there may be then.
type Row = (
    &'static str,
    Play,
    u8,
    &'static [(u8, &'static [u8])],
    &'static [&'static [u64]],
);

static CHANGE: [Row; 5] = [
    (
        "the record",
        Play::Change,
        1,
        &[(0, WRITTEN), (1, ZEROS), (1, ONES)],
        &[&[0, 0]],
    ),
    (
        "the commit byte is set",
        Play::Change,
        3,
        &[(2, WRITTEN), (3, ZEROS), (3, ONES)],
        &[&[0, 0], &[1, 2]],
    ),
    (
        "the first word",
        Play::Change,
        5,
        &[(4, WRITTEN), (5, ZEROS), (5, ONES)],
        &[&[1, 2]],
    ),
    (
        "the second word",
        Play::Change,
        6,
        &[(4, WRITTEN), (6, ZEROS), (6, ONES)],
        &[&[1, 2]],
    ),
    (
        "the commit byte is cleared",
        Play::Change,
        8,
        &[(7, WRITTEN), (8, ZEROS), (8, ONES)],
        &[&[1, 2]],
    ),
];

static MIGRATION: [Row; 3] = [
    (
        "the second layout",
        Play::Migration,
        3,
        &[(3, ZEROS), (3, ONES)],
        &[&[5, 0]],
    ),
    (
        "its offset",
        Play::Migration,
        4,
        &[(4, ZEROS), (4, ONES)],
        &[&[5, 0]],
    ),
    (
        "the switch byte",
        Play::Migration,
        6,
        &[(6, ZEROS), (6, ONES)],
        &[&[5, 0]],
    ),
];

/// If the power fails after these calls, the file keeps any part of the bytes since the last sync, and has one of
/// these lists of words. Gives how many files were tried.
fn torn_in<R: Abort + AllocGlobal>(rt: &R, row: Row) -> u64 {
    let (name, play, calls, others, may) = row;
    let written = left_of(rt, play, calls, WRITTEN);
    let mut images: u64 = 0;
    for (other, torn) in others {
        let kept = left_of(rt, play, *other, torn);
        images = images.saturating_add(torn_anywhere(rt, name, &kept, &written, may));
    }
    images
}

/// The same for each of these rows.
fn torn_in_each<R: Abort + AllocGlobal>(rt: &R, rows: &[Row]) -> u64 {
    let mut images: u64 = 0;
    for row in rows {
        images = images.saturating_add(torn_in(rt, *row));
    }
    images
}

/// If the power fails before the second layout is synced, the old file has any length from its own one on.
/// Gives how many files were tried.
fn cut_short<R: Abort + AllocGlobal>(rt: &R) -> u64 {
    let written = left_of(rt, Play::Migration, 3, WRITTEN);
    let mut images: u64 = 0;
    for end in old_bytes(rt).len()..written.len() {
        let image = written.get(..end).unwrap_or(&[]);
        let is_right = opens_with(rt, image, &[&[5, 0]]);
        holds(rt, "cut short", end as u64, is_right);
        images = images.saturating_add(1);
    }
    images
}

#[test]
fn the_power_goes(rt: HostRuntime) {
    let (change, migration) = (torn_in_each(&rt, &CHANGE), torn_in_each(&rt, &MIGRATION));
    let files = [change, migration, cut_short(&rt)];
    same(&rt, "files, and short files", 0, &files, &[918, 3_555, 576]);
}
