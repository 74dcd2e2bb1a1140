//! Tests disks in memory, and disks over files.
use crate::files::disk_with;
use crate::same::{MEMORY, holds, same};
use mw_disk::*;
use mw_memory_disk::MemDisk;
use std::cell::Cell;
use std::fs::{File, Metadata, OpenFile, OpenOptions};
use std::io::ErrorKind;
use std::os::unix::fs::FileExt;
use std::path::PathBuf;
use std::process::Abort;
use std::rt::{Env, Files};
use std::{env, fs, io, process};

/// A call on a disk, and what it must answer.
#[derive(Clone, Copy)]
enum Turn {
    Len(Result<u64, DiskFault>),
    Sync(Result<(), DiskFault>),
    /// A write of these bytes at an offset.
    Write(u64, &'static [u8], Result<(), DiskFault>),
    /// A read of four bytes at an offset.
    Read(u64, [u8; 4]),
    /// A read of so many bytes at an offset, four at most, which fails.
    NoRead(u64, usize),
    /// How many calls have failed.
    Faults(u64),
}

/// What is done with a disk in memory, and what is found.
#[derive(Clone, Copy)]
enum MemoryTurn {
    Call(Turn),
    /// The call of this number from now on fails.
    Fail(u64),
    /// Every call after so many fails.
    Stop(u64),
    /// A crash with these torn bytes leaves just these.
    Crash(&'static [u8], &'static [u8]),
    /// How many calls were refused memory.
    Refused(u64),
}

const FAULT: Result<(), DiskFault> = Err(DiskFault);

/// Makes a call on a disk, which answers as it must.
fn take<R: Abort, D: Disk>(rt: &R, row: &str, at: u64, disk: &mut D, turn: Turn) {
    match turn {
        Turn::Len(wanted) => same(rt, row, at, &disk.len(), &wanted),
        Turn::Sync(wanted) => same(rt, row, at, &disk.sync(), &wanted),
        Turn::Write(offset, bytes, wanted) => {
            same(rt, row, at, &disk.write_at(offset, bytes), &wanted);
        }
        Turn::Read(offset, wanted) => {
            let mut out = [0; 4];
            same(rt, row, at, &disk.read_at(offset, &mut out), &Ok(()));
            same(rt, row, at, &out, &wanted);
        }
        Turn::NoRead(offset, count) => {
            let mut out = [0; 4];
            let read = disk.read_at(offset, &mut out[..count.min(4)]);
            same(rt, row, at, &read, &FAULT);
        }
        Turn::Faults(wanted) => same(rt, row, at, &disk.faults(), &wanted),
    }
}

/// Makes these calls on a disk.
fn play<R: Abort, D: Disk>(rt: &R, row: &str, disk: &mut D, turns: &[Turn]) {
    for (at, turn) in turns.iter().enumerate() {
        take(rt, row, at as u64, disk, *turn);
    }
}

/// Does this with a disk in memory, and finds what is wanted.
fn take_in_memory<R: Abort + AllocGlobal>(
    rt: &R,
    row: &str,
    at: u64,
    disk: &mut MemDisk,
    turn: MemoryTurn,
) {
    match turn {
        MemoryTurn::Call(turn) => take(rt, row, at, disk, turn),
        MemoryTurn::Fail(number) => disk.fail_next(number).expect(rt, MEMORY),
        MemoryTurn::Stop(calls) => disk.stop_next(calls),
        MemoryTurn::Crash(torn, wanted) => {
            let left = disk.crash(torn).expect(rt, MEMORY);
            holds(rt, row, at, left.as_slice() == wanted);
        }
        MemoryTurn::Refused(wanted) => same(rt, row, at, &disk.refused(), &wanted),
    }
}

/// Does these things with a disk in memory.
fn play_in_memory<R: Abort + AllocGlobal>(
    rt: &R,
    row: &str,
    disk: &mut MemDisk,
    turns: &[MemoryTurn],
) {
    for (at, turn) in turns.iter().enumerate() {
        take_in_memory(rt, row, at as u64, disk, *turn);
    }
}

/// Makes a disk of the bytes 1 to 4, whose calls of these numbers fail.
fn disk_of_four<R: Abort + AllocGlobal>(rt: &R, script: &[u64]) -> MemDisk {
    let bytes = [1, 2, 3, 4].to_vec(rt.alloc()).expect(rt, MEMORY);
    let script = script.to_vec(rt.alloc()).expect(rt, MEMORY);
    MemDisk::new(rt.alloc(), bytes, script).expect(rt, MEMORY)
}

/// The second and the sixth call fail. The third write leaves a gap, which has zeros.
static SCRIPT: [MemoryTurn; 11] = [
    MemoryTurn::Call(Turn::Len(Ok(4))),
    MemoryTurn::Call(Turn::Sync(FAULT)),
    MemoryTurn::Call(Turn::Write(1, &[9, 9], Ok(()))),
    MemoryTurn::Call(Turn::Read(0, [1, 9, 9, 4])),
    MemoryTurn::Call(Turn::Write(6, &[7], Ok(()))),
    MemoryTurn::Call(Turn::Write(4, &[8, 8], FAULT)),
    MemoryTurn::Call(Turn::Faults(2)),
    MemoryTurn::Refused(0),
    MemoryTurn::Crash(&[], &[1, 9, 9, 4, 0, 0, 7]),
    MemoryTurn::Crash(&[10, 11, 12], &[1, 10, 11, 4, 12, 0, 7]),
    MemoryTurn::Crash(&[10, 11, 12, 13, 14, 15], &[1, 10, 11, 4, 12, 13, 14]),
];

#[test]
fn a_disk_in_memory_fails_where_its_script_says(rt: HostRuntime) {
    let mut disk = disk_of_four(&rt, &[2, 6]);
    play_in_memory(&rt, "a script", &mut disk, &SCRIPT);
}

/// The second call fails, and no other one of the next ones, but for a read of more bytes than there are, and a write
/// for which there is not enough memory. Then the disk stops after one call.
static FAIL_AND_STOP: [MemoryTurn; 13] = [
    MemoryTurn::Fail(2),
    MemoryTurn::Call(Turn::Write(0, &[5], Ok(()))),
    MemoryTurn::Call(Turn::Write(5, &[6], FAULT)),
    MemoryTurn::Crash(&[7, 8], &[7, 2, 3, 4, 0, 8]),
    MemoryTurn::Call(Turn::Sync(Ok(()))),
    MemoryTurn::Call(Turn::NoRead(3, 2)),
    MemoryTurn::Call(Turn::Write(1 << 63, &[1], FAULT)),
    MemoryTurn::Crash(&[7, 8], &[5, 2, 3, 4]),
    MemoryTurn::Call(Turn::Faults(3)),
    MemoryTurn::Refused(1),
    MemoryTurn::Stop(1),
    MemoryTurn::Call(Turn::Write(1, &[9], Ok(()))),
    MemoryTurn::Call(Turn::Write(2, &[9], FAULT)),
];

/// A copy of a disk that has stopped has stopped too.
static STOPPED: [MemoryTurn; 3] = [
    MemoryTurn::Crash(&[6, 6], &[5, 6, 3, 4]),
    MemoryTurn::Call(Turn::Len(Err(DiskFault))),
    MemoryTurn::Call(Turn::Faults(5)),
];

#[test]
fn a_disk_in_memory_fails_and_stops_when_told(rt: HostRuntime) {
    let mut disk = disk_of_four(&rt, &[]);
    play_in_memory(&rt, "a disk that is told", &mut disk, &FAIL_AND_STOP);
    let mut copy = disk.copy().expect(&rt, MEMORY);
    play_in_memory(&rt, "its copy", &mut copy, &STOPPED);
    same(&rt, "a disk that has stopped", 0, &disk.faults(), &4);
}

/// Gives the path of a file that only the process of this number uses.
fn path_of<R: Abort + AllocGlobal + Env>(rt: &R, id: u32) -> PathBuf {
    let name = format!(in rt.alloc(); "mw_disk-test-{id}").expect(rt, MEMORY);
    let folder = env::temp_dir(rt).expect(rt, MEMORY);
    folder.join(rt.alloc(), name.as_str()).expect(rt, MEMORY)
}

/// Makes a new file, open for reading and writing, and removes its name.
fn nameless_file<R: Abort + AllocGlobal + Env + Files<File = File>>(rt: &R, id: u32) -> File {
    let path = path_of(rt, id);
    let mut options = OpenOptions::new();
    options.read(true).write(true).create(true);
    let file = options.open(rt, path.as_path()).expect(rt, "a file");
    fs::remove_file(rt, path.as_path()).expect(rt, "a file");
    file
}

/// A disk of no bytes gives what is written to it. It refuses reads past it, and writes past every file's end.
static USE: [Turn; 8] = [
    Turn::Write(3, b"abcd", Ok(())),
    Turn::Sync(Ok(())),
    Turn::Read(3, *b"abcd"),
    Turn::Len(Ok(7)),
    Turn::NoRead(4, 4),
    Turn::Write(u64::MAX, b"a", FAULT),
    Turn::Write((1 << 63) - 1, b"a", FAULT),
    Turn::Faults(3),
];

#[test]
fn a_disk_in_memory_and_one_over_a_file_are_used_alike(rt: HostRuntime) {
    play(&rt, "a disk in memory", &mut disk_with(&rt, &[]), &USE);
    let mut disk = FileDisk::new(nameless_file(&rt, process::id(rt.process())));
    play(&rt, "a disk over a file", &mut disk, &USE);
    let told = disk.into_file().metadata().expect(&rt, "a file");
    same(&rt, "the file's length", 0, &told.len(), &7);
}

/// A file of 8 bytes. Each call takes one byte, and every third call is interrupted.
#[derive(Drop)]
struct SlowFile {
    bytes: Cell<[u8; 8]>,
    turn: Cell<u8>,
    syncs: Cell<u8>,
}

impl SlowFile {
    fn next(&self) -> io::Result<()> {
        let turn = self.turn.get().wrapping_add(1);
        self.turn.set(turn);
        if turn % 3 == 0 {
            return Err(io::Error::from(ErrorKind::Interrupted));
        }
        Ok(())
    }
}

impl FileExt for SlowFile {
    fn read_at(&self, buf: &mut [u8], offset: u64) -> io::Result<usize> {
        self.next()?;
        if buf.is_empty() || offset >= 8 {
            return Ok(0);
        }
        let bytes = self.bytes.get();
        buf[0] = bytes[offset as usize];
        Ok(1)
    }

    fn write_at(&self, buf: &[u8], offset: u64) -> io::Result<usize> {
        self.next()?;
        if buf.is_empty() || offset >= 8 {
            return Ok(0);
        }
        let mut bytes = self.bytes.get();
        bytes[offset as usize] = buf[0];
        self.bytes.set(bytes);
        Ok(1)
    }
}

impl OpenFile for SlowFile {
    fn metadata(&self) -> io::Result<Metadata> {
        self.next()?;
        Err(io::Error::from(ErrorKind::Unsupported))
    }

    fn set_len(&self, _size: u64) -> io::Result<()> {
        self.next()
    }

    fn sync_all(&self) -> io::Result<()> {
        self.next()
    }

    fn sync_data(&self) -> io::Result<()> {
        self.next()?;
        self.syncs.set(self.syncs.get().wrapping_add(1));
        Ok(())
    }
}

/// Makes a slow file of zeros.
fn slow_file() -> SlowFile {
    SlowFile {
        bytes: Cell::new([0; 8]),
        turn: Cell::new(0),
        syncs: Cell::new(0),
    }
}

/// Writes at 0, 3 and 4, each of which is read again. Then a write and a read that end after the last of eight
/// bytes: a write takes none there, and a read gives none.
static SHORT_CALLS: [Turn; 13] = [
    Turn::Write(0, b"abcd", Ok(())),
    Turn::Sync(Ok(())),
    Turn::Read(0, *b"abcd"),
    Turn::Write(3, b"abcd", Ok(())),
    Turn::Sync(Ok(())),
    Turn::Read(3, *b"abcd"),
    Turn::Write(4, b"abcd", Ok(())),
    Turn::Sync(Ok(())),
    Turn::Read(4, *b"abcd"),
    Turn::Write(6, b"abc", FAULT),
    Turn::NoRead(6, 3),
    Turn::Len(Err(DiskFault)),
    Turn::Faults(3),
];

#[test]
fn short_and_interrupted_calls_go_on(rt: HostRuntime) {
    let mut disk = FileDisk::new(slow_file());
    play(&rt, "a slow file", &mut disk, &SHORT_CALLS);
    let file = disk.into_file();
    same(&rt, "syncs", 0, &u64::from(file.syncs.get()), &3);
    holds(&rt, "what is left", 0, file.bytes.get() == *b"abcaabab");
}
