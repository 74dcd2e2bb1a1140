//! Tests what opens a server's files, over files that fail when they are told to. A watched file makes each call on
//! the file below it once, or goes on after an interruption, gives its outcome, and keeps what is known; its disk syncs.
use crate::checks::holds;
use crate::fake_file::{Call, DEVICE, FakeFile, INTERRUPTED};
use mw_disk::{Disk, DiskFile, FileDisk};
use mw_metrics::{CallFigures, TenantCounters};
use mw_opening::{FileState, WatchedFile};
use std::fs::OpenFile;
use std::io::{self, ErrorKind};
use std::time::Clock;

/// The number of the system's error of a file that was given up.
const STALE: i32 = 116;

/// The bytes of the file.
const BYTES: &[u8] = b"abcdef";

/// No call fails.
const NONE: (usize, i32) = (0, 0);

/// Each call, and the number that it gives of a file of six bytes; 0 if it gives none.
const CALLS: [(Call, u64); 4] = [
    (Call::Metadata, 6),
    (Call::SyncData, 0),
    (Call::ReadAt(2, 4), 4),
    (Call::WriteAt(5, 4), 4),
];

/// How a call ended: with a number, or with the system's error of a number.
type Ended = Result<u64, i32>;

/// How many calls were counted, and how many of them failed.
type Counted = (u64, u64);

/// What makes a call on the file.
#[derive(Clone, Copy)]
enum Layer {
    /// Somebody else, without the server.
    Others,
    Watched,
    /// A watched file whose calls are counted.
    Counted,
    /// The same, after it was given up.
    GivenUp,
}

/// A file, and what is kept of it.
#[derive(Drop)]
struct Bench {
    file: FakeFile,
    counters: TenantCounters,
    state: FileState,
}

impl Bench {
    /// Makes a file of which the call of this number fails with this error.
    fn new(failing: (usize, i32)) -> Self {
        Bench {
            file: FakeFile::new(BYTES, failing),
            counters: TenantCounters::new(),
            state: FileState::new(false),
        }
    }

    /// Makes a call by a layer.
    fn make<'x, R: Clock>(&'x self, rt: &'x R, layer: Layer, call: Call) -> Ended {
        let mut file = &self.file;
        let made = match (layer, call) {
            (Layer::Others, Call::SetLen(size)) => file.set_len(size).map(|()| 0),
            (Layer::Others, call) => make(&mut file, call),
            (Layer::Watched, call) => {
                make(&mut WatchedFile::new(file, &self.state, rt, None), call)
            }
            (Layer::Counted | Layer::GivenUp, call) => {
                make(
                    &mut WatchedFile::new(file, &self.state, rt, Some(&self.counters)),
                    call,
                )
            }
        };
        made.map_err(number_of)
    }

    /// Gives the last error that is kept, 0 if there is none.
    fn last(&self) -> i32 {
        match self.state.last_error().error() {
            Some(error) => number_of(error),
            None => 0,
        }
    }

    /// Tells whether just these calls were counted: reads, writes and syncs.
    fn has_counted(&self, wanted: [Counted; 3]) -> bool {
        let counts = self.counters.counts();
        let [reads, writes, syncs] = wanted;
        counted(&counts.read) == reads
            && counted(&counts.write) == writes
            && counted(&counts.sync) == syncs
    }
}

/// Gives the number of the system's error.
fn number_of(error: io::Error) -> i32 {
    error.raw_os_error().unwrap_or(0)
}

/// Gives how many calls were counted, and how many failed.
fn counted(figures: &CallFigures) -> Counted {
    let mut calls = 0u64;
    for count in &figures.time.counts {
        calls = calls.saturating_add(*count);
    }
    (calls, figures.failures)
}

/// Makes this call on a file, which has no call that sets a length or syncs all. It reads or writes at most four bytes.
fn make<F: DiskFile>(file: &mut F, call: Call) -> io::Result<u64> {
    let mut room = *b"wxyz";
    match call {
        Call::Metadata => return Ok(file.told()?.len()),
        Call::SetLen(_) | Call::SyncAll => return Err(io::Error::from(ErrorKind::Unsupported)),
        Call::SyncData => file.sync_once()?,
        Call::ReadAt(at, len) => {
            file.read_all(&mut room[..len.min(4)], at)?;
            return Ok(len as u64);
        }
        Call::WriteAt(at, len) => {
            file.write_all(&room[..len.min(4)], at)?;
            return Ok(len as u64);
        }
    }
    Ok(0)
}

/// Calls on a new file, each alone, by a layer. The call below fails with this error, if it isn't 0.
static CASES: [(&str, Layer, i32); 8] = [
    ("watched", Layer::Watched, 0),
    ("watched, and the device fails", Layer::Watched, DEVICE),
    (
        "watched, and the call is interrupted",
        Layer::Watched,
        INTERRUPTED,
    ),
    ("counted", Layer::Counted, 0),
    ("counted, and the device fails", Layer::Counted, DEVICE),
    (
        "counted, and the call is interrupted",
        Layer::Counted,
        INTERRUPTED,
    ),
    ("given up", Layer::GivenUp, 0),
    ("given up, and the device fails", Layer::GivenUp, DEVICE),
];

/// What is counted of one such call, with this failure.
fn once(call: Call, failures: u64) -> [Counted; 3] {
    let one = (1, failures);
    match call {
        Call::ReadAt(..) => [one, (0, 0), (0, 0)],
        Call::WriteAt(..) => [(0, 0), one, (0, 0)],
        Call::SyncAll | Call::SyncData => [(0, 0), (0, 0), one],
        Call::Metadata | Call::SetLen(_) => [(0, 0); 3],
    }
}

/// What a call must come to.
#[derive(Clone, Copy)]
struct Wanted {
    ended: Ended,
    /// How many calls of the file it is.
    made: usize,
    /// The last error that is kept.
    last: i32,
    counted: [Counted; 3],
}

/// Tells whether a call goes on by one more after this error.
fn goes_on(call: Call, error: i32) -> bool {
    match call {
        Call::ReadAt(..) | Call::WriteAt(..) => error == INTERRUPTED,
        _ => false,
    }
}

/// Gives what a call must come to whose first call of the file fails with this error, if it isn't 0, and that gives this
/// number if it goes well. A call that was interrupted is made again: it is no failure.
fn wanted_after(error: i32, call: Call, number: u64) -> Wanted {
    let is_longer = goes_on(call, error);
    let has_failed = error == DEVICE;
    Wanted {
        ended: if is_longer || error == 0 {
            Ok(number)
        } else {
            Err(error)
        },
        made: if is_longer { 2 } else { 1 },
        last: if has_failed { DEVICE } else { 0 },
        counted: once(call, u64::from(has_failed)),
    }
}

/// Gives what such a call by this layer must come to.
fn wanted_by(layer: Layer, error: i32, call: Call, number: u64) -> Wanted {
    let mut wanted = wanted_after(error, call, number);
    match layer {
        Layer::Counted => {}
        Layer::GivenUp => {
            wanted.ended = Err(STALE);
            wanted.made = 0;
            wanted.last = STALE;
            wanted.counted = [(0, 0); 3];
        }
        _ => wanted.counted = [(0, 0); 3],
    }
    wanted
}

/// Tells whether a call that ended so is what it must be.
fn is_as_wanted(bench: &Bench, call: Call, ended: Ended, wanted: &Wanted) -> bool {
    ended == wanted.ended
        && bench.file.has_made(&[call; 2][..wanted.made.min(2)])
        && bench.last() == wanted.last
        && bench.has_counted(wanted.counted)
}

/// Tells whether a call by this layer, which gives this number if it goes well and else this error, is one call of the file,
/// ends as that, and is kept as it must be. A read or a write that was interrupted goes on by one more.
fn is_one_call<R: Clock>(rt: &R, layer: Layer, error: i32, call: Call, number: u64) -> bool {
    let bench = Bench::new((0, error));
    if let Layer::GivenUp = layer {
        bench.state.give_up();
    }
    let ended = bench.make(rt, layer, call);
    is_as_wanted(&bench, call, ended, &wanted_by(layer, error, call, number))
}

/// Gives how many of the calls, from the first on, are one call of the file each, by this layer and with this error.
fn single_calls<R: Clock>(rt: &R, layer: Layer, error: i32) -> usize {
    let mut went = 0usize;
    for (call, number) in CALLS {
        if !is_one_call(rt, layer, error, call, number) {
            return went;
        }
        went = went.saturating_add(1);
    }
    went
}

#[test]
fn each_call_is_one_call_of_the_file(rt: HostRuntime) {
    for (name, layer, error) in &CASES {
        let went = single_calls(&rt, *layer, *error);
        holds(&rt, name, went, went == CALLS.len());
    }
}

/// A call, how it ends, and after it the size that the file must have, and whether it is known to be replaced.
type Step = (Layer, Call, Ended, u64, bool);

/// Calls on one file of six bytes, one after the other.
struct Row {
    name: &'static str,
    failing: (usize, i32),
    steps: &'static [Step],
    /// The last error that is kept in the end.
    last: i32,
}

static ROWS: [Row; 4] = [
    Row {
        name: "an error is kept after calls that go well",
        failing: (1, DEVICE),
        steps: &[
            (Layer::Watched, Call::SyncData, Ok(0), 0, false),
            (Layer::Watched, Call::SyncData, Err(DEVICE), 0, false),
            (Layer::Watched, Call::Metadata, Ok(6), 6, false),
        ],
        last: DEVICE,
    },
    // The call below the last one fails.
    Row {
        name: "the size that a file must have",
        failing: (8, DEVICE),
        steps: &[
            (Layer::Watched, Call::Metadata, Ok(6), 6, false),
            (Layer::Watched, Call::ReadAt(0, 4), Ok(4), 6, false),
            (Layer::Watched, Call::WriteAt(1, 4), Ok(4), 6, false),
            (Layer::Watched, Call::ReadAt(0, 4), Ok(4), 6, false),
            (Layer::Watched, Call::WriteAt(5, 4), Ok(4), 9, false),
            (Layer::Watched, Call::Metadata, Ok(9), 9, false),
            (Layer::Watched, Call::WriteAt(5, 4), Ok(4), 9, false),
            (Layer::Watched, Call::Metadata, Ok(9), 9, false),
            (Layer::Watched, Call::WriteAt(9, 4), Err(DEVICE), 9, false),
        ],
        last: DEVICE,
    },
    // It stays known even after a write has made the file as long as before.
    Row {
        name: "a file that others cut to two bytes",
        failing: NONE,
        steps: &[
            (Layer::Watched, Call::Metadata, Ok(6), 6, false),
            (Layer::Watched, Call::ReadAt(0, 4), Ok(4), 6, false),
            (Layer::Others, Call::SetLen(2), Ok(0), 6, false),
            (Layer::Watched, Call::SyncData, Ok(0), 6, false),
            (Layer::Watched, Call::Metadata, Err(STALE), 6, true),
            (Layer::Watched, Call::WriteAt(4, 4), Ok(4), 8, true),
            (Layer::Watched, Call::Metadata, Err(STALE), 8, true),
        ],
        last: STALE,
    },
    // A read of the first byte alone shows nothing.
    Row {
        name: "a file in which others write four bytes from the second one on",
        failing: NONE,
        steps: &[
            (Layer::Watched, Call::Metadata, Ok(6), 6, false),
            (Layer::Watched, Call::ReadAt(0, 4), Ok(4), 6, false),
            (Layer::Others, Call::WriteAt(1, 4), Ok(4), 6, false),
            (Layer::Watched, Call::Metadata, Ok(6), 6, false),
            (Layer::Watched, Call::ReadAt(0, 1), Ok(1), 6, false),
            (Layer::Watched, Call::ReadAt(0, 4), Err(STALE), 6, true),
            (Layer::Watched, Call::Metadata, Err(STALE), 6, true),
        ],
        last: STALE,
    },
];

/// Makes the calls of a row. Gives how many of them, from the first on, went as they say.
fn calls_that_went<R: Clock>(rt: &R, row: &Row, bench: &Bench) -> usize {
    let mut went = 0usize;
    for (layer, call, wanted, size, is_known) in row.steps {
        let ended = bench.make(rt, *layer, *call);
        let (seen, was_replaced) = (bench.state.seen().size, bench.state.was_replaced());
        if ended != *wanted || seen != *size || was_replaced != *is_known {
            return went;
        }
        went = went.saturating_add(1);
    }
    went
}

/// Makes the calls of a row on a file of its own. Gives how many went as they say, and the last error that is kept.
fn played<R: Clock>(rt: &R, row: &Row) -> (usize, i32) {
    let bench = Bench::new(row.failing);
    (calls_that_went(rt, row, &bench), bench.last())
}

#[test]
fn what_is_kept_of_calls(rt: HostRuntime) {
    for row in &ROWS {
        let (went, last) = played(&rt, row);
        let is_right = went == row.steps.len() && last == row.last;
        holds(&rt, row.name, went, is_right);
    }
}

/// How the first call of a file fails, which calls a disk makes for a sync then, and how many faults it counts.
static SYNCS: [(&str, i32, &[Call], u64); 3] = [
    ("a sync that goes well", 0, &[Call::SyncData], 0),
    (
        "a sync that is interrupted",
        INTERRUPTED,
        &[Call::SyncData, Call::SyncData],
        0,
    ),
    ("a sync that fails", DEVICE, &[Call::SyncData], 1),
];

/// Tells whether a disk over this file makes these calls for a sync, and counts so many faults.
fn syncs<F: DiskFile + Drop>(
    disk: FileDisk<F>,
    file: &FakeFile,
    calls: &[Call],
    faults: u64,
) -> bool {
    let mut disk = disk;
    let is_synced = disk.sync().is_ok() == (faults == 0);
    is_synced && disk.faults() == faults && file.has_made(calls)
}

/// Tells whether a disk over a file whose first call fails with this error makes these calls for a sync, and counts so many
/// faults.
fn syncs_alone(error: i32, calls: &[Call], faults: u64) -> bool {
    let bench = Bench::new((0, error));
    syncs(FileDisk::new(&bench.file), &bench.file, calls, faults)
}

/// Tells whether a disk over this watched file does so.
fn syncs_by<'x, R: Clock>(bench: &'x Bench, rt: &'x R, calls: &[Call], faults: u64) -> bool {
    let file = WatchedFile::new(&bench.file, &bench.state, rt, None);
    syncs(FileDisk::new(file), &bench.file, calls, faults)
}

/// Tells whether a disk over such a file that is watched does so.
fn syncs_watched<R: Clock>(rt: &R, error: i32, calls: &[Call], faults: u64) -> bool {
    let bench = Bench::new((0, error));
    syncs_by(&bench, rt, calls, faults)
}

#[test]
fn a_disk_syncs_its_file(rt: HostRuntime) {
    for (name, error, calls, faults) in &SYNCS {
        let alone = syncs_alone(*error, calls, *faults);
        let watched = syncs_watched(&rt, *error, calls, *faults);
        holds(&rt, name, calls.len(), alone && watched);
    }
}
