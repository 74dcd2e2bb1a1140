//! Tests how often it is noted that there is no room for connections.
use crate::checks::holds;
use log::kv::Source;
use log::span::Spans;
use log::{Level, Log, Metadata, Record};
use mw_connections::RoomWatch;
use mw_upkeep::RoomNotes;
use std::fmt::Display;
use std::io::{self, ErrorKind};
use std::process::Abort;
use std::sync::Wait;
use std::sync::atomic::{AtomicU64, Ordering};
use std::time::{Clock, Instant};

/// How often connections find no room.
const TIMES: u32 = 1000;

/// A log that counts warnings.
#[derive(Drop)]
struct CountingLog(AtomicU64);

impl Log for CountingLog {
    fn enabled(&self, _: &Metadata<'_>) -> bool {
        true
    }

    fn log<D: Display, K: Source, S: Spans>(&self, record: &Record<'_, D, K, S>) {
        if record.metadata().level() == Level::Warn {
            self.0.fetch_add(1, Ordering::SeqCst);
        }
    }

    fn flush(&self) {}

    fn target(&self) -> &str {
        ""
    }
}

/// Counts the notes when there is no room so often, and gives also the whole seconds that it took.
fn notes_of<R: Wait + Clock>(rt: &R, times: u32) -> io::Result<(u64, u64)> {
    let log = CountingLog(AtomicU64::new(0));
    let notes = RoomNotes::new(rt, &log, "an address");
    let begun = Instant::now(rt)?;
    for _ in 0..times {
        notes.no_room(&io::Error::from(ErrorKind::Other));
    }
    let took = Instant::now(rt)?.duration_since(begun);
    Ok((log.0.load(Ordering::SeqCst), took.as_secs()))
}

/// Tells whether there was a note, and no more than one a second.
fn is_paced(counted: io::Result<(u64, u64)>) -> bool {
    match counted {
        Ok((notes, seconds)) => 1 <= notes && notes <= seconds.saturating_add(1),
        Err(_) => false,
    }
}

/// At the first connection without room there is a note, and then at most one a second.
fn has_pace<R: Abort + Wait + Clock>(rt: &R) {
    holds(rt, "a note on room", 1, is_paced(notes_of(rt, 1)));
    holds(
        rt,
        "notes on room",
        TIMES as usize,
        is_paced(notes_of(rt, TIMES)),
    );
}

#[test]
fn notes_on_room_keep_a_pace(rt: HostRuntime) {
    has_pace(&rt);
}
