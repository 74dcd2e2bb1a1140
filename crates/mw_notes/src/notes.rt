//! Writes notes for whoever runs the server, each on a line of its own.
//!
//! Used by: mw_opening, mw_upkeep, mw_server, mw_programs. It has no contracts. docs/OPERATING tells the limits at
//! the top, and scripts/check-limits tries one.

use arrayvec::ArrayVec;
use jiff::Timestamp;
use log::kv::Source;
use log::span::Spans;
use log::{Level, Log, Metadata, Record, error, info};
use std::fmt::Display;
use std::io::{self, ErrorKind, Write};
use std::sync::{Mutex, Wait};
use std::thread;
use std::time::{Clock, Duration};

/// How many bytes of notes may wait for room in the writer.
const MAX_WAITING: usize = 4096;

/// The most bytes before a note: its level, and the time.
const MAX_FRONT: usize = 40;

/// How often the last notes are tried, and how long the pauses between are, in milliseconds.
const TRIES: u32 = 100;

const PAUSE: u64 = 10;

/// How notes are written.
#[derive(Clone, Copy)]
pub struct NoteForm {
    /// Whether what is said at [`Level::Info`] is written too.
    pub verbose: bool,
    /// Whether each note begins with its level, as the journal of systemd reads it.
    pub levels: bool,
    /// Whether each note begins with the time in UTC, by RFC 3339. It comes after the level.
    pub times: bool,
}

/// A log that writes each note on a line of its own, with nothing but what its form puts before it. Many threads may write to
/// it.
///
/// It always writes errors and warnings. It writes what is said at [`Level::Info`] only if it is verbose.
///
/// It waits for nobody if its writer doesn't. What the writer doesn't take waits here, in order, for the next note, the next
/// flush or the end. A note for which there is no room is not written, and a line tells later how many were not. What a writer
/// refuses for good is dropped.
#[derive(Drop)]
pub struct Notes<'a, W, R> {
    rt: &'a R,
    out: Mutex<Outlet<'a, W>>,
    form: NoteForm,
}

/// What is written before a note.
type Front = ArrayVec<u8, MAX_FRONT>;

/// A writer, and what it hasn't taken yet.
#[derive(Drop)]
struct Outlet<'a, W> {
    out: &'a mut W,
    waiting: ArrayVec<u8, MAX_WAITING>,
    /// How many notes were not written since this was told.
    unwritten: u64,
}

impl<W: Write> Outlet<'_, W> {
    /// Puts a note after those that wait, or counts it if there is no room. `front` is for the note, `warning` for a line on
    /// those that were not written.
    fn add<D: Display>(&mut self, front: &Front, warning: &Front, note: &D) {
        self.tell_unwritten(warning);
        let before = self.waiting.len();
        let is_put = self.unwritten == 0
            && self.waiting.write_all(front).is_ok()
            && writeln!(self.waiting, "{note}").is_ok();
        if !is_put {
            self.waiting.truncate(before);
            self.unwritten = self.unwritten.saturating_add(1);
        }
    }

    /// Tells how many notes were not written, if some were not and there is room to tell it.
    fn tell_unwritten(&mut self, warning: &Front) {
        let count = self.unwritten;
        if count == 0 {
            return;
        }
        let before = self.waiting.len();
        let is_told = self.waiting.write_all(warning).is_ok()
            && writeln!(self.waiting, "mwserve: {count} notes were not written").is_ok();
        if is_told {
            self.unwritten = 0;
        } else {
            self.waiting.truncate(before);
        }
    }

    /// Writes what waits, as far as the writer takes it now. Tells whether nothing is left.
    fn write_out(&mut self) -> bool {
        for _ in 0..MAX_WAITING {
            if self.waiting.is_empty() {
                return true;
            }
            match self.out.write(&self.waiting) {
                Ok(taken) if taken > 0 => drop(self.waiting.drain(..taken)),
                Err(fault) if is_for_now(&fault) => return false,
                // It takes no more, now or later.
                _ => self.waiting.clear(),
            }
        }
        self.waiting.is_empty()
    }

    /// Writes what waits, and how many notes were not written. Tells whether nothing is left.
    fn flush(&mut self, warning: &Front) -> bool {
        self.write_out();
        self.tell_unwritten(warning);
        self.write_out() && self.unwritten == 0
    }
}

/// Tells whether a write failed only because the writer takes nothing at the moment.
fn is_for_now(fault: &io::Error) -> bool {
    matches!(fault.kind(), ErrorKind::WouldBlock | ErrorKind::Interrupted)
}

/// Gives the number of a level in brackets, as syslog counts levels.
fn level_text(level: Level) -> &'static [u8] {
    match level {
        Level::Error => b"<3>",
        Level::Warn => b"<4>",
        _ => b"<6>",
    }
}

impl<'a, W: Write, R: Wait> Notes<'a, W, R> {
    /// Makes a log over a writer, which writes notes in this form.
    pub fn new(rt: &'a R, out: &'a mut W, form: NoteForm) -> Self {
        Notes {
            rt,
            out: Mutex::new(Outlet {
                out,
                waiting: ArrayVec::new(),
                unwritten: 0,
            }),
            form,
        }
    }
}

impl<W: Write, R: Wait + Clock> Notes<'_, W, R> {
    /// Gives what is written before a note of this level. If the system doesn't tell the time, it is left out.
    fn front(&self, level: Level) -> Front {
        let mut front = Front::new();
        if self.form.levels {
            let _ = front.write_all(level_text(level));
        }
        if self.form.times {
            if let Ok(now) = Timestamp::now(self.rt) {
                let _ = write!(front, "{now:.3} ");
            }
        }
        front
    }

    /// Writes the notes that wait. If the writer doesn't take them, it is tried for a second.
    pub fn finish(&self) {
        for _ in 0..TRIES {
            let warning = self.front(Level::Warn);
            if self.out.lock(self.rt).flush(&warning) {
                return;
            }
            thread::sleep(self.rt, Duration::from_millis(PAUSE));
        }
    }
}

impl<W: Write, R: Wait + Clock> Log for Notes<'_, W, R> {
    fn enabled(&self, metadata: &Metadata<'_>) -> bool {
        self.form.verbose || matches!(metadata.level(), Level::Error | Level::Warn)
    }

    fn log<D: Display, K: Source, S: Spans>(&self, record: &Record<'_, D, K, S>) {
        if self.enabled(record.metadata()) {
            let front = self.front(record.metadata().level());
            let warning = self.front(Level::Warn);
            let mut out = self.out.lock(self.rt);
            out.write_out();
            out.add(&front, &warning, record.args());
            out.write_out();
        }
    }

    fn flush(&self) {
        let warning = self.front(Level::Warn);
        self.out.lock(self.rt).flush(&warning);
    }

    fn target(&self) -> &str {
        ""
    }
}

/// Writes, at [`Level::Info`], which file or address a note is about.
pub fn note_place<L: Log>(notes: &L, place: &str) {
    info!(notes; "{place}");
}

/// Writes, at [`Level::Info`], which file or address a note is about, and the cause.
pub fn note_cause<L: Log, C: Display>(notes: &L, place: &str, cause: &C) {
    info!(notes; "{place}: {cause}");
}

/// Writes, at [`Level::Error`], why the file or address at this place isn't served: these words, and the cause.
pub fn note_why<L: Log, C: Display>(notes: &L, place: &str, words: &str, cause: &C) {
    error!(notes; "{place}: {words}{cause}");
}
