//! Runs all clients of a load, each in a thread of its own, and writes once a second what they did.
//!
//! Used by: `sums`, `run`, `report`. It has no contracts.
use crate::client::{Asker, Counts, Stop, Task};
use crate::command_line::Settings;
use crate::replies::Replies;
use crate::report::write_filled;
use std::alloc::{AllocError, Global};
use std::io::Write;
use std::sync::atomic::{AtomicBool, AtomicU64, Ordering};
use std::sync::{Mutex, Wait};
use std::thread::Threads;
use std::time::{Clock, Duration};
use std::{io, thread};

/// What all clients have done so far. Others may read it meanwhile.
#[derive(Drop)]
pub struct Board {
    made: AtomicU64,
    read: AtomicU64,
    refused: AtomicU64,
    over: AtomicBool,
}

impl Board {
    /// Makes a board before anything is done.
    pub fn new() -> Board {
        Board {
            made: AtomicU64::new(0),
            read: AtomicU64::new(0),
            refused: AtomicU64::new(0),
            over: AtomicBool::new(false),
        }
    }

    /// Gives what was done so far.
    pub fn counts(&self) -> Counts {
        Counts {
            made: self.made.load(Ordering::SeqCst),
            read: self.read.load(Ordering::SeqCst),
            refused: self.refused.load(Ordering::SeqCst),
        }
    }

    /// Ends the work: no client begins another round after this.
    pub fn end(&self) {
        self.over.store(true, Ordering::SeqCst);
    }

    fn is_over(&self) -> bool {
        self.over.load(Ordering::SeqCst)
    }

    fn add(&self, before: Counts, now: Counts) {
        let made = now.made.saturating_sub(before.made);
        let read = now.read.saturating_sub(before.read);
        let refused = now.refused.saturating_sub(before.refused);
        let _ = self.made.fetch_add(made, Ordering::SeqCst);
        let _ = self.read.fetch_add(read, Ordering::SeqCst);
        let _ = self.refused.fetch_add(refused, Ordering::SeqCst);
    }
}

/// What one client has done.
#[derive(Drop)]
pub struct Done {
    /// What it had to do.
    pub task: Task,
    /// Which replies came.
    pub counts: Counts,
    /// Why it stopped before its time, if it did.
    pub stop: Option<Stop>,
}

/// What all clients have done that have ended.
#[derive(Drop)]
pub struct Tally {
    /// How long all their replies took, by kind.
    pub replies: Replies,
    /// What each of them has done.
    pub done: Vec<Done>,
}

impl Tally {
    /// Makes the tally before any client has ended, with room for all.
    ///
    /// # Errors
    ///
    /// Memory was refused.
    pub fn new(alloc: Global, settings: &Settings) -> Result<Tally, AllocError> {
        Ok(Tally {
            replies: Replies::new(alloc)?,
            done: Vec::with_capacity(alloc, usize::from(settings.clients))?,
        })
    }

    /// Adds what a client has done, and why it stopped before its time, if it did.
    fn add(&mut self, asker: &Asker, stop: Option<Stop>) {
        self.replies.add(&asker.replies);
        // There is room for all clients. If there were none, this client would be missing at the end.
        let _ = self.done.push(Done {
            task: asker.task,
            counts: asker.counts,
            stop,
        });
    }
}

/// Works until it is told to end or can't go on, and then adds to the tally what it did.
fn work<R: Wait + Clock>(rt: &R, asker: Asker, board: &Board, tally: &Mutex<Tally>) {
    let mut asker = asker;
    let stop = work_on(rt, &mut asker, board);
    tally.lock(rt).add(&asker, stop);
}

fn work_on<R: Wait + Clock>(rt: &R, asker: &mut Asker, board: &Board) -> Option<Stop> {
    for _ in rt.forever() {
        if board.is_over() {
            return None;
        }
        let before = asker.counts;
        let went = asker.round(rt);
        board.add(before, asker.counts);
        if let Err(stop) = went {
            return Some(stop);
        }
        asker.pause(rt);
    }
    unreachable!()
}

/// Lets the clients work for as many seconds as the settings say, and writes a line at the end of each second,
/// but none with `--json`. Returns when all clients have ended.
///
/// # Errors
///
/// `out` failed. The clients worked on to the end.
pub fn work_all<R: Threads + Wait + Clock + Sync, O: Write>(
    rt: &R,
    askers: Vec<Asker>,
    board: &Board,
    tally: &Mutex<Tally>,
    settings: &Settings,
    out: &mut O,
) -> io::Result<()> {
    thread::scope(thread::scope_env(), rt, |scope| -> io::Result<()> {
        for asker in askers {
            // A client that has no thread is missing at the end.
            let _ = scope.spawn(move || work(rt, asker, board, tally));
        }
        let told = tell_seconds(rt, board, settings, out);
        board.end();
        told
    })
}

/// Waits for as many seconds as the settings say. At the end of each it writes what was done in it, but not with
/// `--json`.
fn tell_seconds<K: Clock, O: Write>(
    clock: &K,
    board: &Board,
    settings: &Settings,
    out: &mut O,
) -> io::Result<()> {
    let mut before = board.counts();
    let mut told = Ok(());
    for second in 1..=settings.seconds {
        thread::sleep(clock, Duration::from_secs(1));
        let now = board.counts();
        if told.is_ok() && !settings.json {
            told = tell_second(second, before, now, out);
        }
        before = now;
    }
    told
}

fn tell_second<O: Write>(second: u64, before: Counts, now: Counts, out: &mut O) -> io::Result<()> {
    let made = now.made.saturating_sub(before.made);
    let read = now.read.saturating_sub(before.read);
    let refused = now.refused.saturating_sub(before.refused);
    let text = "second #: # changes, # reads, # refusals\n";
    write_filled(text, &[second, made, read, refused], out)
}
