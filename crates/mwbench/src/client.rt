//! One client of a load: it sends lines, reads the replies to them, and counts what they say.
//!
//! Used by: `crowd`, which runs each in a thread; `run`. It has no contracts.
use crate::command_line::MAX_PIPELINE;
use crate::replies::Replies;
use arrayvec::ArrayVec;
use mw_client::{Pauses, SocketClient, next_reply, request_text};
use mw_line::{Request, Say};
use mw_words::{Entries, Entry, Job, MAX_VALUE, MAX_WORDS, Reply};
use rand_core::{Rng, SeedableRng};
use rand_xoshiro::Xoshiro256PlusPlus;
use std::alloc::{AllocError, Global};
use std::io::Write;
use std::time::{Clock, Duration, Instant};

/// What one client must do.
#[derive(Clone, Copy)]
pub struct Task {
    /// The address of its first word.
    pub first: u16,
    /// How many words it has.
    pub words: u16,
    /// How many of a hundred requests are reads.
    pub reads: u64,
    /// How many lines it sends before it reads their replies.
    pub pipeline: u16,
}

/// Tells why a client stopped before its time.
#[derive(Clone, Copy, PartialEq, Eq)]
pub enum Stop {
    /// The connection ended or broke, or what came was no reply to what was asked.
    Lost,
    /// The tenant's file has failed.
    Fault,
    /// A number of the server is used up.
    Worn,
    /// The server refused a line.
    Refused,
    /// Memory was refused, the clock can't be read, or no tenant can have an address.
    Here,
}

/// How many replies came, by what they said.
#[derive(Clone, Copy)]
pub struct Counts {
    /// Changes that were made.
    pub made: u64,
    /// Words that were read.
    pub read: u64,
    /// Changes that weren't made, because a word had changed or the server was busy.
    pub refused: u64,
}

/// What a line asked for: a change that expects each word to have been changed so many times. None: the value of a word.
type Asked = Option<u64>;

/// A client at work, with what it knows.
#[derive(Drop)]
pub struct Asker {
    client: SocketClient,
    /// What it must do.
    pub task: Task,
    /// The values of its words at first.
    bases: Vec<u64>,
    /// How many times they have been changed since, as far as it knows.
    changed: u64,
    dice: Xoshiro256PlusPlus,
    /// The lines that are sent together.
    lines: Vec<u8>,
    /// Which replies came so far.
    pub counts: Counts,
    /// How long they took.
    pub replies: Replies,
    /// Whether a reply of the last round was `BUSY`.
    is_busy: bool,
    /// The pauses since then, if so.
    pauses: Option<Pauses>,
}

impl Asker {
    /// Makes a client whose words had these values at first.
    ///
    /// # Errors
    ///
    /// Memory was refused.
    pub fn new(
        alloc: Global,
        client: SocketClient,
        task: Task,
        bases: Vec<u64>,
        seed: u64,
    ) -> Result<Asker, AllocError> {
        Ok(Asker {
            client,
            task,
            bases,
            changed: 0,
            dice: Xoshiro256PlusPlus::seed_from_u64(seed),
            lines: Vec::new(alloc),
            counts: Counts::none(),
            replies: Replies::new(alloc)?,
            is_busy: false,
            pauses: None,
        })
    }

    /// Sends as many lines as go together, and reads the replies to all of them.
    ///
    /// # Errors
    ///
    /// Why it can't go on. What was counted stays counted.
    pub fn round<K: Clock>(&mut self, clock: &K) -> Result<(), Stop> {
        self.is_busy = false;
        let asked = self.put_lines()?;
        let begun = self.send(clock)?;
        for line in &asked {
            self.hear(clock, begun, *line)?;
        }
        Ok(())
    }

    /// Sends the lines of a round, and gives the time before.
    fn send<K: Clock>(&mut self, clock: &K) -> Result<Instant, Stop> {
        let Ok(begun) = Instant::now(clock) else {
            return Err(Stop::Here);
        };
        match self.client.writer.write_all(&self.lines) {
            Ok(()) => Ok(begun),
            Err(_) => Err(Stop::Lost),
        }
    }

    /// Reads the reply to a line, and counts it.
    fn hear<K: Clock>(&mut self, clock: &K, begun: Instant, asked: Asked) -> Result<(), Stop> {
        let Some(said) = next_reply(&mut self.client.reader) else {
            return Err(Stop::Lost);
        };
        match begun.elapsed(clock) {
            Ok(taken) => self.note(asked, said, nanos_of(taken.as_nanos())),
            Err(_) => Err(Stop::Here),
        }
    }

    /// Waits if the server was busy in the last round, as a client of mw_client does: twice as long each time.
    pub fn pause<K: Clock>(&mut self, clock: &K) {
        if !self.is_busy {
            self.pauses = None;
            return;
        }
        let mut pauses = match self.pauses.take() {
            Some(pauses) => pauses,
            None => Pauses::begin(clock, Duration::MAX),
        };
        let _ = pauses.wait(clock);
        self.pauses = Some(pauses);
    }

    /// Makes the lines of a round, and gives what they ask for.
    fn put_lines(&mut self) -> Result<ArrayVec<Asked, MAX_PIPELINE>, Stop> {
        self.lines.clear();
        let mut asked = ArrayVec::new();
        let mut expected = self.changed;
        for _ in 0..self.task.pipeline {
            if self.dice.next_u64() % 100 < self.task.reads {
                put_job(&mut self.lines, Job::Get(self.task.first))?;
                let _ = asked.try_push(None);
            } else {
                let entries = self.entries(expected);
                put_job(&mut self.lines, Job::Cas(entries))?;
                let _ = asked.try_push(Some(expected));
                expected = expected.saturating_add(1);
            }
        }
        Ok(asked)
    }

    /// Gives the change that adds 1 to each word, if each has been changed so many times.
    fn entries(&self, changed: u64) -> Entries {
        let mut entries = Entries::new();
        for (place, base) in self.bases.iter().enumerate() {
            let expected = base.saturating_add(changed).min(MAX_VALUE);
            let _ = entries.try_push(Entry {
                addr: self
                    .task
                    .first
                    .saturating_add(u16::try_from(place).unwrap_or(u16::MAX)),
                expected,
                new: (expected + 1).min(MAX_VALUE),
            });
        }
        entries
    }

    /// Counts a reply that took so many nanoseconds, and learns from it how many times the words have been
    /// changed.
    fn note(&mut self, asked: Asked, said: Say, nanos: u64) -> Result<(), Stop> {
        self.replies.all.note(nanos);
        match (asked, said) {
            (None, Say::Store(Reply::Val(_))) => {
                self.replies.reads.note(nanos);
                self.counts.read = self.counts.read.saturating_add(1);
                Ok(())
            }
            (Some(expected), Say::Store(Reply::Yes)) => {
                self.replies.yes.note(nanos);
                self.counts.made = self.counts.made.saturating_add(1);
                self.changed = expected.saturating_add(1);
                Ok(())
            }
            (Some(_), Say::Store(Reply::No(addr, value))) => {
                self.replies.no.note(nanos);
                self.counts.refused = self.counts.refused.saturating_add(1);
                self.changed = self.changed_by(addr, value);
                Ok(())
            }
            (Some(_), Say::Store(Reply::Busy)) => {
                self.replies.busy.note(nanos);
                self.is_busy = true;
                self.counts.refused = self.counts.refused.saturating_add(1);
                Ok(())
            }
            (_, other) => Err(stop_of(other)),
        }
    }

    /// Gives how many times the words have been changed, if the one at this address has this value.
    fn changed_by(&self, addr: u16, value: u64) -> u64 {
        let place = usize::from(addr.saturating_sub(self.task.first));
        match self.bases.get(place) {
            Some(base) => value.saturating_sub(*base),
            None => self.changed,
        }
    }
}

impl Counts {
    /// Makes the counts before any reply.
    pub fn none() -> Counts {
        Counts {
            made: 0,
            read: 0,
            refused: 0,
        }
    }
}

/// Appends the line of a job to the others. Stops if memory was refused, or no tenant may ask for it.
fn put_job(lines: &mut Vec<u8>, job: Job) -> Result<(), Stop> {
    if !job.is_well_formed(usize::from(MAX_WORDS)) {
        return Err(Stop::Here);
    }
    match lines.extend_from_slice(&request_text(&Request::Job(job))) {
        Ok(()) => Ok(()),
        Err(_) => Err(Stop::Here),
    }
}

/// Gives why a client stops that got this reply.
fn stop_of(said: Say) -> Stop {
    match said {
        Say::Store(Reply::Fault) => Stop::Fault,
        Say::Store(Reply::Worn) => Stop::Worn,
        Say::Err(_) => Stop::Refused,
        _ => Stop::Lost,
    }
}

/// Gives a number of nanoseconds, at most `u64::MAX`.
fn nanos_of(nanos: u128) -> u64 {
    u64::try_from(nanos).unwrap_or(u64::MAX)
}
