//! Runs a whole load: reads the words, lets the clients work, reads the words again, and prints the result.
//!
//! `mwbench` calls `load`. docs/BENCH tells what it prints and its statuses, and scripts/program_parts/beside.py
//! expects a text: change them together.
use crate::client::{Asker, Stop, Task};
use crate::command_line::{Settings, command_line, read_args};
use crate::crowd::{Board, Done, Tally, work_all};
use crate::report::{report, report_json};
use crate::sums::are_sums;
use mw_client::{Failure, SocketClient, connect};
use std::alloc::{AllocError, Global};
use std::io::{self, Write};
use std::net::{Net, TcpStream};
use std::sync::{Mutex, Wait};
use std::thread::Threads;
use std::time::{Clock, Duration};

/// How many seconds it waits for a reply.
const PATIENCE: u64 = 10;

/// Tells why there are no figures.
#[derive(Drop)]
enum LoadFault {
    /// A client couldn't begin, or a word couldn't be read.
    Client(Failure),
    /// The tenant has fewer words than the clients need.
    FewWords,
    /// A client stopped before its time.
    Stopped(Stop),
    /// A thread couldn't be started, or memory was refused.
    Memory,
    /// The output failed.
    Output,
}

/// Runs the load that the command line `args` asks for. Its first argument is the program's own name. It
/// writes a line a second to `out`, and at the end how many replies of each kind came, how long they took,
/// and how many changes and reads a second there were; with `--json` only this, as one JSON object in one
/// line. Then it checks whether each word is its old value plus the number of replies `YES` to changes of it.
///
/// Gives the exit status: 0 if the words are so, 1 if they aren't or something failed, 2 for a wrong
/// command line. It writes what went wrong to `err`.
pub fn load<
    R: Net<Stream = TcpStream> + Threads + Wait + Clock + AllocGlobal + Sync,
    O: Write,
    E: Write,
>(rt: &R, args: &[String], out: &mut O, err: &mut E) -> u8 {
    let settings = match read_args(rt.alloc(), args) {
        Ok(settings) => settings,
        Err(fault) => return command_line().tell(&fault, out, err),
    };
    let told = match run(rt, &settings, out) {
        Ok(true) => return 0,
        Ok(false) => "the words are not the sums of the replies YES",
        Err(fault) => fault.text(),
    };
    let _ = writeln!(err, "mwbench: {told}");
    1
}

/// Runs the load. Gives whether the words are right afterwards.
fn run<R: Net<Stream = TcpStream> + Threads + Wait + Clock + AllocGlobal + Sync, O: Write>(
    rt: &R,
    settings: &Settings,
    out: &mut O,
) -> Result<bool, LoadFault> {
    let count = words_needed(settings);
    let before = look(rt, settings, count)?;
    let tally = work_and_report(rt, settings, &before, out)?;
    let after = look(rt, settings, count)?;
    Ok(are_sums(&before, &after, &tally.done))
}

/// Lets the clients work, whose words had these values at first, and writes what they did. Gives it.
fn work_and_report<
    R: Net<Stream = TcpStream> + Threads + Wait + Clock + AllocGlobal + Sync,
    O: Write,
>(rt: &R, settings: &Settings, before: &[u64], out: &mut O) -> Result<Tally, LoadFault> {
    let tally = Mutex::new(Tally::new(rt.alloc(), settings)?);
    work_together(rt, settings, before, &tally, out)?;
    let tally = tally.into_inner();
    match write_all(&tally, settings, out) {
        Ok(()) => Ok(tally),
        Err(fault) => Err(fault),
    }
}

/// Lets the clients work, whose words had these values at first. They add what they did to `tally`.
fn work_together<
    R: Net<Stream = TcpStream> + Threads + Wait + Clock + AllocGlobal + Sync,
    O: Write,
>(
    rt: &R,
    settings: &Settings,
    before: &[u64],
    tally: &Mutex<Tally>,
    out: &mut O,
) -> Result<(), LoadFault> {
    let askers = begin_all(rt, settings, before)?;
    work_all(rt, askers, &Board::new(), tally, settings, out)?;
    Ok(())
}

/// Writes what all clients have done.
fn write_all<O: Write>(tally: &Tally, settings: &Settings, out: &mut O) -> Result<(), LoadFault> {
    if tally.done.len() != usize::from(settings.clients) {
        return Err(LoadFault::Memory);
    }
    if settings.json {
        report_json(tally, settings.seconds, out)?;
    } else {
        report(tally, settings.seconds, out)?;
    }
    match first_stop(&tally.done) {
        Some(stop) => Err(LoadFault::Stopped(stop)),
        None => Ok(()),
    }
}

/// Gives how many words the clients change.
fn words_needed(settings: &Settings) -> u16 {
    if settings.shared {
        settings.words
    } else {
        settings.words.saturating_mul(settings.clients)
    }
}

/// Begins a session for the tenant.
fn begin<R: Net<Stream = TcpStream> + AllocGlobal>(
    rt: &R,
    settings: &Settings,
) -> Result<SocketClient, Failure> {
    let (address, patience) = (settings.address.as_str(), Duration::from_secs(PATIENCE));
    connect(rt, rt.alloc(), address, &settings.tenant, patience)
}

/// Reads the first words, one by one.
fn look<R: Net<Stream = TcpStream> + AllocGlobal>(
    rt: &R,
    settings: &Settings,
    count: u16,
) -> Result<Vec<u64>, LoadFault> {
    let mut client = begin(rt, settings)?;
    if client.words < count {
        return Err(LoadFault::FewWords);
    }
    words_of(rt.alloc(), &mut client, count)
}

/// Reads the first words by this client.
fn words_of(alloc: Global, client: &mut SocketClient, count: u16) -> Result<Vec<u64>, LoadFault> {
    let mut values = Vec::with_capacity(alloc, usize::from(count))?;
    for address in 0..count {
        keep(&mut values, client.get(address)?)?;
    }
    Ok(values)
}

/// Makes the clients, each with the values of its words at first.
fn begin_all<R: Net<Stream = TcpStream> + AllocGlobal>(
    rt: &R,
    settings: &Settings,
    before: &[u64],
) -> Result<Vec<Asker>, LoadFault> {
    let mut askers = Vec::with_capacity(rt.alloc(), usize::from(settings.clients))?;
    for number in 0..settings.clients {
        keep(&mut askers, begin_asker(rt, settings, before, number)?)?;
    }
    Ok(askers)
}

/// Makes the client of this number.
fn begin_asker<R: Net<Stream = TcpStream> + AllocGlobal>(
    rt: &R,
    settings: &Settings,
    before: &[u64],
    number: u16,
) -> Result<Asker, LoadFault> {
    let task = task_of(settings, number);
    let bases = bases_of(rt.alloc(), task, before)?;
    let client = begin(rt, settings)?;
    Ok(Asker::new(rt.alloc(), client, task, bases, u64::from(number))?)
}

/// Copies the values of a client's words from those of all words.
fn bases_of(alloc: Global, task: Task, before: &[u64]) -> Result<Vec<u64>, AllocError> {
    let first = usize::from(task.first);
    match before.get(first..first + usize::from(task.words)) {
        Some(bases) => Vec::from_slice(alloc, bases),
        None => Ok(Vec::new(alloc)),
    }
}

/// Appends one more to the others.
fn keep<T: Drop>(all: &mut Vec<T>, one: T) -> Result<(), LoadFault> {
    match all.push(one) {
        Ok(()) => Ok(()),
        Err(_) => Err(LoadFault::Memory),
    }
}

/// Gives what the client of this number must do.
fn task_of(settings: &Settings, number: u16) -> Task {
    Task {
        first: if settings.shared {
            0
        } else {
            settings.words.saturating_mul(number)
        },
        words: settings.words,
        reads: settings.reads,
        pipeline: settings.pipeline,
    }
}

/// Gives why a client stopped before its time, if one did.
fn first_stop(done: &[Done]) -> Option<Stop> {
    for one in done {
        if one.stop.is_some() {
            return one.stop;
        }
    }
    None
}

impl LoadFault {
    /// Gives the text of the fault.
    fn text(&self) -> &'static str {
        match self {
            LoadFault::Client(failure) => failure_text(*failure),
            LoadFault::FewWords => "the tenant has too few words for so many clients",
            LoadFault::Stopped(stop) => stop_text(*stop),
            LoadFault::Memory => "memory",
            LoadFault::Output => "cannot write",
        }
    }
}

/// Gives the text for a client that couldn't begin, or a word that couldn't be read.
fn failure_text(failure: Failure) -> &'static str {
    match failure {
        Failure::Argument => "that is no tenant's name",
        Failure::Refused(_) => "the server has no such tenant",
        Failure::Fault => "the tenant's file has failed",
        Failure::Worn => "the server has to be started again",
        _ => "no server answers there, or it has too few workers",
    }
}

/// Gives the text for a client that stopped before its time.
fn stop_text(stop: Stop) -> &'static str {
    match stop {
        Stop::Lost => "the connection of a client was lost",
        Stop::Fault => "the tenant's file has failed",
        Stop::Worn => "the server has to be started again",
        Stop::Refused => "the server refused a line",
        Stop::Here => "memory",
    }
}

impl From<Failure> for LoadFault {
    fn from(failure: Failure) -> Self {
        LoadFault::Client(failure)
    }
}

impl From<AllocError> for LoadFault {
    fn from(_: AllocError) -> Self {
        LoadFault::Memory
    }
}

impl From<io::Error> for LoadFault {
    fn from(_: io::Error) -> Self {
        LoadFault::Output
    }
}
