//! The program `mwreplay`: plays a schedule on a simulated world and prints the replies.
//!
//! `mwreplay` calls `replay_args`. The exit statuses are in `specs/Replayed` too, statuses and texts in
//! docs/SCHEDULES; scripts/check-texts, scripts/check-refusals and scripts/program_parts/pages.py expect the texts:
//! change them together.
ghost use Rattle.std.specs.Prelude.{◌≡◌, IfErr, IfOk};
ghost use Rattle.std.specs.Io.KnownBytes.{Keeps};
ghost use Rattle.mw_schedule.specs.Playable.{IsSchedule};
ghost use Rattle.mwreplay.specs.PlayerSteps.{IsSame, ObeysAll, Plays};
ghost use Rattle.mwreplay.specs.Reasons.{IsToldOf};
ghost use Rattle.mwreplay.specs.Replayed.{MayPrint, PrintsAll, Replays, fault_at, halt_of, status_after, status_of};

use crate::player::{PlayFault, Player};
use crate::reasons::Reason;
use mw_main::{Argument, AskedFile, CommandLine, FILE, FLAG, FileFault, open_plain};
use mw_schedule::{Schedule, ScheduleFault, ScheduleLine, broken_rule, read_schedule};
use std::alloc::{AllocError, Global};
use std::fs::File;
use std::io::{self, Read, Write};
use std::rt::Files;
use thiserror::Error;

/// Why a schedule was not played to its end.
#[derive(Debug, Drop, Error)]
enum ReplayFault {
    /// The schedule doesn't exist, may not be read, or a call of the system on it failed, which is told on a second line.
    #[error("mwreplay: cannot read\nmwreplay: {0}")]
    CannotRead(io::Error),
    /// It is a folder, a pipe, a device or a socket.
    #[error("mwreplay: cannot read\nmwreplay: not a plain file")]
    NotPlain,
    /// Memory is out.
    #[error("mwreplay: memory")]
    Memory,
    /// The line with this number is wrong, and none before it. The second line of the text tells what is wrong with it.
    #[error("line {0} wrong\nmwreplay: {1}")]
    Wrong(u64, &'static str),
    /// What the line with this number says can't happen in this state of the world. The second line of the text tells why.
    #[error("line {0} not enabled\nmwreplay: {1}")]
    NotEnabled(u64, Reason),
    /// The request of the line with this number would have a number that a world in memory doesn't give.
    #[error("line {0} last number")]
    LastNumber(u64),
    /// The worker of the line with this number doesn't come to what the line says. The second line of the text tells why.
    #[error("line {0} did not arrive\nmwreplay: {1}")]
    DidNotArrive(u64, Reason),
    /// The output takes no more. It has no message.
    #[error("")]
    Output,
}

impl ReplayFault {
    /// Makes the fault of a halt at the line with this number, for this reason.
    fn at(number: u64, halt: PlayFault, reason: Reason) -> Self
        ensures { result ≡ fault_at number halt reason }
    {
        match halt {
            PlayFault::NotEnabled => ReplayFault::NotEnabled(number, reason),
            PlayFault::LastNumber => ReplayFault::LastNumber(number),
            PlayFault::DidNotArrive => ReplayFault::DidNotArrive(number, reason),
            PlayFault::Memory => ReplayFault::Memory,
            PlayFault::Output => ReplayFault::Output,
        }
    }

    /// The exit status of the fault.
    fn status(&self) -> u8
        ensures { result ≡ status_of self.now }
    {
        match self {
            ReplayFault::CannotRead(_)
            | ReplayFault::NotPlain
            | ReplayFault::Memory
            | ReplayFault::Output => 1,
            ReplayFault::Wrong(_, _) => 2,
            ReplayFault::NotEnabled(_, _) => 3,
            ReplayFault::DidNotArrive(_, _) => 4,
            ReplayFault::LastNumber(_) => 5,
        }
    }
}

impl From<AllocError> for ReplayFault {
    fn from(_: AllocError) -> Self {
        ReplayFault::Memory
    }
}

impl From<FileFault> for ReplayFault {
    fn from(fault: FileFault) -> Self {
        match fault {
            FileFault::System(error) => ReplayFault::from(error),
            FileFault::NotPlain => ReplayFault::NotPlain,
        }
    }
}

impl From<io::Error> for ReplayFault {
    fn from(fault: io::Error) -> Self {
        match fault.kind() {
            io::ErrorKind::OutOfMemory => ReplayFault::Memory,
            _ => ReplayFault::CannotRead(fault),
        }
    }
}

/// The switch that has claims of slots printed.
const TRACE: &str = "trace";

/// What the help ends with.
const AFTER_HELP: &str = "\
Example: mwreplay --trace schedule
Documents: docs/SCHEDULES.md beside README.md, or below /usr/share/doc/mondlexi";

/// The command line of `mwreplay`.
fn command_line() -> CommandLine {
    CommandLine {
        name: "mwreplay",
        about: "Plays a schedule, and prints the replies.",
        arguments: &ARGUMENTS,
        after_help: AFTER_HELP,
    }
}

static ARGUMENTS: [Argument; 2] = [
    Argument {
        name: TRACE,
        help: "also prints each claim of a slot that is won",
        ..FLAG
    },
    Argument {
        help: "the schedule to play",
        ..FILE
    },
];

/// Plays the schedule in the file that the command line `args` names, by [`replay_file`]: `mwreplay [--trace]
/// FILE`. The program's own name comes first. If help or the version is asked for, `out` gets its text.
///
/// Returns the exit status: that of [`replay_file`]; 2 for a wrong command line; 1 if memory was out before the
/// file was opened. For help and the version it is 0, or 1 if `out` failed. What went wrong is written to
/// `err`. The contract of [`replay_file`] says what is played of a file; no contract says which command line
/// asks for what.
pub fn replay_args<R: Files<File = File> + AllocGlobal, O: Write, E: Write>(
    rt: &R,
    args: &[String],
    out: &mut O,
    err: &mut E,
) -> u8 {
    match command_line().read_file(rt.alloc(), TRACE, args, out, err) {
        Ok(AskedFile { path, is_switched }) => replay_file(rt, path, is_switched, out, err),
        Err(status) => status,
    }
}

/// Plays the schedule in the file at `path`, as [`replay`] does, and has its contract.
///
/// Returns the exit status: that of [`replay`], or 1 if the file can't be opened or isn't a plain one; nothing is
/// then written to `out`. What went wrong is written to `err`.
pub fn replay_file<R: Files<File = File> + AllocGlobal, O: Write, E: Write>(
    rt: &R,
    path: &str,
    trace: bool,
    out: &mut O,
    err: &mut E,
) -> u8
    ensures { Replays trace (O.contents out.old) (O.contents out.new) result }
{
    match open_plain(rt, path) {
        Ok(mut file) => replay(rt, &mut file, trace, out, err),
        Err(fault) => tell(&ReplayFault::from(fault), err),
    }
}

/// Reads a schedule from `input`, to its end, and then plays it on a world of its own. Each reply that is
/// handed out is written to `out` as `W NAME REPLY`: the worker, the tenant, and the tenant's reply. With
/// `trace` each claim of a slot that is won is written there as `claim SLOT SEQ NAME`.
///
/// The contract speaks of some schedule. It doesn't say that this is the one that was read: the code hands that
/// one to [`replay_schedule`], whose contract names the schedule that it plays.
///
/// Returns the exit status. 0: the schedule was played to its end. 1: `input` or `out` failed, or memory is
/// out. 2: the schedule has a wrong line, and nothing is played. 3: what a line says can't happen. 4: a line's
/// worker doesn't come to what the line says. 5: a line's request would have the number `2^64 - 1`. What went
/// wrong is written to `err`.
pub fn replay<R: AllocGlobal, I: Read, O: Write, E: Write>(
    rt: &R,
    input: &mut I,
    trace: bool,
    out: &mut O,
    err: &mut E,
) -> u8
    ensures { Replays trace (O.contents out.old) (O.contents out.new) result }
{
    match read(rt.alloc(), input) {
        Ok(schedule) => replay_schedule(rt, schedule, trace, out, err),
        Err(fault) => tell(&fault, err),
    }
}

/// Plays `schedule`, as [`replay`] plays the one that it reads. What is written to `out` is the text of a run
/// of this schedule; or nothing is written, and the status isn't 0.
///
/// Returns the exit status. 0: the schedule was played to its end. 1: `out` failed, or memory is out. 3, 4 and
/// 5 are as in [`replay`]. What went wrong is written to `err`.
pub fn replay_schedule<R: AllocGlobal, O: Write, E: Write>(
    rt: &R,
    schedule: Schedule,
    trace: bool,
    out: &mut O,
    err: &mut E,
) -> u8
    requires { IsSchedule schedule }
    ensures { MayPrint trace schedule (O.contents out.old) (O.contents out.new) result }
{
    match play_schedule(rt.alloc(), schedule, trace, out) {
        Ok(()) => 0,
        Err(fault) => tell(&fault, err),
    }
}

fn tell<E: Write>(fault: &ReplayFault, err: &mut E) -> u8
    ensures { result ≡ status_of fault.now }
{
    let _ = match fault {
        ReplayFault::Output => Ok(()),
        _ => writeln!(err, "{fault}"),
    };
    fault.status()
}

// Reads the schedule that `input` gives, to its end.
fn read<I: Read>(alloc: Global, input: &mut I) -> Result<Schedule, ReplayFault>
    ensures { IfOk result IsSchedule }
{
    let mut text = Vec::new(alloc);
    input.read_to_end(&mut text)?;
    match read_schedule(alloc, &text) {
        Ok(schedule) => Ok(schedule),
        Err(ScheduleFault::Wrong(number)) => {
            Err(ReplayFault::Wrong(number, broken_rule(&text, number).broken()))
        }
        Err(ScheduleFault::Memory) => Err(ReplayFault::Memory),
    }
}

// Plays a schedule on a world of its own.
fn play_schedule<O: Write>(
    alloc: Global,
    schedule: Schedule,
    trace: bool,
    out: &mut O,
) -> Result<(), ReplayFault>
    requires { IsSchedule schedule }
    ensures { MayPrint trace schedule (O.contents out.old) (O.contents out.new) (status_after result) }
{
    let Schedule { config, lines } = schedule;
    match Player::new(alloc, config, trace) {
        Ok(player) => play_on(player, lines, out),
        Err(AllocError) => Err(ReplayFault::Memory),
    }
}

// Plays the lines of a schedule on a new world, and flushes the output.
fn play_on<O: Write>(
    mut player: Player,
    lines: Vec<ScheduleLine>,
    out: &mut O,
) -> Result<(), ReplayFault>
    ensures { PrintsAll player lines.items (O.contents out.old) (O.contents out.new) (status_after result) }
{
    match play_lines(&mut player, lines, out) {
        Ok(()) => flush(out),
        Err((number, halt, reason)) => Err(ReplayFault::at(number, halt, reason)),
    }
}

// Flushes the output.
fn flush<O: Write>(out: &mut O) -> Result<(), ReplayFault>
    ensures { Keeps (O.contents out.old) (O.contents out.new) }
{
    match out.flush() {
        Ok(()) => Ok(()),
        Err(_) => Err(ReplayFault::Output),
    }
}

// Plays lines, one after the other. The error has the number of the line that was not played, and the reason.
fn play_lines<O: Write>(
    player: &mut Player,
    lines: Vec<ScheduleLine>,
    out: &mut O,
) -> Result<(), (u64, PlayFault, Reason)>
    ensures same { IsSame player.old player.new }
    ensures plays { Plays player.old player.new (O.contents out.old) (O.contents out.new) (ObeysAll lines.items) (halt_of result) }
    ensures told { IfErr result (λ stop. IsToldOf player.new lines.items stop.0 stop.2) }
{
    for line in lines {
        let asked = player.asked(&line.command);
        match player.obey(line.command, out) {
            Ok(()) => {}
            Err(halt) => return Err((line.number, halt, player.reason(asked))),
        }
    }
    Ok(())
}
