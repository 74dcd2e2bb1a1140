//! Plays cases on an engine: tenants with new files, what its workers do, and the files afterwards.
//!
//! Used by: most other modules.
ghost use Rattle.std.specs.Prelude.{◌≡◌, ◌≤◌, All, IfSome};
ghost use Rattle.mw_config.specs.Limits.{ArePermitted};
ghost use Rattle.mw_words.specs.declared.limits.TheConstants.{MAX_POOL};
ghost use Rattle.mw_engine.specs.Passes.{IsNew};
ghost use Rattle.mw_engine.specs.Parts.{identity_of};

use crate::disks::are_left;
use crate::latch::{ByLatch, FIRST_SYNC, Latch, LatchedDisk, Stop};
use crate::plays::is_done;
use crate::races::Race;
use crate::starts::start;
use crate::talks::Talk;
use crate::twins::new_plain;
use crate::workers::{LatchedEngine, workers_of};
use arrayvec::ArrayVec;
use mw_config::{TenantLine, read_tenants};
use mw_engine::{EngineBrand, EngineParts, Pass};
use mw_words::{MAX_POOL, MAX_TENANTS};
use std::alloc::Global;
use std::fs::File;
use std::marker::Brand;
use std::net::{Net, TcpListener, TcpStream};
use std::process::Abort;
use std::rt::Files;
use std::sync::Wait;
use std::thread::Threads;
use std::time::Clock;

/// What a test says if memory is refused.
pub(crate) const MEMORY: &str = "memory";

/// Says how a tenant's disk behaves.
#[derive(Clone, Copy)]
pub(crate) enum Device<'c> {
    /// Its calls succeed.
    Sound,
    /// The call of this number fails, counted from 1 after the opening.
    Fails(u64),
    /// It stops after so many calls after the opening. Then the power fails. These bytes are found, in
    /// rising order of offset, where bytes were written and not synced; after the last of them, what a read
    /// gave is found.
    Stops(u64, &'c [u8]),
    /// There is no disk.
    Missing,
}

/// Says what the workers do.
#[derive(Clone, Copy)]
pub(crate) enum Play<'c> {
    /// Each has its session, one after the other.
    Talks(&'c [Talk<'c>]),
    /// They have their sessions at once, each in a thread of its own, while those that the latch stops are held.
    Story(&'c [Talk<'c>]),
    /// They count up words at once.
    Race(Race<'c>),
    /// Eight workers each change a word and the next one's word, all at once. One word after the other is asked for.
    Ring,
    /// They make requests by turns, all made from this number. The plain store over files of its own must
    /// reply the same, and leave files with the same words.
    Beside(u64),
    /// Two serve clients over sockets.
    Sockets,
}

/// Tenants with new files, what the workers of an engine do, and the files that it leaves.
#[derive(Clone, Copy)]
pub(crate) struct Case<'c> {
    /// The text of the tenants file.
    pub(crate) tenants: &'c [u8],
    pub(crate) pool: u16,
    pub(crate) devices: &'c [Device<'c>],
    /// Who is stopped meanwhile.
    pub(crate) stop: Stop,
    pub(crate) play: Play<'c>,
    /// The first words of the tenants' files afterwards. Nobody looks at these if the plain store is asked
    /// too.
    pub(crate) words: &'c [&'c [u64]],
}

/// A case of a table of tests.
pub(crate) struct Row {
    pub(crate) name: &'static str,
    /// Which of the cases of this name it is.
    pub(crate) number: u64,
    /// How many times it is played.
    pub(crate) times: u8,
    pub(crate) case: Case<'static>,
}

impl Case<'_> {
    /// How many workers there are: eight at most.
    pub(crate) fn workers(&self) -> u8
        ensures { result ≤ 8 }
    {
        match self.play {
            Play::Ring => 8,
            _ => 4,
        }
    }
}

/// Reads the lines of a case's tenants file. The pool has room for their quotas. Gives None if one of them
/// isn't permitted.
pub(crate) fn lines_of(case: &Case<'_>) -> Option<ArrayVec<TenantLine, MAX_TENANTS>>
    ensures permitted { IfSome result (λ lines. ArePermitted case.now.pool lines.items) }
    ensures pool { IfSome result (λ _. (1 ≤ case.now.pool) × (case.now.pool ≤ MAX_POOL)) }
{
    if !(1..=MAX_POOL).contains(&case.pool) {
        return None;
    }
    read_tenants(case.tenants, case.pool).ok()
}

/// Each of these cases comes out as it says, each time.
pub(crate) fn come_out<R>(rt: &R, rows: &[Row])
where
    R: Abort
        + AllocGlobal
        + Files<File = File>
        + Net<Listener = TcpListener, Stream = TcpStream>
        + Threads
        + Wait
        + Clock
        + Sync,
{
    for row in rows {
        comes_out(rt, row.name, row.number, row.times, &row.case);
    }
}

/// A case of this name and number comes out as it says, so many times.
pub(crate) fn comes_out<R>(rt: &R, name: &str, number: u64, times: u8, case: &Case<'_>)
where
    R: Abort
        + AllocGlobal
        + Files<File = File>
        + Net<Listener = TcpListener, Stream = TcpStream>
        + Threads
        + Wait
        + Clock
        + Sync,
{
    for _ in 0..times {
        assert!(rt; is_so(rt, rt.alloc(), case), "{name}, number {number}");
    }
}

/// Tells whether a case comes out as it says.
fn is_so<R>(rt: &R, alloc: Global, case: &Case<'_>) -> bool
where
    R: Abort
        + Files<File = File>
        + Net<Listener = TcpListener, Stream = TcpStream>
        + Threads
        + Wait
        + Clock
        + Sync,
{
    let latch = Latch::new(case.stop);
    let second = Latch::new(FIRST_SYNC);
    let hold = ByLatch {
        latch: &latch,
        second: &second,
    };
    is_so_by(rt, alloc, case, hold)
}

/// Tells whether a case comes out as it says, if its workers and disks come to these latches.
fn is_so_by<R>(rt: &R, alloc: Global, case: &Case<'_>, hold: ByLatch<'_>) -> bool
where
    R: Abort
        + Files<File = File>
        + Net<Listener = TcpListener, Stream = TcpStream>
        + Threads
        + Wait
        + Clock
        + Sync,
{
    match start(alloc, case, hold) {
        Some(started) => {
            let (parts, passes) = started;
            is_so_of::<Brand, R>(rt, alloc, parts, passes, case, hold)
        }
        None => false,
    }
}

/// Tells whether a case comes out as it says on the engine of these parts.
fn is_so_of<'l, J, R>(
    rt: &R,
    alloc: Global,
    parts: EngineParts<LatchedDisk<'l>, ByLatch<'l>>,
    passes: Vec<Pass>,
    case: &Case<'_>,
    hold: ByLatch<'_>,
) -> bool
where
    J: EngineBrand + Send + Sync,
    R: Abort
        + Files<File = File>
        + Net<Listener = TcpListener, Stream = TcpStream>
        + Threads
        + Wait
        + Clock
        + Sync,
    requires same { identity_of parts ≡ J.identity }
    requires passes { All (IsNew J.identity) passes.items }
{
    let mut passes = passes;
    let last = last_pass::<J>(&mut passes);
    let engine = parts.into_engine::<J>(alloc).expect(rt, MEMORY);
    let mut plain = new_plain(alloc, case, hold.latch);
    let workers = workers_of(rt, alloc, &engine, passes);
    let have_done = is_done(rt, alloc, workers, case, hold, &mut plain);
    are_left(alloc, disks_of(alloc, engine, last), case, plain) && have_done
}

/// Takes the pass that looks at the files in the end: the last one. Gives None if there is none.
#[tactic(auto, using(crate::proofs::LastPass::last_is, crate::proofs::LastPass::others_are))]
fn last_pass<J: EngineBrand>(passes: &mut Vec<Pass>) -> Option<Pass>
    requires new { All (IsNew J.identity) passes.old.items }
    ensures last { IfSome result (IsNew J.identity) }
    ensures others { All (IsNew J.identity) passes.new.items }
{
    passes.pop()
}

/// Takes an engine apart, and gives its disks, after this pass of it has looked at the files: none if there is no pass, or
/// memory is refused.
fn disks_of<'l, J: EngineBrand>(
    alloc: Global,
    engine: LatchedEngine<'l, J>,
    pass: Option<Pass>,
) -> Vec<Option<LatchedDisk<'l>>>
    requires new { IfSome pass (IsNew J.identity) }
{
    let Some(mut last) = pass else {
        return Vec::new(alloc);
    };
    match engine.into_disks(alloc, &mut last) {
        Ok(disks) => disks,
        Err(_) => Vec::new(alloc),
    }
}
