//! A worker of an engine, with its pass, for tests.
//!
//! Used by: `cases`, `plays`, `races`, `rings`, `twins`.
ghost use Rattle.std.specs.Prelude.{◌≡◌, true, All};
ghost use Rattle.mw_engine.specs.Passes.{IsNew, IsPassOf};

use crate::cases::MEMORY;
use crate::latch::{ByLatch, LatchedDisk};
use crate::steps::by_steps;
use crate::talks::Talk;
use mw_disk::Disk;
use mw_engine::{Engine, EngineBrand, Hold, Pass};
use mw_report::Figures;
use mw_session::Service;
use mw_words::{Entries, Entry, Job, Name, Reply};
use std::alloc::Global;
use std::process::Abort;
use std::sync::Wait;

/// An engine whose workers and disks come to a latch.
pub(crate) type LatchedEngine<'l, J> = Engine<J, LatchedDisk<'l>, ByLatch<'l>>;

/// A worker of an engine, with its pass.
#[derive(Drop)]
pub(crate) struct Worker<'a, J: EngineBrand, D: Disk, H, R> {
    engine: &'a Engine<J, D, H>,
    rt: &'a R,
    pass: Pass,
    ghost own: { IsPassOf J.identity pass },
    ghost idle: { pass.idle ≡ true },
}

impl<'a, J: EngineBrand, D: Disk, H, R> Worker<'a, J, D, H, R> {
    fn new(engine: &'a Engine<J, D, H>, rt: &'a R, pass: Pass) -> Self
        requires own { IsPassOf J.identity pass }
        requires idle { pass.idle ≡ true }
    {
        Worker { engine, rt, pass }
    }
}

/// Who plays a case: a worker of an engine.
pub(crate) trait Player {
    /// Gives the worker's number in the engine.
    fn number(&self) -> u8;

    /// Gives the reply to a job of the tenant with this name, and None if there is no such tenant, or it
    /// may not ask for this. If so asked, each step is made by itself.
    fn reply_to(&mut self, name: &[u8], job: &Job, by_itself: bool) -> Option<Reply>;

    /// Gives the reply to a read of a word of the tenant with this name. It runs the read's program once,
    /// or as often as it takes. Gives None if there is no such tenant or word.
    fn read(&mut self, name: &[u8], address: u16) -> Option<Reply>;

    /// Meets another worker.
    fn meet(&mut self, other: &mut Self);

    /// Tells whether a session of this worker goes as the talk of its number says, if there is one.
    fn is_told(&mut self, alloc: Global, talks: &[Talk<'_>]) -> bool;
}

impl<J: EngineBrand, D: Disk + Drop, H: Hold + Drop, R: Wait> Player for Worker<'_, J, D, H, R> {
    fn number(&self) -> u8 {
        self.pass.worker()
    }

    fn reply_to(&mut self, name: &[u8], job: &Job, by_itself: bool) -> Option<Reply> {
        let name = Name::try_from(name).unwrap_or_default();
        let (tenant, words) = self.engine.find(&name)?;
        if !job.is_well_formed(usize::from(words)) {
            return None;
        }
        if by_itself {
            return Some(by_steps(self.engine, self.rt, &mut self.pass, tenant, job));
        }
        Some(self.engine.serve(self.rt, &mut self.pass, tenant, job))
    }

    fn read(&mut self, name: &[u8], address: u16) -> Option<Reply> {
        let name = Name::try_from(name).unwrap_or_default();
        let (tenant, words) = self.engine.find(&name)?;
        if address >= words {
            return None;
        }
        match self.engine.try_look(&mut self.pass, tenant, address) {
            Ok(reply) => Some(reply),
            Err(_) => Some(self.engine.look(self.rt, &mut self.pass, tenant, address)),
        }
    }

    fn meet(&mut self, other: &mut Self) {
        self.engine.meet(&mut self.pass, &mut other.pass);
    }

    fn is_told(&mut self, alloc: Global, talks: &[Talk<'_>]) -> bool {
        let rt = self.rt;
        match talks.get(usize::from(self.number())) {
            Some(talk) => talk.goes_well(alloc, rt, self),
            None => true,
        }
    }
}

impl<J: EngineBrand, D: Disk + Drop, H: Hold + Drop, R: Wait> Service for Worker<'_, J, D, H, R> {
    ghost use Rattle.mw_engine.specs.Identity.{HasWords};

    ghost answered = { λ _ _ _. Unit {0} };

    ghost has_words = { λ _. HasWords J.identity.lines };

    fn find(&self, name: &Name) -> Option<(u8, u16)> {
        self.engine.find(name)
    }

    fn ask(&mut self, tenant: u8, job: &Job) -> Reply {
        self.engine.serve(self.rt, &mut self.pass, tenant, job)
    }

    fn figures(&mut self) -> Figures {
        self.engine.figures(&mut self.pass)
    }
}

/// Makes a worker for each pass.
pub(crate) fn workers_of<'a, J: EngineBrand, D: Disk, H, R: Abort>(
    rt: &'a R,
    alloc: Global,
    engine: &'a Engine<J, D, H>,
    passes: Vec<Pass>,
) -> Vec<Worker<'a, J, D, H, R>>
    requires { All (IsNew J.identity) passes.items }
{
    let mut workers = Vec::new(alloc);
    for pass in passes {
        let worker = Worker::new(engine, rt, pass);
        workers.push(worker).expect(rt, MEMORY);
    }
    workers
}

/// Makes a change of words from one value to another. The addresses rise.
pub(crate) fn change(addresses: &[u8], expected: u64, new: u64) -> Job {
    let mut entries = Entries::new();
    for address in addresses {
        let _ = entries.try_push(Entry {
            addr: u16::from(*address),
            expected,
            new,
        });
    }
    Job::Cas(entries)
}
