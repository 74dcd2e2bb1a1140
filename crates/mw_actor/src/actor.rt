//! A request as a state machine: it is asked for its next step, told what the step found, and at last has its reply.
//!
//! Used by: many crates from mw_rule on. mw_engine makes one for each request, and mw_core runs it; mw_simulator has
//! one for each busy worker. It must ask what `specs/Asks` says, and go where `specs/Program` says.
ghost use Rattle.std.specs.Prelude.{◌≡◌, ◌≤◌, ◌<◌};
ghost use Rattle.mw_words.specs.declared.limits.TheConstants.{MAX_POOL, MAX_WORKERS};
ghost use Rattle.mw_look.specs.Steps.{op_of, place};
ghost use Rattle.mw_look.specs.Observations.{IsObservationInRange, observation_of};
ghost use Rattle.mw_look.specs.Program.{tells as read_tells};
ghost use Rattle.mw_actor.specs.ActorState.{first, first_point, entries_of, entry_at, entry_of, own_entries};
ghost use Rattle.mw_actor.specs.Asks.{asks};
ghost use Rattle.mw_actor.specs.Program.{goes, replied, tells};
ghost use Rattle.mw_actor.specs.Ranges.{AreEntriesInRange, IsEntryInRange, IsFormed, IsPointInRange};
ghost use Rattle.mw_actor.specs.Help as helping;

mod asks;
mod moves;

use crate::points::{Attempt, Point, Task};
use mw_look::{Look, Observation, Op, Told};
use mw_words::{Entries, Entry, Job, MAX_VALUE, Reply, copy_of};
use std::marker::Model;

/// A request that a worker works on: a read, or a change. The worker asks it for its next step and tells it
/// what the step found, until it has its reply. If what it is told doesn't fit the step, it stays where it is.
#[derive(Drop)]
pub struct Actor {
    worker: u8,
    tenant: u8,
    quota: u8,
    pool: u16,
    job: Job,
    others: Entries,
    point: Point,
}

impl Model for Actor {
    ghost use Rattle.mw_actor.specs.ActorState.{ActorState};
    ghost use Rattle.mw_actor.specs.Ranges.{IsInRange};

    ghost Value = { ActorState };

    ghost view = { λ a. record { worker = a.worker; tenant = a.tenant; quota = a.quota; pool = a.pool; job = a.job; others = a.others.items; point = a.point } };

    ghost invariant = { λ a. IsInRange (record { worker = a.worker; tenant = a.tenant; quota = a.quota; pool = a.pool; job = a.job; others = a.others.items; point = a.point }) };
}

impl Actor {
    /// Makes a request at its first step: worker `worker` works on `job` for `tenant`, which may use `quota` of
    /// the `pool` slots. The worker is below [`MAX_WORKERS`], and the pool has 1 to [`MAX_POOL`] slots. A
    /// change has 1 to [`MAX_ENTRIES`] entries at strictly rising addresses. Its addresses and values are in
    /// range for a tenant's words.
    ///
    /// [`MAX_WORKERS`]: mw_words::MAX_WORKERS
    /// [`MAX_POOL`]: mw_words::MAX_POOL
    /// [`MAX_ENTRIES`]: mw_words::MAX_ENTRIES
    pub fn new(worker: u8, tenant: u8, quota: u8, pool: u16, job: Job) -> Actor
        requires is_worker { worker < MAX_WORKERS }
        requires is_pool { (1 ≤ pool) × (pool ≤ MAX_POOL) }
        requires is_change { IsFormed job }
        ensures { result ≡ first worker tenant quota pool job }
    {
        let point = first_point(tenant, &job);
        Actor {
            worker,
            tenant,
            quota,
            pool,
            job,
            others: Entries::new(),
            point,
        }
    }

    /// Returns an equal request.
    pub fn copy(&self) -> Actor
        ensures { result ≡ self.now }
    {
        Actor {
            worker: self.worker,
            tenant: self.tenant,
            quota: self.quota,
            pool: self.pool,
            job: self.job.copy(),
            others: copy_of(&self.others),
            point: self.point,
        }
    }

    /// Returns the worker that works on the request.
    pub fn worker(&self) -> u8
        ensures { result ≡ self.now.worker }
    {
        self.worker
    }

    /// Returns the tenant that asks.
    pub fn tenant(&self) -> u8
        ensures { result ≡ self.now.tenant }
    {
        self.tenant
    }

    /// Returns what the tenant asks for.
    pub fn job(&self) -> &Job
        ensures { result.now ≡ self.now.job }
    {
        &self.job
    }

    /// Returns the reply, if the request has one. Once it has a reply, it keeps it.
    pub fn reply(&self) -> Option<Reply>
        ensures { result ≡ replied self.now }
    {
        match self.point {
            Point::Read(look) => look.reply(),
            Point::Replied(reply) => Some(reply),
            _ => None,
        }
    }

    /// Returns where the request is in its program.
    pub fn point(&self) -> Point
        ensures is { result ≡ self.now.point }
        ensures in_range { IsPointInRange self.now.others result }
    {
        self.point
    }

    /// Returns the entries of the request's own change. A read has none.
    pub fn own_entries(&self) -> &[Entry]
        ensures is { result.now ≡ own_entries self.now }
        ensures in_range { AreEntriesInRange result.now }
    {
        match &self.job {
            Job::Get(_) => &[],
            Job::Cas(entries) => entries,
        }
    }

    /// Returns the entry at an index of the target of `task`. Past the last one it is an entry of zeros; no
    /// program comes there.
    pub fn entry(&self, task: Task, index: u8) -> Entry
        ensures is { result ≡ entry_of self.now task index }
        ensures in_range { IsEntryInRange result }
    {
        entry_at(self.entries(task), index)
    }

    /// Takes in what the step found and the worker's next attempt number, and goes on to the next point. The
    /// step is the one for which [`Actor::ask`] asks.
    pub fn tell(&mut self, told: Told)
        ensures { self.new ≡ tells self.old (observation_of (place (asks self.old)) told.got) told.next }
    {
        self.tell_of(self.ask(), told);
    }

    /// Does the same. The caller passes `op`, the step for which [`Actor::ask`] asks.
    pub fn tell_of(&mut self, op: Op, told: Told)
        requires { op ≡ op_of (asks self.old) }
        ensures { self.new ≡ tells self.old (observation_of (place (asks self.old)) told.got) told.next }
    {
        let observation = Observation::of(op.place(), told.got);
        let point = self.after(observation, told.next);
        read_others(&mut self.others, self.point, observation);
        self.point = point;
    }

    // Returns the point after this observation.
    fn after(&self, observation: Observation, next: u64) -> Point
        requires { IsObservationInRange observation }
        ensures { result ≡ goes self.now next self.now.point observation }
    {
        match self.point {
            Point::Read(look) => Point::Read(read_told(look, observation)),
            _ => self.next(observation, next),
        }
    }

    // Returns the entries of the target.
    pub(crate) fn entries(&self, task: Task) -> &[Entry]
        ensures is { result.now ≡ entries_of self.now task }
        ensures in_range { AreEntriesInRange result.now }
    {
        if task.is_alone() {
            self.own_entries()
        } else {
            &self.others
        }
    }

    pub(crate) fn own_entry(&self, index: u8) -> Entry
        ensures is { result ≡ entry_at (own_entries self.now) index }
        ensures in_range { IsEntryInRange result }
    {
        entry_at(self.own_entries(), index)
    }

    // Makes an attempt of the request's own worker.
    pub(crate) fn attempt(&self, number: u64) -> Attempt
        ensures { result ≡ record { worker = self.now.worker; number = number } }
    {
        Attempt {
            worker: self.worker,
            number,
        }
    }
}

fn first_point(tenant: u8, job: &Job) -> Point
    ensures { result ≡ first_point tenant job.now }
{
    match job {
        Job::Get(address) => Point::Read(Look::new(tenant, *address)),
        Job::Cas(_) => Point::ReadDoor,
    }
}

// Returns a read after it was told what its step found.
fn read_told(mut look: Look, observation: Observation) -> Look
    requires { IsObservationInRange observation }
    ensures { result ≡ read_tells look observation }
{
    look.tell_observation(observation);
    look
}

// Keeps another's entries as they are loaded. The load of their number clears them, and each load of a new
// value adds one.
fn read_others(others: &mut Entries, point: Point, observation: Observation)
    requires { IsPointInRange others.old.items point }
    ensures { others.new.items ≡ helping.others_read others.old.items point observation }
{
    match (point, observation) {
        (Point::ReadCount(_), Observation::SawNumber(_)) => others.clear(),
        (Point::ReadNew { addr, expected, .. }, Observation::SawNumber(new)) if new <= MAX_VALUE =>
            {
                others.push(Entry {
                    addr,
                    expected,
                    new,
                });
            }
        _ => {}
    }
}

// Returns the entry at an index. Past the last one it is an entry of zeros; no program comes there.
fn entry_at(entries: &[Entry], index: u8) -> Entry
    requires { AreEntriesInRange entries.now }
    ensures is { result ≡ entry_at entries.now index }
    ensures in_range { IsEntryInRange result }
{
    if usize::from(index) < entries.len() {
        entries[usize::from(index)]
    } else {
        Entry {
            addr: 0,
            expected: 0,
            new: 0,
        }
    }
}
