//! Tests a stale helper: it plants its attempt after another change has come and gone. The events of that
//! schedule are given to a world, and the tenant's marks to a new store alone.
ghost use Rattle.std.specs.Prelude.{◌≡◌, length};
ghost use Rattle.mw_world.specs.Definition.State.{IsConfig};

use crate::checks::{fail, holds};
use crate::fault::Fault;
use crate::judge::{Handed, judge};
use arrayvec::ArrayVec;
use mw_look::{Kind, Op};
use mw_simulator::World;
use mw_words::{Entries, Entry, Job, Name, Reply};
use mw_world::{Config, Event, Outcome, Tenant};
use std::alloc::Global;

/// More steps than any part of the schedule takes.
const MOST_STEPS: u64 = 200;

/// An address, the value that a change expects there, and its new value.
type Write = (u16, u64, u64);

/// What a worker does next in the schedule.
#[derive(Clone, Copy)]
enum Move {
    /// Begins a change of one or two words.
    Change(Write, Option<Write>),
    /// Begins a read of the word at this address.
    Get(u16),
    /// Makes steps until its next step is of this kind.
    Before(Kind),
    /// Makes steps until it has made one of this kind.
    To(Kind),
    /// Makes steps until it has its reply, and hands it out.
    End,
}

/// The schedule: what each worker does. Worker 2 comes to its plant while worker 0 has its attempt at the same
/// word. Worker 1 finishes worker 0's change for it, and makes one of its own.
static SCHEDULE: [(u8, Move); 12] = [
    (0, Move::Change((0, 0, 1), Some((1, 0, 1)))),
    (0, Move::To(Kind::Resolve)),
    (2, Move::Change((0, 0, 9), None)),
    (2, Move::Before(Kind::Plant)),
    (0, Move::Before(Kind::Resolve)),
    (1, Move::Change((1, 1, 0), None)),
    (1, Move::End),
    (2, Move::To(Kind::Plant)),
    (0, Move::End),
    (2, Move::End),
    (1, Move::Get(1)),
    (1, Move::End),
];

/// Makes the configuration of one tenant of two words, with three workers and three slots.
fn world_of_three() -> Config
    ensures config { IsConfig result }
    ensures tenants { length result.tenants.items ≡ 1 }
    ensures workers { result.workers ≡ 3 }
{
    let mut tenants = ArrayVec::new();
    tenants.push(Tenant {
        name: Name::new(),
        words: 2,
        quota: 3,
        old: None,
    });
    Config {
        pool: 3,
        workers: 3,
        seq: 0,
        tenants,
    }
}

/// Makes a change of one or two words.
fn change(first: Write, second: Option<Write>) -> Job {
    let mut entries = Entries::new();
    let (addr, expected, new) = first;
    entries.push(Entry {
        addr,
        expected,
        new,
    });
    if let Some((addr, expected, new)) = second {
        entries.push(Entry {
            addr,
            expected,
            new,
        });
    }
    Job::Cas(entries)
}

/// A world that follows the schedule, and the events so far.
#[derive(Drop)]
struct Plan {
    world: World,
    events: Vec<Event>,
}

impl Plan {
    /// Makes an event, given twice: once for the world and once for the list.
    fn make(&mut self, event: Event, again: Event) -> Result<(), Fault> {
        if self.events.push(again).is_err() {
            return Err(Fault::Memory);
        }
        Ok(self.world.step(event)?)
    }

    /// Gives a worker's next step, and none if it has its reply or no request.
    fn next(&self, worker: u8) -> Option<Op> {
        if worker >= self.world.config().workers {
            return None;
        }
        let Some(actor) = self.world.actor(worker) else {
            return None;
        };
        if actor.reply().is_some() {
            return None;
        }
        Some(actor.ask())
    }

    fn go_on(&mut self, worker: u8) -> Result<(), Fault> {
        match self.next(worker) {
            Some(Op::File { .. }) => self.make(
                Event::File(worker, Outcome::Good),
                Event::File(worker, Outcome::Good),
            ),
            _ => self.make(Event::Step(worker), Event::Step(worker)),
        }
    }

    /// Makes a worker's steps until its next step is of this kind, or with no kind until it has its reply.
    fn until(&mut self, worker: u8, wanted: Option<Kind>) -> Result<(), Fault> {
        for _ in 0..MOST_STEPS {
            match (self.next(worker), wanted) {
                (None, None) => return Ok(()),
                (Some(Op::Change { kind, .. }), Some(wanted)) if kind == wanted => return Ok(()),
                _ => self.go_on(worker)?,
            }
        }
        Err(Fault::Stuck)
    }

    /// Makes the events of what a worker does.
    fn follow(&mut self, worker: u8, what: Move) -> Result<(), Fault> {
        match what {
            Move::Change(first, second) => self.ask(worker, change(first, second)),
            Move::Get(addr) => self.ask(worker, Job::Get(addr)),
            Move::Before(kind) => self.until(worker, Some(kind)),
            Move::To(kind) => {
                self.until(worker, Some(kind))?;
                self.go_on(worker)
            }
            Move::End => {
                self.until(worker, None)?;
                self.make(Event::Hand(worker), Event::Hand(worker))
            }
        }
    }

    /// Makes a request come.
    fn ask(&mut self, worker: u8, job: Job) -> Result<(), Fault> {
        let again = job.copy();
        self.make(Event::Come(worker, 0, job), Event::Come(worker, 0, again))
    }
}

/// Gives the events of the schedule.
fn late_plant(alloc: Global) -> Result<Vec<Event>, Fault> {
    let mut plan = Plan {
        world: World::new(alloc, world_of_three())?,
        events: Vec::new(alloc),
    };
    for (worker, what) in &SCHEDULE {
        plan.follow(*worker, *what)?;
    }
    Ok(plan.events)
}

/// The replies of the schedule's requests.
static REPLIES: [Handed; 4] = [
    Handed {
        tenant: 0,
        reply: Reply::Yes,
    },
    Handed {
        tenant: 0,
        reply: Reply::Yes,
    },
    Handed {
        tenant: 0,
        reply: Reply::No(0, 1),
    },
    Handed {
        tenant: 0,
        reply: Reply::Val(0),
    },
];

/// Runs the events of the schedule in a new world. A store alone must hand out these replies. Tells whether worker 0
/// has made two attempts, and each other one has made one.
fn runs_late_plant(alloc: Global) -> Result<bool, Fault> {
    let events = late_plant(alloc)?;
    let mut world = World::new(alloc, world_of_three())?;
    if let Err((_, fault)) = world.run(&events) {
        return Err(Fault::from(fault));
    }
    judge(alloc, &world, 0, 3, &REPLIES, false)?;
    Ok(world.attempt(0) == 2 && world.attempt(1) == 1 && world.attempt(2) == 1)
}

#[test]
fn late_finisher(rt: HostRuntime) {
    match runs_late_plant(rt.alloc()) {
        Ok(are_so) => holds(&rt, "attempts", 0, are_so),
        Err(fault) => fail(&rt, 0, fault),
    }
}
