//! Plays random events on a world. After each start a run of a small world is compared with stores alone; of a larger
//! world all is seen after each event.
//!
//! Used by: `tests`, `larger/tests`.
ghost use Rattle.std.specs.Prelude.{◌≡◌, ◌<◌, ◌≤◌, length};
ghost use Rattle.mw_world.specs.Definition.State.{IsConfig};

use crate::dice::Dice;
use crate::fault::Fault;
use crate::jobs::{job, stops};
use crate::judge::{Handed, judge};
use crate::larger::past::update_of;
use crate::larger::seen::Seen;
use crate::shares::{Share, first_shares, is_gift, quotas_alone, shares_after};
use mw_look::Op;
use mw_simulator::{World, WorldFault};
use mw_words::{At, Door};
use mw_world::{Config, Event, Outcome, Stop};
use std::alloc::{AllocError, Global};

/// What happened in runs.
#[derive(Clone, Copy, Default)]
pub(crate) struct Tally {
    /// How many device calls failed.
    pub(crate) failures: u64,
    /// How many times all stopped as the dice chose.
    pub(crate) interruptions: u64,
    /// How many times a start was refused, because the quotas didn't fit.
    pub(crate) refusals: u64,
    /// How many times a start gave new quotas.
    pub(crate) gifts: u64,
}

/// How all stopped and started again.
#[derive(Clone, Copy)]
enum Stopped {
    /// As the dice chose.
    AsChosen,
    /// With the quotas that the dice chose, and nothing cut off.
    Plainly,
    /// Not at all: it can't be.
    Never,
}

/// A world, what it has handed out, and what is seen of it.
#[derive(Drop)]
pub(crate) struct Run {
    alloc: Global,
    pub(crate) world: World,
    handed: Vec<Handed>,
    shares: Vec<Share>,
    pub(crate) tally: Tally,
    /// Whether the world is seen after each event. If not, it is compared with stores alone after each start.
    is_watched: bool,
    pub(crate) seen: Seen,
    ghost configured: { IsConfig world.config },
}

impl Run {
    /// Makes a new world of this configuration. Nothing is seen of it yet.
    pub(crate) fn new(alloc: Global, config: Config, is_watched: bool) -> Result<Run, AllocError>
        requires { IsConfig config }
    {
        let shares = first_shares(alloc, &config)?;
        Ok(Run {
            alloc,
            world: World::new(alloc, config)?,
            handed: Vec::new(alloc),
            shares,
            tally: Tally::default(),
            is_watched,
            seen: Seen::new(alloc),
        })
    }

    /// Makes one event, of a worker or of all.
    pub(crate) fn go_on(&mut self, dice: &mut Dice) -> Result<(), Fault> {
        let all_stops = if self.is_watched {
            dice.once_in(150)
        } else {
            dice.once_in(120)
        };
        if all_stops {
            return self.restart(dice);
        }
        let worker = dice.small(self.world.config().workers);
        let Some(actor) = self.world.actor(worker) else {
            return self.ask(worker, dice);
        };
        if let Some(reply) = actor.reply() {
            let tenant = actor.tenant();
            if self.handed.push(Handed { tenant, reply }).is_err() {
                return Err(Fault::Memory);
            }
            return self.must(Event::Hand(worker));
        }
        match actor.ask() {
            Op::File { .. } => self.call(worker, dice),
            _ => self.step(worker, Event::Step(worker)),
        }
    }

    /// Makes a request come, which may be refused.
    fn ask(&mut self, worker: u8, dice: &mut Dice) -> Result<(), Fault> {
        let tenants = &self.world.config().tenants;
        let tenant = dice.small(tenants.len() as u8);
        let job = job(dice, tenants[usize::from(tenant)].words);
        self.may(Event::Come(worker, tenant, job))?;
        Ok(())
    }

    /// Makes a call on a file, in which a device call may fail.
    fn call(&mut self, worker: u8, dice: &mut Dice) -> Result<(), Fault> {
        let one_fails = if self.is_watched {
            dice.once_in(15)
        } else {
            dice.once_in(12)
        };
        if one_fails && self.may(Event::File(worker, Outcome::Fail(1 + dice.below(6))))? {
            self.tally.failures = self.tally.failures.saturating_add(1);
            return Ok(());
        }
        self.step(worker, Event::File(worker, Outcome::Good))
    }

    /// Makes a worker's next step, or its next call if no device call fails. In a world that is watched, it records
    /// what this does to a change.
    fn step(&mut self, worker: u8, event: Event) -> Result<(), Fault> {
        if !self.is_watched {
            return self.must(event);
        }
        if worker >= self.world.config().workers {
            return Err(Fault::Stuck);
        }
        let Some(actor) = self.world.actor(worker) else {
            return Err(Fault::Stuck);
        };
        let actor = actor.copy();
        let update = update_of(&self.seen, &actor);
        self.seen.past.keep(update, &actor)?;
        self.must(event)
    }

    /// Stops and starts all again, as the dice choose if that can be. Quotas that don't fit must be refused. After
    /// a start the world is compared with stores alone, or the start is recorded in what is seen, where the quotas
    /// must be those that the start was given.
    fn restart(&mut self, dice: &mut Dice) -> Result<(), Fault> {
        let stops = stops(self.alloc, dice, self.world.config())?;
        let pool = self.world.config().pool;
        match shares_after(self.alloc, &self.shares, &stops, pool)? {
            Some(shares) => {
                self.shares = shares;
                self.start(stops)?;
                self.look_at_start()
            }
            None => self.refuse(stops),
        }
    }

    /// Compares the world after a start with stores alone. If it is watched, it records the start in what is seen
    /// instead, where the quotas must be those that the start was given.
    fn look_at_start(&mut self) -> Result<(), Fault> {
        if !self.is_watched {
            return self.judge(true);
        }
        self.seen.start(&self.world)?;
        if self.has_quotas() {
            Ok(())
        } else {
            Err(Fault::Quota)
        }
    }

    /// Tells whether each tenant is seen to have the quota that the last start gave it.
    fn has_quotas(&self) -> bool {
        for (tenant, share) in self.shares.iter().enumerate() {
            match self.seen.shares.get(tenant) {
                Some(found) if found.quota == share.quota => {}
                _ => return false,
            }
        }
        true
    }

    /// Stops and starts all again with these quotas, which fit, and as the dice choose if that can be.
    fn start(&mut self, stops: Vec<Stop>) -> Result<(), Fault> {
        let gift = u64::from(is_gift(&stops));
        self.tally.gifts = self.tally.gifts.saturating_add(gift);
        match self.stop(stops)? {
            Stopped::AsChosen => {
                self.tally.interruptions = self.tally.interruptions.saturating_add(1);
                Ok(())
            }
            Stopped::Plainly => Ok(()),
            Stopped::Never => Err(Fault::Stuck),
        }
    }

    /// Stops and starts all again as the dice choose, or, if that can't be, with the quotas alone, if these can be.
    fn stop(&mut self, stops: Vec<Stop>) -> Result<Stopped, Fault> {
        let quotas = quotas_alone(self.alloc, &stops)?;
        if self.may(Event::Restart(stops))? {
            return Ok(Stopped::AsChosen);
        }
        if self.may(Event::Restart(quotas))? {
            Ok(Stopped::Plainly)
        } else {
            Ok(Stopped::Never)
        }
    }

    /// Checks that quotas that don't fit are refused, whatever else is given, and the world is unchanged. A world
    /// that is watched is seen anew.
    fn refuse(&mut self, stops: Vec<Stop>) -> Result<(), Fault> {
        let before = self.fingerprint()?;
        let is_taken = !matches!(self.stop(stops)?, Stopped::Never);
        if is_taken || self.fingerprint()? != before {
            return Err(Fault::Taken);
        }
        self.tally.refusals = self.tally.refusals.saturating_add(1);
        if self.is_watched {
            self.seen.look(&self.world)?;
        }
        Ok(())
    }

    /// Gives a number for how many marks there are, what the doors are and who has a request. A start would
    /// change it.
    fn fingerprint(&self) -> Result<u64, Fault> {
        let mut fingerprint: u64 = 0;
        for tenant in 0..self.world.config().tenants.len() {
            let tenant = tenant as u8;
            let marks = self.world.marks(tenant)?;
            fingerprint = fingerprint
                .wrapping_mul(31)
                .wrapping_add(marks.len() as u64);
            let door = self.world.word(At::Door(tenant));
            fingerprint = fingerprint.wrapping_mul(31).wrapping_add(door);
        }
        for worker in 0..self.world.config().workers {
            let has_request = u64::from(self.world.actor(worker).is_some());
            fingerprint = fingerprint.wrapping_mul(31).wrapping_add(has_request);
        }
        Ok(fingerprint)
    }

    /// Makes an event that must be possible.
    fn must(&mut self, event: Event) -> Result<(), Fault> {
        if self.may(event)? {
            Ok(())
        } else {
            Err(Fault::Stuck)
        }
    }

    /// Makes an event if it is possible, and sees the world after it if it is watched. Tells whether it is
    /// possible.
    fn may(&mut self, event: Event) -> Result<bool, Fault> {
        match self.world.step(event) {
            Ok(()) => {}
            Err(WorldFault::NotEnabled | WorldFault::LastNumber) => return Ok(false),
            Err(WorldFault::Memory) => return Err(Fault::Memory),
        }
        if self.is_watched {
            self.seen.look(&self.world)?;
        }
        Ok(true)
    }

    /// Compares each tenant with a store alone. After a start it also compares the words of each tenant whose file
    /// opened.
    pub(crate) fn judge(&self, has_started: bool) -> Result<(), Fault> {
        for tenant in 0..self.world.config().tenants.len() {
            let quota = match self.shares.get(tenant) {
                Some(share) => share.quota,
                None => 0,
            };
            let tenant = tenant as u8;
            let has_words = match Door::unpack(self.world.word(At::Door(tenant))) {
                Some(door) => has_started && !door.fault,
                None => false,
            };
            judge(
                self.alloc,
                &self.world,
                tenant,
                quota,
                &self.handed,
                has_words,
            )?;
        }
        Ok(())
    }
}
