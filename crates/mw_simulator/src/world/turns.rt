//! Makes a request come, make its next step, or hand out its reply.
//!
//! `World::step` calls these for its events (`events.rt`); `calls.rt` uses some for a call on a file. Change it with
//! `specs/Representation`, `specs/UnchangedParts` and `specs/StepParts`.
ghost use Rattle.std.specs.Prelude.{◌≡◌, ◌<◌, true, IfSome, OnErr, OnOk, length};
ghost use Rattle.mw_look.specs.Observations.{observation_of};
ghost use Rattle.mw_look.specs.Steps.{place};
ghost use Rattle.mw_actor.specs.Asks.{asks};
ghost use Rattle.mw_actor.specs.ActorState.{ActorState};
ghost use Rattle.mw_actor.specs.Ranges.{IsFormed};
ghost use Rattle.mw_world.specs.Definition.Requests.{came, gave};
ghost use Rattle.mw_world.specs.Definition.State.{State};
ghost use Rattle.mw_world.specs.Definition.Turns as turns;
ghost use Rattle.mw_world.specs.Definition.World as spec;
ghost use Rattle.mw_simulator.specs.declared.faults.TheConstants.{MOST_REQUESTS};
ghost use Rattle.mw_simulator.specs.Representation.{Comes, Ends, Represents};
ghost use Rattle.mw_simulator.specs.UnchangedParts.{IsUnchanged, SameBooks, served_by};
ghost use Rattle.mw_simulator.specs.StepParts as stepping;

use crate::faults::{MOST_REQUESTS, WorldFault};
use crate::world::World;
use mw_actor::{Actor, Point};
use mw_lone::Mark;
use mw_look::{Got, Observation, Told};
use mw_words::{At, Job};
use mw_world::StepLabel;
use mw_world_memory::label_of;
use std::alloc::AllocError;

impl World {
    /// Gives a worker a request of a tenant.
    pub(crate) fn come(&mut self, worker: u8, tenant: u8, job: &Job) -> Result<(), WorldFault>
        ensures config { self.new.config ≡ self.old.config }
        ensures ends { (state : State) → Represents self.old state
            → Comes self.new state tenant (spec.come self.old.config state worker tenant job.now) result }
        ensures unchanged { OnErr result (IsUnchanged self.old self.new) }
        ensures files { SameBooks self.old self.new }
    {
        if !self.is_free(worker) {
            return Err(WorldFault::NotEnabled);
        }
        let Some(request) = self.request_for(tenant, job) else {
            return Err(WorldFault::NotEnabled);
        };
        if request >= MOST_REQUESTS {
            return Err(WorldFault::LastNumber);
        }
        if self.reserve(tenant).is_err() {
            return Err(WorldFault::Memory);
        }
        self.begin(worker, tenant, request, job);
        Ok(())
    }

    /// Whether the worker exists and has no request.
    fn is_free(&self, worker: u8) -> bool
        ensures there { result ≡ true → worker < length self.now.worker_states.items }
        ensures shown { (state : State) → Represents self.now state → result ≡ stepping.is_free self.now.config state worker }
    {
        match self.worker_states.get(usize::from(worker)) {
            Some(worker_state) => worker_state.actor.is_none(),
            None => false,
        }
    }

    /// Returns the number of a tenant's next request, if the tenant exists and may ask for this.
    fn request_for(&self, tenant: u8, job: &Job) -> Option<u64>
        ensures there { IfSome result (λ request. tenant < length self.now.tenant_states.items) }
        ensures formed { IfSome result (λ request. IsFormed job.now) }
        ensures shown { (state : State) → Represents self.now state → result ≡ stepping.request_for self.now.config state tenant job.now }
    {
        let place = usize::from(tenant);
        if place >= self.tenant_states.len() {
            return None;
        }
        if !job.is_well_formed(usize::from(self.config.tenants[place].words)) {
            return None;
        }
        Some(self.tenant_states[place].asked)
    }

    /// Begins a worker on a tenant's next request. There is room for its mark.
    fn begin(&mut self, worker: u8, tenant: u8, request: u64, job: &Job)
        requires worker { worker < length self.old.worker_states.items }
        requires tenant { tenant < length self.old.tenant_states.items }
        requires number { request < MOST_REQUESTS }
        requires formed { IsFormed job.now }
        requires room { stepping.HasRoom self.old.claims self.old.tenant_states.items tenant }
        ensures config { self.new.config ≡ self.old.config }
        ensures shows { (state : State) → Represents self.old state → request ≡ (state.tenant_states tenant).asked
            → Represents self.new (came self.old.config state worker tenant job.now) }
        ensures files { SameBooks self.old self.new }
    {
        let tenant_state = &mut self.tenant_states[usize::from(tenant)];
        let actor = Actor::new(
            worker,
            tenant,
            tenant_state.quota,
            self.config.pool,
            job.copy(),
        );
        tenant_state
            .lines
            .more(Some(Mark::Ask(request, job.copy())));
        tenant_state.asked = request + 1;
        let worker_state = &mut self.worker_states[usize::from(worker)];
        worker_state.actor = Some(actor);
        worker_state.request = request;
        worker_state.retiring = request;
    }

    /// Makes the next step of a worker's request, if it is no call on a file.
    pub(crate) fn turn(&mut self, worker: u8) -> Result<(), WorldFault>
        ensures config { self.new.config ≡ self.old.config }
        ensures ends { (state : State) → Represents self.old state
            → Ends self.new state (turns.turn self.old.config state worker (state.worker_states worker).actor) result }
        ensures unchanged { OnErr result (IsUnchanged self.old self.new) }
        ensures files { SameBooks self.old self.new }
    {
        let Some(actor) = self.actor_of(worker) else {
            return Err(WorldFault::NotEnabled);
        };
        if actor.reply().is_some() {
            return Err(WorldFault::NotEnabled);
        }
        if self.reserve(actor.tenant()).is_err() {
            return Err(WorldFault::Memory);
        }
        let op = actor.ask();
        let Some(got) = self.cells.make(op) else {
            return Err(WorldFault::NotEnabled);
        };
        self.go_on(worker, &actor, op.place(), got);
        Ok(())
    }

    /// Returns a worker's request, if it has one. Its tenant is one of the world's.
    pub(crate) fn actor_of(&self, worker: u8) -> Option<Actor>
        ensures worker { IfSome result (λ actor. worker < length self.now.worker_states.items) }
        ensures tenant { IfSome result (λ actor. actor.tenant < length self.now.tenant_states.items) }
        ensures served { IfSome result (λ actor. served_by self.now worker ≡ Some actor.tenant) }
        ensures shown { (state : State) → Represents self.now state → result ≡ (state.worker_states worker).actor }
    {
        let Some(worker_state) = self.worker_states.get(usize::from(worker)) else {
            return None;
        };
        let Some(actor) = &worker_state.actor else {
            return None;
        };
        if usize::from(actor.tenant()) >= self.tenant_states.len() {
            return None;
        }
        Some(actor.copy())
    }

    /// Makes room for the label of one step of a tenant's request. Whether memory is out or not, nothing else
    /// changes.
    pub(crate) fn reserve(&mut self, tenant: u8) -> Result<(), AllocError>
        requires tenant { tenant < length self.old.tenant_states.items }
        ensures config { self.new.config ≡ self.old.config }
        ensures cells { self.new.cells ≡ self.old.cells }
        ensures worker_states { self.new.worker_states ≡ self.old.worker_states }
        ensures count { length self.new.tenant_states.items ≡ length self.old.tenant_states.items }
        ensures shows { (state : State) → Represents self.old state → Represents self.new state }
        ensures unchanged { IsUnchanged self.old self.new }
        ensures room { OnOk result (stepping.HasRoom self.new.claims self.new.tenant_states.items tenant) }
    {
        self.tenant_states[usize::from(tenant)].lines.reserve()?;
        self.claims.reserve()
    }

    /// Takes in a step of a worker's request, which found this at its place.
    fn go_on(&mut self, worker: u8, actor: &Actor, at: At, got: Got)
        requires worker { worker < length self.old.worker_states.items }
        requires tenant { actor.now.tenant < length self.old.tenant_states.items }
        requires room { stepping.HasRoom self.old.claims self.old.tenant_states.items actor.now.tenant }
        ensures config { self.new.config ≡ self.old.config }
        ensures shows { (state : State) → Represents self.old state → at ≡ place (asks actor.now)
            → Represents self.new (stepping.told state worker actor.now (observation_of at got) (stepping.meaning state worker actor.now (observation_of at got))) }
        ensures files { SameBooks self.old self.new }
    {
        let attempt = next_attempt(actor, self.worker_states[usize::from(worker)].attempt);
        let mut next = actor.copy();
        next.tell(Told { got, next: attempt });
        let label = label_of(actor, Observation::of(at, got), next.point());
        self.enter(worker, label, next, attempt);
    }

    /// Takes in a step with this label; the request goes on as `next`. There is room for the label.
    pub(crate) fn enter(&mut self, worker: u8, label: StepLabel, next: Actor, attempt: u64)
        requires worker { worker < length self.old.worker_states.items }
        requires tenant { next.tenant < length self.old.tenant_states.items }
        requires room { stepping.HasRoom self.old.claims self.old.tenant_states.items next.tenant }
        ensures config { self.new.config ≡ self.old.config }
        ensures shows { (state : State) (actor : ActorState) → Represents self.old state → Represents self.new (stepping.entered state worker actor next label attempt) }
        ensures files { SameBooks self.old self.new }
    {
        let lines = &mut self.tenant_states[usize::from(next.tenant())].lines;
        let worker_state = &mut self.worker_states[usize::from(worker)];
        let kept = lines.len();
        lines.mark(label, worker_state, &self.claims);
        worker_state.label(label, &self.claims, kept);
        self.claims.label(label, worker_state.request);
        worker_state.actor = Some(next);
        worker_state.attempt = attempt;
    }

    /// Hands out the reply to a worker's request, if the request has one.
    pub(crate) fn hand(&mut self, worker: u8) -> Result<(), WorldFault>
        ensures config { self.new.config ≡ self.old.config }
        ensures ends { (state : State) → Represents self.old state
            → Ends self.new state (spec.hand state worker (state.worker_states worker).actor) result }
        ensures unchanged { OnErr result (IsUnchanged self.old self.new) }
        ensures files { SameBooks self.old self.new }
    {
        let Some(actor) = self.actor_of(worker) else {
            return Err(WorldFault::NotEnabled);
        };
        if actor.reply().is_none() {
            return Err(WorldFault::NotEnabled);
        }
        if self.reserve(actor.tenant()).is_err() {
            return Err(WorldFault::Memory);
        }
        self.give(worker, actor.tenant());
        Ok(())
    }

    /// Hands out the reply to a worker's request, which is of this tenant. There is room for its mark.
    fn give(&mut self, worker: u8, tenant: u8)
        requires worker { worker < length self.old.worker_states.items }
        requires tenant { tenant < length self.old.tenant_states.items }
        requires room { stepping.HasRoom self.old.claims self.old.tenant_states.items tenant }
        ensures config { self.new.config ≡ self.old.config }
        ensures shows { (state : State) → Represents self.old state → Represents self.new (gave state worker tenant) }
        ensures files { SameBooks self.old self.new }
    {
        let worker_state = &mut self.worker_states[usize::from(worker)];
        let lines = &mut self.tenant_states[usize::from(tenant)].lines;
        lines.more(Some(Mark::Reply(worker_state.request)));
        worker_state.actor = None;
    }
}

/// Returns the number of a worker's next attempt after its request made its next step: one more than the last,
/// if the step made an attempt.
pub(crate) fn next_attempt(actor: &Actor, attempt: u64) -> u64
    ensures { result ≡ turns.next_attempt actor.now.point attempt }
{
    match actor.point() {
        Point::Plant { number, .. } => number + 1,
        _ => attempt,
    }
}
