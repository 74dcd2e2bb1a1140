//! Makes the events of a simulated world, and tells its state: the public calls.
//!
//! Used by: mwreplay, mw_table_tests, mw_world_trials. Its contracts are in `specs/Events`, `specs/ServiceAlone`,
//! `specs/Crashes`, `specs/DisksOfCalls`, `specs/UnchangedParts` and `specs/Invariant`. PROMISES, THEOREM and
//! HOW-IT-IS-PROVED cite `step` or `run`.
ghost use Rattle.std.specs.Prelude.{◌≡◌, ◌<◌, ◌++◌, List, Some, None, IfOk, IsTrue, MatchOption, OnErr, slice_get, length};
ghost use Rattle.std.specs.Option.{option_and_then};
ghost use Rattle.mw_world.specs.Definition.Extent.{has_place};
ghost use Rattle.mw_world.specs.Definition.Events.{WorldEvent};
ghost use Rattle.mw_world.specs.Definition.State.{State, marks_of};
ghost use Rattle.mw_look.specs.Places.{pack};
ghost use Rattle.mw_world.specs.Definition.Cells.{read};
ghost use Rattle.mw_world_memory.specs.Bits.{bits_at};
ghost use Rattle.mw_simulator.specs.Crashes.{CrashesDoNoHarm};
ghost use Rattle.mw_simulator.specs.DisksOfCalls.{DisksFollow};
ghost use Rattle.mw_simulator.specs.Invariant.{Holds};
ghost use Rattle.mw_simulator.specs.Events.{Happens, Runs, RunsBySteps, IsAfterRun, IsAfterEvent};
ghost use Rattle.mw_simulator.specs.ServiceAlone.{AreLegal, Serves};
ghost use Rattle.mw_simulator.specs.Representation.{Represents};
ghost use Rattle.mw_simulator.specs.UnchangedParts.{IsUnchanged, LeavesFiles};

use crate::faults::WorldFault;
use crate::world::World;
use mw_actor::Actor;
use mw_lone::Mark;
use mw_words::At;
use mw_world::{Config, Event};
use mw_world_memory::{TenantState, WorkerState};
use std::alloc::AllocError;

impl World {
    /// The configuration that the world was made of.
    pub fn config(&self) -> &Config
        ensures { result.now ≡ self.now.config }
    {
        &self.config
    }

    /// Returns the request of a worker, if it has one. The worker is one of the world's.
    pub fn actor(&self, worker: u8) -> Option<&Actor>
        requires { worker < self.now.config.workers }
        ensures { (state : State) → Represents self.now state → MatchOption result ((state.worker_states worker).actor ≡ None) (λ actor. (state.worker_states worker).actor ≡ Some actor.now) }
    {
        self.worker_states[usize::from(worker)].actor.as_ref()
    }

    /// The workers, as the world has them in memory.
    pub fn worker_states(&self) -> &[WorkerState]
        ensures { result.now ≡ self.now.worker_states.items }
    {
        &self.worker_states
    }

    /// The tenants, as the world has them in memory.
    pub fn tenant_states(&self) -> &[TenantState]
        ensures { result.now ≡ self.now.tenant_states.items }
    {
        &self.tenant_states
    }

    /// Returns the bits of a shared word, which is one of the world's.
    pub fn word(&self, at: At) -> u64
        requires { IsTrue (has_place self.now.config at) }
        ensures { (state : State) → Represents self.now state → result ≡ pack at (read state.cells at) }
    {
        match self.cells.get(at) {
            Some(bits) => bits,
            None => 0,
        }
    }

    /// Returns the number of a worker's next attempt to hold a word. The worker is one of the world's.
    pub fn attempt(&self, worker: u8) -> u64
        requires { worker < self.now.config.workers }
        ensures { (state : State) → Represents self.now state → result ≡ (state.worker_states worker).attempt }
    {
        self.worker_states[usize::from(worker)].attempt
    }

    /// Returns a tenant's marks: what has happened to its store alone, in order. The tenant is one of the
    /// world's. After a run from a new world in which there were numbers left at every moment, the marks are a
    /// legal run of the store alone that has the tenant's first words. By these marks that store hands out the
    /// replies that the tenant was given. The only error is that memory is out.
    pub fn marks(&self, tenant: u8) -> Result<Vec<Mark>, AllocError>
        requires { tenant < length self.now.config.tenants.items }
        ensures shown { (state : State) → Represents self.now state → IfOk result (λ marks. marks.items ≡ marks_of state tenant) }
        ensures legal { IfOk result (λ marks. AreLegal self.now tenant marks.items) }
    {
        self.tenant_states[usize::from(tenant)]
            .lines
            .marks(self.alloc)
    }

    /// Makes one event happen. After an error the world is unchanged, except that its lists may keep more room
    /// for further marks and claims. Only a call on a tenant's file, and a start, touch that file.
    ///
    /// If a run from a new world led here, the world has the invariant of `specs/Invariant`. If the run also
    /// had numbers left at every moment, each tenant is served as its store alone would serve it:
    /// `specs/ServiceAlone`.
    ///
    /// # Errors
    ///
    /// [`WorldFault::NotEnabled`]: the event can't happen in this state of the world.
    /// [`WorldFault::LastNumber`]: it can, but it is a request whose number would be `2^64 - 1`, which a world
    /// in memory doesn't give. [`WorldFault::Memory`]: memory is out.
    pub fn step(&mut self, event: Event) -> Result<(), WorldFault>
        ensures config { self.new.config ≡ self.old.config }
        ensures happens { (state : State) → Represents self.old state → Happens self.old self.new state event result }
        ensures stands { (happened : List WorldEvent) → IsAfterRun self.old happened → IsAfterEvent self.new happened event result }
        ensures unchanged { OnErr result (IsUnchanged self.old self.new) }
        ensures files { LeavesFiles self.old self.new event }
        ensures moments { (state : State) → Represents self.old state → CrashesDoNoHarm self.old self.new state event result }
        ensures disks { (state : State) → Represents self.old state → DisksFollow self.old self.new state event result }
        ensures holds { Holds self.new }
        ensures serves { Serves self.new }
    {
        self.apply(&event)
    }

    /// Makes events happen, one after the other.
    ///
    /// If a run from a new world led here, the world has the invariant of `specs/Invariant`. If the run also
    /// had numbers left at every moment, each tenant is served as its store alone would serve it:
    /// `specs/ServiceAlone`.
    ///
    /// # Errors
    ///
    /// The index of the event that was refused, and why. The events before it have happened. The refused one
    /// changed nothing, except that the lists may keep more room for further marks and claims.
    pub fn run(&mut self, events: &[Event]) -> Result<(), (usize, WorldFault)>
        ensures config { self.new.config ≡ self.old.config }
        ensures steps { RunsBySteps self.old self.new events.now result }
        ensures runs { (happened : List WorldEvent) → IsAfterRun self.old happened → Runs self.new happened events.now result }
        ensures holds { Holds self.new }
        ensures serves { Serves self.new }
    {
        for (index, event) in events.iter().enumerate() {
            if let Err(fault) = self.apply(event) {
                return Err((index, fault));
            }
        }
        Ok(())
    }

    fn apply(&mut self, event: &Event) -> Result<(), WorldFault>
        ensures config { self.new.config ≡ self.old.config }
        ensures happens { (state : State) → Represents self.old state → Happens self.old self.new state event.now result }
        ensures unchanged { OnErr result (IsUnchanged self.old self.new) }
        ensures files { LeavesFiles self.old self.new event.now }
        ensures moments { (state : State) → Represents self.old state → CrashesDoNoHarm self.old self.new state event.now result }
        ensures disks { (state : State) → Represents self.old state → DisksFollow self.old self.new state event.now result }
    {
        match event {
            Event::Come(worker, tenant, job) => self.come(*worker, *tenant, job),
            Event::Step(worker) => self.turn(*worker),
            Event::File(worker, outcome) => self.call(*worker, *outcome),
            Event::Hand(worker) => self.hand(*worker),
            Event::Restart(stops) => self.restart(stops),
        }
    }
}
