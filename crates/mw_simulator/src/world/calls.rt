//! Makes calls on a tenant's simulated file, for requests.
//!
//! `World::step` calls it for an event that is a call on a file (`events.rt`). `stopped_calls.rt` uses the tests here.
//! Change it with `specs/Crashes`, `specs/CallEnds`, `specs/Representation`, `specs/DisksOfCalls`, `specs/StepParts`
//! and `specs/UnchangedParts`.
ghost use Rattle.std.specs.Option.{option_map};
ghost use Rattle.std.specs.Prelude.{◌≡◌, ◌≢◌, ◌<◌, ℕ, true, false, if◌then◌else◌, IfSome, IsTrue, OnErr, OnOk, Option, Some, None, length, slice_get};
ghost use Rattle.mw_words.specs.Change.{is_change};
ghost use Rattle.mw_words.specs.Patterns.{IsStatusInRange};
ghost use Rattle.mw_look.specs.declared.observations.Observation.TheVariants.{Filed};
ghost use Rattle.mw_actor.specs.ActorState.{entries_of_job, own_entries};
ghost use Rattle.mw_world.specs.Files.State.{File};
ghost use Rattle.mw_world_file.specs.declared.simulated_file.SimulatedFile.{SimulatedFile};
ghost use Rattle.mw_world_file.specs.SoundBooks.{HasSound};
ghost use Rattle.mw_world.specs.declared.events.Event.TheVariants.{File as FileEvent};
ghost use Rattle.mw_world.specs.Definition.Calls as calls;
ghost use Rattle.mw_world.specs.Definition.Extent.{has_slot};
ghost use Rattle.mw_world.specs.Definition.State.{State, tenant_at};
ghost use Rattle.mw_world_memory.specs.declared.tenants.TenantState.{TenantState};
ghost use Rattle.mw_simulator.specs.Crashes.{CrashesDoNoHarm};
ghost use Rattle.mw_simulator.specs.CallEnds as ending;
ghost use Rattle.mw_simulator.specs.DisksOfCalls.{CameByCall, DisksFollow, is_made_on_file};
ghost use Rattle.mw_simulator.specs.Representation.{Ends, Represents};
ghost use Rattle.mw_simulator.specs.UnchangedParts.{IsUnchanged, SameBooks, SameBooksBut, book_at, served_by};
ghost use Rattle.mw_simulator.specs.StepParts as stepping;

use crate::faults::WorldFault;
use crate::world::World;
use crate::world::turns::next_attempt;
use mw_actor::{Actor, Point, Slot};
use mw_look::{Call, Got, Kind, Op, Told};
use mw_words::{At, Entries, Job, Status, copy_of, is_change};
use mw_world::{Outcome, StepLabel, starts_from, status_after};
use mw_world_file::{BookFault, SimulatedFile};

/// A call on a tenant's file, for a change.
#[derive(Clone, Copy)]
pub(crate) struct Called {
    /// Which call it is.
    pub(crate) call: Call,
    /// The change that it is for.
    pub(crate) change: Slot,
}

/// How a call on a tenant's file ended.
#[derive(Clone, Copy)]
pub(crate) struct Ended {
    /// It went well.
    went_well: bool,
    /// The label of its step.
    label: StepLabel,
}

impl World {
    /// Makes the next step of a worker's request, if it is a call on its tenant's file.
    pub(crate) fn call(&mut self, worker: u8, outcome: Outcome) -> Result<(), WorldFault>
        ensures config { self.new.config ≡ self.old.config }
        ensures ends { (state : State) → Represents self.old state
            → Ends self.new state (calls.call self.old.config state worker (state.worker_states worker).actor outcome) result }
        ensures unchanged { OnErr result (IsUnchanged self.old self.new) }
        ensures files { (tenant : ℕ) → served_by self.old worker ≢ Some tenant → book_at self.new tenant ≡ book_at self.old tenant }
        ensures moments { (state : State) → Represents self.old state → CrashesDoNoHarm self.old self.new state (FileEvent worker outcome) result }
        ensures disks { (state : State) → Represents self.old state → DisksFollow self.old self.new state (FileEvent worker outcome) result }
    {
        let Some(actor) = self.actor_of(worker) else {
            return Err(WorldFault::NotEnabled);
        };
        let Some(called) = called_at(actor.point()) else {
            return Err(WorldFault::NotEnabled);
        };
        let Some(status) = self.status(called.change.slot) else {
            return Err(WorldFault::NotEnabled);
        };
        if self.reserve(actor.tenant()).is_err() {
            return Err(WorldFault::Memory);
        }
        match self.end(&actor, called, status, outcome) {
            Ok(ended) => {
                self.tell_file(worker, &actor, ended);
                Ok(())
            }
            Err(fault) => Err(WorldFault::from(fault)),
        }
    }

    /// Returns the status of a slot. `None`: there is no such slot.
    pub(crate) fn status(&self, slot: u8) -> Option<Status>
        ensures in_range { IfSome result IsStatusInRange }
        ensures shown { (state : State) → Represents self.now state
            → result ≡ (if has_slot self.now.config slot then Some (state.cells.statuses slot) else None) }
    {
        match self.cells.get(At::Status(slot)) {
            Some(bits) => Status::unpack(bits),
            None => None,
        }
    }

    /// Tells a worker's request how its call on the file ended. There is room for the label.
    fn tell_file(&mut self, worker: u8, actor: &Actor, ended: Ended)
        requires worker { worker < length self.old.worker_states.items }
        requires tenant { actor.now.tenant < length self.old.tenant_states.items }
        requires room { stepping.HasRoom self.old.claims self.old.tenant_states.items actor.now.tenant }
        ensures config { self.new.config ≡ self.old.config }
        ensures shows { (state : State) → Represents self.old state
            → Represents self.new (stepping.told state worker actor.now (Filed ended.went_well) ended.label) }
        ensures files { SameBooks self.old self.new }
    {
        let attempt = next_attempt(actor, self.worker_states[usize::from(worker)].attempt);
        let mut next = actor.copy();
        next.tell(Told {
            got: Got::File(ended.went_well),
            next: attempt,
        });
        self.enter(worker, ended.label, next, attempt);
    }

    /// Makes a call on a tenant's file. The call does nothing if the status isn't one that it starts from, and
    /// fails if the file failed before.
    fn end(
        &mut self,
        actor: &Actor,
        called: Called,
        status: Status,
        outcome: Outcome,
    ) -> Result<Ended, BookFault>
        requires tenant { actor.now.tenant < length self.old.tenant_states.items }
        requires in_range { IsStatusInRange status }
        ensures rest { ending.SameButFiles self.old self.new }
        ensures unchanged { OnErr result (self.new ≡ self.old) }
        ensures files { SameBooksBut actor.now.tenant self.old self.new }
        ensures moments { OnOk result (ending.TouchesFile self.old self.new actor.now.tenant (ending.called_of called) status) }
        ensures disks { OnOk result ((state : State) (was now : SimulatedFile) → Represents self.old state → state.cells.statuses called.change.slot ≡ status
            → book_at self.old actor.now.tenant ≡ Some was → book_at self.new actor.now.tenant ≡ Some now
            → CameByCall (is_made_on_file state actor.now (ending.called_of called)) (ending.called_of called) (own_entries actor.now) outcome was now) }
        ensures ends { (state : State) → Represents self.old state → state.cells.statuses called.change.slot ≡ status
            → ending.Closes self.new state actor.now.tenant (calls.calling self.old.config state actor.now (ending.called_of called) outcome) result }
    {
        if !starts_from(called.call, status) {
            return skipped(outcome);
        }
        if fails_on(
            called.call,
            self.tenant_states[usize::from(actor.tenant())]
                .book
                .has_failed(),
        ) {
            return self.refuse(actor.tenant(), outcome);
        }
        self.work(actor, called, status, outcome)
    }

    /// Ends a call on a file that failed before. It makes no device call, so none can fail.
    fn refuse(&mut self, tenant: u8, outcome: Outcome) -> Result<Ended, BookFault>
        requires tenant { tenant < length self.old.tenant_states.items }
        ensures rest { ending.SameButFiles self.old self.new }
        ensures is { result ≡ ending.makes_none ending.refused outcome }
        ensures files { SameBooks self.old self.new }
        ensures unchanged { OnErr result (self.new ≡ self.old) }
        ensures good { outcome ≡ Outcome.Good → (state : State) → Represents self.old state
            → Represents self.new (stepping.with_cells state (ending.faulted state.cells tenant)) }
        ensures other { (outcome ≡ Outcome.Good → ⊥) → self.new ≡ self.old }
    {
        match outcome {
            Outcome::Good => {
                self.fault(tenant);
                Ok(Ended {
                    went_well: false,
                    label: StepLabel::Nothing,
                })
            }
            Outcome::Fail(_) => Err(BookFault::NotEnabled),
        }
    }

    /// Makes a call that starts. The file hasn't failed, unless the call can't fail.
    fn work(
        &mut self,
        actor: &Actor,
        called: Called,
        status: Status,
        outcome: Outcome,
    ) -> Result<Ended, BookFault>
        requires tenant { actor.now.tenant < length self.old.tenant_states.items }
        requires in_range { IsStatusInRange status }
        requires sound { (called.call ≡ Call.Cancel → ⊥) → (tenant_state : TenantState) → slice_get self.old.tenant_states.items actor.now.tenant ≡ Some tenant_state → tenant_state.book.has_failed ≡ false }
        ensures rest { ending.SameButFiles self.old self.new }
        ensures unchanged { OnErr result (self.new ≡ self.old) }
        ensures files { SameBooksBut actor.now.tenant self.old self.new }
        ensures moments { OnOk result (ending.IsWorked self.old self.new actor.now.tenant called.call called.change.slot) }
        ensures disks { OnOk result ((was now : SimulatedFile) → book_at self.old actor.now.tenant ≡ Some was → book_at self.new actor.now.tenant ≡ Some now
            → CameByCall true (ending.called_of called) (own_entries actor.now) outcome was now) }
        ensures ends { (state : State) → Represents self.old state → state.cells.statuses called.change.slot ≡ status
            → calls.starts_from called.call status ≡ true → calls.fails_on called.call (state.tenant_states actor.now.tenant).file ≡ false
            → ending.Closes self.new state actor.now.tenant (calls.calling self.old.config state actor.now (ending.called_of called) outcome) result }
    {
        let tenant = usize::from(actor.tenant());
        let entries = entries_of(actor.job());
        if !is_formed(
            called.call,
            self.tenant_states[tenant].book.words(),
            &entries,
        ) {
            return Err(BookFault::NotEnabled);
        }
        let book = match self.tenant_states[tenant].book.work(
            self.alloc,
            called.call,
            called.change.slot,
            &entries,
            outcome,
        ) {
            Ok(book) => book,
            Err(fault) => return Err(fault),
        };
        self.file(actor.tenant(), book);
        Ok(self.close(actor.tenant(), called, status, outcome))
    }

    /// Replaces a tenant's book.
    fn file(&mut self, tenant: u8, book: SimulatedFile)
        requires tenant { tenant < length self.old.tenant_states.items }
        requires sound { HasSound (tenant_at self.old.config tenant).words book }
        ensures rest { ending.SameButFiles self.old self.new }
        ensures others { SameBooksBut tenant self.old self.new }
        ensures is { book_at self.new tenant ≡ Some book }
        ensures shows { (state : State) (file : File) → Represents self.old state → ending.IsBookOf self.old.config state tenant book file
            → Represents self.new (stepping.with_file state tenant file) }
    {
        self.tenant_states[usize::from(tenant)].book = book;
    }

    /// Ends a call that was made on a tenant's file, by what the device did.
    fn close(&mut self, tenant: u8, called: Called, status: Status, outcome: Outcome) -> Ended
        requires tenant { tenant < length self.old.tenant_states.items }
        requires in_range { IsStatusInRange status }
        ensures rest { ending.SameButFiles self.old self.new }
        ensures is { result ≡ ending.ended called.call called.change status outcome }
        ensures files { SameBooks self.old self.new }
        ensures shows { (state : State) → Represents self.old state → state.cells.statuses called.change.slot ≡ status
            → Represents self.new (stepping.with_cells state (ending.cells_closed state.cells tenant called.call called.change.slot status outcome)) }
    {
        match outcome {
            Outcome::Good => {
                let after = status_after(called.call, status);
                self.cells.put(At::Status(called.change.slot), after.pack());
                Ended {
                    went_well: true,
                    label: good_label(called, after),
                }
            }
            Outcome::Fail(_) => {
                self.fault(tenant);
                Ended {
                    went_well: false,
                    label: fault_label(called),
                }
            }
        }
    }

    /// Gives a tenant's door the fault.
    fn fault(&mut self, tenant: u8)
        requires tenant { tenant < length self.old.tenant_states.items }
        ensures config { self.new.config ≡ self.old.config }
        ensures worker_states { self.new.worker_states ≡ self.old.worker_states }
        ensures tenant_states { self.new.tenant_states ≡ self.old.tenant_states }
        ensures claims { self.new.claims ≡ self.old.claims }
        ensures shows { (state : State) → Represents self.old state → Represents self.new (stepping.with_cells state (ending.faulted state.cells tenant)) }
    {
        self.cells.make(Op::Change {
            kind: Kind::Fault,
            at: At::Door(tenant),
            from: 0,
            to: 0,
        });
    }
}

/// Returns the call on a file that a request makes at a point, if it makes one.
pub(crate) fn called_at(point: Point) -> Option<Called>
    ensures { option_map ending.called_of result ≡ calls.called_at point }
{
    let (call, change) = match point {
        Point::Prepare(own) => (Call::Prepare, own),
        Point::Seal(task) => (Call::Seal, task.target),
        Point::Settle(task) => (Call::Settle, task.target),
        Point::Cancel(task) => (Call::Cancel, task.target),
        _ => return None,
    };
    Some(Called { call, change })
}

/// Whether a call fails on a file because the file failed before; `has_failed` says if it did.
fn fails_on(call: Call, has_failed: bool) -> bool
    ensures is { (file : File) → file.has_failed ≡ has_failed → result ≡ calls.fails_on call file }
    ensures unless { result ≡ false → (call ≡ Call.Cancel → ⊥) → has_failed ≡ false }
{
    match call {
        Call::Prepare | Call::Seal | Call::Settle => has_failed,
        Call::Cancel => false,
    }
}

/// The entries of a request's own change. A read has none.
pub(crate) fn entries_of(job: &Job) -> Entries
    ensures { result.items ≡ entries_of_job job.now }
{
    match job {
        Job::Get(_) => Entries::new(),
        Job::Cas(entries) => copy_of(entries),
    }
}

/// Whether the change that a call writes down is well formed for a file with `words` words. Only a prepare
/// writes a change down.
pub(crate) fn is_formed(call: Call, words: usize, entries: &Entries) -> bool
    ensures is { (file : File) → length file.contents ≡ words → result ≡ calls.is_formed call file entries.now.items }
    ensures formed { result ≡ true → call ≡ Call.Prepare → IsTrue (is_change words entries.now.items) }
{
    match call {
        Call::Prepare => is_change(entries, words),
        Call::Seal | Call::Settle | Call::Cancel => true,
    }
}

/// Ends a call that does nothing, and so makes no device call.
fn skipped(outcome: Outcome) -> Result<Ended, BookFault>
    ensures { result ≡ ending.makes_none ending.skipped outcome }
{
    match outcome {
        Outcome::Good => Ok(Ended {
            went_well: true,
            label: StepLabel::Nothing,
        }),
        Outcome::Fail(_) => Err(BookFault::NotEnabled),
    }
}

/// The label of a call that went well and left this status.
fn good_label(called: Called, status: Status) -> StepLabel
    ensures { result ≡ calls.good_label called.call called.change status }
{
    match called.call {
        Call::Seal => StepLabel::SealedIt(called.change),
        _ => StepLabel::Decided {
            target: called.change,
            status,
        },
    }
}

/// The label of a call in which a device call failed.
fn fault_label(called: Called) -> StepLabel
    ensures { result ≡ calls.fault_label called.call called.change }
{
    match called.call {
        Call::Seal => StepLabel::FailedToSeal(called.change),
        _ => StepLabel::FailedFile,
    }
}
