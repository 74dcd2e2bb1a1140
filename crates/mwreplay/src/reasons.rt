//! Tells why a line was not played to its end: where its worker is, or which part of a restart can't be.
//!
//! Used by: `restarts`, `program`, for the text after the line's number alone. Change it with `specs/Reasons`,
//! `specs/Positions` and docs/SCHEDULES; scripts/check-texts and scripts/program_parts/pages.py expect the texts. The 10000
//! steps are `MOST_STEPS` of `player`, the quota's 64 is `MAX_QUOTA`.
ghost use Rattle.std.specs.Prelude.{◌≡◌};
ghost use Rattle.mw_world.specs.Definition.State.{State};
ghost use Rattle.mw_simulator.specs.Representation.{Represents};
ghost use Rattle.mwreplay.specs.Positions as positions;
ghost use Rattle.mwreplay.specs.Reasons as spec;

use crate::restarts::restart_reason;
use mw_actor::Actor;
use mw_schedule::{Command, StepKind};
use mw_simulator::World;
use std::fmt;
use thiserror::Error;

/// Why a line of a schedule was not played to its end. A worker is told by its number, from 0, an item of a restart by
/// its place, from 1, and a step by its kind.
#[derive(Clone, Copy, Error)]
pub enum Reason {
    /// The world has no such worker.
    #[error("there is no worker {0}")]
    NoWorker(u8),
    /// The worker has no request.
    #[error("worker {0} has no request")]
    NoRequest(u8),
    /// The worker has a reply that was not handed out.
    #[error("worker {0} has a reply, which `end {0}` hands out")]
    HasReply(u8),
    /// The worker has a request already, whose next step is this.
    #[error("worker {0} has a request, and is at `{1}`")]
    HasRequest(u8, StepKind),
    /// The worker's next step is this call on the file.
    #[error("worker {0} is at `{1}`, a call on the file")]
    AtCall(u8, StepKind),
    /// The worker's next step is this, and is no call on the file.
    #[error("worker {0} is at `{1}`, no call on the file")]
    AtStep(u8, StepKind),
    /// The worker's next step is this call on the file, and doesn't make the device call that is to fail.
    #[error("worker {0} is at `{1}`, which makes no such device call")]
    NoDeviceCall(u8, StepKind),
    /// The worker does not come where the line says in as many steps as one line may, and its next step is this.
    #[error("worker {0} does not come there in 10000 steps, and is at `{1}`")]
    ManySteps(u8, StepKind),
    /// The item gives a quota that isn't 1 to [`mw_words::MAX_QUOTA`], or is above the places of the tenant's file.
    #[error("item {0} gives a quota that is not 1 to 64, or is above the places of the file")]
    Quota(usize),
    /// The quotas of all tenants after the start are together above the pool.
    #[error("the quotas after the start are together above the pool")]
    Pool,
    /// The item's worker is at no call on a file.
    #[error("worker {1} of item {0} is at no call on a file")]
    NoCall(usize, u8),
    /// The item's worker is at a call on the file of another tenant.
    #[error("worker {1} of item {0} is at a call on the file of another tenant")]
    OtherFile(usize, u8),
    /// A call that was under way, or an opening, makes fewer device calls than its item says.
    #[error("a call or an opening makes fewer device calls than its item says")]
    FewCalls,
}

/// A reason is shown by its text.
impl fmt::Debug for Reason {
    fn fmt<W: fmt::Write>(&self, f: &mut fmt::Formatter<W>) -> fmt::Result {
        fmt::Display::fmt(self, f)
    }
}

/// Where a worker of a world is.
#[derive(Clone, Copy)]
pub enum Position {
    /// The world has no such worker.
    Absent,
    /// It has no request.
    Idle,
    /// It has a request, whose next step is of this kind.
    At(StepKind),
    /// It has a reply that was not handed out.
    Replied,
}

/// What a line asks for, as far as the reason depends on it.
#[derive(Clone, Copy)]
pub enum Asked {
    /// This worker begins a request.
    Come(u8),
    /// This worker makes its next step, which is no call on the file.
    Step(u8),
    /// This worker makes a call on the file.
    File(u8),
    /// This worker goes on.
    Going(u8),
    /// All stops and starts again. If it can't, this is the reason.
    Restart(Reason),
}

/// Tells what a line asks for in this world.
pub fn asked_by(world: &World, command: &Command) -> Asked
    ensures { spec.IsAsked world.now command.now result }
{
    match command {
        Command::Come(worker, _, _) => Asked::Come(*worker),
        Command::Step(worker) => Asked::Step(*worker),
        Command::File(worker, _) => Asked::File(*worker),
        Command::Before(worker, _) | Command::To(worker, _) | Command::End(worker) => {
            Asked::Going(*worker)
        }
        Command::Restart(stops) => Asked::Restart(restart_reason(world, stops)),
    }
}

/// Gives the reason why what a line asks for did not happen, or not to its end. The world is the one that it left.
pub fn reason_for(world: &World, asked: Asked) -> Reason
    ensures { (state : State) → Represents world.now state → result ≡ spec.reason_in world.now.config state asked }
{
    match asked {
        Asked::Come(worker) => reason_at(worker, position_of(world, worker), asked),
        Asked::Step(worker) => reason_at(worker, position_of(world, worker), asked),
        Asked::File(worker) => reason_at(worker, position_of(world, worker), asked),
        Asked::Going(worker) => reason_at(worker, position_of(world, worker), asked),
        Asked::Restart(reason) => reason,
    }
}

// Gives the reason for a line of a worker at this position.
fn reason_at(worker: u8, position: Position, asked: Asked) -> Reason
    ensures { result ≡ spec.reason_at worker asked position }
{
    match position {
        Position::Absent => Reason::NoWorker(worker),
        Position::Idle => Reason::NoRequest(worker),
        Position::Replied => Reason::HasReply(worker),
        Position::At(kind) => reason_of_step(worker, kind, asked),
    }
}

// Gives the reason for a line of a worker whose next step is of this kind.
fn reason_of_step(worker: u8, kind: StepKind, asked: Asked) -> Reason
    ensures { result ≡ spec.reason_of_step worker kind asked }
{
    match asked {
        Asked::Come(_) => Reason::HasRequest(worker, kind),
        Asked::Step(_) => Reason::AtCall(worker, kind),
        Asked::File(_) => match kind {
            StepKind::File(_) => Reason::NoDeviceCall(worker, kind),
            StepKind::Load | StepKind::Change(_) => Reason::AtStep(worker, kind),
        },
        Asked::Going(_) => Reason::ManySteps(worker, kind),
        Asked::Restart(reason) => reason,
    }
}

/// Tells where a worker is.
pub fn position_of(world: &World, worker: u8) -> Position
    ensures { (state : State) → Represents world.now state → result ≡ positions.position_in world.now.config state worker }
{
    if worker >= world.config().workers {
        return Position::Absent;
    }
    match world.actor(worker) {
        Some(actor) => position_in(actor),
        None => Position::Idle,
    }
}

// Tells where the worker of a request is.
fn position_in(actor: &Actor) -> Position
    ensures { result ≡ positions.position_of_request actor.now }
{
    match actor.reply() {
        Some(_) => Position::Replied,
        None => Position::At(StepKind::of(actor.ask())),
    }
}
