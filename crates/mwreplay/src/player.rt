//! Plays the lines of a schedule on a simulated world.
//!
//! Used by: `replay`. A new command of mw_schedule needs a case in `Player::obey`, and a new [`PlayFault`] one in
//! `replay`. Change `MOST_STEPS` with the text in `reasons`, with docs/SCHEDULES, and with scripts/text_parts.
ghost use Rattle.std.specs.Prelude.{◌≡◌, ◌∷◌, [], IfOk, OnErr, Some, None};
ghost use Rattle.mw_world.specs.Definition.State.{IsConfig, State};
ghost use Rattle.mw_world.specs.declared.events.Event.{Event as EventModel};
ghost use Rattle.mw_simulator.specs.Events.{IsAfterRun};
ghost use Rattle.mw_simulator.specs.Representation.{Represents};
ghost use Rattle.mwreplay.specs.PlayerSteps.{AreTurns, IsSame, IsTextOf, Obeys, Plays};
ghost use Rattle.mwreplay.specs.Printed as spec;
ghost use Rattle.mwreplay.specs.Reasons as reasons;
ghost use Rattle.mwreplay.specs.Printed.{text_of, claims_of};

use crate::lines::{claim_line, reply_line, write_whole};
use crate::reasons::{Asked, Reason, asked_by, reason_for};
use mw_actor::Actor;
use mw_look::{Kind, Op};
use mw_schedule::{Command, StepKind};
use mw_simulator::{World, WorldFault};
use mw_words::{At, Gate};
use mw_world::{Config, Event, Outcome};
use std::alloc::{AllocError, Global};
use std::io::Write;

/// The most steps that a worker makes for one line.
const MOST_STEPS: u32 = 10_000;

/// Why a line was not played to its end.
#[derive(Clone, Copy, PartialEq, Eq)]
pub enum PlayFault {
    /// What the line says can't happen in this state of the world.
    NotEnabled,
    /// The line's request would have a number that a world in memory doesn't give.
    LastNumber,
    /// The line's worker has a reply before it comes to what the line says, or makes [`MOST_STEPS`] steps
    /// first.
    DidNotArrive,
    /// Memory is out.
    Memory,
    /// The output takes no more.
    Output,
}

impl From<WorldFault> for PlayFault {
    fn from(fault: WorldFault) -> Self {
        match fault {
            WorldFault::NotEnabled => PlayFault::NotEnabled,
            WorldFault::LastNumber => PlayFault::LastNumber,
            WorldFault::Memory => PlayFault::Memory,
        }
    }
}

/// A world that schedules are played on. The player writes a line for each reply that is handed out, and, if
/// `tells_claims`, for each claim that is won.
#[derive(Drop)]
pub struct Player {
    world: World,
    alloc: Global,
    tells_claims: bool,
}

impl Player {
    /// Makes a player on a new world. The only error is that memory is out.
    pub fn new(alloc: Global, config: Config, tells_claims: bool) -> Result<Self, AllocError>
        requires { IsConfig config }
        ensures config { IfOk result (λ player. player.world.config ≡ config) }
        ensures claims { IfOk result (λ player. player.tells_claims ≡ tells_claims) }
        ensures stands { IfOk result (λ player. IsAfterRun player.world []) }
    {
        let world = World::new(alloc, config)?;
        Ok(Player {
            world,
            alloc,
            tells_claims,
        })
    }

    /// Plays a line, and writes the lines of its replies and claims to `out`.
    ///
    /// # Errors
    ///
    /// [`PlayFault`] says why the line wasn't played to its end. Its steps before that stay made.
    pub fn obey<W: Write>(&mut self, command: Command, out: &mut W) -> Result<(), PlayFault>
        ensures same { IsSame self.old self.new }
        ensures plays { Plays self.old self.new (W.contents out.old) (W.contents out.new) (Obeys command) result }
    {
        match command {
            Command::Come(worker, tenant, job) => {
                self.happen(Event::Come(worker, tenant, job), &[], out)
            }
            Command::Step(worker) => self.step(worker, out),
            Command::File(worker, outcome) => self.happen(Event::File(worker, outcome), &[], out),
            Command::Before(worker, kind) => self.go_before(worker, kind, MOST_STEPS, out),
            Command::To(worker, kind) => self.go_to(worker, kind, out),
            Command::End(worker) => self.go_to_end(worker, out),
            Command::Restart(stops) => self.happen(Event::Restart(stops), &[], out),
        }
    }

    /// Tells what a line asks for, for [`Player::reason`].
    pub fn asked(&self, command: &Command) -> Asked
        ensures { reasons.IsAsked self.now.world command.now result }
    {
        asked_by(&self.world, command)
    }

    /// Gives the reason why a line was not played to its end, after [`Player::obey`] gave [`PlayFault::NotEnabled`] or
    /// [`PlayFault::DidNotArrive`]. `asked` is what [`Player::asked`] told of the line before.
    pub fn reason(&self, asked: Asked) -> Reason
        ensures { (state : State) → Represents self.now.world state → result ≡ reasons.reason_in self.now.world.config state asked }
    {
        reason_for(&self.world, asked)
    }

    /// Makes steps of the worker, at most `most`, until its next step is of this kind. After an error the steps
    /// before stay made.
    pub fn go_before<W: Write>(
        &mut self,
        worker: u8,
        kind: StepKind,
        most: u32,
        out: &mut W,
    ) -> Result<(), PlayFault>
        ensures same { IsSame self.old self.new }
        ensures plays { Plays self.old self.new (W.contents out.old) (W.contents out.new) (AreTurns worker) result }
    {
        for _ in 0..most {
            if self.next_kind(worker)? == kind {
                return Ok(());
            }
            match self.go(worker, out) {
                Ok(()) => {}
                Err(halt) => return Err(halt),
            }
        }
        if self.next_kind(worker)? == kind {
            Ok(())
        } else {
            Err(PlayFault::DidNotArrive)
        }
    }

    // Makes steps of the worker until it has made one of this kind.
    fn go_to<W: Write>(&mut self, worker: u8, kind: StepKind, out: &mut W) -> Result<(), PlayFault>
        ensures same { IsSame self.old self.new }
        ensures plays { Plays self.old self.new (W.contents out.old) (W.contents out.new) (AreTurns worker) result }
    {
        match self.go_before(worker, kind, MOST_STEPS - 1, out) {
            Ok(()) => self.go(worker, out),
            Err(halt) => Err(halt),
        }
    }

    // Makes steps of the worker until it has a reply, and hands the reply out.
    fn go_to_end<W: Write>(&mut self, worker: u8, out: &mut W) -> Result<(), PlayFault>
        ensures same { IsSame self.old self.new }
        ensures plays { Plays self.old self.new (W.contents out.old) (W.contents out.new) (Obeys (Command.End worker)) result }
    {
        match self.go_to_reply(worker, out) {
            Ok(()) => self.hand_out(worker, out),
            Err(halt) => Err(halt),
        }
    }

    // Makes steps of the worker until it has a reply, at most [`MOST_STEPS`].
    fn go_to_reply<W: Write>(&mut self, worker: u8, out: &mut W) -> Result<(), PlayFault>
        ensures same { IsSame self.old self.new }
        ensures plays { Plays self.old self.new (W.contents out.old) (W.contents out.new) (AreTurns worker) result }
    {
        for _ in 0..MOST_STEPS {
            if self.actor(worker)?.reply().is_some() {
                return Ok(());
            }
            match self.go(worker, out) {
                Ok(()) => {}
                Err(halt) => return Err(halt),
            }
        }
        Ok(())
    }

    // Makes the worker's next step. If it is a call on its file, no device call fails.
    fn go<W: Write>(&mut self, worker: u8, out: &mut W) -> Result<(), PlayFault>
        ensures same { IsSame self.old self.new }
        ensures plays { Plays self.old self.new (W.contents out.old) (W.contents out.new) (AreTurns worker) result }
    {
        match self.next_kind(worker) {
            Ok(StepKind::File(_)) => { self.happen(Event::File(worker, Outcome::Good), &[], out) }
            Ok(StepKind::Load | StepKind::Change(_)) => self.step(worker, out),
            Err(halt) => Err(halt),
        }
    }

    // Returns the kind of the worker's next step. A worker that has a reply has none.
    fn next_kind(&self, worker: u8) -> Result<StepKind, PlayFault> {
        let actor = self.actor(worker)?;
        match actor.reply() {
            Some(_) => Err(PlayFault::DidNotArrive),
            None => Ok(StepKind::of(actor.ask())),
        }
    }

    // Makes the worker's next step, which is no call on a file.
    fn step<W: Write>(&mut self, worker: u8, out: &mut W) -> Result<(), PlayFault>
        ensures same { IsSame self.old self.new }
        ensures plays { Plays self.old self.new (W.contents out.old) (W.contents out.new) (λ events. events ≡ EventModel.Step worker ∷ []) result }
    {
        match self.line_of_step(worker) {
            Ok(line) => self.happen(Event::Step(worker), &line, out),
            Err(AllocError) => Err(PlayFault::Memory),
        }
    }

    // Returns the text of the worker's next step: the line of the claim that it wins, if it wins one and
    // `tells_claims`.
    fn line_of_step(&self, worker: u8) -> Result<Vec<u8>, AllocError>
        ensures { IfOk result (λ line. IsTextOf self.now.tells_claims self.now.world (EventModel.Step worker) line.items) }
    {
        if !self.tells_claims {
            return Ok(Vec::new(self.alloc));
        }
        match self.actor(worker) {
            Ok(actor) => self.line_of_claim(actor),
            Err(_) => Ok(Vec::new(self.alloc)),
        }
    }

    // Returns the line of the claim that a request's next step wins, or an empty text.
    fn line_of_claim(&self, actor: &Actor) -> Result<Vec<u8>, AllocError>
        ensures { IfOk result (λ line. (state : State) → Represents self.now.world state → line.items ≡ text_of self.now.world.config (claims_of self.now.world.config state (Some actor.now))) }
    {
        match claimed_by(actor.ask()) {
            Some((slot, expected)) => self.line_of_gate(actor.tenant(), slot, expected),
            None => Ok(Vec::new(self.alloc)),
        }
    }

    // Returns the line of the claim of a slot, if it is won because the gate has the expected bits. Else the
    // text is empty.
    fn line_of_gate(&self, tenant: u8, slot: u8, expected: u64) -> Result<Vec<u8>, AllocError>
        ensures { IfOk result (λ line. (state : State) → Represents self.now.world state → line.items ≡ text_of self.now.world.config (spec.won_by self.now.world.config state.cells tenant (Some (slot, expected)))) }
    {
        let config = self.world.config();
        if u16::from(slot) >= config.pool || self.world.word(At::Gate(slot)) != expected {
            return Ok(Vec::new(self.alloc));
        }
        match Gate::unpack(expected) {
            Some(gate) => claim_line(self.alloc, config, slot, gate.seq, tenant),
            None => Ok(Vec::new(self.alloc)),
        }
    }

    // Hands out the worker's reply, if it has one.
    fn hand_out<W: Write>(&mut self, worker: u8, out: &mut W) -> Result<(), PlayFault>
        ensures same { IsSame self.old self.new }
        ensures plays { Plays self.old self.new (W.contents out.old) (W.contents out.new) (λ events. events ≡ EventModel.Hand worker ∷ []) result }
    {
        match self.line_of_reply(worker) {
            Ok(line) => self.happen(Event::Hand(worker), &line, out),
            Err(halt) => Err(halt),
        }
    }

    // Returns the line of a worker's reply, if it has one.
    fn line_of_reply(&self, worker: u8) -> Result<Vec<u8>, PlayFault>
        ensures { IfOk result (λ line. IsTextOf self.now.tells_claims self.now.world (EventModel.Hand worker) line.items) }
    {
        let actor = self.actor(worker)?;
        let Some(reply) = actor.reply() else {
            return Err(PlayFault::DidNotArrive);
        };
        match reply_line(
            self.alloc,
            self.world.config(),
            worker,
            actor.tenant(),
            reply,
        ) {
            Ok(line) => Ok(line),
            Err(AllocError) => Err(PlayFault::Memory),
        }
    }

    // Makes an event happen, and writes its text.
    fn happen<W: Write>(&mut self, event: Event, text: &[u8], out: &mut W) -> Result<(), PlayFault>
        requires { IsTextOf self.old.tells_claims self.old.world event text.now }
        ensures same { IsSame self.old self.new }
        ensures plays { Plays self.old self.new (W.contents out.old) (W.contents out.new) (λ events. events ≡ event ∷ []) result }
    {
        match self.world.step(event) {
            Ok(()) => write_whole(out, text),
            Err(fault) => Err(PlayFault::from(fault)),
        }
    }

    // Returns the request of a worker. A worker that doesn't exist, or has no request, is refused.
    fn actor(&self, worker: u8) -> Result<&Actor, PlayFault>
        ensures request { IfOk result (λ actor. (state : State) → Represents self.now.world state → (state.worker_states worker).actor ≡ Some actor.now) }
        ensures none { OnErr result ((state : State) → Represents self.now.world state → (state.worker_states worker).actor ≡ None) }
    {
        if worker < self.world.config().workers {
            match self.world.actor(worker) {
                Some(actor) => Ok(actor),
                None => Err(PlayFault::NotEnabled),
            }
        } else {
            Err(PlayFault::NotEnabled)
        }
    }
}

// The slot that a step claims, if it is a claim, with the bits that it expects in the gate.
fn claimed_by(op: Op) -> Option<(u8, u64)>
    ensures { result ≡ spec.claimed_by op }
{
    match op {
        Op::Change { kind, at, from, .. } if kind == Kind::Claim => gate_at(at, from),
        Op::Change { .. } | Op::Load(_) | Op::File { .. } => None,
    }
}

// The gate at a place, with the bits that an exchange expects there.
fn gate_at(at: At, expected: u64) -> Option<(u8, u64)>
    ensures { result ≡ spec.gate_at at expected }
{
    match at {
        At::Gate(slot) => Some((slot, expected)),
        At::Door(_)
        | At::Row(_)
        | At::Data { .. }
        | At::Status(_)
        | At::Count(_)
        | At::Addr { .. }
        | At::Expected { .. }
        | At::New { .. } => None,
    }
}
