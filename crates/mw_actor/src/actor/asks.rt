//! Gives a request's next step: one operation on a shared word, or one call on its tenant's file.
//!
//! mw_core, mw_simulator, mwreplay and mw_world_trials call `Actor::ask` before each step. A new point needs a case
//! here, in `specs/Asks` and in `specs/Parts`, and what `points.rt` names.
ghost use Rattle.std.specs.Prelude.{IfSome, ◌≡◌, ◌<◌};
ghost use Rattle.mw_words.specs.declared.limits.TheConstants.{WORN_NUMBER};
ghost use Rattle.mw_words.specs.declared.places.At.TheVariants.{Door as AtDoor, Gate as AtGate, Status as AtStatus, Count, Addr, Expected, New};
ghost use Rattle.mw_words.specs.declared.statuses.Status.TheVariants.{Open};
ghost use Rattle.mw_words.specs.declared.words.Word.TheVariants.{Plain};
ghost use Rattle.mw_words.specs.Patterns.{IsStatusInRange, IsWordInRange};
ghost use Rattle.mw_look.specs.Steps.{Change, StepFits, op_of, place};
ghost use Rattle.mw_look.specs.Program.{freed};
ghost use Rattle.mw_look.specs.declared.steps.Kind.TheVariants.{Fill as FillKind, Resolve as ResolveKind};
ghost use Rattle.mw_look.specs.declared.steps.Op.TheVariants.{Change as ChangeBits, File as FileCall};
ghost use Rattle.mw_actor.specs.ActorState.{entry_of, planted};
ghost use Rattle.mw_actor.specs.Asks.{asks, released, resolved, row_of, word_place};
ghost use Rattle.mw_actor.specs.Parts.{Admitting, Deciding, Helping, Holding, Leaving, Sweeping, step_in};
ghost use Rattle.mw_actor.specs.Ranges.{IsAttemptInRange};

use crate::actor::Actor;
use crate::points::{Attempt, Point, Slot, Sweep, Task};
use mw_look::{Call, Kind, Op};
use mw_words::{At, Gate, Row, Status, Word};

impl Actor {
    /// Returns the next step. What it expects at its place and what it leaves there is in range.
    pub fn ask(&self) -> Op
        ensures is { result ≡ op_of (asks self.now) }
        ensures fits { StepFits (asks self.now) }
    {
        if let Point::Read(look) = self.point {
            return look.ask();
        }
        if let Some(step) = self.step_admitting() {
            return step;
        }
        if let Some(step) = self.step_holding() {
            return step;
        }
        if let Some(step) = self.step_deciding() {
            return step;
        }
        if let Some(step) = self.step_helping() {
            return step;
        }
        if let Some(step) = self.step_sweeping() {
            return step;
        }
        if let Some(step) = self.step_leaving() {
            return step;
        }
        // Each point is in one of the parts above.
        unreachable!()
    }

    // Returns the next step while the request finds a slot and writes its change into it. None at all other
    // points.
    fn step_admitting(&self) -> Option<Op>
        ensures is { result ≡ step_in Admitting self.now }
        ensures fits { IfSome result (λ step. StepFits (asks self.now)) }
    {
        let step = match self.point {
            Point::ReadDoor => Op::Load(self.door()),
            Point::Admit { from, to } => change(Kind::Admit, self.door(), from.pack(), to.pack()),
            Point::ScanGate { slot, .. } => Op::Load(At::Gate(slot)),
            Point::Claim { slot, from, to, .. } => {
                change(Kind::Claim, At::Gate(slot), from.pack(), to.pack())
            }
            Point::FillStatus(own) => fill(own.status_place(), Status::Draft.pack()),
            Point::FillCount(own) => fill(own.count_place(), self.own_entries().len() as u64),
            Point::FillAddr { own, entry } => {
                fill(own.addr_place(entry), u64::from(self.own_entry(entry).addr))
            }
            Point::FillExpected { own, entry } => {
                fill(own.expected_place(entry), self.own_entry(entry).expected)
            }
            Point::FillNew { own, entry } => {
                fill(own.new_place(entry), self.own_entry(entry).new)
            }
            Point::Prepare(own) => file(Call::Prepare, own),
            _ => return None,
        };
        Some(step)
    }

    // Returns the next step while the request looks at the words of an open change and holds them. None at all
    // other points.
    fn step_holding(&self) -> Option<Op>
        ensures is { result ≡ step_in Holding self.now }
        ensures fits { IfSome result (λ step. StepFits (asks self.now)) }
    {
        let step = match self.point {
            Point::Inspect { task, entry }
            | Point::ConfirmAttempt { task, entry, .. }
            | Point::ConfirmDirty { task, entry, .. } => Op::Load(self.word_place(task, entry)),
            Point::AnnounceRow { task, entry, .. } => {
                store(
                    Kind::Row,
                    At::Row(self.worker),
                    row(task.target, entry).pack(),
                )
            }
            Point::Plant {
                task,
                entry,
                number,
            } => self.exchange(
                Kind::Plant,
                task,
                entry,
                self.expected(task, entry),
                self.attempt(number).word(),
            ),
            Point::ReadOtherRow { attempt, .. } => Op::Load(At::Row(attempt.worker)),
            Point::ReadDirtyGate { slot, .. } => Op::Load(At::Gate(slot)),
            Point::CheckThenResolve { task, .. } => Op::Load(task.target.status_place()),
            Point::Resolve {
                task,
                entry,
                attempt,
                was_open,
            } => self.resolve(task, entry, attempt, self.resolved(was_open, task, entry)),
            _ => return None,
        };
        Some(step)
    }

    // Returns the next step while the request takes a change on by its status and its file. None at all other
    // points.
    fn step_deciding(&self) -> Option<Op>
        ensures is { result ≡ step_in Deciding self.now }
        ensures fits { IfSome result (λ step. StepFits (asks self.now)) }
    {
        let step = match self.point {
            Point::ReadTargetStatus(task) => Op::Load(task.target.status_place()),
            Point::DecideYes(task) => decide(Kind::DecideYes, task, Status::YesDirty),
            Point::DecideNo { task, entry, value } => {
                decide(Kind::DecideNo, task, Status::No { entry, value })
            }
            Point::Seal(task) => file(Call::Seal, task.target),
            Point::Settle(task) => file(Call::Settle, task.target),
            Point::Cancel(task) => file(Call::Cancel, task.target),
            _ => return None,
        };
        Some(step)
    }

    // Returns the next step while the request pins another's change and reads it. None at all other points.
    fn step_helping(&self) -> Option<Op>
        ensures is { result ≡ step_in Helping self.now }
        ensures fits { IfSome result (λ step. StepFits (asks self.now)) }
    {
        let entry = self.others.len() as u8;
        let step = match self.point {
            Point::ReadOtherGate { other, .. } => Op::Load(other.gate_place()),
            Point::PinOther {
                other,
                from,
                to,
                ..
            } => { change(Kind::Pin, other.gate_place(), from.pack(), to.pack()) }
            Point::ReadCount(task) => Op::Load(task.target.count_place()),
            Point::ReadAddr { task, .. } => Op::Load(task.target.addr_place(entry)),
            Point::ReadExpected { task, .. } => Op::Load(task.target.expected_place(entry)),
            Point::ReadNew { task, .. } => Op::Load(task.target.new_place(entry)),
            _ => return None,
        };
        Some(step)
    }

    // Returns the next step while the request sweeps the words of a decided change. None at all other points.
    fn step_sweeping(&self) -> Option<Op>
        ensures is { result ≡ step_in Sweeping self.now }
        ensures fits { IfSome result (λ step. StepFits (asks self.now)) }
    {
        let step = match self.point {
            Point::SweepWord { task, entry, .. } | Point::SweepConfirm { task, entry, .. } => {
                Op::Load(self.word_place(task, entry))
            }
            Point::Release { task, sweep, entry } => self.exchange(
                Kind::Release,
                task,
                entry,
                task.target.held(),
                self.released(sweep, task, entry),
            ),
            Point::Clean { task, entry, value } => self.exchange(
                Kind::Clean,
                task,
                entry,
                task.target.dirty(value),
                Word::Plain(value),
            ),
            Point::SweepRow { attempt, .. } => Op::Load(At::Row(attempt.worker)),
            Point::SweepResolve {
                task,
                entry,
                attempt,
                ..
            } => self.resolve(task, entry, attempt, self.expected(task, entry)),
            _ => return None,
        };
        Some(step)
    }

    // Returns the next step while the request gives back a slot and ends. None at all other points.
    fn step_leaving(&self) -> Option<Op>
        ensures is { result ≡ step_in Leaving self.now }
        ensures fits { IfSome result (λ step. StepFits (asks self.now)) }
    {
        let step = match self.point {
            Point::Unpin { slot, .. } => change(Kind::Unpin, slot.gate_place(), 0, 0),
            Point::FreeSlot { slot, .. } => store(
                Kind::Free,
                slot.gate_place(),
                free_gate(slot).pack(),
            ),
            Point::LowerDoor(_) => change(Kind::Drop, self.door(), 0, 0),
            Point::GiveUp { own, .. } => Op::Load(own.status_place()),
            Point::Replied(_) => Op::Load(self.door()),
            _ => return None,
        };
        Some(step)
    }

    // The tenant's door.
    fn door(&self) -> At
        ensures { result ≡ AtDoor self.now.tenant }
    {
        At::Door(self.tenant)
    }

    // An exchange of the word of an entry of the target. Both words are in range.
    fn exchange(&self, kind: Kind, task: Task, entry: u8, from: Word, to: Word) -> Op
        requires from { IsWordInRange from }
        requires to { IsWordInRange to }
        ensures { result ≡ op_of (Change kind (word_place self.now task entry) from to) }
    {
        change(kind, self.word_place(task, entry), from.pack(), to.pack())
    }

    // The exchange of an attempt for this word. Both are in range.
    fn resolve(&self, task: Task, entry: u8, attempt: Attempt, to: Word) -> Op
        requires from { IsAttemptInRange attempt }
        requires to { IsWordInRange to }
        ensures { result ≡ op_of (Change ResolveKind (word_place self.now task entry) (planted attempt) to) }
    {
        self.exchange(Kind::Resolve, task, entry, attempt.word(), to)
    }

    // The place of the word of an entry of the target.
    fn word_place(&self, task: Task, entry: u8) -> At
        ensures { result ≡ word_place self.now task entry }
    {
        At::Data {
            tenant: self.tenant,
            address: self.entry(task, entry).addr,
        }
    }

    // The plain word with the value that an entry expects.
    fn expected(&self, task: Task, entry: u8) -> Word
        ensures is { result ≡ Plain (entry_of self.now task entry).expected }
        ensures in_range { IsWordInRange result }
    {
        Word::Plain(self.entry(task, entry).expected)
    }

    // The word for which an attempt is exchanged.
    fn resolved(&self, was_open: bool, task: Task, entry: u8) -> Word
        requires { task.target.seq < WORN_NUMBER }
        ensures is { result ≡ resolved was_open task.target (entry_of self.now task entry) }
        ensures in_range { IsWordInRange result }
    {
        if was_open {
            task.target.held()
        } else {
            self.expected(task, entry)
        }
    }

    // The word for which a held word is exchanged.
    fn released(&self, sweep: Sweep, task: Task, entry: u8) -> Word
        ensures is { result ≡ released sweep task.target (entry_of self.now task entry) }
        ensures in_range { IsWordInRange result }
    {
        match sweep {
            Sweep::Yes => task.target.dirty(self.entry(task, entry).new),
            _ => self.expected(task, entry),
        }
    }
}

impl Slot {
    // The place of the slot's gate.
    fn gate_place(self) -> At
        ensures { result ≡ AtGate self.slot }
    {
        At::Gate(self.slot)
    }

    // The place of the slot's status.
    fn status_place(self) -> At
        ensures { result ≡ AtStatus self.slot }
    {
        At::Status(self.slot)
    }

    // The place of the slot's number of entries.
    fn count_place(self) -> At
        ensures { result ≡ Count self.slot }
    {
        At::Count(self.slot)
    }

    // The place of an entry's address.
    fn addr_place(self, entry: u8) -> At
        ensures { result ≡ Addr self.slot entry }
    {
        At::Addr {
            slot: self.slot,
            entry,
        }
    }

    // The place of the value that an entry expects.
    fn expected_place(self, entry: u8) -> At
        ensures { result ≡ Expected self.slot entry }
    {
        At::Expected {
            slot: self.slot,
            entry,
        }
    }

    // The place of the value that an entry writes.
    fn new_place(self, entry: u8) -> At
        ensures { result ≡ New self.slot entry }
    {
        At::New {
            slot: self.slot,
            entry,
        }
    }
}

// A change of the word at a place.
fn change(kind: Kind, at: At, from: u64, to: u64) -> Op
    ensures { result ≡ ChangeBits kind at from to }
{
    Op::Change { kind, at, from, to }
}

// A change that stores this at a place, whatever the place has.
fn store(kind: Kind, at: At, to: u64) -> Op
    ensures { result ≡ ChangeBits kind at 0 to }
{
    change(kind, at, 0, to)
}

// A store to a word of the request's own slot.
fn fill(at: At, to: u64) -> Op
    ensures { result ≡ ChangeBits FillKind at 0 to }
{
    store(Kind::Fill, at, to)
}

// The exchange of the target's status Open for this status, which is in range.
fn decide(kind: Kind, task: Task, to: Status) -> Op
    requires { IsStatusInRange to }
    ensures { result ≡ op_of (Change kind (AtStatus task.target.slot) Open to) }
{
    change(
        kind,
        task.target.status_place(),
        Status::Open.pack(),
        to.pack(),
    )
}

// A call on the file for a change.
fn file(call: Call, slot: Slot) -> Op
    ensures { result ≡ FileCall call slot.slot }
{
    Op::File {
        call,
        slot: slot.slot,
    }
}

// The row that names an entry of a change.
fn row(target: Slot, entry: u8) -> Row
    ensures { result ≡ row_of target entry }
{
    Row {
        slot: target.slot,
        entry,
        seq: target.seq,
    }
}

// The free gate of a slot after it was used with this number.
fn free_gate(slot: Slot) -> Gate
    requires { slot.seq < WORN_NUMBER }
    ensures { result ≡ freed slot.seq }
{
    Gate {
        taken: false,
        pins: 0,
        seq: slot.seq + 1,
    }
}
