//! Makes a step of one given kind on one shared word. Each call requires that this is the next step of the request
//! that the pass carries. An exchange returns whether it won, which it does if the word still had the expected bits.
//! If it lost, it changed nothing.
//!
//! No crate calls these: mw_core makes each step by `step`, of `next_step.rt`.
ghost use Rattle.std.specs.Prelude.{◌≡◌, ◌+◌, cond};
ghost use Rattle.mw_words.specs.declared.places.At.TheVariants.{Door as AtDoor, Gate as AtGate, Row as AtRow, Status as AtStatus};
ghost use Rattle.mw_words.specs.declared.statuses.Status.TheVariants as status;
ghost use Rattle.mw_words.specs.declared.words.Word.TheVariants as word;
ghost use Rattle.mw_words.specs.Patterns.{IsDoorInRange, IsGateInRange, IsRowInRange, IsStatusInRange, IsWordInRange, packed_door, packed_gate, packed_row, packed_status, packed_word};
ghost use Rattle.mw_look.specs.declared.steps.Kind.TheVariants as kind;
ghost use Rattle.mw_look.specs.declared.steps.Op.TheVariants.{Change as ChangeBits};
ghost use Rattle.mw_look.specs.declared.observations.Got.TheVariants.{Word as Found, Won as GotWon, Lost as GotLost};
ghost use Rattle.mw_rule.specs.Steps.{IsNextStep, LearnsStep};
ghost use Rattle.mw_rule.specs.WordActions.{AddsStepEvent};
ghost use Rattle.mw_table.specs.Passes.{IsOf, IsOfSameWorker, known};

use crate::shared::{Pass, Shared};
use mw_look::Kind;
use mw_words::{At, Door, Gate, Row, Status, Word};

impl Shared {
    /// Counts one slot more at the tenant's door, if the door is still as it was read. Returns whether it was.
    pub fn admit(&self, pass: &mut Pass, tenant: u8, from: Door, to: Door) -> bool
        requires own { IsOf self.now pass.old }
        requires next { IsNextStep (known pass.old) pass.old.worker (ChangeBits kind.Admit (AtDoor tenant) (packed_door from) (packed_door to)) }
        ensures own { IsOf self.now pass.new }
        ensures worker { IsOfSameWorker pass.old pass.new }
        ensures took { LearnsStep (cond result GotWon GotLost) (known pass.old) (known pass.new) }
        ensures event { AddsStepEvent (cond result GotWon GotLost) (known pass.old) (known pass.new) }
    {
        self.exchange(pass, Kind::Admit, At::Door(tenant), from.pack(), to.pack())
    }

    /// Takes a slot, by its gate, if the gate is still as it was read. Returns whether it was.
    pub fn claim(&self, pass: &mut Pass, slot: u8, from: Gate, to: Gate) -> bool
        requires own { IsOf self.now pass.old }
        requires from { IsGateInRange from }
        requires to { IsGateInRange to }
        requires next { IsNextStep (known pass.old) pass.old.worker (ChangeBits kind.Claim (AtGate slot) (packed_gate from) (packed_gate to)) }
        ensures own { IsOf self.now pass.new }
        ensures worker { IsOfSameWorker pass.old pass.new }
        ensures took { LearnsStep (cond result GotWon GotLost) (known pass.old) (known pass.new) }
        ensures event { AddsStepEvent (cond result GotWon GotLost) (known pass.old) (known pass.new) }
    {
        self.exchange(pass, Kind::Claim, At::Gate(slot), from.pack(), to.pack())
    }

    /// Adds one pin to a slot's gate, if the gate is still as it was read, its number too. Returns whether it was.
    pub fn pin(&self, pass: &mut Pass, slot: u8, from: Gate, to: Gate) -> bool
        requires own { IsOf self.now pass.old }
        requires from { IsGateInRange from }
        requires to { IsGateInRange to }
        requires next { IsNextStep (known pass.old) pass.old.worker (ChangeBits kind.Pin (AtGate slot) (packed_gate from) (packed_gate to)) }
        ensures own { IsOf self.now pass.new }
        ensures worker { IsOfSameWorker pass.old pass.new }
        ensures took { LearnsStep (cond result GotWon GotLost) (known pass.old) (known pass.new) }
        ensures event { AddsStepEvent (cond result GotWon GotLost) (known pass.old) (known pass.new) }
    {
        self.exchange(pass, Kind::Pin, At::Gate(slot), from.pack(), to.pack())
    }

    /// Writes a word of a slot of one's own: its status, its count, or a part of an entry.
    pub fn fill(&self, pass: &mut Pass, at: At, bits: u64)
        requires own { IsOf self.now pass.old }
        requires next { IsNextStep (known pass.old) pass.old.worker (ChangeBits kind.Fill at 0 bits) }
        ensures own { IsOf self.now pass.new }
        ensures worker { IsOfSameWorker pass.old pass.new }
        ensures took { LearnsStep GotWon (known pass.old) (known pass.new) }
        ensures event { AddsStepEvent GotWon (known pass.old) (known pass.new) }
    {
        self.store(pass, Kind::Fill, at, bits)
    }

    /// Takes one pin off a slot's gate. Returns the bits that the gate had, from which the request knows whether its
    /// pin was the last one.
    pub fn unpin(&self, pass: &mut Pass, slot: u8) -> u64
        requires own { IsOf self.now pass.old }
        requires next { IsNextStep (known pass.old) pass.old.worker (ChangeBits kind.Unpin (AtGate slot) 0 0) }
        ensures own { IsOf self.now pass.new }
        ensures worker { IsOfSameWorker pass.old pass.new }
        ensures took { LearnsStep (Found result) (known pass.old) (known pass.new) }
        ensures event { AddsStepEvent (Found result) (known pass.old) (known pass.new) }
    {
        self.subtract(pass, Kind::Unpin, At::Gate(slot), 1 << 48)
    }

    /// Frees a slot that nobody has pinned: stores its gate with the next number.
    pub fn free(&self, pass: &mut Pass, slot: u8, gate: Gate)
        requires own { IsOf self.now pass.old }
        requires gate { IsGateInRange gate }
        requires next { IsNextStep (known pass.old) pass.old.worker (ChangeBits kind.Free (AtGate slot) 0 (packed_gate gate)) }
        ensures own { IsOf self.now pass.new }
        ensures worker { IsOfSameWorker pass.old pass.new }
        ensures took { LearnsStep GotWon (known pass.old) (known pass.new) }
        ensures event { AddsStepEvent GotWon (known pass.old) (known pass.new) }
    {
        self.store(pass, Kind::Free, At::Gate(slot), gate.pack())
    }

    /// Counts one slot less at the tenant's door. Returns the bits that the door had.
    pub fn drop_used(&self, pass: &mut Pass, tenant: u8) -> u64
        requires own { IsOf self.now pass.old }
        requires next { IsNextStep (known pass.old) pass.old.worker (ChangeBits kind.Drop (AtDoor tenant) 0 0) }
        ensures own { IsOf self.now pass.new }
        ensures worker { IsOfSameWorker pass.old pass.new }
        ensures took { LearnsStep (Found result) (known pass.old) (known pass.new) }
        ensures event { AddsStepEvent (Found result) (known pass.old) (known pass.new) }
    {
        self.subtract(pass, Kind::Drop, At::Door(tenant), 1)
    }

    /// Stores one's own row, which then names an entry of a change.
    pub fn row(&self, pass: &mut Pass, row: Row)
        requires own { IsOf self.now pass.old }
        requires row { IsRowInRange row }
        requires next { IsNextStep (known pass.old) pass.old.worker (ChangeBits kind.Row (AtRow pass.old.worker) 0 (packed_row row)) }
        ensures own { IsOf self.now pass.new }
        ensures worker { IsOfSameWorker pass.old pass.new }
        ensures took { LearnsStep GotWon (known pass.old) (known pass.new) }
        ensures event { AddsStepEvent GotWon (known pass.old) (known pass.new) }
    {
        let at = At::Row(pass.worker);
        self.store(pass, Kind::Row, at, row.pack())
    }

    /// Puts the worker's next attempt into a tenant's word, if the word has the expected value. Returns whether it
    /// had. Won or lost, the attempt's number is used up.
    pub fn plant(&self, pass: &mut Pass, at: At, expected: u64) -> bool
        requires own { IsOf self.now pass.old }
        requires from { IsWordInRange (word.Plain expected) }
        requires to { IsWordInRange (word.Planted pass.old.worker pass.old.attempt) }
        requires next { IsNextStep (known pass.old) pass.old.worker (ChangeBits kind.Plant at (packed_word (word.Plain expected)) (packed_word (word.Planted pass.old.worker pass.old.attempt))) }
        ensures own { IsOf self.now pass.new }
        ensures worker { IsOfSameWorker pass.old pass.new }
        ensures attempt { pass.new.attempt ≡ pass.old.attempt + 1 }
        ensures took { LearnsStep (cond result GotWon GotLost) (known pass.old) (known pass.new) }
        ensures event { AddsStepEvent (cond result GotWon GotLost) (known pass.old) (known pass.new) }
    {
        let attempt = Word::Planted {
            worker: pass.worker,
            attempt: pass.attempt,
        };
        self.attempt(pass, at, Word::Plain(expected).pack(), attempt.pack())
    }

    /// Ends an attempt: the word is held by the change, or gets its value back, if the attempt is still there.
    /// Returns whether it was.
    pub fn resolve(&self, pass: &mut Pass, at: At, from: Word, to: Word) -> bool
        requires own { IsOf self.now pass.old }
        requires from { IsWordInRange from }
        requires to { IsWordInRange to }
        requires next { IsNextStep (known pass.old) pass.old.worker (ChangeBits kind.Resolve at (packed_word from) (packed_word to)) }
        ensures own { IsOf self.now pass.new }
        ensures worker { IsOfSameWorker pass.old pass.new }
        ensures took { LearnsStep (cond result GotWon GotLost) (known pass.old) (known pass.new) }
        ensures event { AddsStepEvent (cond result GotWon GotLost) (known pass.old) (known pass.new) }
    {
        self.exchange(pass, Kind::Resolve, at, from.pack(), to.pack())
    }

    /// Decides that a change is made, if it is still open. Returns whether it was.
    pub fn decide_yes(&self, pass: &mut Pass, slot: u8) -> bool
        requires own { IsOf self.now pass.old }
        requires next { IsNextStep (known pass.old) pass.old.worker (ChangeBits kind.DecideYes (AtStatus slot) (packed_status status.Open) (packed_status status.YesDirty)) }
        ensures own { IsOf self.now pass.new }
        ensures worker { IsOfSameWorker pass.old pass.new }
        ensures took { LearnsStep (cond result GotWon GotLost) (known pass.old) (known pass.new) }
        ensures event { AddsStepEvent (cond result GotWon GotLost) (known pass.old) (known pass.new) }
    {
        self.exchange(
            pass,
            Kind::DecideYes,
            At::Status(slot),
            Status::Open.pack(),
            Status::YesDirty.pack(),
        )
    }

    /// Decides that a change is not made, if it is still open. `entry` is the entry that refuses it, and `value` is
    /// what its word has. Returns whether the change was open.
    pub fn decide_no(&self, pass: &mut Pass, slot: u8, entry: u8, value: u64) -> bool
        requires own { IsOf self.now pass.old }
        requires no { IsStatusInRange (status.No entry value) }
        requires next { IsNextStep (known pass.old) pass.old.worker (ChangeBits kind.DecideNo (AtStatus slot) (packed_status status.Open) (packed_status (status.No entry value))) }
        ensures own { IsOf self.now pass.new }
        ensures worker { IsOfSameWorker pass.old pass.new }
        ensures took { LearnsStep (cond result GotWon GotLost) (known pass.old) (known pass.new) }
        ensures event { AddsStepEvent (cond result GotWon GotLost) (known pass.old) (known pass.new) }
    {
        let no = Status::No { entry, value };
        self.exchange(
            pass,
            Kind::DecideNo,
            At::Status(slot),
            Status::Open.pack(),
            no.pack(),
        )
    }

    /// Gives a held word the value that the decision gives it, if the change still holds it. Returns whether it did.
    pub fn release(&self, pass: &mut Pass, at: At, from: Word, to: Word) -> bool
        requires own { IsOf self.now pass.old }
        requires from { IsWordInRange from }
        requires to { IsWordInRange to }
        requires next { IsNextStep (known pass.old) pass.old.worker (ChangeBits kind.Release at (packed_word from) (packed_word to)) }
        ensures own { IsOf self.now pass.new }
        ensures worker { IsOfSameWorker pass.old pass.new }
        ensures took { LearnsStep (cond result GotWon GotLost) (known pass.old) (known pass.new) }
        ensures event { AddsStepEvent (cond result GotWon GotLost) (known pass.old) (known pass.new) }
    {
        self.exchange(pass, Kind::Release, at, from.pack(), to.pack())
    }
}
