//! The points of a request's program (its program counter), each with what the request must know there.
//!
//! Used by: many crates from mw_world on; `actor.rt` goes from point to point. A new point needs a case in
//! `specs/Asks`, `specs/Program`, `specs/Parts`, `specs/Stages` and `specs/Ranges`, and in each law of requests. Many
//! of these laws have a last case for all other points, which takes a new one silently, as in
//! `specs/Knowledge/Points` and `specs/Counts/Ready` of mw_law_runs; so does `step_labels.rt` of mw_world_memory.

use mw_look::Look;
use mw_words::{Door, Gate, Reply};

/// A slot and its sequence number, which together name one change.
#[derive(Clone, Copy, PartialEq, Eq)]
pub struct Slot {
    /// The slot's index in the pool.
    pub slot: u8,
    /// Its sequence number.
    pub seq: u64,
}

/// A request's own change, and its target: the change that it works on. The target is its own change, or
/// another's that is in its way. The request holds a pin of each.
#[derive(Clone, Copy, PartialEq, Eq)]
pub struct Task {
    /// The request's own change.
    pub own: Slot,
    /// The change that it works on.
    pub target: Slot,
}

/// A worker's attempt to hold a word.
#[derive(Clone, Copy, PartialEq, Eq)]
pub struct Attempt {
    /// The worker's number.
    pub worker: u8,
    /// The attempt's number.
    pub number: u64,
}

/// A sweep over the words of a decided change, named for the status that the request loaded before it.
#[derive(Clone, Copy, PartialEq, Eq)]
pub enum Sweep {
    /// The change is made: each word that it holds gets its new value.
    Yes,
    /// The change is made and done: each word with its new value stops naming its slot.
    DoneYes,
    /// The change is refused: each word that it holds gets its old value back.
    No,
    /// The change is refused and done: the same once more.
    DoneNo {
        /// The index of the entry whose word refused the change.
        entry: u8,
        /// The value that its word had.
        value: u64,
    },
}

/// What a request does after it has given back a pin.
#[derive(Clone, Copy)]
pub enum After {
    /// It works on this change.
    Work(Task),
    /// It ends, and leaves its own change as it is: see [`Point::GiveUp`].
    GiveUp {
        /// The request's own change.
        own: Slot,
        /// The reply if the status tells neither that the change is made nor that it is refused.
        undecided: Reply,
    },
    /// It replies.
    Reply(Reply),
}

/// Where a request is in its program: its next step, and what it knows. Words, entries and statuses are those
/// of the target, the `target` of a [`Task`], if nothing else is said.
#[derive(Clone, Copy)]
pub enum Point {
    /// The request is a read, and follows a program of its own.
    Read(Look),
    /// Loads the tenant's door.
    ReadDoor,
    /// Exchanges the door for one that counts one slot more.
    Admit {
        /// The door as it was loaded.
        from: Door,
        /// The door that counts one slot more.
        to: Door,
    },
    /// Loads a slot's gate, to find a slot that it can claim.
    ScanGate {
        /// The slot.
        slot: u8,
        /// Whether this round found a gate that isn't taken and whose number is worn.
        saw_worn: bool,
    },
    /// Exchanges the gate for a claimed one.
    Claim {
        /// The slot.
        slot: u8,
        /// Whether this round found a gate that isn't taken and whose number is worn.
        saw_worn: bool,
        /// The gate as it was loaded.
        from: Gate,
        /// The claimed gate.
        to: Gate,
    },
    /// Stores a draft as the status of its own slot.
    FillStatus(Slot),
    /// Stores the number of entries in its own slot.
    FillCount(Slot),
    /// Stores an entry's address.
    FillAddr {
        /// The request's own slot.
        own: Slot,
        /// The entry's index.
        entry: u8,
    },
    /// Stores the value that the entry expects.
    FillExpected {
        /// The request's own slot.
        own: Slot,
        /// The entry's index.
        entry: u8,
    },
    /// Stores the value that the entry writes.
    FillNew {
        /// The request's own slot.
        own: Slot,
        /// The entry's index.
        entry: u8,
    },
    /// Calls the file to prepare its own change, which makes the change open.
    Prepare(Slot),
    /// Loads the target's status, and goes on as the status tells.
    ReadTargetStatus(Task),
    /// The target is open: loads an entry's word.
    Inspect {
        /// The request's own change and its target.
        task: Task,
        /// The entry's index.
        entry: u8,
    },
    /// The word has the expected value: stores in the worker's row which entry the next attempt is for.
    AnnounceRow {
        /// The request's own change and its target.
        task: Task,
        /// The entry's index.
        entry: u8,
        /// The number of the attempt.
        number: u64,
    },
    /// Exchanges the expected value for the attempt.
    Plant {
        /// The request's own change and its target.
        task: Task,
        /// The entry's index.
        entry: u8,
        /// The number of the attempt.
        number: u64,
    },
    /// The word has an attempt: loads the row of the attempt's worker.
    ReadOtherRow {
        /// The request's own change and its target.
        task: Task,
        /// The entry's index.
        entry: u8,
        /// The attempt in the word.
        attempt: Attempt,
    },
    /// Loads the word again, to confirm that the row belonged to the attempt.
    ConfirmAttempt {
        /// The request's own change and its target.
        task: Task,
        /// The entry's index.
        entry: u8,
        /// The attempt that was in the word.
        attempt: Attempt,
        /// The change that the row names.
        other: Slot,
    },
    /// The word has the expected value, written by another change that is made: loads the gate of that change's
    /// slot.
    ReadDirtyGate {
        /// The request's own change and its target.
        task: Task,
        /// The entry's index.
        entry: u8,
        /// The slot that the word names.
        slot: u8,
        /// The word's value.
        value: u64,
    },
    /// Loads the word again, to confirm that the gate's number belonged to the change that the word names.
    ConfirmDirty {
        /// The request's own change and its target.
        task: Task,
        /// The entry's index.
        entry: u8,
        /// The change that the word names, with the gate's number.
        other: Slot,
        /// The word's value.
        value: u64,
    },
    /// Every word is held: exchanges the status Open for YesDirty.
    DecideYes(Task),
    /// A word has another value: exchanges the status Open for No.
    DecideNo {
        /// The request's own change and its target.
        task: Task,
        /// The entry's index.
        entry: u8,
        /// The word's value.
        value: u64,
    },
    /// The word has an attempt for the target: loads the status, which decides what becomes of the attempt.
    CheckThenResolve {
        /// The request's own change and its target.
        task: Task,
        /// The entry's index.
        entry: u8,
        /// The attempt in the word.
        attempt: Attempt,
    },
    /// Exchanges the attempt for the held word, or for the expected value.
    Resolve {
        /// The request's own change and its target.
        task: Task,
        /// The entry's index.
        entry: u8,
        /// The attempt in the word.
        attempt: Attempt,
        /// Whether the status was Open, so that the target must hold the word.
        was_open: bool,
    },
    /// Another change is in the way: loads its gate.
    ReadOtherGate {
        /// The request's own change and its target.
        task: Task,
        /// The other change.
        other: Slot,
    },
    /// Exchanges the gate for one with one pin more.
    PinOther {
        /// The request's own change and its target.
        task: Task,
        /// The other change.
        other: Slot,
        /// The gate as it was loaded.
        from: Gate,
        /// The gate with one pin more.
        to: Gate,
    },
    /// Loads the number of entries of another's change.
    ReadCount(Task),
    /// Loads the address of its next entry.
    ReadAddr {
        /// The request's own change and its target.
        task: Task,
        /// The number of entries.
        count: u8,
    },
    /// Loads the value that the entry expects.
    ReadExpected {
        /// The request's own change and its target.
        task: Task,
        /// The number of entries.
        count: u8,
        /// The entry's address.
        addr: u16,
    },
    /// Loads the value that the entry writes.
    ReadNew {
        /// The request's own change and its target.
        task: Task,
        /// The number of entries.
        count: u8,
        /// The entry's address.
        addr: u16,
        /// The value that the entry expects.
        expected: u64,
    },
    /// It is decided that the target is made: calls the file to seal it.
    Seal(Task),
    /// The target is decided: loads an entry's word.
    SweepWord {
        /// The request's own change and its target.
        task: Task,
        /// The sweep.
        sweep: Sweep,
        /// The entry's index.
        entry: u8,
    },
    /// The word is held for the target: exchanges it for the value that the decision gives it.
    Release {
        /// The request's own change and its target.
        task: Task,
        /// The sweep.
        sweep: Sweep,
        /// The entry's index.
        entry: u8,
    },
    /// The word's value names the target's slot: exchanges it for the plain value.
    Clean {
        /// The request's own change and its target.
        task: Task,
        /// The entry's index.
        entry: u8,
        /// The word's value.
        value: u64,
    },
    /// The word has an attempt: loads the row of the attempt's worker.
    SweepRow {
        /// The request's own change and its target.
        task: Task,
        /// The sweep.
        sweep: Sweep,
        /// The entry's index.
        entry: u8,
        /// The attempt in the word.
        attempt: Attempt,
    },
    /// Loads the word again, to confirm that the row belonged to the attempt.
    SweepConfirm {
        /// The request's own change and its target.
        task: Task,
        /// The sweep.
        sweep: Sweep,
        /// The entry's index.
        entry: u8,
        /// The attempt that was in the word.
        attempt: Attempt,
        /// The change that the row names.
        other: Slot,
    },
    /// The attempt is for the target: exchanges it for the expected value.
    SweepResolve {
        /// The request's own change and its target.
        task: Task,
        /// The sweep.
        sweep: Sweep,
        /// The entry's index.
        entry: u8,
        /// The attempt in the word.
        attempt: Attempt,
    },
    /// The target is made, and after the sweep no word is held for it: calls the file to settle it.
    Settle(Task),
    /// The target is refused, and the sweep looked at each word once: calls the file to cancel it. A word may
    /// be held again by then, so another sweep follows.
    Cancel(Task),
    /// Takes the request's pin back from a slot's gate.
    Unpin {
        /// The slot, with the number under which it was pinned.
        slot: Slot,
        /// What follows.
        after: After,
    },
    /// The pin was the last one: stores a free gate with the next number.
    FreeSlot {
        /// The slot, with the number under which it was pinned.
        slot: Slot,
        /// What follows.
        after: After,
    },
    /// The slot is free: counts it off the tenant's door.
    LowerDoor(After),
    /// The file failed, or no attempt number is left: loads the status of the request's own change. If the
    /// status tells that the change is made or refused, it decides the reply. The pin of the slot stays.
    GiveUp {
        /// The request's own change.
        own: Slot,
        /// The reply if the status tells neither that the change is made nor that it is refused.
        undecided: Reply,
    },
    /// The request has its reply. It asks for loads of the door, and changes no more.
    Replied(Reply),
}
