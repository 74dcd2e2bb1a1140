//! Computes where a request goes next from what it knows of its own change and of the change that it works on.
//!
//! `actor.rt` and its two parts call it. Each function follows `specs/Program`, or a part of it (`specs/Help`,
//! `specs/Inspection`, `specs/ReleasePhase`, `specs/RequestEnds`): change both together.
ghost use Rattle.std.specs.Prelude.{◌≡◌};
ghost use Rattle.mw_words.specs.Patterns.{IsGateInRange};
ghost use Rattle.mw_words.specs.declared.words.Word.TheVariants.{Dirty};
ghost use Rattle.mw_actor.specs.declared.points.Point.TheVariants.{CheckThenResolve, Plant};
ghost use Rattle.mw_actor.specs.ActorState as acting;
ghost use Rattle.mw_actor.specs.RequestEnds as spec;
ghost use Rattle.mw_actor.specs.Help as helping;
ghost use Rattle.mw_actor.specs.Inspection as inspecting;
ghost use Rattle.mw_actor.specs.ReleasePhase as sweeping;

use crate::points::{After, Attempt, Point, Slot, Sweep, Task};
use mw_pool::pin;
use mw_words::{Gate, MAX_ENTRIES, MAX_VALUE, MAX_WORDS, Reply, Row, Status, WORN_NUMBER, Word};

impl Slot {
    /// Returns the change that a row names.
    pub fn of_row(row: Row) -> Slot
        ensures { result ≡ acting.row_slot row }
    {
        Slot {
            slot: row.slot,
            seq: row.seq,
        }
    }

    /// Returns the change of a slot with this gate.
    pub(crate) fn of_gate(slot: u8, gate: Gate) -> Slot
        ensures { result ≡ record { slot = slot; seq = gate.seq } }
    {
        Slot {
            slot,
            seq: gate.seq,
        }
    }

    /// Returns the word that is held for the change.
    pub fn held(self) -> Word
        ensures { result ≡ acting.held self }
    {
        Word::Held {
            slot: self.slot,
            seq: self.seq,
        }
    }

    /// Returns the word that has this value from the change.
    pub fn dirty(self, value: u64) -> Word
        ensures { result ≡ Dirty self.slot value }
    {
        Word::Dirty {
            slot: self.slot,
            value,
        }
    }
}

impl Attempt {
    /// Returns the word that has this attempt.
    pub fn word(self) -> Word
        ensures { result ≡ acting.planted self }
    {
        Word::Planted {
            worker: self.worker,
            attempt: self.number,
        }
    }
}

impl After {
    /// Returns the point that follows.
    pub fn resumed(self) -> Point
        ensures { result ≡ spec.resumed self }
    {
        match self {
            After::Work(task) => task.works(),
            After::GiveUp { own, undecided } => Point::GiveUp { own, undecided },
            After::Reply(reply) => Point::Replied(reply),
        }
    }

    /// Returns the point after the pin was taken back from this gate. If it was the last pin, the slot is
    /// freed.
    pub fn unpinned(self, slot: Slot, gate: Gate) -> Point
        ensures { result ≡ spec.unpinned slot self gate }
    {
        if gate.pins == 1 {
            Point::FreeSlot { slot, after: self }
        } else {
            self.resumed()
        }
    }
}

impl Task {
    /// Makes the task of a request that works on its own change.
    pub fn alone(own: Slot) -> Task
        ensures { result ≡ acting.alone own }
    {
        Task { own, target: own }
    }

    /// Tells whether the target is the request's own change.
    pub fn is_alone(self) -> bool
        ensures { result ≡ acting.is_alone self }
    {
        self.target == self.own
    }

    /// Returns where the work on the target begins. Another's change is read first.
    pub fn works(self) -> Point
        ensures { result ≡ spec.works self }
    {
        if self.is_alone() {
            Point::ReadTargetStatus(self)
        } else {
            Point::ReadCount(self)
        }
    }

    /// Returns where the request goes to give up. It gives back the pin of another's change, and keeps its own
    /// pin.
    pub fn gives_up(self, undecided: Reply) -> Point
        ensures { result ≡ spec.gives_up self undecided }
    {
        let own = self.own;
        if self.is_alone() {
            Point::GiveUp { own, undecided }
        } else {
            Point::Unpin {
                slot: self.target,
                after: After::GiveUp { own, undecided },
            }
        }
    }

    /// Returns where the request goes after its target is done: from another's back to its own change, from its
    /// own to the reply.
    pub fn finishes(self, reply: Reply) -> Point
        ensures { result ≡ spec.finishes self reply }
    {
        if self.is_alone() {
            Point::Unpin {
                slot: self.own,
                after: After::Reply(reply),
            }
        } else {
            Point::Unpin {
                slot: self.target,
                after: After::Work(Task::alone(self.own)),
            }
        }
    }

    /// Returns where the request goes to work on a change that is its own, or that it has just pinned. It first
    /// unpins another's change that was its target.
    pub fn turns_to(self, other: Slot) -> Point
        ensures { result ≡ helping.turns_to self other }
    {
        let next = Task {
            own: self.own,
            target: other,
        };
        if self.is_alone() {
            next.works()
        } else {
            Point::Unpin {
                slot: self.target,
                after: After::Work(next),
            }
        }
    }

    /// Returns where the request goes when a change is in its way. Its own change is pinned already; another's
    /// must be pinned first.
    pub fn helps(self, other: Slot) -> Point
        ensures { result ≡ helping.helps self other }
    {
        if other == self.own {
            self.turns_to(self.own)
        } else {
            Point::ReadOtherGate { task: self, other }
        }
    }

    /// Returns where the request goes from the gate of another's change. If the gate is taken under that
    /// change's number and has a pin, it goes to the pin. Else it looks at its target again. It also does so if
    /// the gate has all the pins that it can have, or if the number is [`WORN_NUMBER`], which has no successor.
    /// The gate's fields must be in range.
    pub fn other_gate_read(self, other: Slot, gate: Gate) -> Point
        requires { IsGateInRange gate }
        ensures { result ≡ helping.other_gate_read self other gate }
    {
        match pin(gate, other.seq) {
            Some(to) if other.seq < WORN_NUMBER => Point::PinOther {
                task: self,
                other,
                from: gate,
                to,
            },
            _ => Point::ReadTargetStatus(self),
        }
    }

    /// Returns where the request goes from the number of entries of another's change. It stays if no change has
    /// so many.
    pub fn count_read(self, count: u64) -> Point
        ensures { result ≡ helping.count_read self count }
    {
        if (1..=MAX_ENTRIES as u64).contains(&count) {
            Point::ReadAddr {
                task: self,
                count: count as u8,
            }
        } else {
            Point::ReadCount(self)
        }
    }

    /// Returns where the request goes from an entry's address. It stays if no tenant has such a word.
    pub fn addr_read(self, count: u8, addr: u64) -> Point
        ensures { result ≡ helping.addr_read self count addr }
    {
        if addr < u64::from(MAX_WORDS) {
            Point::ReadExpected {
                task: self,
                count,
                addr: addr as u16,
            }
        } else {
            Point::ReadAddr { task: self, count }
        }
    }

    /// Returns where the request goes from the value that an entry expects. It stays if no word has it.
    pub fn expected_read(self, count: u8, addr: u16, expected: u64) -> Point
        ensures { result ≡ helping.expected_read self count addr expected }
    {
        if expected <= MAX_VALUE {
            Point::ReadNew {
                task: self,
                count,
                addr,
                expected,
            }
        } else {
            Point::ReadExpected {
                task: self,
                count,
                addr,
            }
        }
    }

    /// Returns where the work goes on, by the target's status.
    pub fn status_read(self, status: Status) -> Point
        ensures { result ≡ inspecting.status_read self status }
    {
        match status {
            Status::Draft => Point::ReadTargetStatus(self),
            Status::Open => Point::Inspect {
                task: self,
                entry: 0,
            },
            Status::YesDirty => Point::Seal(self),
            Status::Yes => self.sweeps(Sweep::Yes),
            Status::DoneYes => self.sweeps(Sweep::DoneYes),
            Status::No { .. } => self.sweeps(Sweep::No),
            Status::DoneNo { entry, value } => self.sweeps(Sweep::DoneNo { entry, value }),
        }
    }

    // Begins a sweep over the target's words.
    fn sweeps(self, sweep: Sweep) -> Point
        ensures { result ≡ sweeping.sweeps self sweep }
    {
        Point::SweepWord {
            task: self,
            sweep,
            entry: 0,
        }
    }

    /// Returns where the request goes to hold a word by the attempt of this number. If the number is worn, it
    /// gives up.
    pub fn attempts(self, entry: u8, number: u64) -> Point
        ensures { result ≡ inspecting.attempts self entry number }
    {
        if number < WORN_NUMBER {
            Point::AnnounceRow {
                task: self,
                entry,
                number,
            }
        } else {
            self.gives_up(Reply::Worn)
        }
    }

    /// Returns where the request goes once its row names the entry: it plants the attempt of this number.
    pub(crate) fn plants(self, entry: u8, number: u64) -> Point
        ensures { result ≡ Plant self entry number }
    {
        Point::Plant {
            task: self,
            entry,
            number,
        }
    }

    /// Returns where the request goes from a word with an attempt for its target: it loads the target's status,
    /// which decides what becomes of the attempt.
    pub(crate) fn checks(self, entry: u8, attempt: Attempt) -> Point
        ensures { result ≡ CheckThenResolve self entry attempt }
    {
        Point::CheckThenResolve {
            task: self,
            entry,
            attempt,
        }
    }

    /// Returns where the request goes from a word that has its expected value, written by a change that this
    /// slot has.
    pub fn dirty_seen(self, entry: u8, slot: u8, value: u64) -> Point
        ensures { result ≡ inspecting.dirty_seen self entry slot value }
    {
        if slot == self.target.slot {
            Point::ReadTargetStatus(self)
        } else if slot == self.own.slot {
            self.helps(self.own)
        } else {
            Point::ReadDirtyGate {
                task: self,
                entry,
                slot,
                value,
            }
        }
    }

    /// Returns where the request goes from a word that had an attempt, given the change that the row named. It
    /// goes on with that change only if the word still has the attempt.
    pub fn attempt_confirmed(self, entry: u8, attempt: Attempt, other: Slot, word: Word) -> Point
        ensures { result ≡ inspecting.attempt_confirmed self entry attempt other word }
    {
        if word != attempt.word() {
            Point::ReadTargetStatus(self)
        } else if other == self.target {
            self.checks(entry, attempt)
        } else {
            self.helps(other)
        }
    }

    /// Returns where the request goes from the gate of a slot that a dirty word named. It goes on only if the
    /// slot is taken and has a pin. The gate's number is then the change's.
    pub fn dirty_gate_read(self, entry: u8, slot: u8, value: u64, gate: Gate) -> Point
        ensures { result ≡ inspecting.dirty_gate_read self entry slot value gate }
    {
        if gate.taken && gate.pins >= 1 {
            Point::ConfirmDirty {
                task: self,
                entry,
                other: Slot::of_gate(slot, gate),
                value,
            }
        } else {
            Point::ReadTargetStatus(self)
        }
    }

    /// Returns where the request goes from a dirty word that named another change's slot. It goes on with that
    /// change only if the word is still the same.
    pub fn dirty_confirmed(self, other: Slot, value: u64, word: Word) -> Point
        ensures { result ≡ inspecting.dirty_confirmed self other value word }
    {
        if word == other.dirty(value) {
            self.helps(other)
        } else {
            Point::ReadTargetStatus(self)
        }
    }

    /// Returns where the request goes after a call on the file to seal or settle the target.
    pub fn filed(self, went_well: bool) -> Point
        ensures { result ≡ sweeping.filed self went_well }
    {
        if went_well {
            Point::ReadTargetStatus(self)
        } else {
            self.gives_up(Reply::Fault)
        }
    }
}
