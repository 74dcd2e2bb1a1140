//! Gives the point to which a change goes from each point of its program, by what its step found.
//!
//! Only `actor.rt` calls it. A new point needs a case here and in `specs/Program`, or in its part.
ghost use Rattle.std.specs.Prelude.{◌≡◌, ℕ};
ghost use Rattle.mw_words.specs.Patterns.{IsGateInRange};
ghost use Rattle.mw_look.specs.Observations.{IsObservationInRange};
ghost use Rattle.mw_look.specs.declared.observations.Observation.TheVariants.{SawDoor, SawGate, SawWord, SawStatus, SawRow, SawNumber, Won, Lost, Filed};
ghost use Rattle.mw_actor.specs.Program.{changes};
ghost use Rattle.mw_actor.specs.Admission as admitting;
ghost use Rattle.mw_actor.specs.RequestEnds as finishing;
ghost use Rattle.mw_actor.specs.Help as helping;
ghost use Rattle.mw_actor.specs.Inspection as inspecting;
ghost use Rattle.mw_actor.specs.ReleasePhase as sweeping;

use crate::actor::Actor;
use crate::points::{After, Attempt, Point, Slot, Sweep, Task};
use mw_look::Observation;
use mw_pool::{Admission, admit, claim};
use mw_words::{Door, Gate, MAX_VALUE, Reply, Row, Status, WORN_NUMBER, Word};

impl Actor {
    // Returns the point of a change after this observation.
    pub(crate) fn next(&self, observation: Observation, next: u64) -> Point
        requires { IsObservationInRange observation }
        ensures { result ≡ changes self.now next self.now.point observation }
    {
        match observation {
            Observation::SawDoor(door) => self.saw_door(door, next),
            Observation::SawGate(gate) => self.saw_gate(gate),
            Observation::SawWord(word) => self.saw_word(word, next),
            Observation::SawStatus(status) => self.saw_status(status),
            Observation::SawRow(row) => self.saw_row(row),
            Observation::SawNumber(number) => self.saw_number(number),
            Observation::Won => self.won(),
            Observation::Lost => self.lost(),
            Observation::Filed(went_well) => self.filed(went_well),
            Observation::Junk => self.point,
        }
    }

    fn saw_door(&self, door: Door, next: u64) -> Point
        ensures { result ≡ changes self.now next self.now.point (SawDoor door) }
    {
        match self.point {
            Point::ReadDoor => self.door_read(door, next),
            Point::LowerDoor(after) => after.resumed(),
            point => point,
        }
    }

    fn saw_gate(&self, gate: Gate) -> Point
        requires { IsGateInRange gate }
        ensures { (next : ℕ) → result ≡ changes self.now next self.now.point (SawGate gate) }
    {
        match self.point {
            Point::ScanGate { slot, saw_worn } => self.gate_scanned(slot, saw_worn, gate),
            Point::ReadDirtyGate {
                task,
                entry,
                slot,
                value,
            } => task.dirty_gate_read(entry, slot, value, gate),
            Point::ReadOtherGate { task, other } => task.other_gate_read(other, gate),
            Point::Unpin { slot, after } => after.unpinned(slot, gate),
            point => point,
        }
    }

    fn saw_word(&self, word: Word, next: u64) -> Point
        ensures { result ≡ changes self.now next self.now.point (SawWord word) }
    {
        match self.point {
            Point::Inspect { task, entry } => self.inspected(task, entry, word, next),
            Point::ConfirmAttempt {
                task,
                entry,
                attempt,
                other,
            } => task.attempt_confirmed(entry, attempt, other, word),
            Point::ConfirmDirty {
                task,
                other,
                value,
                ..
            } => task.dirty_confirmed(other, value, word),
            Point::SweepWord { task, sweep, entry } => self.swept(task, sweep, entry, word),
            Point::SweepConfirm {
                task,
                sweep,
                entry,
                attempt,
                other,
            } => self.sweep_confirmed(task, sweep, entry, attempt, other, word),
            point => point,
        }
    }

    fn saw_status(&self, status: Status) -> Point
        ensures { (next : ℕ) → result ≡ changes self.now next self.now.point (SawStatus status) }
    {
        match self.point {
            Point::ReadTargetStatus(task) => task.status_read(status),
            Point::CheckThenResolve {
                task,
                entry,
                attempt,
            } => Point::Resolve {
                task,
                entry,
                attempt,
                was_open: is_open(status),
            },
            Point::GiveUp { undecided, .. } => Point::Replied(self.gave_up(undecided, status)),
            point => point,
        }
    }

    fn saw_row(&self, row: Row) -> Point
        ensures { (next : ℕ) → result ≡ changes self.now next self.now.point (SawRow row) }
    {
        match self.point {
            Point::ReadOtherRow {
                task,
                entry,
                attempt,
            } => Point::ConfirmAttempt {
                task,
                entry,
                attempt,
                other: Slot::of_row(row),
            },
            Point::SweepRow {
                task,
                sweep,
                entry,
                attempt,
            } => Point::SweepConfirm {
                task,
                sweep,
                entry,
                attempt,
                other: Slot::of_row(row),
            },
            point => point,
        }
    }

    fn saw_number(&self, number: u64) -> Point
        ensures { (next : ℕ) → result ≡ changes self.now next self.now.point (SawNumber number) }
    {
        match self.point {
            Point::ReadCount(task) => task.count_read(number),
            Point::ReadAddr { task, count } => task.addr_read(count, number),
            Point::ReadExpected { task, count, addr } => task.expected_read(count, addr, number),
            Point::ReadNew { task, count, .. } if number <= MAX_VALUE => {
                self.next_read(task, count)
            }
            point => point,
        }
    }

    fn won(&self) -> Point
        ensures { (next : ℕ) → result ≡ changes self.now next self.now.point Won }
    {
        match self.point {
            Point::Admit { .. } => Point::ScanGate {
                slot: 0,
                saw_worn: false,
            },
            Point::Claim { slot, from, .. } => Point::FillStatus(Slot::of_gate(slot, from)),
            Point::FillStatus(own) => Point::FillCount(own),
            Point::FillCount(own) => Point::FillAddr { own, entry: 0 },
            Point::FillAddr { own, entry } => Point::FillExpected { own, entry },
            Point::FillExpected { own, entry } => Point::FillNew { own, entry },
            Point::FillNew { own, entry } => self.next_fill(own, entry),
            Point::AnnounceRow {
                task,
                entry,
                number,
            } => task.plants(entry, number),
            Point::Plant {
                task,
                entry,
                number,
            } => task.checks(entry, self.attempt(number)),
            Point::PinOther { task, other, .. } => task.turns_to(other),
            Point::FreeSlot { after, .. } => Point::LowerDoor(after),
            Point::DecideYes(task) | Point::DecideNo { task, .. } | Point::Resolve { task, .. } =>
                Point::ReadTargetStatus(task),
            Point::Release { task, sweep, entry }
            | Point::SweepResolve {
                task,
                sweep,
                entry,
                ..
            } => self.next_sweep(task, sweep, entry),
            Point::Clean { task, entry, .. } => self.next_sweep(task, Sweep::DoneYes, entry),
            point => point,
        }
    }

    fn lost(&self) -> Point
        ensures { (next : ℕ) → result ≡ changes self.now next self.now.point Lost }
    {
        match self.point {
            Point::Admit { .. } => Point::ReadDoor,
            Point::Claim { slot, saw_worn, .. } => self.next_gate(slot, saw_worn),
            Point::Plant { task, .. } | Point::PinOther { task, .. } => {
                Point::ReadTargetStatus(task)
            }
            Point::DecideYes(task) | Point::DecideNo { task, .. } | Point::Resolve { task, .. } =>
                Point::ReadTargetStatus(task),
            Point::Release { task, sweep, entry }
            | Point::SweepResolve {
                task,
                sweep,
                entry,
                ..
            } => self.next_sweep(task, sweep, entry),
            Point::Clean { task, entry, .. } => self.next_sweep(task, Sweep::DoneYes, entry),
            point => point,
        }
    }

    fn filed(&self, went_well: bool) -> Point
        ensures { (next : ℕ) → result ≡ changes self.now next self.now.point (Filed went_well) }
    {
        match self.point {
            Point::Prepare(own) if went_well => Point::ReadTargetStatus(Task::alone(own)),
            Point::Prepare(own) => Point::GiveUp {
                own,
                undecided: Reply::Fault,
            },
            Point::Seal(task) | Point::Settle(task) => task.filed(went_well),
            Point::Cancel(task) => Point::ReadTargetStatus(task),
            point => point,
        }
    }

    fn door_read(&self, door: Door, next: u64) -> Point
        ensures { result ≡ admitting.door_read self.now next door }
    {
        match admit(door, self.quota) {
            Admission::Fault => Point::Replied(Reply::Fault),
            Admission::Busy => Point::Replied(Reply::Busy),
            Admission::To(to) if next < WORN_NUMBER => Point::Admit { from: door, to },
            Admission::To(_) => Point::Replied(Reply::Worn),
        }
    }

    fn gate_scanned(&self, slot: u8, saw_worn: bool, gate: Gate) -> Point
        requires { IsGateInRange gate }
        ensures { result ≡ admitting.gate_scanned self.now slot saw_worn gate }
    {
        match claim(gate) {
            Some(to) => Point::Claim {
                slot,
                saw_worn,
                from: gate,
                to,
            },
            None => self.next_gate(slot, saw_worn || is_worn(gate)),
        }
    }

    // The point after a gate that wasn't claimed: the pool's next gate, or the end of the round.
    fn next_gate(&self, slot: u8, saw_worn: bool) -> Point
        ensures { result ≡ admitting.next_gate self.now slot saw_worn }
    {
        if u16::from(slot) + 1 < self.pool {
            Point::ScanGate {
                slot: slot + 1,
                saw_worn,
            }
        } else if saw_worn {
            Point::LowerDoor(After::Reply(Reply::Worn))
        } else {
            Point::ScanGate {
                slot: 0,
                saw_worn: false,
            }
        }
    }

    // The point after an entry was written: the next entry, or the call on the file.
    fn next_fill(&self, own: Slot, entry: u8) -> Point
        ensures { result ≡ admitting.next_fill self.now own entry }
    {
        if usize::from(entry) + 1 < self.own_entries().len() {
            Point::FillAddr {
                own,
                entry: entry + 1,
            }
        } else {
            Point::Prepare(own)
        }
    }

    // The point after an entry's word was loaded.
    fn inspected(&self, task: Task, entry: u8, word: Word, next: u64) -> Point
        ensures { result ≡ inspecting.inspected self.now next task entry word }
    {
        let expected = self.entry(task, entry).expected;
        match word {
            Word::Plain(value) if value == expected => task.attempts(entry, next),
            Word::Dirty { slot, value } if value == expected => task.dirty_seen(entry, slot, value),
            Word::Plain(value) | Word::Dirty { value, .. } => Point::DecideNo {
                task,
                entry,
                value,
            },
            Word::Held { slot, seq } => self.held_seen(task, entry, Slot { slot, seq }),
            Word::Planted { worker, attempt } => Point::ReadOtherRow {
                task,
                entry,
                attempt: Attempt {
                    worker,
                    number: attempt,
                },
            },
        }
    }

    // The point after a held word: the next entry, or the decision, or help for another change.
    fn held_seen(&self, task: Task, entry: u8, other: Slot) -> Point
        ensures { result ≡ inspecting.held_seen self.now task entry other }
    {
        if other != task.target {
            task.helps(other)
        } else if usize::from(entry) + 1 < self.entries(task).len() {
            Point::Inspect {
                task,
                entry: entry + 1,
            }
        } else {
            Point::DecideYes(task)
        }
    }

    // The point after an entry of another's change was read: its next entry, or its status.
    fn next_read(&self, task: Task, count: u8) -> Point
        ensures { result ≡ helping.next_read self.now task count }
    {
        if self.others.len() + 1 < usize::from(count) {
            Point::ReadAddr { task, count }
        } else {
            Point::ReadTargetStatus(task)
        }
    }

    // The point after a word of a decided change was loaded.
    fn swept(&self, task: Task, sweep: Sweep, entry: u8, word: Word) -> Point
        ensures { result ≡ sweeping.swept self.now task sweep entry word }
    {
        match word {
            Word::Plain(_) => self.next_sweep(task, sweep, entry),
            Word::Planted { worker, attempt } => {
                let attempt = Attempt {
                    worker,
                    number: attempt,
                };
                self.attempt_swept(task, sweep, entry, attempt)
            }
            Word::Held { slot, seq } => self.held_swept(task, sweep, entry, Slot { slot, seq }),
            Word::Dirty { slot, value } => self.dirty_swept(task, sweep, entry, slot, value),
        }
    }

    // Releases a word that is held for the target, unless the target is made and done.
    fn held_swept(&self, task: Task, sweep: Sweep, entry: u8, slot: Slot) -> Point
        ensures { result ≡ sweeping.held_swept self.now task sweep entry slot }
    {
        match sweep {
            Sweep::DoneYes => self.next_sweep(task, sweep, entry),
            _ if slot == task.target => Point::Release { task, sweep, entry },
            _ => self.next_sweep(task, sweep, entry),
        }
    }

    // Cleans a dirty word that names the target's slot, if the target is made and done.
    fn dirty_swept(&self, task: Task, sweep: Sweep, entry: u8, slot: u8, value: u64) -> Point
        ensures { result ≡ sweeping.dirty_swept self.now task sweep entry slot value }
    {
        match sweep {
            Sweep::DoneYes if slot == task.target.slot => Point::Clean { task, entry, value },
            _ => self.next_sweep(task, sweep, entry),
        }
    }

    // Looks into an attempt, unless the target is made and not done yet.
    fn attempt_swept(&self, task: Task, sweep: Sweep, entry: u8, attempt: Attempt) -> Point
        ensures { result ≡ sweeping.attempt_swept self.now task sweep entry attempt }
    {
        match sweep {
            Sweep::Yes => self.next_sweep(task, sweep, entry),
            _ => Point::SweepRow {
                task,
                sweep,
                entry,
                attempt,
            },
        }
    }

    // The point after a sweep has loaded again a word that had an attempt.
    fn sweep_confirmed(
        &self,
        task: Task,
        sweep: Sweep,
        entry: u8,
        attempt: Attempt,
        other: Slot,
        word: Word,
    ) -> Point
        ensures { result ≡ sweeping.sweep_confirmed self.now task sweep entry attempt other word }
    {
        if word == attempt.word() && other == task.target {
            Point::SweepResolve {
                task,
                sweep,
                entry,
                attempt,
            }
        } else {
            self.next_sweep(task, sweep, entry)
        }
    }

    // The point after the sweep of a word: the next word, or the end of the sweep.
    fn next_sweep(&self, task: Task, sweep: Sweep, entry: u8) -> Point
        ensures { result ≡ sweeping.next_sweep self.now task sweep entry }
    {
        if usize::from(entry) + 1 < self.entries(task).len() {
            Point::SweepWord {
                task,
                sweep,
                entry: entry + 1,
            }
        } else {
            self.sweep_over(task, sweep)
        }
    }

    fn sweep_over(&self, task: Task, sweep: Sweep) -> Point
        ensures { result ≡ sweeping.sweep_over self.now task sweep }
    {
        match sweep {
            Sweep::Yes => Point::Settle(task),
            Sweep::DoneYes => task.finishes(Reply::Yes),
            Sweep::No => Point::Cancel(task),
            Sweep::DoneNo { entry, value } => task.finishes(self.refusal(entry, value)),
        }
    }

    // The reply of a request that gave up, by the status of its own change.
    fn gave_up(&self, undecided: Reply, status: Status) -> Reply
        ensures { result ≡ finishing.gave_up self.now undecided status }
    {
        match status {
            Status::Yes | Status::DoneYes => Reply::Yes,
            Status::No { entry, value } | Status::DoneNo { entry, value } => {
                self.refusal(entry, value)
            }
            _ => undecided,
        }
    }

    fn refusal(&self, entry: u8, value: u64) -> Reply
        ensures { result ≡ finishing.refusal self.now entry value }
    {
        Reply::No(self.own_entry(entry).addr, value)
    }
}

// Tells whether the gate isn't taken and its number is worn.
fn is_worn(gate: Gate) -> bool
    ensures { result ≡ admitting.is_worn gate }
{
    !gate.taken && gate.seq == WORN_NUMBER
}

fn is_open(status: Status) -> bool
    ensures { result ≡ inspecting.is_open status }
{
    matches!(status, Status::Open)
}
