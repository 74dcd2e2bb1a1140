//! Finds the value of one word for a read, whatever others do to the word meanwhile: a state machine that asks for
//! one step at a time.
//!
//! Used by: mw_actor (`Actor`). It must ask and go on as `specs/Program` says.
ghost use Rattle.std.specs.Prelude.{◌≡◌, ◌<◌};
ghost use Rattle.mw_look.specs.Steps.{StepFits, op_of, place};
ghost use Rattle.mw_look.specs.Observations.{IsObservationInRange, observation_of};
ghost use Rattle.mw_look.specs.Program.{first, asks, freed, goes, tells, replied, word_seen};
ghost use Rattle.mw_words.specs.Patterns.{IsGateInRange};
ghost use Rattle.mw_words.specs.declared.places.At.TheVariants.{Data};
ghost use Rattle.mw_words.specs.declared.limits.TheConstants.{WORN_NUMBER};
ghost use Rattle.mw_look.specs.declared.steps.Op.TheVariants.{Change as Fetch};
ghost use Rattle.mw_look.specs.declared.observations.Observation.TheVariants.{SawDoor, SawGate, SawWord, SawStatus, SawRow, SawNumber, Won, Lost};

use crate::observations::{Observation, Told};
use crate::points::{Point, Trail};
use crate::steps::{Kind, Op};
use mw_words::{At, Door, Gate, Reply, Row, Status, WORN_NUMBER, Word};
use std::marker::Model;

/// A read of one word of a tenant. A worker asks it for its next step and tells it what the step found, until
/// it has its reply. If what it is told doesn't fit the step, it stays where it is.
#[derive(Clone, Copy)]
pub struct Look {
    tenant: u8,
    address: u16,
    point: Point,
}

impl Model for Look {
    ghost use Rattle.mw_look.specs.Program.{Reading, IsPointInRange};

    ghost Value = { Reading };

    ghost view = { λ l. record { tenant = l.tenant; address = l.address; point = l.point } };

    ghost invariant = { λ l. IsPointInRange l.point };

    ghost inverse = { λ r. record { tenant = r.tenant; address = r.address; point = r.point } };
}

impl Look {
    /// Makes a read of the word at this address of this tenant, at its first step.
    pub fn new(tenant: u8, address: u16) -> Look
        ensures { result ≡ first tenant address }
    {
        Look {
            tenant,
            address,
            point: Point::ReadDoor,
        }
    }

    /// Returns the next step. What it expects at its place and what it leaves there is in range.
    pub fn ask(&self) -> Op
        ensures is { result ≡ op_of (asks self.now) }
        ensures fits { StepFits (asks self.now) }
    {
        match self.point {
            Point::Pin { from, to, .. } => Op::Change {
                kind: Kind::Pin,
                at: self.place(),
                from: from.pack(),
                to: to.pack(),
            },
            Point::Unpin { .. } => fetch(Kind::Unpin, self.place()),
            Point::FreeSlot { seq, .. } => Op::Change {
                kind: Kind::Free,
                at: self.place(),
                from: 0,
                to: free_gate(seq).pack(),
            },
            Point::LowerDoor(_) => fetch(Kind::Drop, self.place()),
            _ => Op::Load(self.place()),
        }
    }

    /// Takes in what the step found, where the step is the one for which [`Look::ask`] asks. It ignores the
    /// worker's next attempt number, because a read makes no attempt.
    pub fn tell(&mut self, told: Told)
        ensures { self.new ≡ tells self.old (observation_of (place (asks self.old)) told.got) }
    {
        self.tell_observation(Observation::of(self.place(), told.got));
    }

    /// Does the same, given the observation: what the step found, as a value of its place. It must be in range.
    pub fn tell_observation(&mut self, observation: Observation)
        requires { IsObservationInRange observation }
        ensures { self.new ≡ tells self.old observation }
    {
        self.point = self.next(observation);
    }

    /// Returns the reply, if the read has one: the word's value, or [`Reply::Fault`] if the tenant's file has
    /// failed. Once it has a reply, it keeps it.
    pub fn reply(&self) -> Option<Reply>
        ensures { result ≡ replied self.now }
    {
        match self.point {
            Point::Replied(reply) => Some(reply),
            _ => None,
        }
    }

    /// Returns where the read is in its program.
    pub fn point(&self) -> Point
        ensures { result ≡ self.now.point }
    {
        self.point
    }

    // The place of the next step.
    fn place(&self) -> At
        ensures { result ≡ place (asks self.now) }
    {
        match self.point {
            Point::ReadDoor => At::Door(self.tenant),
            Point::ReadWord => self.word(),
            Point::ReadRow { worker, .. } => At::Row(worker),
            Point::ConfirmWord(_) => self.word(),
            Point::ReadGate(trail) => At::Gate(trail.slot()),
            Point::Pin { trail, .. } => At::Gate(trail.slot()),
            Point::ReadStatus(trail) => At::Status(trail.slot()),
            Point::FindEntry { trail, entry, .. } => At::Addr {
                slot: trail.slot(),
                entry,
            },
            Point::ReadExpected { trail, entry, .. } => At::Expected {
                slot: trail.slot(),
                entry,
            },
            Point::ReadNew { trail, entry, .. } => At::New {
                slot: trail.slot(),
                entry,
            },
            Point::RecheckWord { .. } => self.word(),
            Point::Unpin { slot, .. } => At::Gate(slot),
            Point::FreeSlot { slot, .. } => At::Gate(slot),
            Point::LowerDoor(_) => At::Door(self.tenant),
            Point::Replied(_) => At::Door(self.tenant),
        }
    }

    // The place of the word that is read.
    fn word(&self) -> At
        ensures { result ≡ Data self.now.tenant self.now.address }
    {
        At::Data {
            tenant: self.tenant,
            address: self.address,
        }
    }

    // The point after this observation.
    fn next(&self, observation: Observation) -> Point
        requires { IsObservationInRange observation }
        ensures is { result ≡ goes self.now.address self.now.point observation }
    {
        match observation {
            Observation::SawDoor(door) => self.saw_door(door),
            Observation::SawGate(gate) => self.saw_gate(gate),
            Observation::SawWord(word) => self.saw_word(word),
            Observation::SawStatus(status) => self.saw_status(status),
            Observation::SawRow(row) => self.saw_row(row),
            Observation::SawNumber(number) => self.saw_number(number),
            Observation::Won => self.won(),
            Observation::Lost => self.lost(),
            Observation::Filed(_) => self.point,
            Observation::Junk => self.point,
        }
    }

    fn saw_door(&self, door: Door) -> Point
        ensures { result ≡ goes self.now.address self.now.point (SawDoor door) }
    {
        match self.point {
            Point::ReadDoor if door.fault => Point::Replied(Reply::Fault),
            Point::ReadDoor => Point::ReadWord,
            Point::LowerDoor(after) => after.resumed(),
            point => point,
        }
    }

    fn saw_gate(&self, gate: Gate) -> Point
        requires { IsGateInRange gate }
        ensures { result ≡ goes self.now.address self.now.point (SawGate gate) }
    {
        match self.point {
            Point::ReadGate(trail) => trail.pinning(gate),
            Point::Unpin { slot, seq, after } if gate.pins == 1 => {
                Point::FreeSlot { slot, seq, after }
            }
            Point::Unpin { after, .. } => after.resumed(),
            point => point,
        }
    }

    fn saw_word(&self, word: Word) -> Point
        ensures { result ≡ goes self.now.address self.now.point (SawWord word) }
    {
        match self.point {
            Point::ReadWord => after_word(word),
            Point::ConfirmWord(trail) if word == trail.word() => Point::ReadGate(trail),
            Point::ConfirmWord(_) => Point::ReadDoor,
            Point::RecheckWord {
                trail,
                status,
                expected,
                new,
            } => Point::Unpin {
                slot: trail.slot(),
                seq: trail.seq(),
                after: trail.answer(word, status, expected, new),
            },
            point => point,
        }
    }

    fn saw_status(&self, status: Status) -> Point
        ensures { result ≡ goes self.now.address self.now.point (SawStatus status) }
    {
        match self.point {
            Point::ReadStatus(trail) => trail.first_entry(status),
            point => point,
        }
    }

    fn saw_row(&self, row: Row) -> Point
        ensures { result ≡ goes self.now.address self.now.point (SawRow row) }
    {
        match self.point {
            Point::ReadRow { worker, attempt } => Point::ConfirmWord(Trail::Planted {
                worker,
                attempt,
                row,
            }),
            point => point,
        }
    }

    fn saw_number(&self, number: u64) -> Point
        ensures { result ≡ goes self.now.address self.now.point (SawNumber number) }
    {
        match self.point {
            Point::FindEntry {
                trail,
                status,
                entry,
            } => trail.after_address(status, entry, number == u64::from(self.address)),
            Point::ReadExpected {
                trail,
                status,
                entry,
            } => Point::ReadNew {
                trail,
                status,
                entry,
                expected: number,
            },
            Point::ReadNew {
                trail,
                status,
                expected,
                ..
            } => Point::RecheckWord {
                trail,
                status,
                expected,
                new: number,
            },
            point => point,
        }
    }

    fn won(&self) -> Point
        ensures { result ≡ goes self.now.address self.now.point Won }
    {
        match self.point {
            Point::Pin { trail, .. } => Point::ReadStatus(trail),
            Point::FreeSlot { after, .. } => Point::LowerDoor(after),
            point => point,
        }
    }

    fn lost(&self) -> Point
        ensures { result ≡ goes self.now.address self.now.point Lost }
    {
        match self.point {
            Point::Pin { .. } => Point::ReadDoor,
            point => point,
        }
    }
}

// A change to which the machine gives no value.
fn fetch(kind: Kind, at: At) -> Op
    ensures { result ≡ Fetch kind at 0 0 }
{
    Op::Change {
        kind,
        at,
        from: 0,
        to: 0,
    }
}

// The free gate of a slot after it was used with this number.
fn free_gate(seq: u64) -> Gate
    requires { seq < WORN_NUMBER }
    ensures { result ≡ freed seq }
{
    Gate {
        taken: false,
        pins: 0,
        seq: seq + 1,
    }
}

fn after_word(word: Word) -> Point
    ensures { result ≡ word_seen word }
{
    match word {
        Word::Plain(value) => Point::Replied(Reply::Val(value)),
        Word::Dirty { value, .. } => Point::Replied(Reply::Val(value)),
        Word::Held { slot, seq } => Point::ReadGate(Trail::Held { slot, seq }),
        Word::Planted { worker, attempt } => Point::ReadRow { worker, attempt },
    }
}
