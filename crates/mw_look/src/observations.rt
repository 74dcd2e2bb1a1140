//! Defines what a request is told of its step: the bits that were found, or the value that they are of.
//!
//! Used by: many crates from mw_actor on. mw_core, mw_simulator and mw_table say a [`Got`]; the request makes an
//! [`Observation`] of it. A new one needs a case in `specs/Observations`, and wherever a program is told one
//! (mw_look, mw_actor).
ghost use Rattle.std.specs.Prelude.{◌≡◌};
ghost use Rattle.mw_look.specs.Observations.{IsObservationInRange, observation_of, observation_of_bits};

use mw_words::{At, Door, Gate, Row, Status, Word};

/// What a step found.
#[derive(Clone, Copy, PartialEq, Eq)]
pub enum Got {
    /// What a load found, or what the word was before an Unpin, a Drop or a Fault.
    Word(u64),
    /// An exchange found what it expected; or a store was made.
    Won,
    /// An exchange found something else, and changed nothing.
    Lost,
    /// A call on the file was made. Tells whether it went well.
    File(bool),
}

/// What a machine is told of its step.
#[derive(Clone, Copy, PartialEq, Eq)]
pub struct Told {
    /// What the step found.
    pub got: Got,
    /// The worker's next attempt number.
    pub next: u64,
}

/// What a step found, as a value of the kind of word at its place.
#[derive(Clone, Copy)]
pub enum Observation {
    /// The door of a tenant.
    SawDoor(Door),
    /// The gate of a slot.
    SawGate(Gate),
    /// A tenant's word.
    SawWord(Word),
    /// The status of a slot.
    SawStatus(Status),
    /// A worker's row.
    SawRow(Row),
    /// The number of entries of a change, or an entry's address, expected or new value.
    SawNumber(u64),
    /// The exchange or the store was made.
    Won,
    /// The exchange found something else, and changed nothing.
    Lost,
    /// The call on the file was made. Tells whether it went well.
    Filed(bool),
    /// Bits that no value of the place's kind of word has.
    Junk,
}

impl Observation {
    /// Returns what a step at this place found.
    pub fn of(at: At, got: Got) -> Observation
        ensures is { result ≡ observation_of at got }
        ensures in_range { IsObservationInRange result }
    {
        match got {
            Got::Word(bits) => Observation::of_bits(at, bits),
            Got::Won => Observation::Won,
            Got::Lost => Observation::Lost,
            Got::File(went_well) => Observation::Filed(went_well),
        }
    }

    fn of_bits(at: At, bits: u64) -> Observation
        ensures is { result ≡ observation_of_bits at bits }
        ensures in_range { IsObservationInRange result }
    {
        match at {
            At::Door(_) => Door::unpack(bits).map_or(Observation::Junk, Observation::SawDoor),
            At::Gate(_) => Gate::unpack(bits).map_or(Observation::Junk, Observation::SawGate),
            At::Row(_) => Row::unpack(bits).map_or(Observation::Junk, Observation::SawRow),
            At::Data { .. } => Word::unpack(bits).map_or(Observation::Junk, Observation::SawWord),
            At::Status(_) => Status::unpack(bits).map_or(Observation::Junk, Observation::SawStatus),
            At::Count(_) => Observation::SawNumber(bits),
            At::Addr { .. } => Observation::SawNumber(bits),
            At::Expected { .. } => Observation::SawNumber(bits),
            At::New { .. } => Observation::SawNumber(bits),
        }
    }
}
