//! A slot's gate (its reference count with a version), in 64 bits: whether the slot is taken, how many pins
//! (references) it has, and its sequence number.
//!
//! Used by: many crates from mw_pool on. Another pattern of bits needs a change in `specs/Patterns`, and in the
//! crates that have a pin's bit as a number: mw_rule (`ways.rt`) and mw_table (`steps_by_kind.rt`). No file has these
//! bits.
ghost use Rattle.std.specs.Prelude.{◌≡◌, ◌≢◌, ◌↔◌, IsTrue, IfSome, None};
ghost use Rattle.mw_words.specs.declared.gates.Gate.{Gate as GateModel};
ghost use Rattle.mw_words.specs.Patterns.{IsGateInRange, IsGateOf, packed_gate, unpacked_gate};

use crate::limits::{MAX_PINS, WORN_NUMBER};

/// The bit that tells whether the gate is taken.
const TAKEN: u32 = 63;

/// The first bit of the pins.
const PINS: u32 = 48;

/// The gate of a slot. A gate that isn't taken has no pins.
#[derive(Clone, Copy, PartialEq, Eq)]
pub struct Gate {
    /// Whether a worker has taken the slot for a change.
    pub taken: bool,
    /// How many pins of the slot workers hold, at most [`MAX_PINS`].
    pub pins: u16,
    /// The slot's sequence number, at most [`WORN_NUMBER`]. Each change that uses the slot has a number of its
    /// own.
    pub seq: u64,
}

impl Gate {
    /// Tells whether each field is in its range, so that the gate has bits.
    pub fn is_in_range(self) -> bool
        ensures { IsTrue result ↔ IsGateInRange self }
    {
        self.pins <= MAX_PINS && self.seq <= WORN_NUMBER && (self.taken || self.pins == 0)
    }

    /// Returns the gate's 64 bits. Each field must be in its range.
    pub fn pack(self) -> u64
        requires { IsGateInRange self }
        ensures { result ≡ packed_gate self }
    {
        (u64::from(self.taken) << TAKEN) + (u64::from(self.pins) << PINS) + self.seq
    }

    /// Returns the gate with these bits. `None`: no gate has them, because the gate isn't taken and has pins.
    pub fn unpack(bits: u64) -> Option<Gate>
        ensures is { result ≡ unpacked_gate bits }
        ensures some { IfSome result (IsGateOf bits) }
        ensures none { result ≡ None → (gate : GateModel) → IsGateInRange gate → packed_gate gate ≢ bits }
    {
        let gate = Gate {
            taken: bits >> TAKEN == 1,
            pins: ((bits >> PINS) % (1 << (TAKEN - PINS))) as u16,
            seq: bits % (1 << PINS),
        };
        if gate.taken || gate.pins == 0 {
            Some(gate)
        } else {
            None
        }
    }
}
