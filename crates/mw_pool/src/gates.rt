//! Computes a slot's gate (its reference count with a version) after a move: claim (allocate the slot), pin and unpin
//! (take and give back a reference), or free.
//!
//! Used by: mw_actor ([`claim`], [`pin`]), mw_look ([`pin`]). Only tests call [`unpin`] and [`free`], whose steps are
//! made without a load. Change it with `specs/Moves`.
ghost use Rattle.std.specs.Prelude.{◌≡◌, ◌≤◌, IfSome, None};
ghost use Rattle.mw_words.specs.declared.gates.Gate.{Gate as GateModel};
ghost use Rattle.mw_words.specs.Patterns.{IsGateInRange};
ghost use Rattle.mw_pool.specs.Moves.{Claims, Pins, Unpins, Frees, after_claim, after_pin, after_unpin, after_free};

use mw_words::{Gate, MAX_PINS, WORN_NUMBER};

/// Returns the gate after it is claimed: taken, with 1 pin and the same number. `None`: the gate is taken, or its
/// number is worn. The gate's fields must be in range.
pub fn claim(gate: Gate) -> Option<Gate>
    requires { IsGateInRange gate }
    ensures is { result ≡ after_claim gate }
    ensures some { IfSome result (λ next. Claims gate next × IsGateInRange next) }
    ensures none { result ≡ None → (next : GateModel) → IsGateInRange next → Claims gate next → ⊥ }
{
    if gate.taken || gate.seq == WORN_NUMBER {
        None
    } else {
        Some(Gate {
            taken: true,
            pins: 1,
            ..gate
        })
    }
}

/// Returns the gate with one pin more. `None`: the gate isn't taken, has no pin or [`MAX_PINS`] pins, or its number
/// isn't `seq`. The gate's fields must be in range.
pub fn pin(gate: Gate, seq: u64) -> Option<Gate>
    requires { IsGateInRange gate }
    ensures is { result ≡ after_pin gate seq }
    ensures some { IfSome result (λ next. Pins seq gate next × IsGateInRange next) }
    ensures none { result ≡ None → (next : GateModel) → IsGateInRange next → Pins seq gate next → ⊥ }
{
    if gate.taken && (1..MAX_PINS).contains(&gate.pins) && gate.seq == seq {
        Some(Gate {
            pins: gate.pins + 1,
            ..gate
        })
    } else {
        None
    }
}

/// Returns the gate with one pin less. The gate must have at least 1 pin, and its fields must be in range.
pub fn unpin(gate: Gate) -> Gate
    requires in_range { IsGateInRange gate }
    requires pinned { 1 ≤ gate.pins }
    ensures is { result ≡ after_unpin gate }
    ensures unpins { Unpins gate result }
    ensures stays_in_range { IsGateInRange result }
{
    Gate {
        pins: gate.pins - 1,
        ..gate
    }
}

/// Returns the gate after it is freed for another change: not taken, without pins, with the next number. `None`: the
/// gate isn't taken, has a pin, or is at [`WORN_NUMBER`], which has no next number. The gate's fields must be in
/// range.
pub fn free(gate: Gate) -> Option<Gate>
    requires { IsGateInRange gate }
    ensures is { result ≡ after_free gate }
    ensures some { IfSome result (λ next. Frees gate next × IsGateInRange next) }
    ensures none { result ≡ None → (next : GateModel) → IsGateInRange next → Frees gate next → ⊥ }
{
    if gate.taken && gate.pins == 0 && gate.seq < WORN_NUMBER {
        Some(Gate {
            taken: false,
            pins: 0,
            seq: gate.seq + 1,
        })
    } else {
        None
    }
}
