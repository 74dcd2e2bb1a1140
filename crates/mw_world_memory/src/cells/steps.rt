//! Makes steps on the shared words of a world in memory.
//!
//! mw_simulator calls `Cells::make` for each step of a request that is no call on a file. Change it with `specs/Bits`
//! and `specs/StepsInBits`.
ghost use Rattle.std.specs.Prelude.{◌≡◌, ◌==◌, IfSome, None, cond, is_some};
ghost use Rattle.mw_look.specs.declared.steps.Shape.TheVariants.{Exchange};
ghost use Rattle.mw_look.specs.Shapes.{shape_of};
ghost use Rattle.mw_world_memory.specs.Bits.{SamePlaces, put_bits};
ghost use Rattle.mw_world_memory.specs.StepsInBits.{Makes, fetched_bits, bits_changed, got_by, bits_after, got_after, is_step_there};

use crate::cells::Cells;
use mw_look::{Got, Kind, Op, Shape};
use mw_words::{At, Door, Gate};

impl Cells {
    /// Makes a step, and returns what it found. `None`: the step is a call on a file, or there is no such
    /// place. Then nothing changes.
    pub fn make(&mut self, op: Op) -> Option<Got>
        ensures is { result ≡ got_after op self.old }
        ensures after { self.new ≡ bits_after op self.old }
        ensures there { is_some result ≡ is_step_there op self.old }
        ensures makes { IfSome result (Makes op self.old self.new) }
        ensures places { SamePlaces self.old self.new }
        ensures none { result ≡ None → self.new ≡ self.old }
    {
        self.load_or_change(op)
    }

    /// Loads or changes the word at the step's place, if there is one.
    fn load_or_change(&mut self, op: Op) -> Option<Got>
        ensures is { result ≡ got_after op self.old }
        ensures after { self.new ≡ bits_after op self.old }
    {
        match op {
            Op::Load(at) => self.get(at).map(Got::Word),
            Op::Change { kind, at, from, to } => match self.get(at) {
                Some(there) => Some(self.change(kind, at, from, to, there)),
                None => None,
            },
            Op::File { .. } => None,
        }
    }

    /// Changes the word at a place that has the bits `there`.
    fn change(&mut self, kind: Kind, at: At, from: u64, to: u64, there: u64) -> Got
        ensures is { result ≡ got_by (shape_of kind) from there }
        ensures after { self.new ≡ bits_changed (shape_of kind) kind at from to self.old there }
    {
        match kind.shape() {
            Shape::Exchange => self.exchange(at, from, to, there),
            Shape::Store => {
                self.put(at, to);
                Got::Won
            }
            Shape::Fetch => {
                self.put(at, fetched(kind, at, there));
                Got::Word(there)
            }
        }
    }

    /// Puts `to` at a place that has the bits `there`, if these are `from`.
    fn exchange(&mut self, at: At, from: u64, to: u64, there: u64) -> Got
        ensures is { result ≡ got_by Exchange from there }
        ensures after { self.new ≡ cond (there == from) (put_bits self.old at to) self.old }
    {
        if there == from {
            self.put(at, to);
            Got::Won
        } else {
            Got::Lost
        }
    }
}

/// Returns what a fetch makes of the bits that it finds: a gate with one pin less, a door with one slot less in
/// use, or a door with the fault. Bits that are no pattern stay.
fn fetched(kind: Kind, at: At, bits: u64) -> u64
    ensures { result ≡ fetched_bits kind at bits }
{
    match (kind, at) {
        (Kind::Unpin, At::Gate(_)) => match Gate::unpack(bits) {
            Some(gate) => Gate {
                pins: gate.pins.saturating_sub(1),
                ..gate
            }
            .pack(),
            None => bits,
        },
        (Kind::Drop, At::Door(_)) => match Door::unpack(bits) {
            Some(door) => Door {
                used: door.used.saturating_sub(1),
                ..door
            }
            .pack(),
            None => bits,
        },
        (Kind::Fault, At::Door(_)) => match Door::unpack(bits) {
            Some(door) => Door {
                fault: true,
                ..door
            }
            .pack(),
            None => bits,
        },
        _ => bits,
    }
}
