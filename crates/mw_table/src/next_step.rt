//! Makes the next step of the request that a pass carries, of any kind but a call on a file.
//!
//! mw_core makes each step by it, except a request's first one. Change it with `specs/Passes`.
ghost use Rattle.std.specs.Prelude.{◌≡◌, cond};
ghost use Rattle.mw_look.specs.declared.steps.Op.TheVariants.{Change as ChangeBits};
ghost use Rattle.mw_look.specs.declared.observations.Got.TheVariants.{Won as GotWon, Lost as GotLost};
ghost use Rattle.mw_rule.specs.Steps.{IsNextStep, LearnsStep};
ghost use Rattle.mw_rule.specs.WordActions.{AddsStepEvent};
ghost use Rattle.mw_rule.specs.Ways.{way_of};
ghost use Rattle.mw_rule.specs.declared.ways.Way.TheVariants as way;
ghost use Rattle.mw_table.specs.Passes.{IsOf, IsOfSameWorker, known};

use crate::shared::{Pass, Shared};
use mw_look::{Got, Kind, Op};
use mw_rule::{Way, way_of};
use mw_words::At;

impl Shared {
    /// Makes the next step of the request that the pass carries, which is no call on a file. Returns what it found,
    /// which the caller must tell the request's machine. It extends a run of the world by this step and, if the
    /// request has its reply then, by its hand-out.
    pub fn step(&self, pass: &mut Pass, op: Op) -> Got
        requires own { IsOf self.now pass.old }
        requires next { IsNextStep (known pass.old) pass.old.worker op }
        ensures own { IsOf self.now pass.new }
        ensures worker { IsOfSameWorker pass.old pass.new }
        ensures took { LearnsStep result (known pass.old) (known pass.new) }
        ensures event { AddsStepEvent result (known pass.old) (known pass.new) }
    {
        match op {
            Op::Load(at) => Got::Word(self.load(pass, at)),
            Op::Change { kind, at, from, to } => self.change(pass, kind, at, from, to),
            Op::File { .. } => unreachable!(),
        }
    }

    /// Changes a word as the kind says. Returns what it found.
    fn change(&self, pass: &mut Pass, kind: Kind, at: At, from: u64, to: u64) -> Got
        requires own { IsOf self.now pass.old }
        requires next { IsNextStep pass.old.seat.me.0 pass.old.worker (ChangeBits kind at from to) }
        ensures own { IsOf self.now pass.new }
        ensures worker { IsOfSameWorker pass.old pass.new }
        ensures took { LearnsStep result pass.old.seat.me.0 pass.new.seat.me.0 }
        ensures event { AddsStepEvent result pass.old.seat.me.0 pass.new.seat.me.0 }
    {
        match way_of(kind) {
            Way::Exchange => {
                if self.replace(pass, kind, at, from, to) {
                    Got::Won
                } else {
                    Got::Lost
                }
            }
            Way::Store => {
                self.store(pass, kind, at, to);
                Got::Won
            }
            Way::Sub(number) => Got::Word(self.subtract(pass, kind, at, number)),
            Way::Or(_) => unreachable!(),
        }
    }

    /// Exchanges a word for another, or for an attempt to hold it, if the word has the expected bits. Returns whether
    /// it had.
    fn replace(&self, pass: &mut Pass, kind: Kind, at: At, from: u64, to: u64) -> bool
        requires own { IsOf self.now pass.old }
        requires way { way_of kind ≡ way.Exchange }
        requires next { IsNextStep pass.old.seat.me.0 pass.old.worker (ChangeBits kind at from to) }
        ensures own { IsOf self.now pass.new }
        ensures worker { IsOfSameWorker pass.old pass.new }
        ensures took { LearnsStep (cond result GotWon GotLost) pass.old.seat.me.0 pass.new.seat.me.0 }
        ensures event { AddsStepEvent (cond result GotWon GotLost) pass.old.seat.me.0 pass.new.seat.me.0 }
    {
        match kind {
            Kind::Plant => self.attempt(pass, at, from, to),
            _ => self.exchange(pass, kind, at, from, to),
        }
    }
}
