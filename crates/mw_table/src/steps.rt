//! Makes one atomic step on one shared word: a load, a store, an exchange, an attempt or a subtraction.
//!
//! Used by: `next_step`, `steps_by_kind`. Change it with `specs/Numbers` and `specs/Passes`.
ghost use Rattle.std.specs.Prelude.{◌≡◌, ◌+◌, ◌==◌, cond, false};
ghost use Rattle.mw_look.specs.declared.steps.Kind.TheVariants as kind;
ghost use Rattle.mw_look.specs.declared.steps.Op.TheVariants.{Load as LoadBits, Change as ChangeBits};
ghost use Rattle.mw_look.specs.declared.observations.Got.TheVariants.{Word as Found, Won as GotWon, Lost as GotLost};
ghost use Rattle.mw_rule.specs.Steps.{IsNextStep, LearnsStep};
ghost use Rattle.mw_rule.specs.WordActions.{AddsStepEvent};
ghost use Rattle.mw_rule.specs.Ways.{way_of};
ghost use Rattle.mw_rule.specs.declared.ways.Way.TheVariants as way;
ghost use Rattle.mw_table.specs.Numbers.{AreNumbered};
ghost use Rattle.mw_table.specs.Passes.{IsOf, IsOfSameWorker, is_plant, known};

use crate::shared::{Pass, Shared};
use atomic_table::Play;
use mw_actor::Actor;
use mw_look::Kind;
use mw_rule::{View, index_of};
use mw_words::At;

/// What a thread learns from a load or a fetch: what it found.
pub struct Finds;

impl Play<Actor, View> for Finds {
    ghost then = { λ step me found next. LearnsStep (Found found) me.0 next.0 × AddsStepEvent (Found found) me.0 next.0 };
}

/// What a thread learns from an exchange: whether it won.
pub struct Exchanges;

impl Play<Actor, View> for Exchanges {
    ghost then = { λ step me found next. LearnsStep (cond (found == step.first) GotWon GotLost) me.0 next.0 × AddsStepEvent (cond (found == step.first) GotWon GotLost) me.0 next.0 };
}

/// What a thread learns from an attempt to hold a word: whether it won, and which number it had.
pub struct Attempts;

impl Play<Actor, View> for Attempts {
    ghost then = { λ step me found next. (LearnsStep (cond (found == step.first) GotWon GotLost) me.0 next.0 × AddsStepEvent (cond (found == step.first) GotWon GotLost) me.0 next.0) × AreNumbered me.0 };
}

/// What a thread learns from a store: that it was made.
pub struct Stores;

impl Play<Actor, View> for Stores {
    ghost then = { λ step me found next. LearnsStep GotWon me.0 next.0 × AddsStepEvent GotWon me.0 next.0 };
}

impl Shared {
    /// Loads a word, as a step of the request that the pass carries. Returns its bits.
    pub fn load(&self, pass: &mut Pass, at: At) -> u64
        requires own { IsOf self.now pass.old }
        requires next { IsNextStep (known pass.old) pass.old.worker (LoadBits at) }
        ensures own { IsOf self.now pass.new }
        ensures worker { IsOfSameWorker pass.old pass.new }
        ensures took { LearnsStep (Found result) (known pass.old) (known pass.new) }
        ensures event { AddsStepEvent (Found result) (known pass.old) (known pass.new) }
    {
        self.table
            .shared
            .load::<Finds>(&mut pass.seat, index_of(self.pool, at))
    }

    /// Exchanges a word for another, if it has the expected bits. Returns whether it had.
    pub(crate) fn exchange(&self, pass: &mut Pass, kind: Kind, at: At, from: u64, to: u64) -> bool
        requires own { IsOf self.now pass.old }
        requires way { way_of kind ≡ way.Exchange }
        requires plain { is_plant (ChangeBits kind at from to) ≡ false }
        requires next { IsNextStep pass.old.seat.me.0 pass.old.worker (ChangeBits kind at from to) }
        ensures own { IsOf self.now pass.new }
        ensures worker { IsOfSameWorker pass.old pass.new }
        ensures took { LearnsStep (cond result GotWon GotLost) pass.old.seat.me.0 pass.new.seat.me.0 }
        ensures event { AddsStepEvent (cond result GotWon GotLost) pass.old.seat.me.0 pass.new.seat.me.0 }
    {
        let found = self
            .table
            .shared
            .compare_exchange::<Exchanges>(&mut pass.seat, index_of(self.pool, at), from, to);
        found == from
    }

    /// Exchanges a word for an attempt to hold it, if it has the expected bits. Returns whether it had. The attempt
    /// has the worker's next number, which is used up, won or lost.
    pub(crate) fn attempt(&self, pass: &mut Pass, at: At, from: u64, to: u64) -> bool
        requires own { IsOf self.now pass.old }
        requires next { IsNextStep pass.old.seat.me.0 pass.old.worker (ChangeBits kind.Plant at from to) }
        ensures own { IsOf self.now pass.new }
        ensures worker { IsOfSameWorker pass.old pass.new }
        ensures attempt { pass.new.attempt ≡ pass.old.attempt + 1 }
        ensures took { LearnsStep (cond result GotWon GotLost) pass.old.seat.me.0 pass.new.seat.me.0 }
        ensures event { AddsStepEvent (cond result GotWon GotLost) pass.old.seat.me.0 pass.new.seat.me.0 }
    {
        let stood = self
            .table
            .shared
            .compare_exchange::<Attempts>(&mut pass.seat, index_of(self.pool, at), from, to);
        pass.attempt += 1;
        stood == from
    }

    /// Stores a word.
    pub(crate) fn store(&self, pass: &mut Pass, kind: Kind, at: At, to: u64)
        requires own { IsOf self.now pass.old }
        requires way { way_of kind ≡ way.Store }
        requires next { IsNextStep pass.old.seat.me.0 pass.old.worker (ChangeBits kind at 0 to) }
        ensures own { IsOf self.now pass.new }
        ensures worker { IsOfSameWorker pass.old pass.new }
        ensures took { LearnsStep GotWon pass.old.seat.me.0 pass.new.seat.me.0 }
        ensures event { AddsStepEvent GotWon pass.old.seat.me.0 pass.new.seat.me.0 }
    {
        self.table
            .shared
            .store::<Stores>(&mut pass.seat, index_of(self.pool, at), to)
    }

    /// Subtracts from a word. Returns the bits that it had.
    pub(crate) fn subtract(&self, pass: &mut Pass, kind: Kind, at: At, number: u64) -> u64
        requires own { IsOf self.now pass.old }
        requires way { way_of kind ≡ way.Sub number }
        requires next { IsNextStep pass.old.seat.me.0 pass.old.worker (ChangeBits kind at 0 0) }
        ensures own { IsOf self.now pass.new }
        ensures worker { IsOfSameWorker pass.old pass.new }
        ensures took { LearnsStep (Found result) pass.old.seat.me.0 pass.new.seat.me.0 }
        ensures event { AddsStepEvent (Found result) pass.old.seat.me.0 pass.new.seat.me.0 }
    {
        self.table
            .shared
            .fetch_sub::<Finds>(&mut pass.seat, index_of(self.pool, at), number)
    }
}
