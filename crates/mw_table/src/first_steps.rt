//! Makes the first step of a request, and loads that are no step of a request.
//!
//! mw_core begins each request by `begin`. mw_engine loads its figures by `figure`. Change it with `specs/Origins`,
//! `specs/Passes` and `specs/Said`.
ghost use Rattle.std.specs.Prelude.{◌≡◌, true, false};
ghost use Rattle.mw_look.specs.declared.observations.Got.TheVariants.{Word as Found};
ghost use Rattle.mw_world.specs.Definition.Extent.{has_place};
ghost use Rattle.mw_rule.specs.Steps.{LearnsFirstStep, LearnsPlainLoad, MayCome};
ghost use Rattle.mw_rule.specs.Layout as layout;
ghost use Rattle.mw_rule.specs.WordActions.{AddsFirstStepEvents, AddsNoEvent};
ghost use Rattle.mw_table.specs.Origins.{config_of};
ghost use Rattle.mw_table.specs.Passes.{IsOf, IsOfSameWorker, known};
ghost use Rattle.mw_table.specs.Said.{BeganAs};

use crate::shared::{Pass, Shared};
use atomic_table::Play;
use mw_actor::Actor;
use mw_rule::{View, index_of};
use mw_words::At;

/// What a thread learns from a request's first step: the request came, and what the step found.
pub struct Comes;

impl Play<Actor, View> for Comes {
    ghost then = { λ step me found next. BeganAs step.said found me.0 next.0 };
}

/// What a thread learns from a load that is no event: the bits that it found.
pub struct Looks;

impl Play<Actor, View> for Looks {
    ghost then = { λ step me found next. LearnsPlainLoad step.word found me.0 next.0 × AddsNoEvent step.word found me.0 next.0 };
}

impl Shared {
    /// Brings a request to the pass's worker, which has none, and makes its first step, a load of its tenant's door.
    /// Returns the door's bits, which the caller must tell the request's machine. The pass isn't idle then. The load
    /// is an exchange of 0 for 0, which never changes a word, and which can announce the request as a load can't. It
    /// extends a run of the world by the request's coming, this step and, if the request has its reply then, its
    /// hand-out.
    pub fn begin(&self, pass: &mut Pass, actor: &Actor) -> u64
        requires own { IsOf self.now pass.old }
        requires may { MayCome (known pass.old) pass.old.worker actor.now }
        ensures own { IsOf self.now pass.new }
        ensures worker { IsOfSameWorker pass.old pass.new }
        ensures busy { pass.new.idle ≡ false }
        ensures began { LearnsFirstStep actor.now (Found result) (known pass.old) (known pass.new) }
        ensures event { AddsFirstStepEvents actor.now (Found result) (known pass.old) (known pass.new) }
    {
        let door = index_of(self.pool, At::Door(actor.tenant()));
        pass.idle = false;
        self.table
            .shared
            .compare_exchange_with::<Comes>(&mut pass.seat, door, 0, 0, actor)
    }

    /// Loads a word for reports and tests, which is no step of a request. Returns its bits. The pass may carry a
    /// request or be idle, and stays so. Some run that extends the one that the pass knew, by no event of this call,
    /// leads to a world with these bits. Two figures may be of different points of the run.
    pub fn figure(&self, pass: &mut Pass, at: At) -> u64
        requires own { IsOf self.now pass.old }
        requires there { has_place (config_of self.now.table.shared.key) at ≡ true }
        ensures own { IsOf self.now pass.new }
        ensures worker { IsOfSameWorker pass.old pass.new }
        ensures idle { pass.new.idle ≡ pass.old.idle }
        ensures looked { LearnsPlainLoad (layout.index_of self.now.pool at) result (known pass.old) (known pass.new) }
        ensures event { AddsNoEvent (layout.index_of self.now.pool at) result (known pass.old) (known pass.new) }
    {
        self.table
            .shared
            .load::<Looks>(&mut pass.seat, index_of(self.pool, at))
    }
}
