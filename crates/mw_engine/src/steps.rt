//! Serves a request one atomic step at a time.
//!
//! Only tests call it; `Engine::serve` makes all steps of a request by itself. Change it with `specs/History`,
//! `specs/Passes`, `specs/Replies`, `specs/Requests` and `specs/Steps`.
ghost use Rattle.std.specs.Prelude.{◌≡◌, true, false, is_some, IfSome, None};
ghost use Rattle.mw_actor.specs.Program.{replied};
ghost use Rattle.mw_core.specs.declared.calls.Advance.TheVariants.{NeedsFile};
ghost use Rattle.mw_core.specs.Steps.{answer_of};
ghost use Rattle.mw_core.specs.FromTable.{IsCarried, IsOfSameWorker, View as Knowledge, known};
ghost use Rattle.mw_engine.specs.History.{IsInProgress, IsSince, RequestOutcome};
ghost use Rattle.mw_engine.specs.Passes.{IsPassOf};
ghost use Rattle.mw_engine.specs.Replies.{IsOnItsWay, IsReplyTo};
ghost use Rattle.mw_engine.specs.Requests.{IsRequest};
ghost use Rattle.mw_engine.specs.Steps.{EndsAs, IsAtCall, IsSameRequest, MakesStep};

use crate::brand::EngineBrand;
use crate::engine::Engine;
use mw_actor::Actor;
use mw_core::{Advance, Pass};
use mw_disk::Disk;

impl<J: EngineBrand, D: Disk, H> Engine<J, D, H> {
    /// Makes one atomic step of a request, on one shared word. If the pass is idle, the request comes with this
    /// step, its first. Else the request must be the one that the pass carries. Does nothing if a call on the
    /// tenant's file is next: [`Engine::file`] makes it. Once the request has its reply, the pass is idle, and the
    /// request is noted at a place that is right.
    pub fn advance(&self, pass: &mut Pass, actor: &mut Actor) -> Advance
        requires own { IsPassOf J.identity pass.old }
        requires comes { pass.old.idle ≡ true → IsRequest J.identity pass.old.worker actor.old }
        requires goes_on { pass.old.idle ≡ false → IsCarried pass.old actor.old }
        ensures own { IsPassOf J.identity pass.new }
        ensures worker { IsOfSameWorker pass.old pass.new }
        ensures step { MakesStep pass.old pass.new actor.old actor.new result }
        ensures request { IsSameRequest actor.old actor.new }
        ensures file { result ≡ NeedsFile → IsAtCall actor.new }
        ensures call { (first : Knowledge) → IsSince pass.old.idle first (known pass.old) actor.old → RequestOutcome first (known pass.new) actor.new }
        ensures way { IsOnItsWay actor.old.job actor.old.point → IsOnItsWay actor.new.job actor.new.point }
        ensures answers { IsOnItsWay actor.old.job actor.old.point → IfSome (replied actor.new) (IsReplyTo actor.new.job) }
        ensures goes_on { pass.new.idle ≡ false → IsCarried pass.new actor.new }
        ensures idle { pass.new.idle ≡ is_some (replied actor.new) }
    {
        let ended = self.make_step(pass, actor);
        if actor.reply().is_some() {
            pass.rest(actor);
        }
        ended
    }

    /// Makes the step. The pass isn't idle then, even if there is a reply.
    fn make_step(&self, pass: &mut Pass, actor: &mut Actor) -> Advance
        requires own { IsPassOf J.identity pass.old }
        requires comes { pass.old.idle ≡ true → IsRequest J.identity pass.old.worker actor.old }
        requires goes_on { pass.old.idle ≡ false → IsCarried pass.old actor.old }
        ensures own { IsPassOf J.identity pass.new }
        ensures worker { IsOfSameWorker pass.old pass.new }
        ensures ends { EndsAs pass.old.idle pass.old pass.new actor.old actor.new result }
        ensures call { (first : Knowledge) → IsSince pass.old.idle first pass.old.seat.me.0 actor.old → IsInProgress first pass.new.seat.me.0 actor.new }
        ensures way { IsOnItsWay actor.old.job actor.old.point → IsOnItsWay actor.new.job actor.new.point }
        ensures carried { IsCarried pass.new actor.new }
        ensures busy { replied actor.new ≡ None → pass.new.idle ≡ false }
    {
        if pass.idle() {
            self.words.core.begin(pass, actor);
            return ended(actor);
        }
        self.words.core.advance(pass, actor)
    }
}

/// How a call that made a step ended, by the reply after it.
fn ended(actor: &Actor) -> Advance
    ensures { result ≡ answer_of (replied actor.now) }
{
    match actor.reply() {
        Some(_) => Advance::Finished,
        None => Advance::Stepped,
    }
}
