//! Serves a request to its reply.
//!
//! mw_service answers each request of a session by `Engine::serve`. docs/PROMISES.md cites its contract. A change of
//! it, of `specs/History` or `specs/Replies` changes what clients are promised; one of `specs/RequestTurns`, which calls
//! on files are made.
ghost use Rattle.std.specs.Prelude.{◌≡◌, true, false, None};
ghost use Rattle.mw_actor.specs.Program.{replied};
ghost use Rattle.mw_core.specs.FromTable.{IsCarried, IsOfSameWorker, View as Knowledge, known};
ghost use Rattle.mw_engine.specs.History.{IsAnswered, IsInProgress};
ghost use Rattle.mw_engine.specs.Identity.{IsFor};
ghost use Rattle.mw_engine.specs.Passes.{IsPassOf};
ghost use Rattle.mw_engine.specs.Replies.{IsOnItsWay, IsReplyTo};
ghost use Rattle.mw_engine.specs.RequestTurns.{IsBroughtToReply, MakesTurn};
ghost use Rattle.mw_engine.specs.Steps.{IsSameRequest};

use crate::brand::EngineBrand;
use crate::engine::Engine;
use crate::file_calls::due_call;
use crate::hold::{Hold, Point};
use mw_actor::{Actor, Point as Step};
use mw_core::Pass;
use mw_disk::Disk;
use mw_look::Call;
use mw_words::{Job, Reply};
use std::sync::Wait;

impl<J: EngineBrand, D: Disk + Drop, H: Hold + Drop> Engine<J, D, H> {
    /// Serves one job of a tenant and gives its reply, one that the job can have. The request is noted with its reply,
    /// at a place that is right and no smaller than what the pass had seen when the request came. It is answered BUSY
    /// or FAULT only if one of its own steps observed the cause. WORN has such a cause, or all attempt numbers of the
    /// worker are used up. A worker takes two locks: the file's, for one call on it at a time, and for moments that of
    /// the file's room. It makes its request's steps itself, with neither. Whoever has the file's may make the calls of
    /// others. Until its reply, only its own steps, and calls on the file of its tenant, change the request and
    /// its pass (`calls`).
    pub fn serve(&self, rt: &impl Wait, pass: &mut Pass, tenant: u8, job: &Job) -> Reply
        requires own { IsPassOf J.identity pass.old }
        requires formed { IsFor J.identity.lines tenant job.now }
        requires idle { pass.old.idle ≡ true }
        ensures own { IsPassOf J.identity pass.new }
        ensures worker { IsOfSameWorker pass.old pass.new }
        ensures answered { IsAnswered (known pass.old) (known pass.new) tenant job.now result }
        ensures answers { IsReplyTo job.now result }
        ensures calls { IsBroughtToReply D.facts J.identity pass.old tenant job.now pass.new result }
        ensures idle { pass.new.idle ≡ true }
    {
        let mut actor = self.request(pass, tenant, job.copy());
        self.words.core.begin(pass, &mut actor);
        for _ in rt.forever() {
            if let Some(reply) = actor.reply() {
                pass.rest(&actor);
                self.depart(rt, pass.worker(), tenant);
                self.hold.at(pass.worker(), Point::BeforeReply);
                return reply;
            }
            self.go_on(rt, pass, &mut actor);
        }
        unreachable!()
    }

    /// Makes the next step of a request that has no reply yet, or its call on its tenant's file, alone or along with
    /// those of others.
    fn go_on(&self, rt: &impl Wait, pass: &mut Pass, actor: &mut Actor)
        requires own { IsPassOf J.identity pass.old }
        requires carried { IsCarried pass.old actor.old }
        requires running { replied actor.old ≡ None }
        ensures own { IsPassOf J.identity pass.new }
        ensures worker { IsOfSameWorker pass.old pass.new }
        ensures request { IsSameRequest actor.old actor.new }
        ensures call { (first : Knowledge) → IsInProgress first pass.old.seat.me.0 actor.old → IsInProgress first pass.new.seat.me.0 actor.new }
        ensures way { IsOnItsWay actor.old.job actor.old.point → IsOnItsWay actor.new.job actor.new.point }
        ensures carried { IsCarried pass.new actor.new }
        ensures turn { MakesTurn D.facts J.identity pass.old actor.old pass.new actor.new }
    {
        if let Some(due) = due_call(actor) {
            self.hold_before(pass, due.call);
            self.combine(rt, pass, actor, due);
            return;
        }
        let was_planting = is_planting(actor);
        self.words.core.step(pass, actor);
        if was_planting && has_planted(actor) {
            self.hold.at(pass.worker(), Point::Planted);
        }
    }

    /// Tells the hold that a seal or a settle is next.
    fn hold_before(&self, pass: &Pass, call: Call) {
        match call {
            Call::Seal => self.hold.at(pass.worker(), Point::BeforeSeal),
            Call::Settle => self.hold.at(pass.worker(), Point::BeforeSettle),
            Call::Prepare | Call::Cancel => {}
        }
    }
}

/// Whether an attempt to hold a word is next.
fn is_planting(actor: &Actor) -> bool {
    matches!(actor.point(), Step::Plant { .. })
}

/// Whether the last step was an attempt to hold a word, and won.
fn has_planted(actor: &Actor) -> bool {
    matches!(actor.point(), Step::CheckThenResolve { .. })
}
