//! A pass between two requests, which may be borrowed for the next one.
//!
//! `locked_passes` keeps it in a lock. Change it with `specs/Borrowed`, `specs/OwnReplies`, `specs/RequestTokens` and
//! `specs/SinceStart`.
ghost use Rattle.std.specs.Prelude.{◌≡◌, true, Some};
ghost use Rattle.mw_engine.specs.FromBelow.{IsSamePass};
ghost use Rattle.mw_engine.specs.Identity.{IsFor};
ghost use Rattle.mw_engine.specs.Notes.{IsNoteOf};
ghost use Rattle.mw_engine.specs.Passes.{IsPassOf};
ghost use Rattle.mw_report.specs.Table.{AreWithinLimits};
ghost use Rattle.mw_service.specs.Borrowed.{AreCountedBy, IsNoteOfEngine, LearnsNote};
ghost use Rattle.mw_service.specs.OwnReplies.{IsAnsweredOwnBy, came_to};
ghost use Rattle.mw_service.specs.RequestTokens.{source_of};
ghost use Rattle.mw_service.specs.SinceStart.{IsSinceStart};

use crate::request_tokens::{OwnTokens, TokenBrand, TokenSource, TokenTable};
use mw_disk::Disk;
use mw_engine::{Engine, EngineBrand, Hold, Note, Pass};
use mw_report::Figures;
use mw_words::{Job, Reply};
use std::marker::PhantomData;
use std::sync::Wait;

/// A pass of an engine, whose worker has no request. With it goes the source of the tokens of this worker's requests, which has
/// given out one for each request that came to the worker.
#[derive(Drop)]
pub struct IdlePass<J: EngineBrand, K: TokenBrand> {
    pub(crate) pass: Pass,
    pub(crate) source: TokenSource<K>,
    pub(crate) brand: PhantomData<J>,
    ghost own: { IsPassOf J.identity pass },
    ghost idle: { pass.idle ≡ true },
    ghost begun: { IsSinceStart J.identity pass.seat.me.0.known_run },
    ghost counted: { source.seat.me.0 ≡ source_of pass.worker (came_to pass.seat.me.0.tokens) },
}

impl<J: EngineBrand, K: TokenBrand> IdlePass<J, K> {
    /// Serves a job of a session that has seen what the note says. Gives the reply, a note of what the session has seen
    /// then, and the token of the request.
    pub(crate) fn serve<D: Disk + Drop, H: Hold + Drop>(
        &mut self,
        engine: &Engine<J, D, H>,
        rt: &impl Wait,
        tokens: &TokenTable<K>,
        note: Option<Note>,
        tenant: u8,
        job: &Job,
    ) -> (Reply, Note, OwnTokens<K>)
        requires its { IsNoteOfEngine J.identity note }
        requires formed { IsFor J.identity.lines tenant job.now }
        ensures answered { IsAnsweredOwnBy J.identity self.old.pass self.new.pass note tenant job.now result.0 (Some result.1) result.2.seat.me.0.tokens }
        ensures its { IsNoteOf J.identity result.1 }
    {
        self.learn(engine, note);
        let reply = engine.serve(rt, &mut self.pass, tenant, job);
        let note = engine.note(&mut self.pass);
        let token = tokens.take(&mut self.source);
        (reply, note, token)
    }

    /// Gives the figures for a session that has seen what the note says, and a note of what it has seen then.
    pub(crate) fn figures<D: Disk, H>(
        &mut self,
        engine: &Engine<J, D, H>,
        note: Option<Note>,
    ) -> (Figures, Note)
        requires its { IsNoteOfEngine J.identity note }
        ensures counted { AreCountedBy J.identity self.old.pass self.new.pass note result.0 (Some result.1) }
        ensures limits { AreWithinLimits result.0.tenants.items result.0.pool_free }
        ensures its { IsNoteOf J.identity result.1 }
    {
        self.learn(engine, note);
        let figures = engine.figures(&mut self.pass);
        let note = engine.note(&mut self.pass);
        (figures, note)
    }

    /// Lets the pass learn what a session has seen, if it has seen something.
    fn learn<D: Disk, H>(&mut self, engine: &Engine<J, D, H>, note: Option<Note>)
        requires its { IsNoteOfEngine J.identity note }
        ensures same { IsSamePass self.old.pass self.new.pass }
        ensures learned { LearnsNote note self.old.pass.seat.me.0 self.new.pass.seat.me.0 }
    {
        if let Some(note) = note {
            engine.learn(&mut self.pass, note);
        }
    }
}
